//! The figures of a bench's storage after a statement, and over time.
#![tactic(auto)]

mod changes;
mod csv;
mod faults;
mod forms;
pub mod laws;
mod objects;
mod pool_figures;
mod pool_rows;
mod pool_sums;
mod rows;
mod runs;
mod said;
mod tables;
mod tallies;
mod tasks;
mod times;
mod values;
mod walks;

pub use changes::over_time;
pub use faults::ReportFault;
pub use runs::{LastAnswer, TakenTo, lacks_answer, lines_with, report, take_to, unanswered};
