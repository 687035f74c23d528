//! Scripts on a bench: line by line, where each line is carried out, answered, and reported by its line of output; or
//! whole, from a reader to a writer.
#![tactic(auto)]

mod answers;
mod faults;
mod lines;
mod responses;
mod runs;
mod session;
mod steps;
mod texts;
mod totals;

pub use bench_core::{Bench, NewFault, Refusal};
pub use faults::RunFault;
pub use lines::Ending;
pub use macro_reader::{FaultKind, ReaderState};
pub use responses::{NumberedResponse, Response};
pub use runs::run;
pub use session::{LINES, Session, TooLong};
pub use steps::{Step, Watch, before_feed};
pub use texts::{fault_word, put_behind, put_numbered, put_response, put_told};
pub use totals::RunTotals;
