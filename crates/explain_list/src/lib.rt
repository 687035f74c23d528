//! Listings of scripts: each line with its answer, and where a statement is wrong.
#![tactic(auto)]

mod answers;
pub mod causes;
mod faults;
mod laws;
mod layouts;
mod listing;
mod notes;
mod objects;
mod options;
mod page_texts;
pub mod pages;
pub mod rows;
pub mod words;

pub use faults::ListFault;
pub use laws::rows_begin_as_no_answer;
pub use layouts::Layout;
pub use listing::{list, rest_from};
