//! What is wrong with a script: a line for each fault, each finding and each warning.
#![tactic(auto)]

mod check_lines;
mod checking;
mod found_checks;
mod found_texts;
mod layouts;
mod left_texts;
mod notes;
mod operands;
mod page_checks;
mod refusals;
mod rows;

pub use checking::check;
pub use layouts::CheckLayout;
