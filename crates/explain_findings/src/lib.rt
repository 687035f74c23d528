//! What is found in a script though each answer is right: what is stored or read outside of its area, what is used by a
//! name after its end, what is released in part, what is read and was never stored, and what is left taken at the end.
#![tactic(auto)]

mod accesses;
mod endings;
mod findings;
mod homes;
mod judging;
mod left;
mod parts;
mod replay;
mod stores;
mod tables;

pub use findings::{Finding, Findings, Outside, Part, Unset};
pub use homes::Home;
pub use left::{Left, LeftSum};
pub use replay::find;
