//! Runs of numbers as a list in a balanced search tree of elements: found, inserted and removed by their place.
#![tactic(auto)]

mod run;
mod shape;
mod tree;

pub use run::Run;
pub use tree::{FoundRun, RunTree};
