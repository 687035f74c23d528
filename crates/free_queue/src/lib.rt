//! The free storage of a subpool: a set of doublewords, whose maximal runs are the free areas (FQEs).
#![tactic(auto)]

pub mod laws;
mod queue;

pub use queue::{Area, FreeQueue};
pub use run_set::{Around, Cover, Gap, RunPlace};
