//! Sets of pages as runs: the extents of a subpool (DQEs) and the unassigned pages of the regions (FBQEs).
#![tactic(auto)]

mod extents;
pub mod laws;
mod pages;

pub use extents::Extents;
pub use pages::{Page, Pages};
pub use run_set::{Run, RunPlace};
