//! Plans of cell pools that are created, hand out cells, take them back and are deleted.
#![tactic(auto)]

mod areas;
mod build;
mod delete;
mod emptied;
mod free;
mod get;
mod giving_back;
mod noting;
mod seen;
mod sizes;

pub use build::{BuildPlan, plan_build};
pub use delete::{DeletePlan, plan_delete};
pub use free::plan_free;
pub use get::plan_get;
