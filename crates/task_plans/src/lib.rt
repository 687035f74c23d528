//! Plans of tasks that are attached, make requests and end, and the records of each.
#![tactic(auto)]

mod attach;
mod end;
mod ended;
mod numbers;
mod passing;
mod registers;
mod run;
mod sights;

pub use attach::{AttachPlan, plan_attach};
pub use end::{EndPlan, plan_detach, plan_end_task};
pub use run::plan_run;
use std::alloc::AllocError;
use storage_swap::ChangeBuilder;

/// A change that is being made, record by record.
pub(crate) type Builder = ChangeBuilder;

/// The outcome of pushing records: nothing, or memory is refused.
pub(crate) type Pushed = Result<(), AllocError>;
