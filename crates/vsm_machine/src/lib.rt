//! The machine of a bench: its storage with the names that its statements define, plans of statements, and the changes
//! that carry them out.
//!
//! [`plan_of`] finds what a statement will do, or why it's refused, by only reading; [`reserve`] makes a
//! [`MachineChange`] of the plan, with all the memory that it needs; and the machine's `swap` applies the change and
//! leaves its inverse.
//!
//! A [`NameTable`] holds the names that are defined now and, after them, those of statements that were undone, in the
//! order in which they would be defined again. A [`NameChange`] is one step of a statement, by places of the table:
//! [`NameTable::swap`] takes it and leaves its inverse.
#![tactic(auto)]

mod causes;
pub mod laws;
mod machine;
mod name_changes;
mod names;
mod plans;
mod refusals;
mod services;
mod values;

pub use causes::{UnknownName, cause_of};
pub use machine::{Machine, MachineChange};
pub use name_changes::NameChange;
pub use names::NameTable;
pub use operand_texts::Name;
pub use plans::{NamePlan, Planned, plan_of, reserve};
pub use refusals::{NewFault, Refusal};
pub use services::service_of;
pub use storage_core::{PlanRecords, Reply, Settings, Storage};
pub use values::look_up;
