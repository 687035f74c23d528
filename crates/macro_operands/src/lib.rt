//! Operands of storage macros: the row of a statement's operands, what each says by its kind, and their first fault;
//! and what statements ask for, with which of these requests can be written.
#![tactic(auto)]

mod faults;
mod headers;
mod lengths;
mod locations;
pub mod operands;
mod requests;
pub mod rows;
pub mod said;

pub use faults::FaultKind;
pub use headers::{Header, is_header};
pub use requests::{Form, Length, NewCellPool, Request, Statement, Subpools};
pub use vsm_model::{Boundary, Family, Location};
