//! Statements of storage macros, read line by line.
#![tactic(auto)]

mod columns;
mod continuation;
mod laws;
mod modes;
mod reading;

pub use laws::{every_script_is_read, lines_have_roles, one_reading, valid_requests_are_read};
pub use macro_statements::{
    Boundary, Family, FaultKind, Form, Header, Length, Location, NewCellPool, Request, Statement,
    Subpools, valid_requests_are_spelled,
};
pub use operand_texts::{
    Content, Name, Place, Value, valid_contents_are_spelled, valid_places_are_spelled,
    valid_values_are_spelled,
};
pub use reading::{Fault, Fed, Reader, ReaderState};
