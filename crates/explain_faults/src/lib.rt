//! Where a statement is wrong: its faulty operand, the roles of lines, the caret, warnings and hints.
#![tactic(auto)]

pub mod carets;
mod fields;
mod forms;
pub mod gathered;
mod guesses;
pub mod hints;
mod laws;
mod likeness;
pub mod lines;
mod missing;
mod operand_hints;
pub mod operand_places;
mod operands;
pub mod roles;
pub mod stands;
mod values;
pub mod warnings;

pub use laws::field_bytes_are_there;
pub use likeness::nearness;
