//! Operand texts of storage macros: the words of a line, the operands of a field, and the values, places and contents
//! that they spell.
#![tactic(auto)]

mod characters;
pub mod contents;
mod laws;
pub mod nesting;
pub mod numbers;
pub mod runs;
pub mod values;
pub mod words;

pub use contents::Content;
pub use laws::{valid_contents_are_spelled, valid_places_are_spelled, valid_values_are_spelled};
pub use values::{Place, Value};
pub use words::Name;
