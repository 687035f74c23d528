//! A bench: a machine, and the history of changes along which it goes back and forward.
#![tactic(auto)]

mod bench;
mod maps;
mod readings;

pub use bench::Bench;
pub use vsm_machine::{NewFault, Refusal, UnknownName};
