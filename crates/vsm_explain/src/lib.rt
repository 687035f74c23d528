//! The program `vsm-explain`: reads a script, answers what the arguments ask about it, and returns the exit status.
#![tactic(auto)]

mod answers;
mod commands;
mod faults;
mod forms;
mod help;
mod options;
mod progress;
mod questions;
mod refusals;
mod scripts;

pub use commands::{Terminals, command};
pub use progress::Stopwatch;
