//! A bench of z/OS virtual storage: it carries out statements, steps back and forward, and runs scripts.
#![tactic(auto)]

mod advice;
mod commands;
mod help;
pub mod laws;
mod messages;
mod options;
mod script_files;
mod settings;

pub use commands::command;
pub use macro_reader::{
    Content, Family, Form, Header, Length, Name, NewCellPool, Place, Statement, Subpools, Value,
};
pub use messages::Messages;
pub use script_files::ScriptFiles;
pub use script_steps::{Bench, NewFault, Refusal, RunFault, RunTotals, run};
pub use settings::{DEFAULT_SETTINGS, settings_asked, with_settings};
pub use step_history::{TooFar, TooFarAhead};
pub use vsm_model::{Boundary, Code, Location, Reply, Residence, Settings};
