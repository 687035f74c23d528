//! Statements of storage macros: what the columns of a first line and an operand field ask for, or their first fault.
#![tactic(auto)]

mod attach;
mod cpool;
mod detach;
mod forms;
mod freemain;
mod getmain;
mod laws;
mod peek;
mod poke;
mod run;
mod statements;
mod steps;
mod storage;

pub use laws::valid_requests_are_spelled;
pub use macro_operands::{
    Boundary, Family, FaultKind, Form, Header, Length, Location, NewCellPool, Request, Statement,
    Subpools,
};
pub use statements::{Head, head_of, statement_into, statement_with};
