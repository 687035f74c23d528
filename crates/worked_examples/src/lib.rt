//! Worked examples of the plain machine: lists of calls with their answers, computed from the definitions of
//! `vsm_model`. Each is the contract of a function that does nothing.
#![tactic(auto)]

pub mod cells;
pub mod codes;
pub mod maps;
pub mod steps;
pub mod storage;
pub mod tasks;
