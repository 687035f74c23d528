//! Laws of the services over the plain machine, by the states before and after, in a user's words: tasks that are
//! attached and end (`tasks`), storage that is obtained, released and stored (`storage`), cell pools (`cells`), and
//! what holds of each state that is reached (`machines`).
#![tactic(auto)]

pub mod cells;
pub mod machines;
pub mod storage;
pub mod tasks;
