//! What only a Rust caller can try: of the storage its changes in place, its plans and its map; of the bench readers
//! and writers of its own, and calls of a `Bench` and of a table of names.
//!
//! Scripts and command lines are tried with the built program, by the rows of tests/rows. Expected texts are written by
//! hand from the rules of docs/STATEMENTS.md and docs/MESSAGES.md, never taken from a run.
#![tactic(auto)]

#[cfg(test)]
mod benches;
#[cfg(test)]
mod carrying;
#[cfg(test)]
mod checks;
#[cfg(test)]
mod examples;
#[cfg(test)]
mod names;
#[cfg(test)]
mod readings;
#[cfg(test)]
mod running;
#[cfg(test)]
mod storage_core_services;
#[cfg(test)]
mod storage_map_texts;
#[cfg(test)]
mod storage_swap_changes;
#[cfg(test)]
mod streams;
