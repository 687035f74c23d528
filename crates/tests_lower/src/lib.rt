//! Tests of the reader, kept changes, queues, tasks, frames and cell pools, that need a Rust caller.
#![tactic(auto)]

#[cfg(test)]
mod cells;
#[cfg(test)]
mod checks;
#[cfg(test)]
mod counter;
#[cfg(test)]
mod frames;
#[cfg(test)]
mod free_areas;
#[cfg(test)]
mod kept_changes;
#[cfg(test)]
mod read_lines;
#[cfg(test)]
mod runs_of_pages;
#[cfg(test)]
mod spelled_requests;
#[cfg(test)]
mod subpool_steps;
#[cfg(test)]
mod subpool_storage_cells;
#[cfg(test)]
mod tasks;
