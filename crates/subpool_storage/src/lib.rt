//! Subpools with their pages, their free storage and their cell pools: the set of subpools, the queues of each and the
//! cell pools of all, as one.
#![tactic(auto)]

mod cells;
mod discard;
pub mod laws;
mod places;
mod readers;
mod sharing;
mod storage;

pub use cell_pool::{CellId, CellPoolHeader, CellPoolName, CellPools, CellSettings};
pub use storage::SubpoolStorage;
pub use subpool_set::{SharerPlace, SubpoolPlace};
