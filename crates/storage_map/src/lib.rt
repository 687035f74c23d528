//! The storage map: the text that shows all that a storage holds, and its totals; and what a storage says of its cell
//! pools, in the order of their names, with what they were built with, their extents and their free cells. (z/OS MVS
//! Programming: Assembler Services Reference, CPOOL.) No reading takes memory.
#![tactic(auto)]

mod areas;
mod cells;
mod counts;
mod fields;
mod maps;
mod pools;
mod positions;
mod subpools;
mod sums;
mod tasks;
mod walks;

pub use cell_pool::{
    CellExtentPlace, CellId, CellPlace, CellPoolHeader, CellPoolName, CellSettings, Extent,
};
pub use counts::Totals;
pub use maps::{put_history, put_map, write_history, write_map};
pub use pools::{cell_pool_header, cell_pool_name, cell_pool_settings, next_cell_pool};
pub use positions::{cell_extent_at, cell_pool_at, free_cell_at};
pub use sums::totals;
pub use walks::{first_cell_extent, first_free_cell, next_cell_extent, next_free_cell};
