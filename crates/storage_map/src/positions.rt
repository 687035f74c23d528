//! Cell pools, their extents and their free cells by position: the item of an index, from 0 on, and none past the last.
//! Each walks to its item.
ghost use Rattle.std.specs.Prelude.{◌≡◌, None, Some, IsSome, IfNone, IfSome, slice_get};
ghost use Rattle.storage_changes.specs.PoolTable.{cell_pool_of};
ghost use Rattle.storage_map.specs.Cells.{cell_pool};
ghost use Rattle.storage_core.specs.Meaning.{state_of};

use crate::pools::{cell_pool_name, next_cell_pool};
use crate::walks::{first_cell_extent, first_free_cell, next_cell_extent, next_free_cell};
use cell_pool::{CellId, Extent};
use storage_changes::order::rows_come_in_order;
use storage_core::Storage;
use subpool_storage::laws::cell_pools_are_named;

/// The cell pool of this index, by name in byte order.
pub fn cell_pool_at(storage: &Storage, i: u32) -> Option<CellId>
    ensures none { IfNone result (slice_get (state_of storage.now).cell_pools i ≡ None) }
    ensures there { IfSome result (λ id. IsSome (cell_pool storage.now id)) }
    ensures row { IfSome result (λ id. IfSome (cell_pool storage.now id) (λ p.
        slice_get (state_of storage.now).cell_pools i ≡ Some (p.name, cell_pool_of p))) }
{
    rows_come_in_order();
    cell_pools_are_named();
    let mut id = next_cell_pool(storage, None)?;
    for _ in 0..i {
        let name = cell_pool_name(storage, id);
        id = next_cell_pool(storage, Some(&name))?;
    }
    Some(id)
}

/// The extent of this index of a cell pool, in the order in which they were made.
pub fn cell_extent_at(storage: &Storage, id: CellId, i: u32) -> Option<Extent>
    requires { IsSome (cell_pool storage.now id) }
    ensures { IfSome (cell_pool storage.now id) (λ p. result ≡ slice_get p.extents i) }
{
    let mut place = first_cell_extent(storage, id);
    for _ in 0..i {
        (_, place) = next_cell_extent(storage, place)?;
    }
    let (extent, _) = next_cell_extent(storage, place)?;
    Some(extent)
}

/// The address of the free cell of this index of a cell pool, in the order in which they are given out.
pub fn free_cell_at(storage: &Storage, id: CellId, i: u32) -> Option<u32>
    requires { IsSome (cell_pool storage.now id) }
    ensures { IfSome (cell_pool storage.now id) (λ p. result ≡ slice_get p.cells i) }
{
    let mut place = first_free_cell(storage, id);
    for _ in 0..i {
        (_, place) = next_free_cell(storage, place)?;
    }
    let (cell, _) = next_free_cell(storage, place)?;
    Some(cell)
}
