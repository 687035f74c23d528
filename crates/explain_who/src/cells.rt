//! Cell pools, and their cells, that have an address.
ghost use Rattle.std.specs.Prelude.{◌≡◌, ◌≤◌, IsSome, IfSome, map, option_map};
ghost use Rattle.storage_changes.specs.PoolTable.{cell_pool_of, extent_of};
ghost use Rattle.storage_core.specs.Meaning.{state_of};
ghost use Rattle.storage_map.specs.Cells.{cell_pool};
ghost use Rattle.vsm_model.specs.Releasing.{overlaps_cells};
ghost use Rattle.explain_who.specs.Taken.{cell_at, cell_in, cell_with, extent_with, has_address, taken_by, taken_cell};
ghost use Rattle.explain_who.specs.Taken.{taken_in};

use crate::takers::{PoolName, Taken};
use arrayvec::ArrayVec;
use cell_pool::laws::pools_are_one;
use storage_changes::tables::overlaps_are_met;
use storage_core::{Storage, Subpool};
use storage_map::{
    CellId, CellPoolName, Extent, cell_pool_name, cell_pool_settings, first_cell_extent,
    next_cell_extent, next_cell_pool,
};
use subpool_storage::laws::cell_pools_are_named;

/// Whether an extent of cells of a size has an address: it goes to the end of its last doubleword.
fn has_address(size: u32, address: u32, extent: Extent) -> bool
    ensures { result ≡ has_address size address (extent_of extent) }
{
    let bytes = u64::from(extent.count) * u64::from(size);
    let end = u64::from(extent.start) + 8 * ((bytes + 7) / 8);
    extent.start <= address && u64::from(address) < end
}

/// The address of the cell of an extent in which an address lies; `None` after the last cell.
fn cell_with(size: u32, address: u32, extent: Extent) -> Option<u32>
    requires { extent.start ≤ address }
    ensures { result ≡ cell_with size address (extent_of extent) }
{
    let offset = address - extent.start;
    if u64::from(offset) < u64::from(extent.count) * u64::from(size) {
        Some(address - offset % size)
    } else {
        None
    }
}

/// The first extent of a cell pool with cells of a size that has an address.
fn extent_with(storage: &Storage, id: CellId, size: u32, address: u32) -> Option<Extent>
    requires { IsSome (cell_pool storage.now id) }
    ensures first { IfSome (cell_pool storage.now id) (λ p.
        option_map extent_of result ≡ extent_with size address (map extent_of p.extents)) }
    ensures before { IfSome result (λ x. x.start ≤ address) }
{
    let mut place = first_cell_extent(storage, id);
    while let Some((extent, behind)) = next_cell_extent(storage, place) {
        if has_address(size, address, extent) {
            return Some(extent);
        }
        place = behind;
    }
    None
}

/// The name of a cell pool.
fn name_of(storage: &Storage, id: CellId) -> PoolName
    requires { IsSome (cell_pool storage.now id) }
    ensures { IfSome (cell_pool storage.now id) (λ p. result.items ≡ p.name) }
{
    let name = cell_pool_name(storage, id);
    let _len = name.len();
    let mut room = ArrayVec::new();
    room.try_extend_from_slice(name.as_str().as_bytes())
        .unwrap();
    room
}

/// What a cell pool takes in a cell: whether it's in use or free; or after the last cell of an extent.
fn taken_cell(storage: &Storage, id: CellId, cell: Option<u32>) -> Taken
    requires { IsSome (cell_pool storage.now id) }
    ensures { IfSome (cell_pool storage.now id) (λ p. result ≡ taken_cell p.name (cell_pool_of p) cell) }
{
    let name = name_of(storage, id);
    match cell {
        None => Taken::PastCells(name),
        Some(cell) => {
            if storage.cell_pools().in_use(storage.elements(), id, cell) {
                Taken::UsedCell(name)
            } else {
                Taken::FreeCell(name)
            }
        }
    }
}

/// How a cell pool takes an address; `None` if none of its extents has it.
fn taken_in(storage: &Storage, id: CellId, address: u32) -> Option<Taken>
    requires { IsSome (cell_pool storage.now id) }
    ensures { IfSome (cell_pool storage.now id) (λ p. result ≡ taken_in address p.name (cell_pool_of p)) }
{
    let size = cell_pool_settings(storage, id).size;
    match extent_with(storage, id, size, address) {
        None => None,
        Some(extent) => Some(taken_cell(storage, id, cell_with(size, address, extent))),
    }
}

/// Whether an extent of a cell pool has an address, by a look-up for each cell pool.
fn is_in_cells(storage: &Storage, address: u32) -> bool
    ensures { result ≡ overlaps_cells (state_of storage.now) address 1 }
{
    overlaps_are_met();
    pools_are_one();
    cell_pools_are_named();
    storage.cell_pools().holds(storage.elements(), address, 1)
}

/// How an address that is taken in a subpool is taken: by the first cell pool that has it, else by an obtain.
fn first_taker(storage: &Storage, subpool: Subpool, address: u32) -> Taken
    ensures { result ≡ taken_by subpool address (state_of storage.now).cell_pools }
{
    let mut behind: Option<CellPoolName> = None;
    while let Some(id) = next_cell_pool(storage, behind.as_ref()) {
        match taken_in(storage, id, address) {
            None => (),
            Some(taken) => return taken,
        }
        behind = Some(cell_pool_name(storage, id));
    }
    Taken::Obtained(subpool)
}

/// The same; cell pools are gone through only if one of them has the address.
pub fn taken_by(storage: &Storage, subpool: Subpool, address: u32) -> Taken
    ensures { result ≡ taken_by subpool address (state_of storage.now).cell_pools }
{
    if is_in_cells(storage, address) {
        first_taker(storage, subpool, address)
    } else {
        Taken::Obtained(subpool)
    }
}

/// The cell in which an address lies, of a cell pool whose extent has the address; `None` if no extent has it.
fn cell_in(storage: &Storage, id: CellId, address: u32) -> Option<Option<u32>>
    requires { IsSome (cell_pool storage.now id) }
    ensures { IfSome (cell_pool storage.now id) (λ p. result ≡ cell_in address (cell_pool_of p)) }
{
    let size = cell_pool_settings(storage, id).size;
    match extent_with(storage, id, size, address) {
        None => None,
        Some(extent) => Some(cell_with(size, address, extent)),
    }
}

/// The address of the cell in which an address lies: of the first cell pool that has the address. `None` after an
/// extent's last cell, and outside of all extents.
pub fn cell_at(storage: &Storage, address: u32) -> Option<u32>
    ensures { result ≡ cell_at address (state_of storage.now).cell_pools }
{
    let mut behind: Option<CellPoolName> = None;
    while let Some(id) = next_cell_pool(storage, behind.as_ref()) {
        match cell_in(storage, id, address) {
            None => (),
            Some(cell) => return cell,
        }
        behind = Some(cell_pool_name(storage, id));
    }
    None
}
