//! The extents and the free cells of a cell pool, one after the other, each at the cost of one element.
ghost use Rattle.std.specs.Prelude.{◌≡◌, [], ◌∷◌, IsSome, IfSome, IfNone};
ghost use Rattle.storage_changes.specs.MapCells.{EndInRegions};
ghost use Rattle.storage_map.specs.Cells.{cell_pool, IsExtentPlace, extents_left, IsCellPlace, cells_left};

use cell_pool::{CellExtentPlace, CellId, CellPlace, CellPools, Extent};
use storage_changes::maps::cell_extents_end;
use storage_core::Storage;
use subpool_storage::laws::cell_pools_are_named;

/// The place before the first extent of a cell pool. None of its extents ends past the regions.
pub fn first_cell_extent(storage: &Storage, id: CellId) -> CellExtentPlace
    requires { IsSome (cell_pool storage.now id) }
    ensures place { IsExtentPlace storage.now result }
    ensures all { IfSome (cell_pool storage.now id) (λ p. extents_left storage.now result ≡ p.extents) }
    ensures end { IfSome (cell_pool storage.now id) EndInRegions }
{
    cell_pools_are_named();
    cell_extents_end();
    storage.cell_pools().first_extent(storage.elements(), id)
}

/// The extent after the place, and the place after that extent; `None` after the last. From the first place on, the
/// extents are in the order in which they were made.
pub fn next_cell_extent(
    storage: &Storage,
    place: CellExtentPlace,
) -> Option<(Extent, CellExtentPlace)>
    requires { IsExtentPlace storage.now place }
    ensures none { IfNone result (extents_left storage.now place ≡ []) }
    ensures next { IfSome result (λ r. extents_left storage.now place ≡ r.0 ∷ extents_left storage.now r.1) }
    ensures place { IfSome result (λ r. IsExtentPlace storage.now r.1) }
{
    CellPools::next_extent(storage.elements(), place)
}

/// The place before the first free cell of a cell pool.
pub fn first_free_cell(storage: &Storage, id: CellId) -> CellPlace
    requires { IsSome (cell_pool storage.now id) }
    ensures place { IsCellPlace storage.now result }
    ensures all { IfSome (cell_pool storage.now id) (λ p. cells_left storage.now result ≡ p.cells) }
{
    storage.cell_pools().first_cell(storage.elements(), id)
}

/// The address of the free cell after the place, and the place after that cell; `None` after the last. From the first
/// place on, the cells are in the order in which they are given out.
pub fn next_free_cell(storage: &Storage, place: CellPlace) -> Option<(u32, CellPlace)>
    requires { IsCellPlace storage.now place }
    ensures none { IfNone result (cells_left storage.now place ≡ []) }
    ensures next { IfSome result (λ r. cells_left storage.now place ≡ r.0 ∷ cells_left storage.now r.1) }
    ensures place { IfSome result (λ r. IsCellPlace storage.now r.1) }
{
    CellPools::next_cell(storage.elements(), place)
}
