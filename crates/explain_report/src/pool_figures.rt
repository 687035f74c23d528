//! The numbers of a cell pool.
ghost use Rattle.std.specs.Prelude.{◌≡◌, ◌*◌, IsSome, IfSome};
ghost use Rattle.storage_changes.specs.PoolTable.{cell_pool_of};
ghost use Rattle.storage_map.specs.Cells.{cell_pool};
ghost use Rattle.vsm_model.specs.Regions.{doublewords};
ghost use Rattle.explain_report.specs.PoolFigures.{HasExtents, figures_of, free_in, used_in};

use storage_core::Storage;
use storage_map::{
    CellId, Extent, cell_pool_settings, first_cell_extent, first_free_cell, next_cell_extent,
    next_free_cell,
};

/// The numbers of a cell pool, none of which is above 2^64 - 1.
#[derive(Clone, Copy)]
pub(crate) struct PoolFigures {
    /// The extents.
    pub extents: u64,
    /// The bytes that they take, each up to the end of its last doubleword.
    pub bytes: u64,
    /// Their cells.
    pub cells: u64,
    /// The cells that are free.
    pub free: u64,
}

/// The cells in use.
pub(crate) fn used_of(figures: &PoolFigures) -> u64
    ensures { result ≡ used_in figures.now }
{
    figures.cells.saturating_sub(figures.free)
}

/// The bytes that an extent of cells of a size takes.
fn bytes_of(extent: Extent, size: u32) -> u64
    ensures { result ≡ 8 * doublewords (extent.count * size) }
{
    let bytes = u64::from(extent.count) * u64::from(size);
    8 * ((bytes + 7) / 8)
}

/// The figures of the extents of a cell pool with cells of a size.
fn extents_of(storage: &Storage, id: CellId, size: u32) -> PoolFigures
    requires { IsSome (cell_pool storage.now id) }
    ensures { IfSome (cell_pool storage.now id) (λ p. HasExtents size (cell_pool_of p).extents result) }
{
    let mut figures = PoolFigures {
        extents: 0,
        bytes: 0,
        cells: 0,
        free: 0,
    };
    let mut place = first_cell_extent(storage, id);
    while let Some((extent, after)) = next_cell_extent(storage, place) {
        figures.extents = figures.extents.saturating_add(1);
        figures.bytes = figures.bytes.saturating_add(bytes_of(extent, size));
        figures.cells = figures.cells.saturating_add(u64::from(extent.count));
        place = after;
    }
    figures
}

/// How many cells of a cell pool are free.
fn free_in(storage: &Storage, id: CellId) -> u64
    requires { IsSome (cell_pool storage.now id) }
    ensures { IfSome (cell_pool storage.now id) (λ p. result ≡ free_in (cell_pool_of p)) }
{
    let mut count: u64 = 0;
    let mut place = first_free_cell(storage, id);
    while let Some((_, after)) = next_free_cell(storage, place) {
        count = count.saturating_add(1);
        place = after;
    }
    count
}

/// The figures of a cell pool. It walks over its extents and its free cells.
pub(crate) fn figures_of(storage: &Storage, id: CellId) -> PoolFigures
    requires { IsSome (cell_pool storage.now id) }
    ensures { IfSome (cell_pool storage.now id) (λ p. result ≡ figures_of (cell_pool_of p)) }
{
    let size = cell_pool_settings(storage, id).size;
    let found = extents_of(storage, id, size);
    PoolFigures {
        extents: found.extents,
        bytes: found.bytes,
        cells: found.cells,
        free: free_in(storage, id),
    }
}
