//! The cells in use, each with the line that got it.
ghost use Rattle.std.specs.Prelude.{◌≡◌, ◌+◌, ◌*◌, ◌^◌, ◌<◌, ◌++◌, ◌∷◌, ◌/◌, [], ℕ, IfOk, IfSome, IsSome, List, OnOk};
ghost use Rattle.std.specs.Prelude.{flat_map, unwrap_or};
ghost use Rattle.macro_statements.specs.Requests.{Act};
ghost use Rattle.storage_changes.specs.PoolTable.{cell_pool_of};
ghost use Rattle.storage_core.specs.Meaning.{state_of};
ghost use Rattle.storage_map.specs.Cells.{cell_pool};
ghost use Rattle.vsm_model.specs.CellPools.{cells_from};
ghost use Rattle.vsm_model.specs.declared.limits.Settings.{Settings as SettingsIn};
ghost use Rattle.explain_standing.specs.Carried.{IsCarried};
ghost use Rattle.explain_areas.specs.Cells.{AddsCells, IsPoolOf, cells_in_use, used_cells};
ghost use Rattle.explain_standing.specs.NumberMaps.{number_in};

use explain_standing::{Carried, NumberMap};
use explain_who::PoolName;
use std::alloc::{AllocError, Global};
use storage_core::{Storage, Subpool};
use storage_map::{
    CellId, CellPoolName, CellSettings, Extent, cell_pool_name, cell_pool_settings,
    first_cell_extent, next_cell_extent, next_cell_pool,
};

/// A cell in use: its cell pool with its subpool, where it begins, how many bytes it has, and the line of the statement
/// that got it.
#[derive(Clone, Drop)]
pub struct LineCell {
    pub pool: PoolName,
    pub subpool: Subpool,
    pub start: u32,
    pub size: u32,
    pub line: u32,
}

/// A cell pool, and the lines that got cells.
#[derive(Drop)]
struct PoolCells<'a> {
    id: CellId,
    name: &'a CellPoolName,
    settings: CellSettings,
    lines: &'a NumberMap,
}

/// The name of a cell pool.
fn pool_name(name: &CellPoolName) -> PoolName
    ensures { result.items ≡ name.now.bytes }
{
    let _len = name.len();
    let mut room = PoolName::new();
    room.try_extend_from_slice(name.as_str().as_bytes())
        .unwrap();
    room
}

/// Adds a cell of a cell pool, if it's in use.
fn add_cell(
    cells: &mut Vec<LineCell>,
    storage: &Storage,
    pool: &PoolCells<'_>,
    cell: u32,
) -> Result<(), AllocError>
    requires { IsPoolOf storage.now pool.now }
    ensures { OnOk result (AddsCells storage.now pool.now (cell ∷ []) cells.old.items cells.new.items) }
{
    if !storage
        .cell_pools()
        .in_use(storage.elements(), pool.id, cell)
    {
        return Ok(());
    }
    cells.push(LineCell {
        pool: pool_name(pool.name),
        subpool: pool.settings.subpool,
        start: cell,
        size: pool.settings.size,
        line: pool.lines.number(cell / 4).unwrap_or(0),
    })?;
    Ok(())
}

/// Adds the cells of an extent that are in use.
fn add_extent(
    cells: &mut Vec<LineCell>,
    storage: &Storage,
    pool: &PoolCells<'_>,
    extent: Extent,
) -> Result<(), AllocError>
    requires pool { IsPoolOf storage.now pool.now }
    requires end { extent.start + extent.count * pool.now.settings.size < 2 ^ 32 }
    ensures { OnOk result (AddsCells storage.now pool.now
        (cells_from pool.now.settings.size extent.start extent.count) cells.old.items cells.new.items) }
{
    let mut cell = extent.start;
    for _n in 0..extent.count {
        add_cell(cells, storage, pool, cell)?;
        cell += pool.settings.size;
    }
    Ok(())
}

/// Adds the cells of a cell pool that are in use.
fn add_pool(
    cells: &mut Vec<LineCell>,
    storage: &Storage,
    id: CellId,
    lines: &NumberMap,
) -> Result<(), AllocError>
    requires { IsSome (cell_pool storage.now id) }
    ensures { OnOk result (IfSome (cell_pool storage.now id) (λ p. cells.new.items ≡ cells.old.items
        ++ cells_in_use (λ cell. unwrap_or (number_in lines.now (cell / 4)) 0) p.name (cell_pool_of p))) }
{
    let name = cell_pool_name(storage, id);
    let pool = PoolCells {
        id,
        name: &name,
        settings: cell_pool_settings(storage, id),
        lines,
    };
    let mut place = first_cell_extent(storage, id);
    while let Some((extent, after)) = next_cell_extent(storage, place) {
        add_extent(cells, storage, &pool, extent)?;
        place = after;
    }
    Ok(())
}

/// The cells of a storage that are in use, by the names of cell pools, in the order of their extents.
fn cells_with(
    alloc: Global,
    storage: &Storage,
    lines: &NumberMap,
) -> Result<Vec<LineCell>, AllocError>
    ensures { IfOk result (λ cells. cells.items ≡ flat_map
        (λ row. cells_in_use (λ cell. unwrap_or (number_in lines.now (cell / 4)) 0) row.0 row.1)
        (state_of storage.now).cell_pools) }
{
    let mut cells = Vec::new(alloc);
    let mut after: Option<CellPoolName> = None;
    while let Some(id) = next_cell_pool(storage, after.as_ref()) {
        add_pool(&mut cells, storage, id, lines)?;
        after = Some(cell_pool_name(storage, id));
    }
    Ok(cells)
}

/// All cells in use after the statements that were carried out, each with the line that got it: by the names of cell
/// pools, in the order of their extents. `AllocError` if memory runs out.
pub fn cells_left(alloc: Global, carried: &Carried) -> Result<Vec<LineCell>, AllocError>
    ensures { (settings : SettingsIn) (xs : List (ℕ × Act)) → IsCarried settings xs carried.now
        → IfOk result (λ cells. cells.items ≡ used_cells settings xs) }
{
    cells_with(alloc, carried.bench.storage(), &carried.cells)
}
