//! What is listed, a row each.
ghost use Rattle.std.specs.Prelude.{◌≡◌, ◌++◌, ◌∷◌, ℕ, IfOk, List, OnOk, [], filter, flat_map, if◌then◌else◌, map};
ghost use Rattle.storage_core.specs.Meaning.{state_of};
ghost use Rattle.vsm_model.specs.declared.limits.Settings.{Settings as SettingsIn};
ghost use Rattle.macro_statements.specs.Requests.{Act};
ghost use Rattle.explain_standing.specs.Carried.{IsCarried};
ghost use Rattle.explain_areas.specs.Cells.{used_cells};
ghost use Rattle.explain_areas.specs.Found.{IsFound};
ghost use Rattle.explain_areas.specs.Keeps.{page_of, pages_kept};
ghost use Rattle.explain_areas.specs.Rows.{area_row, area_rows, areas_listed, cell_row, cell_rows, is_after, is_chosen};
ghost use Rattle.explain_areas.specs.Rows.{pool_of};
ghost use Rattle.explain_areas.specs.declared.asked.Listed.TheVariants.{Areas, Cells};

use crate::asked::Listed;
use crate::cells::{LineCell, cells_left};
use crate::choices::{CellChoice, is_after, is_chosen, is_seen};
use crate::keeps::{KeptPage, pages_kept};
use crate::parts::{LineArea, shown_address};
use crate::rows::Row;
use crate::walks::areas_left;
use explain_standing::Carried;
use explain_who::{PoolName, Taken, taken_by};
use operand_texts::Name;
use std::alloc::{AllocError, Global};
use storage_core::Storage;

/// What is listed.
#[derive(Drop)]
pub(crate) struct Found {
    /// Pages that few bytes keep.
    pub pages: Vec<KeptPage>,
    pub rows: Vec<Row>,
}

/// The cell pool of which an area is an extent, if it's one.
fn pool_of(storage: &Storage, area: &LineArea) -> Option<PoolName>
    ensures { result ≡ pool_of (state_of storage.now) area.now }
{
    match taken_by(storage, area.subpool, shown_address(area)) {
        Taken::UsedCell(name) => Some(name),
        Taken::FreeCell(name) => Some(name),
        Taken::PastCells(name) => Some(name),
        Taken::Unassigned | Taken::Free | Taken::Obtained(_) => None,
    }
}

/// The row of an area.
fn area_row(carried: &Carried, area: &LineArea) -> Row
    ensures { (settings : SettingsIn) (xs : List (ℕ × Act)) → IsCarried settings xs carried.now
        → result ≡ area_row settings xs area.now }
{
    let asker = carried.asker_of(area.line);
    Row {
        line: area.line,
        bytes: 8 * u64::from(area.count),
        address: shown_address(area),
        subpool: area.subpool,
        cell_of: None,
        extent_of: pool_of(carried.bench.storage(), area),
        asked_by: asker.task,
        ended: asker.ended,
    }
}

/// A copy of the name of a cell pool.
fn copied(name: &PoolName) -> PoolName
    ensures { result ≡ name.now }
{
    let mut room = PoolName::new();
    room.try_extend_from_slice(name.as_slice()).unwrap();
    room
}

/// The row of a cell.
fn cell_row(carried: &Carried, cell: &LineCell) -> Row
    ensures { (settings : SettingsIn) (xs : List (ℕ × Act)) → IsCarried settings xs carried.now
        → result ≡ cell_row settings xs cell.now }
{
    let asker = carried.asker_of(cell.line);
    Row {
        line: cell.line,
        bytes: u64::from(cell.size),
        address: cell.start,
        subpool: cell.subpool,
        cell_of: Some(copied(&cell.pool)),
        extent_of: None,
        asked_by: asker.task,
        ended: asker.ended,
    }
}

/// Adds the rows of the cells that are asked for.
fn add_cells(
    rows: &mut Vec<Row>,
    carried: &Carried,
    cells: &[LineCell],
    choice: &CellChoice,
) -> Result<(), AllocError>
    ensures { OnOk result ((settings : SettingsIn) (xs : List (ℕ × Act)) → IsCarried settings xs carried.now
        → rows.new.items ≡ rows.old.items ++ map (cell_row settings xs) (filter (is_chosen choice.now) cells.now)) }
{
    for cell in cells {
        if is_chosen(choice, cell) {
            rows.push(cell_row(carried, cell))?;
        }
    }
    Ok(())
}

/// Adds the row of an area, if it's asked for.
fn add_own(rows: &mut Vec<Row>, since: Option<u32>, row: Row) -> Result<(), AllocError>
    ensures { OnOk result (rows.new.items ≡ rows.old.items ++ (if is_after since row.line then row ∷ [] else [])) }
{
    if is_after(since, row.line) {
        rows.push(row)?;
    }
    Ok(())
}

/// Adds the rows of an area: its own if it's asked for, and those of its cells that are.
fn add_area(
    rows: &mut Vec<Row>,
    carried: &Carried,
    cells: &[LineCell],
    since: Option<u32>,
    area: &LineArea,
) -> Result<(), AllocError>
    ensures { OnOk result ((settings : SettingsIn) (xs : List (ℕ × Act)) → IsCarried settings xs carried.now
        → cells.now ≡ used_cells settings xs
        → rows.new.items ≡ rows.old.items ++ area_rows settings xs since area.now) }
{
    let row = area_row(carried, area);
    let extent = row.extent_of.is_some();
    add_own(rows, since, row)?;
    if !extent {
        return Ok(());
    }
    let choice = CellChoice {
        since,
        pool: None,
        area: Some(*area),
    };
    add_cells(rows, carried, cells, &choice)
}

/// Adds the rows of areas.
fn add_areas(
    rows: &mut Vec<Row>,
    carried: &Carried,
    cells: &[LineCell],
    since: Option<u32>,
    areas: &[LineArea],
) -> Result<(), AllocError>
    ensures { OnOk result ((settings : SettingsIn) (xs : List (ℕ × Act)) → IsCarried settings xs carried.now
        → cells.now ≡ used_cells settings xs
        → rows.new.items ≡ rows.old.items ++ flat_map (area_rows settings xs since) areas.now) }
{
    for area in areas {
        add_area(rows, carried, cells, since, area)?;
    }
    Ok(())
}

/// The areas that are left taken: all, or those of the subpool that a task sees at a number.
fn areas_listed(
    alloc: Global,
    carried: &Carried,
    subpool: Option<(u8, u8)>,
) -> Result<Vec<LineArea>, AllocError>
    ensures { IfOk result (λ areas. (settings : SettingsIn) (xs : List (ℕ × Act)) → IsCarried settings xs carried.now
        → areas.items ≡ areas_listed settings xs subpool) }
{
    let mut areas = areas_left(alloc, carried)?;
    let storage = carried.bench.storage();
    areas.retain(|area| is_seen(storage, subpool, area));
    Ok(areas)
}

/// The rows of areas.
fn area_rows(
    alloc: Global,
    carried: &Carried,
    since: Option<u32>,
    areas: &[LineArea],
) -> Result<Vec<Row>, AllocError>
    ensures { IfOk result (λ rows. (settings : SettingsIn) (xs : List (ℕ × Act)) → IsCarried settings xs carried.now
        → rows.items ≡ flat_map (area_rows settings xs since) areas.now) }
{
    let cells = cells_left(alloc, carried)?;
    let mut rows = Vec::new(alloc);
    add_areas(&mut rows, carried, cells.as_slice(), since, areas)?;
    Ok(rows)
}

/// The rows of the cells that are asked for.
fn cell_rows(alloc: Global, carried: &Carried, choice: &CellChoice) -> Result<Vec<Row>, AllocError>
    ensures { IfOk result (λ rows. (settings : SettingsIn) (xs : List (ℕ × Act)) → IsCarried settings xs carried.now
        → rows.items ≡ cell_rows settings xs choice.now) }
{
    let cells = cells_left(alloc, carried)?;
    let mut rows = Vec::new(alloc);
    add_cells(&mut rows, carried, cells.as_slice(), choice)?;
    Ok(rows)
}

/// Pages that few bytes of areas keep, if they are asked for.
fn pages_when(alloc: Global, keeps: bool, areas: &[LineArea]) -> Result<Vec<KeptPage>, AllocError>
    ensures { IfOk result (λ pages. map page_of pages.items ≡ (if keeps then pages_kept areas.now else [])) }
{
    if keeps {
        pages_kept(alloc, areas)
    } else {
        Ok(Vec::new(alloc))
    }
}

/// What is listed of areas: pages that few bytes keep, if they are asked for, and rows.
fn areas_found(
    alloc: Global,
    carried: &Carried,
    since: Option<u32>,
    subpool: Option<(u8, u8)>,
    keeps: bool,
) -> Result<Found, AllocError>
    ensures { IfOk result (IsFound carried.now since (Areas subpool keeps)) }
{
    let areas = areas_listed(alloc, carried, subpool)?;
    let pages = pages_when(alloc, keeps, areas.as_slice())?;
    let rows = area_rows(alloc, carried, since, areas.as_slice())?;
    Ok(Found { pages, rows })
}

/// What is listed of cells in use.
fn cells_found(
    alloc: Global,
    carried: &Carried,
    since: Option<u32>,
    pool: Option<Name>,
) -> Result<Found, AllocError>
    ensures { IfOk result (IsFound carried.now since (Cells pool)) }
{
    let choice = CellChoice {
        since,
        pool,
        area: None,
    };
    let rows = cell_rows(alloc, carried, &choice)?;
    Ok(Found {
        pages: Vec::new(alloc),
        rows,
    })
}

/// What is listed after the statements that were carried out. `AllocError` if memory runs out.
pub(crate) fn all_found(
    alloc: Global,
    carried: &Carried,
    since: Option<u32>,
    listed: Listed,
) -> Result<Found, AllocError>
    ensures { IfOk result (IsFound carried.now since listed) }
{
    match listed {
        Listed::Areas { subpool, keeps } => areas_found(alloc, carried, since, subpool, keeps),
        Listed::Cells { pool } => cells_found(alloc, carried, since, pool),
    }
}
