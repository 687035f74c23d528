//! What is left taken at the end, by the lines that took it.
ghost use Rattle.std.specs.Prelude.{◌≡◌, ◌==◌, ◌^◌, ◌<◌, ℕ, IfOk, List, None, OnOk, Some, if◌then◌else◌};
ghost use Rattle.std.specs.Prelude.{is_some, option_copied, reverse};
ghost use Rattle.vsm_model.specs.declared.limits.Settings.{Settings as SettingsIn};
ghost use Rattle.macro_statements.specs.Requests.{Act};
ghost use Rattle.storage_core.specs.Meaning.{state_of};
ghost use Rattle.explain_standing.specs.Carried.{IsCarried};
ghost use Rattle.explain_standing.specs.Standings.{acts_in};
ghost use Rattle.explain_findings.specs.Left.{is_obtained, nothing_left, obtained_areas};
ghost use Rattle.explain_findings.specs.Left.{sum_of, with_area, with_cell, with_more};
ghost use Rattle.explain_findings.specs.LeftTables.{AddsArea, AddsAreas, AddsCell, AddsCells, AreLinesLeft};
ghost use Rattle.explain_findings.specs.LeftTables.{IsAllLeft, IsPlaced, left_kept};

use explain_areas::{LineArea, LineCell, areas_left, cells_left};
use explain_standing::{Asker, Carried, NumberMap, TrailEntry};
use explain_who::{PoolName, Taken, taken_by};
use macro_reader::Statement;
use std::alloc::{AllocError, Global};
use storage_core::{Storage, Subpool};

/// What the script leaves taken of what one line took.
#[derive(Clone, Drop)]
pub struct Left {
    /// The areas, none of which is an extent; 0 for a cell.
    pub areas: u64,
    /// The bytes of all of them, or of the cell.
    pub bytes: u64,
    /// Where the first of them, or the cell, begins.
    pub address: u32,
    /// Its subpool.
    pub subpool: Subpool,
    /// The cell pool of a cell.
    pub pool: Option<PoolName>,
    /// The task that asked for it,
    pub task: u32,
    /// and whether that task has ended.
    pub ended: bool,
}

/// The sums of all that is left.
#[derive(Drop)]
pub struct LeftSum {
    /// The areas that are no extents.
    pub areas: u64,
    /// The cells in use.
    pub cells: u64,
    /// The bytes of both.
    pub bytes: u64,
    /// The lines that took them, ascending.
    pub lines: Vec<u32>,
}

/// What is left by the lines that took it, and the sum.
#[derive(Drop)]
pub(crate) struct LeftTable {
    left: Vec<Left>,
    /// The place of each line in it.
    places: NumberMap,
    pub(crate) sum: LeftSum,
}

/// Whether an area is no extent of a cell pool.
fn is_obtained(storage: &Storage, area: &LineArea) -> bool
    ensures { result ≡ is_obtained (state_of storage.now) area.now }
{
    match taken_by(storage, area.subpool, area.start.saturating_mul(8)) {
        Taken::Obtained(_) => true,
        Taken::Unassigned
        | Taken::Free
        | Taken::UsedCell(_)
        | Taken::FreeCell(_)
        | Taken::PastCells(_) => false,
    }
}

/// All areas, except extents.
fn obtained_left(alloc: Global, carried: &Carried) -> Result<Vec<LineArea>, AllocError>
    ensures { IfOk result (λ areas. (settings : SettingsIn) (xs : List (ℕ × Act)) → IsCarried settings xs carried.now
        → areas.items ≡ obtained_areas settings xs) }
{
    let mut areas = areas_left(alloc, carried)?;
    let storage = carried.bench.storage();
    areas.retain(|area| is_obtained(storage, area));
    Ok(areas)
}

/// A copy of the name of a cell pool.
fn copied(name: &PoolName) -> PoolName
    ensures { result ≡ name.now }
{
    let mut room = PoolName::new();
    room.try_extend_from_slice(name.as_slice()).unwrap();
    room
}

/// What is left of a line that took this area, and asked for it so.
fn left_of_area(area: &LineArea, asker: Asker) -> Left
    ensures { result ≡ with_area asker.task asker.ended area.now None }
{
    Left {
        areas: 1,
        bytes: 8 * u64::from(area.count),
        address: area.start.saturating_mul(8),
        subpool: area.subpool,
        pool: None,
        task: asker.task,
        ended: asker.ended,
    }
}

/// Another area is left of a line.
fn add_to(left: &mut Left, area: &LineArea)
    ensures { left.new ≡ with_more area.now left.old }
{
    left.areas = left.areas.saturating_add(1);
    left.bytes = left.bytes.saturating_add(8 * u64::from(area.count));
}

/// What is left of a line that got this cell, and asked for it so.
fn left_of_cell(cell: &LineCell, asker: Asker) -> Left
    ensures { result ≡ with_cell asker.task asker.ended cell.now None }
{
    Left {
        areas: 0,
        bytes: u64::from(cell.size),
        address: cell.start,
        subpool: cell.subpool,
        pool: Some(copied(&cell.pool)),
        task: asker.task,
        ended: asker.ended,
    }
}

impl LeftTable {
    /// Nothing is left. Takes no memory.
    pub(crate) fn new(alloc: Global) -> LeftTable
        ensures left { (line : ℕ) → left_kept result line ≡ None }
        ensures placed { IsPlaced result }
        ensures sum { sum_of result.sum ≡ nothing_left }
    {
        LeftTable {
            left: Vec::new(alloc),
            places: NumberMap::new(alloc),
            sum: LeftSum {
                areas: 0,
                cells: 0,
                bytes: 0,
                lines: Vec::new(alloc),
            },
        }
    }

    /// What is left of a line, if anything.
    pub(crate) fn on(&self, line: u32) -> Option<&Left>
        ensures { option_copied result ≡ left_kept self.now line }
    {
        let place = self.places.number(line)?;
        self.left.get(place as usize)
    }

    /// This is left of a line of which nothing is left yet.
    fn put(&mut self, alloc: Global, line: u32, left: Left) -> Result<(), AllocError>
        requires { IsPlaced self.old }
        ensures left { OnOk result ((n : ℕ) → n < 2 ^ 32 → left_kept self.new n
            ≡ (if line == n then Some left else left_kept self.old n)) }
        ensures placed { OnOk result (IsPlaced self.new) }
        ensures sum { self.new.sum ≡ self.old.sum }
    {
        let Ok(place) = u32::try_from(self.left.len()) else {
            return Err(AllocError);
        };
        self.left.push(left)?;
        self.places.take(alloc, line, 1, place)
    }

    /// Adds an area that is no extent.
    fn add_area(
        &mut self,
        alloc: Global,
        carried: &Carried,
        area: &LineArea,
    ) -> Result<(), AllocError>
        requires { IsPlaced self.old }
        ensures left { OnOk result (AddsArea carried.now area.now (left_kept self.old) (left_kept self.new)) }
        ensures placed { OnOk result (IsPlaced self.new) }
        ensures sum { self.new.sum ≡ self.old.sum }
    {
        match self.places.number(area.line) {
            Some(place) => {
                add_to(&mut self.left[place as usize], area);
                Ok(())
            }
            None => {
                let asker = carried.asker_of(area.line);
                self.put(alloc, area.line, left_of_area(area, asker))
            }
        }
    }

    /// Adds a cell in use.
    fn add_cell(
        &mut self,
        alloc: Global,
        carried: &Carried,
        cell: &LineCell,
    ) -> Result<(), AllocError>
        requires { IsPlaced self.old }
        ensures left { OnOk result (AddsCell carried.now cell.now (left_kept self.old) (left_kept self.new)) }
        ensures placed { OnOk result (IsPlaced self.new) }
        ensures sum { self.new.sum ≡ self.old.sum }
    {
        match self.places.number(cell.line) {
            Some(_) => Ok(()),
            None => {
                let asker = carried.asker_of(cell.line);
                self.put(alloc, cell.line, left_of_cell(cell, asker))
            }
        }
    }

    /// Adds all areas, except extents.
    fn add_areas(&mut self, alloc: Global, carried: &Carried) -> Result<(), AllocError>
        requires { IsPlaced self.old }
        ensures left { OnOk result (AddsAreas carried.now self.old self.new) }
        ensures placed { OnOk result (IsPlaced self.new) }
    {
        let obtained = obtained_left(alloc, carried)?;
        let areas = obtained.as_slice();
        for area in areas {
            self.add_area(alloc, carried, area)?;
            self.sum.bytes = self.sum.bytes.saturating_add(8 * u64::from(area.count));
        }
        self.sum.areas = areas.len() as u64;
        Ok(())
    }

    /// Adds all cells in use.
    fn add_cells(&mut self, alloc: Global, carried: &Carried) -> Result<(), AllocError>
        requires { IsPlaced self.old }
        ensures left { OnOk result (AddsCells carried.now self.old self.new) }
        ensures placed { OnOk result (IsPlaced self.new) }
    {
        let used = cells_left(alloc, carried)?;
        let cells = used.as_slice();
        for cell in cells {
            self.add_cell(alloc, carried, cell)?;
            self.sum.bytes = self.sum.bytes.saturating_add(u64::from(cell.size));
        }
        self.sum.cells = cells.len() as u64;
        Ok(())
    }

    /// Whether something is left of a line.
    fn is_left(&self, line: u32) -> bool
        ensures { result ≡ is_some (left_kept self.now line) }
    {
        match self.on(line) {
            Some(_) => true,
            None => false,
        }
    }

    /// The lines of these statements of which something is left.
    fn lines_left(
        &self,
        alloc: Global,
        entries: &[TrailEntry<Statement>],
    ) -> Result<Vec<u32>, AllocError>
        ensures { IfOk result (λ lines. AreLinesLeft self.now entries.now lines.items) }
    {
        let mut lines = Vec::new(alloc);
        for entry in entries {
            if self.is_left(entry.line) {
                lines.push(entry.line)?;
            }
        }
        Ok(lines)
    }
}

/// What is left after these statements, oldest first, were carried out. `AllocError` if memory runs out.
pub(crate) fn left_after(
    alloc: Global,
    carried: &Carried,
    entries: &[TrailEntry<Statement>],
) -> Result<LeftTable, AllocError>
    ensures { IfOk result (λ table. (settings : SettingsIn)
        → IsCarried settings (reverse (acts_in entries.now)) carried.now
        → IsAllLeft settings (reverse (acts_in entries.now)) table) }
{
    let mut table = LeftTable::new(alloc);
    table.add_areas(alloc, carried)?;
    table.add_cells(alloc, carried)?;
    table.sum.lines = table.lines_left(alloc, entries)?;
    Ok(table)
}
