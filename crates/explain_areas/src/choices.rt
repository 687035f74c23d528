//! Which areas and cells are asked for.
ghost use Rattle.std.specs.Prelude.{◌≡◌};
ghost use Rattle.storage_core.specs.Meaning.{state_of};
ghost use Rattle.explain_areas.specs.Rows.{has_cell, is_after, is_chosen, is_named, is_seen, is_within};

use crate::cells::LineCell;
use crate::parts::LineArea;
use operand_texts::Name;
use storage_core::Storage;

/// Which cells are asked for.
#[derive(Clone, Copy)]
pub(crate) struct CellChoice {
    /// Those that lines after this one got.
    pub since: Option<u32>,
    /// Those of the cell pool of this name.
    pub pool: Option<Name>,
    /// Those whose first byte lies in this area.
    pub area: Option<LineArea>,
}

/// Whether what a line took is asked for.
pub(crate) fn is_after(since: Option<u32>, line: u32) -> bool
    ensures { result ≡ is_after since line }
{
    match since {
        Some(since) => line > since,
        None => true,
    }
}

/// Whether an area is of the subpool that a task sees at a number, if one is asked for.
pub(crate) fn is_seen(storage: &Storage, subpool: Option<(u8, u8)>, area: &LineArea) -> bool
    ensures { result ≡ is_seen (state_of storage.now) subpool area.now }
{
    let Some((task, number)) = subpool else {
        return true;
    };
    match storage.owner_seen(task, number) {
        Some(owner) => area.subpool.number == number && owner == area.subpool.owner,
        None => false,
    }
}

/// Whether a cell is of a cell pool, if one is asked for.
fn is_named(pool: &Option<Name>, cell: &LineCell) -> bool
    ensures { result ≡ is_named pool.now cell.now }
{
    match pool {
        Some(name) => cell.pool.as_slice() == name.as_str().as_bytes(),
        None => true,
    }
}

/// Whether the first byte of a cell lies in an area.
fn has_cell(area: &LineArea, cell: &LineCell) -> bool
    ensures { result ≡ has_cell area.now cell.now }
{
    let place = cell.start / 8;
    let end = u64::from(area.start) + u64::from(area.count);
    area.start <= place && u64::from(place) < end
}

/// Whether the first byte of a cell lies in an area, if one is given.
fn is_within(area: &Option<LineArea>, cell: &LineCell) -> bool
    ensures { result ≡ is_within area.now cell.now }
{
    match area {
        Some(area) => has_cell(area, cell),
        None => true,
    }
}

/// Whether a cell is asked for.
pub(crate) fn is_chosen(choice: &CellChoice, cell: &LineCell) -> bool
    ensures { result ≡ is_chosen choice.now cell.now }
{
    is_after(choice.since, cell.line)
        && is_named(&choice.pool, cell)
        && is_within(&choice.area, cell)
}
