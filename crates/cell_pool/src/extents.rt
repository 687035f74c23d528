//! The extents: a row for each, under its number, in the order in which they were made.

ghost use Rattle.std.specs.Prelude.{◌≡◌, ◌+◌, ◌≤◌, ◌<◌, ◌++◌, ◌∷◌, [], map, length, slice_get};
ghost use Rattle.vsm_elements.specs.Ownership.{Leaves};
ghost use Rattle.row_table.specs.RowTable.{rows, owned, IsTable};
ghost use Rattle.list_table.specs.Stocks.{rows_of};
ghost use Rattle.cell_pool.specs.Items.{extent_of};
ghost use Rattle.cell_pool.specs.Notes.{AreNumbered};

use crate::settings::Extent;
use crate::used::NUMBERS;
use row_table::{Row, RowTable};
use vsm_elements::Elements;

/// The extent that a row says.
pub fn extent_of(row: Row) -> Extent
    ensures { result ≡ extent_of row.words }
{
    Extent {
        start: row.words[2],
        count: row.words[3],
    }
}

/// The extent of this number; `None` if there are no more than that many.
pub fn extent_at(extents: &RowTable, elements: &Elements, number: u32) -> Option<Extent>
    requires table { IsTable elements.now extents.now }
    requires numbered { AreNumbered 0 (rows_of (rows elements.now extents.now)) }
    ensures { result ≡ slice_get (map extent_of (rows_of (rows elements.now extents.now))) number }
{
    match extents.find(elements, number % NUMBERS, number / NUMBERS) {
        Some(row) => Some(extent_of(row)),
        None => None,
    }
}

// The number after the last one: how many extents there are.
fn next_number(extents: &RowTable, elements: &Elements) -> u32
    requires table { IsTable elements.now extents.now }
    requires numbered { AreNumbered 0 (rows_of (rows elements.now extents.now)) }
    ensures { result ≡ length (rows elements.now extents.now) }
{
    match extents.last(elements) {
        Some(row) => row.words[1] * NUMBERS + row.words[0] + 1,
        None => 0,
    }
}

/// Another extent, after all others. It takes one element.
pub fn push(extents: &mut RowTable, elements: &mut Elements, extent: Extent)
    requires table { IsTable elements.old extents.old }
    requires numbered { AreNumbered 0 (rows_of (rows elements.old extents.old)) }
    requires room { 0 < elements.old.spare }
    ensures table { IsTable elements.new extents.new }
    ensures numbered { AreNumbered 0 (rows_of (rows elements.new extents.new)) }
    ensures extents { map extent_of (rows_of (rows elements.new extents.new))
        ≡ map extent_of (rows_of (rows elements.old extents.old)) ++ extent ∷ [] }
    ensures owned { Leaves elements.old elements.new (owned elements.old extents.old) (owned elements.new extents.new) }
    ensures spares { elements.new.spare + 1 ≡ elements.old.spare }
{
    let number = next_number(extents, elements);
    let words = [
        number % NUMBERS,
        number / NUMBERS,
        extent.start,
        extent.count,
        0,
        0,
        0,
    ];
    extents.insert(elements, words);
}

/// Removes the last extent, if there is one, and returns it. Its element becomes a spare one.
pub fn pop(extents: &mut RowTable, elements: &mut Elements) -> Extent
    requires table { IsTable elements.old extents.old }
    requires numbered { AreNumbered 0 (rows_of (rows elements.old extents.old)) }
    requires some { 0 < length (rows elements.old extents.old) }
    ensures table { IsTable elements.new extents.new }
    ensures numbered { AreNumbered 0 (rows_of (rows elements.new extents.new)) }
    ensures extents { map extent_of (rows_of (rows elements.old extents.old))
        ≡ map extent_of (rows_of (rows elements.new extents.new)) ++ result ∷ [] }
    ensures owned { Leaves elements.old elements.new (owned elements.old extents.old) (owned elements.new extents.new) }
    ensures spares { elements.new.spare ≡ elements.old.spare + 1 }
{
    match extents.last(elements) {
        Some(row) => {
            extents.remove(elements, row.words[0], row.words[1]);
            extent_of(row)
        }
        None => Extent { start: 0, count: 0 },
    }
}
