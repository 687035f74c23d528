//! The extents by address: a row for each, under the address at which it begins.

ghost use Rattle.std.specs.Prelude.{◌≡◌, ◌+◌, ◌<◌, ◌==◌, ℕ, Some, None, IsSome, if◌then◌else◌, nat_le};
ghost use Rattle.std.specs.List.{list_any};
ghost use Rattle.vsm_elements.specs.Ownership.{Leaves};
ghost use Rattle.row_table.specs.RowTable.{rows, owned, IsTable};
ghost use Rattle.list_table.specs.Stocks.{rows_of};
ghost use Rattle.cell_pool.specs.Pool.{overlaps};
ghost use Rattle.cell_pool.specs.Places.{place_words, placed_at, overlaps_place, AreSpread};

use crate::settings::Extent;
use crate::used::NUMBERS;
use row_table::{Row, RowTable};
use vsm_elements::Elements;

/// An extent of cells of `size` bytes has a row. It takes one element.
pub fn place(places: &mut RowTable, elements: &mut Elements, size: u32, extent: Extent)
    requires table { IsTable elements.old places.old }
    requires absent { placed_at extent.start (rows_of (rows elements.old places.old)) ≡ None }
    requires room { 0 < elements.old.spare }
    ensures table { IsTable elements.new places.new }
    ensures placed { (a : ℕ) → placed_at a (rows_of (rows elements.new places.new))
        ≡ (if a == extent.start then Some (place_words size extent)
        else placed_at a (rows_of (rows elements.old places.old))) }
    ensures owned { Leaves elements.old elements.new (owned elements.old places.old) (owned elements.new places.new) }
    ensures spares { elements.new.spare + 1 ≡ elements.old.spare }
{
    let Extent { start, count } = extent;
    let words = [start % NUMBERS, start / NUMBERS, start, count, size, 0, 0];
    places.insert(elements, words);
}

/// The extent that begins at an address no longer has a row. Its element becomes a spare one.
pub fn displace(places: &mut RowTable, elements: &mut Elements, start: u32)
    requires table { IsTable elements.old places.old }
    requires there { IsSome (placed_at start (rows_of (rows elements.old places.old))) }
    ensures table { IsTable elements.new places.new }
    ensures placed { (a : ℕ) → placed_at a (rows_of (rows elements.new places.new))
        ≡ (if a == start then None else placed_at a (rows_of (rows elements.old places.old))) }
    ensures owned { Leaves elements.old elements.new (owned elements.old places.old) (owned elements.new places.new) }
    ensures spares { elements.new.spare ≡ elements.old.spare + 1 }
{
    places.remove(elements, start % NUMBERS, start / NUMBERS);
}

// Whether an area of that many bytes and an extent have an address in common.
fn overlaps(size: u32, start: u32, len: u32, extent: Extent) -> bool
    ensures { result ≡ overlaps size start len extent }
{
    let bytes = u64::from(extent.count) * u64::from(size);
    let rounded = 8 * ((bytes + 7) / 8);
    u64::from(start) < u64::from(extent.start) + rounded
        && u64::from(extent.start) < u64::from(start) + u64::from(len)
}

// Whether an area of `len` bytes overlaps the extent that a row says.
fn overlaps_place(start: u32, len: u32, row: Row) -> bool
    ensures { result ≡ overlaps_place start len row.words }
{
    let extent = Extent {
        start: row.words[2],
        count: row.words[3],
    };
    overlaps(row.words[4], start, len, extent)
}

// Whether an area of `len` bytes ends before an address, or at it.
fn ends_by(start: u32, len: u32, address: u32) -> bool
    ensures { result ≡ nat_le (start + len) address }
{
    u64::from(start) + u64::from(len) <= u64::from(address)
}

/// Whether an area of `len` bytes overlaps one of the extents, each up to the end of its last doubleword. It costs one
/// look-up.
pub fn meets(places: RowTable, elements: &Elements, start: u32, len: u32) -> bool
    requires table { IsTable elements.now places }
    requires spread { AreSpread (rows_of (rows elements.now places)) }
    ensures { result ≡ list_any (overlaps_place start len) (rows_of (rows elements.now places)) }
{
    let Some(part) = places.part(elements) else {
        return false;
    };
    if ends_by(start, len, part.row.words[2]) {
        return meets(part.before, elements, start, len);
    }
    if overlaps_place(start, len, part.row) {
        return true;
    }
    meets(part.behind, elements, start, len)
}
