//! The cells in use: a row for each, under its address.

ghost use Rattle.std.specs.Prelude.{◌≡◌, ◌+◌, ◌<◌, ◌==◌, ◌&&◌, ◌||◌, not, true, false, ℕ};
ghost use Rattle.vsm_elements.specs.Ownership.{Leaves};
ghost use Rattle.row_table.specs.RowTable.{rows, owned, IsTable};
ghost use Rattle.list_table.specs.Stocks.{rows_of};
ghost use Rattle.cell_pool.specs.Notes.{is_noted};

use row_table::RowTable;
use vsm_elements::Elements;

// How many numbers the first word of a row's key has: a cell is under its address modulo this, and divided by it.
pub(crate) const NUMBERS: u32 = 256;

/// Whether the cell at an address is noted.
pub fn is_noted(used: &RowTable, elements: &Elements, address: u32) -> bool
    requires { IsTable elements.now used.now }
    ensures { result ≡ is_noted address (rows_of (rows elements.now used.now)) }
{
    match used.find(elements, address % NUMBERS, address / NUMBERS) {
        Some(_) => true,
        None => false,
    }
}

/// Notes the cell at an address. It takes one element.
pub fn note(used: &mut RowTable, elements: &mut Elements, address: u32)
    requires table { IsTable elements.old used.old }
    requires absent { is_noted address (rows_of (rows elements.old used.old)) ≡ false }
    requires room { 0 < elements.old.spare }
    ensures table { IsTable elements.new used.new }
    ensures noted { (a : ℕ) → is_noted a (rows_of (rows elements.new used.new))
        ≡ ((a == address) || is_noted a (rows_of (rows elements.old used.old))) }
    ensures owned { Leaves elements.old elements.new (owned elements.old used.old) (owned elements.new used.new) }
    ensures spares { elements.new.spare + 1 ≡ elements.old.spare }
{
    let words = [address % NUMBERS, address / NUMBERS, 0, 0, 0, 0, 0];
    used.insert(elements, words);
}

/// The cell at an address is no longer noted. Its element becomes a spare one.
pub fn strike(used: &mut RowTable, elements: &mut Elements, address: u32)
    requires table { IsTable elements.old used.old }
    requires there { is_noted address (rows_of (rows elements.old used.old)) ≡ true }
    ensures table { IsTable elements.new used.new }
    ensures noted { (a : ℕ) → is_noted a (rows_of (rows elements.new used.new))
        ≡ (not (a == address) && is_noted a (rows_of (rows elements.old used.old))) }
    ensures owned { Leaves elements.old elements.new (owned elements.old used.old) (owned elements.new used.new) }
    ensures spares { elements.new.spare ≡ elements.old.spare + 1 }
{
    used.remove(elements, address % NUMBERS, address / NUMBERS);
}
