//! Cells and extents of one pool.

ghost use Rattle.std.specs.Prelude.{◌≡◌, ℕ, ◌+◌, ◌-◌, ◌*◌, ◌≤◌, ◌<◌, ◌^◌, length, List};
ghost use Rattle.std.specs.Prelude.{Some, IsSome, IfSome, option_map, slice_get, true, false};
ghost use Rattle.vsm_elements.specs.Chain.{IsChain};
ghost use Rattle.vsm_elements.specs.Ownership.{Leaves};
ghost use Rattle.list_table.specs.ListTable.{entry_of};
ghost use Rattle.cell_pool.specs.Items.{pool_of};
ghost use Rattle.cell_pool.specs.Pools.{at_id, without_first, with_first, extended, retracted, IsExtended};
ghost use Rattle.cell_pool.specs.Pools.{uses, meets};

use crate::extents::{pop, push};
use crate::lists::{TEXTS, append_cells, cell_of};
use crate::places::{displace, place};
use crate::pools::CellPools;
use crate::reach::with_extent;
use crate::used::{note, strike};
use crate::{CellId, Extent};
use list_table::items::{insert, item, remove};
use list_table::{ListRow, Stock};
use vsm_elements::Elements;

// The size of the cells of the pool in a row, which is in the form in its list.
fn cell_size(row: ListRow, elements: &Elements) -> u32
    requires chain { IsChain elements.now row.stock.items }
    requires room { 5 ≤ row.stock.items.count }
    ensures { result ≡ (pool_of (entry_of elements.now row)).settings.size }
{
    let form = item(row.stock.items, elements, 4);
    form[5]
}

impl CellPools {
    ghost use Rattle.cell_pool.specs.CellPools.{pool, by_id, owned, IsCellPools};

    /// The first free cell of the pool; `None` if none is free.
    pub fn first_free(&self, elements: &Elements, id: CellId) -> Option<u32>
        requires pools { IsCellPools elements.now self.now }
        requires there { IsSome (by_id elements.now self.now id) }
        ensures { IfSome (by_id elements.now self.now id) (λ p. result ≡ slice_get p.cells 0) }
    {
        let row = self.row(elements, id);
        let items = row.stock.items;
        if items.count == TEXTS {
            return None;
        }
        Some(cell_of(item(items, elements, TEXTS)))
    }

    /// Hands out the first free cell.
    ///
    /// It takes no element and gives none: the cell has one among those in use in place of that among the free ones.
    pub fn take_cell(&mut self, elements: &mut Elements, id: CellId) -> u32
        requires pools { IsCellPools elements.old self.old }
        requires there { IsSome (by_id elements.old self.old id) }
        requires free { IfSome (by_id elements.old self.old id) (λ p. 0 < length p.cells) }
        ensures pools { IsCellPools elements.new self.new }
        ensures cell { IfSome (by_id elements.old self.old id) (λ p. slice_get p.cells 0 ≡ Some result) }
        ensures names { (n : List ℕ) → pool elements.new self.new n
            ≡ option_map (at_id id without_first) (pool elements.old self.old n) }
        ensures ids { (i : ℕ) → by_id elements.new self.new i
            ≡ option_map (at_id id without_first) (by_id elements.old self.old i) }
        ensures owned { Leaves elements.old elements.new (owned elements.old self.old) (owned elements.new self.new) }
        ensures spares { elements.new.spare ≡ elements.old.spare }
    {
        let mut row = self.row(elements, id);
        let mut items = row.stock.items;
        let mut used = row.stock.used;
        let cell = cell_of(item(items, elements, TEXTS));
        remove(&mut items, elements, TEXTS, 1);
        note(&mut used, elements, cell);
        row.stock = Stock {
            items,
            used,
            ..row.stock
        };
        self.table.write(elements, row);
        cell
    }

    /// Puts a cell before the free ones. It has to be in use.
    ///
    /// It takes no element and gives none.
    pub fn put_cell(&mut self, elements: &mut Elements, id: CellId, cell: u32)
        requires pools { IsCellPools elements.old self.old }
        requires there { IsSome (by_id elements.old self.old id) }
        requires used { IfSome (by_id elements.old self.old id) (λ p. uses p cell ≡ true) }
        ensures pools { IsCellPools elements.new self.new }
        ensures names { (n : List ℕ) → pool elements.new self.new n
            ≡ option_map (at_id id (with_first cell)) (pool elements.old self.old n) }
        ensures ids { (i : ℕ) → by_id elements.new self.new i
            ≡ option_map (at_id id (with_first cell)) (by_id elements.old self.old i) }
        ensures owned { Leaves elements.old elements.new (owned elements.old self.old) (owned elements.new self.new) }
        ensures spares { elements.new.spare ≡ elements.old.spare }
    {
        let mut row = self.row(elements, id);
        let mut items = row.stock.items;
        let mut used = row.stock.used;
        strike(&mut used, elements, cell);
        insert(&mut items, elements, TEXTS, [cell, 0, 0, 0, 0, 0, 0]);
        row.stock = Stock {
            items,
            used,
            ..row.stock
        };
        self.table.write(elements, row);
    }

    /// Another extent, after all others, which overlaps none of them. Its cells are in ascending order after the free
    /// ones.
    ///
    /// It takes two elements for the extent, and one for each cell.
    pub fn extend(&mut self, elements: &mut Elements, id: CellId, start: u32, count: u32)
        requires pools { IsCellPools elements.old self.old }
        requires there { IsSome (by_id elements.old self.old id) }
        requires some { 0 < count }
        requires range { IfSome (by_id elements.old self.old id) (λ p. start + count * p.settings.size ≤ 2 ^ 32) }
        requires apart { IfSome (by_id elements.old self.old id) (λ p.
            meets start (count * p.settings.size) p ≡ false) }
        requires room { count + 2 ≤ elements.old.spare }
        ensures pools { IsCellPools elements.new self.new }
        ensures names { (n : List ℕ) → pool elements.new self.new n
            ≡ option_map (at_id id (extended start count)) (pool elements.old self.old n) }
        ensures ids { (i : ℕ) → by_id elements.new self.new i
            ≡ option_map (at_id id (extended start count)) (by_id elements.old self.old i) }
        ensures owned { Leaves elements.old elements.new (owned elements.old self.old) (owned elements.new self.new) }
        ensures spares { elements.new.spare + (count + 2) ≡ elements.old.spare }
    {
        let mut row = self.row(elements, id);
        let mut items = row.stock.items;
        let mut extents = row.stock.extents;
        let mut places = row.stock.places;
        let extent = Extent { start, count };
        let size = cell_size(row, elements);
        push(&mut extents, elements, extent);
        place(&mut places, elements, size, extent);
        append_cells(&mut items, elements, size, start, count);
        row.words = with_extent(row.words, size, extent);
        row.stock = Stock {
            items,
            extents,
            places,
            ..row.stock
        };
        self.table.write(elements, row);
    }

    /// Removes the last extent, with its cells, which have to be the end of the free ones.
    ///
    /// The elements of the extent and those of its cells become spare ones.
    pub fn retract(&mut self, elements: &mut Elements, id: CellId) -> Extent
        requires pools { IsCellPools elements.old self.old }
        requires there { IsSome (by_id elements.old self.old id) }
        requires last { IfSome (by_id elements.old self.old id) (λ p. IsExtended p) }
        ensures pools { IsCellPools elements.new self.new }
        ensures extent { IfSome (by_id elements.old self.old id) (λ p.
            slice_get p.extents (length p.extents - 1) ≡ Some result) }
        ensures names { (n : List ℕ) → pool elements.new self.new n
            ≡ option_map (at_id id (retracted result.count)) (pool elements.old self.old n) }
        ensures ids { (i : ℕ) → by_id elements.new self.new i
            ≡ option_map (at_id id (retracted result.count)) (by_id elements.old self.old i) }
        ensures owned { Leaves elements.old elements.new (owned elements.old self.old) (owned elements.new self.new) }
        ensures spares { elements.new.spare ≡ elements.old.spare + (result.count + 2) }
    {
        let mut row = self.row(elements, id);
        let mut items = row.stock.items;
        let mut extents = row.stock.extents;
        let mut places = row.stock.places;
        let extent = pop(&mut extents, elements);
        displace(&mut places, elements, extent.start);
        let end = items.count - extent.count;
        remove(&mut items, elements, end, extent.count);
        row.stock = Stock {
            items,
            extents,
            places,
            ..row.stock
        };
        self.table.write(elements, row);
        extent
    }
}
