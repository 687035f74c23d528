//! Walks over the extents and over the free cells of one pool, in their order: an extent at the cost of a look-up, a
//! cell at that of an element.

ghost use Rattle.std.specs.Prelude.{◌≡◌, ◌+◌, ◌-◌, ◌≤◌, [], ◌∷◌, take, drop, IsSome, IfSome, IfNone};
ghost use Rattle.vsm_elements.specs.Chain.{links, IsChain};
ghost use Rattle.list_table.specs.Stocks.{items_of};
ghost use Rattle.cell_pool.specs.Walks.{items_left, StandsAt, IsExtentPlace, extents_left, IsCellPlace, cells_left};

use crate::extents::extent_of;
use crate::lists::{TEXTS, cell_of};
use crate::pools::CellPools;
use crate::{CellId, Extent};
use list_table::items::before;
use row_table::{RowPlace, RowTable};
use vsm_elements::{Chain, Elements, Id};

// A place before, between or after some items of a pool's list: how many items are before it, the id of the last of
// these, or 0, and how many are before the end of the walk.
#[derive(Clone, Copy)]
struct ItemPlace {
    list: Chain,
    index: u32,
    before: Id,
    end: u32,
}

/// A place before, between or after the extents of a pool, from which [`CellPools::next_extent`] continues without a
/// walk. It is one as long as the pools stay as they are.
#[derive(Clone, Copy)]
pub struct CellExtentPlace {
    extents: RowTable,
    place: RowPlace,
}

/// A place before, between or after the free cells of a pool, from which [`CellPools::next_cell`] continues likewise.
#[derive(Clone, Copy)]
pub struct CellPlace {
    items: ItemPlace,
}

impl ItemPlace {
    // The place before the item of this index, of a walk that ends before the item at `end`.
    fn new(list: Chain, elements: &Elements, index: u32, end: u32) -> ItemPlace
        requires chain { IsChain elements.now list }
        requires within { (index ≤ end) × (end ≤ list.count) }
        ensures stands { StandsAt elements.now result }
        ensures items { items_left elements.now result
            ≡ take (end - index) (drop index (items_of (links elements.now list))) }
    {
        let before = before(list, elements, index);
        ItemPlace {
            list,
            index,
            before,
            end,
        }
    }

    // The words of the item after the place, and the place after that item; `None` at the end.
    fn next(self, elements: &Elements) -> Option<([u32; 7], ItemPlace)>
        requires { StandsAt elements.now self }
        ensures none { IfNone result (items_left elements.now self ≡ []) }
        ensures next { IfSome result (λ r. items_left elements.now self ≡ r.0 ∷ items_left elements.now r.1) }
        ensures place { IfSome result (λ r. StandsAt elements.now r.1) }
    {
        if self.index == self.end {
            return None;
        }
        let id = self.list.next(elements, self.index, self.before);
        let words = self.list.words(elements, id);
        let behind = ItemPlace {
            list: self.list,
            index: self.index + 1,
            before: id,
            end: self.end,
        };
        Some((words, behind))
    }
}

#[tactic(auto, unfolding(
// where a walk over extents is, and what is left of it
crate::specs::Walks::IsExtentPlace, crate::specs::Walks::extents_left,
// and one over free cells
crate::specs::Walks::IsCellPlace, crate::specs::Walks::cells_left))]
impl CellPools {
    ghost use Rattle.cell_pool.specs.CellPools.{by_id, IsCellPools};

    /// The place before the first extent of the pool.
    pub fn first_extent(&self, elements: &Elements, id: CellId) -> CellExtentPlace
        requires pools { IsCellPools elements.now self.now }
        requires there { IsSome (by_id elements.now self.now id) }
        ensures place { IsExtentPlace elements.now result }
        ensures all { IfSome (by_id elements.now self.now id) (λ p. extents_left elements.now result ≡ p.extents) }
    {
        let row = self.row(elements, id);
        CellExtentPlace {
            extents: row.stock.extents,
            place: RowTable::first_place(),
        }
    }

    /// The extent after the place, and the place after that extent; `None` after the last. From the first place on, the
    /// extents are in the order in which they were made.
    pub fn next_extent(
        elements: &Elements,
        place: CellExtentPlace,
    ) -> Option<(Extent, CellExtentPlace)>
        requires { IsExtentPlace elements.now place }
        ensures none { IfNone result (extents_left elements.now place ≡ []) }
        ensures next { IfSome result (λ r. extents_left elements.now place ≡ r.0 ∷ extents_left elements.now r.1) }
        ensures place { IfSome result (λ r. IsExtentPlace elements.now r.1) }
    {
        let (row, behind) = place.extents.next_row(elements, place.place)?;
        let next = CellExtentPlace {
            extents: place.extents,
            place: behind,
        };
        Some((extent_of(row), next))
    }

    /// The place before the first free cell of the pool.
    pub fn first_cell(&self, elements: &Elements, id: CellId) -> CellPlace
        requires pools { IsCellPools elements.now self.now }
        requires there { IsSome (by_id elements.now self.now id) }
        ensures place { IsCellPlace elements.now result }
        ensures all { IfSome (by_id elements.now self.now id) (λ p. cells_left elements.now result ≡ p.cells) }
    {
        let row = self.row(elements, id);
        let items = row.stock.items;
        CellPlace {
            items: ItemPlace::new(items, elements, TEXTS, items.count),
        }
    }

    /// The free cell after the place, and the place after that cell; `None` after the last. From the first place on,
    /// the cells are in the order in which they are handed out.
    pub fn next_cell(elements: &Elements, place: CellPlace) -> Option<(u32, CellPlace)>
        requires { IsCellPlace elements.now place }
        ensures none { IfNone result (cells_left elements.now place ≡ []) }
        ensures next { IfSome result (λ r. cells_left elements.now place ≡ r.0 ∷ cells_left elements.now r.1) }
        ensures place { IfSome result (λ r. IsCellPlace elements.now r.1) }
    {
        let (words, items) = place.items.next(elements)?;
        Some((cell_of(words), CellPlace { items }))
    }
}
