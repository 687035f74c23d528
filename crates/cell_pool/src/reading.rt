//! What is asked of cell pools.

ghost use Rattle.std.specs.Prelude.{◌≡◌, ◌↔◌, IsSome, IsTrue, IfSome, option_map, slice_get};
ghost use Rattle.list_table.specs.ListTable.{entry_of};
ghost use Rattle.list_table.specs.Stocks.{IsStock};
ghost use Rattle.cell_pool.specs.Items.{pool_of, IsSound};
ghost use Rattle.cell_pool.specs.Pools.{uses, meets, Meets};

use crate::extents::extent_at;
use crate::lists::label;
use crate::places::meets;
use crate::pools::{CellPools, TablePlace};
use crate::reach::may_meet;
use crate::texts::{header_of, location_of, name_of, subpool_of};
use crate::used::is_noted;
use crate::{CellId, CellPoolHeader, CellPoolName, CellSettings, Extent};
use list_table::ListRow;
use list_table::items::item;
use vsm_elements::Elements;

// Whether an area of `len` bytes overlaps an extent of the pool in a row.
fn row_meets(row: ListRow, elements: &Elements, start: u32, len: u32) -> bool
    requires stock { IsStock elements.now row.stock }
    requires sound { IsSound (entry_of elements.now row) }
    ensures { result ≡ meets start len (pool_of (entry_of elements.now row)) }
{
    may_meet(row.words, start, len) && meets(row.stock.places, elements, start, len)
}

impl CellPools {
    ghost use Rattle.cell_pool.specs.CellPools.{pool, by_id, IsCellPools};

    /// Whether the address is that of a cell of the pool which isn't free.
    pub fn in_use(&self, elements: &Elements, id: CellId, address: u32) -> bool
        requires pools { IsCellPools elements.now self.now }
        requires there { IsSome (by_id elements.now self.now id) }
        ensures { IfSome (by_id elements.now self.now id) (λ p. result ≡ uses p address) }
    {
        let row = self.row(elements, id);
        is_noted(&row.stock.used, elements, address)
    }

    /// Whether the area of that many bytes from an address on overlaps an extent of some pool, up to the end of the
    /// last doubleword of which a cell is a part. It costs one element for each pool, and one look-up for each that
    /// reaches so far.
    pub fn holds(&self, elements: &Elements, start: u32, len: u32) -> bool
        requires { IsCellPools elements.now self.now }
        ensures { IsTrue result ↔ Meets (pool elements.now self.now) start len }
    {
        let count = self.table.count(elements);
        let mut place = TablePlace {
            index: 0,
            before: 0,
        };
        while place.index < count {
            let row = self.table.row(elements, place.index, place.before);
            if row_meets(row, elements, start, len) {
                return true;
            }
            place = TablePlace {
                index: place.index + 1,
                before: row.id,
            };
        }
        false
    }

    /// The pool's extent of this number, in the order in which they were made, from 0 on; `None` if it has no more than
    /// that many. It costs one look-up.
    pub fn extent_at(&self, elements: &Elements, id: CellId, number: u32) -> Option<Extent>
        requires pools { IsCellPools elements.now self.now }
        requires there { IsSome (by_id elements.now self.now id) }
        ensures { IfSome (by_id elements.now self.now id) (λ p. result ≡ slice_get p.extents number) }
    {
        let row = self.row(elements, id);
        extent_at(&row.stock.extents, elements, number)
    }

    /// The pool's name.
    pub fn name(&self, elements: &Elements, id: CellId) -> CellPoolName
        requires pools { IsCellPools elements.now self.now }
        requires there { IsSome (by_id elements.now self.now id) }
        ensures { IfSome (by_id elements.now self.now id) (λ p. result.bytes ≡ p.name) }
    {
        let row = self.row(elements, id);
        name_of(label(row.stock.items, elements))
    }

    /// The pool's header; `None` if it was built without one.
    pub fn header(&self, elements: &Elements, id: CellId) -> Option<CellPoolHeader>
        requires pools { IsCellPools elements.now self.now }
        requires there { IsSome (by_id elements.now self.now id) }
        ensures { IfSome (by_id elements.now self.now id) (λ p. option_map (λ h. h.items) result ≡ p.header) }
    {
        let row = self.row(elements, id);
        let form = item(row.stock.items, elements, 4);
        header_of(item(row.stock.items, elements, 3), form)
    }

    /// What the pool was built with.
    pub fn settings(&self, elements: &Elements, id: CellId) -> CellSettings
        requires pools { IsCellPools elements.now self.now }
        requires there { IsSome (by_id elements.now self.now id) }
        ensures { IfSome (by_id elements.now self.now id) (λ p. result ≡ p.settings) }
    {
        let row = self.row(elements, id);
        let form = item(row.stock.items, elements, 4);
        let subpool = subpool_of(row.words);
        let location = location_of(form[0]);
        CellSettings {
            subpool,
            size: form[5],
            primary: form[4],
            secondary: form[3],
            location,
        }
    }
}
