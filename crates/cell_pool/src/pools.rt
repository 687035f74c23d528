ghost use Rattle.std.specs.Prelude.{◌≡◌, ℕ, ◌+◌, ◌≤◌, ◌<◌, ◌++◌, ◌∷◌, [], length, take, List, Option};
ghost use Rattle.std.specs.Prelude.{Some, None, IsSome, IfSome, option_map, slice_get, if◌then◌else◌, ◌==◌};
ghost use Rattle.std.specs.Str.{bytes_eq};
ghost use Rattle.vsm_elements.specs.Store.{Store};
ghost use Rattle.vsm_elements.specs.Ownership.{Leaves, Apart};
ghost use Rattle.list_table.specs.ListTable.{entries, ahead, beyond, entry_of, owned_besides, IsPlace, IsOpen};
ghost use Rattle.list_table.specs.Stocks.{holdings};
ghost use Rattle.cell_pool.specs.Pools.{either_of, is_of, lies_in, id_in};
ghost use Rattle.cell_pool.specs.Items.{pool_of, IsSound};
ghost use Rattle.cell_pool.specs.Kept.{pools_of};

use crate::label::{form_of, label_of_name};
use crate::lists::{has_label, put_texts};
use crate::parked::ParkedCells;
use crate::texts::says_subpool;
use crate::{CellId, CellPoolHeader, CellPoolName, CellSettings};
use list_table::{ListRow, ListTable, Stock};
use vsm_elements::{Elements, Id};
use vsm_model::Subpool;

/// The head of all cell pools, each under its name.
///
/// It is kept by value. Every call is passed the elements that it is in, and changes only its own.
#[derive(Clone, Copy)]
pub struct CellPools {
    pub(crate) table: ListTable,
}

// A place between two rows: how many are before it, and the id of the last of these, or 0.
#[derive(Clone, Copy)]
pub(crate) struct TablePlace {
    pub index: u32,
    pub before: Id,
}

impl CellPools {
    ghost use Rattle.cell_pool.specs.CellPools.{pool, pools, by_id, owned, IsCellPools, IsParked, TakesOut};
    ghost use Rattle.cell_pool.specs.CellPools.{parked_pool, parked_by_id, parked_owned};

    #[tactic(auto, unfolding(
    // what a name and an id show
    crate::specs::CellPools::pool, crate::specs::CellPools::by_id,
    // whose the elements are
    crate::specs::CellPools::owned, crate::specs::CellPools::IsCellPools))]
    /// No cell pool. It has no element.
    pub fn new() -> CellPools
        ensures pools { (s : Store) → IsCellPools s result }
        ensures empty { (s : Store) (n : List ℕ) → pool s result n ≡ None }
        ensures ids { (s : Store) (i : ℕ) → by_id s result i ≡ None }
        ensures owned { (s : Store) → owned s result ≡ [] }
    {
        CellPools {
            table: ListTable::new(),
        }
    }

    /// How many cell pools there are.
    #[tactic(auto, unfolding(crate::specs::CellPools::pools, crate::specs::CellPools::IsCellPools))]
    pub fn count(&self, elements: &Elements) -> u32
        requires { IsCellPools elements.now self.now }
        ensures { result ≡ length (pools elements.now self.now) }
    {
        self.table.count(elements)
    }

    /// The pool of this name.
    pub fn find(&self, elements: &Elements, name: &CellPoolName) -> Option<CellId>
        requires { IsCellPools elements.now self.now }
        ensures id { result ≡ option_map (λ p. p.id) (pool elements.now self.now name.now.bytes) }
        ensures there { IfSome result (λ id. IsSome (by_id elements.now self.now id)) }
    {
        let wanted = label_of_name(name);
        let count = self.table.count(elements);
        let mut place = TablePlace {
            index: 0,
            before: 0,
        };
        while place.index < count {
            let row = self.table.row(elements, place.index, place.before);
            if has_label(row.stock.items, elements, wanted) {
                return Some(row.id);
            }
            place = TablePlace {
                index: place.index + 1,
                before: row.id,
            };
        }
        None
    }

    /// A pool of this name, without extents and without free cells.
    ///
    /// It takes six elements.
    pub fn build(
        &mut self,
        elements: &mut Elements,
        name: &CellPoolName,
        settings: CellSettings,
        header: Option<CellPoolHeader>,
    ) -> CellId
        requires pools { IsCellPools elements.old self.old }
        requires absent { pool elements.old self.old name.now.bytes ≡ None }
        requires size { 0 < settings.size }
        requires room { 6 ≤ elements.old.spare }
        ensures pools { IsCellPools elements.new self.new }
        ensures names { (n : List ℕ) → pool elements.new self.new n
            ≡ (if bytes_eq n name.now.bytes
            then Some (record {
              id = result;
              name = name.now.bytes;
              settings = settings;
              header = option_map (λ h. h.items) header;
              extents = [];
              cells = [];
            })
            else pool elements.old self.old n) }
        ensures ids { (i : ℕ) → by_id elements.new self.new i
            ≡ (if i == result
            then Some (record {
              id = result;
              name = name.now.bytes;
              settings = settings;
              header = option_map (λ h. h.items) header;
              extents = [];
              cells = [];
            })
            else by_id elements.old self.old i) }
        ensures owned { Leaves elements.old elements.new (owned elements.old self.old) (owned elements.new self.new) }
        ensures spares { elements.new.spare + 6 ≡ elements.old.spare }
    {
        let CellSettings {
            subpool,
            size,
            primary,
            secondary,
            location,
        } = settings;
        let form = form_of(location, primary, secondary, size, &header);
        let number = u32::from(subpool.number);
        let owner = u32::from(subpool.owner);
        self.table.push(elements, [number, owner]);
        let mut row = self.table.row(elements, 0, 0);
        let mut items = row.stock.items;
        put_texts(&mut items, elements, label_of_name(name), form);
        row.stock = Stock { items, ..row.stock };
        self.table.write(elements, row);
        row.id
    }

    /// Takes the pool out, with its extents and its free cells. Its elements, and its id, stay.
    pub fn park_one(&mut self, elements: &mut Elements, id: CellId) -> ParkedCells
        requires pools { IsCellPools elements.old self.old }
        requires there { IsSome (by_id elements.old self.old id) }
        ensures takes { TakesOut (is_of id) elements.old elements.new self.old self.new result.pools }
        ensures spares { elements.new.spare ≡ elements.old.spare }
    {
        let place = self.seek(elements, id);
        let mut table = ListTable::new();
        self.table
            .move_row(elements, place.index, place.before, &mut table);
        ParkedCells {
            pools: CellPools { table },
        }
    }

    /// Takes all pools out that lie in a subpool, as [`CellPools::park_one`] takes one.
    pub fn park_pools(&mut self, elements: &mut Elements, subpool: Subpool) -> ParkedCells
        requires { IsCellPools elements.old self.old }
        ensures takes { TakesOut (lies_in subpool) elements.old elements.new self.old self.new result.pools }
        ensures spares { elements.new.spare ≡ elements.old.spare }
    {
        let mut out = ListTable::new();
        let mut place = TablePlace {
            index: 0,
            before: 0,
        };
        let count = self.table.count(elements);
        let mut left = count;
        while left > 0 {
            left -= 1;
            let row = self.table.row(elements, place.index, place.before);
            if says_subpool(row.words, subpool) {
                self.table
                    .move_row(elements, place.index, place.before, &mut out);
            } else {
                place = TablePlace {
                    index: place.index + 1,
                    before: row.id,
                };
            }
        }
        ParkedCells {
            pools: CellPools { table: out },
        }
    }

    /// Puts parked pools back. It takes no element and gives none.
    pub fn restore_pools(&mut self, elements: &mut Elements, parked: ParkedCells)
        requires pools { IsCellPools elements.old self.old }
        requires parked { IsParked elements.old parked }
        requires names { (n : List ℕ) → IsSome (parked_pool elements.old parked n)
            → pool elements.old self.old n ≡ None }
        requires apart { Apart (parked_owned elements.old parked) (owned elements.old self.old) }
        ensures pools { IsCellPools elements.new self.new }
        ensures names { (n : List ℕ) → pool elements.new self.new n
            ≡ either_of (parked_pool elements.old parked n) (pool elements.old self.old n) }
        ensures ids { (i : ℕ) → by_id elements.new self.new i
            ≡ either_of (parked_by_id elements.old parked i) (by_id elements.old self.old i) }
        ensures owned { Leaves elements.old elements.new
            (parked_owned elements.old parked ++ owned elements.old self.old) (owned elements.new self.new) }
        ensures spares { elements.new.spare ≡ elements.old.spare }
    {
        let ParkedCells { pools } = parked;
        let mut rest = pools.table;
        let mut table = self.table;
        while rest.count(elements) > 0 {
            rest.move_row(elements, 0, 0, &mut table);
        }
        self.table = table;
    }

    /// Gives back every element: those of the pools, of their names and headers, extents and free cells.
    #[tactic(auto, unfolding(crate::specs::CellPools::owned, crate::specs::CellPools::IsCellPools))]
    pub fn discard(self, elements: &mut Elements)
        requires { IsCellPools elements.old self }
        ensures { Leaves elements.old elements.new (owned elements.old self) [] }
    {
        let mut table = self.table;
        while table.count(elements) > 0 {
            table.drop_first(elements);
        }
    }

    // The row of this id, in hand, without a walk.
    pub(crate) fn row(&self, elements: &Elements, id: CellId) -> ListRow
        requires pools { IsCellPools elements.now self.now }
        requires there { IsSome (by_id elements.now self.now id) }
        ensures named { result.id ≡ id }
        ensures open { IsOpen elements.now self.now.table result }
        ensures parts { entries elements.now self.now.table
            ≡ ahead elements.now self.now.table result.id
            ++ entry_of elements.now result ∷ beyond elements.now self.now.table result.id }
        ensures pool { by_id elements.now self.now id ≡ Some (pool_of (entry_of elements.now result)) }
        ensures room { 5 ≤ result.stock.items.count }
        ensures sound { IsSound (entry_of elements.now result) }
        ensures owned { (t : Store) (has : List ℕ) → Leaves elements.now t
            (owned_besides elements.now self.now.table result.id ++ holdings elements.now result.stock) has
            → Leaves elements.now t (owned elements.now self.now) has }
    {
        self.table.row_of(elements, id)
    }

    // The place of the row of this id, or the one after the last.
    pub(crate) fn seek(&self, elements: &Elements, id: CellId) -> TablePlace
        requires { IsCellPools elements.now self.now }
        ensures place { IsPlace elements.now self.now.table result.index result.before }
        ensures earlier { id_in id (pools_of (take result.index (entries elements.now self.now.table))) ≡ None }
        ensures here { IfSome (slice_get (entries elements.now self.now.table) result.index) (λ e. e.id ≡ id) }
    {
        let count = self.table.count(elements);
        let mut place = TablePlace {
            index: 0,
            before: 0,
        };
        while place.index < count {
            let row = self.table.row(elements, place.index, place.before);
            if row.id == id {
                break;
            }
            place = TablePlace {
                index: place.index + 1,
                before: row.id,
            };
        }
        place
    }
}
