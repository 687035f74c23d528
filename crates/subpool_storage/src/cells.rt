//! Cell pools of subpools: their cells and their extents.

ghost use Rattle.std.specs.Prelude.{◌≡◌, ℕ, ◌+◌, ◌*◌, ◌≤◌, ◌<◌, ◌^◌, ◌∷◌, true, false, None, Some, IsSome, IfSome};
ghost use Rattle.std.specs.Prelude.{slice_get, option_map, if◌then◌else◌};
ghost use Rattle.vsm_elements.specs.Store.{made_and_aside};
ghost use Rattle.vsm_elements.specs.Owners.{times, Moves};
ghost use Rattle.cell_pool.specs.CellPools.{by_id, owned as cells_own, IsCellPools};
ghost use Rattle.cell_pool.specs.Pools.{Pool, uses, meets, without_first, with_first, extended, retracted};
ghost use Rattle.subpool_storage.specs.Subpools.{with_changed, with_pool_of, with_new_pool, built_pool};
ghost use Rattle.subpool_storage.specs.Subpools.{HasPool, IsSingle, IsUnnamed};
ghost use Rattle.subpool_storage.specs.SubpoolStorage.{subpools_of, hold, Stands, Becomes};

use crate::storage::SubpoolStorage;
use cell_pool::{CellId, CellPoolHeader, CellPoolName, CellPools, CellSettings};
use vsm_elements::Elements;

#[tactic(auto, unfolding(
// the subpools, and which elements are theirs
crate::specs::SubpoolStorage::subpools_of, crate::specs::SubpoolStorage::hold,
// which elements they are in
crate::specs::SubpoolStorage::Stands))]
impl SubpoolStorage {
    /// The cell pools of all subpools, to be read.
    ///
    /// Nothing is copied: it is the head of what the storage itself holds, to be read as long as the storage's elements
    /// stay as they are, and not to be changed or discarded.
    pub fn cell_pools(&self, elements: &Elements) -> CellPools
        requires { Stands elements.now self.now }
        ensures stands { IsCellPools elements.now result }
        ensures pools { (id : ℕ) → by_id elements.now result id ≡ (subpools_of elements.now self.now).cells id }
        ensures held { (i : ℕ) → times i (cells_own elements.now result) ≤ hold elements.now self.now i }
    {
        self.cells
    }

    /// A cell pool of a name that none has, with one extent: `count` cells from an address on, all of them free, in
    /// ascending order. (z/OS MVS Programming: Assembler Services Reference, CPOOL BUILD.)
    ///
    /// It takes six elements, two for the extent, and one for each cell.
    pub fn build_pool(
        &mut self,
        elements: &mut Elements,
        name: &CellPoolName,
        settings: CellSettings,
        header: Option<CellPoolHeader>,
        start: u32,
        count: u32,
    ) -> CellId
        requires stands { Stands elements.old self.old }
        requires unnamed { IsUnnamed (subpools_of elements.old self.old) name.now.bytes }
        requires size { 0 < settings.size }
        requires some { 0 < count }
        requires range { start + count * settings.size ≤ 2 ^ 32 }
        requires room { 8 + count ≤ elements.old.spare }
        ensures becomes { Becomes elements.old elements.new self.old self.new
            (with_new_pool (subpools_of elements.old self.old)
            (built_pool result name.now.bytes settings (option_map (λ h. h.items) header) start count)) }
        ensures spares { elements.new.spare + (8 + count) ≡ elements.old.spare }
    {
        let made = self.cells.build(elements, name, settings, header);
        self.cells.extend(elements, made, start, count);
        made
    }

    /// The first free cell of a cell pool is in use from now on. (z/OS MVS Programming: Assembler Services Reference,
    /// CPOOL GET.)
    ///
    /// It takes no element and gives none.
    pub fn take_cell(&mut self, elements: &mut Elements, id: CellId, cell: u32)
        requires stands { Stands elements.old self.old }
        requires there { IsSome ((subpools_of elements.old self.old).cells id) }
        requires first { IfSome ((subpools_of elements.old self.old).cells id) (λ p. slice_get p.cells 0 ≡ Some cell) }
        ensures becomes { Becomes elements.old elements.new self.old self.new
            (with_changed (subpools_of elements.old self.old) id without_first) }
        ensures spares { elements.new.spare ≡ elements.old.spare }
    {
        self.cells.take_cell(elements, id);
    }

    /// A cell in use is the first free one of its cell pool from now on. (z/OS MVS Programming: Assembler Services
    /// Reference, CPOOL FREE.)
    ///
    /// It takes no element and gives none.
    pub fn put_cell(&mut self, elements: &mut Elements, id: CellId, cell: u32)
        requires stands { Stands elements.old self.old }
        requires there { IsSome ((subpools_of elements.old self.old).cells id) }
        requires used { IfSome ((subpools_of elements.old self.old).cells id) (λ p. uses p cell ≡ true) }
        ensures becomes { Becomes elements.old elements.new self.old self.new
            (with_changed (subpools_of elements.old self.old) id (with_first cell)) }
        ensures spares { elements.new.spare ≡ elements.old.spare }
    {
        self.cells.put_cell(elements, id, cell);
    }

    /// A cell pool has another extent, which overlaps none of its others: `count` cells from an address on, ascending
    /// after the free ones.
    ///
    /// It has at least one cell. It takes an element for each cell, and two for the extent.
    pub fn extend(&mut self, elements: &mut Elements, id: CellId, start: u32, count: u32)
        requires stands { Stands elements.old self.old }
        requires there { IsSome ((subpools_of elements.old self.old).cells id) }
        requires range { IfSome ((subpools_of elements.old self.old).cells id)
            (λ p. start + count * p.settings.size ≤ 2 ^ 32) }
        requires apart { IfSome ((subpools_of elements.old self.old).cells id)
            (λ p. meets start (count * p.settings.size) p ≡ false) }
        requires some { 0 < count }
        requires room { count + 2 ≤ elements.old.spare }
        ensures becomes { Becomes elements.old elements.new self.old self.new
            (with_changed (subpools_of elements.old self.old) id (extended start count)) }
        ensures spares { elements.new.spare + (count + 2) ≡ elements.old.spare }
    {
        self.cells.extend(elements, id, start, count);
    }

    /// The last extent of a cell pool, whose cells are the end of the free ones, is gone.
    ///
    /// It gives back the elements that it took to add it.
    pub fn retract(&mut self, elements: &mut Elements, id: CellId, start: u32, count: u32)
        requires stands { Stands elements.old self.old }
        requires there { IsSome ((subpools_of elements.old self.old).cells id) }
        requires last { IfSome ((subpools_of elements.old self.old).cells id)
            (λ p. p ≡ extended start count (retracted count p)) }
        ensures becomes { Becomes elements.old elements.new self.old self.new
            (with_changed (subpools_of elements.old self.old) id (retracted count)) }
        ensures spares { elements.new.spare ≡ elements.old.spare + (count + 2) }
    {
        self.cells.retract(elements, id);
    }

    /// A cell pool moves to the others, or from them, with its extents and its cells as they are. No other one has its
    /// name.
    ///
    /// It takes no element.
    pub fn exchange_pool(
        &mut self,
        elements: &mut Elements,
        others: &mut SubpoolStorage,
        id: CellId,
    )
        requires stands { Stands elements.old self.old }
        requires others { Stands elements.old others.old }
        requires apart { (i : ℕ) → hold elements.old self.old i + hold elements.old others.old i ≤ 1 }
        requires single { (p : Pool)
            → HasPool (subpools_of elements.old self.old) (subpools_of elements.old others.old) id p
            → IsSingle (subpools_of elements.old self.old) (subpools_of elements.old others.old) id p.name }
        ensures stands { Stands elements.new self.new }
        ensures others { Stands elements.new others.new }
        ensures subpools { subpools_of elements.new self.new
            ≡ with_pool_of (subpools_of elements.old self.old) (subpools_of elements.old others.old) id }
        ensures other_subpools { subpools_of elements.new others.new
            ≡ with_pool_of (subpools_of elements.old others.old) (subpools_of elements.old self.old) id }
        ensures apart { (i : ℕ) → hold elements.new self.new i + hold elements.new others.new i ≤ 1 }
        ensures moves { Moves elements.old elements.new
            (λ i. hold elements.old self.old i + hold elements.old others.old i)
            (λ i. hold elements.new self.new i + hold elements.new others.new i) }
        ensures spares { elements.new.spare ≡ elements.old.spare }
        ensures as_many { made_and_aside elements.new ≡ made_and_aside elements.old }
    {
        self.cells.exchange_pool(elements, id, &mut others.cells);
    }
}
