//! Cell pools that go to another owner, or from one table to another.

ghost use Rattle.std.specs.Prelude.{◌≡◌, ℕ, ◌++◌, ◌==◌, List, None, IsSome, IfSome, option_map, if◌then◌else◌, is_some};
ghost use Rattle.vsm_elements.specs.Ownership.{Leaves, Apart};
ghost use Rattle.cell_pool.specs.Pools.{only, all_but, either_of, is_of, handed_on, exchanged, GoTogether};

use crate::CellId;
use crate::parked::ParkedCells;
use crate::pools::{CellPools, TablePlace};
use crate::reach::with_owner;
use crate::texts::says_subpool;
use vsm_elements::Elements;
use vsm_model::Subpool;

impl CellPools {
    ghost use Rattle.cell_pool.specs.CellPools.{pool, by_id, owned, IsCellPools, IsParked, TakesOut};
    ghost use Rattle.cell_pool.specs.CellPools.{parked_pool, parked_by_id, parked_owned};

    /// Passes the pools of a subpool on: each that lies in it lies from now on in the subpool of the same number of the
    /// owner `to`. All else of them stays.
    pub fn hand_on(&self, elements: &mut Elements, subpool: Subpool, to: u8)
        requires { IsCellPools elements.old self.now }
        ensures pools { IsCellPools elements.new self.now }
        ensures names { (n : List ℕ) → pool elements.new self.now n
            ≡ option_map (handed_on subpool to) (pool elements.old self.now n) }
        ensures ids { (i : ℕ) → by_id elements.new self.now i
            ≡ option_map (handed_on subpool to) (by_id elements.old self.now i) }
        ensures owned { Leaves elements.old elements.new (owned elements.old self.now) (owned elements.new self.now) }
        ensures spares { elements.new.spare ≡ elements.old.spare }
    {
        let count = self.table.count(elements);
        let mut place = TablePlace {
            index: 0,
            before: 0,
        };
        while place.index < count {
            let row = self.table.row(elements, place.index, place.before);
            place = TablePlace {
                index: place.index + 1,
                before: row.id,
            };
            if says_subpool(row.words, subpool) {
                let mut given = row;
                given.words = with_owner(row.words, to);
                self.table.write(elements, given);
            }
        }
    }

    /// The pool of this id changes sides: it moves to the others, or from them. If it is in neither, all stays.
    ///
    /// It takes no element and gives none; the pool keeps its own.
    pub fn exchange_pool(&mut self, elements: &mut Elements, id: CellId, others: &mut CellPools)
        requires pools { IsCellPools elements.old self.old }
        requires others { IsCellPools elements.old others.old }
        requires apart { Apart (owned elements.old self.old) (owned elements.old others.old) }
        requires names { IfSome (by_id elements.old self.old id) (λ p. pool elements.old others.old p.name ≡ None) }
        requires names_back { IfSome (by_id elements.old others.old id) (λ p.
            pool elements.old self.old p.name ≡ None) }
        ensures pools { IsCellPools elements.new self.new }
        ensures others { IsCellPools elements.new others.new }
        ensures names { (n : List ℕ) → pool elements.new self.new n
            ≡ either_of (only (is_of id) (pool elements.old others.old n))
            (all_but (is_of id) (pool elements.old self.old n)) }
        ensures names_back { (n : List ℕ) → pool elements.new others.new n
            ≡ either_of (only (is_of id) (pool elements.old self.old n))
            (all_but (is_of id) (pool elements.old others.old n)) }
        ensures ids { (i : ℕ) → by_id elements.new self.new i
            ≡ (if i == id then by_id elements.old others.old i else by_id elements.old self.old i) }
        ensures ids_back { (i : ℕ) → by_id elements.new others.new i
            ≡ (if i == id then by_id elements.old self.old i else by_id elements.old others.old i) }
        ensures apart { Apart (owned elements.new self.new) (owned elements.new others.new) }
        ensures owned { Leaves elements.old elements.new
            (owned elements.old self.old ++ owned elements.old others.old)
            (owned elements.new self.new ++ owned elements.new others.new) }
        ensures spares { elements.new.spare ≡ elements.old.spare }
    {
        let gone = self.park_if_there(elements, id);
        let come = others.park_if_there(elements, id);
        self.restore_both(elements, others, come, gone);
    }

    /// All pools that lie in a subpool change sides, those of these cell pools and those of the others.
    ///
    /// It takes no element and gives none; the pools keep their own.
    pub fn exchange_pools(
        &mut self,
        elements: &mut Elements,
        subpool: Subpool,
        others: &mut CellPools,
    )
        requires pools { IsCellPools elements.old self.old }
        requires others { IsCellPools elements.old others.old }
        requires apart { Apart (owned elements.old self.old) (owned elements.old others.old) }
        requires names { GoTogether subpool (by_id elements.old self.old) (by_id elements.old others.old) }
        ensures pools { IsCellPools elements.new self.new }
        ensures others { IsCellPools elements.new others.new }
        ensures names { (n : List ℕ) → pool elements.new self.new n
            ≡ exchanged subpool (pool elements.old self.old n) (pool elements.old others.old n) }
        ensures names_back { (n : List ℕ) → pool elements.new others.new n
            ≡ exchanged subpool (pool elements.old others.old n) (pool elements.old self.old n) }
        ensures ids { (i : ℕ) → by_id elements.new self.new i
            ≡ exchanged subpool (by_id elements.old self.old i) (by_id elements.old others.old i) }
        ensures ids_back { (i : ℕ) → by_id elements.new others.new i
            ≡ exchanged subpool (by_id elements.old others.old i) (by_id elements.old self.old i) }
        ensures apart { Apart (owned elements.new self.new) (owned elements.new others.new) }
        ensures owned { Leaves elements.old elements.new
            (owned elements.old self.old ++ owned elements.old others.old)
            (owned elements.new self.new ++ owned elements.new others.new) }
        ensures spares { elements.new.spare ≡ elements.old.spare }
    {
        let gone = self.park_pools(elements, subpool);
        let come = others.park_pools(elements, subpool);
        self.restore_both(elements, others, come, gone);
    }

    // Takes the pool of this id out, if there is one.
    fn park_if_there(&mut self, elements: &mut Elements, id: CellId) -> ParkedCells
        requires { IsCellPools elements.old self.old }
        ensures takes { TakesOut (is_of id) elements.old elements.new self.old self.new result.pools }
        ensures spares { elements.new.spare ≡ elements.old.spare }
    {
        if self.is_there(elements, id) {
            self.park_one(elements, id)
        } else {
            ParkedCells::empty()
        }
    }

    // Puts parked pools back here, and others there.
    fn restore_both(
        &mut self,
        elements: &mut Elements,
        others: &mut CellPools,
        here: ParkedCells,
        there: ParkedCells,
    )
        requires pools { IsCellPools elements.old self.old }
        requires others { IsCellPools elements.old others.old }
        requires here { IsParked elements.old here }
        requires there { IsParked elements.old there }
        requires names { (n : List ℕ) → IsSome (parked_pool elements.old here n) → pool elements.old self.old n ≡ None }
        requires names_back { (n : List ℕ) → IsSome (parked_pool elements.old there n)
            → pool elements.old others.old n ≡ None }
        requires apart { Apart (parked_owned elements.old here) (owned elements.old self.old) }
        requires apart_back { Apart (parked_owned elements.old there) (owned elements.old others.old) }
        requires sides { Apart (parked_owned elements.old here ++ owned elements.old self.old)
            (parked_owned elements.old there ++ owned elements.old others.old) }
        ensures pools { IsCellPools elements.new self.new }
        ensures others { IsCellPools elements.new others.new }
        ensures names { (n : List ℕ) → pool elements.new self.new n
            ≡ either_of (parked_pool elements.old here n) (pool elements.old self.old n) }
        ensures names_back { (n : List ℕ) → pool elements.new others.new n
            ≡ either_of (parked_pool elements.old there n) (pool elements.old others.old n) }
        ensures ids { (i : ℕ) → by_id elements.new self.new i
            ≡ either_of (parked_by_id elements.old here i) (by_id elements.old self.old i) }
        ensures ids_back { (i : ℕ) → by_id elements.new others.new i
            ≡ either_of (parked_by_id elements.old there i) (by_id elements.old others.old i) }
        ensures apart { Apart (owned elements.new self.new) (owned elements.new others.new) }
        ensures owned { Leaves elements.old elements.new
            ((parked_owned elements.old here ++ owned elements.old self.old)
            ++ (parked_owned elements.old there ++ owned elements.old others.old))
            (owned elements.new self.new ++ owned elements.new others.new) }
        ensures spares { elements.new.spare ≡ elements.old.spare }
    {
        self.restore_pools(elements, here);
        others.restore_pools(elements, there);
    }

    // Whether there is a pool of this id.
    fn is_there(&self, elements: &Elements, id: CellId) -> bool
        requires { IsCellPools elements.now self.now }
        ensures { result ≡ is_some (by_id elements.now self.now id) }
    {
        self.seek(elements, id).index < self.table.count(elements)
    }
}
