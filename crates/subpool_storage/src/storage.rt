ghost use Rattle.std.specs.Prelude.{◌≡◌, ◌≢◌, ℕ, ◌+◌, ◌^◌, ◌<◌, ◌≤◌, true, false, Some, None};
ghost use Rattle.vsm_elements.specs.Store.{Store, made_and_aside};
ghost use Rattle.vsm_elements.specs.Owners.{Moves};
ghost use Rattle.run_set.specs.Runs.{AllIn, NoneIn};
ghost use Rattle.run_set.specs.Counts.{joins};
ghost use Rattle.subpool_set.specs.Pools.{IsNumbersEnd};
ghost use Rattle.subpool_set.specs.SubpoolSet.{IsSubpool, number_of, owner_of, pool};
ghost use Rattle.subpool_storage.specs.Subpools.{no_subpools, is_there, with_pages, with_free, with_own};
ghost use Rattle.subpool_storage.specs.Subpools.{with_storage_of, CanExchange};

use cell_pool::CellPools;
use descriptor_queue::{Extents, Run};
use free_queue::{Area, FreeQueue};
use subpool_set::laws::new_queues_are_empty;
use subpool_set::{PoolId, Queues, SubpoolSet};
use vsm_elements::Elements;
use vsm_model::Subpool;

/// The head of all subpools with their pages, their free storage and their cell pools.
///
/// A subpool is named by its number and its owner. The head is kept by value; every changing call takes the elements
/// first, and takes no memory: what it needs has to be spare. Runs are in pages of 4,096 bytes and areas in doublewords
/// of 8, below and above the 16 MB line. (z/OS MVS Programming: Assembler Services Guide, "Subpool handling".)
#[derive(Clone, Copy)]
pub struct SubpoolStorage {
    pub(crate) set: SubpoolSet,
    pub(crate) cells: CellPools,
}

#[tactic(auto, unfolding(
// the subpools, and which elements are theirs
crate::specs::SubpoolStorage::subpools_of, crate::specs::SubpoolStorage::hold,
// which elements they are in
crate::specs::SubpoolStorage::Stands))]
impl SubpoolStorage {
    ghost use Rattle.subpool_storage.specs.SubpoolStorage.{subpools_of, hold, Stands, Becomes};

    /// No subpool. It has no element.
    pub fn new() -> SubpoolStorage
        ensures stands { (s : Store) → Stands s result }
        ensures subpools { (s : Store) → subpools_of s result ≡ no_subpools }
        ensures owned { (s : Store) (i : ℕ) → hold s result i ≡ 0 }
    {
        SubpoolStorage {
            set: SubpoolSet::new(),
            cells: CellPools::new(),
        }
    }

    /// The owner of the subpool that the task sees at the number.
    pub fn owner_seen(&self, elements: &Elements, task: u8, number: u8) -> Option<u8>
        requires { Stands elements.now self.now }
        ensures { result ≡ (subpools_of elements.now self.now).sight task number }
    {
        let id = self.set.visible(elements, task, number)?;
        Some(self.set.owner(elements, id))
    }

    /// One more than the highest number at which a task sees a subpool; 0 if none sees any.
    pub fn numbers_end(&self, elements: &Elements) -> u8
        requires { Stands elements.now self.now }
        ensures { IsNumbersEnd (subpools_of elements.now self.now).sight result }
    {
        self.set.numbers_end(elements)
    }

    // The name of a subpool that exists.
    pub(crate) fn id(&self, elements: &Elements, subpool: Subpool) -> PoolId
        requires stands { Stands elements.now self.now }
        requires there { is_there (subpools_of elements.now self.now) subpool ≡ true }
        ensures pool { IsSubpool elements.now self.now.set result }
        ensures number { number_of elements.now result ≡ subpool.number }
        ensures owner { owner_of elements.now result ≡ subpool.owner }
    {
        match self.set.visible(elements, subpool.owner, subpool.number) {
            Some(id) => id,
            None => 0,
        }
    }

    // The name of a subpool that exists, and the heads of its queues.
    fn own(&self, elements: &Elements, subpool: Subpool) -> (PoolId, Queues)
        requires stands { Stands elements.now self.now }
        requires there { is_there (subpools_of elements.now self.now) subpool ≡ true }
        ensures { pool elements.now self.now.set subpool.number subpool.owner
            ≡ Some (record { id = result.0; queues = result.1 }) }
    {
        match self.set.own(elements, subpool.owner, subpool.number) {
            Some(own) => own,
            None => (
                0,
                Queues {
                    extents: Extents::new(),
                    free: FreeQueue::new(),
                },
            ),
        }
    }

    /// The doublewords of an area become free storage of the subpool.
    ///
    /// It takes one element, less one for each of the two doublewords next to the area that are free.
    pub fn free_area(&self, elements: &mut Elements, subpool: Subpool, area: Area)
        requires stands { Stands elements.old self.now }
        requires there { is_there (subpools_of elements.old self.now) subpool ≡ true }
        requires range { (0 < area.len) × (area.start + area.len ≤ 2 ^ 29) }
        requires taken { NoneIn ((subpools_of elements.old self.now).free subpool) area }
        requires room { 0 < elements.old.spare }
        ensures becomes { Becomes elements.old elements.new self.now self.now
            (with_free (subpools_of elements.old self.now) subpool area true) }
        ensures spares { elements.new.spare + 1
            ≡ elements.old.spare + joins ((subpools_of elements.old self.now).free subpool) area }
    {
        let (id, mut queues) = self.own(elements, subpool);
        queues.free.free(elements, area);
        self.set.set_queues(elements, id, queues);
    }

    /// The doublewords of an area are no longer free storage of the subpool.
    ///
    /// It takes one element for each of the two doublewords next to the area that are free, less one.
    pub fn carve_area(&self, elements: &mut Elements, subpool: Subpool, area: Area)
        requires stands { Stands elements.old self.now }
        requires there { is_there (subpools_of elements.old self.now) subpool ≡ true }
        requires range { (0 < area.len) × (area.start + area.len ≤ 2 ^ 29) }
        requires free { AllIn ((subpools_of elements.old self.now).free subpool) area }
        requires room { 0 < elements.old.spare }
        ensures becomes { Becomes elements.old elements.new self.now self.now
            (with_free (subpools_of elements.old self.now) subpool area false) }
        ensures spares { elements.new.spare + joins ((subpools_of elements.old self.now).free subpool) area
            ≡ elements.old.spare + 1 }
    {
        let (id, mut queues) = self.own(elements, subpool);
        queues.free.carve(elements, area);
        self.set.set_queues(elements, id, queues);
    }

    /// The pages of a run become the subpool's.
    ///
    /// It takes one element, less one for each of the two pages next to the run that are the subpool's.
    pub fn insert_run(&self, elements: &mut Elements, subpool: Subpool, run: Run)
        requires stands { Stands elements.old self.now }
        requires there { is_there (subpools_of elements.old self.now) subpool ≡ true }
        requires range { (0 < run.len) × (run.start + run.len ≤ 2 ^ 20) }
        requires absent { NoneIn ((subpools_of elements.old self.now).pages subpool) run }
        requires room { 0 < elements.old.spare }
        ensures becomes { Becomes elements.old elements.new self.now self.now
            (with_pages (subpools_of elements.old self.now) subpool run true) }
        ensures spares { elements.new.spare + 1
            ≡ elements.old.spare + joins ((subpools_of elements.old self.now).pages subpool) run }
    {
        let (id, mut queues) = self.own(elements, subpool);
        queues.extents.insert_run(elements, run);
        self.set.set_queues(elements, id, queues);
    }

    /// The pages of a run leave the subpool.
    ///
    /// It takes one element for each of the two pages next to the run that are the subpool's, less one.
    pub fn remove_run(&self, elements: &mut Elements, subpool: Subpool, run: Run)
        requires stands { Stands elements.old self.now }
        requires there { is_there (subpools_of elements.old self.now) subpool ≡ true }
        requires range { (0 < run.len) × (run.start + run.len ≤ 2 ^ 20) }
        requires present { AllIn ((subpools_of elements.old self.now).pages subpool) run }
        requires room { 0 < elements.old.spare }
        ensures becomes { Becomes elements.old elements.new self.now self.now
            (with_pages (subpools_of elements.old self.now) subpool run false) }
        ensures spares { elements.new.spare + joins ((subpools_of elements.old self.now).pages subpool) run
            ≡ elements.old.spare + 1 }
    {
        let (id, mut queues) = self.own(elements, subpool);
        queues.extents.remove_run(elements, run);
        self.set.set_queues(elements, id, queues);
    }

    /// An empty subpool, which only its owner sees.
    ///
    /// It takes one element.
    pub fn create(&mut self, elements: &mut Elements, subpool: Subpool)
        requires stands { Stands elements.old self.old }
        requires range { (1 ≤ subpool.owner) × (subpool.owner ≤ 64) × (subpool.number ≤ 127) }
        requires unseen { (subpools_of elements.old self.old).sight subpool.owner subpool.number ≡ None }
        requires room { 0 < elements.old.spare }
        ensures becomes { Becomes elements.old elements.new self.old self.new
            (with_own (subpools_of elements.old self.old) subpool true) }
        ensures spares { elements.new.spare + 1 ≡ elements.old.spare }
    {
        new_queues_are_empty();
        self.set.create(elements, subpool.owner, subpool.number);
    }

    /// An empty subpool that only its owner sees is gone.
    ///
    /// It gives back one element.
    pub fn remove(&mut self, elements: &mut Elements, subpool: Subpool)
        requires stands { Stands elements.old self.old }
        requires there { is_there (subpools_of elements.old self.old) subpool ≡ true }
        requires alone { (task : ℕ) → (subpools_of elements.old self.old).sight task subpool.number ≡ Some subpool.owner
            → task ≡ subpool.owner }
        requires no_pages { (page : ℕ) → (subpools_of elements.old self.old).pages subpool page ≡ false }
        requires none_free { (d : ℕ) → (subpools_of elements.old self.old).free subpool d ≡ false }
        ensures becomes { Becomes elements.old elements.new self.old self.new
            (with_own (subpools_of elements.old self.old) subpool false) }
        ensures spares { elements.new.spare ≡ elements.old.spare + 1 }
    {
        self.set.remove(elements, subpool.owner, subpool.number);
    }

    /// Exchanges the pages, the free storage and the cell pools of a subpool with those that it has among `others`, by
    /// their heads: no element of a queue and no cell is touched.
    pub fn exchange_storage(
        &mut self,
        elements: &mut Elements,
        others: &mut SubpoolStorage,
        subpool: Subpool,
    )
        requires stands { Stands elements.old self.old }
        requires others { Stands elements.old others.old }
        requires there { is_there (subpools_of elements.old self.old) subpool ≡ true }
        requires there_too { is_there (subpools_of elements.old others.old) subpool ≡ true }
        requires apart { (i : ℕ) → hold elements.old self.old i + hold elements.old others.old i ≤ 1 }
        requires names { CanExchange (subpools_of elements.old self.old) (subpools_of elements.old others.old) subpool }
        ensures stands { Stands elements.new self.new }
        ensures others { Stands elements.new others.new }
        ensures subpools { subpools_of elements.new self.new
            ≡ with_storage_of (subpools_of elements.old self.old) (subpools_of elements.old others.old) subpool }
        ensures other_subpools { subpools_of elements.new others.new
            ≡ with_storage_of (subpools_of elements.old others.old) (subpools_of elements.old self.old) subpool }
        ensures apart { (i : ℕ) → hold elements.new self.new i + hold elements.new others.new i ≤ 1 }
        ensures moves { Moves elements.old elements.new
            (λ i. hold elements.old self.old i + hold elements.old others.old i)
            (λ i. hold elements.new self.new i + hold elements.new others.new i) }
        ensures spares { elements.new.spare ≡ elements.old.spare }
        ensures as_many { made_and_aside elements.new ≡ made_and_aside elements.old }
    {
        let id = self.id(elements, subpool);
        let other = others.id(elements, subpool);
        let here = self.set.queues(elements, id);
        let there = others.set.queues(elements, other);
        self.set.set_queues(elements, id, there);
        others.set.set_queues(elements, other, here);
        self.cells
            .exchange_pools(elements, subpool, &mut others.cells);
    }
}
