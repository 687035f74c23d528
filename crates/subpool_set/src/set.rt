ghost use Rattle.std.specs.Prelude.{◌≡◌, ◌≢◌, ℕ, ◌+◌, ◌<◌, ◌≤◌, ◌++◌, [], Some, None, IsSome, IfSome, IfNone};
ghost use Rattle.vsm_elements.specs.Store.{Store, among};
ghost use Rattle.vsm_elements.specs.Ownership.{Leaves, Apart};
ghost use Rattle.row_table.specs.Rows.{either_of, IsInRange};
ghost use Rattle.subpool_set.specs.Pools.{no_queues, sight_with, pools_with, sight_given, pools_given, sight_of_pool};
ghost use Rattle.subpool_set.specs.Pools.{sight_without, pool_alone, IsNumbersEnd};
ghost use Rattle.row_table.specs.RowTable.{row};
ghost use Rattle.subpool_set.specs.Kept.{owner_in, queues_of, AreWords};
ghost use Rattle.subpool_set.specs.QueueElements.{AreApart, AreApartTogether};

use crate::parked::ParkedPool;
use crate::queues::Queues;
use crate::sweeps::{park_rows, rename_rows};
use descriptor_queue::Extents;
use free_queue::FreeQueue;
use row_table::{Row, RowTable};
use vsm_elements::{Elements, Id};

/// The name of a subpool: the id of its element, which it keeps while it is parked and when it is passed.
pub type PoolId = Id;

/// The head of the subpools of all tasks, each with its owner, its sharers and the heads of its queues.
///
/// A task sees at most one subpool of a number, and its owner sees it (z/OS MVS Programming: Assembler Services
/// Guide, "Subpool handling"). Tasks are numbered from 1 to 64, subpools from 0 to 127. The set is kept by value.
#[derive(Clone, Copy)]
pub struct SubpoolSet {
    pub(crate) rows: RowTable,
}

// The words of a row of sight: a subpool's own row has the heads of its queues.
fn row_words(task: u8, number: u8, owner: u8, queues: Queues) -> [u32; 7]
    ensures words { AreWords result task number owner queues }
    ensures range { IsInRange result }
{
    let extents = queues.extents.head();
    let free = queues.free.head();
    [
        u32::from(task),
        u32::from(number),
        u32::from(owner),
        extents[0],
        extents[1],
        free[0],
        free[1],
    ]
}

// The queues whose heads are in a row of these words.
fn queues_in(words: [u32; 7]) -> Queues
    ensures { result ≡ queues_of words }
{
    Queues {
        extents: Extents::from_head([words[3], words[4]]),
        free: FreeQueue::from_head([words[5], words[6]]),
    }
}

#[tactic(auto, unfolding(
// which task sees what, and the subpools
crate::specs::SubpoolSet::sight, crate::specs::SubpoolSet::pool,
// what an id names
crate::specs::SubpoolSet::number_of, crate::specs::SubpoolSet::owner_of,
// whose the elements are
crate::specs::SubpoolSet::owned, crate::specs::SubpoolSet::IsSubpoolSet))]
impl SubpoolSet {
    ghost use Rattle.subpool_set.specs.SubpoolSet.{sight, pool, owned, number_of, owner_of, IsSubpoolSet, IsSubpool};
    ghost use Rattle.subpool_set.specs.SubpoolSet.{parked_sight, parked_pool, parked_owned, IsParked};
    ghost use Rattle.subpool_set.specs.SubpoolSet.{QueuesStand, ParkedQueuesStand};

    /// The set without subpools. It has no element.
    pub fn new() -> SubpoolSet
        ensures set { (s : Store) → IsSubpoolSet s result }
        ensures blind { (s : Store) (t n : ℕ) → sight s result t n ≡ None }
        ensures empty { (s : Store) (n o : ℕ) → pool s result n o ≡ None }
        ensures owned { (s : Store) → owned s result ≡ [] }
        ensures queues { (s : Store) → QueuesStand s result }
    {
        SubpoolSet {
            rows: RowTable::new(),
        }
    }

    /// The subpool of this number that the task sees.
    pub fn visible(&self, elements: &Elements, task: u8, number: u8) -> Option<PoolId>
        requires { IsSubpoolSet elements.now self.now }
        ensures none { IfNone result (sight elements.now self.now task number ≡ None) }
        ensures pool { IfSome result (λ id. IsSubpool elements.now self.now id) }
        ensures number { IfSome result (λ id. number_of elements.now id ≡ number) }
        ensures owner { IfSome result (λ id. sight elements.now self.now task number
            ≡ Some (owner_of elements.now id)) }
    {
        let row = self
            .rows
            .find(elements, u32::from(task), u32::from(number))?;
        let own = self.own_row(elements, row, task, number)?;
        Some(own.id)
    }

    /// One more than the highest number at which a task sees a subpool; 0 if none sees any.
    pub fn numbers_end(&self, elements: &Elements) -> u8
        requires { IsSubpoolSet elements.now self.now }
        ensures { IsNumbersEnd (sight elements.now self.now) result }
    {
        match self.rows.last(elements) {
            Some(row) => row.words[1] as u8 + 1,
            None => 0,
        }
    }

    // The own row of the subpool that the task sees by this row: the same one, if the task is its owner.
    fn own_row(&self, elements: &Elements, seen: Row, task: u8, number: u8) -> Option<Row>
        requires set { IsSubpoolSet elements.now self.now }
        requires seen { row elements.now self.now.rows task number ≡ Some seen }
        ensures { result ≡ row elements.now self.now.rows (owner_in seen) number }
    {
        if seen.words[2] == u32::from(task) {
            return Some(seen);
        }
        self.rows.find(elements, seen.words[2], u32::from(number))
    }

    /// The task that owns the subpool.
    pub fn owner(&self, elements: &Elements, id: PoolId) -> u8
        requires set { IsSubpoolSet elements.now self.now }
        requires pool { IsSubpool elements.now self.now id }
        ensures { result ≡ owner_of elements.now id }
    {
        self.rows.words(elements, id)[2] as u8
    }

    /// The subpool's number.
    pub fn number(&self, elements: &Elements, id: PoolId) -> u8
        requires set { IsSubpoolSet elements.now self.now }
        requires pool { IsSubpool elements.now self.now id }
        ensures { result ≡ number_of elements.now id }
    {
        self.rows.words(elements, id)[1] as u8
    }

    /// The heads of the subpool's queues.
    pub fn queues(&self, elements: &Elements, id: PoolId) -> Queues
        requires set { IsSubpoolSet elements.now self.now }
        requires pool { IsSubpool elements.now self.now id }
        ensures { pool elements.now self.now (number_of elements.now id) (owner_of elements.now id)
            ≡ Some (record { id = id; queues = result }) }
    {
        queues_in(self.rows.words(elements, id))
    }

    /// The subpool of this number that the task owns, and the heads of its queues: its row is read once.
    pub fn own(&self, elements: &Elements, owner: u8, number: u8) -> Option<(PoolId, Queues)>
        requires { IsSubpoolSet elements.now self.now }
        ensures none { IfNone result (pool elements.now self.now number owner ≡ None) }
        ensures some { IfSome result (λ p. pool elements.now self.now number owner
            ≡ Some (record { id = p.0; queues = p.1 })) }
    {
        let row = self
            .rows
            .find(elements, u32::from(owner), u32::from(number))?;
        if row.words[2] != u32::from(owner) {
            return None;
        }
        let queues = queues_in(row.words);
        Some((row.id, queues))
    }

    /// The subpool's queues have these heads from now on.
    pub fn set_queues(&self, elements: &mut Elements, id: PoolId, queues: Queues)
        requires set { IsSubpoolSet elements.old self.now }
        requires pool { IsSubpool elements.old self.now id }
        ensures set { IsSubpoolSet elements.new self.now }
        ensures sight { (t n : ℕ) → sight elements.new self.now t n ≡ sight elements.old self.now t n }
        ensures pools { (n o : ℕ) → pool elements.new self.now n o
            ≡ pools_with (pool elements.old self.now) (number_of elements.old id) (owner_of elements.old id)
            (Some (record { id = id; queues = queues })) n o }
        ensures owned { Leaves elements.old elements.new (owned elements.old self.now) (owned elements.new self.now) }
        ensures queues { AreApart elements.old
            (pools_with (pool elements.old self.now) (number_of elements.old id) (owner_of elements.old id)
            (Some (record { id = id; queues = queues }))) (owned elements.old self.now)
            → QueuesStand elements.new self.now }
        ensures ids { (i : ℕ) → among i (owned elements.new self.now) ≡ among i (owned elements.old self.now) }
        ensures spares { elements.new.spare ≡ elements.old.spare }
    {
        let extents = queues.extents.head();
        let free = queues.free.head();
        let heads = [extents[0], extents[1], free[0], free[1]];
        self.rows.set_last(elements, id, heads);
    }

    /// An empty subpool of this number, which the task owns and sees.
    ///
    /// It takes one element.
    pub fn create(&mut self, elements: &mut Elements, task: u8, number: u8) -> PoolId
        requires set { IsSubpoolSet elements.old self.old }
        requires range { (1 ≤ task) × (task ≤ 64) × (number ≤ 127) }
        requires unseen { sight elements.old self.old task number ≡ None }
        requires room { 0 < elements.old.spare }
        ensures set { IsSubpoolSet elements.new self.new }
        ensures sight { (t n : ℕ) → sight elements.new self.new t n
            ≡ sight_with (sight elements.old self.old) task number (Some task) t n }
        ensures pools { (n o : ℕ) → pool elements.new self.new n o
            ≡ pools_with (pool elements.old self.old) number task
            (Some (record { id = result; queues = no_queues })) n o }
        ensures owned { Leaves elements.old elements.new (owned elements.old self.old) (owned elements.new self.new) }
        ensures queues { QueuesStand elements.old self.old → QueuesStand elements.new self.new }
        ensures spares { elements.new.spare + 1 ≡ elements.old.spare }
    {
        let queues = Queues {
            extents: Extents::new(),
            free: FreeQueue::new(),
        };
        self.rows
            .insert(elements, row_words(task, number, task, queues))
    }

    /// The task sees the subpool too, and shares it.
    ///
    /// It takes one element.
    pub fn share(&mut self, elements: &mut Elements, task: u8, id: PoolId)
        requires set { IsSubpoolSet elements.old self.old }
        requires pool { IsSubpool elements.old self.old id }
        requires range { (1 ≤ task) × (task ≤ 64) }
        requires unseen { sight elements.old self.old task (number_of elements.old id) ≡ None }
        requires room { 0 < elements.old.spare }
        ensures set { IsSubpoolSet elements.new self.new }
        ensures sight { (t n : ℕ) → sight elements.new self.new t n
            ≡ sight_with (sight elements.old self.old) task (number_of elements.old id)
            (Some (owner_of elements.old id)) t n }
        ensures pools { (n o : ℕ) → pool elements.new self.new n o ≡ pool elements.old self.old n o }
        ensures owned { Leaves elements.old elements.new (owned elements.old self.old) (owned elements.new self.new) }
        ensures queues { QueuesStand elements.old self.old → QueuesStand elements.new self.new }
        ensures spares { elements.new.spare + 1 ≡ elements.old.spare }
    {
        let owner = self.owner(elements, id);
        let number = self.number(elements, id);
        let none = Queues {
            extents: Extents::new(),
            free: FreeQueue::new(),
        };
        self.rows
            .insert(elements, row_words(task, number, owner, none));
    }

    /// The task, which isn't the owner, no longer sees a subpool of this number.
    pub fn unshare(&mut self, elements: &mut Elements, task: u8, number: u8)
        requires set { IsSubpoolSet elements.old self.old }
        requires sharer { IsSome (sight elements.old self.old task number) }
        requires other { sight elements.old self.old task number ≢ Some task }
        ensures set { IsSubpoolSet elements.new self.new }
        ensures sight { (t n : ℕ) → sight elements.new self.new t n
            ≡ sight_with (sight elements.old self.old) task number None t n }
        ensures pools { (n o : ℕ) → pool elements.new self.new n o ≡ pool elements.old self.old n o }
        ensures owned { Leaves elements.old elements.new (owned elements.old self.old) (owned elements.new self.new) }
        ensures queues { QueuesStand elements.old self.old → QueuesStand elements.new self.new }
        ensures spares { elements.new.spare ≡ elements.old.spare + 1 }
    {
        self.rows
            .remove(elements, u32::from(task), u32::from(number));
    }

    /// The subpool of this number, which only its owner sees, no longer exists. The elements of its queues stay.
    pub fn remove(&mut self, elements: &mut Elements, owner: u8, number: u8)
        requires set { IsSubpoolSet elements.old self.old }
        requires there { sight elements.old self.old owner number ≡ Some owner }
        requires alone { (t : ℕ) → sight elements.old self.old t number ≡ Some owner → t ≡ owner }
        ensures set { IsSubpoolSet elements.new self.new }
        ensures sight { (t n : ℕ) → sight elements.new self.new t n
            ≡ sight_with (sight elements.old self.old) owner number None t n }
        ensures pools { (n o : ℕ) → pool elements.new self.new n o
            ≡ pools_with (pool elements.old self.old) number owner None n o }
        ensures owned { Leaves elements.old elements.new (owned elements.old self.old) (owned elements.new self.new) }
        ensures queues { QueuesStand elements.old self.old → QueuesStand elements.new self.new }
        ensures spares { elements.new.spare ≡ elements.old.spare + 1 }
    {
        self.rows
            .remove(elements, u32::from(owner), u32::from(number));
    }

    /// The subpool becomes the task's: its giver no longer sees it, and its sharers share it with the new owner.
    pub fn pass(&mut self, elements: &mut Elements, id: PoolId, to: u8)
        requires set { IsSubpoolSet elements.old self.old }
        requires pool { IsSubpool elements.old self.old id }
        requires range { (1 ≤ to) × (to ≤ 64) }
        requires unseen { sight elements.old self.old to (number_of elements.old id) ≡ None }
        ensures set { IsSubpoolSet elements.new self.new }
        ensures sight { (t n : ℕ) → sight elements.new self.new t n
            ≡ sight_given (sight elements.old self.old) (number_of elements.old id) (owner_of elements.old id) to t n }
        ensures pools { (n o : ℕ) → pool elements.new self.new n o
            ≡ pools_given (pool elements.old self.old) (number_of elements.old id) (owner_of elements.old id) to n o }
        ensures owned { Leaves elements.old elements.new (owned elements.old self.old) (owned elements.new self.new) }
        ensures queues { QueuesStand elements.old self.old → QueuesStand elements.new self.new }
        ensures spares { elements.new.spare ≡ elements.old.spare }
    {
        let giver = self.owner(elements, id);
        let number = self.number(elements, id);
        let queues = self.queues(elements, id);
        rename_rows(&self.rows, elements, number, giver, to);
        let words = row_words(to, number, to, queues);
        self.rows
            .set_key(elements, u32::from(giver), u32::from(number), words);
    }

    /// Takes the subpool out, with its sight and its queues. Its elements, and its id, stay.
    pub fn unplug(&mut self, elements: &mut Elements, id: PoolId) -> ParkedPool
        requires set { IsSubpoolSet elements.old self.old }
        requires pool { IsSubpool elements.old self.old id }
        ensures set { IsSubpoolSet elements.new self.new }
        ensures parked { IsParked elements.new result }
        ensures sight { (t n : ℕ) → sight elements.new self.new t n
            ≡ sight_without (sight elements.old self.old) (number_of elements.old id) (owner_of elements.old id) t n }
        ensures pools { (n o : ℕ) → pool elements.new self.new n o
            ≡ pools_with (pool elements.old self.old) (number_of elements.old id) (owner_of elements.old id) None n o }
        ensures sight_out { (t n : ℕ) → parked_sight elements.new result t n
            ≡ sight_of_pool (sight elements.old self.old) (number_of elements.old id) (owner_of elements.old id) t n }
        ensures pools_out { (n o : ℕ) → parked_pool elements.new result n o
            ≡ pool_alone (pool elements.old self.old) (number_of elements.old id) (owner_of elements.old id) n o }
        ensures apart { Apart (parked_owned elements.new result) (owned elements.new self.new) }
        ensures owned { Leaves elements.old elements.new (owned elements.old self.old)
            (owned elements.new self.new ++ parked_owned elements.new result) }
        ensures queues { QueuesStand elements.old self.old → QueuesStand elements.new self.new }
        ensures queues_out { QueuesStand elements.old self.old → ParkedQueuesStand elements.new result }
        ensures queues_apart { QueuesStand elements.old self.old → AreApartTogether elements.new
            (parked_pool elements.new result) (pool elements.new self.new)
            (parked_owned elements.new result) (owned elements.new self.new) }
        ensures spares { elements.new.spare ≡ elements.old.spare }
    {
        let owner = self.owner(elements, id);
        let number = self.number(elements, id);
        let rows = park_rows(&mut self.rows, elements, number, owner);
        ParkedPool {
            set: SubpoolSet { rows },
        }
    }

    /// Puts parked subpools back, with their sight and their queues.
    pub fn replug(&mut self, elements: &mut Elements, parked: ParkedPool)
        requires set { IsSubpoolSet elements.old self.old }
        requires parked { IsParked elements.old parked }
        requires free { (t n : ℕ) → IsSome (parked_sight elements.old parked t n)
            → sight elements.old self.old t n ≡ None }
        requires apart { Apart (parked_owned elements.old parked) (owned elements.old self.old) }
        ensures set { IsSubpoolSet elements.new self.new }
        ensures sight { (t n : ℕ) → sight elements.new self.new t n
            ≡ either_of (parked_sight elements.old parked t n) (sight elements.old self.old t n) }
        ensures pools { (n o : ℕ) → pool elements.new self.new n o
            ≡ either_of (parked_pool elements.old parked n o) (pool elements.old self.old n o) }
        ensures owned { Leaves elements.old elements.new
            (parked_owned elements.old parked ++ owned elements.old self.old) (owned elements.new self.new) }
        ensures queues { AreApartTogether elements.old
            (parked_pool elements.old parked) (pool elements.old self.old)
            (parked_owned elements.old parked) (owned elements.old self.old)
            → QueuesStand elements.new self.new }
        ensures spares { elements.new.spare ≡ elements.old.spare }
    {
        let ParkedPool { set } = parked;
        set.rows.move_all(elements, &mut self.rows);
    }
}
