ghost use Rattle.std.specs.Prelude.{◌≡◌, ℕ, ◌++◌, ◌==◌, [], true, None, IsSome};
ghost use Rattle.vsm_elements.specs.Ownership.{Leaves, Apart};
ghost use Rattle.row_table.specs.Rows.{either_of};
ghost use Rattle.subpool_set.specs.SubpoolSet.{parked_sight, parked_pool, parked_owned, parked_queue_ids, IsParked};
ghost use Rattle.subpool_set.specs.SubpoolSet.{ParkedQueuesStand};
ghost use Rattle.row_table.specs.Rows.{word};
ghost use Rattle.subpool_set.specs.Kept.{queues_of};
ghost use Rattle.subpool_set.specs.Heads.{ids_in};
ghost use Rattle.subpool_set.specs.QueueElements.{StandApart, AreApartTogether};

use crate::set::SubpoolSet;
use descriptor_queue::Extents;
use free_queue::FreeQueue;
use row_table::Row;
use vsm_elements::Elements;

/// Subpools that were taken out of a set, with their sight and their queues: a small set of their own.
///
/// It is put back, joined to others or discarded, and has no drop: its elements would stay live.
pub struct ParkedPool {
    pub(crate) set: SubpoolSet,
}

impl ParkedPool {
    /// Both as one.
    pub fn join(self, elements: &mut Elements, other: ParkedPool) -> ParkedPool
        requires parked { IsParked elements.old self }
        requires other { IsParked elements.old other }
        requires free { (t n : ℕ) → IsSome (parked_sight elements.old other t n)
            → parked_sight elements.old self t n ≡ None }
        requires apart { Apart (parked_owned elements.old other) (parked_owned elements.old self) }
        ensures parked { IsParked elements.new result }
        ensures sight { (t n : ℕ) → parked_sight elements.new result t n
            ≡ either_of (parked_sight elements.old other t n) (parked_sight elements.old self t n) }
        ensures pools { (n o : ℕ) → parked_pool elements.new result n o
            ≡ either_of (parked_pool elements.old other n o) (parked_pool elements.old self n o) }
        ensures owned { Leaves elements.old elements.new
            (parked_owned elements.old other ++ parked_owned elements.old self)
            (parked_owned elements.new result) }
        ensures queues { AreApartTogether elements.old
            (parked_pool elements.old other) (parked_pool elements.old self)
            (parked_owned elements.old other) (parked_owned elements.old self)
            → ParkedQueuesStand elements.new result }
        ensures spares { elements.new.spare ≡ elements.old.spare }
    {
        let ParkedPool { mut set } = self;
        set.replug(elements, other);
        ParkedPool { set }
    }

    /// Gives back every element: those of the rows of sight, and those of the queues.
    pub fn discard(self, elements: &mut Elements)
        requires parked { IsParked elements.old self }
        requires queues { ParkedQueuesStand elements.old self }
        ensures owned { Leaves elements.old elements.new
            (parked_owned elements.old self ++ parked_queue_ids elements.old self) [] }
    {
        let ParkedPool { set } = self;
        let mut rows = set.rows;
        while let Some(row) = rows.pop(elements) {
            discard_queues(elements, row);
        }
    }
}

// The queues of a row: those of its subpool, if the row is its owner's.
fn discard_queues(elements: &mut Elements, row: Row)
    requires { (word row.words 0 == word row.words 2) ≡ true → StandApart elements.old (queues_of row.words) }
    ensures { Leaves elements.old elements.new (ids_in elements.old row) [] }
{
    if row.words[0] == row.words[2] {
        let extents = Extents::from_head([row.words[3], row.words[4]]);
        let free = FreeQueue::from_head([row.words[5], row.words[6]]);
        extents.discard(elements);
        free.discard(elements);
    }
}
