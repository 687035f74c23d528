ghost use Rattle.std.specs.Prelude.{◌++◌, []};
ghost use Rattle.vsm_elements.specs.Ownership.{Leaves};
ghost use Rattle.subpool_set.specs.SubpoolSet.{owned, queue_ids, IsSubpoolSet, QueuesStand};

use crate::parked::ParkedPool;
use crate::set::SubpoolSet;
use vsm_elements::Elements;

impl SubpoolSet {
    /// Gives back every element: those of the rows of sight, and those of the queues.
    pub fn discard(self, elements: &mut Elements)
        requires set { IsSubpoolSet elements.old self }
        requires queues { QueuesStand elements.old self }
        ensures { Leaves elements.old elements.new (owned elements.old self ++ queue_ids elements.old self) [] }
    {
        ParkedPool { set: self }.discard(elements);
    }
}
