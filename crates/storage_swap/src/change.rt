ghost use Rattle.std.specs.Prelude.{◌≡◌, ℕ, ◌≤◌};
ghost use Rattle.vsm_elements.specs.Store.{made_and_aside};
ghost use Rattle.vsm_elements.specs.Chain.{IsChain};
ghost use Rattle.vsm_elements.specs.Owners.{Moves};
ghost use Rattle.subpool_storage.specs.Held.{GivenBack};
ghost use Rattle.subpool_storage.specs.SubpoolStorage.{Stands};
ghost use Rattle.storage_changes.specs.Changes.{Fit};
ghost use Rattle.storage_swap.specs.Storage.{state_of};
ghost use Rattle.storage_swap.specs.Swap.{held_by, means, Ready, Swaps, Discards};

use crate::records::swap_records;
use crate::storage::Parts;
use raw_region::Parked;
use std::mem;
use subpool_storage::SubpoolStorage;
use vsm_elements::{Chain, Elements};

/// What is exchanged with the storage: records, the frames of pages that become assigned, and subpools that are parked
/// with their queues; and how many blank elements are set aside for the exchange.
///
/// Only [`Change::discard`] drops it: its elements stay live, and its blank ones set aside, until then.
#[derive(Drop)]
pub struct Change {
    pub(crate) records: Chain,
    pub(crate) blanks: u32,
    pub(crate) frames: Parked,
    pub(crate) parked: SubpoolStorage,
}

impl Change {
    /// Exchanges the change with the storage, and leaves the one that leads back.
    ///
    /// It takes no memory: no block of elements and no frame is made, and no frame is copied. The same number of
    /// elements is spare as before.
    pub fn swap(&mut self, storage: &mut Parts)
        requires ready { Ready storage.old self.old }
        requires fits { Fit (state_of storage.old) (means storage.old.elements self.old) }
        ensures { Swaps storage.old self.old storage.new self.new }
    {
        let kept = storage.elements.spare();
        storage.elements.put_back(self.blanks);
        let frames = mem::replace(&mut self.frames, Parked::empty());
        storage.region.restore(frames);
        swap_records(
            storage,
            &mut self.frames,
            &mut self.parked,
            &mut self.records,
        );
        self.blanks = storage.elements.spare() - kept;
        storage.elements.set_aside(self.blanks);
    }

    /// Gives back every element and every frame of the change, including those of the subpools that it has parked.
    ///
    /// The bytes of the frames are gone. The storage stays as it is.
    pub fn discard(self, storage: &mut Parts)
        requires { Ready storage.old self }
        ensures { Discards storage.old self storage.new }
    {
        let Change {
            records,
            blanks,
            frames,
            parked,
        } = self;
        storage.elements.put_back(blanks);
        discard_elements(&mut storage.elements, records, parked);
        storage.region.discard(frames);
    }
}

// The elements of the records and of the parked subpools are spare.
pub(crate) fn discard_elements(elements: &mut Elements, records: Chain, parked: SubpoolStorage)
    requires records { IsChain elements.old records }
    requires parked { Stands elements.old parked }
    requires once { (i : ℕ) → held_by elements.old records parked i ≤ 1 }
    ensures moves { Moves elements.old elements.new (held_by elements.old records parked) (λ i. 0) }
    ensures spares { GivenBack (held_by elements.old records parked) elements.old elements.new }
    ensures as_many { made_and_aside elements.new ≡ made_and_aside elements.old }
{
    records.discard(elements);
    parked.discard(elements);
}
