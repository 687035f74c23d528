//! What a storage holds by position: the item of an index, from 0 on, in the order of the storage map, and none past
//! the last. Each walks to its item; [`Storage::next_extent`] and the like go on from their place.
ghost use Rattle.std.specs.Prelude.{◌≡◌, slice_get};
ghost use Rattle.task_tree.specs.Tasks.{tasks_in};
ghost use Rattle.subpool_set.specs.Pools.{sharers};
ghost use Rattle.subpool_storage.specs.Extents.{extents, free_areas};
ghost use Rattle.subpool_storage.specs.Order.{subpools_in_order};
ghost use Rattle.storage_core.specs.Meaning.{state_in_place, state_of};

use crate::storage::Storage;
use free_queue::Area;
use run_set::Run;
use vsm_model::Subpool;

impl Storage {
    /// The task of this index, in ascending order.
    pub fn task_at(&self, i: u32) -> Option<u8>
        ensures { result ≡ slice_get (tasks_in (state_of self.now).parents) i }
    {
        self.parts.tasks.task_at(&self.parts.elements, i)
    }

    /// The subpool of this index, by number and then by owner.
    pub fn subpool_at(&self, i: u32) -> Option<Subpool>
        ensures { result ≡ slice_get (subpools_in_order (state_in_place self.now).subpools) i }
    {
        self.parts.subpools.subpool_at(&self.parts.elements, i)
    }

    /// The sharer of this index of a subpool, in ascending order. The owner isn't a sharer.
    pub fn sharer_at(&self, subpool: Subpool, i: u32) -> Option<u8>
        ensures { result ≡ slice_get (sharers (state_in_place self.now).subpools.sight
            subpool.number subpool.owner) i }
    {
        let mut place = Self::first_sharer_place();
        for _ in 0..i {
            (_, place) = self.next_sharer(subpool, place)?;
        }
        let (task, _) = self.next_sharer(subpool, place)?;
        Some(task)
    }

    /// The extent of this index of a subpool, in pages of 4,096 bytes, ascending.
    pub fn extent_at(&self, subpool: Subpool, i: u32) -> Option<Run>
        ensures { result ≡ slice_get (extents (state_in_place self.now).subpools subpool) i }
    {
        let mut place = self.first_extent(subpool);
        for _ in 0..i {
            (_, place) = self.next_extent(place)?;
        }
        let (run, _) = self.next_extent(place)?;
        Some(run)
    }

    /// The free area of this index of a subpool, in doublewords of 8 bytes, ascending.
    pub fn free_at(&self, subpool: Subpool, i: u32) -> Option<Area>
        ensures { result ≡ slice_get (free_areas (state_in_place self.now).subpools subpool) i }
    {
        let mut place = self.first_free_area(subpool);
        for _ in 0..i {
            (_, place) = self.next_free_area(place)?;
        }
        let (area, _) = self.next_free_area(place)?;
        Some(area)
    }
}
