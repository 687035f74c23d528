//! The subpools and their sharers in ascending order, from place to place.

ghost use Rattle.std.specs.Prelude.{◌≡◌, ℕ, ◌≤◌, true, [], ◌∷◌, slice_get, IfSome, IfNone};
ghost use Rattle.vsm_elements.specs.Store.{Store};
ghost use Rattle.vsm_elements.specs.Owners.{times};
ghost use Rattle.descriptor_queue.specs.Extents.{extents as extents_in, has_page as extents_have, owned as extents_own};
ghost use Rattle.descriptor_queue.specs.Extents.{IsExtents};
ghost use Rattle.free_queue.specs.FreeQueue.{areas, is_free, owned as areas_own, IsFreeQueue};
ghost use Rattle.subpool_set.specs.Pools.{is_shared, sharers};
ghost use Rattle.subpool_set.specs.SubpoolSet.{IsSubpool};
ghost use Rattle.subpool_storage.specs.Extents.{extents, free_areas};
ghost use Rattle.subpool_storage.specs.Subpools.{is_there};
ghost use Rattle.subpool_storage.specs.Order.{subpools_in_order};
ghost use Rattle.subpool_storage.specs.SubpoolStorage.{subpools_of, hold, named, subpools_left, sharers_left, Stands};
ghost use Rattle.subpool_storage.specs.SubpoolStorage.{subpool_before, IsSubpoolPlace, IsBehindSubpool};

use crate::storage::SubpoolStorage;
use descriptor_queue::Extents;
use free_queue::FreeQueue;
use subpool_set::{PoolId, Queues, SharerPlace, SubpoolPlace, SubpoolSet};
use vsm_elements::Elements;
use vsm_model::Subpool;

#[tactic(auto, unfolding(
// the subpools, and which elements they are in
crate::specs::SubpoolStorage::subpools_of, crate::specs::SubpoolStorage::Stands,
// where a walk over subpools is, and what is left of it
crate::specs::SubpoolStorage::subpools_left, crate::specs::SubpoolStorage::IsSubpoolPlace,
// which subpool is before it
crate::specs::SubpoolStorage::subpool_before, crate::specs::SubpoolStorage::IsBehindSubpool,
// where one over sharers is
crate::specs::SubpoolStorage::sharers_left))]
impl SubpoolStorage {
    /// The place before the first subpool of any storage. A place is one as long as the tasks see the same subpools.
    pub fn first_subpool_place() -> SubpoolPlace
        ensures place { (s : Store) (q : SubpoolStorage) → IsSubpoolPlace s q result }
        ensures all { (s : Store) (q : SubpoolStorage) → Stands s q
            → subpools_left s q result ≡ subpools_in_order (subpools_of s q) }
    {
        SubpoolSet::first_place()
    }

    /// The subpool after the place, and the place after that subpool; `None` after the last. From the first place on,
    /// the subpools are in order of number and then of owner, and each row of sight is read once on the way.
    pub fn next_subpool(
        &self,
        elements: &Elements,
        place: SubpoolPlace,
    ) -> Option<(Subpool, SubpoolPlace)>
        requires stands { Stands elements.now self.now }
        requires place { IsSubpoolPlace elements.now self.now place }
        ensures none { IfNone result (subpools_left elements.now self.now place ≡ []) }
        ensures next { IfSome result (λ r. subpools_left elements.now self.now place
            ≡ r.0 ∷ subpools_left elements.now self.now r.1) }
        ensures there { IfSome result (λ r. is_there (subpools_of elements.now self.now) r.0 ≡ true) }
        ensures place { IfSome result (λ r. IsSubpoolPlace elements.now self.now r.1) }
        ensures behind { IfSome result (λ r. IsBehindSubpool elements.now self.now r.1) }
        ensures before { IfSome result (λ r. subpool_before elements.now r.1 ≡ r.0) }
    {
        let (id, next) = self.set.next_subpool(elements, place)?;
        Some((self.subpool_of(elements, id), next))
    }

    // The subpool that the id names.
    fn subpool_of(&self, elements: &Elements, id: PoolId) -> Subpool
        requires stands { Stands elements.now self.now }
        requires pool { IsSubpool elements.now self.now.set id }
        ensures { result ≡ named elements.now id }
    {
        Subpool {
            number: self.set.number(elements, id),
            owner: self.set.owner(elements, id),
        }
    }

    // The queues of the subpool before the place.
    fn queues_at(&self, elements: &Elements, place: SubpoolPlace) -> Queues
        requires stands { Stands elements.now self.now }
        requires behind { IsBehindSubpool elements.now self.now place }
        ensures extents { IsExtents elements.now result.extents }
        ensures free { IsFreeQueue elements.now result.free }
        ensures pages { (p : ℕ) → extents_have elements.now result.extents p
            ≡ (subpools_of elements.now self.now).pages (subpool_before elements.now place) p }
        ensures areas { (d : ℕ) → is_free elements.now result.free d
            ≡ (subpools_of elements.now self.now).free (subpool_before elements.now place) d }
        ensures held { (i : ℕ) → times i (extents_own elements.now result.extents) ≤ hold elements.now self.now i }
        ensures areas_held { (i : ℕ) → times i (areas_own elements.now result.free) ≤ hold elements.now self.now i }
    {
        self.set.queues(elements, place.subpool())
    }

    /// The extents of the subpool before the place, which was read last: what [`SubpoolStorage::extents`] gives for it,
    /// without a look-up. (z/OS MVS Programming: Assembler Services Guide, "Subpool handling".)
    pub fn extents_at(&self, elements: &Elements, place: SubpoolPlace) -> Extents
        requires stands { Stands elements.now self.now }
        requires behind { IsBehindSubpool elements.now self.now place }
        ensures stands { IsExtents elements.now result }
        ensures pages { (page : ℕ) → extents_have elements.now result page
            ≡ (subpools_of elements.now self.now).pages (subpool_before elements.now place) page }
        ensures held { (i : ℕ) → times i (extents_own elements.now result) ≤ hold elements.now self.now i }
        ensures runs { extents_in elements.now result
            ≡ extents (subpools_of elements.now self.now) (subpool_before elements.now place) }
    {
        self.queues_at(elements, place).extents
    }

    /// The free areas of the subpool before the place, which was read last: what [`SubpoolStorage::free_areas`] gives
    /// for it, without a look-up. (z/OS MVS Programming: Assembler Services Guide, "Subpool handling".)
    pub fn free_areas_at(&self, elements: &Elements, place: SubpoolPlace) -> FreeQueue
        requires stands { Stands elements.now self.now }
        requires behind { IsBehindSubpool elements.now self.now place }
        ensures stands { IsFreeQueue elements.now result }
        ensures free { (d : ℕ) → is_free elements.now result d
            ≡ (subpools_of elements.now self.now).free (subpool_before elements.now place) d }
        ensures held { (i : ℕ) → times i (areas_own elements.now result) ≤ hold elements.now self.now i }
        ensures runs { areas elements.now result
            ≡ free_areas (subpools_of elements.now self.now) (subpool_before elements.now place) }
    {
        self.queues_at(elements, place).free
    }

    /// The place before the first task that shares any subpool.
    pub fn first_sharer_place() -> SharerPlace
        ensures { (s : Store) (q : SubpoolStorage) (p : Subpool)
            → sharers_left s q result p ≡ sharers (subpools_of s q).sight p.number p.owner }
    {
        SubpoolSet::first_sharer()
    }

    /// The task after the place that sees the subpool and isn't its owner, and the place after that task; `None` after
    /// the last. From the first place on, the tasks are in ascending order. Each row of sight of the subpool's number
    /// is read on the way, with a descent for each task. (z/OS MVS Programming: Assembler Services Guide, "Subpool
    /// handling".)
    pub fn next_sharer(
        &self,
        elements: &Elements,
        subpool: Subpool,
        place: SharerPlace,
    ) -> Option<(u8, SharerPlace)>
        requires stands { Stands elements.now self.now }
        ensures none { IfNone result (sharers_left elements.now self.now place subpool ≡ []) }
        ensures next { IfSome result (λ r. sharers_left elements.now self.now place subpool
            ≡ r.0 ∷ sharers_left elements.now self.now r.1 subpool) }
    {
        self.set
            .next_sharer(elements, subpool.number, subpool.owner, place)
    }

    /// Whether a task sees a subpool of this number and isn't its owner. The rows of sight of the number are read up to
    /// the first one that says so. (z/OS MVS Programming: Assembler Services Guide, "Subpool handling".)
    pub fn is_shared(&self, elements: &Elements, number: u8) -> bool
        requires { Stands elements.now self.now }
        ensures { result ≡ is_shared (subpools_of elements.now self.now).sight number }
    {
        self.set.is_shared(elements, number)
    }

    /// The subpool of this index, from 0 on, by number and then by owner; `None` past the last. Each row of sight up to
    /// it is read once.
    pub fn subpool_at(&self, elements: &Elements, i: u32) -> Option<Subpool>
        requires { Stands elements.now self.now }
        ensures { result ≡ slice_get (subpools_in_order (subpools_of elements.now self.now)) i }
    {
        let id = self.set.pool_at(elements, i)?;
        Some(self.subpool_of(elements, id))
    }
}
