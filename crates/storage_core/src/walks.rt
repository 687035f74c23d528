//! What a storage holds, one after the other, in the order in which the storage map shows it. Nothing takes memory.
ghost use Rattle.std.specs.Prelude.{◌≡◌, ℕ, ◌+◌, ◌^◌, ◌<◌, [], ◌∷◌, option_map, slice_get, true, IfNone, IfSome};
ghost use Rattle.vsm_model.specs.declared.Subpool.{Subpool as Named};
ghost use Rattle.run_set.specs.RunSet.{place_index};
ghost use Rattle.run_set.specs.Sums.{IsSidesOf};
ghost use Rattle.subpool_set.specs.Pools.{sharers};
ghost use Rattle.subpool_storage.specs.Extents.{extents, free_areas};
ghost use Rattle.subpool_storage.specs.Order.{subpools_in_order};
ghost use Rattle.subpool_storage.specs.Subpools.{is_there};
ghost use Rattle.storage_core.specs.Meaning.{state_in_place, state_of};
ghost use Rattle.storage_core.specs.Walks.{IsSubpoolPlace, subpools_left, IsBehindSubpool, subpool_before};
ghost use Rattle.storage_core.specs.Walks.{sharers_left, IsExtentPlace, IsFreeAreaPlace};
ghost use Rattle.storage_changes.specs.MapLists.{unassigned_runs};

use crate::storage::Storage;
use descriptor_queue::laws::pages_stand;
use descriptor_queue::{Extents, Pages};
use free_queue::{Area, FreeQueue};
use run_set::{Run, RunPlace, RunSet, SideSums};
use storage_changes::maps::{runs_are_shown, unassigned_are_shown};
use subpool_storage::{SharerPlace, SubpoolPlace, SubpoolStorage};
use vsm_model::Subpool;
use vsm_model::geometry::{LINE_DOUBLEWORD, LINE_PAGE};

/// A place among the extents of a subpool, from which [`Storage::next_extent`] goes on at the cost of one element. It
/// is valid as long as the storage doesn't change.
#[derive(Clone, Copy, Debug, PartialEq, Eq)]
pub struct ExtentPlace {
    extents: Extents,
    place: RunPlace,
}

/// A place among the free areas of a subpool, from which [`Storage::next_free_area`] goes on in the same way.
#[derive(Clone, Copy, Debug, PartialEq, Eq)]
pub struct FreeAreaPlace {
    areas: FreeQueue,
    place: RunPlace,
}

impl Storage {
    /// The parent of a task, which is 0 for task 1; `None` if no such task exists.
    pub fn parent(&self, task: u8) -> Option<u8>
        ensures { result ≡ (state_of self.now).parents task }
    {
        self.parts.tasks.parent_of(&self.parts.elements, task)
    }

    /// The place before the first subpool of any storage. A place is valid as long as the storage doesn't change.
    pub fn first_subpool_place() -> SubpoolPlace
        ensures place { (s : Storage) → IsSubpoolPlace s result }
        ensures all { (s : Storage) → subpools_left s result ≡ subpools_in_order (state_in_place s).subpools }
    {
        SubpoolStorage::first_subpool_place()
    }

    /// The subpool after the place, and the place after that subpool; `None` after the last. From the first place on,
    /// the subpools are ordered by number and then by owner. (z/OS MVS Programming: Assembler Services Guide, "Subpool
    /// handling".)
    pub fn next_subpool(&self, place: SubpoolPlace) -> Option<(Subpool, SubpoolPlace)>
        requires { IsSubpoolPlace self.now place }
        ensures none { IfNone result (subpools_left self.now place ≡ []) }
        ensures next { IfSome result (λ r. subpools_left self.now place ≡ r.0 ∷ subpools_left self.now r.1) }
        ensures there { IfSome result (λ r. is_there (state_in_place self.now).subpools r.0 ≡ true) }
        ensures place { IfSome result (λ r. IsSubpoolPlace self.now r.1) }
        ensures behind { IfSome result (λ r. IsBehindSubpool self.now r.1) }
        ensures before { IfSome result (λ r. subpool_before self.now r.1 ≡ r.0) }
    {
        self.parts
            .subpools
            .next_subpool(&self.parts.elements, place)
    }

    /// The place before the first task that shares any subpool.
    pub fn first_sharer_place() -> SharerPlace
        ensures { (s : Storage) (p : Named)
            → sharers_left s result p ≡ sharers (state_in_place s).subpools.sight p.number p.owner }
    {
        SubpoolStorage::first_sharer_place()
    }

    /// The task after the place that sees the subpool without owning it, and the place after that task; `None` after
    /// the last. From the first place on, the tasks ascend. (z/OS MVS Programming: Assembler Services Guide, "Subpool
    /// handling".)
    pub fn next_sharer(&self, subpool: Subpool, place: SharerPlace) -> Option<(u8, SharerPlace)>
        ensures none { IfNone result (sharers_left self.now place subpool ≡ []) }
        ensures next { IfSome result (λ r. sharers_left self.now place subpool
            ≡ r.0 ∷ sharers_left self.now r.1 subpool) }
    {
        self.parts
            .subpools
            .next_sharer(&self.parts.elements, subpool, place)
    }

    /// The place before the first extent of the subpool before the place, without a look-up.
    pub fn first_extent_at(&self, place: SubpoolPlace) -> ExtentPlace
        requires { IsBehindSubpool self.now place }
        ensures { IsExtentPlace self.now (subpool_before self.now place) result 0 }
    {
        ExtentPlace {
            extents: self.parts.subpools.extents_at(&self.parts.elements, place),
            place: RunSet::first_place(),
        }
    }

    /// The place before the first free area of the subpool before the place, without a look-up.
    pub fn first_free_area_at(&self, place: SubpoolPlace) -> FreeAreaPlace
        requires { IsBehindSubpool self.now place }
        ensures { IsFreeAreaPlace self.now (subpool_before self.now place) result 0 }
    {
        FreeAreaPlace {
            areas: self
                .parts
                .subpools
                .free_areas_at(&self.parts.elements, place),
            place: RunSet::first_place(),
        }
    }

    /// The place before the first extent of the subpool.
    pub fn first_extent(&self, subpool: Subpool) -> ExtentPlace
        ensures { IsExtentPlace self.now subpool result 0 }
    {
        ExtentPlace {
            extents: self.parts.subpools.extents(&self.parts.elements, subpool),
            place: RunSet::first_place(),
        }
    }

    /// The extent after the place, in pages of 4,096 bytes, and the place after it; `None` after the last. They ascend,
    /// below and above the 16 MB line.
    pub fn next_extent(&self, place: ExtentPlace) -> Option<(Run, ExtentPlace)>
        requires { (p : Named) × (i : ℕ) × IsExtentPlace self.now p place i }
        ensures is { (p : Named) (i : ℕ) → IsExtentPlace self.now p place i
            → option_map (λ r. r.0) result ≡ slice_get (extents (state_in_place self.now).subpools p) i }
        ensures next { IfSome result (λ r. (p : Named) (i : ℕ) → IsExtentPlace self.now p place i
            → IsExtentPlace self.now p r.1 (i + 1)) }
        ensures end { IfSome result (λ r. r.0.start + r.0.len < 2 ^ 20) }
    {
        runs_are_shown();
        let ExtentPlace { extents, place } = place;
        let (run, place) = extents.next_run(&self.parts.elements, place)?;
        Some((run, ExtentPlace { extents, place }))
    }

    /// The sums of the extents of the subpool of the place, in pages, below and above the 16 MB line. They cost a few
    /// descents, however many extents there are.
    pub fn extent_sums(&self, place: ExtentPlace) -> SideSums
        requires { (p : Named) × (i : ℕ) × IsExtentPlace self.now p place i }
        ensures { (p : Named) (i : ℕ) → IsExtentPlace self.now p place i
            → IsSidesOf 4096 (extents (state_in_place self.now).subpools p) result }
    {
        place.extents.sums(&self.parts.elements, LINE_PAGE)
    }

    /// The place before the first free area of the subpool.
    pub fn first_free_area(&self, subpool: Subpool) -> FreeAreaPlace
        ensures { IsFreeAreaPlace self.now subpool result 0 }
    {
        FreeAreaPlace {
            areas: self
                .parts
                .subpools
                .free_areas(&self.parts.elements, subpool),
            place: RunSet::first_place(),
        }
    }

    /// The free area after the place, in doublewords, and the place after it; `None` after the last. They ascend, below
    /// and above the 16 MB line.
    pub fn next_free_area(&self, place: FreeAreaPlace) -> Option<(Area, FreeAreaPlace)>
        requires { (p : Named) × (i : ℕ) × IsFreeAreaPlace self.now p place i }
        ensures is { (p : Named) (i : ℕ) → IsFreeAreaPlace self.now p place i
            → option_map (λ r. r.0) result ≡ slice_get (free_areas (state_in_place self.now).subpools p) i }
        ensures next { IfSome result (λ r. (p : Named) (i : ℕ) → IsFreeAreaPlace self.now p place i
            → IsFreeAreaPlace self.now p r.1 (i + 1)) }
        ensures end { IfSome result (λ r. r.0.start + r.0.len < 2 ^ 29) }
    {
        runs_are_shown();
        let FreeAreaPlace { areas, place } = place;
        let (area, place) = areas.next_area(&self.parts.elements, place)?;
        Some((area, FreeAreaPlace { areas, place }))
    }

    /// The sums of the free areas of the subpool of the place, in doublewords, below and above the 16 MB line. They
    /// cost a few descents, however many areas there are.
    pub fn free_area_sums(&self, place: FreeAreaPlace) -> SideSums
        requires { (p : Named) × (i : ℕ) × IsFreeAreaPlace self.now p place i }
        ensures { (p : Named) (i : ℕ) → IsFreeAreaPlace self.now p place i
            → IsSidesOf 2097152 (free_areas (state_in_place self.now).subpools p) result }
    {
        place.areas.sums(&self.parts.elements, LINE_DOUBLEWORD)
    }

    /// The sums of the runs of unassigned pages, in pages, below and above the 16 MB line. They cost a few descents,
    /// however many runs there are.
    pub fn unassigned_sums(&self) -> SideSums
        ensures { IsSidesOf 4096 (unassigned_runs (state_in_place self.now)) result }
    {
        unassigned_are_shown();
        pages_stand();
        self.parts.unassigned.sums(&self.parts.elements, LINE_PAGE)
    }
}
