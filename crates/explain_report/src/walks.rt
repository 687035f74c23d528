//! The sums of the runs of a storage: each subpool costs the same, however many runs it has.
ghost use Rattle.std.specs.Prelude.{◌≡◌, ◌+◌, ◌^◌, ◌<◌, length, flat_map};
ghost use Rattle.subpool_storage.specs.Extents.{free_areas};
ghost use Rattle.storage_core.specs.Meaning.{settings_of, state_in_place, state_of};
ghost use Rattle.storage_core.specs.Walks.{IsBehindSubpool, subpool_before};
ghost use Rattle.explain_report.specs.Figures.{all_subpools, extents_of, free_areas_of, unassigned};
ghost use Rattle.explain_report.specs.Tallies.{tally_of, with_runs, low_runs, high_runs, numbers_in};

use crate::tallies::{SideTallies, Tally};
use storage_changes::maps::{runs_are_shown, totals_are_sums, unassigned_are_shown};
use storage_core::{Storage, Subpool, SubpoolPlace};

/// The extents of a subpool, in pages.
pub(crate) fn extents_of(storage: &Storage, subpool: Subpool) -> SideTallies
    ensures low { result.low
        ≡ tally_of (low_runs 4096 (extents_of (settings_of storage.now) (state_of storage.now) subpool)) }
    ensures high { result.high
        ≡ tally_of (high_runs 4096 (extents_of (settings_of storage.now) (state_of storage.now) subpool)) }
{
    runs_are_shown();
    SideTallies::from_sums(storage.extent_sums(storage.first_extent(subpool)))
}

/// The free areas of a subpool, in doublewords.
pub(crate) fn free_areas_of(storage: &Storage, subpool: Subpool) -> SideTallies
    ensures low { result.low
        ≡ tally_of (low_runs 2097152 (free_areas_of (settings_of storage.now) (state_of storage.now) subpool)) }
    ensures high { result.high
        ≡ tally_of (high_runs 2097152 (free_areas_of (settings_of storage.now) (state_of storage.now) subpool)) }
{
    runs_are_shown();
    SideTallies::from_sums(storage.free_area_sums(storage.first_free_area(subpool)))
}

/// The runs of unassigned pages.
pub(crate) fn unassigned(storage: &Storage) -> SideTallies
    ensures low { result.low
        ≡ tally_of (low_runs 4096 (unassigned (settings_of storage.now) (state_of storage.now))) }
    ensures high { result.high
        ≡ tally_of (high_runs 4096 (unassigned (settings_of storage.now) (state_of storage.now))) }
{
    unassigned_are_shown();
    SideTallies::from_sums(storage.unassigned_sums())
}

/// The runs, and after them the free areas of the subpool before the place.
fn with_free_areas(storage: &Storage, subpool_place: SubpoolPlace, before: Tally) -> Tally
    requires behind { IsBehindSubpool storage.now subpool_place }
    requires total { before.total + numbers_in
        (free_areas (state_in_place storage.now).subpools (subpool_before storage.now subpool_place)) < 2 ^ 32 }
    requires count { before.count + length
        (free_areas (state_in_place storage.now).subpools (subpool_before storage.now subpool_place)) < 2 ^ 32 }
    ensures { result ≡ with_runs before
        (free_areas (state_in_place storage.now).subpools (subpool_before storage.now subpool_place)) }
{
    let sides = SideTallies::from_sums(storage.free_area_sums(storage.first_free_area_at(
        subpool_place,
    )));
    before.joined(sides.low).joined(sides.high)
}

/// The free areas of all subpools, in doublewords: by the subpool's number and owner, and then ascending.
pub(crate) fn all_free_areas(storage: &Storage) -> Tally
    ensures { result ≡ tally_of (flat_map (free_areas_of (settings_of storage.now) (state_of storage.now))
        (all_subpools (state_of storage.now).subpools)) }
{
    totals_are_sums();
    runs_are_shown();
    let mut tally = Tally::NONE;
    let mut place = Storage::first_subpool_place();
    while let Some((_, behind)) = storage.next_subpool(place) {
        tally = with_free_areas(storage, behind, tally);
        place = behind;
    }
    tally
}
