//! What a subpool has: its pages and its free storage, summed up.
ghost use Rattle.std.specs.Prelude.{◌≡◌, ℕ, ◌+◌, ◌^◌, ◌<◌, List, map};
ghost use Rattle.run_set.specs.Runs.{Run};
ghost use Rattle.run_set.specs.Sums.{IsSidesOf};
ghost use Rattle.storage_changes.specs.MapLists.{pair_of};
ghost use Rattle.subpool_storage.specs.Extents.{extents, free_areas};
ghost use Rattle.storage_core.specs.Meaning.{settings_of, state_in_place, state_of};
ghost use Rattle.explain_who.specs.Holdings.{holding_of, in_short, same_holding};

use storage_changes::maps::runs_are_shown;
use storage_core::{SideSums, Storage, Subpool};

/// Runs of pages or of doublewords, summed up: how many numbers are in them, and how many runs there are.
#[derive(Clone, Copy)]
pub(crate) struct Runs {
    pub total: u32,
    pub count: u32,
}

/// What a subpool has.
#[derive(Clone, Copy)]
pub(crate) struct Holding {
    /// Its pages of 4,096 bytes, and its extents.
    pub pages: Runs,
    /// Its free doublewords, and its free areas.
    pub free: Runs,
}

impl Holding {
    /// No pages, and no free storage.
    pub(crate) const NOTHING: Holding = Holding {
        pages: Runs { total: 0, count: 0 },
        free: Runs { total: 0, count: 0 },
    };

    /// Whether the sums of two subpools are the same.
    pub(crate) fn is_same(&self, other: &Holding) -> bool
        ensures { result ≡ same_holding self.now other.now }
    {
        self.pages.total == other.pages.total
            && self.pages.count == other.pages.count
            && self.free.total == other.free.total
            && self.free.count == other.free.count
    }
}

/// The runs on both sides of the line.
fn both(sums: SideSums) -> Runs
    requires total { sums.low.total + sums.high.total < 2 ^ 32 }
    requires count { sums.low.count + sums.high.count < 2 ^ 32 }
    ensures { (line : ℕ) (rs : List Run) → IsSidesOf line rs sums → result ≡ in_short (map pair_of rs) }
{
    Runs {
        total: sums.low.total + sums.high.total,
        count: sums.low.count + sums.high.count,
    }
}

/// The extents of a subpool, in pages.
fn extents_of(storage: &Storage, subpool: Subpool) -> Runs
    ensures { result ≡ in_short (map pair_of (extents (state_in_place storage.now).subpools subpool)) }
{
    both(storage.extent_sums(storage.first_extent(subpool)))
}

/// The free areas of a subpool, in doublewords.
fn free_areas_of(storage: &Storage, subpool: Subpool) -> Runs
    ensures { result ≡ in_short (map pair_of (free_areas (state_in_place storage.now).subpools subpool)) }
{
    both(storage.free_area_sums(storage.first_free_area(subpool)))
}

/// What a subpool has: nothing if no such subpool exists.
pub(crate) fn holding_of(storage: &Storage, subpool: Subpool) -> Holding
    ensures { result ≡ holding_of (settings_of storage.now) (state_of storage.now) subpool }
{
    runs_are_shown();
    Holding {
        pages: extents_of(storage, subpool),
        free: free_areas_of(storage, subpool),
    }
}
