//! What a subpool has on each side of the 16 MB line.
ghost use Rattle.std.specs.Prelude.{◌≡◌, is_some};
ghost use Rattle.vsm_model.specs.declared.limits.Residence.TheVariants.{Below, Above};
ghost use Rattle.vsm_model.specs.Areas.{least_fit, least_run};
ghost use Rattle.storage_plans.specs.Places.{IsUpTo, region_on};
ghost use Rattle.storage_core.specs.Meaning.{state_of, settings_of};
ghost use Rattle.explain_report.specs.Figures.{IsRowOf, extents_of, free_areas_of, seen_or_own};
ghost use Rattle.explain_report.specs.Tallies.{tally_of, low_runs, high_runs};

use crate::tallies::Tally;
use crate::walks::{extents_of, free_areas_of};
use storage_core::{Residence, Storage, Subpool};

/// What a subpool has on one side of the 16 MB line.
#[derive(Clone, Copy)]
pub(crate) struct Share {
    /// Its pages of 4,096 bytes.
    pub pages: u32,
    /// Its free areas, in doublewords.
    pub free: Tally,
    /// The most doublewords for which its free storage has room, on a doubleword.
    pub largest: u32,
    /// The most unassigned pages in a row.
    pub unassigned: u32,
}

/// What a subpool has.
#[derive(Clone, Copy)]
pub(crate) struct SubpoolRow {
    pub subpool: Subpool,
    pub low: Share,
    pub high: Share,
}

/// What a subpool has: nothing if it doesn't exist.
pub(crate) fn row_of(storage: &Storage, subpool: Subpool) -> SubpoolRow
    ensures subpool { result.subpool ≡ subpool }
    ensures low_pages { result.low.pages
        ≡ (tally_of (low_runs 4096 (extents_of (settings_of storage.now) (state_of storage.now) subpool))).total }
    ensures high_pages { result.high.pages
        ≡ (tally_of (high_runs 4096 (extents_of (settings_of storage.now) (state_of storage.now) subpool))).total }
    ensures low_free { result.low.free
        ≡ tally_of (low_runs 2097152 (free_areas_of (settings_of storage.now) (state_of storage.now) subpool)) }
    ensures high_free { result.high.free
        ≡ tally_of (high_runs 2097152 (free_areas_of (settings_of storage.now) (state_of storage.now) subpool)) }
    ensures low_largest { IsUpTo (λ count. is_some (least_fit (state_of storage.now)
        (region_on (settings_of storage.now) Below) subpool count 1)) result.low.largest }
    ensures high_largest { IsUpTo (λ count. is_some (least_fit (state_of storage.now)
        (region_on (settings_of storage.now) Above) subpool count 1)) result.high.largest }
    ensures low_unassigned { IsUpTo (λ count. is_some (least_run (state_of storage.now)
        (region_on (settings_of storage.now) Below) count)) result.low.unassigned }
    ensures high_unassigned { IsUpTo (λ count. is_some (least_run (state_of storage.now)
        (region_on (settings_of storage.now) Above) count)) result.high.unassigned }
{
    let extents = extents_of(storage, subpool);
    let free = free_areas_of(storage, subpool);
    let (low, _) = storage.area_reasons(Residence::Below, subpool, 1, 1);
    let (high, _) = storage.area_reasons(Residence::Above, subpool, 1, 1);
    SubpoolRow {
        subpool,
        low: Share {
            pages: extents.low.total,
            free: free.low,
            largest: low.longest_inside,
            unassigned: low.longest_run,
        },
        high: Share {
            pages: extents.high.total,
            free: free.high,
            largest: high.longest_inside,
            unassigned: high.longest_run,
        },
    }
}

/// What the subpool has that a task sees at a number; if it sees none, what a new one of its own has, which is nothing.
pub(crate) fn row_seen(storage: &Storage, task: u8, number: u8) -> SubpoolRow
    ensures { IsRowOf (settings_of storage.now) (state_of storage.now) (seen_or_own (state_of storage.now) task number)
        result }
{
    let owner = storage.owner_seen(task, number).unwrap_or(task);
    row_of(storage, Subpool { number, owner })
}
