//! The totals of a storage.
ghost use Rattle.std.specs.Prelude.{◌≡◌, ◌+◌, ◌<◌, ◌^◌, true, false};
ghost use Rattle.storage_changes.specs.MapTotals.{all_pages, all_free};
ghost use Rattle.storage_core.specs.Meaning.{state_in_place, state_of, settings_of};
ghost use Rattle.storage_core.specs.Walks.{IsBehindSubpool};
ghost use Rattle.storage_map.specs.Totals.{free_before, pages_before, totals_of};

use crate::counts::Totals;
use storage_changes::maps::totals_are_sums;
use storage_core::{Storage, SubpoolPlace};
use vsm_model::geometry::{PAGE_BYTES, PAGE_K};

/// The pages of a subpool, or of all subpools, on each side of the 16 MB line.
#[derive(Clone, Copy)]
struct PageCounts {
    low: u32,
    high: u32,
}

/// The pages of the subpool before the place.
fn pages_of(storage: &Storage, place: SubpoolPlace) -> PageCounts
    requires { IsBehindSubpool storage.now place }
    ensures low { result.low ≡ pages_before storage.now place true }
    ensures high { result.high ≡ pages_before storage.now place false }
{
    let sums = storage.extent_sums(storage.first_extent_at(place));
    PageCounts {
        low: sums.low.total,
        high: sums.high.total,
    }
}

/// The free doublewords of the subpool before the place.
fn free_of(storage: &Storage, place: SubpoolPlace) -> u32
    requires behind { IsBehindSubpool storage.now place }
    requires few { free_before storage.now place < 2 ^ 32 }
    ensures { result ≡ free_before storage.now place }
{
    let sums = storage.free_area_sums(storage.first_free_area_at(place));
    sums.low.total + sums.high.total
}

/// The pages of all subpools, and the free doublewords in them.
fn sums(storage: &Storage) -> (PageCounts, u32)
    requires low { all_pages (state_in_place storage.now).subpools true < 2 ^ 32 }
    requires high { all_pages (state_in_place storage.now).subpools false < 2 ^ 32 }
    requires free { all_free (state_in_place storage.now).subpools < 2 ^ 32 }
    ensures low { result.0.low ≡ all_pages (state_in_place storage.now).subpools true }
    ensures high { result.0.high ≡ all_pages (state_in_place storage.now).subpools false }
    ensures free { result.1 ≡ all_free (state_in_place storage.now).subpools }
{
    let mut pages = PageCounts { low: 0, high: 0 };
    let mut free = 0;
    let mut place = Storage::first_subpool_place();
    while let Some((_, behind)) = storage.next_subpool(place) {
        let own = pages_of(storage, behind);
        pages.low += own.low;
        pages.high += own.high;
        free += free_of(storage, behind);
        place = behind;
    }
    (pages, free)
}

/// The totals of a storage: each subpool costs the same, however many extents and free areas it has.
pub fn totals(storage: &Storage) -> Totals
    ensures { result ≡ totals_of (settings_of storage.now) (state_of storage.now) }
{
    totals_are_sums();
    let settings = storage.settings();
    let (pages, free) = sums(storage);
    let free = 8 * u64::from(free);
    Totals {
        low_pages: pages.low,
        low_size: settings.low_k / PAGE_K,
        high_pages: pages.high,
        high_size: settings.high_k / PAGE_K,
        taken: PAGE_BYTES as u64 * (u64::from(pages.low) + u64::from(pages.high)) - free,
        free,
    }
}
