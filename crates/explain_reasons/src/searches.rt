//! Searches over an area of doublewords: where it leaves the regions or its subpool, and where it's free.
ghost use Rattle.std.specs.Prelude.{◌≡◌, ℕ, ◌+◌, ◌/◌, ◌^◌, ◌<◌, ◌≤◌, not};
ghost use Rattle.vsm_model.specs.Areas.{is_free};
ghost use Rattle.vsm_model.specs.Regions.{among, doublewords, in_a_region};
ghost use Rattle.vsm_model.specs.Releasing.{is_foreign, is_not_taken};
ghost use Rattle.vsm_model.specs.Search.{IsLeastAmong};
ghost use Rattle.storage_core.specs.Meaning.{settings_of, state_of};
ghost use Rattle.explain_reasons.specs.Searches.{is_beside, lesser};

use storage_core::{Release, Run, Settings, Storage, Subpool};
use vsm_model::geometry::{HIGH_PAGE, LOW_PAGE, PAGE_DOUBLEWORDS, PAGE_K};

/// The doublewords of a release.
pub(crate) fn area_of(r: Release) -> Run
    ensures start { result.start ≡ r.address / 8 }
    ensures len { result.len ≡ doublewords r.length }
    ensures range { result.start + result.len ≤ 2 ^ 30 }
{
    Run {
        start: r.address / 8,
        len: r.length.div_ceil(8),
    }
}

/// Whether a page is one of that number from the first on.
fn is_among(first: u32, count: u32, page: u32) -> bool
    requires { first + count < 2 ^ 32 }
    ensures { result ≡ among first count page }
{
    first <= page && page < first + count
}

/// Whether a page lies in a region.
fn is_in_a_region(settings: Settings, page: u32) -> bool
    ensures { result ≡ in_a_region settings page }
{
    is_among(HIGH_PAGE, settings.high_k / PAGE_K, page)
        || is_among(LOW_PAGE, settings.low_k / PAGE_K, page)
}

/// Whether a doubleword lies in no region, or in a page of another subpool.
fn is_foreign(storage: &Storage, subpool: Subpool, doubleword: u32) -> bool
    ensures { result ≡ is_foreign (settings_of storage.now) (state_of storage.now) subpool doubleword }
{
    let page = doubleword / PAGE_DOUBLEWORDS;
    if !is_in_a_region(storage.settings(), page) {
        return true;
    }
    match storage.subpool_of_page(page) {
        Some(its) => its.number != subpool.number || its.owner != subpool.owner,
        None => false,
    }
}

/// Whether the page of a doubleword isn't the subpool's.
fn is_beside(storage: &Storage, subpool: Subpool, doubleword: u32) -> bool
    ensures { result ≡ is_beside (state_of storage.now) subpool doubleword }
{
    match storage.subpool_of_page(doubleword / PAGE_DOUBLEWORDS) {
        Some(its) => its.number != subpool.number || its.owner != subpool.owner,
        None => true,
    }
}

/// The first doubleword of the next page.
fn next_page(doubleword: u32) -> u32
    requires { doubleword ≤ 2 ^ 31 }
    ensures further { doubleword < result }
    ensures near { result ≤ doubleword + 512 }
    ensures same { (d : ℕ) → doubleword ≤ d → d < result → d / 512 ≡ doubleword / 512 }
{
    (doubleword / PAGE_DOUBLEWORDS + 1) * PAGE_DOUBLEWORDS
}

/// The first doubleword of an area that lies in no region, or in a page of another subpool.
pub(crate) fn first_foreign(storage: &Storage, subpool: Subpool, area: Run) -> Option<u32>
    requires { area.start + area.len ≤ 2 ^ 30 }
    ensures { IsLeastAmong (is_foreign (settings_of storage.now) (state_of storage.now) subpool)
        area.start area.len result }
{
    let end = area.start + area.len;
    let mut at = area.start;
    while at < end {
        if is_foreign(storage, subpool, at) {
            return Some(at);
        }
        at = next_page(at);
    }
    None
}

/// The first doubleword of an area whose page isn't the subpool's.
fn first_beside(storage: &Storage, subpool: Subpool, area: Run) -> Option<u32>
    requires { area.start + area.len ≤ 2 ^ 30 }
    ensures { IsLeastAmong (is_beside (state_of storage.now) subpool) area.start area.len result }
{
    let end = area.start + area.len;
    let mut at = area.start;
    while at < end {
        if is_beside(storage, subpool, at) {
            return Some(at);
        }
        at = next_page(at);
    }
    None
}

/// The first doubleword of an area that is free in the subpool. It walks over the free areas before it.
pub(crate) fn first_free(storage: &Storage, subpool: Subpool, area: Run) -> Option<u32>
    requires { area.start + area.len ≤ 2 ^ 30 }
    ensures { IsLeastAmong (is_free (state_of storage.now) subpool) area.start area.len result }
{
    let end = area.start + area.len;
    let mut place = storage.first_free_area(subpool);
    while let Some((free, after)) = storage.next_free_area(place) {
        if area.start < free.start + free.len {
            let first = free.start.max(area.start);
            return if first < end { Some(first) } else { None };
        }
        place = after;
    }
    None
}

/// The lesser of two numbers that may be there.
fn lesser(one: Option<u32>, other: Option<u32>) -> Option<u32>
    ensures { result ≡ lesser one other }
{
    match (one, other) {
        (Some(one), Some(other)) => Some(one.min(other)),
        (Some(one), None) => Some(one),
        (None, other) => other,
    }
}

/// The first doubleword of an area that isn't taken storage of the subpool.
pub(crate) fn first_not_taken(storage: &Storage, subpool: Subpool, area: Run) -> Option<u32>
    requires { area.start + area.len ≤ 2 ^ 30 }
    ensures { IsLeastAmong (is_not_taken (state_of storage.now) subpool) area.start area.len result }
{
    lesser(
        first_free(storage, subpool, area),
        first_beside(storage, subpool, area),
    )
}
