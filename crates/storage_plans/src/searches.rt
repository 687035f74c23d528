//! The least and the longest area and run of pages of a region.
ghost use Rattle.std.specs.Prelude.{◌≡◌, ◌+◌, ◌*◌, ◌^◌, ◌<◌, ◌≤◌, true, is_some};
ghost use Rattle.vsm_model.specs.Areas.{least_fit, least_run};
ghost use Rattle.vsm_model.specs.Regions.{settings_valid};
ghost use Rattle.storage_changes.specs.Meaning.{model_of};
ghost use Rattle.storage_swap.specs.Storage.{state_of};
ghost use Rattle.storage_plans.specs.Places.{IsUpTo, StandsAt, region_on};

use descriptor_queue::Page;
use run_set::Run;
use storage_swap::Parts;
use vsm_model::geometry::{HIGH_PAGE, LOW_PAGE, PAGE_DOUBLEWORDS, PAGE_K};
use vsm_model::{Residence, Settings, Subpool};

/// The pages of the region on one side of the line.
pub(crate) fn pages_on(settings: Settings, side: Residence) -> Run
    requires { settings_valid settings ≡ true }
    ensures start { result.start ≡ (region_on settings side).first }
    ensures len { result.len ≡ (region_on settings side).count }
    ensures range { result.start + result.len ≤ 2 ^ 20 }
{
    match side {
        Residence::Below => Run {
            start: LOW_PAGE,
            len: settings.low_k / PAGE_K,
        },
        Residence::Above => Run {
            start: HIGH_PAGE,
            len: settings.high_k / PAGE_K,
        },
    }
}

// The doublewords of the region on one side of the line.
fn area_on(settings: Settings, side: Residence) -> Run
    requires { settings_valid settings ≡ true }
    ensures start { result.start ≡ (region_on settings side).first * 512 }
    ensures len { result.len ≡ (region_on settings side).count * 512 }
    ensures range { result.start + result.len ≤ 2 ^ 29 }
{
    let pages = pages_on(settings, side);
    Run {
        start: pages.start * PAGE_DOUBLEWORDS,
        len: pages.len * PAGE_DOUBLEWORDS,
    }
}

/// The least doubleword of the region on that side of the line from which `count` doublewords are free storage of the
/// subpool, as a multiple of `spacing`. Only reads.
pub(crate) fn least_area(
    storage: &Parts,
    settings: Settings,
    side: Residence,
    subpool: Subpool,
    count: u32,
    spacing: u32,
) -> Option<u32>
    requires stands { StandsAt settings storage.now }
    requires asked { (0 < count) × (count ≤ 2 ^ 29) × (0 < spacing) × (spacing ≤ 512) }
    ensures { result ≡ least_fit (model_of (state_of storage.now)) (region_on settings side) subpool count spacing }
{
    let region = area_on(settings, side);
    storage
        .subpools
        .least_fit(&storage.elements, subpool, count, spacing, region)
}

/// The least page of the region on that side of the line from which `count` pages are nobody's. Only reads.
pub(crate) fn least_pages(
    storage: &Parts,
    settings: Settings,
    side: Residence,
    count: u32,
) -> Option<Page>
    requires stands { StandsAt settings storage.now }
    requires asked { (0 < count) × (count ≤ 2 ^ 20) }
    ensures { result ≡ least_run (model_of (state_of storage.now)) (region_on settings side) count }
{
    let pages = pages_on(settings, side);
    storage
        .unassigned
        .least_run(&storage.elements, pages, count)
}

/// The greatest number of doublewords of the region on that side of the line that are free storage of the subpool, from
/// a multiple of `spacing` on; 0 if there is none. Only reads.
pub(crate) fn longest_area(
    storage: &Parts,
    settings: Settings,
    side: Residence,
    subpool: Subpool,
    spacing: u32,
) -> u32
    requires stands { StandsAt settings storage.now }
    requires asked { (0 < spacing) × (spacing ≤ 512) }
    ensures { IsUpTo (λ count. is_some
        (least_fit (model_of (state_of storage.now)) (region_on settings side) subpool count spacing)) result }
{
    let region = area_on(settings, side);
    storage
        .subpools
        .longest(&storage.elements, subpool, spacing, region)
}

/// The greatest number of pages in a row of the region on that side of the line that are nobody's; 0 if there is none.
/// Only reads.
pub(crate) fn longest_pages(storage: &Parts, settings: Settings, side: Residence) -> u32
    requires { StandsAt settings storage.now }
    ensures up_to { IsUpTo (λ count. is_some
        (least_run (model_of (state_of storage.now)) (region_on settings side) count)) result }
    ensures range { result ≤ 2 ^ 20 }
{
    let pages = pages_on(settings, side);
    storage.unassigned.longest_run(&storage.elements, pages)
}
