//! Where an area is placed.
ghost use Rattle.std.specs.Prelude.{◌≡◌, ◌^◌, ◌<◌, ◌≤◌, true, not};
ghost use Rattle.vsm_model.specs.Areas.{is_nowhere, place, place_in};
ghost use Rattle.vsm_model.specs.Regions.{regions_for, settings_valid};
ghost use Rattle.storage_changes.specs.Meaning.{model_of};
ghost use Rattle.storage_swap.specs.Storage.{state_of};
ghost use Rattle.storage_plans.specs.Places.{IsUpTo, StandsAt, StandsSound, place_of, region_on};

use crate::searches::{least_area, least_pages, longest_area, longest_pages};
use storage_swap::Parts;
use vsm_model::geometry::PAGE_DOUBLEWORDS;
use vsm_model::{Residence, Settings, Subpool};

/// A place for an area.
#[derive(Clone, Copy)]
pub enum AreaPlace {
    /// In free storage of the subpool, from this doubleword on: an address divided by 8.
    Inside(u32),
    /// At the first byte of unassigned pages, from this one on: an address divided by 4,096.
    Fresh(u32),
}

// The place in the region on one side of the line: the subpool's own free storage is first.
fn place_on(
    storage: &Parts,
    settings: Settings,
    side: Residence,
    subpool: Subpool,
    count: u32,
    spacing: u32,
) -> Option<AreaPlace>
    requires stands { StandsAt settings storage.now }
    requires asked { (0 < count) × (count ≤ 2 ^ 29) × (0 < spacing) × (spacing ≤ 512) }
    ensures { place_of result
        ≡ place_in (model_of (state_of storage.now)) subpool count spacing (region_on settings side) }
{
    if let Some(doubleword) = least_area(storage, settings, side, subpool, count, spacing) {
        return Some(AreaPlace::Inside(doubleword));
    }
    let pages = count.div_ceil(PAGE_DOUBLEWORDS);
    let page = least_pages(storage, settings, side, pages)?;
    Some(AreaPlace::Fresh(page))
}

/// Where an area of `count` doublewords is placed in the subpool, on a boundary of `spacing` doublewords: 1, or 512 for
/// a page. `None` if it has no place. Only reads, and takes no memory.
///
/// On the side above the line the high region is before the low one; below it the low one is the only one. In a region
/// the subpool's own free storage is before unassigned pages, each time at the lowest address.
pub fn area_place(
    storage: &Parts,
    settings: Settings,
    side: Residence,
    subpool: Subpool,
    count: u32,
    spacing: u32,
) -> Option<AreaPlace>
    requires sound { StandsSound settings storage.now }
    requires valid { settings_valid settings ≡ true }
    requires asked { (0 < count) × (count ≤ 2 ^ 29) × (0 < spacing) × (spacing ≤ 512) }
    ensures { place_of result
        ≡ place (model_of (state_of storage.now)) (regions_for settings side) subpool count spacing }
{
    let place = place_on(storage, settings, side, subpool, count, spacing);
    match side {
        Residence::Below => place,
        Residence::Above => match place {
            Some(place) => Some(place),
            None => place_on(storage, settings, Residence::Below, subpool, count, spacing),
        },
    }
}

// The most doublewords that have a place in the region on one side of the line.
fn longest_on(
    storage: &Parts,
    settings: Settings,
    side: Residence,
    subpool: Subpool,
    spacing: u32,
) -> u32
    requires stands { StandsAt settings storage.now }
    requires asked { (0 < spacing) × (spacing ≤ 512) }
    ensures { IsUpTo (λ count. not (is_nowhere
        (place_in (model_of (state_of storage.now)) subpool count spacing (region_on settings side)))) result }
{
    let inside = longest_area(storage, settings, side, subpool, spacing);
    let pages = longest_pages(storage, settings, side);
    inside.max(PAGE_DOUBLEWORDS * pages)
}

/// The most doublewords that have a place in the subpool, on a boundary of `spacing` doublewords: 1, or 512 for a page;
/// 0 if not even one has. Each smaller number also has a place. Only reads, and takes no memory.
pub(crate) fn longest_place(
    storage: &Parts,
    settings: Settings,
    side: Residence,
    subpool: Subpool,
    spacing: u32,
) -> u32
    requires stands { StandsAt settings storage.now }
    requires asked { (0 < spacing) × (spacing ≤ 512) }
    ensures { IsUpTo (λ count. not (is_nowhere
        (place (model_of (state_of storage.now)) (regions_for settings side) subpool count spacing))) result }
{
    let low = longest_on(storage, settings, Residence::Below, subpool, spacing);
    match side {
        Residence::Below => low,
        Residence::Above => {
            let high = longest_on(storage, settings, Residence::Above, subpool, spacing);
            high.max(low)
        }
    }
}
