//! Why an area is placed where it is, or has no place: what each side of the line has for it.
ghost use Rattle.std.specs.Prelude.{◌≡◌, ◌*◌, ◌^◌, ◌<◌, ◌≤◌, ◌↔◌, true, None, IfSome, unwrap_or};
ghost use Rattle.vsm_model.specs.declared.limits.Residence.TheVariants.{Below};
ghost use Rattle.vsm_model.specs.Areas.{is_nowhere, place, spacing};
ghost use Rattle.vsm_model.specs.Obtaining.{longest, place_for};
ghost use Rattle.vsm_model.specs.Regions.{doublewords, regions_for, settings_valid};
ghost use Rattle.vsm_model.specs.Services.{maximum, minimum};
ghost use Rattle.vsm_model.specs.Subpools.{seen_or_own};
ghost use Rattle.storage_changes.specs.Meaning.{model_of};
ghost use Rattle.storage_swap.specs.Storage.{state_of};
ghost use Rattle.storage_plans.specs.Places.{StandsAt, StandsSound};
ghost use Rattle.storage_plans.specs.Reasons.{IsReason, reasons_place};

use crate::areas::{minimum_of, side_of, spacing_of};
use crate::places::longest_place;
use crate::searches::{least_area, least_pages, longest_area, longest_pages};
use storage_swap::Parts;
use vsm_model::geometry::PAGE_DOUBLEWORDS;
use vsm_model::{Obtain, Residence, Settings, Subpool};

/// What one side of the line has for an area.
#[derive(Clone, Copy)]
pub struct SideReason {
    pub side: Residence,
    /// The least doubleword of the subpool's free storage at which the area fits.
    pub inside: Option<u32>,
    /// The first page of the least run of unassigned pages that is long enough.
    pub fresh: Option<u32>,
    /// The most doublewords that fit in the subpool's free storage, on the requested boundary.
    pub longest_inside: u32,
    /// The most unassigned pages in a row.
    pub longest_run: u32,
}

/// What the sides that are looked at have: one of them, and the other one if there are two.
pub type Sides = (SideReason, Option<SideReason>);

/// What one side of the line has for an area of `count` doublewords of the subpool, on a boundary of `spacing`.
fn reason_on(
    storage: &Parts,
    settings: Settings,
    side: Residence,
    subpool: Subpool,
    count: u32,
    spacing: u32,
) -> SideReason
    requires stands { StandsAt settings storage.now }
    requires asked { (0 < count) × (count ≤ 2 ^ 29) × (0 < spacing) × (spacing ≤ 512) }
    ensures { IsReason settings (model_of (state_of storage.now)) side subpool count spacing result }
{
    let pages = count.div_ceil(PAGE_DOUBLEWORDS);
    SideReason {
        side,
        inside: least_area(storage, settings, side, subpool, count, spacing),
        fresh: least_pages(storage, settings, side, pages),
        longest_inside: longest_area(storage, settings, side, subpool, spacing),
        longest_run: longest_pages(storage, settings, side),
    }
}

/// What each side that is looked at has, in their order: above the line first, if allowed.
pub fn reasons(
    storage: &Parts,
    settings: Settings,
    side: Residence,
    subpool: Subpool,
    count: u32,
    spacing: u32,
) -> Sides
    requires sound { StandsSound settings storage.now }
    requires valid { settings_valid settings ≡ true }
    requires asked { (0 < count) × (count ≤ 2 ^ 29) × (0 < spacing) × (spacing ≤ 512) }
    ensures first { IsReason settings (model_of (state_of storage.now)) side subpool count spacing result.0 }
    ensures second { IfSome result.1 (IsReason settings (model_of (state_of storage.now)) Below subpool count spacing) }
    ensures place { reasons_place result
        ≡ place (model_of (state_of storage.now)) (regions_for settings side) subpool count spacing }
{
    let first = reason_on(storage, settings, side, subpool, count, spacing);
    match side {
        Residence::Below => (first, None),
        Residence::Above => {
            let low = reason_on(storage, settings, Residence::Below, subpool, count, spacing);
            (first, Some(low))
        }
    }
}

/// How many doublewords a request for storage is given, and why they are placed where they are: as many as have a
/// place, from its rounded minimum to its rounded maximum; the minimum if that has none, which is so exactly if there
/// is no place for the request.
pub fn obtain_reasons(
    storage: &Parts,
    settings: Settings,
    o: Obtain,
    subpool: Subpool,
) -> (u32, Sides)
    requires sound { StandsSound settings storage.now }
    requires valid { settings_valid settings ≡ true }
    requires subpool { subpool ≡ seen_or_own (model_of (state_of storage.now)) o.number }
    requires some { 0 < minimum o.lengths }
    requires ordered { minimum o.lengths ≤ maximum o.lengths }
    ensures count { result.0
        ≡ unwrap_or (longest settings (model_of (state_of storage.now)) o) (doublewords (minimum o.lengths)) }
    ensures place { reasons_place result.1 ≡ place_for settings (model_of (state_of storage.now)) o result.0 }
    ensures none { (is_nowhere (reasons_place result.1) ≡ true)
        ↔ (longest settings (model_of (state_of storage.now)) o ≡ None) }
{
    let least = minimum_of(o.lengths).div_ceil(8);
    let most = o.lengths.maximum().div_ceil(8);
    let side = side_of(settings, o.location);
    let spacing = spacing_of(o.boundary);
    // Each length up to it has a place, and no other.
    let top = longest_place(storage, settings, side, subpool, spacing);
    let count = top.min(most).max(least);
    let sides = reasons(storage, settings, side, subpool, count, spacing);
    (count, sides)
}
