//! The area that a request for storage asks for, or why none exists.
ghost use Rattle.std.specs.Prelude.{◌≡◌, ◌≤◌, ◌<◌, not, None, Some, IfOk, IfErr, IfNone, IfSome, OnOk, OnErr};
ghost use Rattle.vsm_model.specs.Areas.{spacing};
ghost use Rattle.vsm_model.specs.Causes.{first_cause, number_causes};
ghost use Rattle.vsm_model.specs.Obtaining.{longest, obtain_causes, place_for};
ghost use Rattle.vsm_model.specs.Regions.{side};
ghost use Rattle.vsm_model.specs.Services.{maximum, minimum};
ghost use Rattle.vsm_model.specs.Subpools.{seen_or_own, sees_one};
ghost use Rattle.storage_changes.specs.Meaning.{model_of};
ghost use Rattle.storage_swap.specs.Storage.{state_of};
ghost use Rattle.storage_plans.specs.ObtainPlans.{IsFound};
ghost use Rattle.storage_plans.specs.Places.{StandsAt, StandsSound, place_of};

use crate::places::{AreaPlace, area_place, longest_place};
use storage_swap::Parts;
use vsm_model::geometry::{LAST_SUBPOOL, PAGE_DOUBLEWORDS};
use vsm_model::{Boundary, Cause, Lengths, Location, Obtain, Residence, Settings, Subpool};

/// An area that was found for a request.
#[derive(Clone, Copy)]
pub(crate) struct FoundArea {
    /// The subpool that gets it: the one that the task sees at the number, or a new one of its own.
    pub(crate) subpool: Subpool,
    /// Whether the subpool is a new one.
    pub(crate) is_new: bool,
    /// In doublewords.
    pub(crate) count: u32,
    pub(crate) place: AreaPlace,
}

/// The area that a request gets, or the first cause that refuses it.
pub(crate) type AreaOrCause = Result<FoundArea, Cause>;

// How many doublewords an area has, and where it is placed.
type Placed = (u32, AreaPlace);

/// The subpool number, or the cause that refuses it.
pub fn check_number(number: u32) -> Result<u8, Cause>
    ensures ok { IfOk result (λ n. n ≡ number) }
    ensures allowed { OnOk result (number ≤ 127) }
    ensures err { IfErr result (λ cause. first_cause (number_causes number) ≡ Some cause) }
    ensures refused { OnErr result (127 < number) }
{
    match number {
        0..=LAST_SUBPOOL => Ok(number as u8),
        131 | 132 => Err(Cause::UnsupportedSubpool),
        _ => Err(Cause::SubpoolNotAllowed),
    }
}

/// The side of the line that the request asks for.
pub fn side_of(settings: Settings, location: Location) -> Residence
    ensures { result ≡ side settings location }
{
    match location {
        Location::Low => Residence::Below,
        Location::Either => Residence::Above,
        Location::Caller => settings.residence,
    }
}

// The doublewords from one boundary to the next.
pub(crate) fn spacing_of(boundary: Boundary) -> u32
    ensures value { result ≡ spacing boundary }
    ensures range { (0 < result) × (result ≤ 512) }
{
    match boundary {
        Boundary::Doubleword => 1,
        Boundary::Page => PAGE_DOUBLEWORDS,
    }
}

/// The subpool that the current task sees at the number, or the one of its own that it is to have; and whether that one
/// is new.
pub fn subpool_for(storage: &Parts, settings: Settings, number: u8) -> (Subpool, bool)
    requires { StandsSound settings storage.now }
    ensures subpool { result.0 ≡ seen_or_own (model_of (state_of storage.now)) number }
    ensures is_new { result.1 ≡ not (sees_one (model_of (state_of storage.now)) number) }
{
    let current = storage.tasks.current();
    let seen = storage
        .subpools
        .owner_seen(&storage.elements, current, number);
    let subpool = Subpool {
        number,
        owner: seen.unwrap_or(current),
    };
    (subpool, seen.is_none())
}

// The least accepted length in bytes, as requested: that of a fixed length is the length itself.
pub(crate) fn minimum_of(lengths: Lengths) -> u32
    ensures { result ≡ minimum lengths }
{
    match lengths {
        Lengths::Fixed(length) => length,
        Lengths::Variable { minimum, .. } => minimum,
    }
}

// The most doublewords that the request can be given, between its rounded bounds, and where they are placed; `None` if
// not even the fewest have a place. The maximum is tried first: a fixed length that has a place is looked for once.
fn find_place(storage: &Parts, settings: Settings, o: Obtain, subpool: Subpool) -> Option<Placed>
    requires stands { StandsAt settings storage.now }
    requires subpool { subpool ≡ seen_or_own (model_of (state_of storage.now)) o.number }
    requires some { 0 < minimum o.lengths }
    requires ordered { minimum o.lengths ≤ maximum o.lengths }
    ensures count { IfSome result (λ found. longest settings (model_of (state_of storage.now)) o ≡ Some found.0) }
    ensures place { IfSome result (λ found. place_of (Some found.1)
        ≡ place_for settings (model_of (state_of storage.now)) o found.0) }
    ensures none { IfNone result (longest settings (model_of (state_of storage.now)) o ≡ None) }
{
    let least = minimum_of(o.lengths).div_ceil(8);
    let most = o.lengths.maximum().div_ceil(8);
    let side = side_of(settings, o.location);
    let spacing = spacing_of(o.boundary);
    if let Some(place) = area_place(storage, settings, side, subpool, most, spacing) {
        return Some((most, place));
    }
    let count = longest_place(storage, settings, side, subpool, spacing);
    if count < least {
        return None;
    }
    match area_place(storage, settings, side, subpool, count, spacing) {
        Some(place) => Some((count, place)),
        None => None,
    }
}

/// The area that a request gets, or the first cause that refuses it: as many doublewords as have a place, from its
/// rounded minimum to its rounded maximum. A fixed length is both. Only reads, and takes no memory. `names_full` says
/// that the statement defines a name for which there is no room.
///
/// The causes, in order: a number above 127 (`UnsupportedSubpool` for 131 and 132, otherwise `SubpoolNotAllowed`),
/// `BadLength` for a minimum of zero bytes or one above the maximum, `TooManyNames`, and `NoStorage` if not even the
/// minimum has a place.
pub(crate) fn find_area(
    storage: &Parts,
    settings: Settings,
    o: Obtain,
    names_full: bool,
) -> AreaOrCause
    requires stands { StandsAt settings storage.now }
    ensures found { IfOk result (IsFound settings names_full (state_of storage.now) o) }
    ensures err { IfErr result (λ cause.
        first_cause (obtain_causes settings names_full (model_of (state_of storage.now)) o) ≡ Some cause) }
{
    let number = check_number(o.number)?;
    let least = minimum_of(o.lengths);
    if least == 0 || o.lengths.maximum() < least {
        return Err(Cause::BadLength);
    }
    if names_full {
        return Err(Cause::TooManyNames);
    }
    let (subpool, is_new) = subpool_for(storage, settings, number);
    match find_place(storage, settings, o, subpool) {
        Some((count, place)) => Ok(FoundArea {
            subpool,
            is_new,
            count,
            place,
        }),
        None => Err(Cause::NoStorage),
    }
}
