//! The place of an area that is asked for, or that there is none.
ghost use Rattle.std.specs.Prelude.{◌≡◌, ◌↔◌, true, None, IfSome, is_some, unwrap_or};
ghost use Rattle.vsm_model.specs.Areas.{is_nowhere};
ghost use Rattle.vsm_model.specs.Obtaining.{longest, place_for};
ghost use Rattle.vsm_model.specs.Regions.{doublewords};
ghost use Rattle.vsm_model.specs.Services.{minimum};
ghost use Rattle.storage_core.specs.Meaning.{settings_of, state_of};
ghost use Rattle.explain_reasons.specs.Places.{asks_for_place, extent_asked, sides_place};

use storage_core::{Boundary, Lengths, Location, Obtain, SideReason, Storage};
use vsm_model::geometry::LAST_SUBPOOL;

/// What each side of the line that is searched has for an area: above the line first, if it may be there.
#[derive(Clone, Copy)]
pub(crate) struct LengthSides {
    /// The doublewords that a place is looked for, and the boundary that they begin on.
    pub(crate) count: u32,
    pub(crate) boundary: Boundary,
    pub(crate) first: SideReason,
    pub(crate) second: Option<SideReason>,
}

/// The request for an extent of a number of cells of a size in bytes, in a subpool of this number.
pub(crate) fn extent_asked(cells: u32, size: u32, number: u32, location: Location) -> Obtain
    ensures { result ≡ extent_asked cells size number location }
{
    Obtain {
        lengths: Lengths::Fixed(cells.saturating_mul(size)),
        number,
        boundary: Boundary::Doubleword,
        location,
        register: None,
        conditional: false,
    }
}

/// The least length in bytes that will do.
fn least_length(lengths: Lengths) -> u32
    ensures { result ≡ minimum lengths }
{
    match lengths {
        Lengths::Fixed(length) => length,
        Lengths::Variable { minimum, .. } => minimum,
    }
}

/// Whether a request gets as far as looking for a place: its number can be asked for, and its lengths are in order.
fn asks_for_place(o: Obtain) -> bool
    ensures { result ≡ asks_for_place o }
{
    let least = least_length(o.lengths);
    o.number <= LAST_SUBPOOL && least != 0 && least <= o.lengths.maximum()
}

/// What a request finds on the sides of the line; `None` if it doesn't get to look for a place, since its number can't
/// be asked for, or a length is bad. No place is found exactly if the request lacks storage.
///
/// The place is for the length that the request is given: with two bounds the greatest that has one, else the least.
pub(crate) fn sides_for(storage: &Storage, o: Obtain) -> Option<LengthSides>
    ensures asked { is_some result ≡ asks_for_place o }
    ensures count { IfSome result (λ r. r.count
        ≡ unwrap_or (longest (settings_of storage.now) (state_of storage.now) o) (doublewords (minimum o.lengths))) }
    ensures place { IfSome result (λ r. sides_place r
        ≡ place_for (settings_of storage.now) (state_of storage.now) o r.count) }
    ensures none { IfSome result (λ r. (is_nowhere (sides_place r) ≡ true)
        ↔ (longest (settings_of storage.now) (state_of storage.now) o ≡ None)) }
{
    if !asks_for_place(o) {
        return None;
    }
    let (count, (first, second)) = storage.obtain_reasons(o);
    Some(LengthSides {
        count,
        boundary: o.boundary,
        first,
        second,
    })
}
