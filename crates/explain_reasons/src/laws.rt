//! What the place of an area, or that there is none, says of a request.
ghost use Rattle.explain_reasons.specs.Places.{NoPlaceIsWantOfStorage};

/// A request that has no cause, or whose first cause is lack of storage, looks for a place, and finds none exactly if
/// its first cause is that.
pub fn no_place_is_want_of_storage()
    ensures { NoPlaceIsWantOfStorage }
{}
