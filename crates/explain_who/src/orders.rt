//! The order in which changes are shown.
ghost use Rattle.std.specs.Prelude.{◌≡◌, map};
ghost use Rattle.explain_who.specs.Code.{difference_in};
ghost use Rattle.explain_who.specs.Forms.{in_order};

use crate::found::NamedChange;

/// The order in which changes are shown.
#[derive(Clone, Copy)]
pub enum ChangeOrder {
    /// The newest statement first.
    NewestFirst,
    /// The oldest statement first.
    OldestFirst,
}

/// Puts changes, which are given oldest first, in an order.
pub(crate) fn put_in_order(found: &mut Vec<NamedChange<'_>>, order: ChangeOrder)
    ensures { map difference_in found.new.items ≡ in_order order (map difference_in found.old.items) }
{
    match order {
        ChangeOrder::NewestFirst => found.reverse(),
        ChangeOrder::OldestFirst => (),
    }
}
