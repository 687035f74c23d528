//! What holds of the storage as the state of a history. Each law is the contract of a function that does nothing.

ghost use Rattle.storage_swap.specs.ReservedFit.{ReservedChangesFit};
ghost use Rattle.storage_swap.specs.WholeFresh.{FreshStoragesAreWhole};

/// A change that was reserved and fits the state fits next to the other changes, which mean what they did. If those
/// were apart, all are; if the storage and those were whole, they are so with the new one.
pub fn reserved_changes_fit()
    ensures { ReservedChangesFit }
{}

/// A storage before the first request holds everything, without any change: each live element is its own, and no frame
/// is out.
pub fn fresh_storages_are_whole()
    ensures { FreshStoragesAreWhole }
{}
