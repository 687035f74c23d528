//! Which subpool a task sees.
ghost use Rattle.std.specs.Prelude.{◌≡◌, ◌≤◌};
ghost use Rattle.vsm_model.specs.Subpools.{seen_or_own};
ghost use Rattle.storage_core.specs.Meaning.{state_of};
ghost use Rattle.explain_reasons.specs.Sights.{seen_subpool};

use storage_core::{Storage, Subpool};
use vsm_model::geometry::LAST_SUBPOOL;

/// The subpool that the current task sees at a number below 128.
pub(crate) fn seen(storage: &Storage, number: u32) -> Option<Subpool>
    ensures { result ≡ seen_subpool (state_of storage.now) number }
{
    if number > LAST_SUBPOOL {
        return None;
    }
    let number = number as u8;
    match storage.owner_seen(storage.current(), number) {
        Some(owner) => Some(Subpool { number, owner }),
        None => None,
    }
}

/// The subpool that the current task sees at a number below 128, or the one of its own that it is to have.
pub(crate) fn seen_or_own(storage: &Storage, number: u32) -> Subpool
    ensures { number ≤ 127 → result ≡ seen_or_own (state_of storage.now) number }
{
    match seen(storage, number) {
        Some(subpool) => subpool,
        None => Subpool {
            number: number.min(LAST_SUBPOOL) as u8,
            owner: storage.current(),
        },
    }
}
