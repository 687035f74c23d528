//! Steps that several tests of subpools take.

ghost use Rattle.std.specs.Prelude.{◌≡◌, ℕ, ◌+◌, ◌≤◌};
ghost use Rattle.subpool_storage.specs.Subpools.{is_there, CanExchange};
ghost use Rattle.subpool_storage.specs.SubpoolStorage.{subpools_of, hold, Stands};

use crate::checks::holds;
use std::process::Abort;
use subpool_storage::SubpoolStorage;
use vsm_elements::Elements;
use vsm_model::Subpool;

/// Whether the subpool exists: its owner sees it.
pub(crate) fn is_made(elements: &Elements, storage: &SubpoolStorage, subpool: Subpool) -> bool
    requires { Stands elements.now storage.now }
    ensures { result ≡ is_there (subpools_of elements.now storage.now) subpool }
{
    match storage.owner_seen(elements, subpool.owner, subpool.number) {
        Some(owner) => owner == subpool.owner,
        None => false,
    }
}

/// The subpool is made.
pub(crate) fn create(
    rt: &impl Abort,
    elements: &mut Elements,
    storage: &mut SubpoolStorage,
    subpool: Subpool,
)
    requires { Stands elements.old storage.old }
    ensures { Stands elements.new storage.new }
{
    holds!(rt; subpool.owner >= 1);
    holds!(rt; subpool.owner <= 64);
    holds!(rt; subpool.number <= 127);
    holds!(rt; elements.spare() > 0);
    holds!(rt;
        storage
            .owner_seen(elements, subpool.owner, subpool.number)
            .is_none()
    );
    storage.create(elements, subpool);
}

/// The subpool becomes another task's.
pub(crate) fn pass(
    rt: &impl Abort,
    elements: &mut Elements,
    storage: &mut SubpoolStorage,
    subpool: Subpool,
    to: u8,
)
    requires { Stands elements.old storage.old }
    ensures { Stands elements.new storage.new }
{
    holds!(rt; is_made(elements, storage, subpool));
    holds!(rt; to >= 1);
    holds!(rt; to <= 64);
    holds!(rt; storage.owner_seen(elements, to, subpool.number).is_none());
    storage.pass(elements, subpool, to);
}

/// What the subpool has in one storage changes places with what it has in the other, and can again.
pub(crate) fn exchange(
    rt: &impl Abort,
    elements: &mut Elements,
    one: &mut SubpoolStorage,
    other: &mut SubpoolStorage,
    subpool: Subpool,
)
    requires stands { Stands elements.old one.old }
    requires other { Stands elements.old other.old }
    requires apart { (i : ℕ) → hold elements.old one.old i + hold elements.old other.old i ≤ 1 }
    requires names { CanExchange (subpools_of elements.old one.old) (subpools_of elements.old other.old) subpool }
    ensures stands { Stands elements.new one.new }
    ensures other { Stands elements.new other.new }
    ensures apart { (i : ℕ) → hold elements.new other.new i + hold elements.new one.new i ≤ 1 }
    ensures names { CanExchange (subpools_of elements.new other.new) (subpools_of elements.new one.new) subpool }
{
    holds!(rt; is_made(elements, one, subpool));
    holds!(rt; is_made(elements, other, subpool));
    one.exchange_storage(elements, other, subpool);
}
