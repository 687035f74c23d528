//! The records of subpools that a new task is given, and of those that it shares.

ghost use Rattle.std.specs.Prelude.{◌≡◌, ◌≤◌, ◌++◌, length, All, IsOk, OnOk, OnErr};
ghost use Rattle.std.specs.List.{flat_map};
ghost use Rattle.storage_swap.specs.Storage.{state_of};
ghost use Rattle.storage_swap.specs.Builder.{IsBuilding, Builds, Pushes};
ghost use Rattle.storage_swap.specs.Growth.{MakesElements};
ghost use Rattle.storage_changes.specs.Attaching.{made, shared, gift_records, share_records, zero_records};

use crate::numbers::Numbers;
use crate::{Builder, Pushed};
use storage_changes::{OwnRecord, PassRecord, Record, SharerRecord};
use storage_swap::Parts;
use vsm_model::Subpool;

// A subpool that is made.
fn made(number: u8, owner: u8) -> Record
    ensures { result ≡ made number owner }
{
    Record::Own(OwnRecord {
        subpool: Subpool { number, owner },
        present: true,
    })
}

// A task that sees another's subpool from then on.
fn shared(number: u8, owner: u8, task: u8) -> Record
    ensures { result ≡ shared number owner task }
{
    Record::Sharer(SharerRecord {
        subpool: Subpool { number, owner },
        task,
        present: true,
    })
}

// A number that is given to the task.
fn push_gift(storage: &mut Parts, builder: &mut Builder, task: u8, number: u8) -> Pushed
    requires { IsBuilding storage.old builder.old }
    ensures builds { Builds storage.old builder.old storage.new builder.new }
    ensures ok { OnOk result (Pushes storage.old builder.old
        (gift_records (state_of storage.old) task number) storage.new builder.new) }
    ensures made { OnErr result (MakesElements storage.old.elements storage.new.elements
        (length (gift_records (state_of storage.old) task number))) }
    ensures needless { length (gift_records (state_of storage.old) task number) ≤ storage.old.elements.spare
        → IsOk result }
{
    let current = storage.tasks.current();
    let seen = storage
        .subpools
        .owner_seen(&storage.elements, current, number);
    match seen {
        Some(owner) => {
            let passes = Record::Pass(PassRecord {
                subpool: Subpool { number, owner },
                to: task,
            });
            builder.push(storage, passes)
        }
        None => builder.push(storage, made(number, task)),
    }
}

// A number that is shared with the task.
fn push_share(storage: &mut Parts, builder: &mut Builder, task: u8, number: u8) -> Pushed
    requires { IsBuilding storage.old builder.old }
    ensures builds { Builds storage.old builder.old storage.new builder.new }
    ensures ok { OnOk result (Pushes storage.old builder.old
        (share_records (state_of storage.old) task number) storage.new builder.new) }
    ensures made { OnErr result (MakesElements storage.old.elements storage.new.elements
        (length (share_records (state_of storage.old) task number))) }
    ensures needless { length (share_records (state_of storage.old) task number) ≤ storage.old.elements.spare
        → IsOk result }
{
    let current = storage.tasks.current();
    let seen = storage
        .subpools
        .owner_seen(&storage.elements, current, number);
    match seen {
        Some(owner) => builder.push(storage, shared(number, owner, task)),
        None => {
            builder.push(storage, made(number, current))?;
            builder.push(storage, shared(number, current, task))
        }
    }
}

/// Subpool 0 is shared with the task, or it's one of its own.
pub fn push_zero(storage: &mut Parts, builder: &mut Builder, task: u8, shares_zero: bool) -> Pushed
    requires { IsBuilding storage.old builder.old }
    ensures builds { Builds storage.old builder.old storage.new builder.new }
    ensures ok { OnOk result (Pushes storage.old builder.old
        (zero_records (state_of storage.old) task shares_zero) storage.new builder.new) }
    ensures made { OnErr result (MakesElements storage.old.elements storage.new.elements
        (length (zero_records (state_of storage.old) task shares_zero))) }
    ensures needless { length (zero_records (state_of storage.old) task shares_zero) ≤ storage.old.elements.spare
        → IsOk result }
{
    if shares_zero {
        push_share(storage, builder, task, 0)
    } else {
        builder.push(storage, made(0, task))
    }
}

/// The numbers are given to the task, in their order.
pub fn push_gifts(storage: &mut Parts, builder: &mut Builder, task: u8, given: &Numbers) -> Pushed
    requires building { IsBuilding storage.old builder.old }
    requires range { All (λ number. number ≤ 127) given.now.items }
    ensures builds { Builds storage.old builder.old storage.new builder.new }
    ensures ok { OnOk result (Pushes storage.old builder.old
        (flat_map (gift_records (state_of storage.old) task) given.now.items) storage.new builder.new) }
    ensures made { OnErr result (MakesElements storage.old.elements storage.new.elements
        (length (flat_map (gift_records (state_of storage.old) task) given.now.items))) }
    ensures needless { length (flat_map (gift_records (state_of storage.old) task) given.now.items)
        ≤ storage.old.elements.spare → IsOk result }
{
    for k in 0..given.len() {
        push_gift(storage, builder, task, given[k] as u8)?;
    }
    Ok(())
}

/// The numbers are shared with the task, in their order.
pub fn push_shares(storage: &mut Parts, builder: &mut Builder, task: u8, shared: &Numbers) -> Pushed
    requires building { IsBuilding storage.old builder.old }
    requires range { All (λ number. number ≤ 127) shared.now.items }
    ensures builds { Builds storage.old builder.old storage.new builder.new }
    ensures ok { OnOk result (Pushes storage.old builder.old
        (flat_map (share_records (state_of storage.old) task) shared.now.items) storage.new builder.new) }
    ensures made { OnErr result (MakesElements storage.old.elements storage.new.elements
        (length (flat_map (share_records (state_of storage.old) task) shared.now.items))) }
    ensures needless { length (flat_map (share_records (state_of storage.old) task) shared.now.items)
        ≤ storage.old.elements.spare → IsOk result }
{
    for k in 0..shared.len() {
        push_share(storage, builder, task, shared[k] as u8)?;
    }
    Ok(())
}
