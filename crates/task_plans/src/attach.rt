//! Plans of tasks that are attached.

ghost use Rattle.std.specs.Prelude.{◌≡◌, ℕ, ◌+◌, ◌≤◌, [], ◌∷◌, Bool, List, length, All, IsOk, OnOk, OnErr, IfOk, IfErr};
ghost use Rattle.vsm_elements.specs.Store.{live_count};
ghost use Rattle.vsm_model.specs.declared.limits.Settings.{Settings};
ghost use Rattle.vsm_model.specs.Services.{attach};
ghost use Rattle.storage_swap.specs.Storage.{hold, state_of, Stand, IsFrameless};
ghost use Rattle.storage_changes.specs.Attaching.{attach_records};
ghost use Rattle.storage_changes.specs.StorageActions.{register_records};
ghost use Rattle.storage_plans.specs.Places.{StandsSound};
ghost use Rattle.storage_swap.specs.Builder.{IsBuilding, Builds, Pushes};
ghost use Rattle.storage_swap.specs.Growth.{MakesElements};
ghost use Rattle.storage_swap.specs.Reserve.{Grown, Reserves};
ghost use Rattle.task_plans.specs.TaskPlans.{attach_change, numbers, CanBeAttached, IsAttachPlanned};

use crate::numbers::{Numbers, has_bad_number, numbers_of, numbers_or_none, some_is_anothers};
use crate::passing::{push_gifts, push_shares, push_zero};
use crate::registers::set_register;
use crate::{Builder, Pushed};
use std::alloc::AllocError;
use storage_changes::tasks::attaching_leads;
use storage_changes::{Record, TaskRecord};
use storage_swap::{Change, Parts};
use subpool_storage::laws::cell_pools_are_named;
use vsm_model::{Attach, Cause};

/// A task to be attached below the current one. Nothing is changed yet.
#[derive(Clone, Copy)]
pub struct AttachPlan {
    /// The number of the task, from 1 to 64.
    pub task: u8,
    /// The subpools that it is given and that it shares.
    pub attach: Attach,
}

/// A plan for a new task (*Assembler Services Reference*, ATTACH): it gets the least free number, shares subpool 0 or
/// has one of its own, is given subpools with their cell pools, and shares others. Register 15 gets 0 and register 1
/// its number. Only reads, and takes no memory.
///
/// The causes that refuse it, in order: `NotAssigned` if a byte of a list doesn't lie in an assigned page, that of the
/// subpools that are given first; `BadList` if a number is 0, above 127 or named twice; `NotOwner` if a subpool that is
/// given is another task's; and `TooManyTasks`.
#[inline(never)]
pub fn plan_attach(storage: &Parts, request: Attach) -> Result<AttachPlan, Cause>
    requires stands { Stand storage.now }
    requires frameless { IsFrameless storage.now }
    ensures { (settings : Settings) (names_full : Bool) → StandsSound settings storage.now
        → IsAttachPlanned settings names_full (state_of storage.now) (attach request) result }
{
    attaching_leads();
    cell_pools_are_named();
    let given = numbers_of(storage, request.given)?;
    let shared = numbers_of(storage, request.shared)?;
    if has_bad_number(&given, &shared) {
        return Err(Cause::BadList);
    }
    if some_is_anothers(storage, &given) {
        return Err(Cause::NotOwner);
    }
    match storage.tasks.check_attach(&storage.elements) {
        Ok(task) => Ok(AttachPlan {
            task,
            attach: request,
        }),
        Err(_) => Err(Cause::TooManyTasks),
    }
}

impl AttachPlan {
    /// The change: a record for the task, one or two for each number that is given or shared, and for subpool 0, one
    /// for register 1, and one for register 15 if it isn't 0. The state of the storage stays as it is.
    ///
    /// `AllocError` if memory is refused: what was made before that stays, as spare elements. If as many elements are
    /// spare as it has records and blank elements, it takes no memory. It uses at most that many. At most a block of
    /// elements is made beyond these, whatever the result, and no frame.
    pub fn reserve(self, storage: &mut Parts) -> Result<Change, AllocError>
        requires stands { Stand storage.old }
        requires once { (i : ℕ) → hold storage.old i ≤ 1 }
        requires frameless { IsFrameless storage.old }
        requires can { CanBeAttached (state_of storage.old) self }
        ensures ok { IfOk result (λ change.
            Reserves storage.old (attach_change (state_of storage.old) self) change storage.new) }
        ensures frames { IfOk result (λ change. length change.frames ≡ 0) }
        ensures grown { IfErr result (λ _. Grown storage.old storage.new) }
        ensures needless { let d = attach_change (state_of storage.old) self in
            length d.records + d.blanks ≤ storage.old.elements.spare → IsOk result }
        ensures uses { IfOk result (λ _. let d = attach_change (state_of storage.old) self in
            storage.old.elements.spare ≤ storage.new.elements.spare + (length d.records + d.blanks)) }
        ensures live { IfOk result (λ _. let d = attach_change (state_of storage.old) self in
            live_count storage.new.elements ≤ live_count storage.old.elements + (length d.records + d.blanks)) }
        ensures made { let d = attach_change (state_of storage.old) self in
            MakesElements storage.old.elements storage.new.elements (length d.records + d.blanks) }
        ensures same_frames { storage.new.region ≡ storage.old.region }
    {
        let mut builder = Builder::new();
        match self.push_records(storage, &mut builder) {
            Ok(blanks) => builder.finish(storage, blanks),
            Err(refused) => {
                builder.discard(storage);
                Err(refused)
            }
        }
    }

    // The records of the change, in their order. Returns how many blank elements it has.
    fn push_records(self, storage: &mut Parts, builder: &mut Builder) -> Result<u32, AllocError>
        requires building { IsBuilding storage.old builder.old }
        requires can { CanBeAttached (state_of storage.old) self }
        ensures builds { Builds storage.old builder.old storage.new builder.new }
        ensures ok { OnOk result (Pushes storage.old builder.old
            (attach_change (state_of storage.old) self).records storage.new builder.new) }
        ensures blanks { IfOk result (λ n. n ≡ (attach_change (state_of storage.old) self).blanks) }
        ensures made { OnErr result (MakesElements storage.old.elements storage.new.elements
            (length (attach_change (state_of storage.old) self).records)) }
        ensures needless { length (attach_change (state_of storage.old) self).records ≤ storage.old.elements.spare
            → IsOk result }
    {
        let given = numbers_or_none(storage, self.attach.given);
        let shared = numbers_or_none(storage, self.attach.shared);
        let count = (given.len() + shared.len()) as u32;
        self.push_task(storage, builder, &given, &shared)?;
        self.push_registers(storage, builder)?;
        Ok(7 + 2 * count)
    }

    // The records of the task, of subpool 0, and of these numbers that it's given and that it shares.
    fn push_task(
        self,
        storage: &mut Parts,
        builder: &mut Builder,
        given: &Numbers,
        shared: &Numbers,
    ) -> Pushed
        requires building { IsBuilding storage.old builder.old }
        requires given { All (λ number. number ≤ 127) given.now.items }
        requires shared { All (λ number. number ≤ 127) shared.now.items }
        ensures builds { Builds storage.old builder.old storage.new builder.new }
        ensures ok { OnOk result (Pushes storage.old builder.old (attach_records (state_of storage.old) self.task
            self.attach.shares_zero given.now.items shared.now.items) storage.new builder.new) }
        ensures made { OnErr result (MakesElements storage.old.elements storage.new.elements
            (length (attach_records (state_of storage.old) self.task self.attach.shares_zero given.now.items
            shared.now.items))) }
        ensures needless { length (attach_records (state_of storage.old) self.task self.attach.shares_zero
            given.now.items shared.now.items) ≤ storage.old.elements.spare → IsOk result }
    {
        let comes = Record::Task(TaskRecord {
            task: self.task,
            parent: storage.tasks.current(),
            present: true,
        });
        builder.push(storage, comes)?;
        push_zero(storage, builder, self.task, self.attach.shares_zero)?;
        push_gifts(storage, builder, self.task, given)?;
        push_shares(storage, builder, self.task, shared)
    }

    // The records of registers 15 and 1.
    fn push_registers(self, storage: &mut Parts, builder: &mut Builder) -> Pushed
        requires { IsBuilding storage.old builder.old }
        ensures builds { Builds storage.old builder.old storage.new builder.new }
        ensures ok { OnOk result (Pushes storage.old builder.old
            (register_records (state_of storage.old) ((15, 0) ∷ (1, self.task) ∷ [])) storage.new builder.new) }
        ensures made { OnErr result (MakesElements storage.old.elements storage.new.elements
            (length (register_records (state_of storage.old) ((15, 0) ∷ (1, self.task) ∷ [])))) }
        ensures needless { length (register_records (state_of storage.old) ((15, 0) ∷ (1, self.task) ∷ []))
            ≤ storage.old.elements.spare → IsOk result }
    {
        let current = storage.tasks.current();
        builder.push_return(storage, current, 0)?;
        builder.push(storage, set_register(current, 1, u32::from(self.task)))
    }
}
