//! Plans of turns.

ghost use Rattle.std.specs.Prelude.{◌≡◌, Bool, None, IfOk};
ghost use Rattle.vsm_model.specs.declared.limits.Settings.{Settings};
ghost use Rattle.vsm_model.specs.declared.replies.Reply.TheVariants.{Turn};
ghost use Rattle.vsm_model.specs.Services.{run};
ghost use Rattle.storage_changes.specs.StorageActions.{run_of};
ghost use Rattle.storage_swap.specs.Storage.{state_of, Stand};
ghost use Rattle.storage_plans.specs.Places.{StandsSound};
ghost use Rattle.storage_plans.specs.Plans.{IsPlanned};
ghost use Rattle.storage_changes.specs.Attaching.{turn_records};

use run_set::Run;
use storage_changes::tasks::turning_leads;
use storage_changes::{Record, TurnRecord};
use storage_plans::{PlanRecords, PlannedStorage, StoragePlan};
use storage_swap::Parts;
use vsm_model::geometry::LAST_TASK;
use vsm_model::{Cause, Reply};

// The plan of a turn to a task that exists.
fn turn_to(task: u8, room: &mut PlanRecords) -> StoragePlan<'_>
    ensures emptied { result.emptied ≡ None }
    ensures records { result.records.now.items ≡ turn_records task }
    ensures blanks { result.blanks ≡ 0 }
    ensures fresh { result.fresh ≡ run_of 0 0 }
    ensures reply { result.reply ≡ Turn task }
{
    room.clear();
    room.push(Record::Turn(TurnRecord { task }));
    StoragePlan {
        emptied: None,
        records: room,
        blanks: 0,
        fresh: Run { start: 0, len: 0 },
        reply: Reply::Turn(task),
    }
}

/// A plan by which another task makes the requests, the bench's own RUN. No register is set. Only reads, and takes no
/// memory. Its record is in `room`, in place of what that had. Refused with `NoTask` if no such task exists.
#[inline(never)]
pub fn plan_run<'a>(storage: &Parts, task: u32, room: &'a mut PlanRecords) -> PlannedStorage<'a>
    requires stands { Stand storage.now }
    ensures planned { (settings : Settings) (names_full : Bool) → StandsSound settings storage.now
        → IsPlanned settings names_full (state_of storage.now) (run task) result }
    ensures emptied { IfOk result (λ plan. plan.emptied ≡ None) }
{
    turning_leads();
    if task > LAST_TASK {
        return Err(Cause::NoTask);
    }
    let task = task as u8;
    match storage.tasks.check_run(&storage.elements, task) {
        Ok(()) => Ok(turn_to(task, room)),
        Err(_) => Err(Cause::NoTask),
    }
}
