//! What an accepted request will do to the storage, as the records of a change.
ghost use Rattle.std.specs.Prelude.{◌≡◌, ◌+◌, ◌<◌, ◌≤◌, [], ◌∷◌, ◌++◌, Bool, IfOk, Some, None};
ghost use Rattle.arrayvec.specs.ArrayVec.{array_vec_len};
ghost use Rattle.vsm_model.specs.declared.limits.Settings.{Settings};
ghost use Rattle.vsm_model.specs.declared.replies.Reply.TheVariants.{Returned};
ghost use Rattle.vsm_model.specs.Causes.{first_cause};
ghost use Rattle.vsm_model.specs.Services.{Service, is_conditional};
ghost use Rattle.vsm_model.specs.Step.{causes};
ghost use Rattle.storage_changes.specs.Meaning.{model_of, IsSound};
ghost use Rattle.storage_changes.specs.declared.record.Record.TheVariants.{Register};
ghost use Rattle.storage_changes.specs.StorageActions.{area_records, register_records, run_of};
ghost use Rattle.storage_swap.specs.Storage.{state_of, Stand};
ghost use Rattle.storage_plans.specs.Plans.{IsPlanned};

use arrayvec::ArrayVec;
use run_set::Run;
use storage_changes::{AreaRecord, Record, RegisterRecord};
use storage_swap::Parts;
use vsm_model::{Cause, Reply, Subpool};

/// The most records of a plan: those of an area in a new subpool, obtained by bounds.
pub const PLAN_RECORDS: usize = 8;

/// The records of a plan, in the order in which they are exchanged.
pub type PlanRecords = ArrayVec<Record, PLAN_RECORDS>;

/// What an accepted request will do. It was found only by reading, and nothing is changed yet.
#[derive(Clone, Copy)]
pub struct StoragePlan<'a> {
    /// The subpool whose pages and free storage move into the change as they are, before its records; `None` if there
    /// is none.
    pub emptied: Option<Subpool>,
    /// The records of its change, in the room that the caller gave.
    pub records: &'a PlanRecords,
    /// How many blank elements the change needs: at most 5, or 4,121 for another extent of a cell pool.
    pub blanks: u32,
    /// The pages of 4,096 bytes that become assigned; an empty run if there is none.
    pub fresh: Run,
    pub reply: Reply,
}

/// The outcome of a request: its plan, or the first cause that refuses it.
pub type PlannedStorage<'a> = Result<StoragePlan<'a>, Cause>;

/// The empty run.
pub const NO_PAGES: Run = Run { start: 0, len: 0 };

/// One more record: the doublewords of an area become free storage of the subpool, or taken. An area without a
/// doubleword needs none.
pub(crate) fn push_area(records: &mut PlanRecords, subpool: Subpool, area: Run, free: bool)
    requires { array_vec_len records.old < 8 }
    ensures records { records.new.items ≡ records.old.items ++ area_records subpool area.start area.len free }
    ensures few { array_vec_len records.new ≤ array_vec_len records.old + 1 }
{
    if area.len > 0 {
        records.push(Record::Area(AreaRecord {
            subpool,
            area,
            free,
        }));
    }
}

/// One more record: a register of the task gets the word.
pub fn push_register(records: &mut PlanRecords, task: u8, register: u8, word: u32)
    requires { array_vec_len records.old < 8 }
    ensures records { records.new.items
        ≡ records.old.items ++ Register (record { task = task; register = register; word = word }) ∷ [] }
    ensures few { array_vec_len records.new ≡ array_vec_len records.old + 1 }
{
    records.push(Record::Register(RegisterRecord {
        task,
        register,
        word,
    }));
}

/// Register 15 of the current task gets the return code: one more record, and none if it has that already.
pub fn push_return(records: &mut PlanRecords, storage: &Parts, code: u32)
    requires few { array_vec_len records.old < 8 }
    requires stands { Stand storage.now }
    ensures records { records.new.items
        ≡ records.old.items ++ register_records (state_of storage.now) ((15, code) ∷ []) }
    ensures few { array_vec_len records.new ≤ array_vec_len records.old + 1 }
{
    let current = storage.tasks.current();
    if storage.tasks.register(&storage.elements, current, 15) != code {
        push_register(records, current, 15, code);
    }
}

/// The plan of a conditional request that can't be met: register 15 gets 4, and nothing else changes. What the room had
/// is gone.
pub fn answer_four<'a>(storage: &Parts, room: &'a mut PlanRecords) -> StoragePlan<'a>
    requires { Stand storage.now }
    ensures emptied { result.emptied ≡ None }
    ensures records { result.records.now.items ≡ register_records (state_of storage.now) ((15, 4) ∷ []) }
    ensures blanks { result.blanks ≡ 0 }
    ensures fresh { result.fresh ≡ run_of 0 0 }
    ensures reply { result.reply ≡ Returned 4 }
{
    room.clear();
    push_return(room, storage, 4);
    StoragePlan {
        emptied: None,
        records: room,
        blanks: 0,
        fresh: NO_PAGES,
        reply: Reply::Returned(4),
    }
}

/// What a request with this first cause gets: a plan that sets register 15 to 4, if it is conditional and the cause is
/// one of those that such a form answers that way; otherwise the cause refuses it.
pub fn answer_cause<'a>(
    storage: &Parts,
    cause: Cause,
    conditional: bool,
    room: &'a mut PlanRecords,
) -> PlannedStorage<'a>
    requires { Stand storage.now }
    ensures emptied { IfOk result (λ plan. plan.emptied ≡ None) }
    ensures planned { (settings : Settings) (names_full : Bool) (x : Service)
        → ∥ IsSound settings (state_of storage.now) ∥₁
        → is_conditional x ≡ conditional
        → first_cause (causes settings names_full (model_of (state_of storage.now)) x) ≡ Some cause
        → IsPlanned settings names_full (state_of storage.now) x result }
{
    if conditional && cause.answers_four() {
        Ok(answer_four(storage, room))
    } else {
        Err(cause)
    }
}
