//! Plans of the release of a whole subpool.
ghost use Rattle.std.specs.Prelude.{Bool, [], ◌∷◌, None, Some, IfOk, IfErr, ◌≡◌, true};
ghost use Rattle.vsm_model.specs.declared.limits.Settings.{Settings};
ghost use Rattle.vsm_model.specs.declared.replies.Reply.TheVariants.{Returned};
ghost use Rattle.vsm_model.specs.Causes.{first_cause};
ghost use Rattle.vsm_model.specs.Regions.{settings_valid};
ghost use Rattle.vsm_model.specs.Releasing.{whole_causes};
ghost use Rattle.vsm_model.specs.Services.{whole};
ghost use Rattle.vsm_model.specs.Subpools.{seen_or_own};
ghost use Rattle.storage_changes.specs.Meaning.{model_of};
ghost use Rattle.storage_changes.specs.StorageActions.{register_records, run_of};
ghost use Rattle.storage_swap.specs.Storage.{state_of, Stand};
ghost use Rattle.storage_plans.specs.Places.{StandsSound};
ghost use Rattle.storage_plans.specs.Plans.{IsPlanned};

use crate::areas::check_number;
use crate::plan::{NO_PAGES, PlanRecords, PlannedStorage, StoragePlan, push_return};
use storage_changes::tables::rows_of_the_others_stay;
use storage_swap::Parts;
use subpool_storage::laws::cell_pools_are_named;
use vsm_model::{Cause, Reply, Subpool};

/// The blank elements that the release of a whole subpool needs in addition to one for each of its extents.
const WHOLE_BLANKS: u32 = 1;

// The subpool that the current task sees at the number and owns, or the first cause that refuses its release.
fn find_owned(storage: &Parts, number: u32) -> Result<Subpool, Cause>
    requires { Stand storage.now }
    ensures none { IfOk result (λ p. first_cause (whole_causes (model_of (state_of storage.now)) number) ≡ None) }
    ensures subpool { IfOk result (λ p. p ≡ seen_or_own (model_of (state_of storage.now)) number) }
    ensures err { IfErr result (λ cause.
        first_cause (whole_causes (model_of (state_of storage.now)) number) ≡ Some cause) }
{
    let number = check_number(number)?;
    if number == 0 {
        return Err(Cause::WholeOfZero);
    }
    let current = storage.tasks.current();
    let seen = storage
        .subpools
        .owner_seen(&storage.elements, current, number);
    let Some(owner) = seen else {
        return Err(Cause::NotInSubpool);
    };
    if owner != current {
        return Err(Cause::NotOwner);
    }
    Ok(Subpool { number, owner })
}

// The plan of a release that no cause refuses.
fn empty<'a>(storage: &Parts, subpool: Subpool, room: &'a mut PlanRecords) -> StoragePlan<'a>
    requires { Stand storage.now }
    ensures emptied { result.emptied ≡ Some subpool }
    ensures records { result.records.now.items ≡ register_records (state_of storage.now) ((15, 0) ∷ []) }
    ensures blanks { result.blanks ≡ 1 }
    ensures fresh { result.fresh ≡ run_of 0 0 }
    ensures reply { result.reply ≡ Returned 0 }
{
    room.clear();
    push_return(room, storage, 0);
    StoragePlan {
        emptied: Some(subpool),
        records: room,
        blanks: WHOLE_BLANKS,
        fresh: NO_PAGES,
        reply: Reply::Returned(0),
    }
}

/// A plan for the release of a whole subpool (*Assembler Services Reference*, FREEMAIN and STORAGE, RELEASE): its pages
/// are unassigned again, with all that was obtained in them, its cell pools are gone, and the subpool stays, empty,
/// with its owner and the tasks that share it. Register 15 gets 0. Only reads, and takes no memory, however many areas,
/// extents and cell pools the subpool has. The plan's records are in `room`, in place of what that had.
///
/// The causes that refuse it, in order: a number above 127 (`UnsupportedSubpool` for 131 and 132, otherwise
/// `SubpoolNotAllowed`), `WholeOfZero` for subpool 0, `NotInSubpool` if the task doesn't see the subpool, and
/// `NotOwner` if it doesn't own it.
#[inline(never)]
pub fn plan_whole<'a>(storage: &Parts, number: u32, room: &'a mut PlanRecords) -> PlannedStorage<'a>
    requires { Stand storage.now }
    ensures planned { (settings : Settings) (names_full : Bool) → settings_valid settings ≡ true
        → StandsSound settings storage.now
        → IsPlanned settings names_full (state_of storage.now) (whole number) result }
    ensures emptied { IfOk result (λ plan. plan.emptied
        ≡ Some (seen_or_own (model_of (state_of storage.now)) number)) }
{
    rows_of_the_others_stay();
    cell_pools_are_named();
    Ok(empty(storage, find_owned(storage, number)?, room))
}
