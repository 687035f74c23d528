//! Plans of CPOOL FREE.
ghost use Rattle.std.specs.Prelude.{◌≡◌, ◌≤◌, [], ◌∷◌, ◌++◌, Bool, None, length};
ghost use Rattle.vsm_model.specs.declared.limits.Settings.{Settings};
ghost use Rattle.vsm_model.specs.declared.replies.Reply.TheVariants.{Returned};
ghost use Rattle.vsm_model.specs.Services.{free};
ghost use Rattle.storage_changes.specs.StorageActions.{register_records, run_of};
ghost use Rattle.storage_swap.specs.Storage.{state_of, Stand};
ghost use Rattle.storage_plans.specs.Places.{StandsSound};
ghost use Rattle.storage_changes.specs.CellActions.{given_back_records};
ghost use Rattle.cell_plans.specs.CellPlans.{IsCellPlanned};

use crate::seen::find_seen;
use cell_pool::CellId;
use service_laws::cells::cell_pools_stay_well_formed;
use storage_changes::cells::giving_back_cells_leads;
use storage_changes::{CellRecord, Record};
use storage_plans::plan::{NO_PAGES, push_return};
use storage_plans::{PlanRecords, PlannedStorage, StoragePlan};
use storage_swap::Parts;
use subpool_storage::laws::cell_pools_are_named;
use vsm_model::{Cause, Reply};

// The plan that makes a cell in use the first free one.
fn plan_given_back<'a>(
    storage: &Parts,
    pool: CellId,
    cell: u32,
    room: &'a mut PlanRecords,
) -> StoragePlan<'a>
    requires { Stand storage.now }
    ensures emptied { result.emptied ≡ None }
    ensures records { result.records.now.items
        ≡ given_back_records pool cell ++ register_records (state_of storage.now) ((15, 0) ∷ []) }
    ensures blanks { result.blanks ≡ 0 }
    ensures fresh { result.fresh ≡ run_of 0 0 }
    ensures reply { result.reply ≡ Returned 0 }
{
    room.clear();
    room.push(Record::Cell(CellRecord {
        pool,
        cell,
        free: true,
    }));
    push_return(room, storage, 0);
    StoragePlan {
        emptied: None,
        records: room,
        blanks: 0,
        fresh: NO_PAGES,
        reply: Reply::Returned(0),
    }
}

/// A plan for a cell that is given back to its cell pool, by the address of its first byte (*Assembler Services
/// Reference*, CPOOL FREE): it's the next that is handed out. Register 15 gets 0. Only reads, and takes no memory. The
/// plan's records are in `room`, in place of what that had.
///
/// The causes that refuse it, in order: `NoCellPool` if no cell pool of the name exists or the current task doesn't see
/// its subpool, and `NotInUse` if the address isn't that of a cell that was handed out.
#[inline(never)]
pub fn plan_free<'a>(
    storage: &Parts,
    name: &str,
    cell: u32,
    room: &'a mut PlanRecords,
) -> PlannedStorage<'a>
    requires stands { Stand storage.now }
    requires name { length name.now ≤ 63 }
    ensures { (settings : Settings) (names_full : Bool) → StandsSound settings storage.now
        → IsCellPlanned settings names_full (state_of storage.now) (free name.now cell) result }
{
    giving_back_cells_leads();
    cell_pools_stay_well_formed();
    cell_pools_are_named();
    let id = find_seen(storage, name)?;
    let pools = storage.subpools.cell_pools(&storage.elements);
    if pools.in_use(&storage.elements, id, cell) {
        Ok(plan_given_back(storage, id, cell, room))
    } else {
        Err(Cause::NotInUse)
    }
}
