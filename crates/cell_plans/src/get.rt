//! Plans of CPOOL GET.
ghost use Rattle.std.specs.Prelude.{◌≡◌, ◌^◌, ◌<◌, ◌≤◌, ◌++◌, true, length, IfSome, None};
ghost use Rattle.arrayvec.specs.ArrayVec.{array_vec_len};
ghost use Rattle.vsm_model.specs.declared.replies.Reply.TheVariants.{Cell};
ghost use Rattle.vsm_model.specs.Regions.{settings_valid};
ghost use Rattle.vsm_model.specs.Services.{get};
ghost use Rattle.storage_changes.specs.StorageActions.{run_of};
ghost use Rattle.storage_swap.specs.Storage.{state_of, Stand};
ghost use Rattle.storage_plans.specs.Places.{StandsSound};
ghost use Rattle.storage_changes.specs.CellActions.{extent_blanks as blanks_for};
ghost use Rattle.cell_plans.specs.CellPlans.{IsCellPlanned};
ghost use Rattle.cell_plans.specs.Handing.{CanExtend, IsFurther, cell_records};

use crate::seen::find_seen;
use crate::sizes::extent_doublewords;
use cell_pool::{CellId, CellSettings};
use service_laws::cells::cell_pools_stay_well_formed;
use storage_changes::cells::{extending_leads, handing_out_leads};
use storage_changes::{CellExtentRecord, CellRecord, Record};
use storage_plans::obtain::{address_of, needs_of, push_place};
use storage_plans::places::{AreaPlace, area_place};
use storage_plans::plan::{NO_PAGES, answer_four, push_register, push_return};
use storage_plans::{PlanRecords, PlannedStorage, StoragePlan};
use storage_swap::Parts;
use subpool_storage::laws::cell_pools_are_named;
use vsm_model::{Cause, Get, Reply, Settings};

// The cell is handed out: the return code 0, its address in register 1 and in the one that is named.
fn push_handed_out(
    records: &mut PlanRecords,
    storage: &Parts,
    pool: CellId,
    cell: u32,
    register: Option<u8>,
)
    requires few { array_vec_len records.old ≤ 4 }
    requires stands { Stand storage.now }
    ensures { records.new.items ≡ records.old.items ++ cell_records (state_of storage.now) pool cell register }
{
    records.push(Record::Cell(CellRecord {
        pool,
        cell,
        free: false,
    }));
    let current = storage.tasks.current();
    push_return(records, storage, 0);
    push_register(records, current, 1, cell);
    if let Some(register) = register {
        push_register(records, current, register, cell);
    }
}

// The plan that hands out the first free cell.
fn plan_cell<'a>(
    storage: &Parts,
    pool: CellId,
    cell: u32,
    register: Option<u8>,
    room: &'a mut PlanRecords,
) -> StoragePlan<'a>
    requires { Stand storage.now }
    ensures emptied { result.emptied ≡ None }
    ensures records { result.records.now.items ≡ cell_records (state_of storage.now) pool cell register }
    ensures blanks { result.blanks ≡ 0 }
    ensures fresh { result.fresh ≡ run_of 0 0 }
    ensures reply { result.reply ≡ Cell cell }
{
    room.clear();
    push_handed_out(room, storage, pool, cell, register);
    StoragePlan {
        emptied: None,
        records: room,
        blanks: 0,
        fresh: NO_PAGES,
        reply: Reply::Cell(cell),
    }
}

// The elements that a further extent of this many cells takes: one for each cell, and two of its own.
fn extent_blanks(count: u32) -> u32
    requires { count ≤ 2 ^ 12 }
    ensures { result ≡ blanks_for count }
{
    count + 2
}

// The plan by which the cell pool gets a further extent at its place, whose first cell is handed out.
fn plan_further<'a>(
    storage: &Parts,
    pool: CellId,
    cells: CellSettings,
    place: AreaPlace,
    register: Option<u8>,
    room: &'a mut PlanRecords,
) -> StoragePlan<'a>
    requires stands { Stand storage.now }
    requires can { CanExtend cells place }
    ensures { IsFurther (state_of storage.now) pool cells place register result }
{
    let start = address_of(place);
    let count = extent_doublewords(cells.secondary, cells.size);
    room.clear();
    push_place(room, cells.subpool, place, count);
    room.push(Record::CellExtent(CellExtentRecord {
        pool,
        start,
        count: cells.secondary,
        present: true,
    }));
    push_handed_out(room, storage, pool, start, register);
    let (blanks, fresh) = needs_of(place, count);
    StoragePlan {
        emptied: None,
        records: room,
        blanks: blanks + extent_blanks(cells.secondary),
        fresh,
        reply: Reply::Cell(start),
    }
}

/// A plan for a cell of a cell pool (*Assembler Services Reference*, CPOOL GET): its first free one; or, if none is
/// free, the first one of a further extent of the secondary number of cells. Its address goes into register 1, and into
/// the one that is named; register 15 gets 0. A conditional form never gets a further extent: it sets register 15 to 4,
/// and nothing else. Only reads, and takes no memory. `names_full` says that the statement defines a name for which
/// there is no room. The plan's records are in `room`, in place of what that had.
///
/// The causes that refuse it, in order: `NoCellPool` if no cell pool of the name exists or the current task doesn't see
/// its subpool, `TooManyNames`, and `NoStorage` if a further extent has no place.
#[inline(never)]
pub fn plan_get<'a>(
    storage: &Parts,
    settings: Settings,
    name: &str,
    g: Get,
    names_full: bool,
    room: &'a mut PlanRecords,
) -> PlannedStorage<'a>
    requires sound { StandsSound settings storage.now }
    requires valid { settings_valid settings ≡ true }
    requires name { length name.now ≤ 63 }
    requires register { IfSome g.register (λ r. r < 16) }
    ensures { IsCellPlanned settings names_full (state_of storage.now) (get name.now g) result }
{
    handing_out_leads();
    extending_leads();
    cell_pools_stay_well_formed();
    cell_pools_are_named();
    let id = find_seen(storage, name)?;
    if names_full {
        return Err(Cause::TooManyNames);
    }
    let pools = storage.subpools.cell_pools(&storage.elements);
    if let Some(cell) = pools.first_free(&storage.elements, id) {
        return Ok(plan_cell(storage, id, cell, g.register, room));
    }
    if g.conditional {
        return Ok(answer_four(storage, room));
    }
    let cells = pools.settings(&storage.elements, id);
    let count = extent_doublewords(cells.secondary, cells.size);
    match area_place(storage, settings, cells.location, cells.subpool, count, 1) {
        Some(place) => Ok(plan_further(storage, id, cells, place, g.register, room)),
        None => Err(Cause::NoStorage),
    }
}
