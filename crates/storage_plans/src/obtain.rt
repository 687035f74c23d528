//! Plans of STORAGE OBTAIN.
ghost use Rattle.std.specs.Prelude.{◌≡◌, ◌+◌, ◌*◌, ◌<◌, ◌≤◌, ◌^◌, [], ◌∷◌, ◌++◌, map, true, None, IfOk, IfSome};
ghost use Rattle.arrayvec.specs.ArrayVec.{array_vec_len};
ghost use Rattle.vsm_model.specs.declared.replies.Reply.TheVariants.{Obtained};
ghost use Rattle.vsm_model.specs.Regions.{pages_for, settings_valid};
ghost use Rattle.vsm_model.specs.Services.{obtain};
ghost use Rattle.storage_changes.specs.StorageActions.{obtain_record, own_records, register_record, run_of};
ghost use Rattle.storage_changes.specs.StorageActions.{take_fresh_records};
ghost use Rattle.storage_swap.specs.Storage.{state_of, Stand};
ghost use Rattle.storage_plans.specs.ObtainPlans.{granted_records, obtain_records, other_registers, place_address};
ghost use Rattle.storage_plans.specs.ObtainPlans.{place_blanks, place_pages, place_records};
ghost use Rattle.storage_plans.specs.Places.{StandsSound};
ghost use Rattle.storage_plans.specs.Plans.{IsPlanned};

use crate::areas::{FoundArea, find_area};
use crate::places::AreaPlace;
use crate::plan::{
    NO_PAGES, PlanRecords, PlannedStorage, StoragePlan, answer_cause, push_area, push_register,
    push_return,
};
use descriptor_queue::Page;
use run_set::Run;
use storage_changes::{
    AreaRecord, ExtentRecord, ObtainRecord, OwnRecord, PagesRecord, Record, RegisterRecord,
};
use storage_swap::Parts;
use vsm_model::geometry::{PAGE_BYTES, PAGE_DOUBLEWORDS};
use vsm_model::{Cause, Lengths, Obtain, Reply, Settings, Subpool};

/// One more record if the subpool is new: it's made.
pub fn push_own(records: &mut PlanRecords, subpool: Subpool, is_new: bool)
    requires { array_vec_len records.old < 8 }
    ensures records { records.new.items ≡ records.old.items ++ own_records subpool is_new }
    ensures few { array_vec_len records.new ≤ array_vec_len records.old + 1 }
{
    if is_new {
        records.push(Record::Own(OwnRecord {
            subpool,
            present: true,
        }));
    }
}

// The pages from this one on that an area of `count` doublewords takes.
fn pages_from(page: Page, count: u32) -> Run
    ensures { result ≡ run_of page (pages_for count) }
{
    Run {
        start: page,
        len: count.div_ceil(PAGE_DOUBLEWORDS),
    }
}

// Up to three more records: an area of `count` doublewords is taken from the first byte of unassigned pages on.
fn push_fresh(records: &mut PlanRecords, subpool: Subpool, page: Page, count: u32)
    requires few { array_vec_len records.old ≤ 5 }
    requires range { (page < 2 ^ 20) × (0 < count) × (count < 2 ^ 29) }
    ensures records { records.new.items ≡ records.old.items ++ take_fresh_records subpool page count }
    ensures few { array_vec_len records.new ≤ array_vec_len records.old + 3 }
{
    let run = pages_from(page, count);
    records.push(Record::Pages(PagesRecord {
        run,
        assigned: true,
    }));
    records.push(Record::Extent(ExtentRecord {
        subpool,
        run,
        present: true,
    }));
    let rest = Run {
        start: PAGE_DOUBLEWORDS * page + count,
        len: PAGE_DOUBLEWORDS * run.len - count,
    };
    push_area(records, subpool, rest, true);
}

/// Up to three more records: an area of `count` doublewords is taken at its place.
pub fn push_place(records: &mut PlanRecords, subpool: Subpool, place: AreaPlace, count: u32)
    requires few { array_vec_len records.old ≤ 5 }
    requires range { (place_address place < 2 ^ 32) × (0 < count) × (count < 2 ^ 29) }
    ensures records { records.new.items ≡ records.old.items ++ place_records subpool count place }
    ensures few { array_vec_len records.new ≤ array_vec_len records.old + 3 }
{
    match place {
        AreaPlace::Inside(doubleword) => {
            let area = Run {
                start: doubleword,
                len: count,
            };
            push_area(records, subpool, area, false);
        }
        AreaPlace::Fresh(page) => push_fresh(records, subpool, page, count),
    }
}

// One more record: an area of free storage is taken, and register 1 of the task gets its address.
fn push_obtain(records: &mut PlanRecords, subpool: Subpool, area: Run, task: u8)
    requires few { array_vec_len records.old < 8 }
    requires range { area.start < 2 ^ 29 }
    ensures records { records.new.items
        ≡ records.old.items ++ obtain_record task subpool area.start area.len (1, 8 * area.start) ∷ [] }
    ensures few { array_vec_len records.new ≤ array_vec_len records.old + 1 }
{
    records.push(Record::Obtain(ObtainRecord {
        area: AreaRecord {
            subpool,
            area,
            free: false,
        },
        register: RegisterRecord {
            task,
            register: 1,
            word: 8 * area.start,
        },
    }));
}

// Up to five more records: the area that was found is taken, register 15 gets the return code 0 if it has another word,
// and register 1 the address.
fn push_granted(records: &mut PlanRecords, storage: &Parts, found: FoundArea)
    requires few { array_vec_len records.old ≤ 1 }
    requires stands { Stand storage.now }
    requires words { (place_address found.place < 2 ^ 32) × (0 < found.count) × (found.count < 2 ^ 29) }
    ensures records { records.new.items
        ≡ records.old.items
        ++ granted_records (state_of storage.now) found.subpool found.count found.place [] }
    ensures few { array_vec_len records.new ≤ array_vec_len records.old + 5 }
{
    let current = storage.tasks.current();
    match found.place {
        AreaPlace::Inside(doubleword) => {
            let area = Run {
                start: doubleword,
                len: found.count,
            };
            push_return(records, storage, 0);
            push_obtain(records, found.subpool, area, current);
        }
        AreaPlace::Fresh(page) => {
            push_fresh(records, found.subpool, page, found.count);
            push_return(records, storage, 0);
            push_register(records, current, 1, PAGE_BYTES * page);
        }
    }
}

// Up to two more records: the length in register 0 if it was requested by bounds, and the address in the register that
// is named.
fn push_others(records: &mut PlanRecords, storage: &Parts, o: Obtain, address: u32, length: u32)
    requires few { array_vec_len records.old ≤ 6 }
    requires stands { Stand storage.now }
    ensures records { records.new.items
        ≡ records.old.items
        ++ map (register_record (state_of storage.now).tasks.current)
        (other_registers o.lengths o.register address length) }
{
    let current = storage.tasks.current();
    if let Lengths::Variable { .. } = o.lengths {
        push_register(records, current, 0, length);
    }
    if let Some(register) = o.register {
        push_register(records, current, register, address);
    }
}

/// The address of the first byte of a place.
pub fn address_of(place: AreaPlace) -> u32
    requires { place_address place < 2 ^ 32 }
    ensures { result ≡ place_address place }
{
    match place {
        AreaPlace::Inside(doubleword) => 8 * doubleword,
        AreaPlace::Fresh(page) => PAGE_BYTES * page,
    }
}

/// The blank elements needed to take an area of `count` doublewords at its place, and the pages of 4,096 bytes that
/// become assigned.
pub fn needs_of(place: AreaPlace, count: u32) -> (u32, Run)
    ensures blanks { result.0 ≡ place_blanks place }
    ensures fresh { result.1 ≡ place_pages count place }
{
    match place {
        AreaPlace::Inside(_) => (2, NO_PAGES),
        AreaPlace::Fresh(page) => (5, pages_from(page, count)),
    }
}

// The plan that takes the area that was found, with its address and its length in the registers.
fn plan_area<'a>(
    storage: &Parts,
    found: FoundArea,
    o: Obtain,
    room: &'a mut PlanRecords,
) -> StoragePlan<'a>
    requires stands { Stand storage.now }
    requires words { (place_address found.place < 2 ^ 32) × (0 < found.count) × (found.count < 2 ^ 29) }
    ensures emptied { result.emptied ≡ None }
    ensures records { result.records.now.items ≡ obtain_records (state_of storage.now) found o }
    ensures blanks { result.blanks ≡ place_blanks found.place }
    ensures fresh { result.fresh ≡ place_pages found.count found.place }
    ensures reply { result.reply ≡ Obtained (place_address found.place) (8 * found.count) }
{
    let address = address_of(found.place);
    let length = 8 * found.count;
    room.clear();
    push_own(room, found.subpool, found.is_new);
    push_granted(room, storage, found);
    push_others(room, storage, o, address, length);
    let (blanks, fresh) = needs_of(found.place, found.count);
    StoragePlan {
        emptied: None,
        records: room,
        blanks,
        fresh,
        reply: Reply::Obtained { address, length },
    }
}

/// A plan for an area (*Assembler Services Reference*, GETMAIN and STORAGE): as many doublewords as have a place, from
/// the rounded minimum to the rounded maximum, of which a fixed length is both. It is placed in the subpool that the
/// current task sees at the number, or in a new one of its own. Its address goes into register 1, and into the one that
/// is named; register 15 gets 0; and if bounds were given, register 0 gets the length in bytes. Only reads, and takes
/// no memory. `names_full` says that the statement defines a name for which there is no room. The plan's records are in
/// `room`, in place of what that had.
///
/// The causes that refuse it, in order: a number above 127 (`UnsupportedSubpool` for 131 and 132, otherwise
/// `SubpoolNotAllowed`), `BadLength` for a minimum of zero bytes or one above the maximum, `TooManyNames`, and
/// `NoStorage` if not even the minimum has a place. Instead of `NoStorage` a conditional form has a plan that sets
/// register 15 to 4, and nothing else.
#[inline(never)]
pub fn plan_obtain<'a>(
    storage: &Parts,
    settings: Settings,
    o: Obtain,
    names_full: bool,
    room: &'a mut PlanRecords,
) -> PlannedStorage<'a>
    requires sound { StandsSound settings storage.now }
    requires valid { settings_valid settings ≡ true }
    requires register { IfSome o.register (λ r. r < 16) }
    ensures planned { IsPlanned settings names_full (state_of storage.now) (obtain o) result }
    ensures emptied { IfOk result (λ plan. plan.emptied ≡ None) }
{
    match find_area(storage, settings, o, names_full) {
        Ok(found) => Ok(plan_area(storage, found, o, room)),
        Err(cause) => answer_cause(storage, cause, o.conditional, room),
    }
}
