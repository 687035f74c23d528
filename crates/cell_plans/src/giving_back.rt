//! The records by which the extents of a cell pool are given back.
ghost use Rattle.std.specs.Prelude.{◌≡◌, ℕ, false, ◌+◌, ◌-◌, ◌*◌, ◌^◌, ◌<◌, ◌≤◌, ◌++◌, [], length};
ghost use Rattle.std.specs.Prelude.{IsOk, IfOk, OnOk, OnErr};
ghost use Rattle.arrayvec.specs.ArrayVec.{array_vec_len};
ghost use Rattle.storage_changes.specs.StorageActions.{area_records, give_back_records, returned_records};
ghost use Rattle.free_queue.specs.FreeQueue.{is_free, owned, IsFreeQueue};
ghost use Rattle.storage_swap.specs.Storage.{state_of};
ghost use Rattle.storage_swap.specs.Builder.{IsBuilding, Builds, Pushes};
ghost use Rattle.storage_swap.specs.Growth.{MakesElements};
ghost use Rattle.cell_plans.specs.Areas.{first_areas};
ghost use Rattle.cell_plans.specs.CellPlans.{pool_given_back, extents_need, extents_of_pool, CanBeDeleted};
ghost use Rattle.cell_plans.specs.Emptied.{area_given_back, freed};
ghost use Rattle.cell_plans.specs.Noted.{noted_count, AreNoted, BuildsBeside, PushesBeside};

use crate::areas::{FirstExtents, area_at};
use crate::emptied::emptied;
use crate::noting::note;
use arrayvec::ArrayVec;
use cell_pool::CellId;
use free_queue::FreeQueue;
use run_set::Run;
use std::alloc::AllocError;
use storage_changes::{AreaRecord, ExtentRecord, PagesRecord, Record};
use storage_plans::PlanRecords;
use storage_swap::{ChangeBuilder, Parts};
use vsm_model::Subpool;
use vsm_model::geometry::PAGE_DOUBLEWORDS;

/// The most extents of a cell pool that can be deleted: with more, its blank elements would be more than there are ids
/// of 32 bits.
const EXTENTS_MOST: u32 = (1 << 30) - 1;

/// How many there are; or memory was refused.
pub(crate) type Count = Result<u32, AllocError>;

// One more record: the doublewords from one up to another, if there are any, become free storage of the subpool, or
// taken.
fn push_between(records: &mut PlanRecords, subpool: Subpool, from: u32, to: u32, free: bool)
    requires { array_vec_len records.old < 8 }
    ensures records { records.new.items ≡ records.old.items ++ area_records subpool from (to - from) free }
    ensures few { array_vec_len records.new ≤ array_vec_len records.old + 1 }
{
    if from < to {
        records.push(Record::Area(AreaRecord {
            subpool,
            area: Run {
                start: from,
                len: to - from,
            },
            free,
        }));
    }
}

// The pages, which are the subpool's, leave it and become unassigned.
fn push_returned(records: &mut PlanRecords, subpool: Subpool, run: Run)
    requires few { array_vec_len records.old + 2 ≤ 8 }
    requires some { 0 < run.len }
    ensures records { records.new.items ≡ records.old.items ++ returned_records subpool run.start run.len }
{
    records.push(Record::Extent(ExtentRecord {
        subpool,
        run,
        present: false,
    }));
    records.push(Record::Pages(PagesRecord {
        run,
        assigned: false,
    }));
}

// The area, in doublewords, is given back with the pages that it empties: what of either lies outside the other becomes
// free, or taken.
fn push_given_back(records: &mut PlanRecords, subpool: Subpool, area: Run, pages: Run)
    requires none { records.old.items ≡ [] }
    requires range { area.start + area.len ≤ 2 ^ 29 }
    requires high { pages.start + pages.len ≤ 2 ^ 20 }
    ensures { records.new.items ≡ give_back_records subpool area.start area.len pages.start pages.len }
{
    let past = area.start + area.len;
    if pages.len == 0 {
        push_between(records, subpool, area.start, past, true);
        return;
    }
    let begin = PAGE_DOUBLEWORDS * pages.start;
    let end = PAGE_DOUBLEWORDS * (pages.start + pages.len);
    push_between(records, subpool, area.start, begin, true);
    push_between(records, subpool, begin, area.start, false);
    push_between(records, subpool, end, past, true);
    push_between(records, subpool, past, end, false);
    push_returned(records, subpool, pages);
}

// One more record of the change for each of these, in their order.
fn push_all(
    storage: &mut Parts,
    builder: &mut ChangeBuilder,
    records: &[Record],
) -> Result<(), AllocError>
    requires { IsBuilding storage.old builder.old }
    ensures builds { Builds storage.old builder.old storage.new builder.new }
    ensures ok { OnOk result (Pushes storage.old builder.old records.now storage.new builder.new) }
    ensures made { OnErr result (MakesElements storage.old.elements storage.new.elements (length records.now)) }
    ensures needless { length records.now ≤ storage.old.elements.spare → IsOk result }
{
    for k in 0..records.len() {
        builder.push(storage, records[k])?;
    }
    Ok(())
}

// The area is given back with the pages that it empties, once these extents are given back.
fn push_area(
    storage: &mut Parts,
    builder: &mut ChangeBuilder,
    subpool: Subpool,
    given: FirstExtents,
    area: Run,
) -> Result<(), AllocError>
    requires building { IsBuilding storage.old builder.old }
    requires noted { AreNoted storage.old given }
    requires some { 0 < area.len }
    requires range { area.start + area.len ≤ 2 ^ 29 }
    ensures builds { Builds storage.old builder.old storage.new builder.new }
    ensures ok { let m = state_of storage.old in OnOk result (Pushes storage.old builder.old
        (area_given_back (freed m.subpools subpool (first_areas m given)) subpool area) storage.new builder.new) }
    ensures made { let m = state_of storage.old in
        OnErr result (MakesElements storage.old.elements storage.new.elements
        (length (area_given_back (freed m.subpools subpool (first_areas m given)) subpool area))) }
    ensures needless { let m = state_of storage.old in
        length (area_given_back (freed m.subpools subpool (first_areas m given)) subpool area)
        ≤ storage.old.elements.spare → IsOk result }
{
    let pages = emptied(storage, subpool, given, area);
    let mut records = ArrayVec::new();
    push_given_back(&mut records, subpool, area, pages);
    push_all(storage, builder, records.as_slice())
}

// At most as many elements are spare as a word can count.
fn spares_are_few(storage: &Parts)
    ensures { storage.now.elements.spare < 2 ^ 32 }
{
    let _spare = storage.elements.spare();
}

// The records by which each extent of the cell pool is given back, the first one first, while their areas are noted.
// Returns how many extents it has.
fn push_each(
    storage: &mut Parts,
    builder: &mut ChangeBuilder,
    pool: CellId,
    areas: &mut FreeQueue,
) -> Count
    requires building { IsBuilding storage.old builder.old }
    requires can { CanBeDeleted (state_of storage.old) (record { pool = pool }) }
    requires queue { IsFreeQueue storage.old.elements areas.old }
    requires none { (d : ℕ) → is_free storage.old.elements areas.old d ≡ false }
    requires owned { owned storage.old.elements areas.old ≡ [] }
    ensures builds { BuildsBeside storage.old builder.old storage.new builder.new areas.new }
    ensures ok { let m = (state_of storage.old).subpools in OnOk result (PushesBeside storage.old builder.old
        (pool_given_back m (m.cells pool)) (noted_count storage.new areas.new) (4 * extents_of_pool (m.cells pool) + 1)
        storage.new builder.new) }
    ensures count { IfOk result (λ n. n ≡ extents_of_pool ((state_of storage.old).subpools.cells pool)) }
    ensures few { IfOk result (λ n. n < 2 ^ 30) }
    ensures made { OnErr result (MakesElements storage.old.elements storage.new.elements
        (extents_need (state_of storage.old) pool)) }
    ensures needless { extents_need (state_of storage.old) pool ≤ storage.old.elements.spare → IsOk result }
{
    spares_are_few(storage);
    let pools = storage.subpools.cell_pools(&storage.elements);
    let subpool = pools.settings(&storage.elements, pool).subpool;
    let mut count = 0;
    while let Some(area) = area_at(storage, pool, count) {
        if count == EXTENTS_MOST {
            return Err(AllocError);
        }
        let given = FirstExtents {
            pool,
            count,
            areas: *areas,
        };
        push_area(storage, builder, subpool, given, area)?;
        note(storage, areas, area)?;
        count += 1;
    }
    Ok(count)
}

/// The records by which each extent of the cell pool is given back, the first one first. Returns how many extents it
/// has.
///
/// Meanwhile the extents' areas are in a queue, at most one element each: it's gone at the end.
///
/// `AllocError` if memory is refused, or the cell pool has more than 2^30 - 1 extents.
pub(crate) fn push_extents(storage: &mut Parts, builder: &mut ChangeBuilder, pool: CellId) -> Count
    requires building { IsBuilding storage.old builder.old }
    requires can { CanBeDeleted (state_of storage.old) (record { pool = pool }) }
    ensures builds { Builds storage.old builder.old storage.new builder.new }
    ensures ok { let m = (state_of storage.old).subpools in OnOk result (PushesBeside storage.old builder.old
        (pool_given_back m (m.cells pool)) 0 (4 * extents_of_pool (m.cells pool) + 1) storage.new builder.new) }
    ensures count { IfOk result (λ n. n ≡ extents_of_pool ((state_of storage.old).subpools.cells pool)) }
    ensures few { IfOk result (λ n. n < 2 ^ 30) }
    ensures made { OnErr result (MakesElements storage.old.elements storage.new.elements
        (extents_need (state_of storage.old) pool)) }
    ensures needless { extents_need (state_of storage.old) pool ≤ storage.old.elements.spare → IsOk result }
{
    let mut areas = FreeQueue::new();
    let count = push_each(storage, builder, pool, &mut areas);
    // No fewer elements are live than the queue has.
    storage.elements.live_are_counted();
    areas.discard(&mut storage.elements);
    count
}
