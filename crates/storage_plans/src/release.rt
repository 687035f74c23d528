//! Plans of STORAGE RELEASE.
ghost use Rattle.std.specs.Prelude.{◌≡◌, ◌+◌, ◌-◌, ◌*◌, ◌/◌, ◌^◌, ◌<◌, ◌≤◌, ◌&&◌};
ghost use Rattle.std.specs.Prelude.{Bool, true, false, not, nat_le, nat_lt};
ghost use Rattle.std.specs.Prelude.{None, Some, IfNone, IfSome, IfOk, IfErr, OnOk, IsTrue, [], ◌++◌};
ghost use Rattle.arrayvec.specs.ArrayVec.{array_vec_len};
ghost use Rattle.run_set.specs.Runs.{inside};
ghost use Rattle.vsm_model.specs.Regions.{doublewords, in_a_region, pages_for, settings_valid};
ghost use Rattle.vsm_model.specs.declared.causes.Cause.TheVariants.{OverlapsCells};
ghost use Rattle.vsm_model.specs.Releasing.{overlaps_cells};
ghost use Rattle.vsm_model.specs.Search.{all_pass, some_pass, holds};
ghost use Rattle.vsm_model.specs.Services.{release};
ghost use Rattle.vsm_model.specs.Subpools.{same_subpool, seen_or_own};
ghost use Rattle.subpool_storage.specs.Subpools.{Subpools};
ghost use Rattle.storage_changes.specs.Meaning.{model_of};
ghost use Rattle.storage_changes.specs.StorageActions.{area_records, emptied_pages, give_back_records};
ghost use Rattle.storage_changes.specs.StorageActions.{returned_records};
ghost use Rattle.storage_changes.specs.StorageActions.{run_of};
ghost use Rattle.storage_swap.specs.Storage.{state_of, Stand, IsFrameless};
ghost use Rattle.storage_plans.specs.Places.{StandsAt, StandsSound};
ghost use Rattle.storage_plans.specs.Plans.{IsPlanned};
ghost use Rattle.storage_plans.specs.Releases.{AreSides, HasFree, IsGivenBack, area_cause, release_cause};

use crate::areas::check_number;
use crate::plan::{
    NO_PAGES, PlanRecords, PlannedStorage, StoragePlan, answer_cause, push_area, push_return,
};
use crate::searches::pages_on;
use cell_pool::laws::pools_are_one;
use descriptor_queue::Page;
use run_set::{Around, Gap, Run};
use storage_changes::tables::overlaps_are_met;
use storage_changes::{ExtentRecord, PagesRecord, Record};
use storage_swap::Parts;
use subpool_storage::laws::cell_pools_are_named;
use vsm_model::geometry::PAGE_DOUBLEWORDS;
use vsm_model::{Cause, Release, Reply, Residence, Settings, Subpool};

/// What a release gives back.
#[derive(Clone, Copy)]
pub(crate) struct GivenBack {
    pub(crate) subpool: Subpool,
    /// In doublewords, each of them taken storage of the subpool.
    pub(crate) area: Run,
    /// The subpool's free areas on both sides of it.
    pub(crate) sides: Gap,
}

/// The blank elements that a release needs at most, if no page leaves the subpool, and if one does.
const AREA_BLANKS: u32 = 2;

const PAGES_BLANKS: u32 = 5;

// The pages that an area in doublewords touches.
fn pages_of(area: Run) -> Run
    requires some { 0 < area.len }
    requires range { area.start + area.len ≤ 2 ^ 30 }
    ensures start { result.start ≡ area.start / 512 }
    ensures end { result.start + result.len ≡ pages_for (area.start + area.len) }
    ensures some { 0 < result.len }
{
    let start = area.start / PAGE_DOUBLEWORDS;
    let end = (area.start + area.len).div_ceil(PAGE_DOUBLEWORDS);
    Run {
        start,
        len: end - start,
    }
}

// Whether the run lies in the region.
fn lies_in(run: Run, region: Run) -> bool
    requires run { run.start + run.len < 2 ^ 32 }
    requires region { region.start + region.len < 2 ^ 32 }
    ensures { result ≡ (nat_le region.start run.start && nat_le (run.start + run.len) (region.start + region.len)) }
{
    region.start <= run.start && run.start + run.len <= region.start + region.len
}

// Whether each page of the run lies in a region. There are pages between the two regions, so the run then lies in one
// of them.
fn lies_in_a_region(settings: Settings, pages: Run) -> bool
    requires valid { settings_valid settings ≡ true }
    requires some { 0 < pages.len }
    requires range { pages.start + pages.len < 2 ^ 32 }
    ensures value { result ≡ all_pass (in_a_region settings) pages.start pages.len }
    ensures range { IsTrue result → pages.start + pages.len ≤ 2 ^ 20 }
{
    lies_in(pages, pages_on(settings, Residence::Above))
        || lies_in(pages, pages_on(settings, Residence::Below))
}

// Whether each page of the run is the subpool's.
fn has_pages(storage: &Parts, subpool: Subpool, pages: Run) -> bool
    requires stands { Stand storage.now }
    requires range { pages.start + pages.len < 2 ^ 32 }
    ensures { result ≡ all_pass ((state_of storage.now).subpools.pages subpool) pages.start pages.len }
{
    storage
        .subpools
        .has_pages(&storage.elements, subpool, pages)
}

// Whether the page is another subpool's. A page has a frame exactly if some subpool has the page.
fn is_others(storage: &Parts, settings: Settings, subpool: Subpool, page: Page) -> bool
    requires sound { StandsSound settings storage.now }
    requires frameless { IsFrameless storage.now }
    ensures { result ≡ holds (λ p. not (same_subpool subpool p)) ((model_of (state_of storage.now)).pages page) }
{
    storage.region.assigned(page) && !storage.subpools.has_page(&storage.elements, subpool, page)
}

// Whether a page of the run is another subpool's.
fn has_others(storage: &Parts, settings: Settings, subpool: Subpool, pages: Run) -> bool
    requires sound { StandsSound settings storage.now }
    requires frameless { IsFrameless storage.now }
    requires range { pages.start + pages.len < 2 ^ 32 }
    ensures { result ≡ some_pass
        (λ page. holds (λ p. not (same_subpool subpool p)) ((model_of (state_of storage.now)).pages page))
        pages.start pages.len }
{
    for k in 0..pages.len {
        if is_others(storage, settings, subpool, pages.start + k) {
            return true;
        }
    }
    false
}

// Whether a free area, if it exists, begins before a doubleword.
fn begins_before(free: Option<Run>, doubleword: u32) -> bool
    ensures { result ≡ holds (λ r. nat_lt r.start doubleword) free }
{
    match free {
        Some(run) => run.start < doubleword,
        None => false,
    }
}

// The subpool's free areas on both sides of the area; `None` if a doubleword of the area is free.
fn free_sides(storage: &Parts, subpool: Subpool, area: Run) -> Option<Gap>
    requires stands { Stand storage.now }
    requires some { 0 < area.len }
    requires range { area.start + area.len < 2 ^ 32 }
    ensures sides { IfSome result (λ sides. AreSides ((state_of storage.now).subpools.free subpool) area sides) }
    ensures free { IfNone result (HasFree ((state_of storage.now).subpools.free subpool) area) }
{
    let around = storage
        .subpools
        .around(&storage.elements, subpool, area.start);
    let Around::Out(sides) = around else {
        return None;
    };
    if begins_before(sides.after, area.start + area.len) {
        return None;
    }
    Some(sides)
}

// The subpool's free areas on both sides of the area, which is the subpool's and taken, or the first cause that refuses
// to give it back.
fn check_area(
    storage: &Parts,
    settings: Settings,
    subpool: Subpool,
    area: Run,
) -> Result<Gap, Cause>
    requires stands { StandsAt settings storage.now }
    requires frameless { IsFrameless storage.now }
    requires some { 0 < area.len }
    requires range { area.start + area.len ≤ 2 ^ 30 }
    ensures ok { OnOk result (area_cause settings (state_of storage.now) subpool area ≡ None) }
    ensures range { OnOk result (area.start + area.len ≤ 2 ^ 29) }
    ensures sides { IfOk result (λ sides. AreSides ((state_of storage.now).subpools.free subpool) area sides) }
    ensures err { IfErr result (λ cause. area_cause settings (state_of storage.now) subpool area ≡ Some cause) }
{
    let pages = pages_of(area);
    if !lies_in_a_region(settings, pages) {
        return Err(Cause::NotInSubpool);
    }
    if !has_pages(storage, subpool, pages) {
        if has_others(storage, settings, subpool, pages) {
            return Err(Cause::NotInSubpool);
        }
        return Err(Cause::OverlapsFree);
    }
    match free_sides(storage, subpool, area) {
        Some(sides) => {
            check_cells(storage, area)?;
            Ok(sides)
        }
        None => Err(Cause::OverlapsFree),
    }
}

// Whether no extent of a cell pool has a byte in common with the area.
fn check_cells(storage: &Parts, area: Run) -> Result<(), Cause>
    requires stands { Stand storage.now }
    requires some { 0 < area.len }
    requires range { area.start + area.len ≤ 2 ^ 29 }
    requires short { area.len < 2 ^ 29 }
    ensures ok { OnOk result (overlaps_cells (model_of (state_of storage.now)) (8 * area.start) (8 * area.len)
        ≡ false) }
    ensures err { IfErr result (λ cause. (cause ≡ OverlapsCells)
        × (overlaps_cells (model_of (state_of storage.now)) (8 * area.start) (8 * area.len) ≡ true)) }
{
    overlaps_are_met();
    pools_are_one();
    cell_pools_are_named();
    let pools = storage.subpools.cell_pools(&storage.elements);
    if pools.holds(&storage.elements, 8 * area.start, 8 * area.len) {
        return Err(Cause::OverlapsCells);
    }
    Ok(())
}

// What the release gives back, or the first cause that refuses it in any form.
fn find_given_back(storage: &Parts, settings: Settings, r: Release) -> Result<GivenBack, Cause>
    requires stands { StandsAt settings storage.now }
    requires frameless { IsFrameless storage.now }
    ensures none { IfOk result (λ found. release_cause settings (state_of storage.now) r ≡ None) }
    ensures subpool { IfOk result (λ found. found.subpool ≡ seen_or_own (model_of (state_of storage.now)) r.number) }
    ensures area { IfOk result (λ found. found.area ≡ run_of (r.address / 8) (doublewords r.length)) }
    ensures some { IfOk result (λ found. 0 < found.area.len) }
    ensures range { IfOk result (λ found. found.area.start + found.area.len ≤ 2 ^ 29) }
    ensures sides { IfOk result (λ found. AreSides ((state_of storage.now).subpools.free found.subpool) found.area
        found.sides) }
    ensures err { IfErr result (λ cause. release_cause settings (state_of storage.now) r ≡ Some cause) }
{
    let number = check_number(r.number)?;
    if r.length == 0 {
        return Err(Cause::BadLength);
    }
    if r.address % 8 != 0 {
        return Err(Cause::Misaligned);
    }
    let current = storage.tasks.current();
    let seen = storage
        .subpools
        .owner_seen(&storage.elements, current, number);
    let Some(owner) = seen else {
        return Err(Cause::NotInSubpool);
    };
    let subpool = Subpool { number, owner };
    let area = Run {
        start: r.address / 8,
        len: r.length.div_ceil(8),
    };
    let sides = check_area(storage, settings, subpool, area)?;
    Ok(GivenBack {
        subpool,
        area,
        sides,
    })
}

// Whether each doubleword of the run, if it has any, is in the free area.
fn is_part(run: Run, free: Option<Run>) -> bool
    requires range { run.start + run.len < 2 ^ 32 }
    ensures { result ≡ all_pass (λ d. holds (inside d) free) run.start run.len }
{
    run.len == 0
        || match free {
            Some(area) => area.start <= run.start && run.start + run.len - area.start <= area.len,
            None => false,
        }
}

// The pages that the area empties when it's given back, between these free areas of its subpool.
fn emptied(area: Run, sides: Gap) -> Run
    requires some { 0 < area.len }
    requires range { area.start + area.len ≤ 2 ^ 29 }
    ensures value { (m : Subpools) (p : Subpool) → AreSides (m.free p) area sides
        → result ≡ emptied_pages m p area.start area.len }
    ensures range { result.start + result.len ≤ 2 ^ 20 }
{
    let pages = pages_of(area);
    let start = PAGE_DOUBLEWORDS * pages.start;
    let front = Run {
        start,
        len: area.start - start,
    };
    let end = area.start + area.len;
    let back = Run {
        start: end,
        len: PAGE_DOUBLEWORDS * (pages.start + pages.len) - end,
    };
    let keeps_first = !is_part(front, sides.before);
    let keeps_last = !is_part(back, sides.after);
    let first = pages.start + u32::from(keeps_first);
    let past = pages.start + pages.len - u32::from(keeps_last);
    Run {
        start: first,
        len: past.saturating_sub(first),
    }
}

// The doublewords from one up to another, if there are any, become free storage of the subpool, or taken.
fn push_between(records: &mut PlanRecords, subpool: Subpool, from: u32, to: u32, free: bool)
    requires { array_vec_len records.old < 8 }
    ensures records { records.new.items ≡ records.old.items ++ area_records subpool from (to - from) free }
    ensures few { array_vec_len records.new ≤ array_vec_len records.old + 1 }
{
    let area = Run {
        start: from,
        len: to.saturating_sub(from),
    };
    push_area(records, subpool, area, free);
}

// The pages, which are the subpool's, leave it and become unassigned.
fn push_returned(records: &mut PlanRecords, subpool: Subpool, run: Run)
    requires few { array_vec_len records.old + 2 ≤ 8 }
    requires some { 0 < run.len }
    ensures records { records.new.items ≡ records.old.items ++ returned_records subpool run.start run.len }
    ensures few { array_vec_len records.new ≡ array_vec_len records.old + 2 }
{
    records.push(Record::Extent(ExtentRecord {
        subpool,
        run,
        present: false,
    }));
    records.push(Record::Pages(PagesRecord {
        run,
        assigned: false,
    }));
}

// The area is given back with the pages that it empties: what of either lies outside the other becomes free, or taken.
fn push_given_back(records: &mut PlanRecords, found: GivenBack, pages: Run)
    requires none { records.old.items ≡ [] }
    requires range { found.area.start + found.area.len ≤ 2 ^ 29 }
    requires high { pages.start + pages.len ≤ 2 ^ 20 }
    ensures records { records.new.items
        ≡ give_back_records found.subpool found.area.start found.area.len pages.start pages.len }
    ensures few { array_vec_len records.new ≤ 6 }
{
    let GivenBack { subpool, area, .. } = found;
    if pages.len == 0 {
        push_area(records, subpool, area, true);
        return;
    }
    let past = area.start + area.len;
    let begin = PAGE_DOUBLEWORDS * pages.start;
    let end = PAGE_DOUBLEWORDS * (pages.start + pages.len);
    push_between(records, subpool, area.start, begin, true);
    push_between(records, subpool, begin, area.start, false);
    push_between(records, subpool, end, past, true);
    push_between(records, subpool, past, end, false);
    push_returned(records, subpool, pages);
}

// The plan of a release that no cause refuses.
fn give_back<'a>(storage: &Parts, found: GivenBack, room: &'a mut PlanRecords) -> StoragePlan<'a>
    requires stands { Stand storage.now }
    requires some { 0 < found.area.len }
    requires range { found.area.start + found.area.len ≤ 2 ^ 29 }
    requires sides { AreSides ((state_of storage.now).subpools.free found.subpool) found.area found.sides }
    ensures { IsGivenBack (state_of storage.now) found result }
{
    let pages = emptied(found.area, found.sides);
    room.clear();
    push_given_back(room, found, pages);
    push_return(room, storage, 0);
    StoragePlan {
        emptied: None,
        records: room,
        blanks: if pages.len == 0 {
            AREA_BLANKS
        } else {
            PAGES_BLANKS
        },
        fresh: NO_PAGES,
        reply: Reply::Returned(0),
    }
}

/// A plan for the release of an area (*Assembler Services Reference*, STORAGE): its doublewords are free again, and the
/// pages that are left without a taken doubleword leave the subpool. Register 15 gets 0. Only reads, and takes no
/// memory. The plan's records are in `room`, in place of what that had.
///
/// The causes that refuse it, in order: a number above 127 (`UnsupportedSubpool` for 131 and 132, otherwise
/// `SubpoolNotAllowed`), `BadLength` for zero bytes, `Misaligned`, `NotInSubpool` if the task doesn't see the subpool
/// or a doubleword of the area lies outside both regions or in a page of another subpool, `OverlapsFree` if one is free
/// in the subpool or lies in a page that isn't assigned, and `OverlapsCells` if the area has a byte in common with an
/// extent of a cell pool. Instead of the last three a conditional form has a plan that sets register 15 to 4, and
/// nothing else.
#[inline(never)]
pub fn plan_release<'a>(
    storage: &Parts,
    settings: Settings,
    r: Release,
    room: &'a mut PlanRecords,
) -> PlannedStorage<'a>
    requires sound { StandsSound settings storage.now }
    requires frameless { IsFrameless storage.now }
    requires valid { settings_valid settings ≡ true }
    ensures planned { (names_full : Bool) → IsPlanned settings names_full (state_of storage.now) (release r) result }
    ensures emptied { IfOk result (λ plan. plan.emptied ≡ None) }
{
    match find_given_back(storage, settings, r) {
        Ok(found) => Ok(give_back(storage, found, room)),
        Err(cause) => answer_cause(storage, cause, r.conditional, room),
    }
}
