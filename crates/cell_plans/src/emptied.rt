//! Which pages an extent of a cell pool empties, once those before it are given back.
ghost use Rattle.std.specs.Prelude.{◌≡◌, ◌+◌, ◌/◌, ◌^◌, ◌<◌, ◌≤◌};
ghost use Rattle.vsm_model.specs.Regions.{pages_for};
ghost use Rattle.vsm_model.specs.Search.{all_pass};
ghost use Rattle.storage_changes.specs.StorageActions.{emptied_pages};
ghost use Rattle.storage_swap.specs.Storage.{state_of, Stand};
ghost use Rattle.cell_plans.specs.Areas.{first_areas};
ghost use Rattle.cell_plans.specs.Emptied.{freed, IsFreeUpTo};
ghost use Rattle.cell_plans.specs.Noted.{AreNoted};

use crate::areas::FirstExtents;
use run_set::Run;
use storage_swap::Parts;
use vsm_model::Subpool;
use vsm_model::geometry::PAGE_DOUBLEWORDS;

// The end of the free area of the subpool that has the doubleword, or the doubleword itself if it isn't free.
fn free_end(storage: &Parts, subpool: Subpool, doubleword: u32) -> u32
    requires { Stand storage.now }
    ensures { IsFreeUpTo ((state_of storage.now).subpools.free subpool) doubleword result }
{
    let queue = storage.subpools.free_areas(&storage.elements, subpool);
    queue.end_from(&storage.elements, doubleword)
}

// The end of free doublewords of the subpool, with the extents that were given back, that begin with this one; the
// doubleword itself if it isn't free.
fn end_of_free(storage: &Parts, subpool: Subpool, given: FirstExtents, doubleword: u32) -> u32
    requires stands { Stand storage.now }
    requires noted { AreNoted storage.now given }
    ensures { IsFreeUpTo ((freed (state_of storage.now).subpools subpool
        (first_areas (state_of storage.now) given)).free subpool) doubleword result }
{
    let end = given.areas.end_from(&storage.elements, doubleword);
    if doubleword < end {
        end
    } else {
        free_end(storage, subpool, doubleword)
    }
}

// Whether each doubleword of the area, if it has any, is free storage of the subpool, with the extents that were given
// back.
fn is_free(storage: &Parts, subpool: Subpool, given: FirstExtents, area: Run) -> bool
    requires stands { Stand storage.now }
    requires noted { AreNoted storage.now given }
    requires range { area.start + area.len ≤ 2 ^ 29 }
    ensures { result ≡ all_pass ((freed (state_of storage.now).subpools subpool
        (first_areas (state_of storage.now) given)).free subpool)
        area.start area.len }
{
    let past = area.start + area.len;
    let mut doubleword = area.start;
    while doubleword < past {
        let end = end_of_free(storage, subpool, given, doubleword);
        if end == doubleword {
            return false;
        }
        doubleword = end;
    }
    true
}

// The pages that an area in doublewords touches.
fn pages_of(area: Run) -> Run
    requires some { 0 < area.len }
    requires range { area.start + area.len ≤ 2 ^ 29 }
    ensures start { result.start ≡ area.start / 512 }
    ensures end { result.start + result.len ≡ pages_for (area.start + area.len) }
    ensures some { 0 < result.len }
{
    let start = area.start / PAGE_DOUBLEWORDS;
    let end = (area.start + area.len).div_ceil(PAGE_DOUBLEWORDS);
    Run {
        start,
        len: end - start,
    }
}

/// The pages that the area, in doublewords, empties when it's given back to the subpool, once these extents are. Only
/// reads.
pub(crate) fn emptied(storage: &Parts, subpool: Subpool, given: FirstExtents, area: Run) -> Run
    requires stands { Stand storage.now }
    requires noted { AreNoted storage.now given }
    requires some { 0 < area.len }
    requires range { area.start + area.len ≤ 2 ^ 29 }
    ensures value { result ≡ emptied_pages (freed (state_of storage.now).subpools subpool
        (first_areas (state_of storage.now) given)) subpool
        area.start area.len }
    ensures range { result.start + result.len ≤ 2 ^ 20 }
{
    let pages = pages_of(area);
    let start = PAGE_DOUBLEWORDS * pages.start;
    let front = Run {
        start,
        len: area.start - start,
    };
    let end = area.start + area.len;
    let back = Run {
        start: end,
        len: PAGE_DOUBLEWORDS * (pages.start + pages.len) - end,
    };
    let keeps_first = !is_free(storage, subpool, given, front);
    let keeps_last = !is_free(storage, subpool, given, back);
    let first = pages.start + u32::from(keeps_first);
    let past = pages.start + pages.len - u32::from(keeps_last);
    Run {
        start: first,
        len: past.saturating_sub(first),
    }
}
