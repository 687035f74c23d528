//! Runs of pages of the default regions: pages X'6' to X'15' below the line, from X'8000' on above it.

ghost use Rattle.std.specs.Prelude.{◌≡◌, ◌+◌, ◌^◌, ◌<◌, ◌≤◌};
ghost use Rattle.descriptor_queue.specs.Extents.{IsExtents};
ghost use Rattle.descriptor_queue.specs.Pages.{IsPages};

use crate::checks::{holds, same, stocked};
use descriptor_queue::{Extents, Page, Pages, Run};
use run_set::RunSet;
use std::process::Abort;
use std::test::Fail;
use vsm_elements::Elements;

const LOW: Run = Run { start: 6, len: 16 };

const HIGH: Run = Run {
    start: 0x8000,
    len: 16,
};

fn run(start: u32, len: u32) -> Run
    ensures { result ≡ record { start = start; len = len } }
{
    Run { start, len }
}

// Page by page, so that the set joins the runs.
fn join(rt: &impl Abort, elements: &mut Elements, extents: &mut Extents, first: u32, last: u32)
    requires queue { IsExtents elements.old extents.old }
    requires range { last < 2 ^ 20 }
    ensures { IsExtents elements.new extents.new }
{
    for page in first..last {
        holds!(rt; elements.spare() > 0);
        holds!(rt; !extents.contains(elements, page));
        extents.insert_run(elements, run(page, 1));
    }
}

fn part(rt: &impl Abort, elements: &mut Elements, extents: &mut Extents, page: u32)
    requires queue { IsExtents elements.old extents.old }
    requires range { page < 2 ^ 20 }
    ensures { IsExtents elements.new extents.new }
{
    holds!(rt; elements.spare() > 0);
    holds!(rt; extents.contains(elements, page));
    extents.remove_run(elements, run(page, 1));
}

// The first three extents.
fn first_three(elements: &Elements, extents: &Extents) -> [Option<Run>; 3]
    requires { IsExtents elements.now extents.now }
{
    let mut runs = [None; 3];
    let mut place = RunSet::first_place();
    for i in 0..3 {
        if let Some((run, behind)) = extents.next_run(elements, place) {
            runs[i] = Some(run);
            place = behind;
        }
    }
    runs
}

// Pages of both regions are added, and are two extents.
fn join_two(rt: &impl Abort, elements: &mut Elements, extents: &mut Extents)
    requires { IsExtents elements.old extents.old }
    ensures { IsExtents elements.new extents.new }
{
    join(rt, elements, extents, 6, 11);
    join(rt, elements, extents, 0x8000, 0x8002);
    same!(rt;
        first_three(elements, extents),
        [Some(run(6, 5)), Some(run(0x8000, 2)), None]
    );
    same!(rt; extents.count(), 2);
}

// A page in the middle of an extent is removed, and one at an extent's end.
fn part_both(rt: &impl Abort, elements: &mut Elements, extents: &mut Extents)
    requires { IsExtents elements.old extents.old }
    ensures { IsExtents elements.new extents.new }
{
    part(rt, elements, extents, 8);
    part(rt, elements, extents, 0x8001);
    holds!(rt; !extents.contains(elements, 8));
    holds!(rt; extents.contains(elements, 9));
}

#[test]
fn extents_are_joined_and_split(rt: HostRuntime) -> Result<(), Fail> {
    let mut elements = stocked(rt.alloc(), 8)?;
    let mut extents = Extents::new();
    join_two(&rt, &mut elements, &mut extents);
    part_both(&rt, &mut elements, &mut extents);
    let extents = Extents::from_head(extents.head());
    same!(rt;
        first_three(&elements, &extents),
        [Some(run(6, 2)), Some(run(9, 2)), Some(run(0x8000, 1))]
    );
    same!(rt; extents.count(), 3);
    same!(rt; elements.spare(), 125);
    extents.discard(&mut elements);
    same!(rt; elements.spare(), 128);
    drop(elements);
    Ok(())
}

// The unassigned pages of one region.
fn unassigned(elements: &mut Elements, region: Run) -> Pages
    requires room { 0 < elements.old.spare }
    requires range { (0 < region.len) × (region.start + region.len ≤ 2 ^ 20) }
    ensures { IsPages elements.new result }
{
    let mut pages = Pages::new();
    pages.insert_run(elements, region);
    pages
}

// The least run of this many pages, which are then assigned.
fn assign(rt: &impl Abort, elements: &mut Elements, pages: &mut Pages, n: u32) -> Option<Page>
    requires queue { IsPages elements.old pages.old }
    requires asked { (0 < n) × (n < 2 ^ 16) }
    ensures { IsPages elements.new pages.new }
{
    let page = pages.least_run(elements, LOW, n)?;
    holds!(rt; elements.spare() > 0);
    holds!(rt; page < 0x10000);
    pages.remove_run(elements, run(page, n));
    Some(page)
}

#[test]
fn the_least_run_is_the_lowest(rt: HostRuntime) -> Result<(), Fail> {
    let mut elements = stocked(rt.alloc(), 8)?;
    let mut pages = unassigned(&mut elements, LOW);
    same!(rt; pages.longest_run(&elements, LOW), 16);
    same!(rt; pages.longest_run(&elements, HIGH), 0);
    same!(rt; pages.least_run(&elements, HIGH, 1), None);
    same!(rt; assign(&rt, &mut elements, &mut pages, 1), Some(6));
    same!(rt; assign(&rt, &mut elements, &mut pages, 4), Some(7));
    same!(rt; pages.longest_run(&elements, run(6, 10)), 5);
    same!(rt; assign(&rt, &mut elements, &mut pages, 12), None);
    same!(rt; assign(&rt, &mut elements, &mut pages, 11), Some(11));
    same!(rt; pages.longest_run(&elements, LOW), 0);
    same!(rt; elements.release(), 1);
    Ok(())
}
