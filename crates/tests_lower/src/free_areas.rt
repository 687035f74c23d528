//! The queue compared with the plain slow program: one mark for each doubleword.

ghost use Rattle.std.specs.Prelude.{◌+◌, ◌^◌, ◌<◌, ◌≤◌};
ghost use Rattle.free_queue.specs.FreeQueue.{IsFreeQueue};

use crate::checks::{holds, same, stocked};
use free_queue::{Area, Cover, FreeQueue};
use run_set::RunSet;
use std::process::Abort;
use std::test::Fail;
use vsm_elements::Elements;

// How many doublewords the plain program looks at: six pages.
const SIZE: u32 = 3072;

// Each area is freed if none of it is free, and carved if all of it is. Pages 1 to 3 are the first region, pages 4 and
// 5 the second.
const AREAS: [(u32, u32); 24] = [
    (512, 1536),
    (2047, 1),
    (512, 1),
    (800, 8),
    (700, 100),
    (800, 8),
    (700, 100),
    (2047, 1),
    (2048, 512),
    (2047, 1),
    (1024, 512),
    (1030, 3),
    (1024, 6),
    (1033, 503),
    (0, 3072),
    (3071, 1),
    (2560, 511),
    (3071, 1),
    (3070, 2),
    (1536, 1024),
    (1536, 1024),
    (600, 24),
    (513, 87),
    (590, 20),
];

fn is_free(free: &[bool], d: u32) -> bool {
    free.get(d as usize).copied().unwrap_or(false)
}

fn fits(free: &[bool], region: Area, a: u32, len: u32) -> bool {
    let end = region.start.saturating_add(region.len);
    for d in a..a.saturating_add(len) {
        if d < region.start || d >= end || !is_free(free, d) {
            return false;
        }
    }
    true
}

fn least_fit(free: &[bool], len: u32, boundary: u32, region: Area) -> Option<u32> {
    for a in 0..SIZE {
        if a.checked_rem(boundary) == Some(0) && fits(free, region, a, len) {
            return Some(a);
        }
    }
    None
}

fn longest(free: &[bool], boundary: u32, region: Area) -> u32 {
    let mut most = 0u32;
    for a in 0..SIZE {
        for _ in 0..SIZE {
            let more = most.saturating_add(1);
            if a.checked_rem(boundary) != Some(0) || !fits(free, region, a, more) {
                break;
            }
            most = more;
        }
    }
    most
}

// The first area from a doubleword on.
fn area_from(free: &[bool], from: u32) -> Option<Area> {
    let mut start = None;
    for d in from..SIZE + 1 {
        match (is_free(free, d), start) {
            (true, None) => start = Some(d),
            (false, Some(first)) => {
                let len = d.saturating_sub(first);
                return Some(Area { start: first, len });
            }
            _ => {}
        }
    }
    None
}

fn covers(free: &[bool], area: Area) -> Cover {
    let mut some = false;
    let mut missed = false;
    for d in area.start..area.start.saturating_add(area.len) {
        if is_free(free, d) {
            some = true;
        } else {
            missed = true;
        }
    }
    match (some, missed) {
        (true, true) => Cover::Part,
        (true, false) => Cover::All,
        _ => Cover::None,
    }
}

fn mark(free: &mut Vec<bool>, area: Area, to: bool) {
    for d in area.start..area.start.saturating_add(area.len) {
        if let Some(mark) = free.get_mut(d as usize) {
            *mark = to;
        }
    }
}

// The longest area of a region on this boundary.
fn compare_longest(
    rt: &impl Abort,
    elements: &Elements,
    queue: &FreeQueue,
    free: &[bool],
    region: Area,
    boundary: u32,
)
    requires { IsFreeQueue elements.now queue.now }
{
    holds!(rt; region.start <= SIZE);
    holds!(rt; region.len <= SIZE);
    holds!(rt; boundary > 0);
    holds!(rt; boundary <= 512);
    let most = queue.longest(elements, boundary, region);
    same!(rt; most, longest(free, boundary, region));
}

// The lowest place in a region on this boundary for an area of this length.
fn compare_least(
    rt: &impl Abort,
    elements: &Elements,
    queue: &FreeQueue,
    free: &[bool],
    region: Area,
    boundary: u32,
    len: u32,
)
    requires { IsFreeQueue elements.now queue.now }
{
    holds!(rt; region.start <= SIZE);
    holds!(rt; region.len <= SIZE);
    holds!(rt; boundary > 0);
    holds!(rt; boundary <= 512);
    holds!(rt; len > 0);
    holds!(rt; len <= SIZE);
    let least = queue.least_fit(elements, len, boundary, region);
    same!(rt; least, least_fit(free, len, boundary, region));
}

fn compare_in(rt: &impl Abort, elements: &Elements, queue: &FreeQueue, free: &[bool], region: Area)
    requires { IsFreeQueue elements.now queue.now }
{
    for boundary in [1, 8, 512] {
        compare_longest(rt, elements, queue, free, region, boundary);
        for len in [1, 2, 9, 100, 511, 512, 513, 1024] {
            compare_least(rt, elements, queue, free, region, boundary, len);
        }
    }
}

fn compare_areas(rt: &impl Abort, elements: &Elements, queue: &FreeQueue, free: &[bool])
    requires { IsFreeQueue elements.now queue.now }
{
    let mut place = RunSet::first_place();
    let mut from = 0;
    for _ in 0..=SIZE {
        let Some((area, behind)) = queue.next_area(elements, place) else {
            same!(rt; area_from(free, from), None);
            return;
        };
        same!(rt; Some(area), area_from(free, from));
        from = area.start.saturating_add(area.len);
        place = behind;
    }
    assert!(rt; false);
}

fn compare(rt: &impl Abort, elements: &Elements, queue: &FreeQueue, free: &[bool])
    requires { IsFreeQueue elements.now queue.now }
{
    compare_areas(rt, elements, queue, free);
    for (start, len) in [(0, SIZE), (512, 1536), (2048, 1024), (700, 105)] {
        compare_in(rt, elements, queue, free, Area { start, len });
    }
}

fn turn(
    rt: &impl Abort,
    elements: &mut Elements,
    queue: &mut FreeQueue,
    free: &mut Vec<bool>,
    area: Area,
)
    requires { IsFreeQueue elements.old queue.old }
    ensures { IsFreeQueue elements.new queue.new }
{
    holds!(rt; area.len > 0);
    holds!(rt; area.len <= SIZE);
    holds!(rt; area.start <= SIZE);
    holds!(rt; elements.spare() > 0);
    let cover = queue.covers(elements, area);
    holds!(rt; cover == covers(free.as_slice(), area));
    match cover {
        Cover::None => {
            queue.free(elements, area);
            mark(free, area, true);
        }
        Cover::All => {
            queue.carve(elements, area);
            mark(free, area, false);
        }
        Cover::Part => {}
    }
    compare(rt, elements, queue, free.as_slice());
}

// Each area is freed or carved, one after the other.
fn turn_all(rt: &impl Abort, elements: &mut Elements, queue: &mut FreeQueue, free: &mut Vec<bool>)
    requires { IsFreeQueue elements.old queue.old }
    ensures { IsFreeQueue elements.new queue.new }
{
    for (start, len) in AREAS {
        turn(rt, elements, queue, free, Area { start, len });
    }
}

#[test]
fn the_queue_is_the_plain_one(rt: HostRuntime) -> Result<(), Fail> {
    let mut free = vec![in rt.alloc(); false; SIZE as usize]?;
    let mut elements = stocked(rt.alloc(), 64)?;
    let mut queue = FreeQueue::new();
    turn_all(&rt, &mut elements, &mut queue, &mut free);
    drop(free);
    let kept = FreeQueue::from_head(queue.head());
    same!(rt; kept, queue);
    queue.discard(&mut elements);
    same!(rt; elements.spare(), 128);
    same!(rt; elements.release(), 1);
    Ok(())
}
