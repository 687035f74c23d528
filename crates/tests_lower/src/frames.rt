ghost use Rattle.std.specs.Prelude.{◌≡◌, ℕ, ◌+◌, ◌<◌, ◌≤◌, None, IsSome, IfOk, length};
ghost use Rattle.raw_region.specs.Pages.{bytes_at, Counts, HaveTables, IsFresh, SameAssigned, SameTables};

use crate::checks::{holds, same};
use raw_region::{Geometry, MAX_HIGH_PAGES, MAX_LOW_PAGES, Parked, Region, Unassigned};
use std::alloc::{AllocError, Global};
use std::process::Abort;
use std::test::Fail;

const SMALL: Geometry = Geometry {
    low_pages: 16,
    high_pages: 600,
};

const LARGEST: Geometry = Geometry {
    low_pages: MAX_LOW_PAGES,
    high_pages: MAX_HIGH_PAGES,
};

// X'08000000'
const FIRST_HIGH: u32 = 32_768;

const MANY: u32 = 300_000;

// Each byte of the page, all zeros before, becomes this one.
fn fill(rt: &impl Abort, region: &mut Region, page: u32, byte: u8)
    requires { page < 1048576 }
    ensures assigned { SameAssigned region.old region.new }
    ensures tables { SameTables region.old region.new }
    ensures counts { Counts region.new region.old.spare region.old.out region.old.made }
{
    let mut bytes = [byte; 4096];
    holds!(rt; region.swap_bytes(page * 4096, &mut bytes).is_ok());
    holds!(rt; bytes == [0u8; 4096]);
}

#[test]
fn a_parked_page_comes_back_over_its_next_bytes(rt: HostRuntime) -> Result<(), Fail> {
    let mut region = Region::new(rt.alloc(), SMALL)?;
    region.reserve_frames(2)?;
    region.assign(6);
    fill(&rt, &mut region, 6, 7);
    let first = region.park(6, 1);
    region.assign(6);
    fill(&rt, &mut region, 6, 9);
    region.pages_in_range();
    let second = region.park(6, 1);
    region.restore(first);
    let mut bytes = [0u8; 4096];
    holds!(rt; region.load(6 * 4096, &mut bytes).is_ok());
    holds!(rt; bytes == [7u8; 4096]);
    same!(rt; region.spare_frames(), 0);
    region.discard(second);
    same!(rt; region.spare_frames(), 1);
    same!(rt; region.release(), 2);
    Ok(())
}

#[test]
fn joined_frames_come_back_each_at_its_own_page(rt: HostRuntime) -> Result<(), Fail> {
    let mut region = Region::new(rt.alloc(), SMALL)?;
    region.reserve_segments(FIRST_HIGH + 255, 2)?;
    region.reserve_frames(3)?;
    region.assign(7);
    region.assign(FIRST_HIGH + 255);
    region.assign(FIRST_HIGH + 256);
    let mut low = [3u8; 1];
    holds!(rt; region.swap_bytes(7 * 4096, &mut low).is_ok());
    let mut high = [4u8, 5];
    holds!(rt;
        region
            .swap_bytes((FIRST_HIGH + 256) * 4096 - 1, &mut high)
            .is_ok()
    );
    region.pages_in_range();
    let above = region.park(FIRST_HIGH + 255, 2);
    let below = region.park(7, 1);
    region.restore(below.join(above));
    holds!(rt; region.load(7 * 4096, &mut low).is_ok());
    same!(rt; low, [3]);
    holds!(rt;
        region
            .load((FIRST_HIGH + 256) * 4096 - 1, &mut high)
            .is_ok()
    );
    same!(rt; high, [4, 5]);
    let parked = region.park(7, 1);
    same!(rt; parked.release(), 1);
    same!(rt; region.release(), 2);
    Ok(())
}

#[test]
fn a_refused_access_leaves_the_bytes(rt: HostRuntime) -> Result<(), Fail> {
    let mut region = Region::new(rt.alloc(), SMALL)?;
    region.reserve_frames(2)?;
    region.assign(6);
    region.assign(8);
    let mut bytes = [1u8; 4];
    same!(rt; region.load(7 * 4096 - 2, &mut bytes), Err(Unassigned(7)));
    same!(rt;
        region.swap_bytes(7 * 4096 - 2, &mut bytes),
        Err(Unassigned(7))
    );
    same!(rt;
        region.swap_bytes(u32::MAX, &mut bytes),
        Err(Unassigned(1_048_575))
    );
    same!(rt; bytes, [1; 4]);
    let mut two = [1u8; 2];
    holds!(rt; region.load(7 * 4096 - 2, &mut two).is_ok());
    same!(rt; two, [0; 2]);
    holds!(rt; region.load(u32::MAX, &mut []).is_ok());
    Ok(())
}

#[test]
fn the_last_byte_of_each_region_is_kept(rt: HostRuntime) -> Result<(), Fail> {
    let mut region = Region::new(rt.alloc(), LARGEST)?;
    let last_low = 5 + MAX_LOW_PAGES;
    let last_high = FIRST_HIGH - 1 + MAX_HIGH_PAGES;
    region.reserve_segments(last_low, 1)?;
    region.reserve_segments(last_high, 1)?;
    region.reserve_frames(2)?;
    region.assign(last_low);
    region.assign(last_high);
    for (page, byte) in [(last_low, 0xC1u8), (last_high, 0xC2)] {
        let mut last = [byte];
        holds!(rt; region.swap_bytes(page * 4096 + 4095, &mut last).is_ok());
        same!(rt; last, [0]);
    }
    let mut last = [0u8; 1];
    holds!(rt; region.load(0x00FF_FFFF, &mut last).is_ok());
    same!(rt; last, [0xC1]);
    holds!(rt; region.load(0x67FF_FFFF, &mut last).is_ok());
    same!(rt; last, [0xC2]);
    let mut two = [0u8; 2];
    same!(rt; region.load(0x00FF_FFFF, &mut two), Err(Unassigned(0x1000)));
    same!(rt;
        region.load(0x67FF_FFFF, &mut two),
        Err(Unassigned(0x68000))
    );
    Ok(())
}

// A region with this many pages assigned from X'08000000' on.
fn with_many_pages(alloc: Global, n: u32) -> Result<Region, AllocError>
    requires { n ≤ 300000 }
    ensures { IfOk result (λ r. (p : ℕ) → 32768 ≤ p → p < 32768 + n → IsSome (bytes_at r p)) }
{
    let mut region = Region::new(
        alloc,
        Geometry {
            low_pages: 1,
            high_pages: n,
        },
    )?;
    region.reserve_segments(FIRST_HIGH, n)?;
    region.reserve_frames(n)?;
    for k in 0..n {
        region.assign(FIRST_HIGH + k);
    }
    Ok(region)
}

#[test]
fn a_long_chain_is_released(rt: HostRuntime) -> Result<(), Fail> {
    let mut region = with_many_pages(rt.alloc(), MANY)?;
    let parked = region.park(FIRST_HIGH, MANY);
    same!(rt; parked.release(), MANY);
    same!(rt; region.release(), 0);
    Ok(())
}

#[test]
fn a_long_chain_is_dropped_with_its_region(rt: HostRuntime) -> Result<(), Fail> {
    let mut region = with_many_pages(rt.alloc(), MANY)?;
    let parked = region.park(FIRST_HIGH, MANY);
    same!(rt; region.spare_frames(), 0);
    drop(parked);
    drop(region);
    Ok(())
}

// A growth of each kind, up to the first that is refused.
fn grow(region: &mut Region) -> Result<(), AllocError>
    requires { IsFresh region.old 16 600 }
{
    region.reserve_frames(2)?;
    region.assign(6);
    region.reserve_segments(FIRST_HIGH, 600)?;
    region.assign(FIRST_HIGH + 599);
    region.reserve_frames(3)
}

fn park_one(region: &mut Region, page: u32) -> Parked
    requires { IsSome (bytes_at region.old page) }
    ensures { length result ≡ 1 }
{
    region.park(page, 1)
}

// tests/refused-reserves runs it with each growth refused in turn.
#[test]
fn what_grew_before_a_refusal_is_released(rt: HostRuntime) -> Result<(), Fail> {
    let Ok(mut region) = Region::new(rt.alloc(), SMALL) else {
        return Ok(());
    };
    let outcome = grow(&mut region);
    let last_used = region.assigned(FIRST_HIGH + 599);
    if region.assigned(6) {
        same!(rt; park_one(&mut region, 6).release(), 1);
    }
    let spare = region.spare_frames();
    holds!(rt; outcome.is_err() || last_used && spare == 3);
    let left = if last_used { 1u64 } else { 0 };
    same!(rt; region.release() as u64, left + spare as u64);
    Ok(())
}
