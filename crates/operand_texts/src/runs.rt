//! Runs of bytes above one, found by 16 bytes at a time.

ghost use Rattle.std.specs.Prelude.{◌≡◌, ◌+◌, ◌<◌, ◌≤◌, length, slice_index};
ghost use Rattle.operand_texts.specs.Runs.{AreAbove, IsRun, lowest_or};

use std::simd::prelude::*;

const LANES: usize = 16;

/// The number of the lowest bit of a mask that is set, or this number if none is.
fn lowest_or(mask: u64, lanes: usize) -> usize
    ensures { result ≡ lowest_or mask lanes }
{
    if mask == 0 {
        lanes
    } else {
        mask.trailing_zeros() as usize
    }
}

/// How many of the 16 bytes from a place on are above this one, up to the first that isn't.
fn run_in_load(text: &[u8], at: usize, most: u8) -> usize
    requires { at + LANES ≤ length text.now }
    ensures few { result ≤ LANES }
    ensures above { AreAbove most text.now at (at + result) }
    ensures ends { result < LANES → slice_index text.now (at + result) ≤ most }
{
    let bytes = u8x16::from_slice(&text[at..]);
    let stops = bytes.simd_le(u8x16::splat(most));
    lowest_or(stops.to_bitmask(), LANES)
}

/// The same as `end_of_run`, byte by byte.
fn end_by_bytes(text: &[u8], from: usize, most: u8) -> usize
    requires { from ≤ length text.now }
    ensures { IsRun most text.now from result }
{
    let mut end = from;
    while end < text.len() && text[end] > most {
        end += 1;
    }
    end
}

/// Up to which place the bytes from a place on are above this one: that of the first that isn't, or the text's end.
pub fn end_of_run(text: &[u8], from: usize, most: u8) -> usize
    requires { from ≤ length text.now }
    ensures { IsRun most text.now from result }
{
    let mut end = from;
    'loads: while text.len() - end >= LANES {
        let run = run_in_load(text, end, most);
        if run < LANES {
            return end + run;
        }
        end += LANES;
    }
    end_by_bytes(text, end, most)
}
