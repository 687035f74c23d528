//! How far the extents of a pool reach. The words of its row say it, so an area outside of that needs no look-up.

ghost use Rattle.std.specs.Prelude.{◌≡◌, ◌+◌, ◌*◌, ◌/◌, ◌%◌, ◌^◌, ◌<◌, ◌≤◌};
ghost use Rattle.cell_pool.specs.Reach.{Widens, may_meet, owned_by};

use crate::settings::Extent;

// Blocks of addresses: how many bytes each has, and the number of the last one.
const BLOCK: u32 = 256;

const LAST_BLOCK: u32 = 0x00ff_ffff;

// The word, with an upper part that says at least this block.
fn with_block(word: u32, block: u32) -> u32
    requires { block < 2 ^ 24 }
    ensures low { result % 256 ≡ word % 256 }
    ensures kept { word / 256 ≤ result / 256 }
    ensures block { block ≤ result / 256 }
{
    if block <= word / BLOCK {
        word
    } else {
        BLOCK * block + word % BLOCK
    }
}

/// A row's words once its pool has another extent, of cells of `size` bytes.
pub fn with_extent(words: [u32; 2], size: u32, extent: Extent) -> [u32; 2]
    requires { extent.start + extent.count * size ≤ 2 ^ 32 }
    ensures { Widens words result size extent }
{
    let first = extent.start / BLOCK;
    let end = u64::from(extent.start) + u64::from(extent.count) * u64::from(size);
    let last = (end.saturating_sub(1) / u64::from(BLOCK)) as u32;
    [
        with_block(words[0], LAST_BLOCK - first),
        with_block(words[1], last),
    ]
}

/// A row's words once its subpool has another owner.
pub fn with_owner(words: [u32; 2], owner: u8) -> [u32; 2]
    ensures { result ≡ owned_by owner words }
{
    [words[0], BLOCK * (words[1] / BLOCK) + u32::from(owner)]
}

/// Whether an area of `len` bytes may overlap an extent of the pool whose row has these words.
pub fn may_meet(words: [u32; 2], start: u32, len: u32) -> bool
    ensures { result ≡ may_meet words start len }
{
    let first = BLOCK * (LAST_BLOCK - words[0] / BLOCK);
    let past = u64::from(BLOCK * (words[1] / BLOCK)) + 256;
    u64::from(start) < past + 7 && u64::from(first) < u64::from(start) + u64::from(len)
}
