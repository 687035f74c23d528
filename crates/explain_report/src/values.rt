//! The values that go out.
ghost use Rattle.std.specs.Prelude.{◌≡◌, ◌*◌};
ghost use Rattle.explain_report.specs.Values.{could_get, fragmented, moment_values, share_values, shown_address};
ghost use Rattle.explain_report.specs.Values.{taken_of};

use crate::pool_figures::used_of;
use crate::rows::Share;
use crate::times::Moment;
use vsm_model::geometry::PAGE_BYTES;

/// The address of what is longest, if there is one, and if it has at most eight hexadecimal digits.
pub(crate) fn shown_address(some: bool, address: u64) -> Option<u32>
    ensures { result ≡ shown_address some address }
{
    if some && address < 0x1_0000_0000 {
        Some(address as u32)
    } else {
        None
    }
}

/// What the free storage lacks to be one area, in hundredths.
pub(crate) fn fragmented(largest: u32, free: u32) -> u64
    ensures { result ≡ fragmented largest free }
{
    if free == 0 {
        return 0;
    }
    100u64.saturating_sub(100 * u64::from(largest) / u64::from(free))
}

/// The bytes of this many pages.
pub(crate) fn bytes_of(pages: u32) -> u64
    ensures { result ≡ 4096 * pages }
{
    u64::from(PAGE_BYTES) * u64::from(pages)
}

/// The most bytes that can be had at once, on a doubleword.
pub(crate) fn could_get(share: &Share) -> u64
    ensures { result ≡ could_get share.now }
{
    let fresh = bytes_of(share.unassigned);
    fresh.max(8 * u64::from(share.largest))
}

/// The bytes that are taken of a subpool on one side of the line.
pub(crate) fn taken_of(share: &Share) -> u64
    ensures { result ≡ taken_of share.now }
{
    bytes_of(share.pages).saturating_sub(8 * u64::from(share.free.total))
}

/// The pages of one side, the bytes that are taken and free in them, the free areas, the bytes of the largest, and the
/// most bytes that can be had at once.
pub(crate) fn share_values(share: &Share) -> [u64; 6]
    ensures { result ≡ share_values share.now }
{
    [
        u64::from(share.pages),
        taken_of(share),
        8 * u64::from(share.free.total),
        u64::from(share.free.count),
        8 * u64::from(share.largest),
        could_get(share),
    ]
}

/// The sums of the whole storage, in the order of their names.
pub(crate) fn moment_values(moment: &Moment) -> [u64; 15]
    ensures { result ≡ moment_values moment.now }
{
    let totals = &moment.totals;
    let low = &moment.unassigned.low;
    let high = &moment.unassigned.high;
    [
        u64::from(totals.low_pages),
        u64::from(low.total),
        u64::from(low.count),
        u64::from(low.longest),
        u64::from(totals.high_pages),
        u64::from(high.total),
        u64::from(high.count),
        u64::from(high.longest),
        totals.taken,
        totals.free,
        u64::from(moment.free.count),
        moment.pools.extents,
        moment.pools.bytes,
        used_of(&moment.pools),
        moment.pools.free,
    ]
}
