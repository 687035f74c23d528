//! Plans of stores.
ghost use Rattle.std.specs.Prelude.{◌≡◌, ◌<◌, ◌≤◌, true, Bool, length};
ghost use Rattle.vsm_model.specs.declared.limits.Settings.{Settings};
ghost use Rattle.vsm_model.specs.Bytes.{are_there};
ghost use Rattle.vsm_model.specs.Services.{store};
ghost use Rattle.storage_changes.specs.Meaning.{model_of};
ghost use Rattle.storage_changes.specs.StorageActions.{blocks_for, write_records};
ghost use Rattle.storage_swap.specs.Storage.{state_of, IsFrameless};
ghost use Rattle.storage_plans.specs.Places.{StandsSound};
ghost use Rattle.storage_plans.specs.StorePlans.{IsStorePlanned};

use crate::blocks::{BLOCK_BYTES, block_with};
use arrayvec::ArrayVec;
use storage_changes::Record;
use storage_swap::Parts;
use vsm_model::Cause;
use vsm_model::geometry::PAGE_BYTES;

/// The most blocks of sixteen bytes that a store touches.
pub const STORE_BLOCKS: usize = 17;

/// Bytes that are stored, which stay where they were read. Nothing is changed yet.
#[derive(Clone, Copy)]
pub struct StorePlan<'a> {
    /// The address of the first one.
    pub address: u32,
    pub bytes: &'a [u8],
}

// Whether each of this many bytes from the address on lies in an assigned page. They lie in two pages at most: that of
// the first and that of the last one.
fn are_assigned(storage: &Parts, address: u32, count: usize) -> bool
    requires frameless { IsFrameless storage.now }
    requires room { count ≤ 256 }
    ensures { result ≡ are_there (model_of (state_of storage.now)) address count }
{
    if count == 0 {
        return true;
    }
    let address = address as usize;
    let page_bytes = PAGE_BYTES as usize;
    let first = address / page_bytes;
    let last = (address + count - 1) / page_bytes;
    storage.region.assigned(first as u32) && storage.region.assigned(last as u32)
}

// How many blocks this many bytes from the address on touch.
fn blocks_touched(address: u32, count: usize) -> u32
    requires { count ≤ 256 }
    ensures value { result ≡ blocks_for address count }
    ensures few { result ≤ 17 }
{
    if count == 0 {
        return 0;
    }
    let address = address as usize;
    let first = address / BLOCK_BYTES;
    let last = (address + count - 1) / BLOCK_BYTES;
    (last + 1 - first) as u32
}

/// The records of a store: one for each block that the bytes from the address on touch. Each of the bytes has to lie in
/// an assigned page.
pub fn block_records(storage: &Parts, address: u32, bytes: &[u8]) -> ArrayVec<Record, STORE_BLOCKS>
    requires frameless { IsFrameless storage.now }
    requires room { length bytes.now ≤ 256 }
    requires there { are_there (model_of (state_of storage.now)) address (length bytes.now) ≡ true }
    ensures { result.items ≡ write_records (state_of storage.now) address bytes.now }
{
    let first = address / BLOCK_BYTES as u32;
    let count = blocks_touched(address, bytes.len());
    let mut records = ArrayVec::new();
    for k in 0..count {
        let block = block_with(storage, first + k, address, bytes);
        records.push(Record::Bytes(block));
    }
    records
}

/// A plan for a store of at most 256 bytes at the address, in any subpool. It sets no register. Only reads, and takes
/// no memory. The records of its change are made where memory is taken (`block_records`), so that a plan has no room
/// for them.
///
/// Refused with `NotAssigned` if one of the bytes doesn't lie in an assigned page.
#[inline(never)]
pub fn plan_store<'a>(
    storage: &Parts,
    address: u32,
    bytes: &'a [u8],
) -> Result<StorePlan<'a>, Cause>
    requires frameless { IsFrameless storage.now }
    requires room { length bytes.now ≤ 256 }
    ensures { (settings : Settings) (names_full : Bool) → StandsSound settings storage.now
        → IsStorePlanned settings names_full (state_of storage.now) (store address bytes.now) result }
{
    if !are_assigned(storage, address, bytes.len()) {
        return Err(Cause::NotAssigned);
    }
    Ok(StorePlan { address, bytes })
}
