//! Blocks of sixteen bytes, read with the bytes of a store over them.
ghost use Rattle.std.specs.Prelude.{◌≡◌, ℕ, ◌+◌, ◌-◌, ◌*◌, ◌/◌, ◌<◌, ◌^◌, length, slice_index_or, IsSome};
ghost use Rattle.storage_changes.specs.Meaning.{model_of};
ghost use Rattle.storage_changes.specs.Turned.{read};
ghost use Rattle.storage_changes.specs.StorageActions.{bytes_with};
ghost use Rattle.storage_swap.specs.Storage.{state_of, IsFrameless};
ghost use Rattle.storage_plans.specs.Reading.{put_at};

use crate::reading::load;
use storage_changes::BytesRecord;
use storage_swap::Parts;

/// The bytes of a block.
pub(crate) const BLOCK_BYTES: usize = 16;

// Puts the bytes from `address` on over these, which begin at `first`.
fn put_over(held: &mut [u8], first: usize, address: usize, bytes: &[u8])
    requires { first + length held.old < 2 ^ 64 }
    ensures length { length held.new ≡ length held.old }
    ensures bytes { (k : ℕ) → k < length held.old
        → slice_index_or held.new k 0 ≡ put_at held.old first address bytes.now k }
{
    for k in 0..held.len() {
        let at = first + k;
        if address <= at && at - address < bytes.len() {
            held[k] = bytes[at - address];
        }
    }
}

/// The record of a block, once the bytes from the address on are these: its other bytes are those of the storage. Each
/// address of the block has to lie in an assigned page.
pub(crate) fn block_with(storage: &Parts, block: u32, address: u32, bytes: &[u8]) -> BytesRecord
    requires frameless { IsFrameless storage.now }
    requires there { (a : ℕ) → a / 16 ≡ block → IsSome ((model_of (state_of storage.now)).bytes a) }
    ensures { result ≡ record {
      block = block;
      bytes = read (bytes_with (state_of storage.now).bytes address bytes.now) (16 * block) 16;
    } }
{
    storage.region.pages_in_range();
    let first = 16 * block;
    let mut held = [0; BLOCK_BYTES];
    load(storage, first, &mut held).unwrap();
    put_over(&mut held, first as usize, address as usize, bytes);
    BytesRecord { block, bytes: held }
}
