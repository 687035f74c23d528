//! How the storage at an address is taken.
ghost use Rattle.std.specs.Prelude.{◌≡◌};
ghost use Rattle.storage_core.specs.Meaning.{state_of};
ghost use Rattle.vsm_model.specs.Areas.{is_free};
ghost use Rattle.explain_who.specs.Taken.{taken_on};

use crate::cells::taken_by;
use crate::takers::Taken;
use storage_core::{Storage, Subpool};

/// Whether a doubleword is free in a subpool.
fn is_free(storage: &Storage, subpool: Subpool, doubleword: u32) -> bool
    ensures { result ≡ is_free (state_of storage.now) subpool doubleword }
{
    storage.is_free(subpool, doubleword)
}

/// How the storage at an address is taken, whose page belongs to this subpool. Its cost grows with the cell pools, and
/// with their extents if a cell pool has the address.
pub fn taken_on(storage: &Storage, subpool: Option<Subpool>, address: u32) -> Taken
    ensures { result ≡ taken_on (state_of storage.now) address subpool }
{
    match subpool {
        None => Taken::Unassigned,
        Some(subpool) => {
            if is_free(storage, subpool, address / 8) {
                Taken::Free
            } else {
                taken_by(storage, subpool, address)
            }
        }
    }
}
