//! The subpool that a page belongs to.
ghost use Rattle.std.specs.Prelude.{◌≡◌, ◌/◌, is_some};
ghost use Rattle.storage_core.specs.Meaning.{state_of};

use storage_core::{Storage, Subpool};
use vsm_model::geometry::PAGE_BYTES;

/// Whether the page of an address is assigned: exactly then it has bytes, and a load looks into no subpool.
fn is_assigned(storage: &Storage, address: u32) -> bool
    ensures { result ≡ is_some ((state_of storage.now).pages (address / 4096)) }
{
    let mut byte = [0];
    match storage.load(address, &mut byte) {
        Ok(()) => true,
        Err(_) => false,
    }
}

/// The subpool that a page belongs to: the guessed one, if it has the page; else all are asked.
fn subpool_of(storage: &Storage, page: u32, guess: Option<Subpool>) -> Option<Subpool>
    ensures { result ≡ (state_of storage.now).pages page }
{
    match guess {
        Some(subpool) => {
            if storage.has_page(subpool, page) {
                return Some(subpool);
            }
        }
        None => (),
    }
    storage.subpool_of_page(page)
}

/// The subpool that the page of an address belongs to, first the guessed one is asked; `None` if it isn't assigned, and
/// then no subpool is asked.
pub fn subpool_at(storage: &Storage, address: u32, guess: Option<Subpool>) -> Option<Subpool>
    ensures { result ≡ (state_of storage.now).pages (address / 4096) }
{
    if is_assigned(storage, address) {
        subpool_of(storage, address / PAGE_BYTES, guess)
    } else {
        None
    }
}
