//! The subpool numbers that an operand of ATTACH names.
ghost use Rattle.std.specs.Prelude.{◌≡◌, ◌≤◌, [], length, None, Some, IfSome, IfNone, unwrap_or};
ghost use Rattle.vsm_model.specs.Passing.{numbers_in};
ghost use Rattle.storage_core.specs.Meaning.{state_of};

use arrayvec::ArrayVec;
use storage_core::{Passed, Storage};

/// The most numbers of a list: its first byte counts them.
const NUMBERS_MOST: usize = 255;

/// The subpool numbers that an ATTACH passes.
pub(crate) type PassedNumbers = ArrayVec<u32, NUMBERS_MOST>;

/// The bytes as numbers.
fn numbers_from(bytes: &[u8]) -> PassedNumbers
    requires { length bytes.now ≤ 255 }
    ensures { result.items ≡ bytes.now }
{
    let mut numbers = ArrayVec::new();
    for byte in bytes {
        numbers.push(u32::from(*byte));
    }
    numbers
}

/// The byte at the address; `None` if it doesn't lie in an assigned page.
fn byte_at(storage: &Storage, address: u32) -> Option<u8>
    ensures { result ≡ (state_of storage.now).bytes address }
{
    let mut room = [0; 1];
    match storage.load(address, &mut room) {
        Ok(()) => Some(room[0]),
        Err(_) => None,
    }
}

/// The numbers of a list: a byte that counts those that follow, and a byte for each. `None` if one of these bytes
/// doesn't lie in an assigned page.
fn listed_at(storage: &Storage, address: u32) -> Option<PassedNumbers>
    ensures some { IfSome result (λ numbers.
        numbers_in (state_of storage.now) (Passed.Listed address) ≡ Some numbers.items) }
    ensures none { IfNone result (numbers_in (state_of storage.now) (Passed.Listed address) ≡ None) }
{
    let count = usize::from(byte_at(storage, address)?);
    let mut room = [0; 1 + NUMBERS_MOST];
    let list = &mut room[..1 + count];
    match storage.load(address, list) {
        Ok(()) => Some(numbers_from(&list[1..])),
        Err(_) => None,
    }
}

/// The numbers that an operand names; none if a byte of its list doesn't lie in an assigned page.
pub(crate) fn numbers_of(storage: &Storage, passed: Passed) -> PassedNumbers
    ensures { result.items ≡ unwrap_or (numbers_in (state_of storage.now) passed) [] }
{
    match passed {
        Passed::Nothing => ArrayVec::new(),
        Passed::Number(number) => {
            let mut numbers = ArrayVec::new();
            numbers.push(number);
            numbers
        }
        Passed::Listed { address } => match listed_at(storage, address) {
            Some(numbers) => numbers,
            None => ArrayVec::new(),
        },
    }
}
