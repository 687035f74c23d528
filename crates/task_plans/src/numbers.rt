//! The subpool numbers that an operand of ATTACH names, and what can be wrong with them.

ghost use Rattle.std.specs.Prelude.{◌≡◌, ◌+◌, ◌<◌, ◌≤◌, ◌++◌, length, slice_index, None, Some, All, IfOk, IfErr};
ghost use Rattle.std.specs.List.{list_any};
ghost use Rattle.arrayvec.specs.ArrayVec.{array_vec_len};
ghost use Rattle.vsm_model.specs.Passing.{numbers_in, is_bad_list, is_anothers};
ghost use Rattle.storage_changes.specs.Meaning.{model_of};
ghost use Rattle.storage_swap.specs.Storage.{state_of, Stand, IsFrameless};
ghost use Rattle.task_plans.specs.TaskPlans.{numbers};

use arrayvec::ArrayVec;
use storage_plans::load;
use storage_swap::Parts;
use vsm_model::geometry::SUBPOOL_NUMBERS;
use vsm_model::{Cause, Passed};

/// The most numbers of a list: its first byte counts them.
pub(crate) const NUMBERS_MOST: usize = 255;

pub(crate) type Numbers = ArrayVec<u32, NUMBERS_MOST>;

/// The numbers that the operand names, or `NotAssigned` if a byte of its list doesn't lie in an assigned page.
pub(crate) fn numbers_of(storage: &Parts, passed: Passed) -> Result<Numbers, Cause>
    requires frameless { IsFrameless storage.now }
    ensures ok { IfOk result (λ numbers. numbers_in (model_of (state_of storage.now)) passed ≡ Some numbers.items) }
    ensures err { IfErr result (λ cause. (cause ≡ Cause.NotAssigned)
        × (numbers_in (model_of (state_of storage.now)) passed ≡ None)) }
{
    match passed {
        Passed::Nothing => Ok(ArrayVec::new()),
        Passed::Number(number) => {
            let mut numbers = ArrayVec::new();
            numbers.push(number);
            Ok(numbers)
        }
        Passed::Listed { address } => listed_at(storage, address),
    }
}

/// The numbers that the operand names, and none if a byte of its list doesn't lie in an assigned page.
pub(crate) fn numbers_or_none(storage: &Parts, passed: Passed) -> Numbers
    requires frameless { IsFrameless storage.now }
    ensures { result.items ≡ numbers (state_of storage.now) passed }
{
    match numbers_of(storage, passed) {
        Ok(numbers) => numbers,
        Err(_) => ArrayVec::new(),
    }
}

// The byte at the address, or `NotAssigned` if it doesn't lie in an assigned page.
fn byte_at(storage: &Parts, address: u32) -> Result<u8, Cause>
    requires frameless { IsFrameless storage.now }
    ensures ok { IfOk result (λ byte. (model_of (state_of storage.now)).bytes address ≡ Some byte) }
    ensures err { IfErr result (λ cause. (cause ≡ Cause.NotAssigned)
        × ((model_of (state_of storage.now)).bytes address ≡ None)) }
{
    let mut room = [0; 1];
    load(storage, address, &mut room)?;
    Ok(room[0])
}

// The bytes as numbers.
fn numbers_from(bytes: &[u8]) -> Numbers
    requires { length bytes.now ≤ 255 }
    ensures { result.items ≡ bytes.now }
{
    let mut numbers = ArrayVec::new();
    for byte in bytes {
        numbers.push(u32::from(*byte));
    }
    numbers
}

// The numbers of a list: a byte that counts those that follow, and a byte for each.
fn listed_at(storage: &Parts, address: u32) -> Result<Numbers, Cause>
    requires frameless { IsFrameless storage.now }
    ensures ok { IfOk result (λ numbers.
        numbers_in (model_of (state_of storage.now)) (Passed.Listed address) ≡ Some numbers.items) }
    ensures err { IfErr result (λ cause. (cause ≡ Cause.NotAssigned)
        × (numbers_in (model_of (state_of storage.now)) (Passed.Listed address) ≡ None)) }
{
    let count = usize::from(byte_at(storage, address)?);
    let mut room = [0; 1 + NUMBERS_MOST];
    let list = &mut room[..1 + count];
    load(storage, address, list)?;
    Ok(numbers_from(&list[1..]))
}

// The number at the place of both lists, one after the other.
fn number_at(given: &Numbers, shared: &Numbers, place: usize) -> u32
    requires { place < array_vec_len given.now + array_vec_len shared.now }
    ensures { result ≡ slice_index (given.now.items ++ shared.now.items) place }
{
    if place < given.len() {
        given[place]
    } else {
        shared[place - given.len()]
    }
}

/// Whether a number of both lists together is 0 or above 127, or occurs twice. They are looked at from the last one on.
pub(crate) fn has_bad_number(given: &Numbers, shared: &Numbers) -> bool
    ensures { result ≡ is_bad_list (given.now.items ++ shared.now.items) }
{
    let count = given.len() + shared.len();
    let mut behind = [false; SUBPOOL_NUMBERS];
    for k in 0..count {
        let number = number_at(given, shared, count - 1 - k) as usize;
        if number == 0 || number >= SUBPOOL_NUMBERS {
            return true;
        }
        if behind[number] {
            return true;
        }
        behind[number] = true;
    }
    false
}

// Whether the current task sees a subpool at the number that another owns.
fn is_anothers(storage: &Parts, number: u8) -> bool
    requires stands { Stand storage.now }
    ensures { result ≡ is_anothers (model_of (state_of storage.now)) number }
{
    let current = storage.tasks.current();
    let seen = storage
        .subpools
        .owner_seen(&storage.elements, current, number);
    match seen {
        Some(owner) => owner != current,
        None => false,
    }
}

/// Whether another task than the current one owns the subpool that it sees at one of the numbers.
pub(crate) fn some_is_anothers(storage: &Parts, numbers: &Numbers) -> bool
    requires stands { Stand storage.now }
    requires range { All (λ number. number ≤ 127) numbers.now.items }
    ensures { result ≡ list_any (is_anothers (model_of (state_of storage.now))) numbers.now.items }
{
    for k in 0..numbers.len() {
        if is_anothers(storage, numbers[k] as u8) {
            return true;
        }
    }
    false
}
