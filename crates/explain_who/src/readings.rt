//! What is asked of a bench, and what is read of it.
ghost use Rattle.std.specs.Prelude.{◌≡◌, ◌≤◌, OnOk, OnErr, Some, None, length};
ghost use Rattle.vsm_model.specs.Bytes.{load};
ghost use Rattle.bench_core.specs.Stands.{bench_of, settings_in};
ghost use Rattle.explain_who.specs.Readings.{bytes_read, holding_read, holding_seen, place_read, reading};
ghost use Rattle.explain_who.specs.Readings.{is_taken, same, same_part, same_storage, same_value, same_word};
ghost use Rattle.explain_who.specs.Readings.{register_read, skip_of};
ghost use Rattle.storage_core.specs.Meaning.{settings_of, state_of};

use crate::holdings::{Holding, holding_of};
use crate::pages::subpool_at;
use crate::place::{Place, PlaceBytes};
use crate::taken::taken_on;
use arrayvec::ArrayVec;
use explain_standing::TrailEntry;
use operand_texts::Name;
use script_steps::Bench;
use storage_core::Storage;
use vsm_model::{Cause, Subpool};

/// What is asked for.
#[derive(Clone, Copy)]
pub enum Subject {
    /// What happens at an address: to the bytes from there on, of which at most 256 are read, and to the storage there.
    Bytes { address: u32, count: u16 },
    /// The word of a register of a task.
    Register { task: u8, register: u8 },
    /// The word that a name stands for.
    Name(Name),
    /// The pages and the free storage of the subpool that a task sees at a number.
    Subpool { task: u8, number: u8 },
}

/// A part of what is read, which has a line of its own.
#[derive(Clone, Copy)]
pub(crate) enum Part {
    /// The storage at an address.
    Storage,
    /// All else: the bytes from an address on, a word, or what a subpool has.
    Value,
}

/// What is read.
#[derive(Clone, Drop)]
pub(crate) enum Seen {
    /// The bytes from an address on, and the storage there.
    Place(Place),
    /// The word; `None` if no such task exists.
    Register(Option<u32>),
    /// The word; `None` if the name isn't defined.
    Name(Option<u32>),
    /// What the subpool has; `None` if no such task exists.
    Held(Option<Holding>),
}

/// These bytes in an array with room for 256.
fn with_room(bytes: &[u8]) -> PlaceBytes
    requires { length bytes.now ≤ 256 }
    ensures { result.items ≡ bytes.now }
{
    let mut room = ArrayVec::new();
    room.try_extend_from_slice(bytes).unwrap();
    room
}

/// Reads the bytes from an address on, as many as `out` has.
fn load(bench: &Bench, address: u32, out: &mut [u8]) -> Result<(), Cause>
    ensures ok { OnOk result (load (bench_of bench.now).present.storage address (length out.old) ≡ Some out.new) }
    ensures err { OnErr result (load (bench_of bench.now).present.storage address (length out.old) ≡ None) }
{
    bench.storage().load(address, out)
}

/// The bytes from an address on, at most 256; `None` if one of them isn't in an assigned page.
fn read_bytes(bench: &Bench, address: u32, count: u16) -> Option<PlaceBytes>
    ensures { result ≡ bytes_read address count (bench_of bench.now).present }
{
    let mut room = [0; 256];
    let out = &mut room[..(count as usize).min(256)];
    match load(bench, address, out) {
        Ok(()) => Some(with_room(out)),
        Err(_) => None,
    }
}

/// The word of a register; `None` if no such task exists.
fn read_register(bench: &Bench, task: u8, register: u8) -> Option<u32>
    ensures { result ≡ register_read task register (bench_of bench.now).present }
{
    match bench.storage().parent(task) {
        Some(_) => Some(bench.register(task, register)),
        None => None,
    }
}

/// What the subpool has that a task sees at a number: nothing if it sees none.
fn seen_holding(storage: &Storage, task: u8, number: u8) -> Holding
    ensures { result ≡ holding_seen (settings_of storage.now) (state_of storage.now) task number }
{
    match storage.owner_seen(task, number) {
        Some(owner) => holding_of(storage, Subpool { number, owner }),
        None => Holding::NOTHING,
    }
}

/// What the subpool has that a task sees at a number; `None` if no such task exists.
fn read_holding(bench: &Bench, task: u8, number: u8) -> Option<Holding>
    ensures { result ≡ holding_read (settings_in bench.now) task number (bench_of bench.now).present }
{
    let storage = bench.storage();
    match storage.parent(task) {
        Some(_) => Some(seen_holding(storage, task, number)),
        None => None,
    }
}

/// The bytes from an address on, and the storage there, which is looked for in the guessed subpool first.
fn read_place(bench: &Bench, address: u32, count: u16, guess: Option<Subpool>) -> Place
    ensures { result ≡ place_read address count (bench_of bench.now).present }
{
    let storage = bench.storage();
    let subpool = subpool_at(storage, address, guess);
    Place {
        address,
        count,
        bytes: read_bytes(bench, address, count),
        subpool,
        taken: taken_on(storage, subpool, address),
    }
}

/// What is read of a bench in its present state. A guess of the subpool that has the address, whatever it is, saves
/// time at most.
pub(crate) fn read(bench: &Bench, asked: &Subject, guess: Option<Subpool>) -> Seen
    ensures { result ≡ reading (settings_in bench.now) asked.now (bench_of bench.now).present }
{
    match asked {
        Subject::Bytes { address, count } => {
            Seen::Place(read_place(bench, *address, *count, guess))
        }
        Subject::Register { task, register } => {
            Seen::Register(read_register(bench, *task, *register))
        }
        Subject::Name(name) => Seen::Name(bench.name(name)),
        Subject::Subpool { task, number } => Seen::Held(read_holding(bench, *task, *number)),
    }
}

/// Whether two words are the same, or both are missing.
fn same_word(a: Option<u32>, b: Option<u32>) -> bool
    ensures { result ≡ same_word a b }
{
    match (a, b) {
        (None, None) => true,
        (Some(a), Some(b)) => a == b,
        _ => false,
    }
}

/// Whether a part of two readings is the same; only an address has storage.
pub(crate) fn same_part(part: Part, a: &Seen, b: &Seen) -> bool
    ensures { result ≡ same_part part a.now b.now }
{
    match part {
        Part::Storage => same_storage(a, b),
        Part::Value => same_value(a, b),
    }
}

/// Whether the storage of two readings is the same; only an address has storage.
fn same_storage(a: &Seen, b: &Seen) -> bool
    ensures { result ≡ same_storage a.now b.now }
{
    match (a, b) {
        (Seen::Place(a), Seen::Place(b)) => a.same_storage(b),
        _ => true,
    }
}

/// Whether all else of two readings is the same: the bytes of an address.
fn same_value(a: &Seen, b: &Seen) -> bool
    ensures { result ≡ same_value a.now b.now }
{
    match (a, b) {
        (Seen::Place(a), Seen::Place(b)) => a.same_bytes(b),
        (Seen::Register(a), Seen::Register(b)) => same_word(*a, *b),
        (Seen::Name(a), Seen::Name(b)) => same_word(*a, *b),
        (Seen::Held(None), Seen::Held(None)) => true,
        (Seen::Held(Some(a)), Seen::Held(Some(b))) => a.is_same(b),
        _ => false,
    }
}

/// Whether two readings are the same.
pub(crate) fn same(a: &Seen, b: &Seen) -> bool
    ensures { result ≡ same a.now b.now }
{
    same_storage(a, b) && same_value(a, b)
}

/// How many bytes a line leaves out at the front.
pub(crate) fn skip_of(a: &Seen, b: &Seen) -> usize
    ensures { result ≡ skip_of a.now b.now }
{
    match (a, b) {
        (Seen::Place(a), Seen::Place(b)) => a.skipped(b),
        _ => 0,
    }
}

/// Whether the storage is taken; only an address has storage.
pub(crate) fn is_taken(seen: &Seen) -> bool
    ensures { result ≡ is_taken seen.now }
{
    match seen {
        Seen::Place(place) => place.taken.is_taken(),
        Seen::Register(_) | Seen::Name(_) | Seen::Held(_) => false,
    }
}

/// The subpool that has the address of the newest of these readings, as a guess for the next one.
pub(crate) fn last_subpool(entries: &[TrailEntry<Seen>]) -> Option<Subpool> {
    match entries {
        [
            ..,
            TrailEntry {
                seen: Seen::Place(place),
                ..
            },
        ] => place.subpool,
        _ => None,
    }
}
