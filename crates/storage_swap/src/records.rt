//! The records of a change, as a chain.

ghost use Rattle.std.specs.Prelude.{◌≡◌, ℕ, ◌≤◌, List, ◌∷◌};
ghost use Rattle.storage_changes.specs.declared.record.Record.{Record as TheRecord};
ghost use Rattle.storage_changes.specs.Fits.{Fits, FitInTurn};
ghost use Rattle.storage_swap.specs.Storage.{walk_of};
ghost use Rattle.storage_swap.specs.Beside.{records_of, Beside, BesideBoth, SwapsFirst, SwapsAll};

use crate::exchange::TurnedWords;
use crate::storage::Parts;
use raw_region::Parked;
use storage_changes::PlacedWord;
use subpool_storage::SubpoolStorage;
use vsm_elements::Chain;

// The first record changes sides with the storage, and goes before those that are done.
fn swap_first(
    storage: &mut Parts,
    given: &mut Parked,
    parked: &mut SubpoolStorage,
    records: &mut Chain,
    done: &mut Chain,
)
    requires beside { BesideBoth storage.old parked.old records.old done.old }
    requires fits { (r : TheRecord) × (rs : List TheRecord) × (kept : ℕ) × (kept ≤ storage.old.elements.spare)
        × (records_of storage.old.elements records.old ≡ r ∷ rs)
        × Fits (walk_of storage.old given.old parked.old kept) r }
    ensures { (r : TheRecord) (rs : List TheRecord) → records_of storage.old.elements records.old ≡ r ∷ rs
        → SwapsFirst storage.old storage.new given.old given.new parked.old parked.new records.old records.new
        done.old done.new r rs }
{
    let first = records.words(&storage.elements, records.first);
    match storage.exchange_words(given, parked, first) {
        TurnedWords::One(changed) => {
            let PlacedWord { place, word } = changed;
            records.turn_first(&mut storage.elements, place, word, done);
        }
        TurnedWords::Two(one, other) => {
            let one = (one.place, one.word);
            let other = (other.place, other.word);
            records.turn_first_by_two(&mut storage.elements, one, other, done);
        }
        TurnedWords::All(words) => records.turn_front(&mut storage.elements, words, done),
    }
}

// Every record changes sides with the storage. They are then in reverse order.
pub(crate) fn swap_records(
    storage: &mut Parts,
    given: &mut Parked,
    parked: &mut SubpoolStorage,
    records: &mut Chain,
)
    requires beside { Beside storage.old parked.old records.old }
    requires fits { (kept : ℕ) × (kept ≤ storage.old.elements.spare)
        × FitInTurn (walk_of storage.old given.old parked.old kept) (records_of storage.old.elements records.old) }
    ensures { SwapsAll storage.old storage.new given.old given.new parked.old parked.new records.old records.new }
{
    let mut done = Chain::new();
    while records.count > 0 {
        swap_first(storage, given, parked, records, &mut done);
    }
    *records = done;
}
