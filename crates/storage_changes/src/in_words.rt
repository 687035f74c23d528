//! Records of the three most frequent kinds, read from the words of an element, and the words that change as such a
//! record is turned: one, or two of an obtain.

ghost use Rattle.std.specs.Prelude.{◌≡◌, ◌≢◌, ℕ, ◌<◌, List, length, IfSome, IfNone};
ghost use Rattle.storage_changes.specs.declared.record.Record.TheVariants.{Area, Obtain, Register};
ghost use Rattle.storage_changes.specs.Records.{obtain_in, record_of, register_in};
ghost use Rattle.storage_changes.specs.InWords.{area_in, with_placed};
ghost use Rattle.storage_changes.specs.Records as Records;

use crate::record::{
    AREA, AreaRecord, OBTAIN, ObtainRecord, REGISTER, RegisterRecord, area_of, obtain_of,
    register_of,
};

/// A word of an element, and its place among the seven.
#[derive(Clone, Copy)]
pub struct PlacedWord {
    pub place: usize,
    pub word: u32,
}

#[tactic(auto, unfolding(crate::specs::Records::record_of))]
impl AreaRecord {
    /// The record in the words of an element, if it's one of an area.
    pub fn in_words(words: [u32; 7]) -> Option<AreaRecord>
        ensures kind { IfSome result (λ _. Records.word words 0 ≡ 0) }
        ensures read { IfSome result (λ r. r ≡ area_in words) }
        ensures record_is { IfSome result (λ r. record_of words ≡ Area r) }
        ensures none { IfNone result (Records.word words 0 ≢ 0) }
    {
        if words[0] != AREA {
            return None;
        }
        Some(area_of(words))
    }

    /// The word by which a record of an area says if it becomes free.
    pub fn free_word(free: bool) -> PlacedWord
        ensures place { result.place < 7 }
        ensures record_is { (words : List ℕ) → length words ≡ 7 → Records.word words 0 ≡ 0
            → record_of (with_placed words result) ≡ Area (record (area_in words) { free = free }) }
    {
        PlacedWord {
            place: 5,
            word: u32::from(free),
        }
    }
}

#[tactic(auto, unfolding(crate::specs::Records::record_of))]
impl ObtainRecord {
    /// The record in the words of an element, if it's one of an obtain.
    pub fn in_words(words: [u32; 7]) -> Option<ObtainRecord>
        ensures kind { IfSome result (λ _. Records.word words 0 ≡ 15) }
        ensures read { IfSome result (λ r. r ≡ obtain_in words) }
        ensures record_is { IfSome result (λ r. record_of words ≡ Obtain r) }
        ensures none { IfNone result (Records.word words 0 ≢ 15) }
    {
        if words[0] != OBTAIN {
            return None;
        }
        Some(obtain_of(words))
    }

    /// The words by which a record of an obtain says if its area becomes free, and which its register gets.
    pub fn turned_words(free: bool, word: u32) -> (PlacedWord, PlacedWord)
        ensures places { (result.0.place < 7) × (result.1.place < 7) }
        ensures record_is { (words : List ℕ) → length words ≡ 7 → Records.word words 0 ≡ 15
            → record_of (with_placed (with_placed words result.0) result.1)
            ≡ Obtain (record {
              area = record (obtain_in words).area { free = free };
              register = record (obtain_in words).register { word = word };
            }) }
    {
        let value = u32::from(free);
        let free = PlacedWord {
            place: 5,
            word: value,
        };
        (free, PlacedWord { place: 6, word })
    }
}

#[tactic(auto, unfolding(crate::specs::Records::record_of))]
impl RegisterRecord {
    /// The record in the words of an element, if it's one of a register.
    pub fn in_words(words: [u32; 7]) -> Option<RegisterRecord>
        ensures kind { IfSome result (λ _. Records.word words 0 ≡ 5) }
        ensures read { IfSome result (λ r. r ≡ register_in words) }
        ensures record_is { IfSome result (λ r. record_of words ≡ Register r) }
        ensures none { IfNone result (Records.word words 0 ≢ 5) }
    {
        if words[0] != REGISTER {
            return None;
        }
        Some(register_of(words))
    }

    /// The word that a record of a register has for it.
    pub fn register_word(word: u32) -> PlacedWord
        ensures place { result.place < 7 }
        ensures record_is { (words : List ℕ) → length words ≡ 7 → Records.word words 0 ≡ 5
            → record_of (with_placed words result) ≡ Register (record (register_in words) { word = word }) }
    {
        PlacedWord { place: 3, word }
    }
}
