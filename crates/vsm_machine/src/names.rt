//! The table of the names that are defined or undone.
ghost use Rattle.std.specs.Prelude.{◌≤◌};
ghost use Rattle.indexmap.specs.IndexMap.{index_map_len, spare};

use crate::name_changes::NameChange;
use indexmap::IndexMap;
use operand_texts::Name;
use std::alloc::{AllocError, Global};

/// How many names may be defined.
const MOST_NAMES: usize = 1024;

/// The names of a bench with their words.
///
/// Those that are defined are first, in the order in which they were defined, then those of undone statements, in the
/// order in which they would be defined again. These stay, so that doing a statement again inserts nothing, and each
/// change names its row by its place.
#[derive(Drop)]
pub struct NameTable {
    table: IndexMap<Name, u32>,
    defined: usize,
    ghost within: { defined ≤ index_map_len table },
}

impl NameTable {
    ghost use Rattle.std.specs.Prelude.{◌≡◌, ℕ, ◌<◌, ◌^◌, ◌&&◌, ◌||◌, not, false, true, is_some, [], List, length};
    ghost use Rattle.std.specs.Prelude.{◌++◌, ◌∷◌, nat_le, None, Some, IsOk, OnOk, OnErr, IfSome, IsTrue};
    ghost use Rattle.std.specs.Prelude.{option_map, slice_get};
    ghost use Rattle.vsm_model.specs.Names.{same_name, word_of, with_name};
    ghost use Rattle.vsm_machine.specs.NameChanges.{step_by, step_in, step_to, stepped, turned};
    ghost use Rattle.vsm_machine.specs.NameSteps.{is_ready, FitsTable};
    ghost use Rattle.vsm_machine.specs.NameTable.{all_rows, knows, names_of, row_of, rows_of, HasRoom, IsNext};
    ghost use Rattle.vsm_machine.specs.NameTable.{place_in, word_at, with_word_at};

    /// A table with no name. This takes no memory.
    pub fn new(alloc: Global) -> NameTable
        ensures rows { rows_of result ≡ [] }
        ensures none { (name : List ℕ) → knows result name ≡ false }
    {
        NameTable {
            table: IndexMap::new(alloc),
            defined: 0,
        }
    }

    /// The word that a name stands for, if it is defined.
    pub fn word(&self, name: &Name) -> Option<u32>
        ensures { result ≡ word_of (rows_of self.now) name.now.bytes }
    {
        match self.table.get_full(name) {
            Some((index, _, word)) => {
                if index < self.defined {
                    Some(*word)
                } else {
                    None
                }
            }
            None => None,
        }
    }

    /// The name of this index, from 0 on, in the order in which names were defined, with its word; `None` past the
    /// last.
    pub fn name_at(&self, index: usize) -> Option<(Name, u32)>
        ensures row { option_map row_of result ≡ slice_get (rows_of self.now) index }
        ensures fits { IfSome result (λ _. index < 2 ^ 63) }
    {
        // The length shows that the index fits.
        let _len = self.table.len();
        if index >= self.defined {
            return None;
        }
        let (name, word) = self.table.get_index(index)?;
        Some((*name, *word))
    }

    /// Whether no other name may be defined: 1,024 are.
    pub fn is_full(&self) -> bool
        ensures { result ≡ nat_le 1024 (length (rows_of self.now)) }
    {
        MOST_NAMES <= self.defined
    }

    /// The change after which the name stands for `word`: a defined name keeps its place, any other becomes the last.
    pub fn change_to(&self, name: &Name, word: u32) -> NameChange
        ensures { step_by (λ place. name.now.bytes) result ≡ step_to (rows_of self.now) name.now.bytes word }
    {
        match self.place_of(name) {
            Some(place) => NameChange::Reword { place, word },
            None => NameChange::Define {
                place: self.defined,
                word,
            },
        }
    }

    // The place of a name, if it is defined.
    fn place_of(&self, name: &Name) -> Option<usize>
        ensures { result ≡ place_in (rows_of self.now) name.now.bytes }
    {
        match self.table.get_index_of(name) {
            Some(index) => {
                if index < self.defined {
                    Some(index)
                } else {
                    None
                }
            }
            None => None,
        }
    }

    /// Ensures that the table holds the name, not yet defined if it is new: after all others. On `AllocError` the table
    /// holds what it held. If it already holds the name, or has room for another, no memory is asked for.
    pub fn reserve(&mut self, name: &Name) -> Result<(), AllocError>
        ensures rows { rows_of self.new ≡ rows_of self.old }
        ensures ok { OnOk result ((other : List ℕ)
            → knows self.new other ≡ (same_name name.now.bytes other || knows self.old other)) }
        ensures err { OnErr result (names_of self.new ≡ names_of self.old) }
        ensures needless { HasRoom self.old name.now.bytes → IsOk result }
    {
        if self.table.contains_key(name) {
            return Ok(());
        }
        self.append(name)?;
        Ok(())
    }

    // Puts a name that the table doesn't hold after all others.
    fn append(&mut self, name: &Name) -> Result<(), AllocError>
        requires { knows self.old name.now.bytes ≡ false }
        ensures rows { rows_of self.new ≡ rows_of self.old }
        ensures ok { OnOk result (all_rows self.new ≡ all_rows self.old ++ (name.now.bytes, 0) ∷ []) }
        ensures defined { self.new.defined ≡ self.old.defined }
        ensures err { OnErr result (names_of self.new ≡ names_of self.old) }
        ensures needless { 0 < spare self.old.table → IsOk result }
    {
        match self.table.insert(*name, 0) {
            Ok(_) => Ok(()),
            Err(_) => Err(AllocError),
        }
    }

    /// Ensures that the table holds a name that isn't defined, as the next one after the defined ones, and takes every
    /// other undone name out of it. On `AllocError` the table holds what it held. If it already holds the name, or has
    /// room for another, no memory is asked for.
    pub fn make_next(&mut self, name: &Name) -> Result<(), AllocError>
        requires { word_of (rows_of self.old) name.now.bytes ≡ None }
        ensures rows { rows_of self.new ≡ rows_of self.old }
        ensures next { OnOk result (IsNext self.new name.now.bytes) }
        ensures others { OnOk result ((other : List ℕ) → knows self.new other
            ≡ (same_name name.now.bytes other || is_some (word_of (rows_of self.old) other))) }
        ensures err { OnErr result (names_of self.new ≡ names_of self.old) }
        ensures needless { HasRoom self.old name.now.bytes → IsOk result }
    {
        if self.table.len() == self.defined {
            self.append(name)?;
        } else {
            self.reserve(name)?;
            self.forget_others(name);
        }
        Ok(())
    }

    /// Takes every undone name out of the table. Nothing is inserted.
    pub fn forget_undone(&mut self)
        ensures rows { rows_of self.new ≡ rows_of self.old }
        ensures others { (other : List ℕ) → knows self.new other ≡ is_some (word_of (rows_of self.old) other) }
    {
        if self.defined < self.table.len() {
            self.table.truncate(self.defined);
        }
    }

    /// Takes every undone name but this one out of the table, so that the table holds the defined names and, if it held
    /// it, this one, which is then the next one after them if it isn't defined. Nothing is inserted.
    pub fn forget_others(&mut self, own: &Name)
        ensures rows { rows_of self.new ≡ rows_of self.old }
        ensures own { knows self.old own.now.bytes ≡ true → knows self.new own.now.bytes ≡ true }
        ensures others { (other : List ℕ) → knows self.new other
            ≡ (is_some (word_of (rows_of self.old) other) || (same_name own.now.bytes other && knows self.old other)) }
        ensures next { word_of (rows_of self.old) own.now.bytes ≡ None → knows self.old own.now.bytes ≡ true
            → IsNext self.new own.now.bytes }
    {
        if self.put_next(own) {
            self.table.truncate(self.defined + 1);
        } else {
            self.table.truncate(self.defined);
        }
    }

    /// Takes the step, and leaves its inverse in `change`, which fits the table then. This takes no memory, and each
    /// name keeps its place in the table.
    pub fn swap(&mut self, change: &mut NameChange)
        requires { FitsTable self.old (Some change.old) }
        ensures rows { rows_of self.new ≡ stepped (rows_of self.old) (step_in self.old change.old) }
        ensures turned { step_in self.new change.new ≡ turned (rows_of self.old) (step_in self.old change.old) }
        ensures same { names_of self.new ≡ names_of self.old }
        ensures ready { is_ready self.new (Some change.new) ≡ true }
    {
        *change = self.step(*change);
    }

    // Takes the step, and returns its inverse.
    fn step(&mut self, change: NameChange) -> NameChange
        requires { FitsTable self.old (Some change) }
        ensures rows { rows_of self.new ≡ stepped (rows_of self.old) (step_in self.old change) }
        ensures turned { step_in self.new result ≡ turned (rows_of self.old) (step_in self.old change) }
        ensures same { names_of self.new ≡ names_of self.old }
        ensures ready { is_ready self.new (Some result) ≡ true }
    {
        match change {
            NameChange::Define { place, word } => {
                self.exchange(place, word);
                self.defined += 1;
                NameChange::Undefine
            }
            NameChange::Undefine => {
                self.defined -= 1;
                let place = self.defined;
                let word = self.exchange(place, 0);
                NameChange::Define { place, word }
            }
            NameChange::Reword { place, word } => {
                let word = self.exchange(place, word);
                NameChange::Reword { place, word }
            }
        }
    }

    // Brings an undone name to the first place after the defined ones. Returns whether it is undone.
    fn put_next(&mut self, name: &Name) -> bool
        ensures rows { rows_of self.new ≡ rows_of self.old }
        ensures defined { self.new.defined ≡ self.old.defined }
        ensures same { (other : List ℕ) → knows self.new other ≡ knows self.old other }
        ensures undone { result ≡ (not (is_some (word_of (rows_of self.old) name.now.bytes))
            && knows self.old name.now.bytes) }
        ensures next { IsTrue result → IsNext self.new name.now.bytes }
        ensures fits { self.new.defined < 2 ^ 63 }
    {
        // The length shows that one more than `defined` fits.
        let _len = self.table.len();
        match self.table.get_index_of(name) {
            Some(index) => {
                if index < self.defined {
                    return false;
                }
                self.table.move_index(index, self.defined);
                true
            }
            None => false,
        }
    }

    // Gives the name at a place this word, and returns the one that it had.
    fn exchange(&mut self, place: usize, word: u32) -> u32
        requires { place < index_map_len self.old.table }
        ensures rows { all_rows self.new ≡ with_word_at (all_rows self.old) place word }
        ensures defined { self.new.defined ≡ self.old.defined }
        ensures len { index_map_len self.new.table ≡ index_map_len self.old.table }
        ensures fits { index_map_len self.new.table < 2 ^ 63 }
        ensures old { result ≡ word_at (all_rows self.old) place }
    {
        // The length shows that one more than a place fits.
        let _len = self.table.len();
        match self.table.get_index_mut(place) {
            Some(here) => {
                let old = *here;
                *here = word;
                old
            }
            None => 0,
        }
    }
}
