//! Which statement ended the area or the cell at the word of a name.
ghost use Rattle.std.specs.Prelude.{◌≡◌, List, None, OnOk, Some, if◌then◌else◌, ℕ};
ghost use Rattle.vsm_model.specs.Meaning.{service_in};
ghost use Rattle.vsm_model.specs.Names.{same_name};
ghost use Rattle.storage_core.specs.Meaning.{state_of};
ghost use Rattle.explain_who.specs.Taken.{taken_at};
ghost use Rattle.explain_findings.specs.Endings.{can_end, first_line, is_used};
ghost use Rattle.explain_findings.specs.NameEndings.{can_end_in, ended_after, ended_now, ending_kept, place_of};
ghost use Rattle.explain_findings.specs.NameEndings.{word_kept};

use crate::parts::doublewords;
use explain_who::{Taken, subpool_at, taken_on};
use operand_texts::Name;
use std::alloc::{AllocError, Global};
use storage_core::{Storage, Subpool};
use vsm_model::Service;

/// A name with its word, and the line of the statement that ended what is there.
#[derive(Drop)]
struct NameEnding {
    name: Name,
    word: u32,
    ended: Option<u32>,
}

/// The names that are defined.
#[derive(Drop)]
pub(crate) struct Endings {
    names: Vec<NameEnding>,
}

/// What a service can end.
#[derive(Clone, Copy)]
pub(crate) enum CanEnd {
    Nothing,
    /// What is in this many doublewords from the first on.
    Run { first: u32, count: u32 },
    /// The cell at this address.
    Cell(u32),
    Anything,
}

impl CanEnd {
    /// What this service can end.
    pub(crate) fn of(service: &Service<'_>) -> CanEnd
        ensures { (address : ℕ) → can_end_in result address ≡ can_end (Some (service_in service.now)) address }
    {
        match service {
            Service::Release(release) => CanEnd::Run {
                first: release.address / 8,
                count: doublewords(release.length),
            },
            Service::Free { cell, .. } => CanEnd::Cell(*cell),
            Service::Whole { .. }
            | Service::Delete { .. }
            | Service::Detach { .. }
            | Service::EndTask => CanEnd::Anything,
            Service::Obtain(_)
            | Service::Attach(_)
            | Service::Run { .. }
            | Service::Store { .. }
            | Service::Build { .. }
            | Service::Get { .. } => CanEnd::Nothing,
        }
    }

    /// Whether it can end what is at an address.
    fn can_end(&self, address: u32) -> bool
        ensures { result ≡ can_end_in self.now address }
    {
        match *self {
            CanEnd::Nothing => false,
            CanEnd::Run { first, count } => first <= address / 8 && address / 8 - first < count,
            CanEnd::Cell(cell) => cell == address,
            CanEnd::Anything => true,
        }
    }
}

/// Whether an area or a cell in use is at an address.
fn is_used(storage: &Storage, address: u32, guess: Option<Subpool>) -> bool
    ensures { result ≡ is_used (taken_at (state_of storage.now) address) }
{
    match taken_on(storage, subpool_at(storage, address, guess), address) {
        Taken::Obtained(_) | Taken::UsedCell(_) => true,
        Taken::Unassigned | Taken::Free | Taken::FreeCell(_) | Taken::PastCells(_) => false,
    }
}

impl NameEnding {
    /// The line of the statement that ended what is at its word, after one more statement.
    fn ended_after(
        &self,
        storage: &Storage,
        can_end: CanEnd,
        line: u32,
        guess: Option<Subpool>,
    ) -> Option<u32>
        ensures { result ≡ ended_after (state_of storage.now) can_end line self.now }
    {
        if self.ended.is_some() {
            return self.ended;
        }
        if can_end.can_end(self.word) && !is_used(storage, self.word, guess) {
            Some(line)
        } else {
            None
        }
    }
}

impl Endings {
    /// No name is defined. Takes no memory.
    pub(crate) fn new(alloc: Global) -> Endings
        ensures ended { (name : List ℕ) → ending_kept result name ≡ None }
        ensures words { (name : List ℕ) → word_kept result name ≡ None }
    {
        Endings {
            names: Vec::new(alloc),
        }
    }

    /// The place of a name, or the number of names if it has none.
    fn place_of(&self, name: &Name) -> usize
        ensures { result ≡ place_of self.now.names.items name.now.bytes }
    {
        for i in 0..self.names.len() {
            if self.names[i].name == *name {
                return i;
            }
        }
        self.names.len()
    }

    /// The line of the statement that ended what is at the word of a name since the name was given that word.
    pub(crate) fn ended_by(&self, name: &Name) -> Option<u32>
        ensures { result ≡ ending_kept self.now name.now.bytes }
    {
        let place = self.place_of(name);
        if place < self.names.len() {
            self.names[place].ended
        } else {
            None
        }
    }

    /// A name is given a word.
    pub(crate) fn give(&mut self, name: &Name, word: u32) -> Result<(), AllocError>
        ensures ended { OnOk result ((other : List ℕ) → ending_kept self.new other
            ≡ (if same_name name.now.bytes other then None else ending_kept self.old other)) }
        ensures words { OnOk result ((other : List ℕ) → word_kept self.new other
            ≡ (if same_name name.now.bytes other then Some word else word_kept self.old other)) }
    {
        let entry = NameEnding {
            name: *name,
            word,
            ended: None,
        };
        let place = self.place_of(name);
        if place < self.names.len() {
            self.names[place] = entry;
        } else {
            self.names.push(entry)?;
        }
        Ok(())
    }

    /// The statement of a line may have ended what is at the words of names: this is the storage after it.
    pub(crate) fn end(
        &mut self,
        storage: &Storage,
        can_end: CanEnd,
        line: u32,
        guess: Option<Subpool>,
    )
        ensures ended { (name : List ℕ) → ending_kept self.new name ≡ first_line (ending_kept self.old name)
            (if ended_now (state_of storage.now) can_end (word_kept self.old name) then Some line else None) }
        ensures words { (name : List ℕ) → word_kept self.new name ≡ word_kept self.old name }
    {
        if let CanEnd::Nothing = can_end {
            return;
        }
        for i in 0..self.names.len() {
            let ended = self.names[i].ended_after(storage, can_end, line, guess);
            self.names[i].ended = ended;
        }
    }
}
