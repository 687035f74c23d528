//! Changes that are made record by record, while the storage is read.

ghost use Rattle.std.specs.Prelude.{◌≡◌, ℕ, ◌+◌, ◌<◌, ◌≤◌, [], ◌∷◌, None, length, IsOk, OnOk, OnErr, IfOk, IfErr};
ghost use Rattle.vsm_elements.specs.Store.{made, live_count};
ghost use Rattle.subpool_storage.specs.Held.{GivenBack};
ghost use Rattle.subpool_storage.specs.Subpools.{no_subpools};
ghost use Rattle.storage_swap.specs.declared.storage.Parts.{Parts as TheStorage};
ghost use Rattle.storage_changes.specs.StorageActions.{set_records};
ghost use Rattle.storage_swap.specs.Storage.{hold, state_of, Stand, IsFrameless};
ghost use Rattle.storage_swap.specs.Growth.{MakesElements};
ghost use Rattle.storage_swap.specs.Builder.{builder_holds, records_in, parked_in};
ghost use Rattle.storage_swap.specs.Builder.{IsBuilding, Keeps, Builds, Pushes, Parks, Finishes};

use crate::chains::append;
use crate::change::{Change, discard_elements};
use crate::storage::Parts;
use raw_region::Parked;
use std::alloc::AllocError;
use storage_changes::{Record, RegisterRecord};
use subpool_storage::SubpoolStorage;
use vsm_elements::{Chain, Id};
use vsm_model::Subpool;

/// A change that is being made: records one after another, and the subpools that it has parked. Between two records the
/// storage can be read: its state stays as it is.
///
/// Only [`ChangeBuilder::finish`] or [`ChangeBuilder::discard`] ends it: its elements stay live until then.
pub struct ChangeBuilder {
    records: Chain,
    // The id of the last record's element, or 0.
    last: Id,
    parked: SubpoolStorage,
}

impl ChangeBuilder {
    /// No record, and nothing parked. It has no element.
    pub fn new() -> ChangeBuilder
        ensures building { (p : TheStorage) → Stand p → ((i : ℕ) → hold p i ≤ 1) → IsFrameless p → IsBuilding p result }
        ensures records { (p : TheStorage) → records_in p result ≡ [] }
        ensures parked { (p : TheStorage) → parked_in p result ≡ no_subpools }
        ensures none { (p : TheStorage) (i : ℕ) → builder_holds p result i ≡ 0 }
    {
        ChangeBuilder {
            records: Chain::new(),
            last: 0,
            parked: SubpoolStorage::new(),
        }
    }

    /// How many records it has.
    pub fn count(&self) -> u32
        ensures { (p : TheStorage) → IsBuilding p self.now → result ≡ length (records_in p self.now) }
    {
        self.records.count
    }

    /// Another record, after the last one. It takes one element.
    ///
    /// `AllocError` if none is spare and memory is refused: the records then stay as they are, and at most a block of
    /// elements is made.
    pub fn push(&mut self, storage: &mut Parts, added: Record) -> Result<(), AllocError>
        requires { IsBuilding storage.old self.old }
        ensures builds { Builds storage.old self.old storage.new self.new }
        ensures ok { OnOk result (Pushes storage.old self.old (added ∷ []) storage.new self.new) }
        ensures err { IfErr result (λ _. Pushes storage.old self.old [] storage.new self.new) }
        ensures made { OnErr result (MakesElements storage.old.elements storage.new.elements 1) }
        ensures needless { 0 < storage.old.elements.spare → IsOk result }
    {
        storage.elements.reserve(1)?;
        self.last = append(&mut storage.elements, &mut self.records, self.last, added);
        Ok(())
    }

    /// Register 15 of the task gets the return code: one more record, and none if it has that already.
    ///
    /// `AllocError` if no element is spare and memory is refused: the records then stay as they are, and at most a
    /// block of elements is made.
    pub fn push_return(
        &mut self,
        storage: &mut Parts,
        task: u8,
        code: u32,
    ) -> Result<(), AllocError>
        requires { IsBuilding storage.old self.old }
        ensures builds { Builds storage.old self.old storage.new self.new }
        ensures ok { OnOk result (Pushes storage.old self.old
            (set_records task ((state_of storage.old).tasks.words task) ((15, code) ∷ [])) storage.new self.new) }
        ensures made { OnErr result (MakesElements storage.old.elements storage.new.elements
            (length (set_records task ((state_of storage.old).tasks.words task) ((15, code) ∷ [])))) }
        ensures needless { length (set_records task ((state_of storage.old).tasks.words task) ((15, code) ∷ []))
            ≤ storage.old.elements.spare → IsOk result }
    {
        if storage.tasks.register(&storage.elements, task, 15) == code {
            return Ok(());
        }
        let returned = Record::Register(RegisterRecord {
            task,
            register: 15,
            word: code,
        });
        self.push(storage, returned)
    }

    /// Parks an empty subpool of this name, whose storage a record of the change can take over. None of this name may
    /// be parked already. It takes one element.
    ///
    /// `AllocError` if none is spare and memory is refused: then no other subpool is parked, and at most a block of
    /// elements is made.
    pub fn park(&mut self, storage: &mut Parts, subpool: Subpool) -> Result<(), AllocError>
        requires building { IsBuilding storage.old self.old }
        requires range { (1 ≤ subpool.owner) × (subpool.owner ≤ 64) × (subpool.number ≤ 127) }
        requires unseen { (parked_in storage.old self.old).sight subpool.owner subpool.number ≡ None }
        ensures builds { Builds storage.old self.old storage.new self.new }
        ensures ok { OnOk result (Parks storage.old self.old subpool storage.new self.new) }
        ensures err { IfErr result (λ _. Pushes storage.old self.old [] storage.new self.new) }
        ensures made { OnErr result (MakesElements storage.old.elements storage.new.elements 1) }
        ensures needless { 0 < storage.old.elements.spare → IsOk result }
    {
        storage.elements.reserve(1)?;
        self.parked.create(&mut storage.elements, subpool);
        Ok(())
    }

    /// The change, with this many blank elements and no frame. The state of the storage stays as it is.
    ///
    /// Each call on a queue takes one blank element at most, and one has to be left.
    ///
    /// `AllocError` if fewer are spare and memory is refused: all that it had is spare then, and at most a block of
    /// elements is made beyond what is needed.
    pub fn finish(self, storage: &mut Parts, blanks: u32) -> Result<Change, AllocError>
        requires { IsBuilding storage.old self }
        ensures ok { IfOk result (λ change. Finishes storage.old self blanks storage.new change) }
        ensures err { IfErr result (λ _. Keeps storage.old storage.new (builder_holds storage.old self) (λ i. 0)) }
        ensures uses { IfOk result (λ _. storage.old.elements.spare ≤ storage.new.elements.spare + blanks) }
        ensures live { IfOk result (λ _. live_count storage.new.elements ≤ live_count storage.old.elements + blanks) }
        ensures made { MakesElements storage.old.elements storage.new.elements blanks }
        ensures same_frames { storage.new.region ≡ storage.old.region }
        ensures needless { blanks ≤ storage.old.elements.spare → IsOk result }
    {
        if let Err(refused) = storage.elements.reserve(blanks) {
            self.discard(storage);
            return Err(refused);
        }
        let ChangeBuilder {
            records,
            last: _,
            parked,
        } = self;
        storage.elements.set_aside(blanks);
        Ok(Change {
            records,
            blanks,
            frames: Parked::empty(),
            parked,
        })
    }

    /// Gives back every element, including those of the subpools that it has parked. The storage stays as it is.
    pub fn discard(self, storage: &mut Parts)
        requires { IsBuilding storage.old self }
        ensures keeps { Keeps storage.old storage.new (builder_holds storage.old self) (λ i. 0) }
        ensures spares { GivenBack (builder_holds storage.old self) storage.old.elements storage.new.elements }
        ensures as_many { made storage.new.elements ≡ made storage.old.elements }
    {
        let ChangeBuilder {
            records,
            last: _,
            parked,
        } = self;
        discard_elements(&mut storage.elements, records, parked);
    }
}
