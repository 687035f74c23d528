//! Changes that are made of spare elements and spare frames. The growth of both comes first, and is all that takes
//! memory.

ghost use Rattle.std.specs.Prelude.{◌≡◌, ℕ, ◌+◌, ◌^◌, ◌<◌, ◌≤◌, true, None, Some, [], length, IsTrue, IsOk};
ghost use Rattle.std.specs.Prelude.{OnOk, IfOk, IfErr, IfSome};
ghost use Rattle.vsm_elements.specs.Store.{made, live_count, made_and_aside};
ghost use Rattle.vsm_elements.specs.Owners.{Moves};
ghost use Rattle.run_set.specs.Runs.{inside};
ghost use Rattle.descriptor_queue.specs.Extents.{extents, IsExtents};
ghost use Rattle.raw_region.specs.Pages.{has_segment, HaveTables, SameTables};
ghost use Rattle.subpool_storage.specs.Subpools.{Subpools, is_there};
ghost use Rattle.subpool_storage.specs.SubpoolStorage.{subpools_of, hold as held_parked, Stands};
ghost use Rattle.storage_changes.specs.Changes.{change_from};
ghost use Rattle.storage_swap.specs.Storage.{hold, state_of, Stand, IsFrameless};
ghost use Rattle.storage_swap.specs.Growth.{MakesElements, MakesForPages};
ghost use Rattle.storage_swap.specs.Reserve.{Grown, Reserves, elements_for, emptied_extents, emptying, parked_under};

use crate::chains::take_records;
use crate::change::Change;
use crate::storage::Parts;
use descriptor_queue::Extents;
use run_set::Run;
use std::alloc::AllocError;
use storage_changes::Record;
use subpool_storage::SubpoolStorage;
use subpool_storage::laws::{extents_are_few, subpools_are_there};
use vsm_elements::Elements;
use vsm_model::Subpool;

impl Change {
    /// A change of these records, with this many blank elements, and with frames of zeros for the pages of a run. The
    /// state of the storage stays as it is.
    ///
    /// If a subpool is to be emptied, an empty one is parked under its name, and records precede these: one by which
    /// its pages, its free storage and its cell pools move into the change, and one for each of its extents, in
    /// ascending order, by which the pages become unassigned.
    ///
    /// Each call on a queue takes one blank element at most, and one has to be left: so one more than the calls is
    /// enough; those for the extents of the subpool are added. The run is in pages of 4,096 bytes, and each of them has
    /// to be unassigned.
    ///
    /// It returns an error if memory is refused. What was made before that stays, as spare elements, spare frames and
    /// tables. If that many elements and frames are spare and the tables exist, it takes no memory. At most a block of
    /// elements is made beyond what is needed, no frame, and a table only for a segment of these pages.
    pub fn reserve(
        storage: &mut Parts,
        emptied: Option<Subpool>,
        records: &[Record],
        blanks: u32,
        fresh: Run,
    ) -> Result<Change, AllocError>
        requires stands { Stand storage.old }
        requires once { (i : ℕ) → hold storage.old i ≤ 1 }
        requires frameless { IsFrameless storage.old }
        requires there { IfSome emptied (λ p. is_there (state_of storage.old).subpools p ≡ true) }
        requires size { length records.now + blanks ≤ 2 ^ 20 }
        requires range { fresh.start + fresh.len ≤ 2 ^ 20 }
        requires segments { (page : ℕ) → inside page fresh ≡ true → IsTrue (has_segment storage.old.region page) }
        requires unassigned { (page : ℕ) → inside page fresh ≡ true → (state_of storage.old).unassigned page ≡ true }
        ensures ok { IfOk result (λ c. Reserves storage.old
            (change_from (state_of storage.old).subpools emptied records.now blanks fresh) c storage.new) }
        ensures frames { IfOk result (λ c. length c.frames ≡ fresh.len) }
        ensures grown { IfErr result (λ _. Grown storage.old storage.new) }
        ensures uses { IfOk result (λ _. storage.old.elements.spare ≤ storage.new.elements.spare
            + elements_for (state_of storage.old).subpools emptied (length records.now) blanks) }
        ensures live { IfOk result (λ _. live_count storage.new.elements ≤ live_count storage.old.elements
            + elements_for (state_of storage.old).subpools emptied (length records.now) blanks) }
        ensures made { MakesElements storage.old.elements storage.new.elements
            (elements_for (state_of storage.old).subpools emptied (length records.now) blanks) }
        ensures made_for_pages { MakesForPages storage.old.region storage.new.region fresh }
        ensures needless { elements_for (state_of storage.old).subpools emptied (length records.now) blanks
            ≤ storage.old.elements.spare
            → fresh.len ≤ storage.old.region.spare → HaveTables storage.old.region fresh.start fresh.len
            → IsOk result }
    {
        let pages = extents_emptied(storage, emptied);
        let count = records.len() as u32;
        let elements = elements_needed(emptied, pages.count(), count, blanks);
        grow(storage, elements, fresh)?;
        Ok(make(storage, emptied, pages, records, blanks, fresh))
    }
}

// How many elements the change takes, by the number of extents of the subpool that is emptied.
fn elements_needed(emptied: Option<Subpool>, extents: u32, records: u32, blanks: u32) -> u32
    requires few { extents ≤ 2 ^ 29 }
    requires size { records + blanks ≤ 2 ^ 20 }
    ensures { (m : Subpools) → extents ≡ length (emptied_extents m emptied)
        → result ≡ elements_for m emptied records blanks }
{
    match emptied {
        Some(_) => 2 + 2 * extents + (records + blanks),
        None => records + blanks,
    }
}

// The extents of the subpool that is emptied; none if none is.
fn extents_emptied(storage: &Parts, emptied: Option<Subpool>) -> Extents
    requires { Stand storage.now }
    ensures extents { IsExtents storage.now.elements result }
    ensures runs { extents storage.now.elements result ≡ emptied_extents (state_of storage.now).subpools emptied }
    ensures few { length (extents storage.now.elements result) ≤ 2 ^ 29 }
{
    extents_are_few();
    match emptied {
        Some(subpool) => storage.subpools.extents(&storage.elements, subpool),
        None => Extents::new(),
    }
}

// This many elements are spare, and a frame and a table for each page of the run.
pub(crate) fn grow(storage: &mut Parts, elements: u32, fresh: Run) -> Result<(), AllocError>
    requires segments { (page : ℕ) → inside page fresh ≡ true → IsTrue (has_segment storage.old.region page) }
    ensures grown { Grown storage.old storage.new }
    ensures more { storage.old.elements.spare ≤ storage.new.elements.spare }
    ensures live { live_count storage.new.elements ≡ live_count storage.old.elements }
    ensures made { MakesElements storage.old.elements storage.new.elements elements }
    ensures made_for_pages { MakesForPages storage.old.region storage.new.region fresh }
    ensures elements { OnOk result (elements ≤ storage.new.elements.spare) }
    ensures frames { OnOk result (fresh.len ≤ storage.new.region.spare) }
    ensures tables { OnOk result (HaveTables storage.new.region fresh.start fresh.len) }
    ensures needless { elements ≤ storage.old.elements.spare → fresh.len ≤ storage.old.region.spare
        → HaveTables storage.old.region fresh.start fresh.len → IsOk result }
{
    storage.elements.reserve(elements)?;
    storage.region.reserve_frames(fresh.len)?;
    storage.region.reserve_segments(fresh.start, fresh.len)?;
    Ok(())
}

// The change, made of what is spare.
fn make(
    storage: &mut Parts,
    emptied: Option<Subpool>,
    pages: Extents,
    records: &[Record],
    blanks: u32,
    fresh: Run,
) -> Change
    requires stands { Stand storage.old }
    requires once { (i : ℕ) → hold storage.old i ≤ 1 }
    requires frameless { IsFrameless storage.old }
    requires there { IfSome emptied (λ p. is_there (state_of storage.old).subpools p ≡ true) }
    requires extents { IsExtents storage.old.elements pages }
    requires runs { extents storage.old.elements pages ≡ emptied_extents (state_of storage.old).subpools emptied }
    requires few { length (extents storage.old.elements pages) ≤ 2 ^ 29 }
    requires size { length records.now + blanks ≤ 2 ^ 20 }
    requires spare { elements_for (state_of storage.old).subpools emptied (length records.now) blanks
        ≤ storage.old.elements.spare }
    requires range { fresh.start + fresh.len ≤ 2 ^ 20 }
    requires spare_frames { fresh.len ≤ storage.old.region.spare }
    requires tables { HaveTables storage.old.region fresh.start fresh.len }
    requires unassigned { (page : ℕ) → inside page fresh ≡ true → (state_of storage.old).unassigned page ≡ true }
    ensures reserves { Reserves storage.old
        (change_from (state_of storage.old).subpools emptied records.now blanks fresh) result storage.new }
    ensures frames { length result.frames ≡ fresh.len }
    ensures spare { storage.new.elements.spare
        + elements_for (state_of storage.old).subpools emptied (length records.now) blanks
        ≡ storage.old.elements.spare }
    ensures as_many { made storage.new.elements ≡ made storage.old.elements }
    ensures as_many_frames { storage.new.region.made ≡ storage.old.region.made }
    ensures tables { SameTables storage.old.region storage.new.region }
{
    subpools_are_there();
    let records = take_records(&mut storage.elements, emptied, pages, records);
    let blanks = pages.count() + blanks;
    storage.elements.set_aside(blanks);
    let parked = park_empty(&mut storage.elements, emptied);
    let frames = storage.region.park_zeros(fresh.start, fresh.len);
    Change {
        records,
        blanks,
        frames,
        parked,
    }
}

// An empty subpool of this name; none if none is emptied.
fn park_empty(elements: &mut Elements, emptied: Option<Subpool>) -> SubpoolStorage
    requires range { IfSome emptied (λ p. (1 ≤ p.owner) × (p.owner ≤ 64) × (p.number ≤ 127)) }
    requires room { IfSome emptied (λ _. 0 < elements.old.spare) }
    ensures stands { Stands elements.new result }
    ensures subpools { subpools_of elements.new result ≡ parked_under emptied }
    ensures moves { Moves elements.old elements.new (λ i. 0) (λ i. held_parked elements.new result i) }
    ensures spare { elements.new.spare + length (emptying emptied []) ≡ elements.old.spare }
    ensures as_many { made_and_aside elements.new ≡ made_and_aside elements.old }
{
    let mut parked = SubpoolStorage::new();
    if let Some(subpool) = emptied {
        parked.create(elements, subpool);
    }
    parked
}
