//! Changes that create a cell pool.

ghost use Rattle.std.specs.Prelude.{◌≡◌, ℕ, ◌+◌, ◌*◌, ◌^◌, ◌<◌, ◌≤◌, ◌∷◌, true, None, length, option_map, IsTrue, IsOk};
ghost use Rattle.std.specs.Prelude.{IfOk, IfErr};
ghost use Rattle.vsm_elements.specs.Store.{made, live_count, made_and_aside};
ghost use Rattle.vsm_elements.specs.Owners.{Moves};
ghost use Rattle.run_set.specs.Runs.{inside};
ghost use Rattle.raw_region.specs.Pages.{has_segment, HaveTables, SameTables};
ghost use Rattle.subpool_storage.specs.Subpools.{no_subpools, with_new_pool};
ghost use Rattle.subpool_storage.specs.SubpoolStorage.{subpools_of, hold as held_parked, Stands};
ghost use Rattle.storage_changes.specs.Changes.{change_of, change_building};
ghost use Rattle.storage_swap.specs.Storage.{hold, state_of, Stand, IsFrameless};
ghost use Rattle.storage_swap.specs.Growth.{MakesElements, MakesForPages};
ghost use Rattle.storage_swap.specs.Reserve.{Grown, Reserves};
ghost use Rattle.storage_swap.specs.Building.{pool_as, pool_elements, elements_to_build};

use crate::chains::building_records;
use crate::change::Change;
use crate::reserve::grow;
use crate::storage::Parts;
use run_set::Run;
use std::alloc::AllocError;
use storage_changes::Record;
use subpool_storage::laws::pools_are_held;
use subpool_storage::{CellId, CellPoolHeader, CellPoolName, CellSettings, SubpoolStorage};
use vsm_elements::Elements;

/// A cell pool to be created, with its first extent, whose cells are all free.
#[derive(Clone, Copy)]
pub struct ReservedCellPool<'a> {
    pub name: &'a CellPoolName,
    pub settings: CellSettings,
    pub header: &'a Option<CellPoolHeader>,
    /// The address of its first cell.
    pub start: u32,
    /// How many cells it has.
    pub count: u32,
}

impl Change {
    /// A change of these records after one that creates a new cell pool, with its first extent, under the id that is
    /// returned. It has this many blank elements, and frames of zeros for the pages of a run. The state of the storage
    /// stays as it is.
    ///
    /// Each call on a queue takes one blank element at most, and one has to be left. The run is in pages of 4,096
    /// bytes, and each of them has to be unassigned.
    ///
    /// It returns an error if memory is refused. What was made before that stays, as spare elements, spare frames and
    /// tables. If that many elements and frames are spare and the tables exist, it takes no memory. At most a block of
    /// elements is made beyond what is needed, no frame, and a table only for a segment of these pages.
    pub fn reserve_building(
        storage: &mut Parts,
        pool: &ReservedCellPool<'_>,
        records: &[Record],
        blanks: u32,
        fresh: Run,
    ) -> Result<(Change, CellId), AllocError>
        requires stands { Stand storage.old }
        requires once { (i : ℕ) → hold storage.old i ≤ 1 }
        requires frameless { IsFrameless storage.old }
        requires cells { (0 < pool.now.settings.size) × (pool.now.count ≤ 2 ^ 20) }
        requires some { 0 < pool.now.count }
        requires high { pool.now.start + pool.now.count * pool.now.settings.size ≤ 2 ^ 32 }
        requires size { length records.now + blanks ≤ 2 ^ 20 }
        requires range { fresh.start + fresh.len ≤ 2 ^ 20 }
        requires segments { (page : ℕ) → inside page fresh ≡ true → IsTrue (has_segment storage.old.region page) }
        requires unassigned { (page : ℕ) → inside page fresh ≡ true → (state_of storage.old).unassigned page ≡ true }
        ensures ok { IfOk result (λ r. Reserves storage.old
            (change_building (pool_as pool.now r.1) (change_of records.now blanks fresh)) r.0 storage.new) }
        ensures absent { IfOk result (λ r. (state_of storage.old).subpools.cells r.1 ≡ None) }
        ensures small { IfOk result (λ r. r.1 < 2 ^ 32) }
        ensures frames { IfOk result (λ r. length r.0.frames ≡ fresh.len) }
        ensures grown { IfErr result (λ _. Grown storage.old storage.new) }
        ensures uses { IfOk result (λ _. storage.old.elements.spare
            ≤ storage.new.elements.spare + elements_to_build pool.now (length records.now) blanks) }
        ensures live { IfOk result (λ _. live_count storage.new.elements
            ≤ live_count storage.old.elements + elements_to_build pool.now (length records.now) blanks) }
        ensures made { MakesElements storage.old.elements storage.new.elements
            (elements_to_build pool.now (length records.now) blanks) }
        ensures made_for_pages { MakesForPages storage.old.region storage.new.region fresh }
        ensures needless { elements_to_build pool.now (length records.now) blanks ≤ storage.old.elements.spare
            → fresh.len ≤ storage.old.region.spare → HaveTables storage.old.region fresh.start fresh.len
            → IsOk result }
    {
        let cells = 8 + pool.count;
        let count = records.len() as u32;
        grow(storage, cells + 1 + (count + blanks), fresh)?;
        Ok(make_building(storage, pool, records, blanks, fresh))
    }
}

// The change, made of what is spare, and the id of the cell pool.
fn make_building(
    storage: &mut Parts,
    pool: &ReservedCellPool<'_>,
    records: &[Record],
    blanks: u32,
    fresh: Run,
) -> (Change, CellId)
    requires stands { Stand storage.old }
    requires once { (i : ℕ) → hold storage.old i ≤ 1 }
    requires frameless { IsFrameless storage.old }
    requires cells { 0 < pool.now.settings.size }
    requires some { 0 < pool.now.count }
    requires high { pool.now.start + pool.now.count * pool.now.settings.size ≤ 2 ^ 32 }
    requires spare { elements_to_build pool.now (length records.now) blanks ≤ storage.old.elements.spare }
    requires range { fresh.start + fresh.len ≤ 2 ^ 20 }
    requires spare_frames { fresh.len ≤ storage.old.region.spare }
    requires tables { HaveTables storage.old.region fresh.start fresh.len }
    requires unassigned { (page : ℕ) → inside page fresh ≡ true → (state_of storage.old).unassigned page ≡ true }
    ensures reserves { Reserves storage.old
        (change_building (pool_as pool.now result.1) (change_of records.now blanks fresh)) result.0 storage.new }
    ensures absent { (state_of storage.old).subpools.cells result.1 ≡ None }
    ensures frames { length result.0.frames ≡ fresh.len }
    ensures spare { storage.new.elements.spare + elements_to_build pool.now (length records.now) blanks
        ≡ storage.old.elements.spare }
    ensures as_many { made storage.new.elements ≡ made storage.old.elements }
    ensures as_many_frames { storage.new.region.made ≡ storage.old.region.made }
    ensures tables { SameTables storage.old.region storage.new.region }
{
    pools_are_held();
    let (parked, id) = park_pool(&mut storage.elements, pool);
    let records = building_records(&mut storage.elements, id, records);
    storage.elements.set_aside(blanks);
    let frames = storage.region.park_zeros(fresh.start, fresh.len);
    let change = Change {
        records,
        blanks,
        frames,
        parked,
    };
    (change, id)
}

// Only the cell pool, parked, and its id.
fn park_pool(elements: &mut Elements, pool: &ReservedCellPool<'_>) -> (SubpoolStorage, CellId)
    requires cells { 0 < pool.now.settings.size }
    requires some { 0 < pool.now.count }
    requires high { pool.now.start + pool.now.count * pool.now.settings.size ≤ 2 ^ 32 }
    requires room { pool_elements pool.now ≤ elements.old.spare }
    ensures stands { Stands elements.new result.0 }
    ensures subpools { subpools_of elements.new result.0 ≡ with_new_pool no_subpools (pool_as pool.now result.1) }
    ensures moves { Moves elements.old elements.new (λ i. 0) (λ i. held_parked elements.new result.0 i) }
    ensures spares { elements.new.spare + pool_elements pool.now ≡ elements.old.spare }
    ensures as_many { made_and_aside elements.new ≡ made_and_aside elements.old }
{
    let mut parked = SubpoolStorage::new();
    let header = same_header(pool.header);
    let id = parked.build_pool(
        elements,
        pool.name,
        pool.settings,
        header,
        pool.start,
        pool.count,
    );
    (parked, id)
}

// The header again.
fn same_header(header: &Option<CellPoolHeader>) -> Option<CellPoolHeader>
    ensures { option_map (λ h. h.items) result ≡ option_map (λ h. h.items) header.now }
{
    let text = header.as_ref()?;
    let mut same = CellPoolHeader::new();
    let _ = same.try_extend_from_slice(text.as_slice());
    Some(same)
}
