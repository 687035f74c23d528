//! Plans of CPOOL DELETE.
ghost use Rattle.std.specs.Prelude.{◌≡◌, ℕ, ◌+◌, ◌≤◌, true, Bool, length, IsOk, OnOk, OnErr, IfOk, IfErr};
ghost use Rattle.vsm_elements.specs.Store.{live_count};
ghost use Rattle.vsm_model.specs.declared.limits.Settings.{Settings};
ghost use Rattle.vsm_model.specs.Regions.{settings_valid};
ghost use Rattle.vsm_model.specs.Services.{delete};
ghost use Rattle.storage_swap.specs.Storage.{hold, state_of, Stand, IsFrameless};
ghost use Rattle.storage_plans.specs.Places.{StandsSound};
ghost use Rattle.storage_swap.specs.Builder.{IsBuilding, Builds};
ghost use Rattle.storage_swap.specs.Growth.{MakesElements};
ghost use Rattle.storage_swap.specs.Reserve.{Grown, Reserves};
ghost use Rattle.cell_plans.specs.CellPlans.{delete_change, CanBeDeleted, IsDeletePlanned};
ghost use Rattle.cell_plans.specs.Noted.{PushesBeside};

use crate::giving_back::{Count, push_extents};
use crate::seen::find_seen;
use cell_pool::CellId;
use service_laws::cells::cell_pools_stay_well_formed;
use std::alloc::AllocError;
use storage_changes::cells::deleting_leads;
use storage_changes::{CellPoolRecord, Record};
use storage_swap::{Change, ChangeBuilder, Parts};
use subpool_storage::laws::cell_pools_are_named;
use vsm_model::Cause;

/// A cell pool to be deleted, with its extents. Nothing is changed yet.
#[derive(Clone, Copy)]
pub struct DeletePlan {
    pub pool: CellId,
}

/// A plan for the deletion of a cell pool (*Assembler Services Reference*, CPOOL DELETE): each of its extents is given
/// back, including cells in use, and the pages that are left without a taken doubleword leave the subpool. Register 15
/// gets 0. Only reads, and takes no memory.
///
/// The cause that refuses it: `NoCellPool` if no cell pool of the name exists or the current task doesn't see its
/// subpool.
#[inline(never)]
pub fn plan_delete(storage: &Parts, name: &str) -> Result<DeletePlan, Cause>
    requires stands { Stand storage.now }
    requires name { length name.now ≤ 63 }
    ensures { (settings : Settings) (names_full : Bool) → settings_valid settings ≡ true
        → StandsSound settings storage.now
        → IsDeletePlanned settings names_full (state_of storage.now) (delete name.now) result }
{
    deleting_leads();
    cell_pools_stay_well_formed();
    cell_pools_are_named();
    Ok(DeletePlan {
        pool: find_seen(storage, name)?,
    })
}

impl DeletePlan {
    /// The change: a record for the cell pool, and up to four for each of its extents, which is given back with the
    /// pages that it empties once those before it are given back; one for register 15 if it isn't 0; and four blank
    /// elements for each extent, and one more. The state of the storage stays as it is.
    ///
    /// `AllocError` if memory is refused: what was made before that stays, as spare elements. At most as many spare
    /// elements are used as it has records and blank elements; if that many are spare, it takes no memory. At most a
    /// block of elements is made beyond these, whatever the result, and no frame.
    pub fn reserve(self, storage: &mut Parts) -> Result<Change, AllocError>
        requires stands { Stand storage.old }
        requires once { (i : ℕ) → hold storage.old i ≤ 1 }
        requires frameless { IsFrameless storage.old }
        requires can { CanBeDeleted (state_of storage.old) self }
        ensures ok { IfOk result (λ change.
            Reserves storage.old (delete_change (state_of storage.old) self) change storage.new) }
        ensures frames { IfOk result (λ change. length change.frames ≡ 0) }
        ensures grown { IfErr result (λ _. Grown storage.old storage.new) }
        ensures uses { IfOk result (λ _. let d = delete_change (state_of storage.old) self in
            storage.old.elements.spare ≤ storage.new.elements.spare + (length d.records + d.blanks)) }
        ensures live { IfOk result (λ _. let d = delete_change (state_of storage.old) self in
            live_count storage.new.elements ≤ live_count storage.old.elements + (length d.records + d.blanks)) }
        ensures made { let d = delete_change (state_of storage.old) self in
            MakesElements storage.old.elements storage.new.elements (length d.records + d.blanks) }
        ensures same_frames { storage.new.region ≡ storage.old.region }
        ensures needless { let d = delete_change (state_of storage.old) self in
            length d.records + d.blanks ≤ storage.old.elements.spare → IsOk result }
    {
        let mut builder = ChangeBuilder::new();
        match self.push_records(storage, &mut builder) {
            Ok(blanks) => builder.finish(storage, blanks),
            Err(refused) => {
                builder.discard(storage);
                Err(refused)
            }
        }
    }

    // The records of the change, in their order. Returns how many blank elements it has.
    fn push_records(self, storage: &mut Parts, builder: &mut ChangeBuilder) -> Count
        requires building { IsBuilding storage.old builder.old }
        requires can { CanBeDeleted (state_of storage.old) self }
        ensures builds { Builds storage.old builder.old storage.new builder.new }
        ensures ok { let d = delete_change (state_of storage.old) self in
            OnOk result (PushesBeside storage.old builder.old d.records 0 d.blanks storage.new builder.new) }
        ensures blanks { IfOk result (λ n. n ≡ (delete_change (state_of storage.old) self).blanks) }
        ensures made { let d = delete_change (state_of storage.old) self in
            OnErr result (MakesElements storage.old.elements storage.new.elements (length d.records + d.blanks)) }
        ensures needless { let d = delete_change (state_of storage.old) self in
            length d.records + d.blanks ≤ storage.old.elements.spare → IsOk result }
    {
        cell_pools_are_named();
        let current = storage.tasks.current();
        let gone = Record::CellPool(CellPoolRecord {
            pool: self.pool,
            present: false,
        });
        builder.push(storage, gone)?;
        let extents = push_extents(storage, builder, self.pool)?;
        builder.push_return(storage, current, 0)?;
        Ok(4 * extents + 1)
    }
}
