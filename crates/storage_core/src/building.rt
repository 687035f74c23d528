//! The changes that store bytes, and that create a cell pool.
ghost use Rattle.std.specs.Prelude.{◌≡◌, ℕ, None, ◌+◌, ◌^◌, ◌<◌, ◌≤◌, length, IsOk, OnErr, IfOk};
ghost use Rattle.vsm_elements.specs.Store.{live_count};
ghost use Rattle.storage_changes.specs.Changes.{no_pages};
ghost use Rattle.storage_swap.specs.Growth.{MakesElements, MakesForPages};
ghost use Rattle.storage_swap.specs.Reserve.{Reserves};
ghost use Rattle.storage_plans.specs.StorePlans.{store_change, CanBeStored};
ghost use Rattle.cell_plans.specs.CellPlans.{build_change, CanBeBuilt};
ghost use Rattle.storage_core.specs.Meaning.{state_in_place, settings_of};
ghost use Rattle.storage_core.specs.Planned.{IsSpareFor};
ghost use Rattle.storage_core.specs.Reserved.{IsReserved};
ghost use Rattle.storage_core.specs.Stays.{Stays};

use crate::storage::Storage;
use cell_plans::BuildPlan;
use std::alloc::AllocError;
use storage_plans::plan::NO_PAGES;
use storage_plans::{StorePlan, block_records};
use storage_swap::{Change, ReservedCellPool};

impl Storage {
    // The change that stores bytes. Its records are made here, as a plan's room has place for fewer.
    #[inline(never)]
    pub(crate) fn reserve_store(&mut self, plan: StorePlan<'_>) -> Result<Change, AllocError>
        requires { CanBeStored (state_in_place self.old) plan }
        ensures { IsReserved self.old (store_change (state_in_place self.old) plan.entry) 17 no_pages
            (17 ≤ self.old.parts.elements.spare) self.new result }
    {
        let records = block_records(&self.parts, plan.address, plan.bytes);
        Change::reserve(&mut self.parts, None, records.as_slice(), 0, NO_PAGES)
    }

    // The change that creates a cell pool, under an id that no cell pool has.
    pub(crate) fn reserve_building(&mut self, plan: BuildPlan<'_>) -> Result<Change, AllocError>
        requires { CanBeBuilt (state_in_place self.old) plan }
        ensures ok { IfOk result (λ change. (id : ℕ)
            × ((id < 2 ^ 32) × ((state_in_place self.old).subpools.cells id ≡ None))
            × Reserves self.old.parts (build_change plan.entry id) change self.new.parts) }
        ensures frames { IfOk result (λ change. length change.frames ≡ plan.entry.fresh.len) }
        ensures few { IfOk result (λ change. change.records.count + change.blanks ≤ 30) }
        ensures uses { IfOk result (λ _. self.old.parts.elements.spare ≤ self.new.parts.elements.spare
            + (31 + plan.entry.settings.primary)) }
        ensures live { IfOk result (λ _. live_count self.new.parts.elements ≤ live_count self.old.parts.elements
            + (31 + plan.entry.settings.primary)) }
        ensures made { MakesElements self.old.parts.elements self.new.parts.elements
            (31 + plan.entry.settings.primary) }
        ensures made_for_pages { MakesForPages self.old.parts.region self.new.parts.region plan.entry.fresh }
        ensures err { OnErr result (Stays self.old.parts self.new.parts) }
        ensures needless { IsSpareFor self.old.parts
            (31 + plan.entry.settings.primary) plan.entry.fresh → IsOk result }
        ensures settings { settings_of self.new ≡ settings_of self.old }
    {
        let name = plan.pool_name();
        let header = plan.pool_header();
        let pool = ReservedCellPool {
            name: &name,
            settings: plan.settings,
            header: &header,
            start: plan.start,
            count: plan.settings.primary,
        };
        let records = plan.records.as_slice();
        let (change, _) = Change::reserve_building(
            &mut self.parts,
            &pool,
            records,
            plan.blanks,
            plan.fresh,
        )?;
        Ok(change)
    }
}
