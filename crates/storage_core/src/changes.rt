//! Changes of a storage: made of a plan, exchanged with it, and discarded.
ghost use Rattle.std.specs.Prelude.{◌≡◌, ℕ, ◌+◌, ◌≤◌, length, IsOk, OnErr, IfOk};
ghost use Rattle.vsm_elements.specs.Store.{live_count};
ghost use Rattle.storage_changes.specs.Changes.{Fit, no_pages, overlay};
ghost use Rattle.storage_changes.specs.Meaning.{IsSound};
ghost use Rattle.storage_plans.specs.Plans.{change_in};
ghost use Rattle.storage_swap.specs.Growth.{MakesElements, MakesForPages};
ghost use Rattle.storage_swap.specs.Reserve.{Reserves};
ghost use Rattle.storage_swap.specs.Swap.{means, Ready, Swaps, Discards};
ghost use Rattle.storage_core.specs.Meaning.{state_in_place, settings_of};
ghost use Rattle.storage_core.specs.Planned.{change_for, elements_needed, fresh_pages, pages_assigned};
ghost use Rattle.storage_core.specs.Planned.{storage_elements, CanBeReserved, HasRecords, IsIdFor, IsSpare, IsSpareFor};
ghost use Rattle.storage_core.specs.Reserved.{IsReserved};
ghost use Rattle.storage_core.specs.Stays.{Stays};
ghost use Rattle.storage_core.specs.declared.plans.Plan.TheVariants.{Attach, Delete, End};
ghost use Rattle.cell_plans.specs.CellPlans.{delete_change, CanBeDeleted};
ghost use Rattle.task_plans.specs.TaskPlans.{attach_change, end_change, CanBeAttached, CanBeEnded};

use crate::plans::Plan;
use crate::storage::Storage;
use cell_plans::DeletePlan;
use std::alloc::AllocError;
use storage_plans::StoragePlan;
use storage_swap::Change;
use task_plans::{AttachPlan, EndPlan};

impl Storage {
    /// The change that carries out the plan, with all the memory that it needs: elements, and a frame and a place in a
    /// table for each page that becomes assigned. The storage stays as it is, whatever the answer.
    ///
    /// It takes at most 25 elements and its plan's blank ones, and 8 for each extent that leaves with a whole subpool
    /// that is emptied. The change of a store takes at most 17; that of a new task 32, and 4 for each number that it is
    /// given or shares; that of tasks that end 32, and 8 for each task, subpool, extent and row of sight that leaves;
    /// that of a new cell pool 30, and those of its cells; and that of a deleted one 32, and 8 for it and for each of
    /// its extents. These are its records, its blank elements and what it has parked: an element for each empty
    /// subpool, or the elements of a new cell pool. It has exactly as many frames as pages become assigned.
    ///
    /// `AllocError` if memory is refused, which is possible only if fewer elements or frames are spare, or a table is
    /// missing. What was made before that stays, as spare elements and frames and as tables. Whatever the answer, at
    /// most a block of elements is made beyond what the change takes, no frame, and a table only for a segment of the
    /// pages that become assigned.
    pub fn reserve(&mut self, plan: &Plan<'_>) -> Result<Change, AllocError>
        requires { CanBeReserved (state_in_place self.old) plan.now }
        ensures ok { IfOk result (λ change. (id : ℕ) × IsIdFor (state_in_place self.old) plan.now id
            × Reserves self.old.parts (change_for (state_in_place self.old) id plan.now) change self.new.parts) }
        ensures frames { IfOk result (λ change. length change.frames ≡ pages_assigned plan.now) }
        ensures few { IfOk result (λ change. change.records.count + change.blanks
            ≤ elements_needed (state_in_place self.old) plan.now) }
        ensures uses { IfOk result (λ _. self.old.parts.elements.spare
            ≤ self.new.parts.elements.spare + elements_needed (state_in_place self.old) plan.now) }
        ensures live { IfOk result (λ _. live_count self.new.parts.elements
            ≤ live_count self.old.parts.elements + elements_needed (state_in_place self.old) plan.now) }
        ensures made { MakesElements self.old.parts.elements self.new.parts.elements
            (elements_needed (state_in_place self.old) plan.now) }
        ensures made_for_pages { MakesForPages self.old.parts.region self.new.parts.region (fresh_pages plan.now) }
        ensures err { OnErr result (Stays self.old.parts self.new.parts) }
        ensures needless { IsSpare self.old.parts (state_in_place self.old) plan.now → IsOk result }
        ensures settings { settings_of self.new ≡ settings_of self.old }
    {
        match *plan {
            Plan::Storage(plan) => self.reserve_storage(plan),
            Plan::Store(plan) => self.reserve_store(plan),
            Plan::Attach(plan) => self.reserve_attach(plan),
            Plan::End(plan) => self.reserve_end(plan),
            Plan::Build(plan) => self.reserve_building(plan),
            Plan::Delete(plan) => self.reserve_delete(plan),
        }
    }

    // The change of a request for storage, or of a turn.
    fn reserve_storage(&mut self, plan: StoragePlan<'_>) -> Result<Change, AllocError>
        requires { HasRecords (state_in_place self.old) plan }
        ensures { IsReserved self.old (change_in (state_in_place self.old) plan.entry)
            (storage_elements (state_in_place self.old) plan.entry) plan.entry.fresh
            (IsSpareFor self.old.parts (storage_elements (state_in_place self.old) plan.entry) plan.entry.fresh)
            self.new result }
    {
        Change::reserve(
            &mut self.parts,
            plan.emptied,
            plan.records.as_slice(),
            plan.blanks,
            plan.fresh,
        )
    }

    // The change of a new task.
    fn reserve_attach(&mut self, plan: AttachPlan) -> Result<Change, AllocError>
        requires { CanBeAttached (state_in_place self.old) plan }
        ensures { IsReserved self.old (attach_change (state_in_place self.old) plan)
            (elements_needed (state_in_place self.old) (Attach plan)) no_pages
            (elements_needed (state_in_place self.old) (Attach plan) ≤ self.old.parts.elements.spare) self.new result }
    {
        plan.reserve(&mut self.parts)
    }

    // The change of tasks that end.
    fn reserve_end(&mut self, plan: EndPlan) -> Result<Change, AllocError>
        requires { CanBeEnded (state_in_place self.old) plan }
        ensures { IsReserved self.old (end_change (state_in_place self.old) plan)
            (elements_needed (state_in_place self.old) (End plan)) no_pages
            (elements_needed (state_in_place self.old) (End plan) ≤ self.old.parts.elements.spare) self.new result }
    {
        plan.reserve(&mut self.parts)
    }

    // The change of a cell pool that is deleted.
    fn reserve_delete(&mut self, plan: DeletePlan) -> Result<Change, AllocError>
        requires { CanBeDeleted (state_in_place self.old) plan }
        ensures { IsReserved self.old (delete_change (state_in_place self.old) plan)
            (elements_needed (state_in_place self.old) (Delete plan)) no_pages
            (elements_needed (state_in_place self.old) (Delete plan) ≤ self.old.parts.elements.spare) self.new result }
    {
        plan.reserve(&mut self.parts)
    }

    /// Exchanges a change with the storage, and leaves in its place its inverse. Takes no memory, and never fails.
    pub fn swap(&mut self, change: &mut Change)
        requires ready { Ready self.old.parts change.old }
        requires fits { Fit (state_in_place self.old) (means self.old.parts.elements change.old) }
        requires sound { ∥ IsSound (settings_of self.old)
            (overlay (state_in_place self.old) (means self.old.parts.elements change.old)) ∥₁ }
        ensures swaps { Swaps self.old.parts change.old self.new.parts change.new }
        ensures settings { settings_of self.new ≡ settings_of self.old }
    {
        change.swap(&mut self.parts);
    }

    /// Discards a change that is no longer needed: its elements and its frames are spare again.
    pub fn discard(&mut self, change: Change)
        requires { Ready self.old.parts change }
        ensures discards { Discards self.old.parts change self.new.parts }
        ensures settings { settings_of self.new ≡ settings_of self.old }
    {
        change.discard(&mut self.parts);
    }
}
