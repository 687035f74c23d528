//! The plan of any service.
ghost use Rattle.std.specs.Prelude.{◌≡◌, ◌≤◌, Bool, IfOk, option_map};
ghost use Rattle.vsm_model.specs.declared.limits.Settings.{Settings};
ghost use Rattle.vsm_model.specs.Meaning.{service_in};
ghost use Rattle.vsm_model.specs.Services.{Service as Asked, obtain, release, whole, run, store, build, get, free};
ghost use Rattle.storage_changes.specs.State.{StorageState};
ghost use Rattle.storage_plans.specs.Plans.{IsPlanned as IsStoragePlanned};
ghost use Rattle.storage_plans.specs.StorePlans.{IsStorePlanned};
ghost use Rattle.task_plans.specs.TaskPlans.{IsAttachPlanned, IsEndPlanned};
ghost use Rattle.cell_plans.specs.CellPlans.{IsBuildPlanned, IsCellPlanned, IsDeletePlanned};
ghost use Rattle.storage_core.specs.Meaning.{state_in_place, settings_of};
ghost use Rattle.storage_core.specs.Planned.{extents_leaving, reply_of, CanBePlanned, IsPlanned};
ghost use Rattle.storage_core.specs.Weight.{weight};

use crate::storage::Storage;
use cell_plans::{BuildPlan, DeletePlan, plan_build, plan_delete, plan_free, plan_get};
use storage_plans::{
    PlanRecords, PlannedStorage, StoragePlan, StorePlan, plan_obtain, plan_release, plan_store,
    plan_whole,
};
use task_plans::{AttachPlan, EndPlan, plan_attach, plan_detach, plan_end_task, plan_run};
use vsm_model::{Build, Cause, Get, Obtain, Release, Reply, Service};

/// What an accepted request will do. It was found by only reading, and nothing has changed yet.
#[derive(Clone, Copy)]
pub enum Plan<'a> {
    /// Storage that is obtained or released, a cell that is given out or returned, or a turn.
    Storage(StoragePlan<'a>),
    /// Bytes that are stored.
    Store(StorePlan<'a>),
    /// A new task, with its subpools.
    Attach(AttachPlan),
    /// Tasks that end.
    End(EndPlan),
    /// A new cell pool.
    Build(BuildPlan<'a>),
    /// A cell pool that is deleted.
    Delete(DeletePlan),
}

impl Plan<'_> {
    /// The reply of the request, once it's carried out.
    pub fn reply(&self) -> Reply
        ensures { result ≡ reply_of self.now }
    {
        match self {
            Plan::Storage(plan) => plan.reply,
            Plan::Store(_) => Reply::Stored,
            Plan::Attach(plan) => Reply::Attached(plan.task),
            Plan::End(plan) => plan.reply,
            Plan::Build(plan) => plan.reply,
            Plan::Delete(_) => Reply::Returned(0),
        }
    }
}

// The plan of a request for storage, or of a turn.
fn storage_planned(planned: PlannedStorage<'_>) -> Result<Plan<'_>, Cause>
    ensures { (settings : Settings) (names_full : Bool) (m : StorageState) (x : Asked)
        → IsStoragePlanned settings names_full m x planned.entry
        → IfOk planned.entry (λ plan. extents_leaving m.subpools plan.emptied ≤ weight m x)
        → IsPlanned settings names_full m x result }
{
    match planned {
        Ok(plan) => Ok(Plan::Storage(plan)),
        Err(cause) => Err(cause),
    }
}

// The plan of bytes that are stored.
fn store_planned(planned: Result<StorePlan<'_>, Cause>) -> Result<Plan<'_>, Cause>
    ensures { (settings : Settings) (names_full : Bool) (m : StorageState) (x : Asked)
        → IsStorePlanned settings names_full m x planned.entry → IsPlanned settings names_full m x result }
{
    match planned {
        Ok(plan) => Ok(Plan::Store(plan)),
        Err(cause) => Err(cause),
    }
}

// The plan of a new task.
fn attach_planned<'a>(planned: Result<AttachPlan, Cause>) -> Result<Plan<'a>, Cause>
    ensures { (settings : Settings) (names_full : Bool) (m : StorageState) (x : Asked)
        → IsAttachPlanned settings names_full m x planned → IsPlanned settings names_full m x result }
{
    match planned {
        Ok(plan) => Ok(Plan::Attach(plan)),
        Err(cause) => Err(cause),
    }
}

// The plan of tasks that end.
fn end_planned<'a>(planned: Result<EndPlan, Cause>) -> Result<Plan<'a>, Cause>
    ensures { (settings : Settings) (names_full : Bool) (m : StorageState) (x : Asked)
        → IsEndPlanned settings names_full m x planned → IsPlanned settings names_full m x result }
{
    match planned {
        Ok(plan) => Ok(Plan::End(plan)),
        Err(cause) => Err(cause),
    }
}

// The plan of a cell that is given out or returned.
fn cell_planned(planned: PlannedStorage<'_>) -> Result<Plan<'_>, Cause>
    ensures { (settings : Settings) (names_full : Bool) (m : StorageState) (x : Asked)
        → IsCellPlanned settings names_full m x planned.entry → IsPlanned settings names_full m x result }
{
    match planned {
        Ok(plan) => Ok(Plan::Storage(plan)),
        Err(cause) => Err(cause),
    }
}

// The plan of a new cell pool.
fn build_planned(planned: Result<BuildPlan<'_>, Cause>) -> Result<Plan<'_>, Cause>
    ensures { (settings : Settings) (names_full : Bool) (m : StorageState) (x : Asked)
        → IsBuildPlanned settings names_full m x planned.entry → IsPlanned settings names_full m x result }
{
    match planned {
        Ok(plan) => Ok(Plan::Build(plan)),
        Err(cause) => Err(cause),
    }
}

// The plan of a cell pool that is deleted.
fn delete_planned<'a>(planned: Result<DeletePlan, Cause>) -> Result<Plan<'a>, Cause>
    ensures { (settings : Settings) (names_full : Bool) (m : StorageState) (x : Asked)
        → IsDeletePlanned settings names_full m x planned → IsPlanned settings names_full m x result }
{
    match planned {
        Ok(plan) => Ok(Plan::Delete(plan)),
        Err(cause) => Err(cause),
    }
}

impl Storage {
    /// A plan for the service, or the first cause that refuses it. `names_full` says that the statement defines a name
    /// for which there is no room. It only reads, and takes no memory. The name of a cell pool has at most 63 bytes,
    /// and its header 24. The plan's records are in `room`, in place of what that had; texts and bytes stay where the
    /// service has them.
    ///
    /// The causes of each service and their order are those of `plan_obtain`, `plan_release`, `plan_whole`,
    /// `plan_store`, `plan_attach`, `plan_detach`, `plan_end_task`, `plan_run`, `plan_build`, `plan_get`, `plan_free`
    /// and `plan_delete`.
    pub fn plan<'a>(
        &self,
        service: Service<'a>,
        names_full: bool,
        room: &'a mut PlanRecords,
    ) -> Result<Plan<'a>, Cause>
        requires { CanBePlanned (service_in service) }
        ensures { IsPlanned (settings_of self.now) names_full (state_in_place self.now) (service_in service.entry)
            result }
    {
        match service {
            Service::Obtain(o) => self.plan_obtain(o, names_full, room),
            Service::Release(r) => self.plan_release(r, room),
            Service::Whole { number } => self.plan_whole(number, room),
            Service::Store { address, bytes } => self.plan_store(address, bytes),
            Service::Attach(a) => attach_planned(plan_attach(&self.parts, a)),
            Service::Detach { task } => end_planned(plan_detach(&self.parts, task)),
            Service::EndTask => end_planned(plan_end_task(&self.parts)),
            Service::Run { task } => self.plan_run(task, room),
            Service::Build {
                name,
                header,
                numbers,
            } => self.plan_build(name, header, numbers, room),
            Service::Get { name, operands } => self.plan_get(name, operands, names_full, room),
            Service::Free { name, cell } => self.plan_free(name, cell, room),
            Service::Delete { name } => delete_planned(plan_delete(&self.parts, name)),
        }
    }

    // Each service with records is planned by a call of its own, so that a statement makes room only for the answer of
    // its service.

    #[inline(never)]
    fn plan_obtain<'a>(
        &self,
        o: Obtain,
        names_full: bool,
        room: &'a mut PlanRecords,
    ) -> Result<Plan<'a>, Cause>
        requires { CanBePlanned (obtain o) }
        ensures { IsPlanned (settings_of self.now) names_full (state_in_place self.now) (obtain o) result }
    {
        storage_planned(plan_obtain(&self.parts, self.settings, o, names_full, room))
    }

    #[inline(never)]
    fn plan_release<'a>(&self, r: Release, room: &'a mut PlanRecords) -> Result<Plan<'a>, Cause>
        ensures { (names_full : Bool)
            → IsPlanned (settings_of self.now) names_full (state_in_place self.now) (release r) result }
    {
        storage_planned(plan_release(&self.parts, self.settings, r, room))
    }

    #[inline(never)]
    fn plan_whole<'a>(&self, number: u32, room: &'a mut PlanRecords) -> Result<Plan<'a>, Cause>
        ensures { (names_full : Bool)
            → IsPlanned (settings_of self.now) names_full (state_in_place self.now) (whole number) result }
    {
        storage_planned(plan_whole(&self.parts, number, room))
    }

    #[inline(never)]
    fn plan_store<'a>(&self, address: u32, bytes: &'a [u8]) -> Result<Plan<'a>, Cause>
        requires { CanBePlanned (store address bytes.now) }
        ensures { (names_full : Bool)
            → IsPlanned (settings_of self.now) names_full (state_in_place self.now) (store address bytes.now) result }
    {
        store_planned(plan_store(&self.parts, address, bytes))
    }

    #[inline(never)]
    fn plan_run<'a>(&self, task: u32, room: &'a mut PlanRecords) -> Result<Plan<'a>, Cause>
        ensures { (names_full : Bool)
            → IsPlanned (settings_of self.now) names_full (state_in_place self.now) (run task) result }
    {
        storage_planned(plan_run(&self.parts, task, room))
    }

    #[inline(never)]
    fn plan_build<'a>(
        &self,
        name: &'a str,
        header: Option<&'a str>,
        numbers: Build,
        room: &'a mut PlanRecords,
    ) -> Result<Plan<'a>, Cause>
        requires { CanBePlanned (build name.now (option_map (λ text. text.now) header) numbers) }
        ensures { (names_full : Bool) → IsPlanned (settings_of self.now) names_full (state_in_place self.now)
            (build name.now (option_map (λ text. text.now) header.entry) numbers) result }
    {
        build_planned(plan_build(&self.parts, self.settings, name, header, numbers, room))
    }

    #[inline(never)]
    fn plan_get<'a>(
        &self,
        name: &str,
        operands: Get,
        names_full: bool,
        room: &'a mut PlanRecords,
    ) -> Result<Plan<'a>, Cause>
        requires { CanBePlanned (get name.now operands) }
        ensures { IsPlanned (settings_of self.now) names_full (state_in_place self.now) (get name.now operands) result }
    {
        cell_planned(plan_get(&self.parts, self.settings, name, operands, names_full, room))
    }

    #[inline(never)]
    fn plan_free<'a>(
        &self,
        name: &str,
        cell: u32,
        room: &'a mut PlanRecords,
    ) -> Result<Plan<'a>, Cause>
        requires { CanBePlanned (free name.now cell) }
        ensures { (names_full : Bool)
            → IsPlanned (settings_of self.now) names_full (state_in_place self.now) (free name.now cell) result }
    {
        cell_planned(plan_free(&self.parts, name, cell, room))
    }
}
