//! Plans of tasks that end.

ghost use Rattle.std.specs.Prelude.{◌≡◌, ℕ, ◌+◌, ◌≤◌, ◌++◌, [], ◌∷◌, Bool, true, length, map, IsOk, OnOk, IfOk};
ghost use Rattle.std.specs.Prelude.{IfErr, OnErr};
ghost use Rattle.std.specs.List.{flat_map};
ghost use Rattle.vsm_elements.specs.Store.{live_count};
ghost use Rattle.vsm_model.specs.declared.limits.Settings.{Settings};
ghost use Rattle.vsm_model.specs.Regions.{settings_valid};
ghost use Rattle.vsm_model.specs.Services.{detach, end_task};
ghost use Rattle.subpool_storage.specs.Extents.{extents};
ghost use Rattle.subpool_storage.specs.Subpools.{no_subpools};
ghost use Rattle.storage_changes.specs.Changes.{unassigned_records, empties};
ghost use Rattle.storage_swap.specs.Storage.{hold, state_of, Stand, IsFrameless};
ghost use Rattle.storage_plans.specs.Places.{StandsSound};
ghost use Rattle.storage_swap.specs.Builder.{parked_in, records_in, IsBuilding, Builds, Pushes};
ghost use Rattle.storage_swap.specs.Growth.{MakesElements};
ghost use Rattle.storage_swap.specs.Reserve.{Grown, Reserves};
ghost use Rattle.storage_changes.specs.Ending.{owned_in, emptying_records, removed};
ghost use Rattle.storage_changes.specs.Ending.{released_records, removed_records, rows_with, sharer_rows, unshared};
ghost use Rattle.storage_changes.specs.Ending.{unshared_records};
ghost use Rattle.task_plans.specs.Sights.{ended_by, row_of, IsEnding};
ghost use Rattle.task_plans.specs.TaskPlans.{end_change, parks_all, ParksAll};
ghost use Rattle.task_plans.specs.TaskPlans.{rest_records, CanBeEnded, CanPark, IsEndPlanned};

use crate::ended::{EndOfTasks, Tree, is_ended, push_ended, read_parents, tasks_that_end};
use crate::sights::{SubpoolInSight, behind_number, first_seen, next_seen};
use crate::{Builder, Pushed};
use run_set::RunSet;
use std::alloc::AllocError;
use storage_changes::tasks::{ending_leads, ends_are_in_order};
use storage_changes::{OwnRecord, PagesRecord, QueuesRecord, Record, SharerRecord, TurnRecord};
use storage_swap::{Change, Parts};
use subpool_storage::SubpoolStorage;
use subpool_storage::laws::{cell_pools_are_named, subpools_are_there};
use task_tree::TreeFault;
use task_tree::laws::trees_stand;
use vsm_model::geometry::LAST_TASK;
use vsm_model::{Cause, Reply, Subpool};

/// A task that ends, with all below it. Nothing is changed yet.
#[derive(Clone, Copy)]
pub struct EndPlan {
    /// The task whose subtree ends.
    pub top: u8,
    /// The task whose turn it is then.
    pub next: u8,
    pub reply: Reply,
}

/// A plan for the end of a subtask of the current task, with all tasks below it (*Assembler Services Reference*,
/// DETACH). The subpools that they own are released and are gone; those that they share stay. Register 15 gets 0. Only
/// reads, and takes no memory.
///
/// The causes that refuse it, in order: `NoTask` if no such task exists, and `NotParent` if the current task isn't its
/// parent.
#[inline(never)]
pub fn plan_detach(storage: &Parts, task: u32) -> Result<EndPlan, Cause>
    requires stands { Stand storage.now }
    ensures { (settings : Settings) (names_full : Bool) → settings_valid settings ≡ true
        → StandsSound settings storage.now
        → IsEndPlanned settings names_full (state_of storage.now) (detach task) result }
{
    trees_stand();
    ends_are_in_order();
    ending_leads();
    cell_pools_are_named();
    if task > LAST_TASK {
        return Err(Cause::NoTask);
    }
    let task = task as u8;
    let current = storage.tasks.current();
    match storage.tasks.check_detach(&storage.elements, current, task) {
        Ok(()) => Ok(EndPlan {
            top: task,
            next: current,
            reply: Reply::Returned(0),
        }),
        Err(TreeFault::NoTask) => Err(Cause::NoTask),
        Err(_) => Err(Cause::NotParent),
    }
}

/// A plan for the end of the current task, the bench's own ENDTASK: the subpools that it owns are released and are
/// gone, those that it shares stay, and its parent makes the requests. Only reads, and takes no memory.
///
/// The causes that refuse it, in order: `HasSubtask`, and `NotParent` for task 1, which has no parent.
#[inline(never)]
pub fn plan_end_task(storage: &Parts) -> Result<EndPlan, Cause>
    requires stands { Stand storage.now }
    ensures { (settings : Settings) (names_full : Bool) → settings_valid settings ≡ true
        → StandsSound settings storage.now
        → IsEndPlanned settings names_full (state_of storage.now) end_task result }
{
    trees_stand();
    ends_are_in_order();
    ending_leads();
    cell_pools_are_named();
    let current = storage.tasks.current();
    match storage.tasks.check_end(&storage.elements, current) {
        Ok(()) => {
            let parent = storage
                .tasks
                .parent_of(&storage.elements, current)
                .unwrap_or(0);
            Ok(EndPlan {
                top: current,
                next: parent,
                reply: Reply::Turn(parent),
            })
        }
        Err(fault) => match fault {
            TreeFault::HasSubtasks => Err(Cause::HasSubtask),
            TreeFault::NoTask | TreeFault::NotParent | TreeFault::TooMany => Err(Cause::NotParent),
        },
    }
}

impl EndPlan {
    /// The change: for each subpool of the subtree's tasks two records, one more for each of its extents and of its
    /// sharers, and an empty one that is parked under its name; one record for each subpool that they share; and
    /// five for each task. The state of the storage stays as it is.
    ///
    /// `AllocError` if memory is refused: what was made before that stays, as spare elements. If as many elements are
    /// spare as it parks subpools and has records and blank elements, it takes no memory. It uses at most that many. At
    /// most a block of elements is made beyond these, whatever the result, and no frame.
    pub fn reserve(self, storage: &mut Parts) -> Result<Change, AllocError>
        requires stands { Stand storage.old }
        requires once { (i : ℕ) → hold storage.old i ≤ 1 }
        requires frameless { IsFrameless storage.old }
        requires can { CanBeEnded (state_of storage.old) self }
        ensures ok { IfOk result (λ change.
            Reserves storage.old (end_change (state_of storage.old) self) change storage.new) }
        ensures frames { IfOk result (λ change. length change.frames ≡ 0) }
        ensures grown { IfErr result (λ _. Grown storage.old storage.new) }
        ensures needless { let d = end_change (state_of storage.old) self in
            length (parks_all (state_of storage.old) self.top) + (length d.records + d.blanks)
            ≤ storage.old.elements.spare → IsOk result }
        ensures uses { IfOk result (λ _. let d = end_change (state_of storage.old) self in
            storage.old.elements.spare ≤ storage.new.elements.spare
            + (length (parks_all (state_of storage.old) self.top) + (length d.records + d.blanks))) }
        ensures live { IfOk result (λ _. let d = end_change (state_of storage.old) self in
            live_count storage.new.elements ≤ live_count storage.old.elements
            + (length (parks_all (state_of storage.old) self.top) + (length d.records + d.blanks))) }
        ensures made { let d = end_change (state_of storage.old) self in
            MakesElements storage.old.elements storage.new.elements
            (length (parks_all (state_of storage.old) self.top) + (length d.records + d.blanks)) }
        ensures same_frames { storage.new.region ≡ storage.old.region }
    {
        let mut builder = Builder::new();
        match self.push_records(storage, &mut builder) {
            Ok(blanks) => builder.finish(storage, blanks),
            Err(refused) => {
                builder.discard(storage);
                Err(refused)
            }
        }
    }

    // The records of the change, in their order, and the subpools that it parks. Returns how many blank elements it
    // has.
    fn push_records(self, storage: &mut Parts, builder: &mut Builder) -> Result<u32, AllocError>
        requires building { IsBuilding storage.old builder.old }
        requires empty { records_in storage.old builder.old ≡ [] }
        requires none { parked_in storage.old builder.old ≡ no_subpools }
        requires can { CanBeEnded (state_of storage.old) self }
        ensures builds { Builds storage.old builder.old storage.new builder.new }
        ensures records { OnOk result (records_in storage.new builder.new
            ≡ (end_change (state_of storage.old) self).records) }
        ensures parked { OnOk result (parked_in storage.new builder.new
            ≡ empties (parks_all (state_of storage.old) self.top)) }
        ensures blanks { IfOk result (λ n. n ≡ (end_change (state_of storage.old) self).blanks) }
        ensures spare { OnOk result (storage.old.elements.spare
            ≤ storage.new.elements.spare + (length (parks_all (state_of storage.old) self.top)
            + length (end_change (state_of storage.old) self).records)) }
        ensures live { OnOk result (live_count storage.new.elements
            ≤ live_count storage.old.elements + (length (parks_all (state_of storage.old) self.top)
            + length (end_change (state_of storage.old) self).records)) }
        ensures made { MakesElements storage.old.elements storage.new.elements
            (length (parks_all (state_of storage.old) self.top)
            + length (end_change (state_of storage.old) self).records) }
        ensures needless { length (parks_all (state_of storage.old) self.top)
            + length (end_change (state_of storage.old) self).records ≤ storage.old.elements.spare → IsOk result }
    {
        let tree = Tree {
            top: self.top,
            parents: read_parents(storage),
        };
        let ending = EndOfTasks {
            tree,
            tasks: tasks_that_end(storage, &tree),
            numbers_end: storage.subpools.numbers_end(&storage.elements),
        };
        park_owned(storage, builder, &ending)?;
        push_released(storage, builder, &ending)?;
        builder.push(storage, Record::Turn(TurnRecord { task: self.next }))?;
        let blanks = builder.count();
        self.push_rest(storage, builder, &ending)?;
        Ok(blanks)
    }

    // The records after the turn.
    fn push_rest(self, storage: &mut Parts, builder: &mut Builder, ending: &EndOfTasks) -> Pushed
        requires building { IsBuilding storage.old builder.old }
        requires ending { IsEnding (state_of storage.old) ending.now }
        requires top { ending.now.tree.top ≡ self.top }
        ensures builds { Builds storage.old builder.old storage.new builder.new }
        ensures ok { OnOk result (Pushes storage.old builder.old
            (rest_records (state_of storage.old) self) storage.new builder.new) }
        ensures made { OnErr result (MakesElements storage.old.elements storage.new.elements
            (length (rest_records (state_of storage.old) self))) }
        ensures needless { length (rest_records (state_of storage.old) self) ≤ storage.old.elements.spare
            → IsOk result }
    {
        push_unshared(storage, builder, ending)?;
        push_removed(storage, builder, ending)?;
        push_ended(storage, builder, &ending.tree)?;
        match self.reply {
            Reply::Returned(code) => builder.push_return(storage, self.next, code),
            _ => Ok(()),
        }
    }
}

// An empty subpool is parked under the name of each that a task of the subtree owns.
fn park_owned(storage: &mut Parts, builder: &mut Builder, ending: &EndOfTasks) -> Pushed
    requires building { IsBuilding storage.old builder.old }
    requires ending { IsEnding (state_of storage.old) ending.now }
    requires none { parked_in storage.old builder.old ≡ no_subpools }
    ensures builds { Builds storage.old builder.old storage.new builder.new }
    ensures ok { OnOk result (ParksAll storage.old builder.old (parks_all (state_of storage.old) ending.now.tree.top)
        storage.new builder.new) }
    ensures made { OnErr result (MakesElements storage.old.elements storage.new.elements
        (length (parks_all (state_of storage.old) ending.now.tree.top))) }
    ensures needless { length (parks_all (state_of storage.old) ending.now.tree.top) ≤ storage.old.elements.spare
        → IsOk result }
{
    subpools_are_there();
    let mut place = first_seen();
    while let Some((seen, next)) = next_seen(storage, ending, place) {
        park_one(storage, builder, seen)?;
        place = next;
    }
    Ok(())
}

// One is parked under this name, if the task owns what it sees.
fn park_one(storage: &mut Parts, builder: &mut Builder, seen: SubpoolInSight) -> Pushed
    requires building { IsBuilding storage.old builder.old }
    requires can { CanPark (parked_in storage.old builder.old) (owned_in (row_of seen ∷ [])) }
    ensures builds { Builds storage.old builder.old storage.new builder.new }
    ensures ok { OnOk result (ParksAll storage.old builder.old (owned_in (row_of seen ∷ []))
        storage.new builder.new) }
    ensures made { OnErr result (MakesElements storage.old.elements storage.new.elements
        (length (owned_in (row_of seen ∷ [])))) }
    ensures needless { length (owned_in (row_of seen ∷ [])) ≤ storage.old.elements.spare → IsOk result }
{
    if seen.is_own() {
        return builder.park(storage, seen.subpool);
    }
    Ok(())
}

// The storage of each subpool that a task of the subtree owns moves into the change, and its pages become unassigned.
fn push_released(storage: &mut Parts, builder: &mut Builder, ending: &EndOfTasks) -> Pushed
    requires building { IsBuilding storage.old builder.old }
    requires ending { IsEnding (state_of storage.old) ending.now }
    ensures builds { Builds storage.old builder.old storage.new builder.new }
    ensures ok { OnOk result (Pushes storage.old builder.old (released_records (state_of storage.old).subpools
        (ended_by (state_of storage.old) ending.now)) storage.new builder.new) }
    ensures made { OnErr result (MakesElements storage.old.elements storage.new.elements
        (length (released_records (state_of storage.old).subpools (ended_by (state_of storage.old) ending.now)))) }
    ensures needless { length (released_records (state_of storage.old).subpools
        (ended_by (state_of storage.old) ending.now)) ≤ storage.old.elements.spare → IsOk result }
{
    let mut place = first_seen();
    while let Some((seen, next)) = next_seen(storage, ending, place) {
        push_emptied(storage, builder, seen)?;
        place = next;
    }
    Ok(())
}

// So does that of one, if the task owns what it sees.
fn push_emptied(storage: &mut Parts, builder: &mut Builder, seen: SubpoolInSight) -> Pushed
    requires building { IsBuilding storage.old builder.old }
    ensures builds { Builds storage.old builder.old storage.new builder.new }
    ensures ok { OnOk result (Pushes storage.old builder.old (flat_map
        (emptying_records (state_of storage.old).subpools) (owned_in (row_of seen ∷ []))) storage.new builder.new) }
    ensures made { OnErr result (MakesElements storage.old.elements storage.new.elements
        (length (flat_map (emptying_records (state_of storage.old).subpools) (owned_in (row_of seen ∷ []))))) }
    ensures needless { length (flat_map (emptying_records (state_of storage.old).subpools)
        (owned_in (row_of seen ∷ []))) ≤ storage.old.elements.spare → IsOk result }
{
    if seen.is_own() {
        let subpool = seen.subpool;
        builder.push(storage, Record::Queues(QueuesRecord { subpool }))?;
        return push_extents(storage, builder, subpool);
    }
    Ok(())
}

// The pages of each extent of the subpool become unassigned.
fn push_extents(storage: &mut Parts, builder: &mut Builder, subpool: Subpool) -> Pushed
    requires { IsBuilding storage.old builder.old }
    ensures builds { Builds storage.old builder.old storage.new builder.new }
    ensures ok { OnOk result (Pushes storage.old builder.old
        (unassigned_records (extents (state_of storage.old).subpools subpool)) storage.new builder.new) }
    ensures made { OnErr result (MakesElements storage.old.elements storage.new.elements
        (length (unassigned_records (extents (state_of storage.old).subpools subpool)))) }
    ensures needless { length (unassigned_records (extents (state_of storage.old).subpools subpool))
        ≤ storage.old.elements.spare → IsOk result }
{
    let extents = storage.subpools.extents(&storage.elements, subpool);
    let mut place = RunSet::first_place();
    while let Some((run, next)) = extents.next_run(&storage.elements, place) {
        let leave = Record::Pages(PagesRecord {
            run,
            assigned: false,
        });
        builder.push(storage, leave)?;
        place = next;
    }
    Ok(())
}

// Tasks of the subtree no longer see subpools of others, nor others theirs. Each number is checked once for whether
// anybody shares there; what they see at one at which nobody does is passed at once.
fn push_unshared(storage: &mut Parts, builder: &mut Builder, ending: &EndOfTasks) -> Pushed
    requires building { IsBuilding storage.old builder.old }
    requires ending { IsEnding (state_of storage.old) ending.now }
    ensures builds { Builds storage.old builder.old storage.new builder.new }
    ensures ok { OnOk result (Pushes storage.old builder.old (unshared_records (state_of storage.old).subpools
        (ended_by (state_of storage.old) ending.now)) storage.new builder.new) }
    ensures made { OnErr result (MakesElements storage.old.elements storage.new.elements
        (length (unshared_records (state_of storage.old).subpools (ended_by (state_of storage.old) ending.now)))) }
    ensures needless { length (unshared_records (state_of storage.old).subpools
        (ended_by (state_of storage.old) ending.now)) ≤ storage.old.elements.spare → IsOk result }
{
    subpools_are_there();
    let mut place = first_seen();
    let mut shared = None;
    while let Some((seen, next)) = next_seen(storage, ending, place) {
        let number = seen.subpool.number;
        if shared != Some(number) && !storage.subpools.is_shared(&storage.elements, number) {
            place = behind_number(ending, number);
            continue;
        }
        shared = Some(number);
        push_unseen(storage, builder, ending, seen)?;
        place = next;
    }
    Ok(())
}

// If the task owns what it sees, all tasks that share that no longer see it; otherwise, if the owner stays, the task no
// longer sees it. If the owner ends too, the row is removed with the owner's.
fn push_unseen(
    storage: &mut Parts,
    builder: &mut Builder,
    ending: &EndOfTasks,
    seen: SubpoolInSight,
) -> Pushed
    requires building { IsBuilding storage.old builder.old }
    requires ending { IsEnding (state_of storage.old) ending.now }
    ensures builds { Builds storage.old builder.old storage.new builder.new }
    ensures ok { OnOk result (Pushes storage.old builder.old (map unshared (rows_with (state_of storage.old).subpools
        (ended_by (state_of storage.old) ending.now) (row_of seen))) storage.new builder.new) }
    ensures made { OnErr result (MakesElements storage.old.elements storage.new.elements
        (length (map unshared (rows_with (state_of storage.old).subpools (ended_by (state_of storage.old)
        ending.now) (row_of seen))))) }
    ensures needless { length (map unshared (rows_with (state_of storage.old).subpools
        (ended_by (state_of storage.old) ending.now) (row_of seen))) ≤ storage.old.elements.spare
        → IsOk result }
{
    if seen.is_own() {
        return push_sharers(storage, builder, seen.subpool);
    }
    if is_ended(storage, &ending.tree, seen.subpool.owner) {
        return Ok(());
    }
    builder.push(storage, unseen(seen.subpool, seen.task))
}

// The tasks that share the subpool no longer see it.
fn push_sharers(storage: &mut Parts, builder: &mut Builder, subpool: Subpool) -> Pushed
    requires building { IsBuilding storage.old builder.old }
    ensures builds { Builds storage.old builder.old storage.new builder.new }
    ensures ok { OnOk result (Pushes storage.old builder.old
        (map unshared (sharer_rows (state_of storage.old).subpools subpool)) storage.new builder.new) }
    ensures made { OnErr result (MakesElements storage.old.elements storage.new.elements
        (length (map unshared (sharer_rows (state_of storage.old).subpools subpool)))) }
    ensures needless { length (map unshared (sharer_rows (state_of storage.old).subpools subpool))
        ≤ storage.old.elements.spare → IsOk result }
{
    let mut place = SubpoolStorage::first_sharer_place();
    while let Some((task, next)) = storage
        .subpools
        .next_sharer(&storage.elements, subpool, place)
    {
        builder.push(storage, unseen(subpool, task))?;
        place = next;
    }
    Ok(())
}

// The record by which a task no longer sees a subpool.
fn unseen(subpool: Subpool, task: u8) -> Record
    ensures { result ≡ unshared (subpool, task) }
{
    Record::Sharer(SharerRecord {
        subpool,
        task,
        present: false,
    })
}

// The subpools that tasks of the subtree own are gone.
fn push_removed(storage: &mut Parts, builder: &mut Builder, ending: &EndOfTasks) -> Pushed
    requires building { IsBuilding storage.old builder.old }
    requires ending { IsEnding (state_of storage.old) ending.now }
    ensures builds { Builds storage.old builder.old storage.new builder.new }
    ensures ok { OnOk result (Pushes storage.old builder.old (removed_records (state_of storage.old).subpools
        (ended_by (state_of storage.old) ending.now)) storage.new builder.new) }
    ensures made { OnErr result (MakesElements storage.old.elements storage.new.elements
        (length (removed_records (state_of storage.old).subpools (ended_by (state_of storage.old) ending.now)))) }
    ensures needless { length (removed_records (state_of storage.old).subpools
        (ended_by (state_of storage.old) ending.now)) ≤ storage.old.elements.spare → IsOk result }
{
    let mut place = first_seen();
    while let Some((seen, next)) = next_seen(storage, ending, place) {
        push_gone(storage, builder, seen)?;
        place = next;
    }
    Ok(())
}

// So is one, if the task owns what it sees.
fn push_gone(storage: &mut Parts, builder: &mut Builder, seen: SubpoolInSight) -> Pushed
    requires building { IsBuilding storage.old builder.old }
    ensures builds { Builds storage.old builder.old storage.new builder.new }
    ensures ok { OnOk result (Pushes storage.old builder.old (map removed (owned_in (row_of seen ∷ [])))
        storage.new builder.new) }
    ensures made { OnErr result (MakesElements storage.old.elements storage.new.elements
        (length (map removed (owned_in (row_of seen ∷ []))))) }
    ensures needless { length (map removed (owned_in (row_of seen ∷ []))) ≤ storage.old.elements.spare
        → IsOk result }
{
    if seen.is_own() {
        let gone = Record::Own(OwnRecord {
            subpool: seen.subpool,
            present: false,
        });
        return builder.push(storage, gone);
    }
    Ok(())
}
