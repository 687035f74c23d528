//! The tasks of a subtree that ends, and their records.

ghost use Rattle.std.specs.Prelude.{◌≡◌, ℕ, ◌<◌, ◌≤◌, false, [], ◌∷◌, filter, length, IsOk, OnOk, OnErr};
ghost use Rattle.vsm_model.specs.Search.{is_in};
ghost use Rattle.storage_swap.specs.Storage.{state_of, Stand};
ghost use Rattle.storage_swap.specs.Builder.{IsBuilding, Builds, Pushes};
ghost use Rattle.storage_swap.specs.Growth.{MakesElements};
ghost use Rattle.storage_changes.specs.Ending.{cleared_quarter, is_below_by, ended_below, ended_level, ended_records};
ghost use Rattle.std.specs.List.{flat_map};
ghost use Rattle.task_plans.specs.Parents.{AreParents};
ghost use Rattle.task_plans.specs.Sights.{tasks_below};

use crate::{Builder, Pushed};
use arrayvec::ArrayVec;
use storage_changes::{Record, RegistersRecord, TaskRecord};
use storage_swap::Parts;
use task_tree::laws::trees_stand;
use vsm_model::geometry::TASKS_END;

/// The most steps from a task of the 64 to the first.
const MOST_STEPS: u8 = 63;

/// The value for no task.
const NOBODY: u8 = 255;

/// The parent of each task, read once: 0 for the first, and `NOBODY` if no such task exists.
#[derive(Clone, Copy)]
pub(crate) struct Parents {
    of: [u8; 65],
}

/// A tree of tasks that ends: the task at its top, and the parents of all tasks.
#[derive(Clone, Copy)]
pub(crate) struct Tree {
    pub(crate) top: u8,
    pub(crate) parents: Parents,
}

/// What ends: a tree of tasks, the tasks of it in ascending order, and what is one more than the highest number at
/// which any task sees a subpool.
#[derive(Drop)]
pub(crate) struct EndOfTasks {
    pub(crate) tree: Tree,
    pub(crate) tasks: ArrayVec<u8, 64>,
    pub(crate) numbers_end: u8,
}

/// The parents of all tasks.
pub(crate) fn read_parents(storage: &Parts) -> Parents
    requires stands { Stand storage.now }
    ensures { AreParents result.of (state_of storage.now).tasks.parents }
{
    trees_stand();
    let mut of = [NOBODY; 65];
    for task in 1..TASKS_END {
        let parent = storage.tasks.parent_of(&storage.elements, task);
        of[usize::from(task)] = parent.unwrap_or(NOBODY);
    }
    Parents { of }
}

// The parent of a task; `None` if no such task exists.
fn parent_in(storage: &Parts, parents: &Parents, task: u8) -> Option<u8>
    requires { AreParents parents.now.of (state_of storage.now).tasks.parents }
    ensures { result ≡ (state_of storage.now).tasks.parents task }
{
    let _tasks = &storage.tasks;
    if task >= TASKS_END {
        return None;
    }
    let parent = parents.of[usize::from(task)];
    if parent == NOBODY { None } else { Some(parent) }
}

// Whether the task is exactly this many steps below the other.
fn is_below_by(storage: &Parts, tree: &Tree, steps: u8, task: u8) -> bool
    requires { AreParents tree.now.parents.of (state_of storage.now).tasks.parents }
    ensures { result ≡ is_below_by (state_of storage.now).tasks.parents tree.now.top steps task }
{
    let mut above = task;
    for _ in 0..steps {
        match parent_in(storage, &tree.parents, above) {
            Some(parent) => above = parent,
            None => return false,
        }
    }
    above == tree.top
}

// The most steps, up to 63, by which the task is below the top; 0 if it isn't below it.
fn most_steps_below(storage: &Parts, tree: &Tree, task: u8) -> u8
    requires { AreParents tree.now.parents.of (state_of storage.now).tasks.parents }
    ensures range { result ≤ 63 }
    ensures rest { (steps : ℕ) → result < steps → steps ≤ 63
        → is_below_by (state_of storage.now).tasks.parents tree.now.top steps task ≡ false }
{
    let mut most = 0;
    let mut above = task;
    for done in 0..MOST_STEPS {
        match parent_in(storage, &tree.parents, above) {
            Some(parent) => above = parent,
            None => return most,
        }
        if above == tree.top {
            most = done + 1;
        }
    }
    most
}

// The most steps by which any task is below the top.
fn deepest(storage: &Parts, tree: &Tree) -> u8
    requires { AreParents tree.now.parents.of (state_of storage.now).tasks.parents }
    ensures range { result ≤ 63 }
    ensures rest { (steps : ℕ) → result < steps → steps ≤ 63
        → ended_level (state_of storage.now).tasks.parents tree.now.top steps ≡ [] }
{
    let mut most = 0;
    for task in 1..TASKS_END {
        most = most.max(most_steps_below(storage, tree, task));
    }
    most
}

/// Whether the task is among those of the subtree.
pub(crate) fn is_ended(storage: &Parts, tree: &Tree, task: u8) -> bool
    requires { AreParents tree.now.parents.of (state_of storage.now).tasks.parents }
    ensures { result ≡ is_in (ended_below (state_of storage.now).tasks.parents tree.now.top) task }
{
    if task == 0 || task >= TASKS_END {
        return false;
    }
    let mut above = task;
    for _ in 0..MOST_STEPS {
        if above == tree.top {
            return true;
        }
        match parent_in(storage, &tree.parents, above) {
            Some(parent) => above = parent,
            None => return false,
        }
    }
    above == tree.top
}

/// The tasks of the subtree, in ascending order.
pub(crate) fn tasks_that_end(storage: &Parts, tree: &Tree) -> ArrayVec<u8, 64>
    requires { AreParents tree.now.parents.of (state_of storage.now).tasks.parents }
    ensures { result.items ≡ tasks_below (state_of storage.now) tree.now.top }
{
    let mut tasks = ArrayVec::new();
    for task in 1..TASKS_END {
        if is_ended(storage, tree, task) {
            tasks.push(task);
        }
    }
    tasks
}

// Four registers of a task become zeros: a quarter of its sixteen.
fn push_quarter(storage: &mut Parts, builder: &mut Builder, task: u8, quarter: u8) -> Pushed
    requires building { IsBuilding storage.old builder.old }
    requires quarter { quarter < 4 }
    ensures builds { Builds storage.old builder.old storage.new builder.new }
    ensures ok { OnOk result (Pushes storage.old builder.old
        (cleared_quarter task quarter ∷ []) storage.new builder.new) }
    ensures made { OnErr result (MakesElements storage.old.elements storage.new.elements 1) }
    ensures needless { 0 < storage.old.elements.spare → IsOk result }
{
    let cleared = Record::Registers(RegistersRecord {
        task,
        first: 4 * quarter,
        words: [0; 4],
    });
    builder.push(storage, cleared)
}

// The registers of a task become zeros, and it is gone.
fn push_ended_task(storage: &mut Parts, builder: &mut Builder, task: u8) -> Pushed
    requires { IsBuilding storage.old builder.old }
    ensures builds { Builds storage.old builder.old storage.new builder.new }
    ensures ok { OnOk result (Pushes storage.old builder.old
        (ended_records (state_of storage.old) task) storage.new builder.new) }
    ensures made { OnErr result (MakesElements storage.old.elements storage.new.elements
        (length (ended_records (state_of storage.old) task))) }
    ensures needless { length (ended_records (state_of storage.old) task) ≤ storage.old.elements.spare → IsOk result }
{
    let parent = storage
        .tasks
        .parent_of(&storage.elements, task)
        .unwrap_or(0);
    for quarter in 0..4 {
        push_quarter(storage, builder, task, quarter)?;
    }
    let gone = Record::Task(TaskRecord {
        task,
        parent,
        present: false,
    });
    builder.push(storage, gone)
}

// The task is gone, if it is this many steps below the other.
fn push_ended_at(
    storage: &mut Parts,
    builder: &mut Builder,
    tree: &Tree,
    steps: u8,
    task: u8,
) -> Pushed
    requires building { IsBuilding storage.old builder.old }
    requires tree { AreParents tree.now.parents.of (state_of storage.old).tasks.parents }
    ensures builds { Builds storage.old builder.old storage.new builder.new }
    ensures ok { OnOk result (Pushes storage.old builder.old (flat_map (ended_records (state_of storage.old))
        (filter (is_below_by (state_of storage.old).tasks.parents tree.now.top steps) (task ∷ [])))
        storage.new builder.new) }
    ensures made { OnErr result (MakesElements storage.old.elements storage.new.elements
        (length (flat_map (ended_records (state_of storage.old)) (filter (is_below_by (state_of
        storage.old).tasks.parents tree.now.top steps) (task ∷ []))))) }
    ensures needless { length (flat_map (ended_records (state_of storage.old))
        (filter (is_below_by (state_of storage.old).tasks.parents tree.now.top steps) (task ∷ [])))
        ≤ storage.old.elements.spare → IsOk result }
{
    if is_below_by(storage, tree, steps, task) {
        return push_ended_task(storage, builder, task);
    }
    Ok(())
}

// The tasks that are this many steps below the other are gone.
fn push_ended_level(storage: &mut Parts, builder: &mut Builder, tree: &Tree, steps: u8) -> Pushed
    requires building { IsBuilding storage.old builder.old }
    requires tree { AreParents tree.now.parents.of (state_of storage.old).tasks.parents }
    ensures builds { Builds storage.old builder.old storage.new builder.new }
    ensures ok { OnOk result (Pushes storage.old builder.old (flat_map (ended_records (state_of storage.old))
        (ended_level (state_of storage.old).tasks.parents tree.now.top steps)) storage.new builder.new) }
    ensures made { OnErr result (MakesElements storage.old.elements storage.new.elements
        (length (flat_map (ended_records (state_of storage.old)) (ended_level (state_of storage.old).tasks.parents
        tree.now.top steps)))) }
    ensures needless { length (flat_map (ended_records (state_of storage.old))
        (ended_level (state_of storage.old).tasks.parents tree.now.top steps)) ≤ storage.old.elements.spare
        → IsOk result }
{
    for task in 1..TASKS_END {
        push_ended_at(storage, builder, tree, steps, task)?;
    }
    Ok(())
}

/// The tasks of the subtree are gone, those furthest below its top first.
pub(crate) fn push_ended(storage: &mut Parts, builder: &mut Builder, tree: &Tree) -> Pushed
    requires building { IsBuilding storage.old builder.old }
    requires tree { AreParents tree.now.parents.of (state_of storage.old).tasks.parents }
    ensures builds { Builds storage.old builder.old storage.new builder.new }
    ensures ok { OnOk result (Pushes storage.old builder.old (flat_map (ended_records (state_of storage.old))
        (ended_below (state_of storage.old).tasks.parents tree.now.top)) storage.new builder.new) }
    ensures made { OnErr result (MakesElements storage.old.elements storage.new.elements
        (length (flat_map (ended_records (state_of storage.old)) (ended_below (state_of storage.old).tasks.parents
        tree.now.top)))) }
    ensures needless { length (flat_map (ended_records (state_of storage.old))
        (ended_below (state_of storage.old).tasks.parents tree.now.top)) ≤ storage.old.elements.spare → IsOk result }
{
    let levels = deepest(storage, tree);
    for done in 0..levels {
        push_ended_level(storage, builder, tree, levels - done)?;
    }
    push_ended_level(storage, builder, tree, 0)
}
