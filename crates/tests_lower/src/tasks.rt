//! A tree of six tasks: registers, a subtree that is parked and restored, and tasks that end.

ghost use Rattle.task_tree.specs.TaskTree.{IsTaskTree};

use crate::checks::{holds, same, stocked};
use std::process::Abort;
use std::test::Fail;
use task_tree::laws::{
    a_parent_is_not_below_its_subtask, put_back, root_is_above, trees_stand, trees_stay,
};
use task_tree::{TaskTree, TreeFault};
use vsm_elements::Elements;

fn attach(rt: &impl Abort, elements: &mut Elements, tree: &mut TaskTree, under: u8, want: u8)
    requires { IsTaskTree elements.old tree.old }
    ensures { IsTaskTree elements.new tree.new }
{
    holds!(rt; elements.spare() >= 4);
    holds!(rt; tree.check_run(elements, under).is_ok());
    match tree.check_attach(elements) {
        Ok(number) => {
            same!(rt; number, want);
            tree.attach(elements, under, number);
        }
        Err(_) => assert!(rt; false),
    }
}

fn run(rt: &impl Abort, elements: &Elements, tree: &mut TaskTree, task: u8)
    requires { IsTaskTree elements.now tree.old }
    ensures { IsTaskTree elements.now tree.new }
{
    holds!(rt; tree.check_run(elements, task).is_ok());
    tree.run(elements, task);
}

// Each register of the task gets a word of its own.
fn fill(rt: &impl Abort, elements: &mut Elements, tree: &mut TaskTree, task: u8)
    requires { IsTaskTree elements.old tree.old }
    ensures { IsTaskTree elements.new tree.new }
{
    for r in 0..16u8 {
        holds!(rt; tree.check_run(elements, task).is_ok());
        let word = u32::from(task) * 256 + u32::from(r);
        same!(rt; tree.swap_register(elements, task, r, word), 0);
    }
}

// The tasks are these, with these parents, and each has its words.
fn compare(rt: &impl Abort, elements: &Elements, tree: &TaskTree, tasks: &[(u8, u8)])
    requires { IsTaskTree elements.now tree.now }
{
    let mut i = 0u32;
    for (task, parent) in tasks {
        same!(rt; tree.task_at(elements, i), Some(*task));
        holds!(rt; *task == 1 || tree.check_detach(elements, *parent, *task).is_ok());
        for r in 0..16u8 {
            let word = u32::from(*task) * 256 + u32::from(r);
            same!(rt; tree.register(elements, *task, r), word);
        }
        i = i.saturating_add(1);
    }
    same!(rt; tree.task_at(elements, i), None);
}

// The task and all below it are parked and restored; these tasks remain in between.
fn out_and_in(
    rt: &impl Abort,
    elements: &mut Elements,
    tree: &mut TaskTree,
    task: u8,
    rest: &[(u8, u8)],
)
    requires { IsTaskTree elements.old tree.old }
    ensures { IsTaskTree elements.new tree.new }
{
    holds!(rt; task != 1);
    holds!(rt; tree.current() == 1);
    holds!(rt; tree.check_run(elements, task).is_ok());
    root_is_above();
    trees_stand();
    let parked = tree.park_subtree(elements, task);
    compare(rt, elements, tree, rest);
    put_back();
    tree.restore_tasks(elements, parked);
}

// The current task detaches its subtask, with all below that, which are then restored; these remain in between.
fn detached(
    rt: &impl Abort,
    elements: &mut Elements,
    tree: &mut TaskTree,
    task: u8,
    rest: &[(u8, u8)],
)
    requires { IsTaskTree elements.old tree.old }
    ensures { IsTaskTree elements.new tree.new }
{
    let caller = tree.current();
    holds!(rt; task != 1);
    holds!(rt; tree.check_detach(elements, caller, task).is_ok());
    a_parent_is_not_below_its_subtask();
    root_is_above();
    trees_stand();
    let parked = tree.park_subtree(elements, task);
    compare(rt, elements, tree, rest);
    put_back();
    tree.restore_tasks(elements, parked);
    holds!(rt; tree.current() == caller);
}

// The task ends, with all below it.
fn end(rt: &impl Abort, elements: &mut Elements, tree: &mut TaskTree, task: u8)
    requires { IsTaskTree elements.old tree.old }
    ensures { IsTaskTree elements.new tree.new }
{
    holds!(rt; task != 1);
    holds!(rt; tree.current() == 1);
    holds!(rt; tree.check_run(elements, task).is_ok());
    root_is_above();
    let parked = tree.park_subtree(elements, task);
    trees_stay();
    parked.discard(elements);
}

// The task ends, with none below it.
fn end_alone(rt: &impl Abort, elements: &mut Elements, tree: &mut TaskTree, task: u8)
    requires { IsTaskTree elements.old tree.old }
    ensures { IsTaskTree elements.new tree.new }
{
    holds!(rt; task > 1);
    holds!(rt; tree.current() == 1);
    holds!(rt; tree.check_run(elements, task).is_ok());
    holds!(rt; tree.check_end(elements, task).is_ok());
    tree.end_task(elements, task);
}

// The six tasks, each with its parent.
const ALL: [(u8, u8); 6] = [(1, 0), (2, 1), (3, 2), (4, 2), (5, 3), (6, 1)];

// Without task 3, and the one below it.
const WITHOUT_THE_THIRD: [(u8, u8); 4] = [(1, 0), (2, 1), (4, 2), (6, 1)];

// The six tasks are attached, and each gets its words.
fn attach_all(rt: &impl Abort, elements: &mut Elements, tree: &mut TaskTree)
    requires { IsTaskTree elements.old tree.old }
    ensures { IsTaskTree elements.new tree.new }
{
    attach(rt, elements, tree, 1, 2);
    attach(rt, elements, tree, 2, 3);
    attach(rt, elements, tree, 2, 4);
    attach(rt, elements, tree, 3, 5);
    attach(rt, elements, tree, 1, 6);
    for task in 1..7u8 {
        fill(rt, elements, tree, task);
    }
    compare(rt, elements, tree, &ALL);
}

// Subtrees are parked and restored.
fn all_out_and_in(rt: &impl Abort, elements: &mut Elements, tree: &mut TaskTree)
    requires { IsTaskTree elements.old tree.old }
    ensures { IsTaskTree elements.new tree.new }
{
    out_and_in(rt, elements, tree, 2, &[(1, 0), (6, 1)]);
    compare(rt, elements, tree, &ALL);
    out_and_in(rt, elements, tree, 3, &WITHOUT_THE_THIRD);
    compare(rt, elements, tree, &ALL);
    run(rt, elements, tree, 2);
    detached(rt, elements, tree, 3, &WITHOUT_THE_THIRD);
    compare(rt, elements, tree, &ALL);
    run(rt, elements, tree, 1);
    same!(rt; elements.spare(), 104);
}

// All tasks except the first end.
fn end_all(rt: &impl Abort, elements: &mut Elements, tree: &mut TaskTree)
    requires { IsTaskTree elements.old tree.old }
    ensures { IsTaskTree elements.new tree.new }
{
    same!(rt; tree.check_end(elements, 3), Err(TreeFault::HasSubtasks));
    end(rt, elements, tree, 3);
    compare(rt, elements, tree, &WITHOUT_THE_THIRD);
    end_alone(rt, elements, tree, 6);
    end(rt, elements, tree, 2);
    compare(rt, elements, tree, &[(1, 0)]);
    same!(rt; elements.spare(), 124);
}

#[test]
fn a_subtree_comes_back_as_it_was(rt: HostRuntime) -> Result<(), Fail> {
    let mut elements = stocked(rt.alloc(), 64)?;
    let mut tree = TaskTree::new(&mut elements);
    attach_all(&rt, &mut elements, &mut tree);
    all_out_and_in(&rt, &mut elements, &mut tree);
    end_all(&rt, &mut elements, &mut tree);
    same!(rt; elements.release(), 1);
    Ok(())
}
