//! Why a request on tasks is answered as it is.
ghost use Rattle.std.specs.Prelude.{◌≡◌, unwrap_or};
ghost use Rattle.vsm_model.specs.Ending.{is_child};
ghost use Rattle.storage_core.specs.Meaning.{state_of};
ghost use Rattle.text_output.specs.Writing.{Puts};
ghost use Rattle.explain_text.specs.Pieces.{PutsSome};
ghost use Rattle.explain_reasons.specs.Tasks.{first_subtask, no_task_text, not_parent_text};
ghost use Rattle.explain_reasons.specs.Tasks.{parent_text, subtask_text, task_count, task_count_text};
ghost use Rattle.explain_reasons.specs.Told.{attach_text, detach_text, end_text};

use crate::lists::put_lists;
use crate::task_ends::put_subpools_end;
use explain_text::{Piece, put_line, put_text};
use std::io::Write;
use storage_core::{Attach, Cause, Storage};
use text_output::Gathered;
use vsm_model::geometry::{LAST_TASK, TASKS_END};

/// How many tasks there are.
fn count_tasks(storage: &Storage) -> u32
    ensures { result ≡ task_count (state_of storage.now) }
{
    let mut count = 0;
    for task in 1..TASKS_END {
        count += u32::from(storage.parent(task).is_some());
    }
    count
}

/// The parent of a task; 0 if it has none, or there is no such task.
fn parent_of(storage: &Storage, task: u32) -> u32
    ensures { result ≡ unwrap_or ((state_of storage.now).parents task) 0 }
{
    if task > LAST_TASK {
        return 0;
    }
    match storage.parent(task as u8) {
        Some(parent) => u32::from(parent),
        None => 0,
    }
}

/// Puts that there is no such task.
pub(crate) fn put_no_task<W: Write>(gathered: &mut Gathered, writer: &mut W, task: u32)
    ensures { Puts (W.contents writer.old) (W.contents writer.new) gathered.old gathered.new (no_task_text task) }
{
    put_line(
        gathered,
        writer,
        &[Piece::Text("no task has the number "), Piece::Number(task)],
    );
}

/// Puts which task is the parent of a task, and which one is current; for 0 that there is no parent.
fn put_its_parent<W: Write>(
    gathered: &mut Gathered,
    writer: &mut W,
    task: u32,
    parent: u32,
    current: u32,
)
    ensures { Puts (W.contents writer.old) (W.contents writer.new) gathered.old gathered.new
        (parent_text task parent current) }
{
    if parent == 0 {
        put_text(gathered, writer, "task 1 has no parent");
    } else {
        put_line(
            gathered,
            writer,
            &[
                Piece::Text("the parent of task "),
                Piece::Number(task),
                Piece::Text(" is task "),
                Piece::Number(parent),
                Piece::Text("; the current task is "),
                Piece::Number(current),
            ],
        );
    }
}

/// Puts which task is the parent of a task.
fn put_parent<W: Write>(gathered: &mut Gathered, writer: &mut W, storage: &Storage, task: u32)
    ensures { Puts (W.contents writer.old) (W.contents writer.new) gathered.old gathered.new
        (not_parent_text (state_of storage.now) task) }
{
    let current = u32::from(storage.current());
    put_its_parent(gathered, writer, task, parent_of(storage, task), current);
}

/// Puts which task is the parent of a task that has one.
pub(crate) fn put_any_parent<W: Write>(
    gathered: &mut Gathered,
    writer: &mut W,
    storage: &Storage,
    task: u32,
)
    ensures { PutsSome (W.contents writer.old) (W.contents writer.new) gathered.old gathered.new }
{
    if parent_of(storage, task) != 0 {
        put_parent(gathered, writer, storage, task);
    }
}

/// Puts whose subtask a task is that ends, and which subpools go with it, and which stay.
pub(crate) fn put_ended<W: Write>(
    gathered: &mut Gathered,
    writer: &mut W,
    storage: &Storage,
    task: u32,
)
    ensures { PutsSome (W.contents writer.old) (W.contents writer.new) gathered.old gathered.new }
{
    put_any_parent(gathered, writer, storage, task);
    put_subpools_end(gathered, writer, storage, task);
}

/// Puts why a task can't be ended by another.
pub(crate) fn put_detach<W: Write>(
    gathered: &mut Gathered,
    writer: &mut W,
    storage: &Storage,
    task: u32,
    cause: Cause,
)
    ensures { Puts (W.contents writer.old) (W.contents writer.new) gathered.old gathered.new
        (detach_text (state_of storage.now) task cause) }
{
    match cause {
        Cause::NoTask => put_no_task(gathered, writer, task),
        Cause::NotParent => put_parent(gathered, writer, storage, task),
        Cause::UnsupportedSubpool
        | Cause::SubpoolNotAllowed
        | Cause::BadLength
        | Cause::TooManyNames
        | Cause::NoStorage
        | Cause::Misaligned
        | Cause::NotInSubpool
        | Cause::OverlapsFree
        | Cause::OverlapsCells
        | Cause::WholeOfZero
        | Cause::NotOwner
        | Cause::BadCells
        | Cause::CellPoolExists
        | Cause::TooManyCellPools
        | Cause::NoCellPool
        | Cause::NotInUse
        | Cause::BadList
        | Cause::TooManyTasks
        | Cause::HasSubtask
        | Cause::NotAssigned => (),
    }
}

/// Whether a task is a subtask of another.
fn is_child(storage: &Storage, parent: u8, task: u8) -> bool
    ensures { result ≡ is_child (state_of storage.now) parent task }
{
    match storage.parent(task) {
        Some(its) => its == parent,
        None => false,
    }
}

/// The first subtask of the current task; 0 if it has none.
fn first_subtask(storage: &Storage) -> u32
    ensures { result ≡ first_subtask (state_of storage.now) }
{
    let current = storage.current();
    for task in 1..TASKS_END {
        if is_child(storage, current, task) {
            return u32::from(task);
        }
    }
    0
}

/// Puts which subtask the current task has.
fn put_subtask<W: Write>(gathered: &mut Gathered, writer: &mut W, storage: &Storage)
    ensures { Puts (W.contents writer.old) (W.contents writer.new) gathered.old gathered.new
        (subtask_text (state_of storage.now)) }
{
    put_line(
        gathered,
        writer,
        &[
            Piece::Text("task "),
            Piece::Number(u32::from(storage.current())),
            Piece::Text(" has a subtask: task "),
            Piece::Number(first_subtask(storage)),
        ],
    );
}

/// Puts why the current task can't end.
pub(crate) fn put_end<W: Write>(
    gathered: &mut Gathered,
    writer: &mut W,
    storage: &Storage,
    cause: Cause,
)
    ensures { Puts (W.contents writer.old) (W.contents writer.new) gathered.old gathered.new
        (end_text (state_of storage.now) cause) }
{
    match cause {
        Cause::HasSubtask => put_subtask(gathered, writer, storage),
        Cause::NotParent => {
            let current = u32::from(storage.current());
            put_parent(gathered, writer, storage, current);
        }
        Cause::UnsupportedSubpool
        | Cause::SubpoolNotAllowed
        | Cause::BadLength
        | Cause::TooManyNames
        | Cause::NoStorage
        | Cause::Misaligned
        | Cause::NotInSubpool
        | Cause::OverlapsFree
        | Cause::OverlapsCells
        | Cause::WholeOfZero
        | Cause::NotOwner
        | Cause::BadCells
        | Cause::CellPoolExists
        | Cause::TooManyCellPools
        | Cause::NoCellPool
        | Cause::NotInUse
        | Cause::BadList
        | Cause::TooManyTasks
        | Cause::NoTask
        | Cause::NotAssigned => (),
    }
}

/// Puts how many tasks there are.
pub(crate) fn put_task_count<W: Write>(gathered: &mut Gathered, writer: &mut W, storage: &Storage)
    ensures { Puts (W.contents writer.old) (W.contents writer.new) gathered.old gathered.new
        (task_count_text (state_of storage.now)) }
{
    put_line(
        gathered,
        writer,
        &[
            Piece::Number(count_tasks(storage)),
            Piece::Text(" of 64 tasks exist"),
        ],
    );
}

/// Puts why there can't be a new task.
pub(crate) fn put_attach<W: Write>(
    gathered: &mut Gathered,
    writer: &mut W,
    storage: &Storage,
    a: Attach,
    cause: Cause,
)
    ensures { Puts (W.contents writer.old) (W.contents writer.new) gathered.old gathered.new
        (attach_text (state_of storage.now) a cause) }
{
    match cause {
        Cause::TooManyTasks => put_task_count(gathered, writer, storage),
        Cause::NotAssigned => put_text(gathered, writer, "a byte of a list isn't assigned"),
        Cause::BadList => put_lists(gathered, writer, storage, false, a),
        Cause::NotOwner => put_lists(gathered, writer, storage, true, a),
        Cause::UnsupportedSubpool
        | Cause::SubpoolNotAllowed
        | Cause::BadLength
        | Cause::TooManyNames
        | Cause::NoStorage
        | Cause::Misaligned
        | Cause::NotInSubpool
        | Cause::OverlapsFree
        | Cause::OverlapsCells
        | Cause::WholeOfZero
        | Cause::BadCells
        | Cause::CellPoolExists
        | Cause::TooManyCellPools
        | Cause::NoCellPool
        | Cause::NotInUse
        | Cause::NoTask
        | Cause::NotParent
        | Cause::HasSubtask => (),
    }
}
