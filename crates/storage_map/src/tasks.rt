//! The lines of tasks: their parents and their registers.
ghost use Rattle.std.specs.Prelude.{◌+◌, ◌≤◌, flat_map};
ghost use Rattle.vsm_model.specs.Map.{numbers, register_line, task_lines};
ghost use Rattle.storage_core.specs.Meaning.{state_of};
ghost use Rattle.storage_map.specs.Lines.{current_text, register_words, task_line};
ghost use Rattle.text_output.specs.Writing.{Puts};

use crate::fields::{put_field, put_hex_field};
use std::io::Write;
use storage_core::Storage;
use text_output::Gathered;
use vsm_model::geometry::TASKS_END;

/// Eight registers of a task, from the first on.
#[derive(Clone, Copy)]
struct RegisterRow {
    task: u8,
    first: u8,
    ghost within: { first ≤ 8 },
}

/// Puts that the task is the current one, and nothing if it isn't.
#[tactic(auto, using(text_output::proofs::Gathering::puts_none))]
fn put_current<W: Write>(gathered: &mut Gathered, writer: &mut W, storage: &Storage, task: u8)
    ensures { Puts (W.contents writer.old) (W.contents writer.new) gathered.old gathered.new
        (current_text (state_of storage.now) task) }
{
    if task == storage.current() {
        gathered.put(writer, b" CURRENT");
    }
}

/// Puts the first line of a task.
#[tactic(auto, using(text_output::proofs::Gathering::puts_both))]
fn put_task_line<W: Write>(
    gathered: &mut Gathered,
    writer: &mut W,
    storage: &Storage,
    task: u8,
    parent: u8,
)
    ensures { Puts (W.contents writer.old) (W.contents writer.new) gathered.old gathered.new
        (task_line (state_of storage.now) task parent) }
{
    put_field(gathered, writer, b" TASK", u64::from(task));
    put_field(gathered, writer, b" PARENT", u64::from(parent));
    put_current(gathered, writer, storage, task);
    gathered.put(writer, b"\n");
}

/// Puts the words of eight registers.
fn put_words<W: Write>(gathered: &mut Gathered, writer: &mut W, storage: &Storage, row: RegisterRow)
    ensures { Puts (W.contents writer.old) (W.contents writer.new) gathered.old gathered.new
        (register_words (state_of storage.now) row.task row.first (row.first + 8)) }
{
    for register in row.first..row.first + 8 {
        put_hex_field(gathered, writer, storage.register(row.task, register));
    }
}

/// Puts the line of eight registers, which begins with a word.
#[tactic(auto, using(text_output::proofs::Gathering::puts_both))]
fn put_registers<W: Write>(
    gathered: &mut Gathered,
    writer: &mut W,
    storage: &Storage,
    word: &[u8],
    row: RegisterRow,
)
    ensures { Puts (W.contents writer.old) (W.contents writer.new) gathered.old gathered.new
        (register_line (state_of storage.now) row.task word.now row.first) }
{
    gathered.put(writer, word);
    put_words(gathered, writer, storage, row);
    gathered.put(writer, b"\n");
}

/// Puts the lines of a task, and none if no such task exists.
fn put_task<W: Write>(gathered: &mut Gathered, writer: &mut W, storage: &Storage, task: u8)
    ensures { Puts (W.contents writer.old) (W.contents writer.new) gathered.old gathered.new
        (task_lines (state_of storage.now) task) }
{
    let Some(parent) = storage.parent(task) else {
        return;
    };
    put_task_line(gathered, writer, storage, task, parent);
    put_registers(
        gathered,
        writer,
        storage,
        b"  R0",
        RegisterRow { task, first: 0 },
    );
    put_registers(
        gathered,
        writer,
        storage,
        b"  R8",
        RegisterRow { task, first: 8 },
    );
}

/// Puts the lines of all tasks, ascending.
pub(crate) fn put_tasks<W: Write>(gathered: &mut Gathered, writer: &mut W, storage: &Storage)
    ensures { Puts (W.contents writer.old) (W.contents writer.new) gathered.old gathered.new
        (flat_map (task_lines (state_of storage.now)) (numbers 1 65)) }
{
    for task in 1..TASKS_END {
        put_task(gathered, writer, storage, task);
    }
}
