//! The task that asked for what a line took.
ghost use Rattle.std.specs.Prelude.{◌≡◌, ℕ};
ghost use Rattle.storage_core.specs.Meaning.{state_of};
ghost use Rattle.vsm_model.specs.State.{is_task};
ghost use Rattle.explain_standing.specs.Carried.{IsAskerOf};
ghost use Rattle.explain_standing.specs.Since.{has_ended, is_later};

use crate::carried::Carried;
use storage_core::Storage;

/// A task that asked for what a line took, and whether it has ended.
#[derive(Clone, Copy)]
pub struct Asker {
    pub task: u32,
    pub ended: bool,
}

/// Whether a task exists.
fn has_task(storage: &Storage, task: u32) -> bool
    ensures { result ≡ is_task (state_of storage.now) task }
{
    match u8::try_from(task) {
        Ok(task) => storage.parent(task).is_some(),
        Err(_) => false,
    }
}

/// Whether a task began after a line.
fn is_later(began: Option<u32>, line: u32) -> bool
    ensures { result ≡ is_later began line }
{
    match began {
        Some(began) => began > line,
        None => false,
    }
}

/// Whether the task that asked for what a line took has ended; the first line began the task that has the number now.
fn has_ended(storage: &Storage, began: Option<u32>, task: u32, line: u32) -> bool
    ensures { result ≡ has_ended (state_of storage.now) began task line }
{
    !has_task(storage, task) || is_later(began, line)
}

impl Carried {
    /// The task that was current before the statement of a line and so asked for what it took, and whether that task
    /// has ended. Another task may have its number since.
    pub fn asker_of(&self, line: u32) -> Asker
        ensures { IsAskerOf self.now line result.task result.ended }
    {
        let task = self.askers.number(line).unwrap_or(0);
        let began = self.births.number(task);
        Asker {
            task,
            ended: has_ended(self.bench.storage(), began, task, line),
        }
    }
}
