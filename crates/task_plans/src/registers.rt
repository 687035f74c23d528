//! Registers that a change sets.

ghost use Rattle.std.specs.Prelude.{◌≡◌};
ghost use Rattle.storage_changes.specs.declared.record.Record.TheVariants.{Register};

use storage_changes::{Record, RegisterRecord};

/// A register of the task that gets the word.
pub(crate) fn set_register(task: u8, register: u8, word: u32) -> Record
    ensures { result ≡ Register (record { task = task; register = register; word = word }) }
{
    Record::Register(RegisterRecord {
        task,
        register,
        word,
    })
}
