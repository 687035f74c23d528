//! DETACH: the end of a task and of all below it.

ghost use Rattle.std.specs.Prelude.{◌≡◌, length};
ghost use Rattle.operand_texts.specs.Field.{operands};
ghost use Rattle.macro_statements.specs.Rooms.{left};
ghost use Rattle.macro_operands.specs.Slots.{slots_in};
ghost use Rattle.macro_statements.specs.Slots.{detach_by};
ghost use Rattle.macro_statements.specs.Detach.{detach_of};

use macro_operands::operands::{read, some_field};
use macro_operands::rows::OperandRow;
use macro_operands::said::{NOTHING, Said, value_at};
use macro_operands::{FaultKind, Request, Statement, keyword, position};

/// DETACH.
pub const DETACH: OperandRow = OperandRow {
    entries: &[
        position!(0, Value),
        keyword!(b"RELATED", Any),
        keyword!(b"LINKAGE", Any),
        keyword!(b"REGS", Any),
    ],
    left_out: &[b"STAE", b"MF"],
};

/// What DETACH asks for by what was read.
fn detach_by(said: &[Option<Said>], request: &mut Request) -> Result<(), FaultKind>
    requires { length said.now ≡ 4 }
    ensures { left result request.new ≡ detach_by (slots_in said.now) }
{
    match value_at(said, 0) {
        Some(task) => {
            *request = Request::Act(Statement::Detach { task });
            Ok(())
        }
        None => Err(FaultKind::Missing),
    }
}

/// DETACH with its operand field.
pub(crate) fn detach(field: &[u8], request: &mut Request) -> Result<(), FaultKind>
    ensures { left result request.new ≡ detach_of (operands field.now) }
{
    let mut said = [NOTHING, NOTHING, NOTHING, NOTHING];
    match read(&DETACH, some_field(field), &mut said) {
        Ok(said) => detach_by(said, request),
        Err(fault) => Err(fault),
    }
}
