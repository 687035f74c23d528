//! RUN: the turn of a task.

ghost use Rattle.std.specs.Prelude.{◌≡◌, length};
ghost use Rattle.operand_texts.specs.Field.{operands};
ghost use Rattle.macro_statements.specs.Rooms.{left};
ghost use Rattle.macro_operands.specs.Slots.{slots_in};
ghost use Rattle.macro_statements.specs.Slots.{run_by};
ghost use Rattle.macro_statements.specs.Run.{run_of};

use macro_operands::operands::{read, some_field};
use macro_operands::rows::OperandRow;
use macro_operands::said::{NOTHING, Said, value_at};
use macro_operands::{FaultKind, Request, Statement, position};

/// RUN.
pub const RUN: OperandRow = OperandRow {
    entries: &[position!(0, Value)],
    left_out: &[],
};

/// What RUN asks for by what was read.
fn run_by(said: &[Option<Said>], request: &mut Request) -> Result<(), FaultKind>
    requires { length said.now ≡ 1 }
    ensures { left result request.new ≡ run_by (slots_in said.now) }
{
    match value_at(said, 0) {
        Some(task) => {
            *request = Request::Act(Statement::Run { task });
            Ok(())
        }
        None => Err(FaultKind::Missing),
    }
}

/// RUN with its operand field.
pub(crate) fn run(field: &[u8], request: &mut Request) -> Result<(), FaultKind>
    ensures { left result request.new ≡ run_of (operands field.now) }
{
    let mut said = [NOTHING];
    match read(&RUN, some_field(field), &mut said) {
        Ok(said) => run_by(said, request),
        Err(fault) => Err(fault),
    }
}
