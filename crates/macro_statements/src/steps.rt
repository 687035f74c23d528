//! BACK and FORWARD: steps over what was done.

ghost use Rattle.std.specs.Prelude.{◌≡◌, length};
ghost use Rattle.operand_texts.specs.Field.{operands};
ghost use Rattle.macro_operands.specs.Slots.{slots_in};
ghost use Rattle.macro_statements.specs.Slots.{count_by};
ghost use Rattle.macro_operands.specs.Requests.{back, forward};
ghost use Rattle.macro_statements.specs.Rooms.{left};
ghost use Rattle.macro_statements.specs.Steps.{count_in, step_with};

use macro_operands::operands::{read, some_field};
use macro_operands::rows::OperandRow;
use macro_operands::said::{NOTHING, Said, count_at};
use macro_operands::{FaultKind, Request, position};

/// BACK and FORWARD.
pub const STEPS: OperandRow = OperandRow {
    entries: &[position!(0, Count)],
    left_out: &[],
};

/// The number of steps by what was read.
fn count_by(said: &[Option<Said>]) -> Result<u32, FaultKind>
    requires { length said.now ≡ 1 }
    ensures { result ≡ count_by (slots_in said.now) }
{
    match count_at(said, 0) {
        Some(count) => Ok(count),
        None => Err(FaultKind::Missing),
    }
}

/// The number that is the only operand of a field.
fn count_in(field: &[u8]) -> Result<u32, FaultKind>
    ensures { result ≡ count_in (operands field.now) }
{
    let mut said = [NOTHING];
    match read(&STEPS, some_field(field), &mut said) {
        Ok(said) => count_by(said),
        Err(fault) => Err(fault),
    }
}

/// BACK with its operand field.
pub(crate) fn back(field: &[u8], request: &mut Request) -> Result<(), FaultKind>
    ensures { left result request.new ≡ step_with back (count_in (operands field.now)) }
{
    *request = Request::Back(count_in(field)?);
    Ok(())
}

/// FORWARD with its operand field.
pub(crate) fn forward(field: &[u8], request: &mut Request) -> Result<(), FaultKind>
    ensures { left result request.new ≡ step_with forward (count_in (operands field.now)) }
{
    *request = Request::Forward(count_in(field)?);
    Ok(())
}
