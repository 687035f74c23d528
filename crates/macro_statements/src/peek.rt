//! PEEK: shows bytes.

ghost use Rattle.std.specs.Prelude.{◌≡◌, length};
ghost use Rattle.operand_texts.specs.Field.{operands};
ghost use Rattle.macro_statements.specs.Rooms.{left};
ghost use Rattle.macro_operands.specs.Slots.{slots_in};
ghost use Rattle.macro_statements.specs.Slots.{peek_by};
ghost use Rattle.macro_statements.specs.Peek.{peek_of};

use macro_operands::operands::{read, some_field};
use macro_operands::rows::OperandRow;
use macro_operands::said::{NOTHING, Said, size_at, value_at};
use macro_operands::{FaultKind, Request, position};

/// PEEK.
pub const PEEK: OperandRow = OperandRow {
    entries: &[position!(0, Value), position!(1, Size)],
    left_out: &[],
};

/// What PEEK asks for by what was read.
fn peek_by(said: &[Option<Said>], request: &mut Request) -> Result<(), FaultKind>
    requires { length said.now ≡ 2 }
    ensures { left result request.new ≡ peek_by (slots_in said.now) }
{
    let Some(addr) = value_at(said, 0) else {
        return Err(FaultKind::Missing);
    };
    let Some(len) = size_at(said, 1) else {
        return Err(FaultKind::Missing);
    };
    *request = Request::Peek { addr, len };
    Ok(())
}

/// PEEK with its operand field.
pub(crate) fn peek(field: &[u8], request: &mut Request) -> Result<(), FaultKind>
    ensures { left result request.new ≡ peek_of (operands field.now) }
{
    let mut said = [NOTHING, NOTHING];
    match read(&PEEK, some_field(field), &mut said) {
        Ok(said) => peek_by(said, request),
        Err(fault) => Err(fault),
    }
}
