//! POKE: stores bytes.

ghost use Rattle.std.specs.Prelude.{◌≡◌, length};
ghost use Rattle.operand_texts.specs.Field.{operands};
ghost use Rattle.macro_statements.specs.Rooms.{left};
ghost use Rattle.macro_operands.specs.Slots.{slots_in};
ghost use Rattle.macro_statements.specs.Slots.{poke_by};
ghost use Rattle.macro_statements.specs.Poke.{poke_of};

use macro_operands::operands::{read, some_field};
use macro_operands::rows::OperandRow;
use macro_operands::said::{NOTHING, Said, content_at, value_at};
use macro_operands::{FaultKind, Request, Statement, position};

/// POKE.
pub const POKE: OperandRow = OperandRow {
    entries: &[position!(0, Value), position!(1, Content)],
    left_out: &[],
};

/// What POKE asks for by what was read.
fn poke_by(said: &[Option<Said>], request: &mut Request) -> Result<(), FaultKind>
    requires { length said.now ≡ 2 }
    ensures { left result request.new ≡ poke_by (slots_in said.now) }
{
    let Some(address) = value_at(said, 0) else {
        return Err(FaultKind::Missing);
    };
    let Some(content) = content_at(said, 1) else {
        return Err(FaultKind::Missing);
    };
    *request = Request::Act(Statement::Poke { address, content });
    Ok(())
}

/// POKE with its operand field.
pub(crate) fn poke(field: &[u8], request: &mut Request) -> Result<(), FaultKind>
    ensures { left result request.new ≡ poke_of (operands field.now) }
{
    let mut said = [NOTHING, NOTHING];
    match read(&POKE, some_field(field), &mut said) {
        Ok(said) => poke_by(said, request),
        Err(fault) => Err(fault),
    }
}
