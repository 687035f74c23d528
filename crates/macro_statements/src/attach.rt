//! ATTACH: a new task.

ghost use Rattle.std.specs.Prelude.{◌≡◌, ◌<◌, length};
ghost use Rattle.operand_texts.specs.Field.{operands};
ghost use Rattle.macro_operands.specs.Requests.{asked_in, subpools_in};
ghost use Rattle.macro_statements.specs.Rooms.{left};
ghost use Rattle.macro_operands.specs.Slots.{slots_in, slot, as_value};
ghost use Rattle.macro_statements.specs.Slots.{attach_by};
ghost use Rattle.macro_statements.specs.Attach.{subpools_by, attach_of};

use macro_operands::operands::{read, some_field};
use macro_operands::rows::OperandRow;
use macro_operands::said::{NOTHING, Said, condition_at, value_at};
use macro_operands::{FaultKind, Request, Statement, Subpools, keyword};

/// ATTACH.
pub const ATTACH: OperandRow = OperandRow {
    entries: &[
        keyword!(b"EP", Name),
        keyword!(b"GSPV", Value, b"GSPL"),
        keyword!(b"GSPL", Value, b"GSPV"),
        keyword!(b"SHSPV", Value, b"SHSPL"),
        keyword!(b"SHSPL", Value, b"SHSPV"),
        keyword!(b"SZERO", Condition),
        keyword!(b"RELATED", Any),
        keyword!(b"LINKAGE", Any),
        keyword!(b"REGS", Any),
    ],
    left_out: &[
        b"ECB", b"ETXR", b"EPLOC", b"DE", b"DCB", b"PARAM", b"VL", b"LPMOD", b"DPMOD", b"SF",
        b"ESTAI", b"STAI", b"TASKLIB", b"MF",
    ],
};

/// The slots of the operands that have an effect.
const GSPV: usize = 1;

const GSPL: usize = 2;

const SHSPV: usize = 3;

const SHSPL: usize = 4;

const SZERO: usize = 5;

/// The subpools that were read at the place of their number, or at the place of a list's address.
fn subpools_at(said: &[Option<Said>], number: usize, list: usize) -> Subpools
    requires number { number < length said.now }
    requires list { list < length said.now }
    ensures { subpools_in result
        ≡ subpools_by (as_value (slot (slots_in said.now) number)) (as_value (slot (slots_in said.now) list)) }
{
    if let Some(number) = value_at(said, number) {
        return Subpools::Number(number);
    }
    match value_at(said, list) {
        Some(address) => Subpools::Listed { address },
        None => Subpools::Nothing,
    }
}

/// What ATTACH asks for by what was read.
fn attach_by(said: &[Option<Said>], request: &mut Request)
    requires { length said.now ≡ 9 }
    ensures { asked_in request.new ≡ attach_by (slots_in said.now) }
{
    *request = Request::Act(Statement::Attach {
        given: subpools_at(said, GSPV, GSPL),
        shared: subpools_at(said, SHSPV, SHSPL),
        shares_zero: condition_at(said, SZERO).unwrap_or(true),
    });
}

/// ATTACH with its operand field.
pub(crate) fn attach(field: &[u8], request: &mut Request) -> Result<(), FaultKind>
    ensures { left result request.new ≡ attach_of (operands field.now) }
{
    let mut said = [
        NOTHING, NOTHING, NOTHING, NOTHING, NOTHING, NOTHING, NOTHING, NOTHING, NOTHING,
    ];
    match read(&ATTACH, some_field(field), &mut said) {
        Ok(said) => {
            attach_by(said, request);
            Ok(())
        }
        Err(fault) => Err(fault),
    }
}
