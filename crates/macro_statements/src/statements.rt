//! The request of a statement.

ghost use Rattle.std.specs.Prelude.{◌≡◌, ◌≤◌, ℕ, List, length, IfOk, OnOk};
ghost use Rattle.operand_texts.specs.Field.{outside, is_balanced, operands};
ghost use Rattle.macro_operands.specs.Requests.{seen, asked_in, IsValidAsked};
ghost use Rattle.macro_statements.specs.Statements.{operation_of, asked_of, from_operation, from_operands};
ghost use Rattle.macro_statements.specs.Statements.{behind_of, operands_in};
ghost use Rattle.macro_statements.specs.Statements.{IsHead, is_misplaced, statement_with};
ghost use Rattle.macro_statements.specs.Rooms.{left};

use crate::attach::attach;
use crate::cpool::cpool;
use crate::detach::detach;
use crate::forms::request_of;
use crate::freemain::FREEMAIN;
use crate::getmain::GETMAIN;
use crate::peek::peek;
use crate::poke::poke;
use crate::run::run;
use crate::steps::{back, forward};
use crate::storage::STORAGE;
use macro_operands::rows::Behind;
use macro_operands::{FaultKind, Request, Statement};
use operand_texts::nesting::is_balanced;
use operand_texts::words::{after_blanks, after_word, is_name, is_word, word, word_len};

/// A known operation.
#[derive(Clone, Copy)]
pub enum Operation {
    Storage,
    Getmain,
    Freemain,
    Cpool,
    Attach,
    Detach,
    Run,
    EndTask,
    Poke,
    Peek,
    Map,
    Back,
    Forward,
}

/// What a first line says before its operand field.
#[derive(Clone, Copy)]
pub struct Head {
    /// Whether it's misplaced: column 1 isn't blank, and doesn't begin a name followed by a blank.
    pub misplaced: bool,
    /// Its operation, if it's a known one.
    pub operation: Option<Operation>,
}

/// The operation that a word is, in either case.
fn operation_of(text: &[u8]) -> Option<Operation>
    ensures { result ≡ operation_of text.now }
{
    if is_word(text, b"STORAGE") {
        Some(Operation::Storage)
    } else if is_word(text, b"GETMAIN") {
        Some(Operation::Getmain)
    } else if is_word(text, b"FREEMAIN") {
        Some(Operation::Freemain)
    } else if is_word(text, b"CPOOL") {
        Some(Operation::Cpool)
    } else if is_word(text, b"ATTACH") {
        Some(Operation::Attach)
    } else if is_word(text, b"DETACH") {
        Some(Operation::Detach)
    } else if is_word(text, b"RUN") {
        Some(Operation::Run)
    } else if is_word(text, b"ENDTASK") {
        Some(Operation::EndTask)
    } else if is_word(text, b"POKE") {
        Some(Operation::Poke)
    } else if is_word(text, b"PEEK") {
        Some(Operation::Peek)
    } else if is_word(text, b"MAP") {
        Some(Operation::Map)
    } else if is_word(text, b"BACK") {
        Some(Operation::Back)
    } else if is_word(text, b"FORWARD") {
        Some(Operation::Forward)
    } else {
        None
    }
}

/// Puts what an operation asks for with this operand field into a room.
fn asked_of(operation: Operation, field: &[u8], request: &mut Request) -> Result<(), FaultKind>
    ensures { left result request.new ≡ asked_of operation (operands field.now) }
{
    match operation {
        Operation::Storage => request_of(&STORAGE, field, request),
        Operation::Getmain => request_of(&GETMAIN, field, request),
        Operation::Freemain => request_of(&FREEMAIN, field, request),
        Operation::Cpool => cpool(field, request),
        Operation::Attach => attach(field, request),
        Operation::Detach => detach(field, request),
        Operation::Run => run(field, request),
        Operation::EndTask => {
            *request = Request::Act(Statement::EndTask);
            Ok(())
        }
        Operation::Poke => poke(field, request),
        Operation::Peek => peek(field, request),
        Operation::Map => {
            *request = Request::Map;
            Ok(())
        }
        Operation::Back => back(field, request),
        Operation::Forward => forward(field, request),
    }
}

/// A first line, columns 1 to 71 of it, from the operation on.
fn from_operation(card: &[u8]) -> &[u8]
    ensures { result.now ≡ from_operation card.now }
{
    after_blanks(after_word(card))
}

/// What follows an operation, or a word that isn't one.
fn behind_of(operation: Option<Operation>) -> Behind
    ensures { result ≡ behind_of operation }
{
    match operation {
        Some(
            Operation::Storage
            | Operation::Getmain
            | Operation::Freemain
            | Operation::Cpool
            | Operation::Attach
            | Operation::Detach
            | Operation::Run
            | Operation::Poke
            | Operation::Peek
            | Operation::Back
            | Operation::Forward,
        )
        | None => Behind::Operands,
        Some(Operation::EndTask | Operation::Map) => Behind::Remarks,
    }
}

/// The operands in a text after an operation.
fn operands_in(behind: Behind, text: &[u8]) -> &[u8]
    ensures value { result.now ≡ operands_in behind text.now }
    ensures within { length result.now ≤ length text.now }
{
    match behind {
        Behind::Operands => text,
        Behind::Remarks => &text[..0],
    }
}

/// Whether column 1 of a first line isn't blank and doesn't begin a name followed by a blank, so that nothing says
/// where a field begins.
fn is_misplaced(card: &[u8]) -> bool
    ensures { result ≡ is_misplaced card.now }
{
    word_len(card) > 0 && !is_name(word(card))
}

/// What a first line, columns 1 to 71 of it, says before its operand field, and its text from the operands on: what
/// follows the blanks after the operation. That may be empty, and is so if an operation has no operands but only
/// remarks.
#[inline(always)]
pub fn head_of(card: &[u8]) -> (Head, &[u8])
    ensures head { IsHead result.0 card.now }
    ensures rest { result.1.now ≡ from_operands card.now }
    ensures within { length result.1.now ≤ length card.now }
{
    let from = from_operation(card);
    let size = word_len(from);
    let operation = operation_of(&from[..size]);
    let head = Head {
        misplaced: is_misplaced(card),
        operation,
    };
    let rest = operands_in(behind_of(operation), after_blanks(&from[size..]));
    (head, rest)
}

/// Puts the request of a statement, whose first line says this and whose operand field is this text, into a room. The
/// caller says if each apostrophe and parenthesis of the field is closed, and none too often.
///
/// Otherwise returns the first fault, in this order: `Column` if the first line is misplaced; `Operation` if its
/// operation isn't known; `Operand` if an apostrophe or parenthesis of the field isn't closed or is closed too often;
/// and then that of the leftmost operand that has one, or `Missing`.
#[inline(never)]
pub fn statement_into(
    head: Head,
    text: &[u8],
    balanced: bool,
    request: &mut Request,
) -> Result<(), FaultKind>
    requires balanced { balanced ≡ is_balanced outside text.now }
    ensures value { (card : List ℕ) → IsHead head card → left result request.new ≡ statement_with card text.now }
    ensures valid { OnOk result (IsValidAsked (asked_in request.new)) }
{
    if head.misplaced {
        return Err(FaultKind::Column);
    }
    let Some(operation) = head.operation else {
        return Err(FaultKind::Operation);
    };
    if !balanced {
        return Err(FaultKind::Operand);
    }
    asked_of(operation, text, request)
}

/// The same, with the request as the result.
pub fn statement_with(head: Head, text: &[u8]) -> Result<Request, FaultKind>
    ensures value { (card : List ℕ) → IsHead head card → seen result ≡ statement_with card text.now }
    ensures valid { IfOk result (λ r. IsValidAsked (asked_in r)) }
{
    let mut request = Request::Map;
    match statement_into(head, text, is_balanced(text), &mut request) {
        Ok(()) => Ok(request),
        Err(fault) => Err(fault),
    }
}
