//! The operand with which a statement has its fault.
ghost use Rattle.std.specs.Prelude.{◌≡◌, ◌≢◌, ◌<◌, ◌≤◌, ◌^◌, ◌+◌, ℕ, true, false, Err, length, take};
ghost use Rattle.std.specs.Prelude.{if◌then◌else◌, ◌||◌, not, max};
ghost use Rattle.macro_statements.specs.Requests.{seen};
ghost use Rattle.macro_statements.specs.Statements.{statement_with};
ghost use Rattle.explain_faults.specs.Operands.{front, is_counted, is_end, IsWrongOperand, Starts, nesting_behind};
ghost use Rattle.operand_texts.specs.Field.{is_balanced, outside, separates};

use macro_statements::{FaultKind, Request, head_of, statement_with};
use operand_texts::nesting::{Nesting, is_balanced};

/// Whether this fault was found in place of a request.
fn is_fault(read: &Result<Request, FaultKind>, kind: FaultKind) -> bool
    ensures yes { result ≡ true → seen read.now ≡ Err kind }
    ensures no { result ≡ false → seen read.now ≢ Err kind }
{
    match read {
        Ok(_) => false,
        Err(found) => *found == kind,
    }
}

/// Whether a statement has this fault, whose first line has these columns and whose field is this text.
pub(crate) fn has_fault(card: &[u8], text: &[u8], kind: FaultKind) -> bool
    ensures yes { result ≡ true → statement_with card.now text.now ≡ Err kind }
    ensures no { result ≡ false → statement_with card.now text.now ≢ Err kind }
{
    let (head, _) = head_of(card);
    is_fault(&statement_with(head, text), kind)
}

/// Whether an operand ends before a byte that is nested this way.
fn separates(at: Nesting, byte: u8) -> bool
    ensures { result ≡ separates at byte }
{
    byte == b',' && !at.quoted && at.depth == 0
}

/// The operands of a text up to a place where one ends: an empty first one with the comma after it.
fn front_of(text: &[u8], i: usize) -> &[u8]
    requires { i < length text.now }
    ensures { result.now ≡ front text.now i }
{
    &text[..i.max(1)]
}

/// Whether these operands of a text count: if the text isn't balanced, only if they aren't either.
fn is_counted(text: &[u8], operands: &[u8]) -> bool
    ensures { result ≡ (is_balanced outside text.now || not (is_balanced outside operands.now)) }
{
    is_balanced(text) || !is_balanced(operands)
}

/// Whether an operand ends at this place of a text, with which and those before it a statement has this fault.
fn is_faulty_end(card: &[u8], text: &[u8], i: usize, at: Nesting, kind: FaultKind) -> bool
    requires within { i < length text.now }
    requires at { at ≡ nesting_behind outside (take i text.now) }
    ensures end { result ≡ true → is_end text.now i ≡ true }
    ensures counted { result ≡ true → is_counted text.now i ≡ true }
    ensures yes { result ≡ true → statement_with card.now (front text.now i) ≡ Err kind }
    ensures no { result ≡ false → is_end text.now i ≡ true → is_counted text.now i ≡ true
        → statement_with card.now (front text.now i) ≢ Err kind }
{
    let operands = front_of(text, i);
    if separates(at, text[i]) && is_counted(text, operands) {
        has_fault(card, operands, kind)
    } else {
        false
    }
}

/// How far the operands go with the last of which a statement has the fault that it has, while with fewer of them it
/// hasn't. In a text that isn't balanced only operands count that aren't either.
pub(crate) fn faulty_end(card: &[u8], text: &[u8], kind: FaultKind) -> usize
    requires fault { statement_with card.now text.now ≡ Err kind }
    requires size { length text.now < 2 ^ 63 }
    ensures within { result ≤ length text.now }
    ensures end { is_end text.now result ≡ true }
    ensures counted { is_counted text.now result ≡ true }
    ensures fault { statement_with card.now (front text.now result) ≡ Err kind }
    ensures first { (j : ℕ) → j < result → is_end text.now j ≡ true → is_counted text.now j ≡ true
        → statement_with card.now (front text.now j) ≢ Err kind }
{
    let mut at = Nesting::outside();
    for i in 0..text.len() {
        if is_faulty_end(card, text, i, at, kind) {
            return i;
        }
        at = at.past(text[i]);
    }
    text.len()
}

/// Where the operand after a byte begins that is nested this way.
fn start_behind(start: usize, at: Nesting, byte: u8, i: usize) -> usize
    requires { i < 2 ^ 63 }
    ensures { result ≡ (if separates at byte then i + 1 else start) }
{
    if separates(at, byte) { i + 1 } else { start }
}

/// Where the operand that ends at a place of a text begins: after the last comma before that which separates, or where
/// the text begins.
pub(crate) fn operand_start(text: &[u8], end: usize) -> usize
    requires within { end ≤ length text.now }
    requires size { length text.now < 2 ^ 63 }
    ensures starts { Starts text.now end result }
{
    let mut at = Nesting::outside();
    let mut start = 0;
    for i in 0..end {
        start = start_behind(start, at, text[i], i);
        at = at.past(text[i]);
    }
    start
}

/// The bytes of a text that are the first operand with which a statement has the fault that it has; the whole text if
/// it has none of this kind.
pub(crate) fn wrong_operand(card: &[u8], text: &[u8], kind: FaultKind) -> (usize, usize)
    requires size { length text.now < 2 ^ 63 }
    ensures within { result.1 ≤ length text.now }
    ensures wrong { statement_with card.now text.now ≡ Err kind
        → IsWrongOperand card.now text.now kind result.0 result.1 }
{
    if !has_fault(card, text, kind) {
        return (0, text.len());
    }
    let end = faulty_end(card, text, kind);
    (operand_start(text, end), end)
}
