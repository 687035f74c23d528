//! Where an operand of a statement is.
ghost use Rattle.std.specs.Prelude.{◌≤◌, length};

use crate::carets::{field_over, first_card, operation_column};
use crate::gathered::TextPlace;
use crate::lines::SourceLine;
use crate::operand_hints::before;
use operand_texts::nesting::split;
use operand_texts::words::is_word;

/// Whether a text is one of these keywords.
fn is_any(text: &[u8], keywords: &[&'static [u8]]) -> bool {
    for keyword in keywords {
        if is_word(text, keyword) {
            return true;
        }
    }
    false
}

/// Where the first operand of a field begins that has one of these keywords; the first of all, if there are none.
fn operand_start(field: &[u8], keywords: &[&'static [u8]]) -> Option<usize> {
    if keywords.is_empty() {
        return Some(0);
    }
    let mut rest = field;
    for _ in 0..field.len() {
        let (operand, more) = split(rest);
        if is_any(before(operand, b'='), keywords) {
            return Some(field.len().saturating_sub(rest.len()));
        }
        rest = more?;
    }
    None
}

/// The lines after the first, nine at most.
fn further_lines(lines: &[SourceLine]) -> &[SourceLine]
    ensures { length result.now ≤ 9 }
{
    if lines.is_empty() {
        lines
    } else {
        &lines[1..lines.len().min(10)]
    }
}

/// Where the first operand begins that has one of these keywords, or the first of all if there are none, in a statement
/// of these lines; its operation, if it has no such operand.
pub fn operand_place(script: &[u8], lines: &[SourceLine], keywords: &[&'static [u8]]) -> TextPlace {
    let card = first_card(script, lines);
    let (field, _) = field_over(script, &card, further_lines(lines));
    match operand_start(field.text(), keywords) {
        Some(start) => field.place(start),
        None => None,
    }
    .unwrap_or(TextPlace {
        line: 0,
        column: operation_column(&card),
    })
}
