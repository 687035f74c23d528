//! How the operand field of a statement is nested where its part of a line begins.

use crate::carets::{field_over, first_card};
use crate::fields::{card_of, is_blank};
use crate::forms::operation_with_operands;
use crate::lines::SourceLine;
use crate::roles::Role;
use operand_texts::words::{after_blanks, after_word, word};

/// What a line is, and how its statement's operand field is nested where the line's part of it begins.
#[derive(Clone, Copy)]
pub struct LineStand {
    pub role: Role,
    /// Whether that is between apostrophes; none if the operands have ended before.
    pub quoted: Option<bool>,
    /// The statement's operation, if it's one that has operands.
    pub operation: Option<&'static [u8]>,
    /// The byte in column 16 of the statement's next line, if columns 1 to 15 there are blank.
    pub next: Option<u8>,
    /// The place of the first option that a comment asks for and that was given otherwise, from 0.
    pub options: Option<usize>,
}

/// Whether the field goes on after these lines between apostrophes; none if its operands have ended.
fn quoted_after(script: &[u8], card: &[u8; 71], lines: &[SourceLine]) -> Option<bool> {
    let (field, broken) = field_over(script, card, &lines[..lines.len().min(9)]);
    if field.goes_on && broken.is_none() {
        Some(field.at.quoted)
    } else {
        None
    }
}

/// The byte in column 16 of the line at this place, if columns 1 to 15 there are blank.
fn further_byte(script: &[u8], lines: &[SourceLine], index: usize) -> Option<u8> {
    let card = card_of(lines.get(index)?.bytes(script));
    if is_blank(&card[..15]) {
        Some(card[15])
    } else {
        None
    }
}

/// What this one of a statement's lines is, which has this role and asks for other options at this place.
pub fn stand_of(
    script: &[u8],
    lines: &[SourceLine],
    index: usize,
    role: Role,
    options: Option<usize>,
) -> LineStand {
    let card = first_card(script, lines);
    let quoted = match role {
        Role::First => Some(false),
        Role::Further if 1 <= index && index <= lines.len() => {
            quoted_after(script, &card, &lines[1..index])
        }
        Role::Further | Role::Aside | Role::Breaking | Role::Gone => None,
    };
    LineStand {
        role,
        quoted,
        operation: operation_with_operands(word(after_blanks(after_word(&card)))),
        next: further_byte(script, lines, index.saturating_add(1)),
        options,
    }
}
