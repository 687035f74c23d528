//! Which operand is missing.

use crate::forms::MacroForm;
use crate::operand_hints::before;
use crate::values::expected;
use explain_text::Words;
use operand_texts::nesting::split;
use operand_texts::words::is_word;

/// Whether a field has an operand with this keyword.
fn has_keyword(field: &[u8], keyword: &[u8]) -> bool {
    let mut rest = field;
    for _ in 0..field.len() {
        let (operand, more) = split(rest);
        if is_word(before(operand, b'='), keyword) {
            return true;
        }
        let Some(more) = more else {
            return false;
        };
        rest = more;
    }
    false
}

/// Appends the required keywords that a field hasn't; whether it has none of them.
fn add_keywords(words: &mut Words, form: &MacroForm, field: &[u8]) -> bool {
    let mut has_none = true;
    let mut between: &[u8] = b"";
    for keyword in form.required {
        if has_keyword(field, keyword) {
            has_none = false;
        } else {
            words.add(between);
            words.add(keyword);
            between = b", ";
        }
    }
    has_none
}

/// Appends the operand without a keyword that is missing.
fn add_position(words: &mut Words, form: &MacroForm, field: &[u8]) {
    let place = if field.is_empty() || form.positions.len() < 2 {
        0
    } else {
        1
    };
    if let Some((name, kind)) = form.positions.get(place) {
        words.add(name);
        words.add(b" (");
        words.add(expected(*kind));
        words.add(b")");
    }
}

/// Appends what a form requires and a field hasn't.
pub(crate) fn add_required(words: &mut Words, form: &MacroForm, field: &[u8]) {
    words.add(b": ");
    if form.required.is_empty() {
        add_position(words, form, field);
    } else if add_keywords(words, form, field)
        && let Some(keyword) = form.instead
    {
        words.add(b"; or only ");
        words.add(keyword);
    }
}
