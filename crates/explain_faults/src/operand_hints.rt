//! What is said of an operand that is wrong.

use crate::forms::{MacroForm, forms, has_forms, keyword_in, kind_of};
use crate::guesses::{form_like, keyword_like};
use crate::values::{expected, slip_in};
use explain_text::Words;
use operand_texts::words::is_word;

/// The keywords of ATTACH that exclude each other.
const APART: [(&'static [u8], &'static [u8]); 2] = [(b"GSPV", b"GSPL"), (b"SHSPV", b"SHSPL")];

/// What is before the first of these bytes; the whole text if it has none.
pub(crate) fn before(text: &[u8], byte: u8) -> &[u8] {
    for i in 0..text.len() {
        if text[i] == byte {
            return &text[..i];
        }
    }
    text
}

fn has(text: &[u8], byte: u8) -> bool {
    before(text, byte).len() < text.len()
}

/// The value of an operand: what follows its keyword, if it has one.
fn value_of(operand: &[u8]) -> &[u8] {
    let size = before(operand, b'=').len();
    if size < operand.len() {
        &operand[size + 1..]
    } else {
        operand
    }
}

/// The keyword that excludes a keyword of ATTACH.
fn excluded_by(word: &[u8]) -> Option<&'static [u8]> {
    for (one, other) in APART {
        if is_word(word, one) {
            return Some(other);
        }
        if is_word(word, other) {
            return Some(one);
        }
    }
    None
}

/// Appends an operation, and the form that its statement has.
fn add_form(words: &mut Words, operation: &'static [u8], field: &[u8]) {
    words.add(operation);
    if has_forms(operation) {
        words.add(b" ");
        words.add_shown(before(field, b','));
    }
}

/// Appends why a keyword of the operation is wrong here, with a value or without one.
fn add_refused(
    words: &mut Words,
    operation: &'static [u8],
    field: &[u8],
    word: &'static [u8],
    has_value: bool,
) {
    if !has_value {
        words.add(word);
        words.add(b" has no value; ");
        words.add(word);
        words.add(b"=?");
    } else if let Some(other) = excluded_by(word) {
        words.add(word);
        words.add(b" can't be given with ");
        words.add(other);
    } else {
        words.add(word);
        words.add(b" isn't an operand of ");
        add_form(words, operation, field);
    }
}

/// Appends words of a list, each after this text, and after another from the second on.
fn add_words(words: &mut Words, first: &[u8], list: &[&'static [u8]]) {
    let mut before = first;
    for word in list {
        words.add(before);
        words.add(word);
        before = b", ";
    }
}

/// Appends the forms of an operation.
pub(crate) fn add_forms(words: &mut Words, operation: &'static [u8]) {
    let mut before: &[u8] = b": ";
    for form in forms() {
        if form.operation == operation {
            add_words(words, before, form.words);
            before = b", ";
        }
    }
}

/// Appends that a first operand is no form of its operation, and all forms if none is like it. Gives the one that was
/// meant.
pub(crate) fn add_no_form(
    words: &mut Words,
    operation: &'static [u8],
    key: &[u8],
) -> Option<&'static [u8]> {
    words.add(b"no form of ");
    words.add(operation);
    let meant = form_like(operation, key);
    if meant.is_none() {
        add_forms(words, operation);
    }
    meant
}

/// Appends that an operand of this field is none of a form's. Gives the keyword that was meant.
pub(crate) fn add_no_operand(
    words: &mut Words,
    form: &MacroForm,
    field: &[u8],
    operand: &[u8],
) -> Option<&'static [u8]> {
    let key = before(operand, b'=');
    if let Some(word) = keyword_in(form.operation, key) {
        add_refused(words, form.operation, field, word, has(operand, b'='));
        None
    } else {
        words.add(b"no operand of ");
        add_form(words, form.operation, field);
        keyword_like(form, key)
    }
}

/// Appends what is expected of the value of a form's operand, which is the first or another.
pub(crate) fn add_value(words: &mut Words, form: &MacroForm, operand: &[u8], is_first: bool) {
    let Some(kind) = kind_of(form, before(operand, b'='), is_first) else {
        return;
    };
    words.add(b"expected ");
    words.add(expected(kind));
    if let Some(slip) = slip_in(kind, value_of(operand)) {
        words.add(b"; ");
        words.add(slip.text());
    }
}
