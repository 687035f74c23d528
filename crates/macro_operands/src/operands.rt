//! The operands of a statement, read by its row.

ghost use Rattle.std.specs.Prelude.{◌≡◌, ◌<◌, IsTrue, IfSome, IfOk, IfErr, OnOk, Some, None};
ghost use Rattle.std.specs.Prelude.{is_some, length, map};
ghost use Rattle.std.specs.Option.{option_copied, option_map};
ghost use Rattle.operand_texts.specs.Field.{outside, operands, operands_from, operands_behind};
ghost use Rattle.macro_operands.specs.Rows.{same_key};
ghost use Rattle.macro_operands.specs.Operands.{is_left_out, unknown_fault, first_fault};
ghost use Rattle.macro_operands.specs.Keywords.{keyword_len, operand_at};
ghost use Rattle.macro_operands.specs.Slots.{key_in, upper_key, entry_in, row_in, operand_in, slots_in, found};
ghost use Rattle.macro_operands.specs.Slots.{slot, is_barred, filled, with_operand, with_operands, answered};
ghost use Rattle.macro_operands.specs.Slots.{are_apart, no_slots, readings};
ghost use Rattle.macro_operands.specs.Said.{said_of, unsaid_fault};

use crate::faults::FaultKind;
use crate::rows::{Entry, Key, Kind, OperandRow};
use crate::said::{Said, said_of, unsaid_fault};
use operand_texts::nesting::split;
use operand_texts::words::{is_word, name_len};

/// An operand's key, its keyword in either case, and the text of its value.
#[derive(Clone, Copy)]
pub struct Operand<'a> {
    pub key: Key<'a>,
    pub text: &'a [u8],
}

/// How long the keyword of an operand is, if it has one: a name that an equals sign follows.
fn keyword_len(text: &[u8]) -> Option<usize>
    ensures value { result ≡ keyword_len text.now }
    ensures within { IfSome result (λ n. n < length text.now) }
{
    let Some(n) = name_len(text) else {
        return None;
    };
    if n < text.len() && text[n] == b'=' {
        Some(n)
    } else {
        None
    }
}

/// The operand that a text at this place among the operands is. An empty text is none.
pub fn operand_at(place: usize, text: &[u8]) -> Option<Operand<'_>>
    ensures { option_map operand_in result ≡ operand_at place text.now }
{
    if let Some(i) = keyword_len(text) {
        return Some(Operand {
            key: Key::Keyword(&text[..i]),
            text: &text[i + 1..],
        });
    }
    if text.is_empty() {
        return None;
    }
    Some(Operand {
        key: Key::Position(place),
        text,
    })
}

/// Whether an entry has this key.
fn has_key(entry: &Entry, key: Key<'_>) -> bool
    ensures { result ≡ same_key (key_in entry.now.key) (upper_key key.entry) }
{
    match entry.key {
        Key::Position(place) => match key {
            Key::Position(at) => place == at,
            Key::Keyword(_) => false,
        },
        Key::Keyword(word) => match key {
            Key::Position(_) => false,
            Key::Keyword(name) => is_word(name, word),
        },
    }
}

/// The entry of a key, with its place.
fn find<'a>(entries: &'a [Entry], key: Key<'_>) -> Option<(usize, &'a Entry)>
    ensures entry { option_map (λ f. (f.0, entry_in f.1.now)) result
        ≡ found 0 (map entry_in entries.now) (upper_key key.entry) }
    ensures within { IfSome result (λ f. f.0 < length entries.now) }
{
    for (i, entry) in entries.iter().enumerate() {
        if has_key(entry, key) {
            return Some((i, entry));
        }
    }
    None
}

/// Whether a key is a keyword that is left out.
fn is_left_out(left_out: &[&[u8]], key: Key<'_>) -> bool
    ensures { result ≡ is_left_out (map (λ w. w.now) left_out.now) (upper_key key.entry) }
{
    let Key::Keyword(name) = key else {
        return false;
    };
    for word in left_out {
        if is_word(name, word) {
            return true;
        }
    }
    false
}

/// What is wrong with an operand that isn't in a row.
pub fn unknown_fault(left_out: &[&[u8]], operand: Option<Operand<'_>>) -> FaultKind
    ensures { result ≡ unknown_fault (map (λ w. w.now) left_out.now) (option_map operand_in operand.entry) }
{
    match operand {
        Some(operand) if is_left_out(left_out, operand.key) => FaultKind::LeftOut,
        _ => FaultKind::Operand,
    }
}

/// Whether something was read for the entry at a place.
fn is_read(said: &[Option<Said>], i: usize) -> bool
    requires { i < length said.now }
    ensures { result ≡ is_some (slot (slots_in said.now) i) }
{
    said[i].is_some()
}

/// Whether the operand with which an entry can't appear was read.
fn is_barred(entries: &[Entry], said: &[Option<Said>], excluded: Option<Key<'static>>) -> bool
    requires { length said.now ≡ length entries.now }
    ensures { result ≡ is_barred (map entry_in entries.now) (slots_in said.now) (option_map upper_key excluded.entry) }
{
    let Some(key) = excluded else {
        return false;
    };
    match find(entries, key) {
        Some((i, _)) => is_read(said, i),
        None => false,
    }
}

/// Puts what a text says of a kind in a place, or returns what is wrong with it and leaves everything as it is.
fn fill<'a>(
    said: &mut [Option<Said<'a>>],
    i: usize,
    kind: Kind,
    text: &'a [u8],
) -> Option<FaultKind>
    requires { i < length said.old }
    ensures { answered result (slots_in said.new)
        ≡ filled (slots_in said.old) i (unsaid_fault kind text.now) (said_of kind text.now) }
{
    match said_of(kind, text) {
        Some(value) => {
            said[i] = Some(value);
            None
        }
        None => Some(unsaid_fault(kind, text)),
    }
}

/// Reads one operand into the place of its entry, or returns its fault and leaves everything as it is.
fn take<'a>(
    row: &OperandRow,
    operand: Option<Operand<'a>>,
    said: &mut [Option<Said<'a>>],
) -> Option<FaultKind>
    requires { length said.old ≡ length row.now.entries.now }
    ensures { answered result (slots_in said.new)
        ≡ with_operand (row_in row.now) (slots_in said.old) (option_map operand_in operand.entry) }
{
    let Some(known) = operand else {
        return Some(FaultKind::Operand);
    };
    let Some((i, entry)) = find(row.entries, known.key) else {
        return Some(unknown_fault(row.left_out, operand));
    };
    if is_barred(row.entries, said, entry.excluded) {
        Some(FaultKind::Operand)
    } else if is_read(said, i) {
        Some(FaultKind::Repeated)
    } else {
        fill(said, i, entry.kind, known.text)
    }
}

/// Reads the operands of a text into the places of their entries, or returns the first fault.
fn take_all<'a>(
    row: &OperandRow,
    text: &'a [u8],
    said: &mut [Option<Said<'a>>],
) -> Option<FaultKind>
    requires { length said.old ≡ length row.now.entries.now }
    ensures { answered result (slots_in said.new)
        ≡ with_operands (row_in row.now) (slots_in said.old) 0 (operands_from outside text.now) }
{
    let mut place = 0;
    let mut rest = text;
    'operands: loop {
        let (operand, behind) = split(rest);
        if let Some(fault) = take(row, operand_at(place, operand), said) {
            return Some(fault);
        }
        let Some(behind) = behind else {
            return None;
        };
        place += 1;
        rest = behind;
    }
}

/// Reads the operands of a statement, each once, into the places of their entries, into which nothing was read before,
/// and lends these places; or returns the first fault.
pub fn read<'s, 'a>(
    row: &OperandRow,
    text: Option<&'a [u8]>,
    said: &'s mut [Option<Said<'a>>],
) -> Result<&'s [Option<Said<'a>>], FaultKind>
    requires empty { slots_in said.old ≡ no_slots (row_in row.now).entries }
    requires apart { IsTrue (are_apart (row_in row.now).entries) }
    ensures said { IfOk result (λ s. slots_in s.now
        ≡ readings (row_in row.now).entries (operands_behind (option_copied text.entry))) }
    ensures fine { OnOk result (first_fault (row_in row.now) (operands_behind (option_copied text.entry)) ≡ None) }
    ensures fault { IfErr result (λ wrong.
        first_fault (row_in row.now) (operands_behind (option_copied text.entry)) ≡ Some wrong) }
{
    let Some(text) = text else {
        return Ok(said);
    };
    match take_all(row, text, said) {
        Some(fault) => Err(fault),
        None => Ok(said),
    }
}

/// An operand field, if it isn't empty.
pub fn some_field(field: &[u8]) -> Option<&[u8]>
    ensures { operands_behind (option_copied result) ≡ operands field.now }
{
    if field.is_empty() { None } else { Some(field) }
}
