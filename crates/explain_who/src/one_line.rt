//! A statement on one line: its first line, or, if it has several, what the reader joins of them.
ghost use Rattle.std.specs.Prelude.{◌≡◌, ◌≤◌, ◌+◌, ◌-◌, ◌++◌, option_map, length, position, slice_index_or, take};
ghost use Rattle.std.specs.List.{position_or_len};
ghost use Rattle.std.specs.Str.Lines.{strip_carriage_return};
ghost use Rattle.arrayvec.specs.ArrayVec.{array_vec_len};
ghost use Rattle.macro_reader.specs.Columns.{is_continued, used};
ghost use Rattle.macro_statements.specs.Statements.{from_operands};
ghost use Rattle.explain_faults.specs.Places.{joined_of};
ghost use Rattle.explain_who.specs.OneLine.{card_here, columns, ends_line, field_here, is_feed, joined_with, line_here};
ghost use Rattle.explain_who.specs.OneLine.{statement_here};
ghost use Rattle.explain_who.specs.ScriptLines.{after_feed};

use arrayvec::ArrayVec;
use explain_faults::gathered::Field;
use macro_statements::head_of;

/// The most bytes of a line that are shown.
const FRONT: usize = 71;

/// The most continuation lines of a statement.
const FURTHER: usize = 9;

/// A statement on one line: the columns of a first line, and a field.
pub(crate) type StatementText = ArrayVec<u8, 646>;

/// At most the first 71 bytes.
pub(crate) fn front(begins: &[u8]) -> &[u8]
    ensures { result.now ≡ take 71 begins.now }
{
    &begins[..FRONT.min(begins.len())]
}

/// The first place at which the line ends: its line feed, or a carriage return.
fn first_end(first: &[u8]) -> Option<usize>
    ensures { result ≡ position ends_line first.now }
{
    first
        .iter()
        .position(|byte| *byte == b'\n' || *byte == b'\r')
}

/// That place, or the number of bytes if the line has no end.
fn end_of(first: &[u8]) -> usize
    ensures { result ≡ position_or_len ends_line first.now }
{
    match first_end(first) {
        Some(end) => end,
        None => first.len(),
    }
}

/// The bytes of the line that begins here, at most 71.
fn columns(begins: &[u8]) -> &[u8]
    ensures value { result.now ≡ columns begins.now }
    ensures few { length result.now ≤ 71 }
{
    let first = front(begins);
    let end = end_of(first);
    &first[..end]
}

/// The place of the first line feed, if one follows.
fn first_feed(begins: &[u8]) -> Option<usize>
    ensures { result ≡ position is_feed begins.now }
{
    begins.iter().position(|byte| *byte == b'\n')
}

/// That place, or the number of bytes if none follows.
fn feed_of(begins: &[u8]) -> usize
    ensures place { result ≡ position_or_len is_feed begins.now }
    ensures within { result ≤ length begins.now }
{
    match first_feed(begins) {
        Some(end) => end,
        None => begins.len(),
    }
}

/// A line without a carriage return at its end.
fn strip(line: &[u8]) -> &[u8]
    ensures { result.now ≡ strip_carriage_return line.now }
{
    let n = line.len();
    if n > 0 && line[n - 1] == b'\r' {
        &line[..n - 1]
    } else {
        line
    }
}

/// The line that begins here.
fn line_here(begins: &[u8]) -> &[u8]
    ensures { result.now ≡ line_here begins.now }
{
    let end = feed_of(begins);
    strip(&begins[..end])
}

/// What follows its line feed.
fn after_feed(begins: &[u8]) -> &[u8]
    ensures { result.now ≡ after_feed begins.now }
{
    let end = feed_of(begins);
    &begins[(end + 1).min(begins.len())..]
}

/// The byte of a column, counted from 0.
fn column(line: &[u8], i: usize) -> u8
    ensures { result ≡ slice_index_or line.now i 32 }
{
    if i < line.len() { line[i] } else { b' ' }
}

/// Whether the next line continues a line: its column 72 isn't blank.
fn is_continued(line: &[u8]) -> bool
    ensures { result ≡ is_continued line.now }
{
    column(line, FRONT) != b' '
}

/// Columns 1 to 71 of a line, filled with blanks.
fn card_of(line: &[u8]) -> [u8; 71]
    ensures { result ≡ used line.now }
{
    let mut card = [b' '; 71];
    let n = line.len().min(71);
    card[..n].copy_from_slice(&line[..n]);
    card
}

/// The columns of the line that begins here.
fn card_here(begins: &[u8]) -> [u8; 71]
    ensures { result ≡ card_here begins.now }
{
    card_of(line_here(begins))
}

/// The operand field of the statement that begins here, over its lines; `None` if one of them breaks a rule of
/// continuation.
fn field_here(begins: &[u8]) -> Option<Field>
    ensures { option_map joined_of result ≡ field_here begins.now }
{
    let mut field = Field::begin(&card_here(begins));
    let mut line = begins;
    for i in 0..FURTHER {
        if !is_continued(line_here(line)) {
            return Some(field);
        }
        line = after_feed(line);
        match field.take_line(&card_here(line)) {
            Ok(()) => (),
            Err(_) => return None,
        }
    }
    Some(field)
}

/// Appends bytes.
fn append(text: &mut StatementText, bytes: &[u8])
    requires { array_vec_len text.old + length bytes.now ≤ 646 }
    ensures text { text.new.items ≡ text.old.items ++ bytes.now }
    ensures len { array_vec_len text.new ≡ array_vec_len text.old + length bytes.now }
{
    let _ = text.try_extend_from_slice(bytes);
}

/// The columns of a first line before its operands.
fn before_operands(card: &[u8; 71]) -> &[u8]
    ensures value { result.now ≡ take (71 - length (from_operands card.now)) card.now }
    ensures few { length result.now ≤ 71 }
{
    let (_, operands) = head_of(card);
    &card[..FRONT - operands.len()]
}

/// The columns of a first line before its operands, and the field; only that line without a field.
fn joined_with(card: &[u8; 71], field: Option<Field>) -> StatementText
    ensures { result.items ≡ joined_with card.now (option_map joined_of field) }
{
    let mut text = ArrayVec::new();
    match field {
        None => append(&mut text, card),
        Some(field) => {
            append(&mut text, before_operands(card));
            append(&mut text, field.text());
            drop(field);
        }
    }
    text
}

/// The statement that begins here.
pub(crate) fn statement_here(begins: &[u8]) -> StatementText
    ensures { result.items ≡ statement_here begins.now }
{
    if is_continued(line_here(begins)) {
        return joined_with(&card_here(begins), field_here(begins));
    }
    let mut text = ArrayVec::new();
    append(&mut text, columns(begins));
    text
}
