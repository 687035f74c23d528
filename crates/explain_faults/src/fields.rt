//! The operand field of a statement over its lines, and the place of each of its bytes.
ghost use Rattle.std.specs.Prelude.{◌≡◌, ◌≤◌, ◌+◌, ◌-◌, ◌*◌, ◌<◌, ◌^◌, ◌==◌, ◌&&◌, ◌++◌, not, drop, length, Some, None};
ghost use Rattle.std.specs.List.{slice_get};
ghost use Rattle.std.specs.Result.{OnOk, OnErr};
ghost use Rattle.arrayvec.specs.ArrayVec.{array_vec_len};
ghost use Rattle.operand_texts.specs.Field.{nesting_after};
ghost use Rattle.macro_statements.specs.Statements.{from_operands};
ghost use Rattle.macro_reader.specs.Columns.{used, is_blank};
ghost use Rattle.macro_reader.specs.Continuation.{ends_with_comma, no_field};
ghost use Rattle.macro_reader.specs.Continuation.{begun, with_part, with_line};
ghost use Rattle.explain_faults.specs.Places.{in_row, added, joined_of};

use crate::gathered::{FIELD_BYTES, Field, TextPlace};
use arrayvec::ArrayVec;
use macro_statements::head_of;
use operand_texts::nesting::{Nesting, field_len};

/// Columns 1 to 71 of a line, filled with blanks.
pub(crate) fn card_of(line: &[u8]) -> [u8; 71]
    ensures { result ≡ used line.now }
{
    let mut card = [b' '; 71];
    let n = line.len().min(71);
    card[..n].copy_from_slice(&line[..n]);
    card
}

/// How the byte after a text is nested.
pub(crate) fn nesting_behind(start: Nesting, text: &[u8]) -> Nesting
    requires { start.depth + length text.now < 2 ^ 64 }
    ensures value { result ≡ nesting_after start text.now }
    ensures depth { result.depth ≤ start.depth + length text.now }
{
    let mut at = start;
    for byte in text {
        at = at.past(*byte);
    }
    at
}

pub(crate) fn ends_with_comma(text: &[u8]) -> bool
    ensures { result ≡ ends_with_comma text.now }
{
    !text.is_empty() && text[text.len() - 1] == b','
}

/// Whether a field ends before a byte that is nested this way.
pub(crate) fn stops(at: Nesting, byte: u8) -> bool
    ensures { result ≡ (not at.quoted && (byte == 32)) }
{
    !at.quoted && byte == b' '
}

pub(crate) fn is_blank(columns: &[u8]) -> bool
    ensures { result ≡ is_blank columns.now }
{
    columns.iter().all(|byte| *byte == b' ')
}

/// The first column that isn't blank, from 1.
fn first_filled(columns: &[u8]) -> usize {
    for i in 0..columns.len() {
        if columns[i] != b' ' {
            return i + 1;
        }
    }
    columns.len()
}

/// Columns 16 to 71.
pub(crate) fn part_of(card: &[u8]) -> &[u8]
    requires { length card.now ≡ 71 }
    ensures value { result.now ≡ drop 15 card.now }
    ensures len { length result.now ≡ 56 }
{
    &card[15..]
}

/// Appends a line's part to the text of a field.
fn append(text: &mut ArrayVec<u8, FIELD_BYTES>, part: &[u8])
    requires { array_vec_len text.old + length part.now ≤ 575 }
    ensures text { text.new.items ≡ text.old.items ++ part.now }
    ensures len { array_vec_len text.new ≡ array_vec_len text.old + length part.now }
{
    let _ = text.try_extend_from_slice(part);
}

/// The places of a field's bytes.
type Places = ArrayVec<TextPlace, FIELD_BYTES>;

/// Appends this many places, one after another on a line from this column on.
fn append_row(places: &mut Places, line: usize, column: usize, count: usize)
    requires room { array_vec_len places.old + count ≤ 575 }
    requires column { column ≤ 72 }
    ensures places { places.new.items ≡ places.old.items ++ in_row line column count }
    ensures len { array_vec_len places.new ≡ array_vec_len places.old + count }
{
    for i in 0..count {
        places.push(TextPlace {
            line,
            column: column + i,
        });
    }
}

impl Field {
    /// The field's part on a first line.
    pub fn begin(card: &[u8; 71]) -> Field
        ensures joined { joined_of result ≡ begun card.now }
        ensures places { result.places.items
            ≡ added 0 (72 - length (from_operands card.now)) no_field (begun card.now) }
        ensures lines { result.lines ≡ 0 }
    {
        let mut field = Field {
            text: ArrayVec::new(),
            at: Nesting::outside(),
            goes_on: false,
            places: ArrayVec::new(),
            lines: 0,
        };
        let (head, rest) = head_of(card);
        if !head.misplaced && !rest.is_empty() {
            field.take_part(rest, 0, 72 - rest.len());
        }
        field
    }

    /// The whole field so far.
    pub fn text(&self) -> &[u8]
        ensures value { result.now ≡ self.now.text.items }
        ensures size { length result.now ≤ 575 }
    {
        self.text.as_slice()
    }

    /// The place of each byte of the field.
    pub(crate) fn places(&self) -> &[TextPlace]
        ensures { result.now ≡ self.now.places.items }
    {
        self.places.as_slice()
    }

    /// Takes what a line has of the field, which begins in this column.
    fn take_part(&mut self, part: &[u8], line: usize, column: usize)
        requires room { array_vec_len self.old.text + length part.now ≤ 71 + 56 * self.old.lines }
        requires deep { self.old.at.depth + length part.now ≤ 71 + 56 * self.old.lines }
        requires column { column ≤ 72 }
        ensures joined { joined_of self.new ≡ with_part self.old.text.items self.old.at part.now }
        ensures places { self.new.places.items
            ≡ self.old.places.items ++ added line column (joined_of self.old) (joined_of self.new) }
        ensures lines { self.new.lines ≡ self.old.lines }
    {
        let n = field_len(self.at, part);
        let at = nesting_behind(self.at, &part[..n]);
        append(&mut self.text, &part[..n]);
        append_row(&mut self.places, line, column, n);
        self.at = at;
        self.goes_on = n == part.len() || ends_with_comma(self.text.as_slice());
    }

    /// Takes another continuation line; the column that breaks a rule of continuation, from 1, if one does.
    pub fn take_line(&mut self, card: &[u8; 71]) -> Result<(), usize>
        requires fewer { self.old.lines ≤ 8 }
        ensures joined { OnOk result (with_line (joined_of self.old) card.now ≡ Some (joined_of self.new)) }
        ensures places { OnOk result (self.new.places.items
            ≡ self.old.places.items ++ added (self.old.lines + 1) 16 (joined_of self.old) (joined_of self.new)) }
        ensures lines { OnOk result (self.new.lines ≡ self.old.lines + 1) }
        ensures broken { OnErr result (with_line (joined_of self.old) card.now ≡ None) }
    {
        if !is_blank(&card[..15]) {
            return Err(first_filled(&card[..15]));
        }
        self.lines += 1;
        if !self.goes_on {
            return Ok(());
        }
        if stops(self.at, card[15]) {
            if ends_with_comma(self.text.as_slice()) {
                return Err(16);
            }
            self.goes_on = false;
            return Ok(());
        }
        let line = self.lines;
        self.take_part(part_of(card), line, 16);
        Ok(())
    }

    /// The place of a byte of the field.
    pub fn place(&self, byte: usize) -> Option<TextPlace>
        ensures { result ≡ slice_get self.now.places.items byte }
    {
        match self.places.as_slice().get(byte) {
            Some(place) => Some(*place),
            None => None,
        }
    }
}
