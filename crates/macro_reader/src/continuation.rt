//! The operand field of a statement over its continuation lines.

ghost use Rattle.std.specs.Prelude.{◌≡◌, ◌++◌, ◌+◌, ◌*◌, ◌≤◌, ◌<◌, ◌^◌, length, take, drop, MatchBool, IsTrue, Some};
ghost use Rattle.std.specs.Prelude.{None};
ghost use Rattle.arrayvec.specs.ArrayVec.{array_vec_len};
ghost use Rattle.operand_texts.specs.Field.{field_len, nesting_after};
ghost use Rattle.macro_statements.specs.Statements.{IsHead};
ghost use Rattle.macro_reader.specs.Continuation.{ends_with_comma, with_part, begun, with_line};
ghost use Rattle.macro_reader.specs.Columns.{is_blank};
ghost use Rattle.macro_reader.specs.Modes.{joined};

use crate::columns::is_blank;
use crate::modes::{FIELD_BYTES, OpenField};
use arrayvec::ArrayVec;
use macro_statements::head_of;
use operand_texts::nesting::Nesting;
use operand_texts::runs::end_of_run;

/// How many bytes of a text, whose first byte has this nesting, belong to the field, those up to the first blank
/// outside apostrophes or all, and the nesting of the byte after them. No byte above a parenthesis changes that.
#[inline(always)]
pub(crate) fn field_part(start: Nesting, text: &[u8]) -> (usize, Nesting)
    requires { start.depth + length text.now < 2 ^ 64 }
    ensures len { result.0 ≡ field_len start text.now }
    ensures within { result.0 ≤ length text.now }
    ensures at { result.1 ≡ nesting_after start (take result.0 text.now) }
    ensures depth { result.1.depth ≤ start.depth + result.0 }
{
    let mut at = start;
    let mut i = 0;
    'marks: while i < text.len() {
        let mark = end_of_run(text, i, b')');
        if mark == text.len() {
            return (mark, at);
        }
        let byte = text[mark];
        if byte == b' ' && !at.quoted {
            return (mark, at);
        }
        at = at.past(byte);
        i = mark + 1;
    }
    (text.len(), at)
}

/// Appends a line's part to the field.
fn append(text: &mut ArrayVec<u8, FIELD_BYTES>, part: &[u8])
    requires { array_vec_len text.old + length part.now ≤ 575 }
    ensures { text.new.items ≡ text.old.items ++ part.now }
{
    let _ = text.try_extend_from_slice(part);
}

fn ends_with_comma(text: &[u8]) -> bool
    ensures { result ≡ ends_with_comma text.now }
{
    !text.is_empty() && text[text.len() - 1] == b','
}

/// Columns 16 to 71.
fn part_of(card: &[u8]) -> &[u8]
    requires { length card.now ≡ 71 }
    ensures value { result.now ≡ drop 15 card.now }
    ensures len { length result.now ≡ 56 }
{
    &card[15..]
}

// Whether columns 1 to 15 of a line are blank, as those of a continuation line have to be.
fn is_indented(card: &[u8]) -> bool
    requires { 15 ≤ length card.now }
    ensures { result ≡ is_blank (take 15 card.now) }
{
    is_blank(&card[..15])
}

impl OpenField {
    /// Takes the field's part on a first line, columns 1 to 71 of it, in place of what was gathered.
    pub(crate) fn begin(&mut self, card: &[u8])
        requires { length card.now ≡ 71 }
        ensures joined { joined self.new ≡ begun card.now }
        ensures lines { self.new.lines ≡ 0 }
    {
        self.text.clear();
        self.at = Nesting::outside();
        self.goes_on = false;
        self.lines = 0;
        let (head, rest) = head_of(card);
        if !head.misplaced && !rest.is_empty() {
            self.take_part(rest);
        }
    }

    /// Takes the field's part of a line.
    fn take_part(&mut self, part: &[u8])
        requires room { array_vec_len self.old.text + length part.now ≤ 71 + 56 * self.old.lines }
        requires deep { self.old.at.depth + length part.now ≤ 71 + 56 * self.old.lines }
        ensures joined { joined self.new ≡ with_part self.old.text.items self.old.at part.now }
        ensures lines { self.new.lines ≡ self.old.lines }
    {
        let (n, at) = field_part(self.at, part);
        append(&mut self.text, &part[..n]);
        self.at = at;
        self.goes_on = n == part.len() || ends_with_comma(self.text.as_slice());
    }

    /// Takes one more continuation line, columns 1 to 71 of it, and says whether it is accepted. If a rule of
    /// continuation is broken, the field can no longer be used.
    pub(crate) fn take_line(&mut self, card: &[u8]) -> bool
        requires size { length card.now ≡ 71 }
        requires fewer { self.old.lines ≤ 8 }
        ensures lines { IsTrue result → self.new.lines ≡ self.old.lines + 1 }
        ensures joined { MatchBool result (with_line (joined self.old) card.now ≡ Some (joined self.new))
            (with_line (joined self.old) card.now ≡ None) }
    {
        if !is_indented(card) {
            return false;
        }
        self.lines += 1;
        if !self.goes_on {
            return true;
        }
        if !self.at.quoted && card[15] == b' ' {
            if ends_with_comma(self.text.as_slice()) {
                return false;
            }
            self.goes_on = false;
            return true;
        }
        self.take_part(part_of(card));
        true
    }
}
