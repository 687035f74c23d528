//! What a script hides: bytes that its reader takes for others than the writer meant.
ghost use Rattle.std.specs.Prelude.{◌≡◌, ◌≤◌, length};

use crate::fields::{card_of, ends_with_comma, nesting_behind, part_of, stops};
use crate::forms::keyword_in;
use crate::operand_hints::before;
use crate::roles::Role;
use crate::stands::LineStand;
use explain_text::column_of;
use macro_statements::head_of;
use operand_texts::nesting::{Nesting, field_len};
use operand_texts::words::after_blanks;

/// What a line or a file has that its reader takes otherwise than it looks.
#[derive(Clone, Copy)]
pub enum Warning {
    /// The file begins with a byte order mark.
    ByteOrderMark,
    /// The file is UTF-16.
    Utf16,
    /// The file looks like EBCDIC.
    Ebcdic,
    /// The file has carriage returns and no line feed.
    OnlyCarriageReturns,
    /// The file has records of 80 bytes without line feeds, of which only the first is read.
    NoLineFeeds,
    /// A tab, which isn't a blank.
    Tab,
    /// A character of several bytes before column 72, which moves what follows it.
    WideCharacter,
    /// A carriage return that isn't followed by a line feed.
    CarriageReturn,
    /// A word that goes across column 72, so that the next line goes on with the statement.
    WordAcross,
    /// Operands that end with a comma, and a character in column 71 that was meant for column 72.
    MarkBefore,
    /// The same with column 73.
    MarkAfter,
    /// Remarks that look like operands.
    Remarks,
    /// A comment before the first statement that asks for other options than those that were given.
    Options,
}

impl Warning {
    /// What it means, and what helps.
    pub fn text(self) -> &'static [u8] {
        match self {
            Warning::ByteOrderMark => {
                b"the file begins with a byte order mark: save it as plain text without one"
            }
            Warning::Utf16 => b"the file is UTF-16: save it as plain text",
            Warning::Ebcdic => b"the file looks like EBCDIC: iconv -f IBM1047 -t ASCII",
            Warning::OnlyCarriageReturns => {
                b"carriage returns without line feeds: the file is one line; tr '\\r' '\\n' makes lines"
            }
            Warning::NoLineFeeds => {
                b"records of 80 bytes without line feeds: only the first is read; fold -b -w 80 splits them"
            }
            Warning::Tab => b"a tab is no blank: write blanks",
            Warning::WideCharacter => {
                b"a character of several bytes shifts what follows: column 72 is counted in bytes"
            }
            Warning::CarriageReturn => {
                b"a carriage return without a line feed ends no line: the line goes on after it"
            }
            Warning::WordAcross => {
                b"column 72 falls into a word: the character there says that the next line goes on with this statement"
            }
            Warning::MarkBefore => {
                b"column 72 is blank, and column 71 isn't: a continuation needs its mark in column 72"
            }
            Warning::MarkAfter => {
                b"column 72 is blank, and column 73 isn't: a continuation needs its mark in column 72"
            }
            Warning::Remarks => b"a blank ends the operands: this is taken for remarks",
            Warning::Options => {
                b"this comment asks for other options: only the tools read it, so give them here too"
            }
        }
    }
}

/// How many of these bytes there are.
fn count(bytes: &[u8], wanted: u8) -> usize {
    let mut found: usize = 0;
    for byte in bytes {
        if *byte == wanted {
            found = found.saturating_add(1);
        }
    }
    found
}

/// The place of the first of these bytes.
fn place_of(bytes: &[u8], wanted: u8) -> Option<usize> {
    for i in 0..bytes.len() {
        if bytes[i] == wanted {
            return Some(i);
        }
    }
    None
}

/// The first 72 columns of a line, or all: those that are read.
fn columns(line: &[u8]) -> &[u8] {
    &line[..line.len().min(72)]
}

/// The place of the first letter of several bytes in columns 1 to 71 of a line that has a column 72. A line without a
/// blank is no text of ASCII or UTF-8.
fn wide_place(line: &[u8]) -> Option<usize> {
    if line.len() < 72 || place_of(line, b' ').is_none() {
        return None;
    }
    for i in 0..71usize {
        if line[i] > 127 && column_of(line, i + 1) == column_of(line, i) {
            return Some(i);
        }
    }
    None
}

/// Whether bytes look like EBCDIC: they have its blanks and some of its letters, and no blank of ASCII.
fn is_ebcdic(sample: &[u8]) -> bool {
    place_of(sample, 0x40).is_some()
        && place_of(sample, b' ').is_none()
        && sample.iter().any(|byte| *byte > 127)
}

/// What is wrong with a file as a whole, if anything is.
pub fn warning_on(script: &[u8]) -> Option<Warning> {
    if script.starts_with(b"\xef\xbb\xbf") {
        return Some(Warning::ByteOrderMark);
    }
    if script.starts_with(b"\xff\xfe") || script.starts_with(b"\xfe\xff") {
        return Some(Warning::Utf16);
    }
    let sample = &script[..script.len().min(4096)];
    if count(sample, 0) > sample.len() / 4 {
        return Some(Warning::Utf16);
    }
    if is_ebcdic(sample) {
        return Some(Warning::Ebcdic);
    }
    if place_of(script, b'\n').is_none() && place_of(script, b'\r').is_some() {
        return Some(Warning::OnlyCarriageReturns);
    }
    if script.len() > 80 && script.len() % 80 <= 1 && count(script, b'\n') <= script.len() % 80 {
        return Some(Warning::NoLineFeeds);
    }
    None
}

/// A warning with its column, from 1.
pub type Warned = Option<(usize, Warning)>;

/// The warning at a place, from 0.
fn warned(place: Option<usize>, warning: Warning) -> Warned {
    match place {
        Some(place) => Some((place.saturating_add(1), warning)),
        None => None,
    }
}

/// Whether columns 73 to 80 of a line are digits: a sequence number.
fn is_numbered(line: &[u8]) -> bool {
    line.len() >= 80 && line[72..80].iter().all(|byte| byte.is_ascii_digit())
}

/// Whether a word goes across column 72 of a line.
fn goes_across(line: &[u8]) -> bool {
    line.len() > 72
        && line[70] != b' '
        && line[71] != b' '
        && line[72] != b' '
        && place_of(line, b' ').is_some()
        && !is_numbered(line)
}

/// What a line has of a statement's operands, and of what follows them.
fn from_field(card: &[u8; 71], role: Role) -> &[u8]
    ensures { length result.now ≤ 71 }
{
    match role {
        Role::First => head_of(card).1,
        Role::Further => part_of(card),
        Role::Aside | Role::Breaking | Role::Gone => &card[71..],
    }
}

/// How operands are nested that begin between apostrophes or not.
fn nesting_from(quoted: bool) -> Nesting
    ensures { result.depth ≡ 0 }
{
    Nesting {
        quoted,
        depth: 0,
        overclosed: false,
    }
}

/// How many bytes of this are operands, if they begin between apostrophes or not, or have ended before.
fn operands_len(quoted: Option<bool>, text: &[u8]) -> usize
    requires { length text.now ≤ 71 }
    ensures { result ≤ length text.now }
{
    match quoted {
        Some(quoted) => field_len(nesting_from(quoted), text),
        None => 0,
    }
}

/// Whether an operand fills a line up to column 71 and goes on in column 16 of the next.
fn goes_on(line: &[u8], stand: &LineStand) -> bool {
    let (Some(quoted), Some(next)) = (stand.quoted, stand.next) else {
        return false;
    };
    let card = card_of(line);
    let text = from_field(&card, stand.role);
    !text.is_empty()
        && operands_len(stand.quoted, text) == text.len()
        && !stops(nesting_behind(nesting_from(quoted), text), next)
}

/// A mark next to column 72 of a line, if that is blank.
fn mark_beside(line: &[u8]) -> Warned {
    if line.len() < 71 || (line.len() > 71 && line[71] != b' ') {
        None
    } else if line.len() > 72 && line[72] != b' ' {
        Some((73, Warning::MarkAfter))
    } else if line[70] != b' ' && line[69] == b' ' {
        Some((71, Warning::MarkBefore))
    } else {
        None
    }
}

/// Whether a text begins as an operand after another does: with a comma, or with a keyword of the operation.
fn begins_as_operand(text: &[u8], operation: &[u8]) -> bool {
    let key = before(text, b'=');
    text.first() == Some(&b',') || (key.len() < text.len() && keyword_in(operation, key).is_some())
}

/// What looks like operands among the remarks of a line, or like the mark of a continuation.
fn field_warning(line: &[u8], stand: &LineStand) -> Warned {
    let operation = stand.operation?;
    let card = card_of(line);
    let text = from_field(&card, stand.role);
    let (operands, behind) = text.split_at(operands_len(stand.quoted, text));
    let remarks = after_blanks(behind);
    if begins_as_operand(remarks, operation) {
        Some((72 - remarks.len(), Warning::Remarks))
    } else if ends_with_comma(operands) && !behind.is_empty() {
        mark_beside(line)
    } else {
        None
    }
}

/// How many kinds of warnings a line may have.
pub const KINDS: usize = 6;

/// A warning of this kind, one of six, on what a line has that its reader takes otherwise than it looks. A comment or
/// an empty line has none of its columns.
pub fn warning_in(line: &[u8], stand: &LineStand, kind: usize) -> Warned {
    match (kind, stand.role) {
        (2, _) => warned(place_of(line, b'\r'), Warning::CarriageReturn),
        (5, _) => warned(stand.options, Warning::Options),
        (_, Role::Aside) => None,
        (0, _) => warned(place_of(columns(line), b'\t'), Warning::Tab),
        (1, _) => warned(wide_place(line), Warning::WideCharacter),
        (3, Role::First | Role::Further) if goes_across(line) && !goes_on(line, stand) => {
            warned(Some(71), Warning::WordAcross)
        }
        (4, _) => field_warning(line, stand),
        _ => None,
    }
}
