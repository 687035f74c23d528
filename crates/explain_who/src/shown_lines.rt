//! Statements of the script as they're shown.
ghost use Rattle.std.specs.Prelude.{◌≡◌, ◌≤◌, [], length};
ghost use Rattle.text_output.specs.Writing.{Puts};
ghost use Rattle.explain_who.specs.ScriptLines.{from_line, LinesBegin};
ghost use Rattle.explain_who.specs.LineTexts.{line_bytes, line_fields, line_text, padded, shown_bytes};

use crate::one_line::{StatementText, front, statement_here};
use explain_standing::rest_from;
use explain_text::{column_of, put_blanks, put_number_field, put_shown, put_string_field};
use std::io::Write;
use text_output::{Gathered, put_decimal};

/// The least number of columns that a line gets.
const COLUMNS: usize = 44;

/// The script from a line on, nothing if no such line exists; the lines begin at these places.
fn from_line<'a>(script: &'a [u8], starts: &[usize], line: u32) -> &'a [u8]
    requires { LinesBegin script.now script.now starts.now [] }
    ensures { result.now ≡ from_line script.now line }
{
    let number = line as usize;
    if number == 0 {
        return b"";
    }
    if number > starts.len() {
        return b"";
    }
    let start = starts[number - 1];
    if start > script.len() {
        return b"";
    }
    rest_from(script, start)
}

/// The statement that begins on a line.
fn statement_of(script: &[u8], starts: &[usize], line: u32) -> StatementText
    requires { LinesBegin script.now script.now starts.now [] }
    ensures { shown_bytes result.items ≡ line_bytes script.now line }
{
    statement_here(from_line(script, starts, line))
}

/// At most 71 bytes of a statement, without blanks at its ends.
fn shown_bytes(text: &StatementText) -> &[u8]
    ensures bytes { result.now ≡ shown_bytes text.now.items }
    ensures few { length result.now ≤ 71 }
{
    front(text.as_slice().trim_ascii())
}

/// Puts bytes of the script as they're shown, in a column.
fn put_padded<W: Write>(gathered: &mut Gathered, writer: &mut W, text: &[u8])
    requires { length text.now ≤ 71 }
    ensures { Puts (W.contents writer.old) (W.contents writer.new) gathered.old gathered.new (padded text.now) }
{
    put_shown(gathered, writer, text);
    let columns = column_of(text, text.len());
    put_blanks(gathered, writer, COLUMNS.saturating_sub(columns));
}

/// Puts the number of a line and its statement, in a column; the lines of the script begin at these places.
#[tactic(auto, using(text_output::proofs::Gathering::puts_both))]
pub fn put_line<W: Write>(
    gathered: &mut Gathered,
    writer: &mut W,
    script: &[u8],
    starts: &[usize],
    line: u32,
)
    requires { LinesBegin script.now script.now starts.now [] }
    ensures { Puts (W.contents writer.old) (W.contents writer.new) gathered.old gathered.new
        (line_text script.now line) }
{
    let statement = statement_of(script, starts, line);
    gathered.put(writer, b"line ");
    put_decimal(gathered, writer, u64::from(line));
    gathered.put(writer, b" ");
    put_padded(gathered, writer, shown_bytes(&statement));
    gathered.put(writer, b" | ");
}

/// Puts the number of a line and its statement, as fields; the lines of the script begin at these places.
#[tactic(auto, using(text_output::proofs::Gathering::puts_both))]
pub fn put_line_fields<W: Write>(
    gathered: &mut Gathered,
    writer: &mut W,
    script: &[u8],
    starts: &[usize],
    line: u32,
)
    requires { LinesBegin script.now script.now starts.now [] }
    ensures { Puts (W.contents writer.old) (W.contents writer.new) gathered.old gathered.new
        (line_fields script.now line) }
{
    let statement = statement_of(script, starts, line);
    put_number_field(gathered, writer, b"line", u64::from(line));
    put_string_field(gathered, writer, b"statement", shown_bytes(&statement));
}
