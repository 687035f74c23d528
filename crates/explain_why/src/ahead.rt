//! The statement that begins at a place of a script, read before it's carried out.
ghost use Rattle.std.specs.Prelude.{◌≡◌, ◌+◌, ◌<◌, ◌≤◌, List, [], ◌∷◌, ◌++◌, drop, length, take};
ghost use Rattle.std.specs.Str.Lines.{strip_carriage_return};
ghost use Rattle.macro_reader.specs.Columns.{Line};
ghost use Rattle.macro_reader.specs.Scripts.{IsBehind};
ghost use Rattle.script_steps.specs.Script.{columns};
ghost use Rattle.explain_why.specs.Ahead.{Brought, IsAhead, IsReadAs};

use explain_faults::lines::{OpenLines, SourceLine};
use macro_reader::{FaultKind, Fed, Reader, ReaderState, Request};
use script_steps::before_feed;

/// What the lines from a place on ask for, if a reader awaits a statement.
#[derive(Drop)]
pub(crate) enum NextStatement {
    /// The first of them is a comment or empty.
    Aside,
    Request(Request),
    /// The statement is wrong.
    Fault(FaultKind),
    /// The script ends within the statement.
    Open,
}

/// A statement, and its lines: how many they are, and where each is in the text that they begin.
#[derive(Drop)]
pub(crate) struct Ahead {
    pub asked: NextStatement,
    pub lines: u32,
    pub places: OpenLines,
}

/// The first 80 bytes of a line.
fn front(line: &[u8]) -> &[u8]
    ensures { result.now ≡ take 80 line.now }
{
    let count = line.len().min(80);
    &line[..count]
}

/// A line without a carriage return at its end.
fn strip(line: &[u8]) -> &[u8]
    ensures { result.now ≡ strip_carriage_return line.now }
{
    let n = line.len();
    if n > 0 && line[n - 1] == b'\r' {
        &line[..n - 1]
    } else {
        line
    }
}

/// Columns 1 to 80 of a line, without a carriage return at its end if it's no longer.
fn columns(line: &[u8]) -> &[u8]
    ensures { result.now ≡ columns line.now }
{
    if line.len() > 80 {
        front(line)
    } else {
        strip(line)
    }
}

/// The first line of a text, of that many bytes, as it's read.
fn line_of(text: &[u8], size: usize) -> &[u8]
    requires { size ≤ length text.now }
    ensures { IsReadAs text.now size result.now }
{
    if size == text.len() {
        front(text)
    } else {
        columns(&text[..size])
    }
}

/// What begins at a place of a text.
pub(crate) fn rest_from(text: &[u8], at: usize) -> &[u8]
    requires { at ≤ length text.now }
    ensures { result.now ≡ drop at text.now }
{
    &text[at..]
}

/// What a line brought to a reader that awaited a statement or had one open; `None` if the statement goes on.
fn brought(reader: &mut Reader, line: &[u8]) -> Option<NextStatement>
    ensures { (lines : List Line) → IsBehind lines [] reader.old
        → Brought (lines ++ line.now ∷ []) reader.new result }
{
    match reader.next(line) {
        Ok(Fed::Ready(request, _)) => Some(NextStatement::Request(request)),
        Err(fault) => Some(NextStatement::Fault(fault.kind)),
        Ok(Fed::More) => match reader.stand() {
            ReaderState::Awaiting => Some(NextStatement::Aside),
            _ => None,
        },
    }
}

/// Reads the statement that a text begins with, at most ten lines.
pub(crate) fn read_ahead(text: &[u8]) -> Ahead
    ensures { IsAhead text.now result }
{
    let mut reader = Reader::new();
    let mut places = OpenLines::new();
    let mut at = 0;
    for lines in 1..11 {
        let rest = rest_from(text, at);
        let size = before_feed(rest);
        places.push(SourceLine {
            number: lines,
            start: at,
            end: at + size,
        });
        if let Some(asked) = brought(&mut reader, line_of(rest, size)) {
            return Ahead {
                asked,
                lines,
                places,
            };
        }
        if size >= rest.len() {
            return open_ahead(lines, places);
        }
        at += size + 1;
        if at >= text.len() {
            return open_ahead(lines, places);
        }
    }
    open_ahead(10, places)
}

/// A statement that is still open after these lines.
fn open_ahead(lines: u32, places: OpenLines) -> Ahead
    ensures { result ≡ record { asked = NextStatement.Open; lines = lines; places = places } }
{
    Ahead {
        asked: NextStatement::Open,
        lines,
        places,
    }
}
