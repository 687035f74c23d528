//! A reader that is fed line by line.

ghost use Rattle.std.specs.Prelude.{◌≡◌, ◌≤◌, [], ◌∷◌, ◌++◌, List, OnOk};
ghost use Rattle.macro_reader.specs.Columns.{Line, is_continued};
ghost use Rattle.macro_reader.specs.Scripts.{Answer, Answers, IsBehind, IsValidFed, told_by, told_at_end, moved};
ghost use Rattle.macro_reader.specs.Scripts.{behind_break, awaiting};
ghost use Rattle.macro_reader.specs.Rooms.{told_with, IsValidWith};
ghost use Rattle.macro_statements.specs.Requests.{asked_in, IsValidAsked};
ghost use Rattle.macro_statements.specs.Rooms.{left};
ghost use Rattle.macro_statements.specs.Statements.{statement_with};
ghost use Rattle.macro_reader.specs.Continuation.{begun};
ghost use Rattle.macro_reader.specs.Modes.{mode_of, due_of, most_lines};
ghost use Rattle.macro_reader.specs.Roles.{IsStand};
ghost use Rattle.macro_reader.specs.declared.modes.OpenStatement.{OpenStatement};
ghost use Rattle.macro_reader.specs.declared.modes.Mode.TheVariants.{Awaiting, Gathering};

use crate::columns::{is_continued, is_skipped, put_used};
use crate::continuation::field_part;
use crate::modes::{Due, Mode, OpenStatement};
use macro_statements::{FaultKind, Request, head_of, statement_into};
use operand_texts::nesting::Nesting;
use std::marker::Model;
use std::mem;

/// A statement that is wrong.
#[derive(Clone, Copy, Debug, PartialEq, Eq)]
pub struct Fault {
    /// What is wrong with it.
    pub kind: FaultKind,
    /// The number of its first line, from 1.
    pub line: u32,
}

/// What a line brought.
#[derive(Debug, PartialEq, Eq, Drop)]
pub enum Fed {
    /// No answer is due.
    More,
    /// A request, with the number of its statement's first line, from 1.
    Ready(Request, u32),
}

/// A reader of statements. It keeps the count of the lines, which stays at 4,294,967,295 once it reaches that, and its
/// state, with what it has of an open statement.
#[derive(Drop)]
pub struct Reader {
    count: u32,
    mode: Mode,
    statement: OpenStatement,
    ghost few: { statement.gathered.lines ≤ most_lines mode },
}

impl Model for Reader {
    ghost use Rattle.macro_reader.specs.Scripts.{Kept};
    ghost use Rattle.macro_reader.specs.Modes.{mode_of};

    ghost Value = { Kept };

    ghost view = { λ r. record { count = r.count; mode = mode_of r.mode r.statement } };
}

/// The state of a reader between two lines.
#[derive(Clone, Copy, Debug, PartialEq, Eq)]
pub enum ReaderState {
    /// It awaits a statement.
    Awaiting,
    /// It drops the lines after a statement that is broken.
    Dropping,
    /// Its statement is open.
    Gathering,
}

/// How a line moves a reader that awaits a statement, and which answer is due.
fn start(number: u32, mode: &mut Mode, statement: &mut OpenStatement, line: &[u8]) -> Due
    requires { mode.old ≡ Awaiting }
    ensures mode { mode_of mode.new statement.new ≡ (moved number awaiting line.now).0 }
    ensures few { statement.new.gathered.lines ≤ most_lines mode.new }
    ensures told { due_of result statement.new ≡ (moved number awaiting line.now).1 }
{
    if is_skipped(line) {
        return Due::Nothing;
    }
    put_used(&mut statement.first, line);
    statement.number = number;
    if is_continued(line) {
        statement.gathered.begin(&statement.first);
        *mode = Mode::Gathering;
        return Due::Nothing;
    }
    Due::Line
}

/// The state of a reader after a line that breaks a rule of continuation or is dropped, whatever statement it has.
fn behind_break(line: &[u8]) -> Mode
    ensures mode { (s : OpenStatement) → mode_of result s ≡ behind_break (is_continued line.now) }
    ensures few { most_lines result ≡ 9 }
{
    if is_continued(line) {
        Mode::Dropping
    } else {
        Mode::Awaiting
    }
}

/// How a line moves a reader whose statement is open, and which answer is due.
fn go_on(mode: &mut Mode, statement: &mut OpenStatement, line: &[u8]) -> Due
    requires mode { mode.old ≡ Gathering }
    requires fewer { statement.old.gathered.lines ≤ 8 }
    ensures mode { mode_of mode.new statement.new ≡ (moved 0 (mode_of Gathering statement.old) line.now).0 }
    ensures few { statement.new.gathered.lines ≤ most_lines mode.new }
    ensures told { due_of result statement.new ≡ (moved 0 (mode_of Gathering statement.old) line.now).1 }
{
    let mut card = [b' '; 71];
    put_used(&mut card, line);
    if !statement.gathered.take_line(&card) {
        *mode = behind_break(line);
        return Due::Broken;
    }
    if !is_continued(line) {
        *mode = Mode::Awaiting;
        return Due::Whole;
    }
    if statement.gathered.lines > 8 {
        *mode = Mode::Dropping;
        return Due::Broken;
    }
    Due::Nothing
}

/// How a line moves a reader, and which answer is due.
fn move_on(number: u32, mode: &mut Mode, statement: &mut OpenStatement, line: &[u8]) -> Due
    requires { statement.old.gathered.lines ≤ most_lines mode.old }
    ensures mode { mode_of mode.new statement.new ≡ (moved number (mode_of mode.old statement.old) line.now).0 }
    ensures few { statement.new.gathered.lines ≤ most_lines mode.new }
    ensures told { due_of result statement.new ≡ (moved number (mode_of mode.old statement.old) line.now).1 }
{
    match *mode {
        Mode::Awaiting => start(number, mode, statement, line),
        Mode::Dropping => {
            *mode = behind_break(line);
            Due::Nothing
        }
        Mode::Gathering => go_on(mode, statement, line),
    }
}

/// Puts the request of a statement on one line, columns 1 to 71 of it, into a room, or returns its first fault.
fn line_into(card: &[u8], request: &mut Request) -> Result<(), FaultKind>
    ensures value { left result request.new ≡ statement_with card.now (begun card.now).text }
    ensures valid { OnOk result (IsValidAsked (asked_in request.new)) }
{
    let (head, rest) = head_of(card);
    let (n, at) = field_part(Nesting::outside(), rest);
    statement_into(head, &rest[..n], at.is_closed(), request)
}

/// Puts the request of a statement that was gathered into a room, or returns its first fault.
fn lines_into(statement: &OpenStatement, request: &mut Request) -> Result<(), FaultKind>
    ensures value { left result request.new
        ≡ statement_with statement.now.first statement.now.gathered.text.items }
    ensures valid { OnOk result (IsValidAsked (asked_in request.new)) }
{
    let (head, _) = head_of(&statement.first);
    let field = &statement.gathered;
    statement_into(head, field.text.as_slice(), field.at.is_closed(), request)
}

impl Reader {
    /// A reader that was fed no line.
    pub fn new() -> Reader
        ensures { IsBehind [] [] result }
    {
        Reader {
            count: 0,
            mode: Mode::Awaiting,
            statement: OpenStatement::none(),
        }
    }

    /// The state of the reader: what the next line is to it, by whether that is skipped, or breaks a rule.
    pub fn stand(&self) -> ReaderState
        ensures { IsStand self.now.mode result }
    {
        match self.mode {
            Mode::Awaiting => ReaderState::Awaiting,
            Mode::Dropping => ReaderState::Dropping,
            Mode::Gathering => ReaderState::Gathering,
        }
    }

    /// Takes the next line of a script, without its line feed. Columns 73 on aren't read.
    ///
    /// If the line ends a statement that asks for a request, puts that into a room and returns the number of the
    /// statement's first line, from 1. Returns nothing if no answer is due, and the first fault of a statement that is
    /// wrong. A line whose column 72 isn't blank is continued by the next line, which is used from column 16 on; a
    /// statement has at most nine continuation lines. If a rule of continuation is broken the fault is `Continuation`,
    /// whatever else is wrong with the statement, and it occurs at the line that breaks the rule; the lines after that
    /// are dropped as long as the line before has a column 72 that isn't blank. Each other fault occurs at the
    /// statement's last line. After a fault the reader awaits the next statement. (High Level Assembler Language
    /// Reference, "Assembler language coding conventions".)
    pub fn next_into(&mut self, line: &[u8], request: &mut Request) -> Result<Option<u32>, Fault>
        ensures answers { (lines : List Line) (answers : List Answer) → IsBehind lines answers self.old
            → IsBehind (lines ++ line.now ∷ []) (answers ++ told_with result (asked_in request.new)) self.new }
        ensures valid { IsValidWith result (asked_in request.new) }
    {
        let number = self.count.saturating_add(1);
        let mut mode = self.mode;
        let due = move_on(number, &mut mode, &mut self.statement, line);
        self.count = number;
        self.mode = mode;
        let open = &self.statement;
        let kind = match due {
            Due::Nothing => return Ok(None),
            Due::Line => match line_into(&open.first, request) {
                Ok(()) => return Ok(Some(open.number)),
                Err(kind) => kind,
            },
            Due::Whole => match lines_into(open, request) {
                Ok(()) => return Ok(Some(open.number)),
                Err(kind) => kind,
            },
            Due::Broken => FaultKind::Continuation,
        };
        let line = open.number;
        Err(Fault { kind, line })
    }

    /// Takes the next line in the same way, and returns the request itself, or `More` if no answer is due.
    pub fn next(&mut self, line: &[u8]) -> Result<Fed, Fault>
        ensures answers { (lines : List Line) (answers : List Answer) → IsBehind lines answers self.old
            → IsBehind (lines ++ line.now ∷ []) (answers ++ told_by result) self.new }
        ensures valid { IsValidFed result }
    {
        let mut request = Request::Map;
        match self.next_into(line, &mut request) {
            Ok(None) => Ok(Fed::More),
            Ok(Some(number)) => Ok(Fed::Ready(request, number)),
            Err(fault) => Err(fault),
        }
    }

    /// Ends the script. The reader is then as new, except that the count of its lines continues.
    ///
    /// A statement that is still open has the fault `Continuation`.
    pub fn finish(&mut self) -> Result<(), Fault>
        ensures answers { (lines : List Line) (answers : List Answer) → IsBehind lines answers self.old
            → Answers lines (answers ++ told_at_end result) }
        ensures mode { self.new.mode ≡ awaiting }
        ensures count { self.new.count ≡ self.old.count }
    {
        match mem::replace(&mut self.mode, Mode::Awaiting) {
            Mode::Gathering => Err(Fault {
                kind: FaultKind::Continuation,
                line: self.statement.number,
            }),
            _ => Ok(()),
        }
    }
}
