//! A session takes the bytes of its script, line by line.
ghost use Rattle.std.specs.Prelude.{◌≡◌, ◌<◌, ◌≤◌, [], ◌∷◌, ◌++◌, List, ℕ, take, length, Ok};
ghost use Rattle.std.specs.Str.Lines.{strip_carriage_return};
ghost use Rattle.vsm_model.specs.declared.limits.Settings.{Settings};
ghost use Rattle.macro_statements.specs.Requests.{asked_in};
ghost use Rattle.macro_reader.specs.Columns.{Line};
ghost use Rattle.macro_reader.specs.Scripts.{Answer, IsBehind};
ghost use Rattle.script_steps.specs.Answers.{Tells, told_text};
ghost use Rattle.script_steps.specs.Output.{Marked};
ghost use Rattle.script_steps.specs.Script.{NoFeed, columns, last_line};
ghost use Rattle.bench_core.specs.Stands.{IsNew, bench_of, settings_in};
ghost use Rattle.script_steps.specs.Taken.{Took, TakesBytes, Brings, IsTold, Shows, Ended, EndBrings, Counts};
ghost use Rattle.script_steps.specs.Taken.{AreAsked, EndAsks, answers_of};

use crate::answers::{tell, tell_end, told_count, told_refused};
use crate::responses::NumberedResponse;
use crate::session::{LINE_BYTES, LINES, Session, TooLong};
use crate::totals::RunTotals;
use arrayvec::ArrayVec;
use bench_core::Bench;
use macro_reader::{Reader, Request};

/// What the end of a script gives: the totals, the bench as it is then, and the responses to a last line without a line
/// feed and to a statement that is still open.
#[derive(Drop)]
pub struct Ending {
    /// What the whole script counted.
    pub totals: RunTotals,
    /// The bench as the script left it.
    pub bench: Bench,
    /// The response to a last line without a line feed.
    pub last: NumberedResponse,
    /// The fault of a statement that is open at the end.
    pub open_statement: NumberedResponse,
    /// The bytes of the last reading that showed its bytes.
    pub shown: ArrayVec<u8, 256>,
}

/// Keeps the bytes of a line of which the first 80 are kept.
fn keep(kept: &mut ArrayVec<u8, 80>, bytes: &[u8])
    ensures { (line : List ℕ) → kept.old.items ≡ take 80 line → kept.new.items ≡ take 80 (line ++ bytes.now) }
{
    let count = bytes.len().min(80 - kept.len());
    kept.try_extend_from_slice(&bytes[..count]).unwrap();
}

/// A line without a carriage return at its end.
fn strip(line: &[u8]) -> &[u8]
    ensures { result.now ≡ strip_carriage_return line.now }
{
    let n = line.len();
    if n > 0 && line[n - 1] == b'\r' {
        &line[..n - 1]
    } else {
        line
    }
}

/// Columns 1 to 80 of a line of this many bytes, of which the first 80 are kept.
fn columns(kept: &[u8], size: u32) -> &[u8]
    ensures { (line : List ℕ) → size ≡ length line → kept.now ≡ take 80 line → result.now ≡ columns line }
{
    if size <= 80 { strip(kept) } else { kept }
}

/// The response to a line with these columns. What its statement asks for goes into the room that is lent.
fn take_columns(
    reader: &mut Reader,
    bench: &mut Bench,
    columns: &[u8],
    shown: &mut ArrayVec<u8, 256>,
    request: &mut Request,
) -> NumberedResponse
    ensures tells { (lines : List Line) (answers : List Answer) → IsBehind lines answers reader.old
        → (more : List Answer) × IsBehind (lines ++ columns.now ∷ []) (answers ++ more) reader.new
        × Tells (settings_in bench.old) (bench_of bench.old) more result shown.new.items (bench_of bench.new)
        × AreAsked (asked_in request.new) more }
    ensures settings { settings_in bench.new ≡ settings_in bench.old }
{
    let fed = reader.next_into(columns, request);
    tell(bench, fed, request, shown)
}

/// The response to a last line of this many bytes, of which the first 80 are kept; none if there are no bytes. What its
/// statement asks for goes into the room that is lent.
fn take_last(
    reader: &mut Reader,
    bench: &mut Bench,
    kept: &[u8],
    size: u32,
    shown: &mut ArrayVec<u8, 256>,
    request: &mut Request,
) -> NumberedResponse
    ensures tells { (lines : List Line) (answers : List Answer) (rest : List ℕ) → IsBehind lines answers reader.old
        → size ≡ length rest → kept.now ≡ take 80 rest
        → (more : List Answer) × IsBehind (lines ++ last_line rest) (answers ++ more) reader.new
        × Tells (settings_in bench.old) (bench_of bench.old) more result shown.new.items (bench_of bench.new)
        × AreAsked (asked_in request.new) more }
    ensures settings { settings_in bench.new ≡ settings_in bench.old }
{
    if size == 0 {
        return None;
    }
    take_columns(reader, bench, kept, shown, request)
}

impl Session {
    /// A session over no bytes yet, on a new bench.
    pub fn new(bench: Bench) -> Session
        ensures { (settings : Settings) → IsNew settings (Ok bench) → Took settings [] [] result }
    {
        Session {
            reader: Reader::new(),
            bench,
            lines: 0,
            length: 0,
            kept: ArrayVec::new(),
            statements: 0,
            refused: 0,
            shown: ArrayVec::new(),
            request: Request::Map,
        }
    }

    /// Takes bytes of a line, none of them a line feed. `TooLong` if one of them passes a bound.
    pub fn take_bytes(&mut self, bytes: &[u8]) -> Result<(), TooLong>
        requires plain { NoFeed bytes.now }
        ensures { (settings : Settings) (given : List ℕ) (answers : List Marked) → Took settings given answers self.old
            → TakesBytes settings (given ++ bytes.now) answers self.new result }
    {
        if bytes.is_empty() {
            return Ok(());
        }
        if self.lines >= LINES {
            return Err(TooLong);
        }
        if bytes.len() > (LINE_BYTES - self.length) as usize {
            return Err(TooLong);
        }
        keep(&mut self.kept, bytes);
        self.length += bytes.len() as u32;
        Ok(())
    }

    /// Takes the line feed that ends a line, and gives the response to the line, if it has one, with the number of the
    /// statement's first line, from 1.
    ///
    /// Only while fewer than `LINES` lines have ended.
    ///
    /// ```
    /// let bench = Bench::new(rt.alloc(), DEFAULT_SETTINGS)?;
    /// let mut session = Session::new(bench);
    /// assert!(rt; session.take_bytes(b" MAP").is_ok());
    /// assert!(rt; session.lines() < LINES);
    /// assert!(rt; matches!(session.end_line(), Some((1, Response::Map))));
    /// ```
    pub fn end_line(&mut self) -> NumberedResponse
        requires { self.old.lines < 1048576 }
        ensures { (settings : Settings) (given : List ℕ) (answers : List Marked) → Took settings given answers self.old
            → (more : List Marked) × IsTold settings answers more
            (told_text settings (bench_of self.new.bench) self.new.shown.items result)
            × Brings settings answers more result × Took settings (given ++ 10 ∷ []) (answers ++ more) self.new
            × Shows settings answers more self.new.shown.items }
    {
        let mut request = Request::Map;
        self.end_line_into(&mut request)
    }

    /// Does the same, and puts what a statement that isn't wrong asked for into a room, if there is a response.
    pub fn end_line_into(&mut self, request: &mut Request) -> NumberedResponse
        requires { self.old.lines < 1048576 }
        ensures { (settings : Settings) (given : List ℕ) (answers : List Marked) → Took settings given answers self.old
            → (more : List Marked) × IsTold settings answers more
            (told_text settings (bench_of self.new.bench) self.new.shown.items result)
            × Brings settings answers more result × Took settings (given ++ 10 ∷ []) (answers ++ more) self.new
            × Shows settings answers more self.new.shown.items
            × AreAsked (asked_in request.new) (answers_of more) }
    {
        let told = take_columns(
            &mut self.reader,
            &mut self.bench,
            columns(self.kept.as_slice(), self.length),
            &mut self.shown,
            request,
        );
        self.kept.clear();
        self.length = 0;
        self.lines += 1;
        self.statements += told_count(&told);
        self.refused += told_refused(&told);
        told
    }

    /// Takes a line of at most 80 bytes, none of which was taken yet, with the line feed that ends it, and gives the
    /// response to the line as `end_line` does. The line is read where it lies.
    ///
    /// Only while fewer than `LINES` lines have ended.
    pub fn take_whole(&mut self, line: &[u8]) -> NumberedResponse
        requires between { self.old.length ≡ 0 }
        requires plain { NoFeed line.now }
        requires short { length line.now ≤ 80 }
        requires fewer { self.old.lines < 1048576 }
        ensures { (settings : Settings) (given : List ℕ) (answers : List Marked) → Took settings given answers self.old
            → (more : List Marked) × IsTold settings answers more
            (told_text settings (bench_of self.new.bench) self.new.shown.items result)
            × Brings settings answers more result
            × Took settings ((given ++ line.now) ++ 10 ∷ []) (answers ++ more) self.new
            × Shows settings answers more self.new.shown.items }
    {
        let told = take_columns(
            &mut self.reader,
            &mut self.bench,
            strip(line),
            &mut self.shown,
            &mut self.request,
        );
        self.lines += 1;
        self.statements += told_count(&told);
        self.refused += told_refused(&told);
        told
    }

    /// Takes the end of the script: what follows the last line feed is a line if there is anything.
    pub fn end(self) -> Ending
        ensures told { (settings : Settings) (given : List ℕ) (answers : List Marked) → Took settings given answers self
            → (more : List Marked) × IsTold settings answers more
            (told_text settings (bench_of result.bench) result.shown.items result.last
            ++ told_text settings (bench_of result.bench) result.shown.items result.open_statement)
            × Ended settings given (answers ++ more) × Counts settings (answers ++ more) result.totals }
        ensures brings { (settings : Settings) (given : List ℕ) (answers : List Marked)
            → Took settings given answers self → EndBrings settings given answers result }
        ensures settings { settings_in result.bench ≡ settings_in self.bench }
    {
        let mut request = Request::Map;
        self.end_into(&mut request)
    }

    /// Does the same, and puts what the statement of a last line without a line feed asked for into a room.
    pub fn end_into(self, request: &mut Request) -> Ending
        ensures told { (settings : Settings) (given : List ℕ) (answers : List Marked) → Took settings given answers self
            → (more : List Marked) × IsTold settings answers more
            (told_text settings (bench_of result.bench) result.shown.items result.last
            ++ told_text settings (bench_of result.bench) result.shown.items result.open_statement)
            × Ended settings given (answers ++ more) × Counts settings (answers ++ more) result.totals }
        ensures asks { (settings : Settings) (given : List ℕ) (answers : List Marked)
            → Took settings given answers self → EndAsks settings given answers result (asked_in request.new) }
        ensures settings { settings_in result.bench ≡ settings_in self.bench }
    {
        let Session {
            mut reader,
            mut bench,
            length,
            kept,
            statements,
            refused,
            mut shown,
            ..
        } = self;
        let last = take_last(
            &mut reader,
            &mut bench,
            kept.as_slice(),
            length,
            &mut shown,
            request,
        );
        let open_statement = tell_end(reader.finish());
        let totals = RunTotals {
            statements: statements + told_count(&last) + told_count(&open_statement),
            refused: refused + told_refused(&last) + told_refused(&open_statement),
        };
        Ending {
            totals,
            bench,
            last,
            open_statement,
            shown,
        }
    }
}
