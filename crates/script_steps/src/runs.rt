//! A run over a reader and a writer.
ghost use Rattle.std.specs.Prelude.{◌≡◌, ◌↔◌, ◌++◌, [], ◌∷◌, ◌<◌, ◌≤◌, ℕ, List, Option, length, IfOk, IsTrue, OnOk};
ghost use Rattle.std.specs.Io.KnownBytes.{IsAtEnd};
ghost use Rattle.vsm_model.specs.declared.limits.Settings.{Settings};
ghost use Rattle.bench_core.specs.Stands.{bench_of, settings_in};
ghost use Rattle.text_output.specs.Writing.{IsEmpty, Puts};
ghost use Rattle.script_steps.specs.Answers.{told_text};
ghost use Rattle.script_steps.specs.Script.{NoFeed};
ghost use Rattle.script_steps.specs.Run.{Runs, GoesOn, Takes, TakesLine, TakesRead, Finishes, Ran};

use crate::faults::RunFault;
use crate::responses::NumberedResponse;
use crate::session::{LINES, Session, TooLong};
use crate::steps::before_feed;
use crate::texts::put_told;
use crate::totals::RunTotals;
use bench_core::Bench;
use std::alloc::Global;
use std::io::{Read, Write};
use text_output::Gathered;
use vsm_model::Settings;

/// Puts the response that a session gave to a line.
fn put_answer<W: Write>(
    session: &Session,
    gathered: &mut Gathered,
    writer: &mut W,
    told: &NumberedResponse,
)
    ensures { Puts (W.contents writer.old) (W.contents writer.new) gathered.old gathered.new
        (told_text (settings_in session.now.bench) (bench_of session.now.bench) session.now.shown.items told.now) }
{
    put_told(gathered, writer, session.bench(), session.shown(), told);
}

/// Takes a line feed, and puts the response to the line that it ends.
fn take_feed<W: Write>(
    session: &mut Session,
    gathered: &mut Gathered,
    writer: &mut W,
) -> Result<(), TooLong>
    ensures { GoesOn (W.contents writer.old) gathered.old session.old (λ settings first given.
        Takes settings first (W.contents writer.new) gathered.new (given ++ 10 ∷ []) session.new result) }
{
    if session.lines() >= LINES {
        return Err(TooLong);
    }
    let told = session.end_line();
    put_answer(session, gathered, writer, &told);
    Ok(())
}

/// Whether the rest has a line feed after this many bytes, at most 80, and none of the line was taken yet.
fn is_whole(session: &Session, size: usize, rest: &[u8]) -> bool
    ensures { IsTrue result ↔ (size < length rest.now) × (size ≤ 80) × (session.now.length ≡ 0) }
{
    size < rest.len() && size <= 80 && session.is_between()
}

/// Takes a line of at most 80 bytes, none of which was taken yet, with its line feed, and puts the response to it.
fn take_whole<W: Write>(
    session: &mut Session,
    gathered: &mut Gathered,
    writer: &mut W,
    line: &[u8],
) -> Result<(), TooLong>
    requires between { session.old.length ≡ 0 }
    requires plain { NoFeed line.now }
    requires short { length line.now ≤ 80 }
    ensures { GoesOn (W.contents writer.old) gathered.old session.old (λ settings first given.
        Takes settings first (W.contents writer.new) gathered.new ((given ++ line.now) ++ 10 ∷ []) session.new
        result) }
{
    if session.lines() >= LINES {
        return Err(TooLong);
    }
    let told = session.take_whole(line);
    put_answer(session, gathered, writer, &told);
    Ok(())
}

/// Takes the bytes up to and with the first line feed, or all bytes if there is none. Gives how many these are.
fn take_line<W: Write>(
    session: &mut Session,
    gathered: &mut Gathered,
    writer: &mut W,
    rest: &[u8],
) -> Result<usize, TooLong>
    requires { 0 < length rest.now }
    ensures takes { GoesOn (W.contents writer.old) gathered.old session.old (λ settings first given.
        TakesLine settings first (W.contents writer.new) gathered.new given rest.now session.new result) }
    ensures some { IfOk result (λ n. 0 < n) }
    ensures within { IfOk result (λ n. n ≤ length rest.now) }
{
    let size = before_feed(rest);
    if is_whole(session, size, rest) {
        take_whole(session, gathered, writer, &rest[..size])?;
        return Ok(size + 1);
    }
    session.take_bytes(&rest[..size])?;
    if size == rest.len() {
        return Ok(size);
    }
    take_feed(session, gathered, writer)?;
    Ok(size + 1)
}

/// Takes the bytes of one read.
fn take_piece<W: Write>(
    session: &mut Session,
    gathered: &mut Gathered,
    writer: &mut W,
    piece: &[u8],
) -> Result<(), TooLong>
    ensures { GoesOn (W.contents writer.old) gathered.old session.old (λ settings first given.
        Takes settings first (W.contents writer.new) gathered.new (given ++ piece.now) session.new result) }
{
    let mut rest = piece;
    while !rest.is_empty() {
        let n = take_line(session, gathered, writer, rest)?;
        rest = &rest[n..];
    }
    Ok(())
}

/// Takes the bytes of one read, and writes their output, also up to a byte that passes a bound.
fn take_read<W: Write>(
    session: &mut Session,
    gathered: &mut Gathered,
    writer: &mut W,
    piece: &[u8],
) -> Result<(), RunFault>
    ensures takes { GoesOn (W.contents writer.old) gathered.old session.old (λ settings first given.
        TakesRead settings first (W.contents writer.new) gathered.new (given ++ piece.now) session.new result) }
    ensures empty { OnOk result (IsEmpty gathered.new) }
{
    let taken = take_piece(session, gathered, writer, piece);
    gathered.hand_out(writer)?;
    taken?;
    Ok(())
}

/// Takes the end of the script.
fn finish<W: Write>(
    session: Session,
    gathered: &mut Gathered,
    writer: &mut W,
) -> Result<RunTotals, RunFault>
    ensures { (settings : Settings) (left first : Option (List ℕ)) (given : List ℕ) → IsAtEnd left
        → Runs settings first (W.contents writer.old) gathered.old given session
        → Finishes settings left first (W.contents writer.new) given result }
{
    let ending = session.end();
    let shown = ending.shown.as_slice();
    put_told(gathered, writer, &ending.bench, shown, &ending.last);
    put_told(
        gathered,
        writer,
        &ending.bench,
        shown,
        &ending.open_statement,
    );
    gathered.hand_out(writer)?;
    Ok(ending.totals)
}

/// Reads a script to its end, carries its statements out on a new bench with these settings, and writes a line for each
/// statement that is complete or faulty, and after that of a MAP the lines of the map.
///
/// A line ends at a line feed, which isn't part of it, nor is a carriage return before it; bytes after the last line
/// feed are a line if there are any. Output is gathered, and written when there is no room for more and before each
/// read. After `Read` the output is that of the complete lines, after `TooLong` that of the lines before the byte that
/// passes a bound, and after `Write` a prefix of one of these, or of all output if the reader has met its end; after
/// `New` nothing was read or written.
///
/// ```
/// let mut script: &[u8] = b" STORAGE OBTAIN,LENGTH=8\n";
/// let mut output = Vec::new(rt.alloc());
/// assert!(rt; run(rt.alloc(), &mut script, &mut output, DEFAULT_SETTINGS).is_ok());
/// assert!(rt;
///     output
///         .as_slice()
///         .starts_with(b"0000001 RC=0 A=00006000 L=00000008\n")
/// );
/// ```
#[tactic(auto, using(crate::proofs::Outcomes::read_fault))]
pub fn run<R: Read, W: Write>(
    alloc: Global,
    reader: &mut R,
    writer: &mut W,
    settings: Settings,
) -> Result<RunTotals, RunFault>
    ensures { Ran settings (R.remaining reader.old) (R.remaining reader.new) (W.contents writer.old)
        (W.contents writer.new) result }
{
    let bench = match Bench::new(alloc, settings) {
        Ok(bench) => bench,
        Err(fault) => return Err(RunFault::New(fault)),
    };
    let mut session = Session::new(bench);
    let mut gathered = Gathered::new();
    let mut buffer = [0u8; 8192];
    'reads: for _ in 0..u64::MAX {
        let Ok(n) = reader.read(&mut buffer) else {
            return Err(RunFault::Read);
        };
        if n == 0 {
            return finish(session, &mut gathered, writer);
        }
        if let Err(fault) = take_read(&mut session, &mut gathered, writer, &buffer[..n]) {
            return Err(fault);
        }
    }
    Err(RunFault::Read)
}
