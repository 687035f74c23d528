//! Reports of a script over time: a row for each answer.
ghost use Rattle.std.specs.Prelude.{◌≡◌, ◌≤◌, [], Ok, List, ℕ, Option, drop, length, take};
ghost use Rattle.bench_core.specs.Stands.{IsNew, bench_of, settings_in};
ghost use Rattle.vsm_model.specs.declared.limits.Settings.{Settings as SettingsIn};
ghost use Rattle.storage_core.specs.Meaning.{settings_of, state_of};
ghost use Rattle.script_steps.specs.Script.{NoFeed};
ghost use Rattle.text_output.specs.Writing.{Puts};
ghost use Rattle.explain_report.specs.Changes.{AreFiguresAfter, IsAsBefore, may_change};
ghost use Rattle.explain_report.specs.OverTime.{Ends, IsNext, IsRest, ReportsOverTime, Rows, RowsAll};
ghost use Rattle.explain_report.specs.OverTime.{RowsLines, RowsStep, SearchedFor, WritesRows};
ghost use Rattle.explain_report.specs.Csv.{told_row};

use crate::csv::{put_heading, put_row};
use crate::faults::ReportFault;
use crate::runs::{end_text, rest_from};
use crate::tasks::search;
use crate::times::{Figures, SeenSubpool, figures_of, seen_in};
use bench_core::Bench;
use script_steps::{NumberedResponse, Response, Session, TooLong, Watch};
use std::alloc::Global;
use std::io::Write;
use storage_core::Storage;
use text_output::Gathered;
use vsm_model::{Reply, Settings};

/// Whether what was answered may have changed pages or free storage: each accepted statement but a POKE, and each step.
fn may_change(response: &Response) -> bool
    ensures { result ≡ may_change response.now }
{
    match response {
        Response::Replied(Reply::Stored) => false,
        Response::Replied(_) | Response::Kept(_) => true,
        Response::Refused(_)
        | Response::TooFar(_)
        | Response::TooFarAhead(_)
        | Response::Shown
        | Response::Map
        | Response::Fault(_) => false,
    }
}

/// The figures of a storage after an answer: those before it, if it changed nothing.
fn figures_after(storage: &Storage, before: Figures, response: &Response) -> Figures
    ensures { IsAsBefore (settings_of storage.now) (state_of storage.now) before response.now result }
{
    if may_change(response) {
        figures_of(storage, seen_in(&before))
    } else {
        before
    }
}

/// The figures of a bench after the answer of a line, if it has one.
fn figures_told(bench: &Bench, before: Figures, told: &NumberedResponse) -> Figures
    ensures { AreFiguresAfter (settings_in bench.now) (bench_of bench.now).present.storage before told.now result }
{
    match told {
        Some((_, response)) => figures_after(bench.storage(), before, response),
        None => before,
    }
}

/// Puts the row of an answer, if there is one.
fn put_told_row<W: Write>(
    gathered: &mut Gathered,
    out: &mut W,
    told: &NumberedResponse,
    figures: &Figures,
)
    ensures { Puts (W.contents out.old) (W.contents out.new) gathered.old gathered.new
        (told_row told.now figures.now) }
{
    if let Some((line, _)) = told {
        put_row(gathered, out, *line, figures);
    }
}

/// Puts the row of an answer, if there is one, and gives its figures.
fn put_answer<W: Write>(
    gathered: &mut Gathered,
    out: &mut W,
    bench: &Bench,
    before: Figures,
    told: &NumberedResponse,
) -> Figures
    ensures row { Puts (W.contents out.old) (W.contents out.new) gathered.old gathered.new
        (told_row told.now result) }
    ensures after { AreFiguresAfter (settings_in bench.now) (bench_of bench.now).present.storage before told.now
        result }
{
    let figures = figures_told(bench, before, told);
    put_told_row(gathered, out, told, &figures);
    figures
}

/// Takes the line that begins at a place of the script, and puts its row. Gives the place of the next; none if it has
/// no line feed.
fn put_line<W: Write>(
    session: &mut Session,
    script: &[u8],
    at: usize,
    figures: &mut Figures,
    gathered: &mut Gathered,
    out: &mut W,
) -> Result<Option<usize>, TooLong>
    requires { at ≤ length script.now }
    ensures rows { (settings : SettingsIn) (seen : Option (ℕ × ℕ)) (first : Option (List ℕ))
        → Rows settings seen first (W.contents out.old) gathered.old (take at script.now) session.old figures.old
        → RowsStep settings seen first (W.contents out.new) gathered.new script.now at session.new figures.new
        result }
    ensures next { IsNext script.now at result }
{
    match session.take_line(script, at) {
        Err(fault) => Err(fault),
        Ok(None) => Ok(None),
        Ok(Some(step)) => {
            *figures = put_answer(gathered, out, session.bench(), *figures, &step.told);
            Ok(Some(step.next))
        }
    }
}

/// Puts the rows of all lines that have a line feed, by the figures before the first. Gives the place after the last.
fn put_lines<W: Write, P: Watch>(
    session: &mut Session,
    script: &[u8],
    figures: &mut Figures,
    gathered: &mut Gathered,
    out: &mut W,
    watch: &mut P,
) -> Result<usize, TooLong>
    ensures rows { (settings : SettingsIn) (seen : Option (ℕ × ℕ)) (first : Option (List ℕ))
        → Rows settings seen first (W.contents out.old) gathered.old [] session.old figures.old
        → RowsLines settings seen first (W.contents out.new) gathered.new script.now session.new figures.new
        result }
    ensures rest { IsRest script.now result }
{
    let mut at = 0;
    while at < script.len() {
        match put_line(session, script, at, figures, gathered, out) {
            Err(fault) => return Err(fault),
            Ok(None) => return Ok(at),
            Ok(Some(next)) => at = next,
        }
        watch.line(session.lines());
    }
    Ok(at)
}

/// Puts the rows of what the end of a script brings.
fn put_end<W: Write>(session: Session, before: Figures, gathered: &mut Gathered, out: &mut W)
    ensures { (settings : SettingsIn) (seen : Option (ℕ × ℕ)) (first : Option (List ℕ)) (script : List ℕ)
        → Rows settings seen first (W.contents out.old) gathered.old script session before
        → Ends settings seen first (W.contents out.new) gathered.new script }
{
    let ending = session.end();
    let after = put_answer(gathered, out, &ending.bench, before, &ending.last);
    let _ = put_answer(gathered, out, &ending.bench, after, &ending.open_statement);
    drop(ending);
}

/// Takes what follows the last line feed, and puts the rows of the script's end.
fn put_rest<W: Write>(
    session: Session,
    script: &[u8],
    at: usize,
    before: Figures,
    gathered: &mut Gathered,
    out: &mut W,
) -> Result<(), ReportFault>
    requires within { at ≤ length script.now }
    requires plain { NoFeed (drop at script.now) }
    ensures { (settings : SettingsIn) (seen : Option (ℕ × ℕ)) (first : Option (List ℕ))
        → Rows settings seen first (W.contents out.old) gathered.old (take at script.now) session before
        → RowsAll settings seen first (W.contents out.new) gathered.new script.now result }
{
    let mut session = session;
    let rest = rest_from(script, at);
    match session.take_bytes(rest) {
        Ok(()) => {
            put_end(session, before, gathered, out);
            Ok(())
        }
        Err(_) => {
            drop(session);
            Err(ReportFault::TooLong)
        }
    }
}

/// Puts the rows of a script, by a session over no bytes yet and its figures.
fn put_rows<W: Write, P: Watch>(
    session: Session,
    script: &[u8],
    first: Figures,
    gathered: &mut Gathered,
    out: &mut W,
    watch: &mut P,
) -> Result<(), ReportFault>
    ensures { (settings : SettingsIn) (seen : Option (ℕ × ℕ)) (before : Option (List ℕ))
        → Rows settings seen before (W.contents out.old) gathered.old [] session first
        → RowsAll settings seen before (W.contents out.new) gathered.new script.now result }
{
    let mut session = session;
    let mut figures = first;
    match put_lines(&mut session, script, &mut figures, gathered, out, watch) {
        Ok(at) => put_rest(session, script, at, figures, gathered, out),
        Err(_) => {
            drop(session);
            Err(ReportFault::TooLong)
        }
    }
}

/// Writes the rows of a script, on a new bench.
fn over_time_on<W: Write, P: Watch>(
    bench: Bench,
    script: &[u8],
    seen: Option<SeenSubpool>,
    out: &mut W,
    watch: &mut P,
) -> Result<(), ReportFault>
    ensures { (settings : SettingsIn) → IsNew settings (Ok bench)
        → WritesRows settings script.now seen (W.contents out.old) (W.contents out.new) result }
{
    let first = figures_of(bench.storage(), seen);
    let session = Session::new(bench);
    let mut gathered = Gathered::new();
    put_heading(&mut gathered, out, seen.is_some());
    let outcome = put_rows(session, script, first, &mut gathered, out, watch);
    end_text(gathered, out, outcome)
}

/// Runs a script until the task exists whose subpool is asked for, if one is.
fn search_seen<P: Watch>(
    alloc: Global,
    script: &[u8],
    settings: Settings,
    seen: Option<SeenSubpool>,
    watch: &mut P,
) -> Result<(), ReportFault>
    ensures { SearchedFor settings script.now seen result }
{
    match seen {
        Some((task, _)) => search(alloc, script, settings, task, watch),
        None => Ok(()),
    }
}

/// Writes the rows of a script, on a bench of its own.
fn write_rows<W: Write, P: Watch>(
    alloc: Global,
    script: &[u8],
    settings: Settings,
    seen: Option<SeenSubpool>,
    out: &mut W,
    watch: &mut P,
) -> Result<(), ReportFault>
    ensures { WritesRows settings script.now seen (W.contents out.old) (W.contents out.new) result }
{
    match Bench::new(alloc, settings) {
        Ok(bench) => over_time_on(bench, script, seen, out, watch),
        Err(fault) => Err(ReportFault::New(fault)),
    }
}

/// Writes a row for each answer of a script, after a row of names: values with commas between, the first of which is
/// the line of the statement. Of the whole storage: on each side of the 16 MB line the assigned pages, the unassigned
/// ones, the runs of these and the longest; the bytes that are taken and free, and the free areas; and the sums of cell
/// pools. Or, of the subpool that a task sees at a number, on each side of the line: its pages, the bytes that are
/// taken and free in them, its free areas, and the bytes of the largest; zeros if the task sees none.
///
/// `NoTask` if the task never exists: the script first runs up to a statement after which it does. After `Write` a
/// prefix of the rows was written; after `TooLong` those of the lines before, or nothing if the task didn't exist yet;
/// after each other fault nothing.
pub fn over_time<W: Write, P: Watch>(
    alloc: Global,
    script: &[u8],
    settings: Settings,
    seen: Option<SeenSubpool>,
    out: &mut W,
    watch: &mut P,
) -> Result<(), ReportFault>
    ensures told { ReportsOverTime settings script.now seen (W.contents out.old) (W.contents out.new) result }
{
    match search_seen(alloc, script, settings, seen, watch) {
        Ok(()) => write_rows(alloc, script, settings, seen, out, watch),
        Err(fault) => Err(fault),
    }
}
