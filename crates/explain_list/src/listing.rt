//! The listing of a script: its lines, and after each statement its answer.
ghost use Rattle.std.specs.Prelude.{◌≡◌, ◌≤◌, ℕ, List, Ok, Err, Option, length, drop};
ghost use Rattle.vsm_model.specs.declared.limits.Settings.{Settings};
ghost use Rattle.bench_core.specs.Stands.{IsNew};
ghost use Rattle.script_steps.specs.Script.{NoFeed};
ghost use Rattle.text_output.specs.Writing.{Puts};
ghost use Rattle.explain_list.specs.Listing.{Lists, ListsLine, ListsLines, ListsRest, IsNext, IsRest, Stops, Listed};
ghost use Rattle.explain_list.specs.Listing.{ListsFront};
ghost use Rattle.explain_list.specs.Listing.{PutsFilePage, head_in};
ghost use Rattle.explain_list.specs.Pages.{line_of};

use crate::answers::Answered;
use crate::faults::ListFault;
use crate::layouts::{Layout, is_written};
use crate::page_texts::{put_ending, put_page};
use crate::pages::{ListingPage, rest_line};
use crate::rows::put_file_row;
use bench_core::Bench;
use explain_faults::lines::SourceLine;
use explain_text::{Form, put_head};
use macro_reader::Request;
use script_steps::{Session, Step, TooLong, Watch};
use std::alloc::Global;
use std::io::{ErrorKind, Write};
use text_output::{Gathered, WriteFault};
use vsm_model::Settings;

/// The bytes of a script from a place on.
pub fn rest_from(script: &[u8], at: usize) -> &[u8]
    requires { at ≤ length script.now }
    ensures { result.now ≡ drop at script.now }
{
    &script[at..]
}

/// The line of this number that was taken in a step, without its line feed.
fn line_of(number: u32, step: &Step) -> SourceLine
    ensures { result ≡ line_of number step.now }
{
    SourceLine {
        number,
        start: step.start,
        end: step.next.saturating_sub(1),
    }
}

/// Lists the line that begins at a place of the script, and gives the place of the next; none if it has no line feed.
fn list_line<W: Write>(
    layout: Layout,
    session: &mut Session,
    gathered: &mut Gathered,
    writer: &mut W,
    page: &mut ListingPage,
    script: &[u8],
    at: usize,
) -> Result<Option<usize>, TooLong>
    requires { at ≤ length script.now }
    ensures lists { (settings : Settings) (first : Option (List ℕ))
        → Lists layout settings script.now first (W.contents writer.old) gathered.old page.old at session.old
        → ListsLine layout settings script.now first (W.contents writer.new) gathered.new page.new at session.new
        result }
    ensures next { IsNext script.now at result }
{
    let number = session.lines().saturating_add(1);
    let mut request = Request::Map;
    match page.take_line(session, script, at, &mut request) {
        Err(fault) => Err(fault),
        Ok(None) => Ok(None),
        Ok(Some(step)) => {
            let answered = Answered {
                alloc: page.alloc(),
                bench: session.bench(),
                shown: session.shown(),
                told: &step.told,
                request: &request,
                last: line_of(number, &step),
            };
            put_page(layout, gathered, writer, page, script, &answered);
            Ok(Some(step.next))
        }
    }
}

/// Lists all lines that have a line feed, and gives the place after the last.
fn list_lines<W: Write, P: Watch>(
    layout: Layout,
    session: &mut Session,
    gathered: &mut Gathered,
    writer: &mut W,
    page: &mut ListingPage,
    script: &[u8],
    watch: &mut P,
) -> Result<usize, TooLong>
    ensures lists { (settings : Settings) (first : Option (List ℕ))
        → Lists layout settings script.now first (W.contents writer.old) gathered.old page.old 0 session.old
        → ListsLines layout settings script.now first (W.contents writer.new) gathered.new page.new session.new result }
    ensures rest { IsRest script.now result }
{
    let mut at = 0;
    while at < script.len() {
        match list_line(layout, session, gathered, writer, page, script, at) {
            Err(fault) => return Err(fault),
            Ok(None) => return Ok(at),
            Ok(Some(next)) => at = next,
        }
        watch.line(session.lines());
    }
    Ok(at)
}

/// Why there is no listing if a write failed: one of the text of a cause fails if no memory is left.
fn write_fault(fault: WriteFault) -> ListFault
    ensures { (layout : Layout) (settings : Settings) (script : List ℕ) (at_first now : Option (List ℕ))
        → ListsFront layout settings script at_first now
        → Listed layout settings script at_first now (Err result) }
{
    match fault.error.kind() {
        ErrorKind::OutOfMemory => ListFault::Memory,
        _ => ListFault::Write,
    }
}

/// Hands out what is listed up to a byte that passes a bound.
fn stop<W: Write>(gathered: &mut Gathered, writer: &mut W) -> Result<bool, ListFault>
    ensures { (layout : Layout) (settings : Settings) (first : Option (List ℕ)) (script : List ℕ)
        → Stops layout settings script first (W.contents writer.old) gathered.old
        → Listed layout settings script first (W.contents writer.new) result }
{
    match gathered.hand_out(writer) {
        Ok(()) => Err(ListFault::TooLong),
        Err(fault) => Err(write_fault(fault)),
    }
}

/// Lists what follows the last line feed, and the end of the script.
fn list_end<W: Write>(
    layout: Layout,
    session: Session,
    gathered: &mut Gathered,
    writer: &mut W,
    page: &mut ListingPage,
    script: &[u8],
    line: SourceLine,
) -> Result<bool, ListFault>
    ensures { (settings : Settings) (first : Option (List ℕ))
        → ListsRest layout settings script.now first (W.contents writer.old) gathered.old page.old line session
        → Listed layout settings script.now first (W.contents writer.new) result }
{
    let before = session.stand();
    let mut request = Request::Map;
    let ending = session.end_into(&mut request);
    page.take_last(script, line, before, &ending);
    put_ending(
        layout,
        gathered,
        writer,
        page,
        script,
        &ending,
        &ending.last,
        &request,
        line,
    );
    page.show_open(script, &ending);
    put_ending(
        layout,
        gathered,
        writer,
        page,
        script,
        &ending,
        &ending.open_statement,
        &request,
        line,
    );
    let is_refused = ending.totals.refused > 0;
    drop(ending);
    match gathered.hand_out(writer) {
        Ok(()) => Ok(is_refused),
        Err(fault) => Err(write_fault(fault)),
    }
}

/// Takes what follows the last line feed, and lists it and the end of the script.
fn list_rest<W: Write>(
    layout: Layout,
    session: Session,
    gathered: &mut Gathered,
    writer: &mut W,
    page: &mut ListingPage,
    script: &[u8],
    at: usize,
) -> Result<bool, ListFault>
    requires within { at ≤ length script.now }
    requires plain { NoFeed (drop at script.now) }
    ensures { (settings : Settings) (first : Option (List ℕ))
        → Lists layout settings script.now first (W.contents writer.old) gathered.old page.old at session
        → Listed layout settings script.now first (W.contents writer.new) result }
{
    let mut session = session;
    let line = rest_line(session.lines(), script, at);
    let rest = rest_from(script, at);
    match session.take_bytes(rest) {
        Ok(()) => list_end(layout, session, gathered, writer, page, script, line),
        Err(_) => {
            drop(session);
            stop(gathered, writer)
        }
    }
}

/// Puts what a listing begins with.
fn put_listing_head<W: Write>(form: Form, gathered: &mut Gathered, writer: &mut W)
    ensures { Puts (W.contents writer.old) (W.contents writer.new) gathered.old gathered.new (head_in form) }
{
    match form {
        Form::Text => (),
        Form::Json => put_head(gathered, writer, b"list"),
    }
}

/// Puts what is wrong with the file as a whole, unless only refused statements are listed.
fn put_file_page<W: Write>(layout: Layout, gathered: &mut Gathered, writer: &mut W, script: &[u8])
    ensures { PutsFilePage layout script.now (W.contents writer.old) (W.contents writer.new) gathered.old
        gathered.new }
{
    if is_written(layout, &None) {
        put_file_row(layout.form, gathered, writer, script);
    }
}

/// Lists a script on a new bench.
fn list_on<W: Write, P: Watch>(
    layout: Layout,
    alloc: Global,
    settings: Settings,
    bench: Bench,
    script: &[u8],
    out: &mut W,
    watch: &mut P,
) -> Result<bool, ListFault>
    ensures { IsNew settings (Ok bench)
        → Listed layout settings script.now (W.contents out.old) (W.contents out.new) result }
{
    let mut session = Session::new(bench);
    let mut gathered = Gathered::new();
    let mut page = ListingPage::new(alloc, settings);
    put_listing_head(layout.form, &mut gathered, out);
    put_file_page(layout, &mut gathered, out, script);
    match list_lines(
        layout,
        &mut session,
        &mut gathered,
        out,
        &mut page,
        script,
        watch,
    ) {
        Ok(at) => list_rest(layout, session, &mut gathered, out, &mut page, script, at),
        Err(_) => {
            drop(session);
            stop(&mut gathered, out)
        }
    }
}

/// Lists a script: each line with its number, after the last line of a statement its answer, and below the first
/// operand that is wrong a caret with what is expected; lines that aren't carried out have an `x`; or an object of JSON
/// for each of these except lines; all, or only refused statements.
///
/// Gives whether a statement was refused or faulty. `TooLong` follows the answers before that line, and their lines;
/// `Write` and `Memory` a prefix of the listing; `New` with nothing written.
pub fn list<W: Write, P: Watch>(
    alloc: Global,
    script: &[u8],
    settings: Settings,
    layout: Layout,
    out: &mut W,
    watch: &mut P,
) -> Result<bool, ListFault>
    ensures { Listed layout settings script.now (W.contents out.old) (W.contents out.new) result }
{
    match Bench::new(alloc, settings) {
        Ok(bench) => list_on(layout, alloc, settings, bench, script, out, watch),
        Err(fault) => Err(ListFault::New(fault)),
    }
}
