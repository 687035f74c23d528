//! What is wrong with a script, a line for each fault, each refusal, each finding and each warning.
ghost use Rattle.std.specs.Prelude.{◌≡◌, ◌≤◌, ◌||◌, ℕ, false, Err, IfOk, List, Ok, Option, length, drop};
ghost use Rattle.bench_core.specs.Stands.{IsNew, bench_of, settings_in};
ghost use Rattle.macro_statements.specs.Requests.{asked_in};
ghost use Rattle.vsm_model.specs.declared.limits.Settings.{Settings};
ghost use Rattle.script_steps.specs.Script.{NoFeed};
ghost use Rattle.explain_findings.specs.Left.{Sum};
ghost use Rattle.explain_list.specs.Listing.{IsRest};
ghost use Rattle.explain_list.specs.Pages.{marks_in, shown_of};
ghost use Rattle.explain_check.specs.Checked.{AreFindings, Checked, Checks, ChecksAll, ChecksFront, ChecksLines};
ghost use Rattle.explain_check.specs.Checked.{ChecksRest, PutsPage, StopsCheck, found_by_source, sum_by_source};
ghost use Rattle.explain_check.specs.Findings.{OnLine, found_told, is_wrong};
ghost use Rattle.explain_check.specs.Lines.{Manner as MannerIn, manner_of};

use crate::check_lines::put_file_check;
use crate::found_checks::{Source, found_told, is_wrong, put_sum};
use crate::layouts::CheckLayout;
use crate::page_checks::put_checks;
use crate::refusals::Answered;
use crate::rows::{Manner, put_head_in};
use bench_core::Bench;
use explain_faults::lines::SourceLine;
use explain_findings::{Findings, find};
use explain_list::pages::{ListingPage, rest_line};
use explain_list::{ListFault, rest_from};
use explain_standing::FollowFault;
use macro_reader::Request;
use script_steps::{Response, Session, TooLong, Watch};
use std::alloc::Global;
use std::io::{ErrorKind, Write};
use text_output::{Gathered, WriteFault};
use vsm_model::Settings;

/// How far lines were checked, and whether OUTSIDE, STALE or LEFT was found.
#[derive(Drop)]
struct LinesChecked {
    at: usize,
    wrong: bool,
}

/// What follows the last line feed of a script, and whether OUTSIDE, STALE or LEFT was found before it.
#[derive(Drop)]
struct LastLine {
    line: SourceLine,
    wrong: bool,
}

/// Puts what is wrong with the lines that are shown, whose statement asked for this and was answered this, which left
/// this bench. Gives whether OUTSIDE, STALE or LEFT is found.
fn put_page<W: Write>(
    gathered: &mut Gathered,
    writer: &mut W,
    page: &ListingPage,
    source: &Source,
    bench: &Bench,
    request: &Request,
    told: &Option<(u32, Response)>,
) -> bool
    ensures puts { PutsPage (settings_in bench.now) (manner_of source.now.manner) (found_by_source source.now)
        (marks_in (shown_of page.now) page.now.fault) (bench_of bench.now).present (asked_in request.now) told.now
        (W.contents writer.old) (W.contents writer.new) gathered.old gathered.new }
    ensures wrong { result ≡ is_wrong (found_told (found_by_source source.now) told.now) }
{
    let answered = Answered {
        alloc: page.alloc(),
        bench,
        request,
        told,
        found: found_told(source, told),
    };
    let script = source.script;
    put_checks(gathered, writer, page, script, source.manner, &answered);
    is_wrong(answered.found)
}

/// Whether one or the other is so.
fn either(one: bool, other: bool) -> bool
    ensures { result ≡ (one || other) }
{
    one || other
}

/// Checks all lines that have a line feed, and gives the place after the last.
fn check_lines<W: Write, P: Watch>(
    session: &mut Session,
    gathered: &mut Gathered,
    writer: &mut W,
    page: &mut ListingPage,
    source: &Source,
    watch: &mut P,
) -> Result<LinesChecked, TooLong>
    ensures checks { (settings : Settings) (first : Option (List ℕ))
        → Checks settings source.now.script.now (manner_of source.now.manner) (found_by_source source.now) first
        (W.contents writer.old) gathered.old page.old false 0 session.old
        → ChecksLines settings source.now.script.now (manner_of source.now.manner) (found_by_source source.now) first
        (W.contents writer.new) gathered.new page.new session.new result }
    ensures rest { IfOk result (λ r. IsRest source.now.script.now (Ok r.at)) }
{
    let mut request = Request::Map;
    let mut wrong = false;
    let mut at = 0;
    while at < source.script.len() {
        match page.take_line(session, source.script, at, &mut request) {
            Err(fault) => return Err(fault),
            Ok(None) => return Ok(LinesChecked { at, wrong }),
            Ok(Some(step)) => {
                let bench = session.bench();
                let its = put_page(gathered, writer, page, source, bench, &request, &step.told);
                wrong = either(wrong, its);
                at = step.next;
            }
        }
        watch.line(session.lines());
    }
    Ok(LinesChecked { at, wrong })
}

/// Why a check ends if a write failed: one of the text of a cause fails if no memory is left.
fn write_fault(fault: WriteFault) -> ListFault
    ensures { (settings : Settings) (script : List ℕ) (manner : MannerIn) (found : ℕ → OnLine) (sum : Sum)
        (at_first now : Option (List ℕ)) → ChecksFront settings script manner found sum at_first now
        → ChecksAll settings script manner found sum at_first now (Err result) }
{
    match fault.error.kind() {
        ErrorKind::OutOfMemory => ListFault::Memory,
        _ => ListFault::Write,
    }
}

/// Checks what follows the last line feed, and the end of the script.
fn check_end<W: Write>(
    session: Session,
    gathered: &mut Gathered,
    writer: &mut W,
    page: &mut ListingPage,
    source: &Source,
    last: LastLine,
) -> Result<bool, ListFault>
    ensures { (settings : Settings) (first : Option (List ℕ))
        → ChecksRest settings source.now.script.now (manner_of source.now.manner) (found_by_source source.now) first
        (W.contents writer.old) gathered.old page.old last.wrong last.line session
        → ChecksAll settings source.now.script.now (manner_of source.now.manner) (found_by_source source.now)
        (sum_by_source source.now) first (W.contents writer.new) result }
{
    let before = session.stand();
    let mut request = Request::Map;
    let ending = session.end_into(&mut request);
    let bench = &ending.bench;
    page.take_last(source.script, last.line, before, &ending);
    let one = put_page(
        gathered,
        writer,
        page,
        source,
        bench,
        &request,
        &ending.last,
    );
    page.show_open(source.script, &ending);
    let two = put_page(
        gathered,
        writer,
        page,
        source,
        bench,
        &request,
        &ending.open_statement,
    );
    let some = either(last.wrong, one);
    let finds = either(some, two);
    let wrong = either(ending.totals.refused > 0, finds);
    drop(ending);
    put_sum(gathered, writer, source);
    match gathered.hand_out(writer) {
        Ok(()) => Ok(wrong),
        Err(fault) => Err(write_fault(fault)),
    }
}

/// What a check is that ends at a byte that passes a bound.
fn stop<W: Write>(gathered: &mut Gathered, writer: &mut W) -> Result<bool, ListFault>
    ensures { (settings : Settings) (script : List ℕ) (manner : MannerIn) (found : ℕ → OnLine) (sum : Sum)
        (first : Option (List ℕ))
        → StopsCheck settings script manner found first (W.contents writer.old) gathered.old
        → ChecksAll settings script manner found sum first (W.contents writer.new) result }
{
    match gathered.hand_out(writer) {
        Ok(()) => Err(ListFault::TooLong),
        Err(fault) => Err(write_fault(fault)),
    }
}

/// Takes what follows the last line feed, and checks it and the end of the script.
fn check_rest<W: Write>(
    session: Session,
    gathered: &mut Gathered,
    writer: &mut W,
    page: &mut ListingPage,
    source: &Source,
    checked: LinesChecked,
) -> Result<bool, ListFault>
    requires within { checked.at ≤ length source.now.script.now }
    requires plain { NoFeed (drop checked.at source.now.script.now) }
    ensures { (settings : Settings) (first : Option (List ℕ))
        → Checks settings source.now.script.now (manner_of source.now.manner) (found_by_source source.now) first
        (W.contents writer.old) gathered.old page.old checked.wrong checked.at session
        → ChecksAll settings source.now.script.now (manner_of source.now.manner) (found_by_source source.now)
        (sum_by_source source.now) first (W.contents writer.new) result }
{
    let mut session = session;
    let line = rest_line(session.lines(), source.script, checked.at);
    let rest = rest_from(source.script, checked.at);
    match session.take_bytes(rest) {
        Ok(()) => {
            let last = LastLine {
                line,
                wrong: checked.wrong,
            };
            check_end(session, gathered, writer, page, source, last)
        }
        Err(_) => {
            drop(session);
            stop(gathered, writer)
        }
    }
}

/// Checks a script on a new bench.
fn check_on<W: Write, P: Watch>(
    alloc: Global,
    settings: Settings,
    bench: Bench,
    source: &Source,
    out: &mut W,
    watch: &mut P,
) -> Result<bool, ListFault>
    ensures { IsNew settings (Ok bench) → ChecksAll settings source.now.script.now (manner_of source.now.manner)
        (found_by_source source.now) (sum_by_source source.now) (W.contents out.old) (W.contents out.new) result }
{
    let mut session = Session::new(bench);
    let mut gathered = Gathered::new();
    let mut page = ListingPage::new(alloc, settings);
    put_head_in(source.manner.form, &mut gathered, out);
    put_file_check(&mut gathered, out, source.script, source.manner);
    match check_lines(&mut session, &mut gathered, out, &mut page, source, watch) {
        Ok(checked) => check_rest(session, &mut gathered, out, &mut page, source, checked),
        Err(_) => {
            drop(session);
            stop(&mut gathered, out)
        }
    }
}

/// What is found in a script: nothing, if it's too long.
fn findings_in<P: Watch>(
    alloc: Global,
    script: &[u8],
    settings: Settings,
    watch: &mut P,
) -> Result<Findings, ListFault>
    ensures { AreFindings settings script.now result }
{
    match find(alloc, script, settings, watch) {
        Ok(findings) => Ok(findings),
        Err(FollowFault::TooLong) => Ok(Findings::nothing(alloc)),
        Err(FollowFault::New(fault)) => Err(ListFault::New(fault)),
        Err(FollowFault::Memory) => Err(ListFault::Memory),
    }
}

/// Checks a script in which this is found.
fn check_found<W: Write, P: Watch>(
    alloc: Global,
    settings: Settings,
    source: &Source,
    out: &mut W,
    watch: &mut P,
) -> Result<bool, ListFault>
    ensures { ChecksAll settings source.now.script.now (manner_of source.now.manner) (found_by_source source.now)
        (sum_by_source source.now) (W.contents out.old) (W.contents out.new) result }
{
    match Bench::new(alloc, settings) {
        Ok(bench) => check_on(alloc, settings, bench, source, out, watch),
        Err(fault) => Err(ListFault::New(fault)),
    }
}

/// Writes a line for each fault, each statement that gets ABEND, REFUSED NAME or REFUSED MEMORY, what is found of each
/// other statement, and each warning of a script, by line and then by column: as text `FILE:LINE:COLUMN: text`, with
/// this name of the file, or as JSON objects. What is left at the end has a line at each statement that took it, or
/// otherwise one last line with the sums.
///
/// Gives whether a statement was refused or faulty, or OUTSIDE, STALE or, with a line of its own, LEFT. `TooLong`
/// follows what is said of the answers before that line; `Write` and `Memory` a prefix of what is said, or nothing;
/// `New` with nothing written.
pub fn check<W: Write, P: Watch>(
    alloc: Global,
    script: &[u8],
    settings: Settings,
    layout: CheckLayout,
    name: &[u8],
    out: &mut W,
    watch: &mut P,
) -> Result<bool, ListFault>
    ensures { Checked settings script.now layout name.now (W.contents out.old) (W.contents out.new) result }
{
    match findings_in(alloc, script, settings, watch) {
        Ok(findings) => {
            let form = layout.form;
            let source = Source {
                script,
                manner: Manner { form, name },
                leaks: layout.leaks,
                findings: &findings,
            };
            check_found(alloc, settings, &source, out, watch)
        }
        Err(fault) => Err(fault),
    }
}
