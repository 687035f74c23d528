//! Why a line of a script is answered as it is.
ghost use Rattle.std.specs.Prelude.{◌≡◌, ◌≢◌, ◌+◌, ◌≤◌, ◌++◌, [], List, ℕ, IfErr, IfNone, IfOk, IfSome, OnOk};
ghost use Rattle.std.specs.Prelude.{codes, decimal, drop, length};
ghost use Rattle.std.specs.Prelude.{map, take};
ghost use Rattle.vsm_model.specs.declared.limits.Settings.{Settings};
ghost use Rattle.macro_reader.specs.Columns.{Line, used};
ghost use Rattle.explain_faults.specs.Places.{card_in};
ghost use Rattle.script_steps.specs.Output.{Marked};
ghost use Rattle.script_steps.specs.Responses.{response_text};
ghost use Rattle.script_steps.specs.Script.{NoFeed};
ghost use Rattle.script_steps.specs.Taken.{Took};
ghost use Rattle.text_output.specs.Writing.{Puts};
ghost use Rattle.bench_core.specs.Stands.{bench_of, settings_in};
ghost use Rattle.explain_text.specs.Pieces.{PutsSome};
ghost use Rattle.explain_why.specs.Explained.{IsExplained, IsFound, IsPlaceOf, IsStatementAt, TakesLine};
ghost use Rattle.explain_why.specs.Explained.{WritesAhead};
ghost use Rattle.explain_why.specs.Faults.{IsFaultOf, IsLastFault, IsOtherFault, IsPlaceFault, IsStatementFault};
ghost use Rattle.explain_why.specs.Answers.{PutsAnswer, WritesAnswer, answer_text, first_text, goes_on_text};
ghost use Rattle.explain_why.specs.Answers.{no_memory_text, note_text, tells_refusal};
ghost use Rattle.explain_why.specs.Defined.{IsItsDefinition};
ghost use Rattle.explain_why.specs.Details.{WritesDetail};
ghost use Rattle.explain_why.specs.Obstacles.{IsItsBringer};
ghost use Rattle.explain_why.specs.Told.{PutsBeginning, TellsAhead};

use crate::ahead::{Ahead, NextStatement, read_ahead, rest_from};
use crate::causes::put_reasons;
use crate::definitions::{Definition, definition_of};
use crate::details::put_detail;
use crate::earlier::bringer_of;
use crate::faults::WhyFault;
use crate::headings::put_fault_heading;
use crate::obstacles::Bringer;
use crate::undefined::undefined_name;
use bench_core::{Bench, Refusal};
use script_steps::{LINES, NumberedResponse, ReaderState, Response, Session, Watch, put_response};
use std::alloc::Global;
use std::io::Write;
use text_output::{Gathered, put_decimal};
use vsm_model::Settings;

/// The lines that a statement has at most.
const STATEMENT_LINES: u32 = 10;

/// The statement of a line: where it begins in the script, the number of its first line, and what it asks for.
#[derive(Drop)]
struct LinePlace {
    at: usize,
    first: u32,
    ahead: Ahead,
}

/// The statement that begins at a place and on a line of this number, if it has a line of the other number.
fn statement_at(
    script: &[u8],
    at: usize,
    first: u32,
    line: u32,
) -> Result<Option<LinePlace>, WhyFault>
    requires { at ≤ length script.now }
    ensures found { IfOk result (λ found. IfSome found (IsStatementAt script.now at first line)) }
    ensures none { IfOk result (λ found. IfNone found (line ≢ first)) }
    ensures fault { IfErr result (IsStatementFault script.now at first line) }
{
    if line < first || line - first >= STATEMENT_LINES {
        return Ok(None);
    }
    let ahead = read_ahead(rest_from(script, at));
    if line - first >= ahead.lines {
        return Ok(None);
    }
    match ahead.asked {
        NextStatement::Aside => Err(WhyFault::Aside),
        _ => Ok(Some(LinePlace { at, first, ahead })),
    }
}

/// The statement of this line, if it begins at this place, up to which the session has taken the script.
fn place_of(
    session: &Session,
    script: &[u8],
    at: usize,
    line: u32,
) -> Result<Option<LinePlace>, WhyFault>
    requires { at ≤ length script.now }
    ensures found { IfOk result (λ found. IfSome found (IsPlaceOf session.now script.now at line)) }
    ensures none { IfOk result (λ found. IfNone found (line ≢ session.now.lines + 1)) }
    ensures fault { IfErr result (IsPlaceFault session.now script.now at line) }
{
    let first = session.lines() + 1;
    match session.stand() {
        ReaderState::Awaiting => statement_at(script, at, first, line),
        ReaderState::Dropping if first == line => Err(WhyFault::Dropped),
        // The statement of a line that goes on with it is found at its first line.
        ReaderState::Gathering if first == line => Err(WhyFault::TooLong),
        ReaderState::Dropping | ReaderState::Gathering => Ok(None),
    }
}

/// Takes the line that begins at a place of the script, and gives the place of the next.
fn take_next<P: Watch>(
    session: &mut Session,
    script: &[u8],
    at: usize,
    watch: &mut P,
) -> Result<usize, WhyFault>
    requires { at ≤ length script.now }
    ensures taken { IfOk result (TakesLine script.now at session.old session.new) }
    ensures fault { IfErr result (IsLastFault session.old script.now at) }
{
    let last = session.lines() + 1;
    match session.take_line(script, at) {
        Ok(Some(step)) => {
            watch.line(session.lines());
            Ok(step.next)
        }
        Ok(None) => Err(WhyFault::NoLine(last)),
        Err(_) => Err(WhyFault::TooLong),
    }
}

/// Takes the script up to the statement of a line.
fn seek<P: Watch>(
    session: &mut Session,
    script: &[u8],
    line: u32,
    watch: &mut P,
) -> Result<LinePlace, WhyFault>
    ensures within { IfOk result (λ place. place.at ≤ length script.now) }
    ensures found { (settings : Settings) → Took settings [] [] session.old
        → IfOk result (IsFound settings script.now line session.new) }
    ensures fault { (settings : Settings) → Took settings [] [] session.old
        → IfErr result (IsFaultOf script.now line) }
{
    let mut at = 0;
    for _ in 0..LINES {
        if at >= script.len() {
            return Err(WhyFault::NoLine(session.lines()));
        }
        if let Some(place) = place_of(session, script, at, line)? {
            return Ok(place);
        }
        at = take_next(session, script, at, watch)?;
    }
    Err(WhyFault::TooLong)
}

/// Puts the line that goes on with a statement.
fn put_further<W: Write>(gathered: &mut Gathered, writer: &mut W, line: u32)
    ensures { Puts (W.contents writer.old) (W.contents writer.new) gathered.old gathered.new
        (codes " (line " ++ (decimal line ++ codes " goes on with it)")) }
{
    gathered.put(writer, b" (line ");
    put_decimal(gathered, writer, u64::from(line));
    gathered.put(writer, b" goes on with it)");
}

/// Puts that a line goes on with a statement, if it isn't the first.
fn put_goes_on<W: Write>(gathered: &mut Gathered, writer: &mut W, first: u32, line: u32)
    ensures { Puts (W.contents writer.old) (W.contents writer.new) gathered.old gathered.new
        (goes_on_text first line) }
{
    if line != first {
        put_further(gathered, writer, line);
    }
}

/// Puts the number of a statement's first line.
fn put_first<W: Write>(gathered: &mut Gathered, writer: &mut W, first: u32, line: u32)
    ensures { Puts (W.contents writer.old) (W.contents writer.new) gathered.old gathered.new
        (first_text first line) }
{
    gathered.put(writer, b"line ");
    put_decimal(gathered, writer, u64::from(first));
    put_goes_on(gathered, writer, first, line);
    gathered.put(writer, b": ");
}

/// Puts what a statement asks for, and why it gets its answer.
fn put_why<W: Write>(
    gathered: &mut Gathered,
    writer: &mut W,
    bench: &Bench,
    line: u32,
    place: &LinePlace,
)
    ensures told { TellsAhead (settings_in bench.now) (bench_of bench.now).present (length (bench_of bench.now).past)
        (length (bench_of bench.now).later) place.now.ahead.asked
        (W.contents writer.old) (W.contents writer.new) gathered.old gathered.new }
    ensures begins { PutsBeginning (W.contents writer.old) (W.contents writer.new) gathered.old gathered.new
        (first_text place.now.first line) }
{
    put_first(gathered, writer, place.first, line);
    match &place.ahead.asked {
        NextStatement::Request(request) => put_reasons(gathered, writer, bench, request),
        NextStatement::Fault(kind) => put_fault_heading(gathered, writer, *kind),
        NextStatement::Open | NextStatement::Aside => gathered.put(
            writer,
            b"the script ends within the statement\n",
        ),
    }
}

/// Puts that a statement got no memory, if that is why it's refused.
fn put_note<W: Write>(gathered: &mut Gathered, writer: &mut W, why: Refusal)
    ensures { Puts (W.contents writer.old) (W.contents writer.new) gathered.old gathered.new (note_text why) }
{
    match why {
        Refusal::NoMemory => gathered.put(
            writer,
            b"  no rule refuses it: the program got no memory for it, and that's the only reason\n",
        ),
        Refusal::Name | Refusal::Abend(_) => (),
    }
}

/// Puts that a statement got no memory, if that is its answer.
fn put_no_memory<W: Write>(gathered: &mut Gathered, writer: &mut W, response: &Response)
    ensures { Puts (W.contents writer.old) (W.contents writer.new) gathered.old gathered.new
        (no_memory_text response.now) }
{
    match response {
        Response::Refused(why) => put_note(gathered, writer, *why),
        Response::Replied(_)
        | Response::Kept(_)
        | Response::TooFar(_)
        | Response::TooFarAhead(_)
        | Response::Shown
        | Response::Map
        | Response::Fault(_) => (),
    }
}

/// Puts the text of an answer, for which these bytes are shown.
fn put_answered<W: Write>(
    gathered: &mut Gathered,
    writer: &mut W,
    shown: &[u8],
    response: &Response,
)
    ensures { Puts (W.contents writer.old) (W.contents writer.new) gathered.old gathered.new
        (codes "  answered: " ++ (response_text shown.now response.now ++ codes "\n")) }
{
    gathered.put(writer, b"  answered: ");
    put_response(gathered, writer, shown, response);
    gathered.put(writer, b"\n");
}

/// Puts an answer, for which these bytes are shown, and says whether it's a refusal.
fn put_answer<W: Write>(
    gathered: &mut Gathered,
    writer: &mut W,
    shown: &[u8],
    told: &NumberedResponse,
) -> bool
    ensures text { Puts (W.contents writer.old) (W.contents writer.new) gathered.old gathered.new
        (answer_text shown.now told.now) }
    ensures refused { result ≡ tells_refusal told.now }
{
    match told {
        Some((_, response)) => {
            put_no_memory(gathered, writer, response);
            put_answered(gathered, writer, shown, response);
            response.is_refused()
        }
        None => {
            gathered.put(writer, b"  answered: nothing\n");
            false
        }
    }
}

/// Takes what is left of the script, which has no line feed, and puts the first of the answers that the end brings.
/// Says whether it's a refusal.
fn put_answer_at_end<W: Write>(
    gathered: &mut Gathered,
    writer: &mut W,
    session: Session,
    rest: &[u8],
) -> Result<bool, WhyFault>
    requires { NoFeed rest.now }
    ensures some { OnOk result (PutsSome (W.contents writer.old) (W.contents writer.new) gathered.old gathered.new) }
    ensures answer { (settings : Settings) (given : List ℕ) (before : List Marked) → Took settings given before session
        → IfOk result (PutsAnswer settings (given ++ rest.now) before
        (W.contents writer.old) (W.contents writer.new) gathered.old gathered.new) }
    ensures other { IfErr result IsOtherFault }
{
    let mut session = session;
    match session.take_bytes(rest) {
        Ok(()) => {
            let ending = session.end();
            let told = ending.last.or(ending.open_statement);
            let refused = put_answer(gathered, writer, ending.shown.as_slice(), &told);
            drop(ending);
            Ok(refused)
        }
        Err(_) => {
            drop(session);
            Err(WhyFault::TooLong)
        }
    }
}

/// Takes the script from a place on, up to which the session has taken it, to the next answer, and puts that. Says
/// whether it's a refusal.
fn put_answer_at<W: Write>(
    gathered: &mut Gathered,
    writer: &mut W,
    session: Session,
    script: &[u8],
    at: usize,
) -> Result<bool, WhyFault>
    requires { at ≤ length script.now }
    ensures some { OnOk result (PutsSome (W.contents writer.old) (W.contents writer.new) gathered.old gathered.new) }
    ensures answer { (settings : Settings) (before : List Marked) → Took settings (take at script.now) before session
        → IfOk result (PutsAnswer settings script.now before
        (W.contents writer.old) (W.contents writer.new) gathered.old gathered.new) }
    ensures other { IfErr result IsOtherFault }
{
    let mut session = session;
    let mut at = at;
    while at < script.len() {
        let step = match session.take_line(script, at) {
            Ok(Some(step)) => step,
            Ok(None) => {
                let rest = rest_from(script, at);
                return put_answer_at_end(gathered, writer, session, rest);
            }
            Err(_) => {
                drop(session);
                return Err(WhyFault::TooLong);
            }
        };
        if step.told.is_some() {
            let refused = put_answer(gathered, writer, session.shown(), &step.told);
            drop(session);
            return Ok(refused);
        }
        at = step.next;
    }
    put_answer_at_end(gathered, writer, session, &[])
}

/// A session on a new bench under these settings.
fn new_session(alloc: Global, settings: Settings) -> Result<Session, WhyFault>
    ensures took { IfOk result (λ session. Took settings [] [] session) }
    ensures other { IfErr result IsOtherFault }
{
    match Bench::new(alloc, settings) {
        Ok(bench) => Ok(Session::new(bench)),
        Err(fault) => Err(WhyFault::New(fault)),
    }
}

/// What became of the definition of the first name in the values of a request that isn't defined on a bench, in the
/// lines before it.
fn definition_before<P: Watch>(
    alloc: Global,
    settings: Settings,
    before: &[u8],
    bench: &Bench,
    asked: &NextStatement,
    watch: &mut P,
) -> Result<Definition, WhyFault>
    ensures its { IfOk result (IsItsDefinition settings (bench_of bench.now).present before.now asked.now) }
    ensures other { IfErr result IsOtherFault }
{
    match asked {
        NextStatement::Request(request) => match undefined_name(bench, request) {
            Some(name) => {
                let again = new_session(alloc, settings)?;
                match definition_of(again, before, &name, watch) {
                    Ok(definition) => Ok(definition),
                    Err(_) => Err(WhyFault::TooLong),
                }
            }
            None => Ok(Definition::Missing),
        },
        NextStatement::Aside | NextStatement::Fault(_) | NextStatement::Open => Ok(
            Definition::Missing,
        ),
    }
}

/// Which of the lines before a statement brought what keeps it from its effect on a bench, if one did.
fn bringer_before<P: Watch>(
    alloc: Global,
    settings: Settings,
    before: &[u8],
    bench: &Bench,
    asked: &NextStatement,
    watch: &mut P,
) -> Result<Option<Bringer>, WhyFault>
    ensures its { settings_in bench.now ≡ settings → IfOk result (IsItsBringer settings (bench_of bench.now).present
        before.now asked.now) }
    ensures other { IfErr result IsOtherFault }
{
    match asked {
        NextStatement::Request(request) => {
            bringer_of(alloc, settings, before, bench, request, watch)
        }
        NextStatement::Aside | NextStatement::Fault(_) | NextStatement::Open => Ok(None),
    }
}

/// Writes why the statement at a place, up to which the session has taken the script, is answered as it is. `true` if
/// it's refused.
fn tell<W: Write>(
    session: Session,
    script: &[u8],
    line: u32,
    place: &LinePlace,
    definition: Definition,
    bringer: Option<Bringer>,
    out: &mut W,
) -> Result<bool, WhyFault>
    requires { place.now.at ≤ length script.now }
    ensures told { OnOk result (WritesAhead (settings_in session.bench) (bench_of session.bench).present
        (length (bench_of session.bench).past) (length (bench_of session.bench).later)
        place.now.ahead.asked (W.contents out.old) (W.contents out.new)) }
    ensures detail { (own : List Line) → map (card_in (drop place.now.at script.now))
        place.now.ahead.places.lines.items ≡ map used own
        → OnOk result (WritesDetail place.now.first own (bench_of session.bench).present place.now.ahead.asked
        definition bringer (W.contents out.old) (W.contents out.new)) }
    ensures answer { (settings : Settings) (before : List Marked)
        → Took settings (take place.now.at script.now) before session
        → IfOk result (WritesAnswer settings script.now before place.now.first line
        (W.contents out.old) (W.contents out.new)) }
    ensures other { IfErr result IsOtherFault }
{
    let mut gathered = Gathered::new();
    put_why(&mut gathered, out, session.bench(), line, place);
    let text = rest_from(script, place.at);
    put_detail(
        &mut gathered,
        out,
        session.bench(),
        text,
        place.first,
        &place.ahead,
        definition,
        bringer,
    );
    let refused = put_answer_at(&mut gathered, out, session, script, place.at)?;
    match gathered.finish(out) {
        Ok(()) => Ok(refused),
        Err(_) => Err(WhyFault::Write),
    }
}

/// Writes as text why the statement of a line is answered as it is. `true` if it's refused. Its faults are those of
/// [`why`](crate::why).
pub(crate) fn why_text<W: Write, P: Watch>(
    alloc: Global,
    script: &[u8],
    settings: Settings,
    line: u32,
    out: &mut W,
    watch: &mut P,
) -> Result<bool, WhyFault>
    ensures explained { IfOk result (IsExplained settings script.now line (W.contents out.old) (W.contents out.new)) }
    ensures fault { IfErr result (IsFaultOf script.now line) }
{
    let mut session = new_session(alloc, settings)?;
    let place = seek(&mut session, script, line, watch)?;
    let definition = definition_before(
        alloc,
        settings,
        &script[..place.at],
        session.bench(),
        &place.ahead.asked,
        watch,
    )?;
    let bringer = bringer_before(
        alloc,
        settings,
        &script[..place.at],
        session.bench(),
        &place.ahead.asked,
        watch,
    )?;
    tell(session, script, line, &place, definition, bringer, out)
}
