//! Reports of a script: after a statement, and over time.
ghost use Rattle.std.specs.Prelude.{◌≡◌, ◌+◌, ◌<◌, ◌≤◌, ◌⊎◌, [], Ok, Err, List, ℕ, Option, None, Some, drop, length};
ghost use Rattle.std.specs.Prelude.{take};
ghost use Rattle.std.specs.Io.KnownBytes.{Appends};
ghost use Rattle.bench_core.specs.Stands.{IsNew, bench_of, settings_in};
ghost use Rattle.vsm_model.specs.declared.limits.Settings.{Settings as SettingsIn};
ghost use Rattle.script_steps.specs.Output.{Marked};
ghost use Rattle.script_steps.specs.Script.{NoFeed};
ghost use Rattle.script_steps.specs.Steps.{StepsOver};
ghost use Rattle.script_steps.specs.Taken.{Took};
ghost use Rattle.text_output.specs.Writing.{AppendsFront, Holds};
ghost use Rattle.explain_report.specs.Lines.{some_line};
ghost use Rattle.explain_report.specs.Reports.{HasLine, IsReached, IsRest, IsRestAt, IsRestOf, Reaches, ReachesLine};
ghost use Rattle.explain_report.specs.Reports.{ReachesLines, ReachesStep, Reports, StaysTo, WritesReport};
ghost use Rattle.explain_report.specs.Reports.{ends_by, lacks_answer, silence};
ghost use Rattle.explain_report.specs.Said.{said_by, said_with};
ghost use Rattle.macro_reader.specs.Roles.{IsStand};
ghost use Rattle.macro_reader.specs.Scripts.{Mode};
ghost use Rattle.explain_report.specs.declared.faults.ReportFault.TheVariants as fault;

use crate::faults::ReportFault;
use crate::forms::put_table;
use crate::said::put_said;
use crate::times::moment_of;
use arrayvec::ArrayVec;
use bench_core::Bench;
use explain_text::Form;
use script_steps::{Ending, NumberedResponse, ReaderState, Session, Step, TooLong, Watch};
use std::alloc::Global;
use std::io::Write;
use text_output::Gathered;
use vsm_model::Settings;

/// The last answer so far, with its number, and the bytes that it shows.
#[derive(Drop)]
pub struct LastAnswer {
    told: NumberedResponse,
    shown: ArrayVec<u8, 256>,
}

impl LastAnswer {
    /// No answer so far.
    pub fn new() -> LastAnswer
        ensures { said_by result ≡ None }
    {
        LastAnswer {
            told: None,
            shown: ArrayVec::new(),
        }
    }

    /// Notes an answer, if there is one, and the bytes that it shows.
    fn note(&mut self, told: &NumberedResponse, shown: &ArrayVec<u8, 256>)
        ensures { said_by self.new ≡ said_with told.now shown.now.items (said_by self.old) }
    {
        if let Some(answer) = told {
            self.told = Some(*answer);
            self.shown.clear();
            self.shown.try_extend_from_slice(shown.as_slice()).unwrap();
        }
    }
}

/// Up to where lines of a script were taken; the place is after the last of them.
#[derive(Clone, Copy)]
pub enum TakenTo {
    /// To the end of a line's statement.
    Statement(usize),
    /// To the script's last line feed.
    LastFeed(usize),
}

/// Whether this number of lines was taken, and no statement is open.
fn ends_by(session: &Session, line: u32) -> bool
    ensures { result ≡ ends_by line session.now }
{
    match session.stand() {
        ReaderState::Gathering => false,
        ReaderState::Awaiting | ReaderState::Dropping => session.lines() >= line,
    }
}

/// Why a line has no answer, by the state of the reader before it.
pub fn unanswered(before: ReaderState) -> ReportFault
    ensures { (mode : Mode) → IsStand mode before → result ≡ silence mode }
{
    match before {
        ReaderState::Dropping => ReportFault::Dropped,
        ReaderState::Awaiting | ReaderState::Gathering => ReportFault::Aside,
    }
}

/// Takes the line that begins at a place of the script, as `Session::take_line` does, and notes its answer.
fn take_step(
    session: &mut Session,
    script: &[u8],
    at: usize,
    last: &mut LastAnswer,
) -> Result<Option<Step>, TooLong>
    requires { at ≤ length script.now }
    ensures reaches { (settings : SettingsIn) (answers : List Marked)
        → IsReached settings (take at script.now) session.old last.old answers
        → ReachesStep settings script.now at answers session.new last.new result }
    ensures place { StepsOver script.now at result }
{
    match session.take_line(script, at) {
        Ok(Some(step)) => {
            last.note(&step.told, session.shown_room());
            Ok(Some(step))
        }
        Ok(None) => Ok(None),
        Err(fault) => Err(fault),
    }
}

/// Takes all lines that have a line feed, and gives the place after the last.
fn take_all<P: Watch>(
    session: &mut Session,
    script: &[u8],
    last: &mut LastAnswer,
    watch: &mut P,
) -> Result<usize, TooLong>
    ensures reaches { (settings : SettingsIn) → Reaches settings [] session.old last.old
        → ReachesLines settings script.now session.new last.new result }
    ensures rest { IsRest script.now result }
{
    let mut at = 0;
    while at < script.len() {
        match take_step(session, script, at, last) {
            Err(fault) => return Err(fault),
            Ok(None) => return Ok(at),
            Ok(Some(step)) => at = step.next,
        }
        watch.line(session.lines());
    }
    Ok(at)
}

/// Takes lines up to a line, and on to the end of its statement, or up to the last line feed if the script ends before.
pub fn take_to<P: Watch>(
    session: &mut Session,
    script: &[u8],
    line: u32,
    last: &mut LastAnswer,
    watch: &mut P,
) -> Result<TakenTo, ReportFault>
    requires { 0 < line }
    ensures reaches { (settings : SettingsIn) → Reaches settings [] session.old last.old
        → ReachesLine settings script.now line session.new last.new result }
    ensures rest { IsRestOf script.now result }
{
    let mut at = 0;
    while at < script.len() {
        let before = session.stand();
        match take_step(session, script, at, last) {
            Err(_) => return Err(ReportFault::TooLong),
            Ok(None) => return Ok(TakenTo::LastFeed(at)),
            Ok(Some(step)) => {
                at = step.next;
                if ends_by(session, line) {
                    return if step.told.is_some() {
                        Ok(TakenTo::Statement(at))
                    } else {
                        Err(unanswered(before))
                    };
                }
            }
        }
        watch.line(session.lines());
    }
    Ok(TakenTo::LastFeed(at))
}

/// The bytes of a script from a place on.
pub(crate) fn rest_from(script: &[u8], at: usize) -> &[u8]
    requires { at ≤ length script.now }
    ensures { result.now ≡ drop at script.now }
{
    &script[at..]
}

/// How many lines a script has, of which a session took all, and these bytes after the last line feed.
pub fn lines_with(session: &Session, rest: &[u8]) -> u32
    ensures { result ≡ session.now.lines + some_line rest.now }
{
    session.lines() + u32::from(!rest.is_empty())
}

/// Writes the end of a text, and says why it's the end.
pub(crate) fn end_text<W: Write>(
    gathered: Gathered,
    out: &mut W,
    outcome: Result<(), ReportFault>,
) -> Result<(), ReportFault>
    ensures { (first : Option (List ℕ)) (text : List ℕ) → Holds first (W.contents out.old) gathered text
        → ((result ≡ outcome) × Appends first (W.contents out.new) text)
        ⊎ ((result ≡ Err fault.Write) × AppendsFront first (W.contents out.new) text) }
{
    match gathered.finish(out) {
        Ok(()) => outcome,
        Err(_) => Err(ReportFault::Write),
    }
}

/// Writes the report of a bench after an answer.
fn write_report<W: Write>(
    bench: &Bench,
    form: Form,
    last: &LastAnswer,
    out: &mut W,
) -> Result<(), ReportFault>
    ensures { WritesReport (settings_in bench.now) form (bench_of bench.now).present.storage (said_by last.now)
        (W.contents out.old) (W.contents out.new) result }
{
    let mut gathered = Gathered::new();
    let storage = bench.storage();
    let moment = moment_of(storage);
    put_said(&mut gathered, out, form, last.shown.as_slice(), &last.told);
    put_table(&mut gathered, out, form, storage, &moment);
    end_text(gathered, out, Ok(()))
}

/// Whether a line is asked for, and the end of the script brought no answer.
pub fn lacks_answer(line: Option<u32>, ending: &Ending) -> bool
    ensures { result ≡ lacks_answer line ending.now.last ending.now.open_statement }
{
    line.is_some() && ending.last.is_none() && ending.open_statement.is_none()
}

/// Reports what the end of a script left, after the last answer. If a line is asked for, the end has to bring one.
fn report_end<W: Write>(
    session: Session,
    form: Form,
    line: Option<u32>,
    last: LastAnswer,
    out: &mut W,
) -> Result<(), ReportFault>
    ensures { (settings : SettingsIn) (script : List ℕ) → Reaches settings script session last
        → HasLine settings script line
        → Reports settings script form line (W.contents out.old) (W.contents out.new) result }
{
    let before = session.stand();
    let ending = session.end();
    if lacks_answer(line, &ending) {
        drop(ending);
        return Err(unanswered(before));
    }
    let mut last = last;
    last.note(&ending.last, &ending.shown);
    last.note(&ending.open_statement, &ending.shown);
    let outcome = write_report(&ending.bench, form, &last, out);
    drop(ending);
    outcome
}

/// Takes what follows the last line feed, and reports what the end of the script left.
fn report_rest<W: Write>(
    session: Session,
    script: &[u8],
    at: usize,
    form: Form,
    line: Option<u32>,
    last: LastAnswer,
    out: &mut W,
) -> Result<(), ReportFault>
    requires { IsRestAt script.now at }
    ensures { (settings : SettingsIn) → Reaches settings (take at script.now) session last
        → StaysTo settings script.now line session
        → Reports settings script.now form line (W.contents out.old) (W.contents out.new) result }
{
    let mut session = session;
    let rest = rest_from(script, at);
    match session.take_bytes(rest) {
        Err(_) => {
            drop(session);
            Err(ReportFault::TooLong)
        }
        Ok(()) => {
            let lines = lines_with(&session, rest);
            if line.unwrap_or(0) > lines {
                drop(session);
                Err(ReportFault::NoLine(lines))
            } else {
                report_end(session, form, line, last, out)
            }
        }
    }
}

/// Reports on a whole script, on a new bench.
fn report_all<W: Write, P: Watch>(
    bench: Bench,
    script: &[u8],
    form: Form,
    out: &mut W,
    watch: &mut P,
) -> Result<(), ReportFault>
    ensures { (settings : SettingsIn) → IsNew settings (Ok bench)
        → Reports settings script.now form None (W.contents out.old) (W.contents out.new) result }
{
    let mut session = Session::new(bench);
    let mut last = LastAnswer::new();
    match take_all(&mut session, script, &mut last, watch) {
        Ok(at) => report_rest(session, script, at, form, None, last, out),
        Err(_) => {
            drop(session);
            Err(ReportFault::TooLong)
        }
    }
}

/// Reports after the statement of a line, on a new bench.
fn report_at<W: Write, P: Watch>(
    bench: Bench,
    script: &[u8],
    form: Form,
    line: u32,
    out: &mut W,
    watch: &mut P,
) -> Result<(), ReportFault>
    ensures { (settings : SettingsIn) → IsNew settings (Ok bench)
        → Reports settings script.now form (Some line) (W.contents out.old) (W.contents out.new) result }
{
    let mut session = Session::new(bench);
    if line == 0 {
        drop(session);
        return Err(ReportFault::NoLine(0));
    }
    let mut last = LastAnswer::new();
    match take_to(&mut session, script, line, &mut last, watch) {
        Ok(TakenTo::LastFeed(at)) => report_rest(session, script, at, form, Some(line), last, out),
        Ok(TakenTo::Statement(_)) => {
            let outcome = write_report(session.bench(), form, &last, out);
            drop(session);
            outcome
        }
        Err(fault) => {
            drop(session);
            Err(fault)
        }
    }
}

/// Writes what each subpool of a script's storage has, and what is unassigned, after the statement of a line: the last
/// statement if no line is said. In the form: a table, or an object for each line of it.
pub fn report<W: Write, P: Watch>(
    alloc: Global,
    script: &[u8],
    settings: Settings,
    form: Form,
    line: Option<u32>,
    out: &mut W,
    watch: &mut P,
) -> Result<(), ReportFault>
    ensures told { Reports settings script.now form line (W.contents out.old) (W.contents out.new) result }
{
    match Bench::new(alloc, settings) {
        Err(fault) => Err(ReportFault::New(fault)),
        Ok(bench) => match line {
            None => report_all(bench, script, form, out, watch),
            Some(line) => report_at(bench, script, form, line, out, watch),
        },
    }
}
