//! The end of a script, as far as it's asked about: after the statement of a line, or whole.
ghost use Rattle.std.specs.Prelude.{◌≡◌, ◌≤◌, IfOk, List, ℕ, length, take, Ok, Some};
ghost use Rattle.bench_core.specs.Stands.{IsNew};
ghost use Rattle.vsm_model.specs.declared.limits.Settings.{Settings as SettingsIn};
ghost use Rattle.script_steps.specs.Output.{Marked};
ghost use Rattle.script_steps.specs.Taken.{Took};
ghost use Rattle.explain_report.specs.Reports.{HasLine, IsRestAt, StaysTo};
ghost use Rattle.explain_areas.specs.Ends.{EndsAs, EndsAt};

use explain_report::{
    LastAnswer, ReportFault, TakenTo, lacks_answer, lines_with, take_to, unanswered,
};
use explain_standing::rest_from;
use script_steps::{Bench, Session, Watch};
use std::alloc::Global;
use vsm_model::Settings;

/// The end of a script whose end has to answer the statement of a line.
fn answered_end(session: Session, script: &[u8], line: u32) -> Result<usize, ReportFault>
    ensures end { (settings : SettingsIn) (answers : List Marked) → Took settings script.now answers session
        → HasLine settings script.now (Some line) → EndsAt settings script.now line result }
    ensures within { IfOk result (λ at. at ≤ length script.now) }
{
    let before = session.stand();
    let ending = session.end();
    let lacks = lacks_answer(Some(line), &ending);
    drop(ending);
    if lacks {
        Err(unanswered(before))
    } else {
        Ok(script.len())
    }
}

/// Takes what follows the last line feed, and gives the script's end, if the statement of a line is answered there.
fn end_after(session: Session, script: &[u8], at: usize, line: u32) -> Result<usize, ReportFault>
    requires { IsRestAt script.now at }
    ensures end { (settings : SettingsIn) (answers : List Marked) → Took settings (take at script.now) answers session
        → StaysTo settings script.now (Some line) session → EndsAt settings script.now line result }
    ensures within { IfOk result (λ at. at ≤ length script.now) }
{
    let mut session = session;
    let rest = rest_from(script, at);
    match session.take_bytes(rest) {
        Err(_) => {
            drop(session);
            Err(ReportFault::TooLong)
        }
        Ok(()) => {
            let lines = lines_with(&session, rest);
            if line > lines {
                drop(session);
                Err(ReportFault::NoLine(lines))
            } else {
                answered_end(session, script, line)
            }
        }
    }
}

/// Where the statement of a line ends, on a new bench.
fn end_on<P: Watch>(
    bench: Bench,
    script: &[u8],
    line: u32,
    watch: &mut P,
) -> Result<usize, ReportFault>
    ensures end { (settings : SettingsIn) → IsNew settings (Ok bench) → EndsAt settings script.now line result }
    ensures within { IfOk result (λ at. at ≤ length script.now) }
{
    let mut session = Session::new(bench);
    if line == 0 {
        drop(session);
        return Err(ReportFault::NoLine(0));
    }
    let mut last = LastAnswer::new();
    match take_to(&mut session, script, line, &mut last, watch) {
        Ok(TakenTo::LastFeed(at)) => end_after(session, script, at, line),
        Ok(TakenTo::Statement(at)) => {
            drop(session);
            Ok(at)
        }
        Err(fault) => {
            drop(session);
            Err(fault)
        }
    }
}

/// The end of a script, as far as it's asked about: after the statement of this line, or, without a line, whole.
pub(crate) fn end_of<P: Watch>(
    alloc: Global,
    script: &[u8],
    settings: Settings,
    line: Option<u32>,
    watch: &mut P,
) -> Result<usize, ReportFault>
    ensures end { EndsAs settings script.now line result }
    ensures within { IfOk result (λ at. at ≤ length script.now) }
{
    let Some(line) = line else {
        return Ok(script.len());
    };
    match Bench::new(alloc, settings) {
        Err(fault) => Err(ReportFault::New(fault)),
        Ok(bench) => end_on(bench, script, line, watch),
    }
}
