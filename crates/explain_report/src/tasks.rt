//! Whether a statement of a script makes a task.
ghost use Rattle.std.specs.Prelude.{◌≡◌, ◌≤◌, [], Ok, drop, length, take};
ghost use Rattle.bench_core.specs.Stands.{IsNew, bench_of};
ghost use Rattle.vsm_model.specs.declared.limits.Settings.{Settings as SettingsIn};
ghost use Rattle.vsm_model.specs.State.{is_task};
ghost use Rattle.script_steps.specs.Script.{NoFeed};
ghost use Rattle.explain_report.specs.Tasks.{IsRestAfter, LacksTask, Searched, SearchedLines};

use crate::faults::ReportFault;
use crate::runs::rest_from;
use bench_core::Bench;
use script_steps::{Session, TooLong, Watch};
use std::alloc::Global;
use vsm_model::Settings;

/// Whether a task exists.
fn has_task(bench: &Bench, task: u8) -> bool
    ensures { result ≡ is_task (bench_of bench.now).present.storage task }
{
    bench.storage().parent(task).is_some()
}

/// Takes the lines that have a line feed until a task exists. Gives the place after the last; none if the task exists.
fn search_lines<P: Watch>(
    session: &mut Session,
    script: &[u8],
    task: u8,
    watch: &mut P,
) -> Result<Option<usize>, TooLong>
    ensures found { (settings : SettingsIn) → LacksTask settings task [] session.old
        → SearchedLines settings script.now task session.new result }
    ensures rest { IsRestAfter script.now result }
{
    let mut at = 0;
    while at < script.len() {
        match session.take_line(script, at) {
            Err(fault) => return Err(fault),
            Ok(None) => return Ok(Some(at)),
            Ok(Some(step)) => at = step.next,
        }
        if has_task(session.bench(), task) {
            return Ok(None);
        }
        watch.line(session.lines());
    }
    Ok(Some(at))
}

/// Takes what follows the last line feed, after which a task exists or not.
fn search_rest(session: Session, script: &[u8], at: usize, task: u8) -> Result<(), ReportFault>
    requires within { at ≤ length script.now }
    requires plain { NoFeed (drop at script.now) }
    ensures { (settings : SettingsIn) → LacksTask settings task (take at script.now) session
        → Searched settings script.now task result }
{
    let mut session = session;
    match session.take_bytes(rest_from(script, at)) {
        Ok(()) => {
            let ending = session.end();
            let is_made = has_task(&ending.bench, task);
            drop(ending);
            if is_made {
                Ok(())
            } else {
                Err(ReportFault::NoTask(task))
            }
        }
        Err(_) => {
            drop(session);
            Err(ReportFault::TooLong)
        }
    }
}

/// Looks for a task on a new bench.
fn search_on<P: Watch>(
    bench: Bench,
    script: &[u8],
    task: u8,
    watch: &mut P,
) -> Result<(), ReportFault>
    ensures { (settings : SettingsIn) → IsNew settings (Ok bench) → Searched settings script.now task result }
{
    let is_first = has_task(&bench, task);
    let mut session = Session::new(bench);
    if is_first {
        drop(session);
        return Ok(());
    }
    match search_lines(&mut session, script, task, watch) {
        Ok(None) => {
            drop(session);
            Ok(())
        }
        Ok(Some(at)) => search_rest(session, script, at, task),
        Err(_) => {
            drop(session);
            Err(ReportFault::TooLong)
        }
    }
}

/// Runs a script until a task exists, before the first statement or after one.
pub(crate) fn search<P: Watch>(
    alloc: Global,
    script: &[u8],
    settings: Settings,
    task: u8,
    watch: &mut P,
) -> Result<(), ReportFault>
    ensures { Searched settings script.now task result }
{
    match Bench::new(alloc, settings) {
        Ok(bench) => search_on(bench, script, task, watch),
        Err(fault) => Err(ReportFault::New(fault)),
    }
}
