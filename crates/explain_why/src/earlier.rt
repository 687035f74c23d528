//! Which line before a refused statement brought what keeps it from its effect.
ghost use Rattle.std.specs.Prelude.{◌≡◌, Ok, Some, IfErr, IfOk, map, reverse};
ghost use Rattle.vsm_model.specs.declared.limits.Settings.{Settings as SettingsIn};
ghost use Rattle.macro_statements.specs.Requests.{act, act_in, asked_in};
ghost use Rattle.bench_core.specs.Stands.{IsNew, bench_of, settings_in};
ghost use Rattle.explain_standing.specs.Carried.{line_act};
ghost use Rattle.explain_standing.specs.Since.{since};
ghost use Rattle.explain_why.specs.Faults.{IsOtherFault};
ghost use Rattle.explain_why.specs.Obstacles.{IsBringerOf, IsRequestBringer, is_there, last_change};

use crate::faults::WhyFault;
use crate::obstacles::{Bringer, Obstacle, obstacle_of};
use bench_core::Bench;
use explain_standing::{Carried, FollowFault, TrailEntry, follow};
use macro_reader::{Request, Statement};
use script_steps::Watch;
use std::alloc::{AllocError, Global};
use vsm_model::Settings;

/// The line that brought what is there after one more statement, by whether it's there after and before that.
fn since(is: bool, was: bool, line: u32, older: Option<u32>) -> Option<u32>
    ensures { result ≡ since is was line older }
{
    match (is, was) {
        (false, _) => None,
        (true, true) => older,
        (true, false) => Some(line),
    }
}

/// The line of the newest of these statements after which an obstacle is there, and before which it wasn't; `None` if
/// it's gone after all of them. They are carried out in turn on a new bench.
fn last_change(
    alloc: Global,
    bench: Bench,
    entries: &[TrailEntry<Statement>],
    obstacle: &Obstacle,
) -> Result<Option<u32>, AllocError>
    ensures { (settings : SettingsIn) → IsNew settings (Ok bench) → IfOk result (λ line.
        line ≡ last_change settings (is_there settings obstacle.now) (reverse (map line_act entries.now))) }
{
    let mut carried = Carried::new(alloc, bench);
    let mut line = None;
    let mut was_there = obstacle.is_there(carried.bench.storage());
    for entry in entries {
        if !entry.seen.valid() {
            return Err(AllocError);
        }
        carried.carry_out(alloc, entry)?;
        let is_there = obstacle.is_there(carried.bench.storage());
        line = since(is_there, was_there, entry.line, line);
        was_there = is_there;
    }
    Ok(line)
}

/// What keeps a script from being followed keeps the line from being explained.
fn why_fault(fault: FollowFault) -> WhyFault
    ensures { IsOtherFault result }
{
    match fault {
        FollowFault::New(fault) => WhyFault::New(fault),
        FollowFault::TooLong => WhyFault::TooLong,
        FollowFault::Memory => WhyFault::Memory,
    }
}

/// The line that brought an obstacle in a script, with the obstacle, if one did.
fn bringer_in<P: Watch>(
    alloc: Global,
    settings: Settings,
    script: &[u8],
    obstacle: Obstacle,
    watch: &mut P,
) -> Result<Option<Bringer>, WhyFault>
    ensures its { IfOk result (IsBringerOf settings script.now (Some obstacle)) }
    ensures other { IfErr result IsOtherFault }
{
    let followed = match follow(alloc, script, settings, watch) {
        Ok(followed) => followed,
        Err(fault) => return Err(why_fault(fault)),
    };
    let bench = match Bench::new(alloc, settings) {
        Ok(bench) => bench,
        Err(fault) => return Err(WhyFault::New(fault)),
    };
    match last_change(alloc, bench, followed.trail.standing(), &obstacle) {
        Ok(Some(line)) => Ok(Some(Bringer { line, obstacle })),
        Ok(None) => Ok(None),
        Err(_) => Err(WhyFault::Memory),
    }
}

/// Which line of a script brought what keeps a statement from its effect on a bench; `None` if none did.
fn bringer_of_act<P: Watch>(
    alloc: Global,
    settings: Settings,
    script: &[u8],
    bench: &Bench,
    statement: &Statement,
    watch: &mut P,
) -> Result<Option<Bringer>, WhyFault>
    ensures its { settings_in bench.now ≡ settings → IfOk result (IsRequestBringer settings
        (bench_of bench.now).present script.now (act (act_in statement.now))) }
    ensures other { IfErr result IsOtherFault }
{
    match obstacle_of(bench, statement) {
        Some(obstacle) => bringer_in(alloc, settings, script, obstacle, watch),
        None => Ok(None),
    }
}

/// The same of what a request asks for.
pub(crate) fn bringer_of<P: Watch>(
    alloc: Global,
    settings: Settings,
    script: &[u8],
    bench: &Bench,
    request: &Request,
    watch: &mut P,
) -> Result<Option<Bringer>, WhyFault>
    ensures its { settings_in bench.now ≡ settings → IfOk result (IsRequestBringer settings
        (bench_of bench.now).present script.now (asked_in request.now)) }
    ensures other { IfErr result IsOtherFault }
{
    match request {
        Request::Act(statement) => bringer_of_act(alloc, settings, script, bench, statement, watch),
        Request::Peek { .. } | Request::Map | Request::Back(_) | Request::Forward(_) => Ok(None),
    }
}
