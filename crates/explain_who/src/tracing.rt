//! What is read after each statement of a script in effect, which are carried out once more.
ghost use Rattle.std.specs.Prelude.{◌≡◌, [], IfOk, Ok, map};
ghost use Rattle.bench_core.specs.Stands.{IsNew};
ghost use Rattle.vsm_model.specs.declared.limits.Settings.{Settings as SettingsIn};
ghost use Rattle.explain_standing.specs.Carried.{line_act};
ghost use Rattle.explain_standing.specs.Standings.{IsFollowedBy};
ghost use Rattle.explain_standing.specs.Trails.{seen_along};
ghost use Rattle.explain_who.specs.Traced.{IsTraced, IsTracedAs, reading_alone};

use crate::readings::{Seen, Subject, last_subpool, read};
use crate::starts::line_starts;
use explain_standing::{FollowFault, Followed, TrailEntry, apply, follow};
use macro_reader::Statement;
use script_steps::{Bench, Watch};
use std::alloc::{AllocError, Global};
use vsm_model::Settings;

/// A script that was followed to its end.
#[derive(Drop)]
pub(crate) struct Traced {
    /// What is read before the first statement.
    pub first: Seen,
    /// What is read after each statement in effect, oldest first, with its line.
    pub entries: Vec<TrailEntry<Seen>>,
    /// Where each line begins in the script.
    pub starts: Vec<usize>,
}

/// Carries out these statements on a new bench, oldest first, and reads after each. `AllocError` if memory runs out, or
/// if one is refused.
fn read_along(
    alloc: Global,
    bench: Bench,
    entries: &[TrailEntry<Statement>],
    asked: &Subject,
) -> Result<Vec<TrailEntry<Seen>>, AllocError>
    ensures { (settings : SettingsIn) → IsNew settings (Ok bench)
        → IfOk result (λ seen. seen.items
        ≡ seen_along (reading_alone settings asked.now) [] (map line_act entries.now)) }
{
    let mut bench = bench;
    let mut seen = Vec::new(alloc);
    for entry in entries {
        if !entry.seen.valid() {
            return Err(AllocError);
        }
        apply(&mut bench, &entry.seen)?;
        let guess = last_subpool(seen.as_slice());
        seen.push(TrailEntry {
            line: entry.line,
            seen: read(&bench, asked, guess),
        })?;
    }
    Ok(seen)
}

/// What is read along a script that was followed, on a new bench.
fn trace_on(
    alloc: Global,
    script: &[u8],
    bench: Bench,
    followed: &Followed,
    asked: &Subject,
) -> Result<Traced, AllocError>
    ensures { (settings : SettingsIn) → IsNew settings (Ok bench) → IsFollowedBy settings script.now followed.now
        → IfOk result (IsTraced settings script.now asked.now) }
{
    let first = read(&bench, asked, None);
    let entries = read_along(alloc, bench, followed.trail.standing(), asked)?;
    let starts = line_starts(alloc, script)?;
    Ok(Traced {
        first,
        entries,
        starts,
    })
}

/// Follows a script on a new bench under these settings, to its end, and reads after each statement in effect.
pub(crate) fn trace<P: Watch>(
    alloc: Global,
    script: &[u8],
    settings: Settings,
    asked: &Subject,
    watch: &mut P,
) -> Result<Traced, FollowFault>
    ensures { IsTracedAs settings script.now asked.now result }
{
    let followed = match follow(alloc, script, settings, watch) {
        Ok(followed) => followed,
        Err(fault) => return Err(fault),
    };
    let bench = match Bench::new(alloc, settings) {
        Ok(bench) => bench,
        Err(fault) => return Err(FollowFault::New(fault)),
    };
    match trace_on(alloc, script, bench, &followed, asked) {
        Ok(traced) => Ok(traced),
        Err(_) => Err(FollowFault::Memory),
    }
}
