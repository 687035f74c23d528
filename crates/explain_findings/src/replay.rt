//! The statements in effect are carried out once more, and judged one by one.
ghost use Rattle.std.specs.Prelude.{◌≡◌, ◌≤◌, ◌^◌, ◌<◌, ℕ, [], Ok, Some, IfOk, IfSome, OnOk, if◌then◌else◌, length};
ghost use Rattle.macro_statements.specs.Requests.{IsValidAct, act_in};
ghost use Rattle.bench_core.specs.Machine.{name_asked};
ghost use Rattle.bench_core.specs.Stands.{IsNew};
ghost use Rattle.vsm_model.specs.Meaning.{service_in};
ghost use Rattle.vsm_model.specs.declared.limits.Settings.{Settings as SettingsIn};
ghost use Rattle.explain_standing.specs.Carried.{IsCarried};
ghost use Rattle.explain_standing.specs.NumberMaps.{number_in};
ghost use Rattle.explain_findings.specs.Found.{AreFound};
ghost use Rattle.explain_findings.specs.Judged.{HasFewBytes};
ghost use Rattle.explain_findings.specs.Replays.{CarriesOn, FindsIn, FollowsSome, GoesOn, GoesTo, IsGiven, IsStoredBy};
ghost use Rattle.explain_findings.specs.Replays.{IsNothingFound, Judges, JudgesNext, Reads, ReplaysAll, Rises, depths};
ghost use Rattle.explain_findings.specs.Replays.{is_among, part_kept, with_finding, word_given};
ghost use Rattle.explain_findings.specs.Tables.{on_table};

use crate::endings::{CanEnd, Endings};
use crate::findings::{Finding, Findings, Part};
use crate::judging::{Known, finding_at, reading_finding};
use crate::left::left_after;
use crate::tables::LineTable;
use explain_standing::{Carried, FollowFault, Followed, NumberMap, Reading, TrailEntry, follow};
use explain_who::name_asked;
use macro_reader::Statement;
use script_steps::{Bench, Watch};
use std::alloc::{AllocError, Global};
use vsm_model::{Reply, Service, Settings};

/// The statements up to one carried out, what is known of them, and what was found.
#[derive(Drop)]
struct Replay {
    carried: Carried,
    known: Known,
    found: Findings,
}

/// What is found of a statement on the state before it, what it can end, and which bytes it stores.
#[derive(Drop)]
struct Judged {
    finding: Finding,
    can_end: CanEnd,
    stores: Option<(u32, u32)>,
}

/// Keeps what is found on a line, if something is.
fn note(table: &mut LineTable, line: u32, finding: Finding) -> Result<(), AllocError>
    ensures { OnOk result ((n : ℕ) → on_table table.new n ≡ with_finding line finding (on_table table.old) n) }
{
    if finding.is_something() {
        table.set(line, finding)
    } else {
        Ok(())
    }
}

/// The address of an area or a cell that a reply gives.
fn word_given(reply: Reply) -> Option<u32>
    ensures { result ≡ word_given reply }
{
    match reply {
        Reply::Obtained { address, .. } => Some(address),
        Reply::Cell(address) => Some(address),
        Reply::Returned(_) | Reply::Attached(_) | Reply::Turn(_) | Reply::Stored => None,
    }
}

/// The address in a reply goes to the statement's name, if there are both.
fn give(endings: &mut Endings, statement: &Statement, reply: Reply) -> Result<(), AllocError>
    ensures { OnOk result (IsGiven endings.old (name_asked (act_in statement.now)) reply endings.new) }
{
    let Some(name) = name_asked(statement) else {
        return Ok(());
    };
    let Some(word) = word_given(reply) else {
        return Ok(());
    };
    endings.give(name, word)
}

/// The bytes that a service stores: where the first is, and how many there are.
fn stored_by(service: &Service<'_>) -> Option<(u32, u32)>
    requires { HasFewBytes (service_in service.now) }
    ensures { IsStoredBy (service_in service.now) result }
{
    match service {
        Service::Store { address, bytes } => Some((*address, bytes.len() as u32)),
        Service::Obtain(_)
        | Service::Release(_)
        | Service::Whole { .. }
        | Service::Attach(_)
        | Service::Detach { .. }
        | Service::EndTask
        | Service::Run { .. }
        | Service::Build { .. }
        | Service::Get { .. }
        | Service::Free { .. }
        | Service::Delete { .. } => None,
    }
}

/// The line stored these bytes, if any.
fn note_stored(
    stored: &mut NumberMap,
    alloc: Global,
    bytes: Option<(u32, u32)>,
    line: u32,
) -> Result<(), AllocError>
    ensures { OnOk result ((byte : ℕ) → byte < 2 ^ 32 → number_in stored.new byte
        ≡ (if is_among bytes byte then Some line else number_in stored.old byte)) }
{
    match bytes {
        Some((first, count)) => stored.take(alloc, first, count, line),
        None => Ok(()),
    }
}

/// Carries out a statement, and notes what it took, ended and stored.
fn carry_out(
    alloc: Global,
    carried: &mut Carried,
    known: &mut Known,
    entry: &TrailEntry<Statement>,
    can_end: CanEnd,
    stores: Option<(u32, u32)>,
) -> Result<Reply, AllocError>
    requires { IsValidAct (act_in entry.now.seen) }
    ensures { IfOk result (λ reply. CarriesOn carried.old known.old entry.now can_end stores reply carried.new
        known.new) }
{
    let reply = carried.carry_out(alloc, entry)?;
    note_stored(&mut known.stored, alloc, stores, entry.line)?;
    let guess = known.guess;
    known
        .endings
        .end(carried.bench.storage(), can_end, entry.line, guess);
    give(&mut known.endings, &entry.seen, reply)?;
    Ok(reply)
}

/// What is found of a statement before it's carried out, and what it can do. `None` if it asks for no service.
fn judge_before(carried: &Carried, known: &mut Known, statement: &Statement) -> Option<Judged>
    requires { IsValidAct (act_in statement.now) }
    ensures judges { IfSome result (Judges carried.now known.old (act_in statement.now)) }
    ensures endings { known.new.endings ≡ known.old.endings }
    ensures stored { known.new.stored ≡ known.old.stored }
{
    let mut room = [0; 4];
    let service = carried.bench.service_of(statement, &mut room)?;
    let finding = finding_at(carried, known, statement, &service);
    Some(Judged {
        finding,
        can_end: CanEnd::of(&service),
        stores: stored_by(&service),
    })
}

/// A release that isn't answered 0 released nothing.
fn part_kept(reply: Reply, part: Option<Part>) -> Option<Part>
    ensures { result ≡ part_kept reply part }
{
    match reply {
        Reply::Returned(0) => part,
        Reply::Returned(_)
        | Reply::Obtained { .. }
        | Reply::Cell(_)
        | Reply::Attached(_)
        | Reply::Turn(_)
        | Reply::Stored => None,
    }
}

/// Judges a statement on the state before it, and carries it out.
fn judge(
    alloc: Global,
    carried: &mut Carried,
    known: &mut Known,
    entry: &TrailEntry<Statement>,
) -> Result<Finding, AllocError>
    ensures { IfOk result (λ f. JudgesNext carried.old known.old entry.now f carried.new known.new) }
{
    if !entry.seen.valid() {
        return Err(AllocError);
    }
    let Some(judged) = judge_before(carried, known, &entry.seen) else {
        return Err(AllocError);
    };
    let reply = carry_out(alloc, carried, known, entry, judged.can_end, judged.stores)?;
    let mut finding = judged.finding;
    finding.part = part_kept(reply, finding.part);
    Ok(finding)
}

/// Judges the next statement.
fn judge_next(
    alloc: Global,
    replay: &mut Replay,
    entry: &TrailEntry<Statement>,
) -> Result<(), AllocError>
    ensures goes_on { OnOk result (GoesOn entry.now replay.old replay.new) }
    ensures readings { OnOk result (replay.new.found.readings ≡ replay.old.found.readings) }
{
    let finding = judge(alloc, &mut replay.carried, &mut replay.known, entry)?;
    note(&mut replay.found.statements, entry.line, finding)
}

/// Judges the statements from one to another.
fn judge_to(
    alloc: Global,
    replay: &mut Replay,
    entries: &[TrailEntry<Statement>],
    from: usize,
    to: usize,
) -> Result<(), AllocError>
    requires ordered { from ≤ to }
    requires within { to ≤ length entries.now }
    ensures goes_to { OnOk result (GoesTo entries.now from to replay.old replay.new) }
    ensures readings { OnOk result (replay.new.found.readings ≡ replay.old.found.readings) }
{
    for i in from..to {
        judge_next(alloc, replay, &entries[i])?;
    }
    Ok(())
}

/// Judges a PEEK after the statements up to now.
fn judge_reading(replay: &mut Replay, reading: &Reading) -> Result<(), AllocError>
    ensures { OnOk result (Reads reading.now replay.old replay.new) }
{
    if !reading.address.valid() {
        return Err(AllocError);
    }
    let finding = reading_finding(&replay.carried, &mut replay.known, reading);
    note(&mut replay.found.readings, reading.line, finding)
}

/// Judges these statements, and PEEKs after as many of them as each says, oldest first.
fn judge_all(
    alloc: Global,
    replay: &mut Replay,
    entries: &[TrailEntry<Statement>],
    readings: &[Reading],
) -> Result<(), AllocError>
    requires { Rises 0 (depths readings.now) (length entries.now) }
    ensures { OnOk result (ReplaysAll entries.now readings.now replay.old replay.new) }
{
    let mut done = 0;
    for reading in readings {
        judge_to(alloc, replay, entries, done, reading.depth)?;
        done = reading.depth;
        judge_reading(replay, reading)?;
    }
    judge_to(alloc, replay, entries, done, entries.len())
}

/// Nothing is judged yet, on a new bench. Takes no memory.
fn start(alloc: Global, bench: Bench) -> Replay
    ensures carried { (settings : SettingsIn) → IsNew settings (Ok bench) → IsCarried settings [] result.carried }
    ensures nothing { IsNothingFound result }
{
    Replay {
        carried: Carried::new(alloc, bench),
        known: Known {
            endings: Endings::new(alloc),
            stored: NumberMap::new(alloc),
            guess: None,
        },
        found: Findings::nothing(alloc),
    }
}

/// What is found in a script that was followed, on a new bench.
fn find_in(alloc: Global, followed: &Followed, bench: Bench) -> Result<Findings, AllocError>
    requires { FollowsSome followed.now }
    ensures { IfOk result (FindsIn followed.now bench) }
{
    let mut replay = start(alloc, bench);
    let entries = followed.trail.standing();
    let readings = followed.readings.as_slice();
    judge_all(alloc, &mut replay, entries, readings)?;
    let left = left_after(alloc, &replay.carried, entries)?;
    let mut found = replay.found;
    found.left = left;
    Ok(found)
}

/// What is found in a script: of the statements in effect at its end, each judged on the state before it, and of the
/// PEEKs whose states aren't undone later; and what is left taken at the end.
///
/// `New` if the bench can't be made, `TooLong` if a byte of the script passes a bound, `Memory` if memory runs out.
pub fn find<P: Watch>(
    alloc: Global,
    script: &[u8],
    settings: Settings,
    watch: &mut P,
) -> Result<Findings, FollowFault>
    ensures { AreFound settings script.now result }
{
    let followed = match follow(alloc, script, settings, watch) {
        Ok(followed) => followed,
        Err(fault) => return Err(fault),
    };
    let bench = match Bench::new(alloc, settings) {
        Ok(bench) => bench,
        Err(fault) => return Err(FollowFault::New(fault)),
    };
    match find_in(alloc, &followed, bench) {
        Ok(found) => Ok(found),
        Err(_) => Err(FollowFault::Memory),
    }
}
