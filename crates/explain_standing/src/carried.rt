//! The statements in effect are carried out once more, on a bench of their own, and what each took is kept by its line.
ghost use Rattle.std.specs.Prelude.{◌≡◌, ◌^◌, ◌<◌, ℕ, IfOk, OnOk, Ok, Some, if◌then◌else◌, []};
ghost use Rattle.macro_statements.specs.Requests.{IsValidAct, act_in};
ghost use Rattle.bench_core.specs.Machine.{statement_step};
ghost use Rattle.bench_core.specs.Stands.{IsNew, bench_of, settings_in};
ghost use Rattle.vsm_model.specs.Standing.{Accepted};
ghost use Rattle.vsm_model.specs.declared.limits.Settings.{Settings as SettingsIn};
ghost use Rattle.explain_standing.specs.Carried.{CarriesAll, CarriesOut, IsCarried, IsCarriedOut, IsCellTaken};
ghost use Rattle.explain_standing.specs.Carried.{IsTaskBegun, is_get, taken_when};
ghost use Rattle.explain_standing.specs.Newly.{is_in};
ghost use Rattle.explain_standing.specs.NumberMaps.{number_in};

use crate::faults::FollowFault;
use crate::laws::{cell_is_in_the_reply, taken_by_the_reply, task_is_in_the_reply};
use crate::newly::taken_by;
use crate::number_map::NumberMap;
use crate::standing::follow;
use crate::trail::TrailEntry;
use macro_reader::Statement;
use script_steps::{Bench, Watch};
use std::alloc::{AllocError, Global};
use storage_map::totals;
use vsm_model::{Reply, Settings};

/// A bench on which only statements in effect were carried out, and what is known of what they took.
#[derive(Drop)]
pub struct Carried {
    pub bench: Bench,
    /// The line that took each doubleword last.
    pub lines: NumberMap,
    /// The line that got each cell last, at the number of the cell's first fullword.
    pub cells: NumberMap,
    /// The task that was current before the statement of each line.
    pub askers: NumberMap,
    /// The line that began each task last.
    pub births: NumberMap,
}

/// Whether a statement gets a cell: only such a one may take an extent that isn't in its reply.
fn is_get(statement: &Statement) -> bool
    ensures { result ≡ is_get (act_in statement.now) }
{
    match statement {
        Statement::GetCell { .. } => true,
        Statement::Obtain { .. }
        | Statement::Release { .. }
        | Statement::Whole { .. }
        | Statement::Build(_)
        | Statement::FreeCell { .. }
        | Statement::DeletePool { .. }
        | Statement::Attach { .. }
        | Statement::Detach { .. }
        | Statement::Run { .. }
        | Statement::EndTask
        | Statement::Poke { .. } => false,
    }
}

/// The bytes that are taken, if they are asked for.
fn taken_when(bench: &Bench, asked: bool) -> u64
    ensures { result ≡ taken_when asked bench.now }
{
    if asked {
        totals(bench.storage()).taken
    } else {
        0
    }
}

/// The line took these runs of doublewords.
fn take_runs(
    lines: &mut NumberMap,
    alloc: Global,
    runs: &[(u32, u32)],
    line: u32,
) -> Result<(), AllocError>
    ensures { OnOk result ((d : ℕ) → d < 2 ^ 32 → number_in lines.new d
        ≡ (if is_in d runs.now then Some line else number_in lines.old d)) }
{
    for run in runs {
        lines.take(alloc, run.0, run.1, line)?;
    }
    Ok(())
}

/// The line got the cell that a reply gives, if it gives one.
fn take_cell(
    cells: &mut NumberMap,
    alloc: Global,
    reply: Reply,
    line: u32,
) -> Result<(), AllocError>
    ensures { OnOk result (IsCellTaken reply line (number_in cells.old) (number_in cells.new)) }
{
    match reply {
        Reply::Cell(address) => cells.take(alloc, address / 4, 1, line),
        Reply::Obtained { .. }
        | Reply::Returned(_)
        | Reply::Attached(_)
        | Reply::Turn(_)
        | Reply::Stored => Ok(()),
    }
}

/// The line began the task that a reply gives, if it gives one.
fn begin_task(
    births: &mut NumberMap,
    alloc: Global,
    reply: Reply,
    line: u32,
) -> Result<(), AllocError>
    ensures { OnOk result (IsTaskBegun reply line (number_in births.old) (number_in births.new)) }
{
    match reply {
        Reply::Attached(task) => births.take(alloc, u32::from(task), 1, line),
        Reply::Obtained { .. }
        | Reply::Returned(_)
        | Reply::Cell(_)
        | Reply::Turn(_)
        | Reply::Stored => Ok(()),
    }
}

/// Carries out a statement that was accepted before. `AllocError` if it's refused now.
pub fn apply(bench: &mut Bench, statement: &Statement) -> Result<Reply, AllocError>
    requires { IsValidAct (act_in statement.now) }
    ensures accepted { IfOk result (λ reply. statement_step (settings_in bench.old) (bench_of bench.old).present
        (act_in statement.now) ≡ Accepted (bench_of bench.new).present reply) }
    ensures settings { settings_in bench.new ≡ settings_in bench.old }
{
    match bench.apply(statement) {
        Ok(reply) => Ok(reply),
        Err(_) => Err(AllocError),
    }
}

impl Carried {
    /// Nothing is carried out yet, on a new bench. Takes no memory.
    pub fn new(alloc: Global, bench: Bench) -> Carried
        ensures bench { result.bench ≡ bench }
        ensures carried { (settings : SettingsIn) → IsNew settings (Ok bench) → IsCarried settings [] result }
    {
        Carried {
            bench,
            lines: NumberMap::new(alloc),
            cells: NumberMap::new(alloc),
            askers: NumberMap::new(alloc),
            births: NumberMap::new(alloc),
        }
    }

    /// Carries out a statement of a line, and notes what it took. `AllocError` if memory runs out, or if the statement
    /// is refused; what is known then means nothing.
    pub fn carry_out(
        &mut self,
        alloc: Global,
        entry: &TrailEntry<Statement>,
    ) -> Result<Reply, AllocError>
        requires { IsValidAct (act_in entry.now.seen) }
        ensures { IfOk result (λ reply. CarriesOut entry.now reply self.old self.new) }
    {
        taken_by_the_reply();
        cell_is_in_the_reply();
        task_is_in_the_reply();
        let gets = is_get(&entry.seen);
        let task = self.bench.storage().current();
        let before = taken_when(&self.bench, gets);
        let reply = apply(&mut self.bench, &entry.seen)?;
        let after = taken_when(&self.bench, gets);
        let runs = taken_by(reply, before, after);
        take_runs(&mut self.lines, alloc, runs.as_slice(), entry.line)?;
        take_cell(&mut self.cells, alloc, reply, entry.line)?;
        begin_task(&mut self.births, alloc, reply, entry.line)?;
        self.askers.take(alloc, entry.line, 1, u32::from(task))?;
        Ok(reply)
    }

    /// Carries out these statements. `AllocError` as above, also if one can't be written.
    pub fn carry_out_all(
        &mut self,
        alloc: Global,
        entries: &[TrailEntry<Statement>],
    ) -> Result<(), AllocError>
        ensures { OnOk result (CarriesAll entries.now self.old self.new) }
    {
        for entry in entries {
            if !entry.seen.valid() {
                return Err(AllocError);
            }
            self.carry_out(alloc, entry)?;
        }
        Ok(())
    }
}

/// The statements of a script in effect at its end, carried out once more on a bench of their own.
pub fn carry_out_script<P: Watch>(
    alloc: Global,
    script: &[u8],
    settings: Settings,
    watch: &mut P,
) -> Result<Carried, FollowFault>
    ensures { IsCarriedOut settings script.now result }
{
    let followed = match follow(alloc, script, settings, watch) {
        Ok(followed) => followed,
        Err(fault) => return Err(fault),
    };
    let bench = match Bench::new(alloc, settings) {
        Ok(bench) => bench,
        Err(fault) => return Err(FollowFault::New(fault)),
    };
    let mut carried = Carried::new(alloc, bench);
    match carried.carry_out_all(alloc, followed.trail.standing()) {
        Ok(()) => Ok(carried),
        Err(_) => Err(FollowFault::Memory),
    }
}
