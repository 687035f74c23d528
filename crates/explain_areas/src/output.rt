//! What is taken, written.
ghost use Rattle.std.specs.Prelude.{◌≡◌, ◌≤◌, [], IfNone, IfSome, List, ℕ, length, map, take};
ghost use Rattle.text_output.specs.Writing.{Puts};
ghost use Rattle.storage_core.specs.Meaning.{state_of};
ghost use Rattle.vsm_model.specs.declared.limits.Settings.{Settings as SettingsIn};
ghost use Rattle.macro_statements.specs.Requests.{Act};
ghost use Rattle.explain_standing.specs.Carried.{IsCarried};
ghost use Rattle.explain_who.specs.ScriptLines.{LinesBegin};
ghost use Rattle.explain_areas.specs.Keeps.{page_of};
ghost use Rattle.explain_areas.specs.RowTexts.{head_in, listed_text};
ghost use Rattle.explain_areas.specs.Told.{HasTask, LacksTask, TellsAfter, TellsAreas, TellsPart, WritesText};

use crate::asked::{AreasAsked, Listed};
use crate::ends::end_of;
use crate::faults::AreasFault;
use crate::keeps::put_pages;
use crate::line_counts::lacks_lines;
use crate::listed::{Found, all_found};
use crate::rows::put_rows;
use crate::sums::{put_sum, sum_of};
use explain_standing::{Carried, FollowFault, carry_out_script};
use explain_text::Form;
use explain_who::line_starts;
use script_steps::Watch;
use std::alloc::Global;
use std::io::Write;
use storage_core::Storage;
use text_output::Gathered;
use vsm_model::Settings;

/// The task whose subpool is asked for, if it doesn't exist.
fn lacks_task(storage: &Storage, listed: Listed) -> Option<u8>
    ensures lacks { IfSome result (LacksTask (state_of storage.now) listed) }
    ensures has { IfNone result (HasTask (state_of storage.now) listed) }
{
    match listed {
        Listed::Areas {
            subpool: Some((task, _)),
            ..
        } => match storage.parent(task) {
            Some(_) => None,
            None => Some(task),
        },
        Listed::Areas { subpool: None, .. } | Listed::Cells { .. } => None,
    }
}

/// Puts what the form begins with.
#[tactic(auto, using(text_output::proofs::Gathering::puts_none))]
fn put_head<W: Write>(gathered: &mut Gathered, writer: &mut W, form: Form)
    ensures { Puts (W.contents writer.old) (W.contents writer.new) gathered.old gathered.new (head_in form) }
{
    match form {
        Form::Text => (),
        Form::Json => explain_text::put_head(gathered, writer, b"report"),
    }
}

/// Puts all that is listed, and its sum.
#[tactic(auto, using(text_output::proofs::Gathering::puts_both))]
fn put_found<W: Write>(
    gathered: &mut Gathered,
    writer: &mut W,
    asked: &AreasAsked,
    script: &[u8],
    starts: &[usize],
    found: &Found,
)
    requires { LinesBegin script.now script.now starts.now [] }
    ensures { Puts (W.contents writer.old) (W.contents writer.new) gathered.old gathered.new
        (listed_text asked.now.form asked.now.listed script.now (map page_of found.now.pages.items)
        found.now.rows.items) }
{
    let form = asked.form;
    let rows = found.rows.as_slice();
    put_head(gathered, writer, form);
    put_pages(gathered, writer, form, found.pages.as_slice());
    put_rows(gathered, writer, form, script, starts, rows);
    put_sum(gathered, writer, form, asked.listed, sum_of(rows));
}

/// Writes all that is listed, and its sum.
fn write_found<W: Write>(
    alloc: Global,
    script: &[u8],
    asked: &AreasAsked,
    found: &Found,
    out: &mut W,
) -> Result<(), AreasFault>
    ensures { WritesText (listed_text asked.now.form asked.now.listed script.now (map page_of found.now.pages.items)
        found.now.rows.items) (W.contents out.old) (W.contents out.new) result }
{
    let starts = match line_starts(alloc, script) {
        Ok(starts) => starts,
        Err(_) => return Err(AreasFault::Follow(FollowFault::Memory)),
    };
    let mut gathered = Gathered::new();
    put_found(&mut gathered, out, asked, script, starts.as_slice(), found);
    drop(starts);
    match gathered.hand_out(out) {
        Ok(()) => Ok(()),
        Err(_) => Err(AreasFault::Write),
    }
}

/// Writes what is listed after the statements that were carried out.
fn write_after<W: Write>(
    alloc: Global,
    script: &[u8],
    carried: &Carried,
    asked: &AreasAsked,
    out: &mut W,
) -> Result<(), AreasFault>
    ensures { (settings : SettingsIn) (xs : List (ℕ × Act)) → IsCarried settings xs carried.now
        → TellsAfter settings script.now asked.now xs (W.contents out.old) (W.contents out.new) result }
{
    if let Some(lines) = lacks_lines(script, asked.since) {
        return Err(AreasFault::Since(lines));
    }
    if let Some(task) = lacks_task(carried.bench.storage(), asked.listed) {
        return Err(AreasFault::NoTask(task));
    }
    match all_found(alloc, carried, asked.since, asked.listed) {
        Ok(found) => {
            let outcome = write_found(alloc, script, asked, &found, out);
            drop(found);
            outcome
        }
        Err(_) => Err(AreasFault::Follow(FollowFault::Memory)),
    }
}

/// Writes what is listed at the end of a script.
fn write_part<W: Write, P: Watch>(
    alloc: Global,
    script: &[u8],
    settings: Settings,
    asked: &AreasAsked,
    out: &mut W,
    watch: &mut P,
) -> Result<(), AreasFault>
    ensures { TellsPart settings script.now asked.now (W.contents out.old) (W.contents out.new) result }
{
    match carry_out_script(alloc, script, settings, watch) {
        Ok(carried) => {
            let outcome = write_after(alloc, script, &carried, asked, out);
            drop(carried);
            outcome
        }
        Err(fault) => Err(AreasFault::Follow(fault)),
    }
}

/// The bytes of a script before a place.
fn part_before(script: &[u8], at: usize) -> &[u8]
    requires { at ≤ length script.now }
    ensures { result.now ≡ take at script.now }
{
    &script[..at]
}

/// Writes what a script leaves taken, or its part up to the end of the statement of a line. Of each area: the line that
/// took it, its bytes, its address and its subpool, the cell pool of which it's an extent, the task that asked for it,
/// and whether that task has ended; after an extent, its cells in use. Or each cell in use. And their sum. In the form:
/// lines, or an object for each of them. If it's asked for, pages come before the areas that few bytes keep.
///
/// After the write fault a prefix of the text was written, after each other fault nothing.
pub fn areas<W: Write, P: Watch>(
    alloc: Global,
    script: &[u8],
    settings: Settings,
    asked: AreasAsked,
    out: &mut W,
    watch: &mut P,
) -> Result<(), AreasFault>
    ensures told { TellsAreas settings script.now asked (W.contents out.old) (W.contents out.new) result }
{
    let end = match end_of(alloc, script, settings, asked.line, watch) {
        Ok(end) => end,
        Err(fault) => return Err(AreasFault::Line(fault)),
    };
    let part = part_before(script, end);
    write_part(alloc, part, settings, &asked, out, watch)
}
