//! Writes which lines changed it.
ghost use Rattle.std.specs.Prelude.{◌≡◌, [], None, flat_map, length, map};
ghost use Rattle.text_output.specs.Writing.{Puts};
ghost use Rattle.explain_who.specs.Code.{difference_in};
ghost use Rattle.explain_who.specs.ScriptLines.{LinesBegin};
ghost use Rattle.explain_who.specs.Forms.{change_in, shown_in};
ghost use Rattle.explain_who.specs.Told.{can_be_asked, is_absent, lacking, missing, NamesChanges};
ghost use Rattle.explain_who.specs.Told.{TellsFound, TellsShown};
ghost use Rattle.explain_who.specs.Who.{differences_of};

use crate::faults::WhoFault;
use crate::forms::{put_change, put_head, put_looked, put_question};
use crate::found::{NamedChange, changes};
use crate::orders::{ChangeOrder, put_in_order};
use crate::readings::{Seen, Subject};
use crate::tracing::{Traced, trace};
use explain_standing::FollowFault;
use explain_text::Form;
use script_steps::Watch;
use std::alloc::Global;
use std::io::Write;
use text_output::Gathered;
use vsm_model::Settings;

/// Puts these changes in turn.
fn put_changes<W: Write>(
    gathered: &mut Gathered,
    writer: &mut W,
    form: Form,
    script: &[u8],
    starts: &[usize],
    shown: &[NamedChange<'_>],
)
    requires { LinesBegin script.now script.now starts.now [] }
    ensures { Puts (W.contents writer.old) (W.contents writer.new) gathered.old gathered.new
        (flat_map (change_in form script.now) (map difference_in shown.now)) }
{
    for change in shown {
        put_change(gathered, writer, form, script, starts, change);
    }
}

/// Whether that many bytes can be asked for.
fn can_be_asked(asked: &Subject) -> bool
    ensures { result ≡ can_be_asked asked.now }
{
    match asked {
        Subject::Bytes { count, .. } => *count >= 1 && *count <= 256,
        Subject::Register { .. } | Subject::Name(_) | Subject::Subpool { .. } => true,
    }
}

/// Whether a reading finds no task, or no name.
fn is_absent(seen: &Seen) -> bool
    ensures { result ≡ is_absent seen.now }
{
    match seen {
        Seen::Register(None) | Seen::Held(None) | Seen::Name(None) => true,
        Seen::Place(_) | Seen::Register(Some(_)) | Seen::Name(Some(_)) | Seen::Held(Some(_)) =>
            false,
    }
}

/// The fault if no reading has the task or the name that is asked for.
fn missing(asked: &Subject) -> Option<WhoFault>
    ensures { result ≡ missing asked.now }
{
    match asked {
        Subject::Register { task, .. } => Some(WhoFault::NoTask(*task)),
        Subject::Subpool { task, .. } => Some(WhoFault::NoTask(*task)),
        Subject::Name(name) => Some(WhoFault::NoName(*name)),
        Subject::Bytes { .. } => None,
    }
}

/// That fault if no reading has it: the first hasn't, and nothing changes that.
fn lacking(asked: &Subject, first: &Seen, found: &[NamedChange<'_>]) -> Option<WhoFault>
    ensures { result ≡ lacking asked.now first.now (map difference_in found.now) }
{
    if found.is_empty() && is_absent(first) {
        missing(asked)
    } else {
        None
    }
}

/// Puts these changes of a script that was followed, in turn.
#[tactic(auto, using(text_output::proofs::Gathering::puts_both))]
fn put_shown<W: Write>(
    gathered: &mut Gathered,
    writer: &mut W,
    form: Form,
    settings: Settings,
    script: &[u8],
    traced: &Traced,
    shown: &[NamedChange<'_>],
    asked: &Subject,
)
    requires { LinesBegin script.now script.now traced.now.starts.items [] }
    ensures { Puts (W.contents writer.old) (W.contents writer.new) gathered.old gathered.new
        (shown_in form settings script.now asked.now (map difference_in shown.now)
        (length traced.now.entries.items)) }
{
    put_head(gathered, writer, form);
    put_question(gathered, writer, form, settings, asked);
    put_changes(
        gathered,
        writer,
        form,
        script,
        traced.starts.as_slice(),
        shown,
    );
    put_looked(gathered, writer, form, shown.len(), traced.entries.len());
}

/// Writes these changes of a script that was followed, in turn.
fn write_shown<W: Write>(
    settings: Settings,
    script: &[u8],
    form: Form,
    traced: &Traced,
    shown: &[NamedChange<'_>],
    asked: &Subject,
    out: &mut W,
) -> Result<(), WhoFault>
    requires { LinesBegin script.now script.now traced.now.starts.items [] }
    ensures { TellsShown settings script.now form traced.now asked.now (map difference_in shown.now)
        (W.contents out.old) (W.contents out.new) result }
{
    let mut gathered = Gathered::new();
    put_shown(
        &mut gathered,
        out,
        form,
        settings,
        script,
        traced,
        shown,
        asked,
    );
    match gathered.hand_out(out) {
        Ok(()) => Ok(()),
        Err(_) => Err(WhoFault::Write),
    }
}

/// Writes the changes of a script that was followed, in an order; or returns that no reading has what is asked for.
fn write_changes<W: Write>(
    alloc: Global,
    settings: Settings,
    script: &[u8],
    form: Form,
    traced: &Traced,
    asked: &Subject,
    order: ChangeOrder,
    out: &mut W,
) -> Result<(), WhoFault>
    requires { LinesBegin script.now script.now traced.now.starts.items [] }
    ensures { TellsFound settings script.now form order traced.now asked.now
        (differences_of None traced.now.first traced.now.entries.items)
        (W.contents out.old) (W.contents out.new) result }
{
    let mut found = match changes(alloc, traced) {
        Ok(found) => found,
        Err(_) => return Err(WhoFault::Follow(FollowFault::Memory)),
    };
    match lacking(asked, &traced.first, found.as_slice()) {
        None => (),
        Some(fault) => {
            drop(found);
            return Err(fault);
        }
    }
    put_in_order(&mut found, order);
    let outcome = write_shown(settings, script, form, traced, found.as_slice(), asked, out);
    drop(found);
    outcome
}

/// Writes what is asked for, and the lines of a script whose statements changed it, in an order, with what is read
/// before and after each; then how many statements are in effect, all of which are examined, whatever the bench's
/// history forgot. A statement that changed bytes and their storage has two lines, the storage's first.
///
/// The script runs under these settings. See [`changes`] for which lines these are. After `Write` a prefix of the text
/// was written, after each other fault nothing.
pub fn who<W: Write, P: Watch>(
    alloc: Global,
    script: &[u8],
    settings: Settings,
    form: Form,
    asked: Subject,
    order: ChangeOrder,
    out: &mut W,
    watch: &mut P,
) -> Result<(), WhoFault>
    ensures told { NamesChanges settings script.now form asked order (W.contents out.old) (W.contents out.new) result }
{
    if !can_be_asked(&asked) {
        return Err(WhoFault::Count);
    }
    let traced = match trace(alloc, script, settings, &asked, watch) {
        Ok(traced) => traced,
        Err(fault) => return Err(WhoFault::Follow(fault)),
    };
    let outcome = write_changes(alloc, settings, script, form, &traced, &asked, order, out);
    drop(traced);
    outcome
}
