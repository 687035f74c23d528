//! The lines at whose statements a reading differs.
ghost use Rattle.std.specs.Prelude.{◌≡◌, ◌++◌, ℕ, List, None, OnOk, IfOk, map};
ghost use Rattle.vsm_model.specs.declared.limits.Settings.{Settings};
ghost use Rattle.explain_who.specs.Readings.{same};
ghost use Rattle.explain_who.specs.Who.{difference, differences_of, since, unless};
ghost use Rattle.explain_who.specs.Code.{difference_in};
ghost use Rattle.explain_who.specs.Traced.{IsFound, IsTraced};
ghost use Rattle.explain_who.specs.declared.readings.Subject.{Subject};

use crate::readings::{Seen, is_taken, same};
use crate::tracing::Traced;
use explain_standing::TrailEntry;
use std::alloc::{AllocError, Global};

/// A line at whose statement the reading differs, with what is read before and after it, and which line took the
/// storage before and after it.
#[derive(Drop)]
pub(crate) struct NamedChange<'a> {
    pub line: u32,
    pub before: &'a Seen,
    pub after: &'a Seen,
    pub taken_before: Option<u32>,
    pub taken_after: Option<u32>,
}

/// The line that took the storage: this one, if the storage is taken after its statement and wasn't before; the same as
/// before, if it was; none if it isn't taken.
fn since(after: bool, before: bool, line: u32, older: Option<u32>) -> Option<u32>
    ensures { result ≡ since after before line older }
{
    match (after, before) {
        (false, _) => None,
        (true, true) => older,
        (true, false) => Some(line),
    }
}

/// Notes a change if the readings differ.
fn note<'a>(
    found: &mut Vec<NamedChange<'a>>,
    line: u32,
    before: &'a Seen,
    after: &'a Seen,
    taken_before: Option<u32>,
    taken_after: Option<u32>,
) -> Result<(), AllocError>
    ensures { OnOk result (map difference_in found.new.items ≡ map difference_in found.old.items
        ++ unless (same before.now after.now) (difference line before.now after.now taken_before taken_after)) }
{
    if same(before, after) {
        return Ok(());
    }
    found.push(NamedChange {
        line,
        before,
        after,
        taken_before,
        taken_after,
    })?;
    Ok(())
}

/// The statements that change what is read, oldest first; `first` is read before all of them.
fn differences<'a>(
    alloc: Global,
    first: &'a Seen,
    entries: &'a [TrailEntry<Seen>],
) -> Result<Vec<NamedChange<'a>>, AllocError>
    ensures { IfOk result (λ found. map difference_in found.items ≡ differences_of None first.now entries.now) }
{
    let mut found = Vec::new(alloc);
    let mut before = first;
    let mut taken_before = None;
    for i in 0..entries.len() {
        let entry = &entries[i];
        let line = entry.line;
        let after = &entry.seen;
        let taken_after = since(is_taken(after), is_taken(before), line, taken_before);
        note(&mut found, line, before, after, taken_before, taken_after)?;
        before = after;
        taken_before = taken_after;
    }
    Ok(found)
}

/// The lines of the statements in effect at which the reading differs between the statements in effect up to them and
/// those before them, run alone; oldest first. All of them are examined, whatever a bench's history forgot.
pub(crate) fn changes(alloc: Global, traced: &Traced) -> Result<Vec<NamedChange<'_>>, AllocError>
    ensures along { IfOk result (λ found. map difference_in found.items ≡ differences_of None traced.now.first
        traced.now.entries.items) }
    ensures standing { IfOk result (λ found. (settings : Settings) (script : List ℕ) (asked : Subject)
        → IsTraced settings script asked traced.now → IsFound settings script asked (map difference_in found.items)) }
{
    differences(alloc, &traced.first, traced.entries.as_slice())
}
