//! The doublewords of extents that were given back, noted in a queue of spare elements.
ghost use Rattle.std.specs.Prelude.{◌≡◌, ℕ, ◌+◌, ◌^◌, ◌<◌, ◌≤◌, ◌||◌, true, length, IsOk, OnOk, OnErr};
ghost use Rattle.vsm_elements.specs.Ownership.{Leaves};
ghost use Rattle.vsm_elements.specs.Owners.{times, Moves};
ghost use Rattle.run_set.specs.Runs.{inside};
ghost use Rattle.free_queue.specs.FreeQueue.{is_free, owned, IsFreeQueue};
ghost use Rattle.storage_changes.specs.StorageActions.{run_of};
ghost use Rattle.storage_swap.specs.Growth.{MakesElements};
ghost use Rattle.cell_plans.specs.Noted.{noted_count, NotesOne};

use free_queue::{Cover, FreeQueue};
use run_set::Run;
use std::alloc::AllocError;
use storage_swap::Parts;
use vsm_elements::Elements;

// The doubleword is noted, if it isn't yet. If the one before it is noted, it's joined to that and takes no element.
fn note_doubleword(noted: &mut FreeQueue, elements: &mut Elements, doubleword: u32)
    requires queue { IsFreeQueue elements.old noted.old }
    requires range { doubleword < 2 ^ 29 }
    requires room { 0 < elements.old.spare }
    ensures queue { IsFreeQueue elements.new noted.new }
    ensures set { (d : ℕ) → is_free elements.new noted.new d
        ≡ (inside d (run_of doubleword 1) || is_free elements.old noted.old d) }
    ensures owned { Leaves elements.old elements.new (owned elements.old noted.old) (owned elements.new noted.new) }
    ensures spares { elements.old.spare ≤ elements.new.spare + 1 }
    ensures joined { (before : ℕ) → before + 1 ≡ doubleword → is_free elements.old noted.old before ≡ true
        → elements.old.spare ≤ elements.new.spare }
{
    let end = noted.end_from(elements, doubleword);
    if end == doubleword {
        noted.free(
            elements,
            Run {
                start: doubleword,
                len: 1,
            },
        );
    }
}

// Each doubleword of the area that isn't noted yet is noted by itself, in ascending order, so that one element is
// enough.
fn note_missing(noted: &mut FreeQueue, elements: &mut Elements, area: Run)
    requires queue { IsFreeQueue elements.old noted.old }
    requires range { area.start + area.len ≤ 2 ^ 29 }
    requires room { 2 ≤ elements.old.spare }
    ensures queue { IsFreeQueue elements.new noted.new }
    ensures set { (d : ℕ) → is_free elements.new noted.new d ≡ (inside d area || is_free elements.old noted.old d) }
    ensures owned { Leaves elements.old elements.new (owned elements.old noted.old) (owned elements.new noted.new) }
    ensures spares { elements.old.spare ≤ elements.new.spare + 1 }
{
    for doubleword in area.start..area.start + area.len {
        note_doubleword(noted, elements, doubleword);
    }
}

// The doublewords of the area are noted. No two extents of a sound storage share a doubleword, but this doesn't depend
// on that: what is already noted stays noted.
fn note_area(noted: &mut FreeQueue, elements: &mut Elements, area: Run)
    requires queue { IsFreeQueue elements.old noted.old }
    requires range { (0 < area.len) × (area.start + area.len ≤ 2 ^ 29) }
    requires room { 2 ≤ elements.old.spare }
    ensures queue { IsFreeQueue elements.new noted.new }
    ensures set { (d : ℕ) → is_free elements.new noted.new d ≡ (inside d area || is_free elements.old noted.old d) }
    ensures owned { Leaves elements.old elements.new (owned elements.old noted.old) (owned elements.new noted.new) }
    ensures spares { elements.old.spare ≤ elements.new.spare + 1 }
{
    match noted.covers(elements, area) {
        Cover::None => noted.free(elements, area),
        Cover::All | Cover::Part => note_missing(noted, elements, area),
    }
}

/// The doublewords of the area are noted. It takes one element at most.
///
/// `AllocError` if fewer than two are spare and memory is refused: what is noted then stays as it is.
pub(crate) fn note(storage: &mut Parts, noted: &mut FreeQueue, area: Run) -> Result<(), AllocError>
    requires queue { IsFreeQueue storage.old.elements noted.old }
    requires range { (0 < area.len) × (area.start + area.len ≤ 2 ^ 29) }
    ensures queue { IsFreeQueue storage.new.elements noted.new }
    ensures same { storage.new ≡ record storage.old { elements = storage.new.elements } }
    ensures moves { Moves storage.old.elements storage.new.elements
        (λ i. times i (owned storage.old.elements noted.old)) (λ i. times i (owned storage.new.elements noted.new)) }
    ensures aside { storage.new.elements.aside ≡ storage.old.elements.aside }
    ensures set { OnOk result ((d : ℕ) → is_free storage.new.elements noted.new d
        ≡ (inside d area || is_free storage.old.elements noted.old d)) }
    ensures one { OnOk result (NotesOne storage.old.elements storage.new.elements
        (noted_count storage.old noted.old) (noted_count storage.new noted.new)) }
    ensures made { OnErr result (MakesElements storage.old.elements storage.new.elements 2) }
    ensures needless { 2 ≤ storage.old.elements.spare → IsOk result }
{
    storage.elements.reserve(2)?;
    // No fewer elements are live than the queue has.
    storage.elements.live_are_counted();
    note_area(noted, &mut storage.elements, area);
    Ok(())
}
