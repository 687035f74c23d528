//! The areas of a storage.
ghost use Rattle.std.specs.Prelude.{◌≡◌, ◌+◌, ◌*◌, ◌^◌, ◌<◌, ◌≤◌, ◌++◌, ℕ, List, Option, IfNone, IfOk, IfSome, OnOk};
ghost use Rattle.std.specs.Prelude.{flat_map, reverse, true, false};
ghost use Rattle.vsm_model.specs.declared.Subpool.{Subpool as Named};
ghost use Rattle.subpool_storage.specs.Order.{subpools_in_order};
ghost use Rattle.storage_core.specs.Meaning.{state_in_place};
ghost use Rattle.macro_statements.specs.Requests.{Act};
ghost use Rattle.vsm_model.specs.declared.limits.Settings.{Settings as SettingsIn};
ghost use Rattle.explain_areas.specs.Areas.{areas_of, areas_to};
ghost use Rattle.explain_standing.specs.Carried.{IsCarried};
ghost use Rattle.explain_areas.specs.Since.{taken_areas};
ghost use Rattle.explain_areas.specs.Ahead.{IsFreeFrom, IsNext, AreLinesOf};
ghost use Rattle.explain_areas.specs.declared.parts.LineArea.{LineArea as AreaIn};

use crate::parts::{LineArea, add_taken};
use explain_standing::{Carried, NumberMap};
use std::alloc::{AllocError, Global};
use storage_core::{Area as FreeArea, FreeAreaPlace, Run, Storage, Subpool};

/// The doublewords of a page.
const PAGE: u32 = 512;

/// The free area after the place if it begins before an end, and the place after that.
fn next_before(
    storage: &Storage,
    place: FreeAreaPlace,
    end: u32,
) -> Option<(FreeArea, FreeAreaPlace)>
    requires { (p : Named) × (d : ℕ) × IsFreeFrom storage.now p place d }
    ensures none { IfNone result ((p : Named) (d : ℕ) → IsFreeFrom storage.now p place d → d ≤ end
        → IsFreeFrom storage.now p place end
        × ((n : ℕ) → d ≤ n → n < end → (state_in_place storage.now).subpools.free p n ≡ false)) }
    ensures next { IfSome result (λ r. (p : Named) (d : ℕ) → IsFreeFrom storage.now p place d
        → IsNext ((state_in_place storage.now).subpools.free p) d r.0
        × IsFreeFrom storage.now p r.1 (r.0.start + r.0.len)) }
    ensures before { IfSome result (λ r. r.0.start < end) }
    ensures ends { IfSome result (λ r. r.0.start + r.0.len < 2 ^ 29) }
{
    match storage.next_free_area(place) {
        Some((area, after)) => {
            if area.start < end {
                Some((area, after))
            } else {
                None
            }
        }
        None => None,
    }
}

/// Adds what is taken of an extent of a subpool; its free areas from the extent on follow a place. Gives the place
/// after the last of them in the extent.
fn add_extent(
    areas: &mut Vec<LineArea>,
    lines: &NumberMap,
    storage: &Storage,
    subpool: Subpool,
    extent: Run,
    first: FreeAreaPlace,
) -> Result<FreeAreaPlace, AllocError>
    requires ends { extent.start + extent.len < 2 ^ 20 }
    requires pages { (k : ℕ) → extent.start ≤ k → k < extent.start + extent.len
        → (state_in_place storage.now).subpools.pages subpool k ≡ true }
    requires past { (state_in_place storage.now).subpools.pages subpool (extent.start + extent.len) ≡ false }
    requires place { IsFreeFrom storage.now subpool first (512 * extent.start) }
    ensures place { IfOk result (λ place. IsFreeFrom storage.now subpool place
        (512 * (extent.start + extent.len))) }
    ensures areas { OnOk result ((f : ℕ → Option ℕ) (others : List AreaIn)
        → AreLinesOf lines.now storage.now subpool f
        → reverse areas.old.items ≡ areas_to subpool f (512 * extent.start) others
        → reverse areas.new.items ≡ areas_to subpool f (512 * (extent.start + extent.len)) others) }
{
    let end = PAGE * (extent.start + extent.len);
    let mut at = PAGE * extent.start;
    let mut place = first;
    while let Some((area, after)) = next_before(storage, place, end) {
        add_taken(areas, lines, subpool, at, area.start)?;
        at = area.start + area.len;
        place = after;
    }
    add_taken(areas, lines, subpool, at, end)?;
    Ok(place)
}

/// What is taken of a subpool.
fn areas_in(
    alloc: Global,
    lines: &NumberMap,
    storage: &Storage,
    subpool: Subpool,
) -> Result<Vec<LineArea>, AllocError>
    ensures { IfOk result (λ areas. (f : ℕ → Option ℕ) → AreLinesOf lines.now storage.now subpool f
        → areas.items ≡ areas_of subpool f) }
{
    let mut areas = Vec::new(alloc);
    let mut free = storage.first_free_area(subpool);
    let mut place = storage.first_extent(subpool);
    while let Some((extent, after)) = storage.next_extent(place) {
        free = add_extent(&mut areas, lines, storage, subpool, extent, free)?;
        place = after;
    }
    Ok(areas)
}

/// Adds what is taken of a subpool.
fn add_subpool(
    areas: &mut Vec<LineArea>,
    alloc: Global,
    lines: &NumberMap,
    storage: &Storage,
    subpool: Subpool,
) -> Result<(), AllocError>
    ensures { OnOk result ((f : ℕ → Option ℕ) → AreLinesOf lines.now storage.now subpool f
        → areas.new.items ≡ areas.old.items ++ areas_of subpool f) }
{
    let own = areas_in(alloc, lines, storage, subpool)?;
    areas.extend_from_slice(own.as_slice())?;
    drop(own);
    Ok(())
}

/// What is taken of a storage, by subpools and then ascending, each doubleword with its line.
fn areas_with(
    alloc: Global,
    storage: &Storage,
    lines: &NumberMap,
) -> Result<Vec<LineArea>, AllocError>
    ensures { IfOk result (λ areas. (f : Named → ℕ → Option ℕ)
        → ((p : Named) → AreLinesOf lines.now storage.now p (f p))
        → areas.items ≡ flat_map (λ p. areas_of p (f p))
        (subpools_in_order (state_in_place storage.now).subpools)) }
{
    let mut areas = Vec::new(alloc);
    let mut place = Storage::first_subpool_place();
    while let Some((subpool, after)) = storage.next_subpool(place) {
        add_subpool(&mut areas, alloc, lines, storage, subpool)?;
        place = after;
    }
    Ok(areas)
}

/// All areas that are taken after the statements that were carried out, by subpools and then ascending: the longest
/// runs of a subpool's doublewords that the statement of one line took. `AllocError` if memory runs out.
pub fn areas_left(alloc: Global, carried: &Carried) -> Result<Vec<LineArea>, AllocError>
    ensures { (settings : SettingsIn) (xs : List (ℕ × Act)) → IsCarried settings xs carried.now
        → IfOk result (λ areas. areas.items ≡ taken_areas settings xs) }
{
    areas_with(alloc, carried.bench.storage(), &carried.lines)
}
