//! Areas, one after the other.
ghost use Rattle.std.specs.Prelude.{◌≡◌, ◌+◌, ◌^◌, ◌<◌, ◌≤◌, ℕ, List, Option, OnOk, reverse};
ghost use Rattle.explain_areas.specs.Areas.{areas_to, goes_on, joined, shown_address};
ghost use Rattle.explain_standing.specs.NumberMaps.{number_in};
ghost use Rattle.explain_areas.specs.declared.parts.LineArea.{LineArea as AreaIn};

use explain_standing::NumberMap;
use std::alloc::AllocError;
use vsm_model::Subpool;

/// Doublewords of a subpool, one after the other, that the statement of one line took: the number of the first, and how
/// many there are.
#[derive(Clone, Copy)]
pub struct LineArea {
    pub subpool: Subpool,
    pub start: u32,
    pub count: u32,
    pub line: u32,
}

/// The address of an area.
pub(crate) fn shown_address(area: &LineArea) -> u32
    ensures { result ≡ shown_address area.now }
{
    area.start.saturating_mul(8)
}

/// Whether an area begins at the end of another one of its subpool and line.
fn goes_on(last: &LineArea, next: &LineArea) -> bool
    ensures { result ≡ goes_on last.now next.now }
{
    last.subpool.number == next.subpool.number
        && last.subpool.owner == next.subpool.owner
        && last.line == next.line
        && u64::from(last.start) + u64::from(last.count) == u64::from(next.start)
}

/// Adds an area after the last, or to the last if it goes on there.
fn add(areas: &mut Vec<LineArea>, next: LineArea) -> Result<(), AllocError>
    requires { next.start + next.count < 2 ^ 32 }
    ensures { OnOk result (reverse areas.new.items ≡ joined next (reverse areas.old.items)) }
{
    if let Some(last) = areas.last_mut() {
        if goes_on(last, &next) {
            last.count += next.count;
            return Ok(());
        }
    }
    areas.push(next)?;
    Ok(())
}

/// Adds a part of a subpool, from the first doubleword up to an end, that the statement of this line took, if one did.
fn add_part(
    areas: &mut Vec<LineArea>,
    subpool: Subpool,
    line: Option<u32>,
    first: u32,
    end: u32,
) -> Result<(), AllocError>
    requires { first < end }
    ensures { OnOk result ((f : ℕ → Option ℕ) (others : List AreaIn)
        → ((d : ℕ) → first ≤ d → d < end → f d ≡ line)
        → reverse areas.old.items ≡ areas_to subpool f first others
        → reverse areas.new.items ≡ areas_to subpool f end others) }
{
    match line {
        Some(line) => add(
            areas,
            LineArea {
                subpool,
                start: first,
                count: end - first,
                line,
            },
        ),
        None => Ok(()),
    }
}

/// Adds doublewords of a subpool from the first up to an end, each with its line.
pub(crate) fn add_taken(
    areas: &mut Vec<LineArea>,
    lines: &NumberMap,
    subpool: Subpool,
    first: u32,
    end: u32,
) -> Result<(), AllocError>
    requires { first ≤ end }
    ensures { OnOk result ((f : ℕ → Option ℕ) (others : List AreaIn)
        → ((d : ℕ) → first ≤ d → d < end → f d ≡ number_in lines.now d)
        → reverse areas.old.items ≡ areas_to subpool f first others
        → reverse areas.new.items ≡ areas_to subpool f end others) }
{
    let mut at = first;
    while at < end {
        let (line, next) = lines.run_from(at, end);
        add_part(areas, subpool, line, at, next)?;
        at = next;
    }
    Ok(())
}
