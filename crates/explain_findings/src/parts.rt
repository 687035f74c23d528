//! Releases of parts.
ghost use Rattle.std.specs.Prelude.{◌≡◌, ◌^◌, ◌<◌, ◌≤◌};
ghost use Rattle.vsm_model.specs.Regions.{doublewords};
ghost use Rattle.storage_core.specs.Meaning.{state_of};
ghost use Rattle.explain_findings.specs.Homes.{home_at};
ghost use Rattle.explain_standing.specs.NumberMaps.{number_in};
ghost use Rattle.explain_findings.specs.Parts.{goes_on, part_at};

use crate::findings::Part;
use crate::homes::home_at;
use explain_standing::NumberMap;
use storage_core::{Storage, Subpool};

/// How many doublewords have these bytes.
pub(crate) fn doublewords(bytes: u32) -> u32
    ensures count { result ≡ doublewords bytes }
    ensures few { result ≤ 2 ^ 29 }
{
    bytes / 8 + u32::from(bytes % 8 > 0)
}

/// Whether the area of the first of these doublewords goes on before them or after them.
fn goes_on(
    storage: &Storage,
    lines: &NumberMap,
    first: u32,
    count: u32,
    guess: Option<Subpool>,
) -> bool
    requires first { first < 2 ^ 29 }
    requires count { count ≤ 2 ^ 29 }
    ensures { result ≡ goes_on (home_at (state_of storage.now) (number_in lines.now)) first count }
{
    let home = home_at(storage, lines, 2 * first, guess);
    let before = home_at(storage, lines, (2 * first).saturating_sub(1), guess);
    if home.is_same(&before) {
        return true;
    }
    let after = home_at(storage, lines, 2 * (first + count), guess);
    home.is_same(&after)
}

/// Whether this many released doublewords from the first on aren't exactly one area.
pub(crate) fn part_at(
    storage: &Storage,
    lines: &NumberMap,
    first: u32,
    count: u32,
    guess: Option<Subpool>,
) -> Option<Part>
    requires first { first < 2 ^ 29 }
    requires count { count ≤ 2 ^ 29 }
    ensures { result ≡ part_at (home_at (state_of storage.now) (number_in lines.now)) (number_in lines.now) first
        count }
{
    if !lines.is_of_one(first, count) {
        return Some(Part::OfSeveral);
    }
    if goes_on(storage, lines, first, count, guess) {
        Some(Part::OfArea(lines.number(first).unwrap_or(0)))
    } else {
        None
    }
}
