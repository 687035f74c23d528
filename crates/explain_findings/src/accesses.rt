//! Bytes that are stored or read outside of an area.
ghost use Rattle.std.specs.Prelude.{◌≡◌, ◌+◌, ◌^◌, ◌<◌, ◌≤◌, IfSome, option_map};
ghost use Rattle.storage_core.specs.Meaning.{state_of};
ghost use Rattle.explain_findings.specs.Accesses.{first_outside, outside_at, words_of};
ghost use Rattle.explain_findings.specs.Homes.{home_at};
ghost use Rattle.explain_standing.specs.NumberMaps.{number_in};

use crate::findings::Outside;
use crate::homes::{Home, home_at};
use explain_standing::NumberMap;
use storage_core::{Storage, Subpool};

/// How many fullwords have one of these bytes.
fn words_of(address: u32, count: u32) -> u32
    ensures { result ≡ words_of address count }
{
    count / 4 + (address % 4 + count % 4 + 3) / 4
}

/// The first of a number of fullwords that isn't in this area or cell, and where it is.
fn first_outside(
    storage: &Storage,
    lines: &NumberMap,
    first: &Home,
    count: u32,
    word: u32,
    guess: Option<Subpool>,
) -> Option<(u32, Home)>
    requires within { word < 2 ^ 30 }
    requires end { word + count < 2 ^ 32 }
    ensures first { option_map (λ r. r.0) result
        ≡ first_outside (home_at (state_of storage.now) (number_in lines.now)) first.now count word }
    ensures home { IfSome result (λ r. r.1 ≡ home_at (state_of storage.now) (number_in lines.now) r.0) }
    ensures within { IfSome result (λ r. r.0 < 2 ^ 30) }
{
    for at in word..word + count {
        let home = home_at(storage, lines, at, guess);
        if !first.is_same(&home) {
            return Some((at, home));
        }
    }
    None
}

/// The first of the bytes at an address that isn't in the area or the cell of the first one, and where it is. The
/// guessed subpool is asked for pages first.
pub(crate) fn outside_at(
    storage: &Storage,
    lines: &NumberMap,
    address: u32,
    count: u32,
    guess: Option<Subpool>,
) -> Option<Outside>
    ensures { result ≡ outside_at (home_at (state_of storage.now) (number_in lines.now)) address count }
{
    let word = address / 4;
    let first = home_at(storage, lines, word, guess);
    let count = words_of(address, count);
    match first_outside(storage, lines, &first, count, word, guess) {
        Some((at, home)) => Some(Outside {
            address: address.max(4 * at),
            home,
        }),
        None => None,
    }
}
