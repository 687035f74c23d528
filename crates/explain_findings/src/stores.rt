//! Bytes that are read, and that nothing stored since their area or their cell was taken.
ghost use Rattle.std.specs.Prelude.{◌≡◌, ◌/◌, ℕ};
ghost use Rattle.explain_standing.specs.Carried.{state_in};
ghost use Rattle.explain_standing.specs.NumberMaps.{number_in};
ghost use Rattle.explain_findings.specs.Homes.{home_at};
ghost use Rattle.explain_findings.specs.Stores.{first_unset, is_unset, line_at_home, line_kept};

use crate::findings::Unset;
use crate::homes::{Home, home_at};
use explain_standing::{Carried, NumberMap};
use storage_core::Subpool;

/// The line that took the area or the cell in use in which something is.
fn line_at_home(cells: &NumberMap, home: &Home) -> Option<u32>
    ensures { result ≡ line_at_home (λ cell. number_in cells.now (cell / 4)) home.now }
{
    match home {
        Home::Area { line, .. } => Some(*line),
        Home::Cell { start, .. } => Some(cells.number(*start / 4).unwrap_or(0)),
        Home::Unassigned | Home::Free(_) | Home::FreeCell(_) | Home::PastCells(_) => None,
    }
}

/// Whether a byte of an area or a cell that this line took, if one did, wasn't stored after that.
fn is_unset(line: Option<u32>, stored: Option<u32>) -> bool
    ensures { result ≡ is_unset line stored }
{
    match (line, stored) {
        (None, _) => false,
        (Some(_), None) => true,
        (Some(line), Some(stored)) => stored < line,
    }
}

/// A fullword, and the line that took the area or the cell in use in which it is.
#[derive(Clone, Copy)]
struct WordLine {
    word: u32,
    line: Option<u32>,
}

/// The line that took the area or the cell in use in which a fullword is. The guessed subpool is asked for its page
/// first.
fn line_of_word(carried: &Carried, word: u32, guess: Option<Subpool>) -> WordLine
    ensures word { result.word ≡ word }
    ensures line { result.line ≡ line_kept carried.now word }
{
    let home = home_at(carried.bench.storage(), &carried.lines, word, guess);
    WordLine {
        word,
        line: line_at_home(&carried.cells, &home),
    }
}

/// The same of the fullword of a byte, which may be the last one.
fn line_of_byte(carried: &Carried, last: WordLine, byte: u32, guess: Option<Subpool>) -> WordLine
    requires { last.line ≡ line_kept carried.now last.word }
    ensures word { result.word ≡ byte / 4 }
    ensures line { result.line ≡ line_kept carried.now (byte / 4) }
{
    if byte / 4 == last.word {
        last
    } else {
        line_of_word(carried, byte / 4, guess)
    }
}

/// The first of this many bytes at an address that nothing stored since its area or its cell was taken; `stored` has
/// the line that stored each byte last. The guessed subpool is asked for pages first.
pub(crate) fn unset_at(
    carried: &Carried,
    stored: &NumberMap,
    address: u32,
    count: u16,
    guess: Option<Subpool>,
) -> Option<Unset>
    ensures { result ≡ first_unset (home_at (state_in carried.now) (number_in carried.now.lines))
        (λ cell. number_in carried.now.cells (cell / 4)) (number_in stored.now) count address }
{
    let mut its = line_of_word(carried, address / 4, guess);
    for at in address..address.saturating_add(u32::from(count)) {
        its = line_of_byte(carried, its, at, guess);
        if is_unset(its.line, stored.number(at)) {
            return Some(Unset {
                address: at,
                line: its.line.unwrap_or(0),
            });
        }
    }
    None
}
