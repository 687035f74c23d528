//! Where an area may begin and lie: the values of BNDRY and LOC.

ghost use Rattle.std.specs.Prelude.{◌≡◌};
ghost use Rattle.macro_operands.specs.Locations.{boundary_of, location_word_of, is_real_location, location_of};
ghost use Rattle.macro_operands.specs.Locations.{is_explicit};

use operand_texts::values::parts_of;
use operand_texts::words::is_word;
use vsm_model::{Boundary, Location};

/// The boundary that a text says, in either case. Nothing if it says none.
pub(crate) fn boundary_of(text: &[u8]) -> Option<Boundary>
    ensures { result ≡ boundary_of text.now }
{
    if is_word(text, b"DBLWD") {
        Some(Boundary::Doubleword)
    } else if is_word(text, b"PAGE") {
        Some(Boundary::Page)
    } else {
        None
    }
}

/// The location that a word says, in either case. Nothing if it says none.
fn location_word_of(text: &[u8]) -> Option<Location>
    ensures { result ≡ location_word_of text.now }
{
    if is_word(text, b"BELOW") || is_word(text, b"24") {
        Some(Location::Low)
    } else if is_word(text, b"ANY") || is_word(text, b"31") {
        Some(Location::Either)
    } else if is_word(text, b"RES") {
        Some(Location::Caller)
    } else {
        None
    }
}

/// Whether a text says where real storage may lie.
fn is_real_location(text: &[u8]) -> bool
    ensures { result ≡ is_real_location text.now }
{
    is_word(text, b"BELOW")
        || is_word(text, b"24")
        || is_word(text, b"ANY")
        || is_word(text, b"31")
        || is_word(text, b"64")
}

/// The location that a text says: a word, or the first of a pair, whose second says where real storage may lie and has
/// no effect. Nothing if it says none.
pub(crate) fn location_of(text: &[u8]) -> Option<Location>
    ensures { result ≡ location_of text.now }
{
    match parts_of(text) {
        Some((first, second)) if is_real_location(second) => location_word_of(first),
        Some(_) => None,
        None => location_word_of(text),
    }
}

/// Whether a text is EXPLICIT, or a pair that begins with it, whatever its second part is.
pub(crate) fn is_explicit(text: &[u8]) -> bool
    ensures { result ≡ is_explicit text.now }
{
    match parts_of(text) {
        Some((first, _)) => is_word(first, b"EXPLICIT"),
        None => is_word(text, b"EXPLICIT"),
    }
}
