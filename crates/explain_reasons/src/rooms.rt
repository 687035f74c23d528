//! That an area has no room on the sides of the line, as text.
ghost use Rattle.std.specs.Prelude.{◌≡◌, not, Some};
ghost use Rattle.vsm_model.specs.Areas.{is_nowhere};
ghost use Rattle.storage_plans.specs.Reasons.{side_place};
ghost use Rattle.text_output.specs.Writing.{Puts};
ghost use Rattle.explain_reasons.specs.Places.{sides_place};
ghost use Rattle.explain_reasons.specs.ToldPlaces.{largest_word, no_room_on, no_room_text, no_second_room};
ghost use Rattle.explain_reasons.specs.ToldPlaces.{option_place, room_text};

use crate::places::LengthSides;
use crate::sides::side_word;
use explain_text::{Piece, put_line};
use std::io::Write;
use storage_core::{Boundary, SideReason};
use text_output::Gathered;

/// What precedes the size of the largest free area: with a boundary, it's measured from that on.
fn largest_word(boundary: Boundary) -> &'static str
    ensures { result.now ≡ largest_word boundary }
{
    match boundary {
        Boundary::Doubleword => "the largest free area has ",
        Boundary::Page => "from the first byte of a page on, the largest free area has ",
    }
}

/// Puts how much room a side has, which isn't enough.
fn put_no_room_on<W: Write>(
    gathered: &mut Gathered,
    writer: &mut W,
    boundary: Boundary,
    reason: SideReason,
)
    ensures { Puts (W.contents writer.old) (W.contents writer.new) gathered.old gathered.new
        (no_room_on boundary reason) }
{
    put_line(
        gathered,
        writer,
        &[
            Piece::Text("no room "),
            Piece::Text(side_word(reason.side)),
            Piece::Text(largest_word(boundary)),
            Piece::Long(8 * u64::from(reason.longest_inside)),
            Piece::Text(" bytes, and the longest run of unassigned pages has "),
            Piece::Number(reason.longest_run),
        ],
    );
}

/// Puts the same of the second side, if there is one.
fn put_no_second_room<W: Write>(
    gathered: &mut Gathered,
    writer: &mut W,
    boundary: Boundary,
    second: Option<SideReason>,
)
    ensures { Puts (W.contents writer.old) (W.contents writer.new) gathered.old gathered.new
        (no_second_room boundary second) }
{
    match second {
        Some(reason) => put_no_room_on(gathered, writer, boundary, reason),
        None => (),
    }
}

/// Puts how much room each of the sides has.
fn put_no_room<W: Write>(gathered: &mut Gathered, writer: &mut W, sides: &LengthSides)
    ensures { Puts (W.contents writer.old) (W.contents writer.new) gathered.old gathered.new
        (no_room_text sides.now) }
{
    put_no_room_on(gathered, writer, sides.boundary, sides.first);
    put_no_second_room(gathered, writer, sides.boundary, sides.second);
}

/// Whether a side has a place.
fn has_place(reason: SideReason) -> bool
    ensures { result ≡ not (is_nowhere (side_place reason)) }
{
    reason.inside.is_some() || reason.fresh.is_some()
}

/// Whether the second side has one.
fn has_second_place(second: Option<SideReason>) -> bool
    ensures { result ≡ not (is_nowhere (option_place second)) }
{
    match second {
        Some(reason) => has_place(reason),
        None => false,
    }
}

/// Whether no side has one.
fn is_nowhere(sides: &LengthSides) -> bool
    ensures { result ≡ is_nowhere (sides_place sides.now) }
{
    !has_place(sides.first) && !has_second_place(sides.second)
}

/// Puts how much room each of the sides has, if none has a place.
fn put_lack<W: Write>(gathered: &mut Gathered, writer: &mut W, sides: &LengthSides)
    ensures { Puts (W.contents writer.old) (W.contents writer.new) gathered.old gathered.new
        (room_text (Some sides.now)) }
{
    if is_nowhere(sides) {
        put_no_room(gathered, writer, sides);
    }
}

/// Puts the same of the sides that are looked at, if they are.
pub(crate) fn put_room<W: Write>(
    gathered: &mut Gathered,
    writer: &mut W,
    sides: Option<LengthSides>,
)
    ensures { Puts (W.contents writer.old) (W.contents writer.new) gathered.old gathered.new (room_text sides) }
{
    match sides {
        Some(sides) => put_lack(gathered, writer, &sides),
        None => (),
    }
}
