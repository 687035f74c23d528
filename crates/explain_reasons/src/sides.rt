//! What each side of the line has for an area, as text.
ghost use Rattle.std.specs.Prelude.{◌≡◌, IfSome};
ghost use Rattle.vsm_model.specs.Areas.{Inside, Fresh};
ghost use Rattle.storage_plans.specs.Reasons.{side_place};
ghost use Rattle.text_output.specs.Writing.{Puts};
ghost use Rattle.explain_reasons.specs.Places.{sides_place};
ghost use Rattle.explain_reasons.specs.ToldPlaces.{found_in, found_text, option_place, side_word, PutsEnding};
ghost use Rattle.explain_reasons.specs.ToldPlaces.{TellsSide};
ghost use Rattle.explain_text.specs.Pieces.{PutsSome};

use crate::places::LengthSides;
use crate::sights::seen_or_own;
use explain_text::{Piece, put_pieces};
use std::io::Write;
use storage_core::{Boundary, Residence, SideReason, Storage, Subpool, Sums};
use text_output::{Gathered, put_hexadecimal};
use vsm_model::geometry::{PAGE_BYTES, PAGE_DOUBLEWORDS};

/// The name of a side.
pub(crate) fn side_word(side: Residence) -> &'static str
    ensures { result.now ≡ side_word side }
{
    match side {
        Residence::Below => "below: ",
        Residence::Above => "above: ",
    }
}

/// Puts which free areas of the subpool are on a side.
fn put_free_areas<W: Write>(gathered: &mut Gathered, writer: &mut W, side: Residence, sum: Sums)
    ensures { PutsSome (W.contents writer.old) (W.contents writer.new) gathered.old gathered.new }
{
    let word = if sum.count == 1 {
        " free area, "
    } else {
        " free areas, "
    };
    put_pieces(
        gathered,
        writer,
        &[
            Piece::Text("  "),
            Piece::Text(side_word(side)),
            Piece::Number(sum.count),
            Piece::Text(word),
            Piece::Number(sum.total.saturating_mul(8)),
            Piece::Text(" bytes, "),
        ],
    );
}

/// Puts that the area fits at a doubleword.
fn put_fit<W: Write>(gathered: &mut Gathered, writer: &mut W, doubleword: u32)
    ensures { Puts (W.contents writer.old) (W.contents writer.new) gathered.old gathered.new
        (found_text (Inside doubleword)) }
{
    gathered.put(writer, b"fits: the lowest place is ");
    put_hexadecimal(gathered, writer, 8, 8u32.saturating_mul(doubleword));
    gathered.put(writer, b"\n");
}

/// Puts that no free area is large enough, and how large one is at most: with a boundary, from that on.
fn put_no_fit<W: Write>(gathered: &mut Gathered, writer: &mut W, boundary: Boundary, most: u32)
    ensures { PutsSome (W.contents writer.old) (W.contents writer.new) gathered.old gathered.new }
{
    let text = match boundary {
        Boundary::Doubleword => "none fits (the largest has ",
        Boundary::Page => "none fits (from the first byte of a page on, the largest has ",
    };
    put_pieces(
        gathered,
        writer,
        &[
            Piece::Text(text),
            Piece::Number(most.saturating_mul(8)),
            Piece::Text(")\n"),
        ],
    );
}

/// The free areas of a subpool on one side of the line.
fn free_areas(storage: &Storage, subpool: Subpool, side: Residence) -> Sums {
    let sums = storage.free_area_sums(storage.first_free_area(subpool));
    match side {
        Residence::Below => sums.low,
        Residence::Above => sums.high,
    }
}

/// Puts what the subpool's own free storage on a side has.
fn put_inside<W: Write>(
    gathered: &mut Gathered,
    writer: &mut W,
    sum: Sums,
    boundary: Boundary,
    reason: SideReason,
)
    ensures some { PutsSome (W.contents writer.old) (W.contents writer.new) gathered.old gathered.new }
    ensures place { IfSome reason.inside (λ d. PutsEnding (W.contents writer.old) (W.contents writer.new)
        gathered.old gathered.new (found_text (Inside d))) }
{
    put_free_areas(gathered, writer, reason.side, sum);
    match reason.inside {
        Some(doubleword) => put_fit(gathered, writer, doubleword),
        None => put_no_fit(gathered, writer, boundary, reason.longest_inside),
    }
}

/// Puts how many pages are needed on a side.
fn put_wanted<W: Write>(gathered: &mut Gathered, writer: &mut W, side: Residence, pages: u32)
    ensures { PutsSome (W.contents writer.old) (W.contents writer.new) gathered.old gathered.new }
{
    let word = if pages == 1 {
        " page needed; "
    } else {
        " pages needed; "
    };
    put_pieces(
        gathered,
        writer,
        &[
            Piece::Text("  "),
            Piece::Text(side_word(side)),
            Piece::Number(pages),
            Piece::Text(word),
        ],
    );
}

/// Puts that enough unassigned pages begin at a page.
fn put_run<W: Write>(gathered: &mut Gathered, writer: &mut W, page: u32)
    ensures { Puts (W.contents writer.old) (W.contents writer.new) gathered.old gathered.new
        (found_text (Fresh page)) }
{
    gathered.put(
        writer,
        b"the lowest run of enough unassigned pages begins at ",
    );
    put_hexadecimal(gathered, writer, 8, PAGE_BYTES.saturating_mul(page));
    gathered.put(writer, b"\n");
}

/// Puts what the unassigned pages on a side have for that number of doublewords.
fn put_fresh<W: Write>(gathered: &mut Gathered, writer: &mut W, count: u32, reason: SideReason)
    ensures some { PutsSome (W.contents writer.old) (W.contents writer.new) gathered.old gathered.new }
    ensures place { IfSome reason.fresh (λ page. PutsEnding (W.contents writer.old) (W.contents writer.new)
        gathered.old gathered.new (found_text (Fresh page))) }
{
    put_wanted(
        gathered,
        writer,
        reason.side,
        count.div_ceil(PAGE_DOUBLEWORDS),
    );
    match reason.fresh {
        Some(page) => put_run(gathered, writer, page),
        None => put_pieces(
            gathered,
            writer,
            &[
                Piece::Text("the longest run of unassigned pages has "),
                Piece::Number(reason.longest_run),
                Piece::Text("\n"),
            ],
        ),
    }
}

/// Puts what a side has; `true` if it has a place, which ends the search.
fn put_side<W: Write>(
    gathered: &mut Gathered,
    writer: &mut W,
    sum: Sums,
    sides: &LengthSides,
    reason: SideReason,
) -> bool
    ensures { TellsSide (W.contents writer.old) (W.contents writer.new) gathered.old gathered.new
        (side_place reason) result }
{
    put_inside(gathered, writer, sum, sides.boundary, reason);
    if reason.inside.is_some() {
        return true;
    }
    put_fresh(gathered, writer, sides.count, reason);
    reason.fresh.is_some()
}

/// Puts what the second side has, if there is one.
fn put_second<W: Write>(
    gathered: &mut Gathered,
    writer: &mut W,
    storage: &Storage,
    subpool: Subpool,
    sides: &LengthSides,
)
    ensures { PutsEnding (W.contents writer.old) (W.contents writer.new) gathered.old gathered.new
        (found_text (option_place sides.now.second)) }
{
    match sides.second {
        Some(reason) => {
            let sum = free_areas(storage, subpool, reason.side);
            put_side(gathered, writer, sum, sides, reason);
        }
        None => (),
    }
}

/// Puts what the sides have for an area of a subpool: lines that end in its place, if it has one.
fn put_sides<W: Write>(
    gathered: &mut Gathered,
    writer: &mut W,
    storage: &Storage,
    subpool: Subpool,
    sides: &LengthSides,
)
    ensures { PutsEnding (W.contents writer.old) (W.contents writer.new) gathered.old gathered.new
        (found_text (sides_place sides.now)) }
{
    let sum = free_areas(storage, subpool, sides.first.side);
    if put_side(gathered, writer, sum, sides, sides.first) {
        return;
    }
    put_second(gathered, writer, storage, subpool, sides);
}

/// Puts what the sides of the line have, if they are looked at, for an area of the subpool that the current task sees
/// at a number: lines that end in its place, if it has one. With two bounds it's the place of the greatest length that
/// has one.
pub(crate) fn put_place<W: Write>(
    gathered: &mut Gathered,
    writer: &mut W,
    storage: &Storage,
    number: u32,
    sides: Option<LengthSides>,
)
    ensures { PutsEnding (W.contents writer.old) (W.contents writer.new) gathered.old gathered.new
        (found_in sides) }
{
    match sides {
        Some(sides) => {
            let subpool = seen_or_own(storage, number);
            put_sides(gathered, writer, storage, subpool, &sides);
        }
        None => (),
    }
}
