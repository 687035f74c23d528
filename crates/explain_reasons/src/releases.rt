//! Why the area of a release isn't in its subpool, or isn't taken there.
ghost use Rattle.std.specs.Prelude.{◌≡◌};
ghost use Rattle.vsm_model.specs.Releasing.{is_foreign, is_not_taken};
ghost use Rattle.storage_core.specs.Meaning.{settings_of, state_of};
ghost use Rattle.text_output.specs.Writing.{Puts};
ghost use Rattle.explain_reasons.specs.Releases.{address_of, deciding_address, first_in, foreign_text, free_text};
ghost use Rattle.explain_reasons.specs.Releases.{not_in_subpool_text, outside_address, outside_text};
ghost use Rattle.explain_reasons.specs.Releases.{overlaps_free_text, untaken_address, untaken_text};

use crate::pages::put_byte;
use crate::searches::{area_of, first_foreign, first_not_taken};
use crate::sight_texts::put_unseen;
use crate::sights::seen;
use explain_text::{Piece, put_line};
use std::io::Write;
use storage_core::{Cause, Release, Storage, Subpool};
use text_output::Gathered;
use vsm_model::geometry::PAGE_DOUBLEWORDS;

/// The address of a doubleword, up to the last of a fullword.
fn address_of(doubleword: u32) -> u32
    ensures { result ≡ address_of doubleword }
{
    8u32.saturating_mul(doubleword)
}

/// Puts that the byte at an address lies in a page of another subpool, or outside both regions.
fn put_foreign<W: Write>(
    gathered: &mut Gathered,
    writer: &mut W,
    address: u32,
    subpool: Option<Subpool>,
)
    ensures { Puts (W.contents writer.old) (W.contents writer.new) gathered.old gathered.new
        (foreign_text address subpool) }
{
    match subpool {
        Some(subpool) => put_line(
            gathered,
            writer,
            &[
                Piece::Text("the byte at "),
                Piece::Address(address),
                Piece::Text(" lies in a page of subpool "),
                Piece::Number(u32::from(subpool.number)),
                Piece::Text(" of task "),
                Piece::Number(u32::from(subpool.owner)),
            ],
        ),
        None => put_line(
            gathered,
            writer,
            &[
                Piece::Text("the byte at "),
                Piece::Address(address),
                Piece::Text(" lies outside both regions"),
            ],
        ),
    }
}

/// The first doubleword of the area that lies outside both regions or in a page of another subpool; that of its address
/// if none does.
fn foreign_in(storage: &Storage, subpool: Subpool, r: Release) -> u32
    ensures { result ≡ first_in (is_foreign (settings_of storage.now) (state_of storage.now) subpool) r }
{
    let area = area_of(r);
    first_foreign(storage, subpool, area).unwrap_or(area.start)
}

/// Puts where the area of a release leaves the subpool that the current task sees; or that it sees none, and whose the
/// page of its first byte is.
fn put_outside<W: Write>(
    gathered: &mut Gathered,
    writer: &mut W,
    storage: &Storage,
    r: Release,
    subpool: Option<Subpool>,
)
    ensures { Puts (W.contents writer.old) (W.contents writer.new) gathered.old gathered.new
        (outside_text (settings_of storage.now) (state_of storage.now) r subpool) }
{
    match subpool {
        Some(subpool) => {
            let doubleword = foreign_in(storage, subpool, r);
            let other = storage.subpool_of_page(doubleword / PAGE_DOUBLEWORDS);
            put_foreign(gathered, writer, address_of(doubleword), other);
        }
        None => {
            put_unseen(gathered, writer, storage, r.number);
            put_byte(gathered, writer, storage, r.address);
        }
    }
}

/// Puts why the area of a release isn't in the subpool that is named.
pub(crate) fn put_not_in_subpool<W: Write>(
    gathered: &mut Gathered,
    writer: &mut W,
    storage: &Storage,
    r: Release,
)
    ensures { Puts (W.contents writer.old) (W.contents writer.new) gathered.old gathered.new
        (not_in_subpool_text (settings_of storage.now) (state_of storage.now) r) }
{
    put_outside(gathered, writer, storage, r, seen(storage, r.number));
}

/// Puts that the doubleword at an address is free, or lies in a page that isn't assigned.
fn put_free<W: Write>(
    gathered: &mut Gathered,
    writer: &mut W,
    address: u32,
    subpool: Option<Subpool>,
)
    ensures { Puts (W.contents writer.old) (W.contents writer.new) gathered.old gathered.new
        (free_text address subpool) }
{
    match subpool {
        Some(subpool) => put_line(
            gathered,
            writer,
            &[
                Piece::Text("the doubleword at "),
                Piece::Address(address),
                Piece::Text(" is free already, in a page of subpool "),
                Piece::Number(u32::from(subpool.number)),
                Piece::Text(" of task "),
                Piece::Number(u32::from(subpool.owner)),
            ],
        ),
        None => put_line(
            gathered,
            writer,
            &[
                Piece::Text("the doubleword at "),
                Piece::Address(address),
                Piece::Text(" lies in a page that isn't assigned"),
            ],
        ),
    }
}

/// The first doubleword of the area that isn't taken storage of the subpool; that of its address if each is.
fn untaken_in(storage: &Storage, subpool: Subpool, r: Release) -> u32
    ensures { result ≡ first_in (is_not_taken (state_of storage.now) subpool) r }
{
    let area = area_of(r);
    first_not_taken(storage, subpool, area).unwrap_or(area.start)
}

/// Puts which doubleword of the area isn't taken in a subpool, if there is one.
fn put_untaken<W: Write>(
    gathered: &mut Gathered,
    writer: &mut W,
    storage: &Storage,
    r: Release,
    subpool: Option<Subpool>,
)
    ensures { Puts (W.contents writer.old) (W.contents writer.new) gathered.old gathered.new
        (untaken_text (state_of storage.now) r subpool) }
{
    match subpool {
        Some(subpool) => {
            let doubleword = untaken_in(storage, subpool, r);
            let other = storage.subpool_of_page(doubleword / PAGE_DOUBLEWORDS);
            put_free(gathered, writer, address_of(doubleword), other);
        }
        None => (),
    }
}

/// Puts which doubleword of the area of a release isn't taken in the subpool that the current task sees.
pub(crate) fn put_overlaps_free<W: Write>(
    gathered: &mut Gathered,
    writer: &mut W,
    storage: &Storage,
    r: Release,
)
    ensures { Puts (W.contents writer.old) (W.contents writer.new) gathered.old gathered.new
        (overlaps_free_text (state_of storage.now) r) }
{
    put_untaken(gathered, writer, storage, r, seen(storage, r.number));
}

/// The address of the first byte of a release's area that isn't in a subpool; that of the area if there's no subpool.
fn outside_address(storage: &Storage, r: Release, subpool: Option<Subpool>) -> u32
    ensures { result ≡ outside_address (settings_of storage.now) (state_of storage.now) r subpool }
{
    match subpool {
        Some(subpool) => address_of(foreign_in(storage, subpool, r)),
        None => r.address,
    }
}

/// The address of the first doubleword of a release's area that isn't taken in a subpool; that of the area if there's
/// no subpool.
fn untaken_address(storage: &Storage, r: Release, subpool: Option<Subpool>) -> u32
    ensures { result ≡ untaken_address (state_of storage.now) r subpool }
{
    match subpool {
        Some(subpool) => address_of(untaken_in(storage, subpool, r)),
        None => r.address,
    }
}

/// The address in the area of a release that is refused for a cause which decides: of its first byte outside the
/// subpool that the current task sees, or of the first doubleword that isn't taken there. `None` for another cause.
pub fn deciding_address(storage: &Storage, r: Release, cause: Cause) -> Option<u32>
    ensures { result ≡ deciding_address (settings_of storage.now) (state_of storage.now) r cause }
{
    match cause {
        Cause::NotInSubpool => Some(outside_address(storage, r, seen(storage, r.number))),
        Cause::OverlapsFree => Some(untaken_address(storage, r, seen(storage, r.number))),
        Cause::UnsupportedSubpool
        | Cause::SubpoolNotAllowed
        | Cause::BadLength
        | Cause::TooManyNames
        | Cause::NoStorage
        | Cause::Misaligned
        | Cause::OverlapsCells
        | Cause::WholeOfZero
        | Cause::NotOwner
        | Cause::BadCells
        | Cause::CellPoolExists
        | Cause::TooManyCellPools
        | Cause::NoCellPool
        | Cause::NotInUse
        | Cause::BadList
        | Cause::TooManyTasks
        | Cause::NoTask
        | Cause::NotParent
        | Cause::HasSubtask
        | Cause::NotAssigned => None,
    }
}
