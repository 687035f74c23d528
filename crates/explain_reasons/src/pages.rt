//! Whose the pages of bytes are.
ghost use Rattle.std.specs.Prelude.{◌≡◌};
ghost use Rattle.storage_core.specs.Meaning.{state_of};
ghost use Rattle.text_output.specs.Writing.{Puts};
ghost use Rattle.explain_reasons.specs.Pages.{byte_text, ends_text, is_unassigned, last_byte, last_decides, last_text};
ghost use Rattle.explain_reasons.specs.Pages.{page_text, pages_text};

use explain_text::{Piece, put_line, put_text};
use std::io::Write;
use storage_core::{Storage, Subpool};
use text_output::Gathered;
use vsm_model::geometry::PAGE_BYTES;

/// Puts which subpool has the page of a byte, or that it isn't assigned.
fn put_page<W: Write>(
    gathered: &mut Gathered,
    writer: &mut W,
    address: u32,
    subpool: Option<Subpool>,
)
    ensures { Puts (W.contents writer.old) (W.contents writer.new) gathered.old gathered.new
        (page_text address subpool) }
{
    match subpool {
        Some(subpool) => put_line(
            gathered,
            writer,
            &[
                Piece::Text("the page of "),
                Piece::Address(address),
                Piece::Text(" is of subpool "),
                Piece::Number(u32::from(subpool.number)),
                Piece::Text(" of task "),
                Piece::Number(u32::from(subpool.owner)),
            ],
        ),
        None => put_line(
            gathered,
            writer,
            &[
                Piece::Text("the page of "),
                Piece::Address(address),
                Piece::Text(" isn't assigned"),
            ],
        ),
    }
}

/// Puts whose the page of a byte is.
pub(crate) fn put_byte<W: Write>(
    gathered: &mut Gathered,
    writer: &mut W,
    storage: &Storage,
    address: u32,
)
    ensures { Puts (W.contents writer.old) (W.contents writer.new) gathered.old gathered.new
        (byte_text (state_of storage.now) address) }
{
    let subpool = storage.subpool_of_page(address / PAGE_BYTES);
    put_page(gathered, writer, address, subpool);
}

/// The address of the last of a number of bytes; `None` past the last address.
fn last_byte(address: u32, count: u32) -> Option<u32>
    ensures { result ≡ last_byte address count }
{
    address.checked_add(count.saturating_sub(1))
}

/// Puts whose the page of the last byte is, if it's another than that of the first.
fn put_last<W: Write>(
    gathered: &mut Gathered,
    writer: &mut W,
    storage: &Storage,
    first: u32,
    last: Option<u32>,
)
    ensures { Puts (W.contents writer.old) (W.contents writer.new) gathered.old gathered.new
        (last_text (state_of storage.now) first last) }
{
    match last {
        Some(last) => {
            if last / PAGE_BYTES != first / PAGE_BYTES {
                put_byte(gathered, writer, storage, last);
            }
        }
        None => put_text(gathered, writer, "they run past X'FFFFFFFF'"),
    }
}

/// Whether the page of the last of some bytes isn't assigned, or there is no such byte.
fn is_unassigned(storage: &Storage, last: Option<u32>) -> bool
    ensures { result ≡ is_unassigned (state_of storage.now) last }
{
    match last {
        Some(last) => storage.subpool_of_page(last / PAGE_BYTES).is_none(),
        None => true,
    }
}

/// Whether the last of some bytes decides that they have no page: that of the first one is assigned.
fn last_decides(storage: &Storage, first: u32, last: Option<u32>) -> bool
    ensures { result ≡ last_decides (state_of storage.now) first last }
{
    !is_unassigned(storage, Some(first)) && is_unassigned(storage, last)
}

/// Puts whose the pages of the first and of the last of some bytes are, the one first that decides.
fn put_ends<W: Write>(
    gathered: &mut Gathered,
    writer: &mut W,
    storage: &Storage,
    first: u32,
    last: Option<u32>,
)
    ensures { Puts (W.contents writer.old) (W.contents writer.new) gathered.old gathered.new
        (ends_text (state_of storage.now) first last) }
{
    if last_decides(storage, first, last) {
        put_last(gathered, writer, storage, first, last);
        put_byte(gathered, writer, storage, first);
    } else {
        put_byte(gathered, writer, storage, first);
        put_last(gathered, writer, storage, first, last);
    }
}

/// Puts whose the pages of the first and of the last of a number of bytes are: the last one's comes first if it isn't
/// assigned and the first one's is.
pub fn put_pages<W: Write>(
    gathered: &mut Gathered,
    writer: &mut W,
    storage: &Storage,
    address: u32,
    count: u32,
)
    ensures { Puts (W.contents writer.old) (W.contents writer.new) gathered.old gathered.new
        (pages_text (state_of storage.now) address count) }
{
    put_ends(
        gathered,
        writer,
        storage,
        address,
        last_byte(address, count),
    );
}
