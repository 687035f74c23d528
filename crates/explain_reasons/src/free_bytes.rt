//! Which of some bytes are free, as text.
ghost use Rattle.std.specs.Prelude.{◌≡◌, ◌+◌, ◌^◌, ◌≤◌};
ghost use Rattle.explain_text.specs.Pieces.{PutsSome};

use crate::searches::first_free;
use explain_text::{Piece, put_line};
use std::io::Write;
use storage_core::{Run, Storage};
use text_output::Gathered;
use vsm_model::geometry::PAGE_DOUBLEWORDS;

/// Puts which doubleword of an area is free in the subpool that has its first page, if one is.
fn put_first_free<W: Write>(gathered: &mut Gathered, writer: &mut W, storage: &Storage, area: Run)
    requires { area.start + area.len ≤ 2 ^ 30 }
    ensures { PutsSome (W.contents writer.old) (W.contents writer.new) gathered.old gathered.new }
{
    let Some(subpool) = storage.subpool_of_page(area.start / PAGE_DOUBLEWORDS) else {
        return;
    };
    if let Some(doubleword) = first_free(storage, subpool, area) {
        put_line(
            gathered,
            writer,
            &[
                Piece::Text("the doubleword at "),
                Piece::Address(8u32.saturating_mul(doubleword)),
                Piece::Text(" is free: nothing is obtained there"),
            ],
        );
    }
}

/// Puts which doublewords of some bytes are free, the first on each page.
pub fn put_free_bytes<W: Write>(
    gathered: &mut Gathered,
    writer: &mut W,
    storage: &Storage,
    address: u32,
    count: u32,
)
    ensures { PutsSome (W.contents writer.old) (W.contents writer.new) gathered.old gathered.new }
{
    let first = address / 8;
    let end = address.saturating_add(count).div_ceil(8);
    let next_page = (first / PAGE_DOUBLEWORDS + 1) * PAGE_DOUBLEWORDS;
    let middle = end.min(next_page);
    let on_first = Run {
        start: first,
        len: middle.saturating_sub(first),
    };
    put_first_free(gathered, writer, storage, on_first);
    let on_next = Run {
        start: middle,
        len: end.saturating_sub(middle),
    };
    put_first_free(gathered, writer, storage, on_next);
}
