//! What the end of a task releases, and what stays, as text.
ghost use Rattle.explain_text.specs.Pieces.{PutsSome};

use explain_text::{Piece, put_line};
use std::io::Write;
use storage_core::{Storage, Subpool};
use text_output::Gathered;
use vsm_model::geometry::{LAST_TASK, TASKS_END};

/// Whether a task is another one, or below it.
fn is_below(storage: &Storage, top: u32, task: u8) -> bool {
    let mut at = task;
    for _ in 0..LAST_TASK {
        if u32::from(at) == top {
            return true;
        }
        let Some(parent) = storage.parent(at) else {
            return false;
        };
        at = parent;
    }
    false
}

/// Whether a task that ends, which is this one or below it, sees a subpool.
fn is_seen_below(storage: &Storage, top: u32, subpool: Subpool) -> bool {
    for task in 1..TASKS_END {
        if storage.owner_seen(task, subpool.number) == Some(subpool.owner)
            && is_below(storage, top, task)
        {
            return true;
        }
    }
    false
}

/// The bytes that are taken in a subpool's pages.
fn taken_bytes(storage: &Storage, subpool: Subpool) -> u64 {
    let pages = storage.extent_sums(storage.first_extent(subpool));
    let free = storage.free_area_sums(storage.first_free_area(subpool));
    let has = 512 * (u64::from(pages.low.total) + u64::from(pages.high.total));
    let lacks = u64::from(free.low.total) + u64::from(free.high.total);
    8 * has.saturating_sub(lacks)
}

/// Puts what becomes of a subpool at the end of a task and of those below it: it goes with its owner, with the bytes
/// that are taken in it; or it stays, if only its sharers end.
fn put_subpool_end<W: Write>(
    gathered: &mut Gathered,
    writer: &mut W,
    storage: &Storage,
    top: u32,
    subpool: Subpool,
)
    ensures { PutsSome (W.contents writer.old) (W.contents writer.new) gathered.old gathered.new }
{
    let number = Piece::Number(u32::from(subpool.number));
    let owner = Piece::Number(u32::from(subpool.owner));
    if is_below(storage, top, subpool.owner) {
        let bytes = taken_bytes(storage, subpool).min(u64::from(u32::MAX)) as u32;
        put_line(
            gathered,
            writer,
            &[
                Piece::Text("subpool "),
                number,
                Piece::Text(" of task "),
                owner,
                Piece::Text(" goes, with "),
                Piece::Number(bytes),
                Piece::Text(" bytes that are taken"),
            ],
        );
    } else if is_seen_below(storage, top, subpool) {
        put_line(
            gathered,
            writer,
            &[
                Piece::Text("subpool "),
                number,
                Piece::Text(" of task "),
                owner,
                Piece::Text(" stays"),
            ],
        );
    }
}

/// Puts which subpools go with a task that ends and with those below it, and which stay.
pub(crate) fn put_subpools_end<W: Write>(
    gathered: &mut Gathered,
    writer: &mut W,
    storage: &Storage,
    task: u32,
)
    ensures { PutsSome (W.contents writer.old) (W.contents writer.new) gathered.old gathered.new }
{
    let mut place = Storage::first_subpool_place();
    while let Some((subpool, after)) = storage.next_subpool(place) {
        put_subpool_end(gathered, writer, storage, task, subpool);
        place = after;
    }
}
