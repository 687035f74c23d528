//! The table as text: columns and lines.
ghost use Rattle.std.specs.Prelude.{◌≡◌};
ghost use Rattle.explain_text.specs.Columns.{column};
ghost use Rattle.storage_core.specs.Meaning.{state_of};
ghost use Rattle.storage_map.specs.Lines.{sharer_text};
ghost use Rattle.text_output.specs.Writing.{Puts};
ghost use Rattle.vsm_model.specs.Map.{sharers};
ghost use Rattle.explain_report.specs.Texts.{amounts_text, columns, columns_text, counted, longest_text, plural};
ghost use Rattle.explain_report.specs.Texts.{runs_text};
ghost use Rattle.explain_report.specs.Texts.{share_text, side_text, tasks_text, total_text, unassigned_text};
ghost use Rattle.explain_report.specs.Texts.{where_text};

use crate::rows::{Share, SubpoolRow};
use crate::tallies::Tally;
use crate::times::Moment;
use crate::values::{bytes_of, could_get, fragmented, shown_address, taken_of};
use explain_text::put_blanks;
use itoa::Buffer;
use std::io::Write;
use storage_changes::maps::subpools_are_shown;
use storage_core::{Storage, Subpool};
use text_output::{Gathered, put_decimal, put_hexadecimal};

/// Puts a number after blanks, in a column of this many bytes.
#[tactic(auto, using(text_output::proofs::Gathering::puts_both))]
fn put_column<W: Write>(gathered: &mut Gathered, writer: &mut W, width: usize, n: u64)
    ensures { Puts (W.contents writer.old) (W.contents writer.new) gathered.old gathered.new (column width n) }
{
    let mut buffer = Buffer::new();
    let digits = buffer.format(n).as_bytes();
    put_blanks(gathered, writer, width.saturating_sub(digits.len()));
    gathered.put(writer, digits);
}

/// Puts numbers, each in a column of a width.
fn put_columns<W: Write>(gathered: &mut Gathered, writer: &mut W, cells: &[(usize, u64)])
    ensures { Puts (W.contents writer.old) (W.contents writer.new) gathered.old gathered.new (columns cells.now) }
{
    for cell in cells {
        put_column(gathered, writer, cell.0, cell.1);
    }
}

/// Puts the address of what is longest, or a dash if there is none.
#[tactic(auto, using(text_output::proofs::Gathering::puts_both))]
fn put_where<W: Write>(gathered: &mut Gathered, writer: &mut W, some: bool, address: u64)
    ensures { Puts (W.contents writer.old) (W.contents writer.new) gathered.old gathered.new
        (where_text some address) }
{
    gathered.put(writer, b" ");
    match shown_address(some, address) {
        Some(shown) => put_hexadecimal(gathered, writer, 8, shown),
        None => gathered.put(writer, b"-       "),
    }
}

/// Puts the pages, the taken and the free bytes, the free areas and the largest of one side of the line.
fn put_amounts<W: Write>(gathered: &mut Gathered, writer: &mut W, share: &Share)
    ensures { Puts (W.contents writer.old) (W.contents writer.new) gathered.old gathered.new
        (amounts_text share.now) }
{
    put_columns(
        gathered,
        writer,
        &[
            (7, u64::from(share.pages)),
            (11, taken_of(share)),
            (11, 8 * u64::from(share.free.total)),
            (7, u64::from(share.free.count)),
            (11, 8 * u64::from(share.largest)),
        ],
    );
}

/// Puts what a subpool has on one side of the line.
fn put_share<W: Write>(gathered: &mut Gathered, writer: &mut W, share: &Share)
    ensures { Puts (W.contents writer.old) (W.contents writer.new) gathered.old gathered.new (share_text share.now) }
{
    put_amounts(gathered, writer, share);
    let at = 8 * u64::from(share.free.at);
    put_where(gathered, writer, share.largest > 0, at);
    let lacks = fragmented(share.largest, share.free.total);
    put_column(gathered, writer, 9, lacks);
    gathered.put(writer, b" %");
    put_column(gathered, writer, 11, could_get(share));
}

/// Puts a comma and a task.
#[tactic(auto, using(text_output::proofs::Gathering::puts_both))]
fn put_sharer<W: Write>(gathered: &mut Gathered, writer: &mut W, task: u8)
    ensures { Puts (W.contents writer.old) (W.contents writer.new) gathered.old gathered.new (sharer_text task) }
{
    gathered.put(writer, b",");
    put_decimal(gathered, writer, u64::from(task));
}

/// Puts the tasks other than its owner that see the subpool, with commas between, or these words if there is none.
pub(crate) fn put_tasks<W: Write>(
    gathered: &mut Gathered,
    writer: &mut W,
    storage: &Storage,
    subpool: Subpool,
    none: &[u8],
)
    ensures { Puts (W.contents writer.old) (W.contents writer.new) gathered.old gathered.new
        (tasks_text none.now (sharers (state_of storage.now) subpool.number subpool.owner)) }
{
    subpools_are_shown();
    let front = Storage::first_sharer_place();
    let Some((first, second)) = storage.next_sharer(subpool, front) else {
        gathered.put(writer, none);
        return;
    };
    put_decimal(gathered, writer, u64::from(first));
    let mut place = second;
    while let Some((task, behind)) = storage.next_sharer(subpool, place) {
        put_sharer(gathered, writer, task);
        place = behind;
    }
}

/// Puts the line of a subpool on one side of the line.
pub(crate) fn put_side_line<W: Write>(
    gathered: &mut Gathered,
    writer: &mut W,
    storage: &Storage,
    row: &SubpoolRow,
    side: &[u8],
    share: &Share,
)
    ensures { Puts (W.contents writer.old) (W.contents writer.new) gathered.old gathered.new
        (side_text row.now side.now share.now
        (sharers (state_of storage.now) row.now.subpool.number row.now.subpool.owner)) }
{
    let number = u64::from(row.subpool.number);
    let owner = u64::from(row.subpool.owner);
    put_columns(gathered, writer, &[(7, number), (6, owner)]);
    gathered.put(writer, b" ");
    gathered.put(writer, side);
    put_share(gathered, writer, share);
    gathered.put(writer, b" ");
    put_tasks(gathered, writer, storage, row.subpool, b"NONE");
    gathered.put(writer, b"\n");
}

/// Puts the line of all subpools: only sums, since areas of two subpools can't be joined.
pub(crate) fn put_total_line<W: Write>(gathered: &mut Gathered, writer: &mut W, moment: &Moment)
    ensures { Puts (W.contents writer.old) (W.contents writer.new) gathered.old gathered.new
        (total_text moment.now) }
{
    let totals = &moment.totals;
    gathered.put(writer, b"  TOTAL            ");
    let pages = u64::from(totals.low_pages) + u64::from(totals.high_pages);
    let areas = u64::from(moment.free.count);
    put_columns(
        gathered,
        writer,
        &[
            (7, pages),
            (11, totals.taken),
            (11, totals.free),
            (7, areas),
        ],
    );
    gathered.put(writer, b"\n");
}

/// Puts an `S`, unless there is one of what is counted.
fn put_plural<W: Write>(gathered: &mut Gathered, writer: &mut W, n: u32)
    ensures { Puts (W.contents writer.old) (W.contents writer.new) gathered.old gathered.new (plural n) }
{
    if n != 1 {
        gathered.put(writer, b"S");
    }
}

/// Puts what a number before it counts: the word, and an `S` unless there is one of it.
#[tactic(auto, using(text_output::proofs::Gathering::puts_both))]
fn put_counted<W: Write>(gathered: &mut Gathered, writer: &mut W, n: u32, word: &[u8])
    ensures { Puts (W.contents writer.old) (W.contents writer.new) gathered.old gathered.new (counted n word.now) }
{
    gathered.put(writer, b" ");
    gathered.put(writer, word);
    put_plural(gathered, writer, n);
}

/// Puts how many pages there are, and in how many runs.
fn put_runs<W: Write>(gathered: &mut Gathered, writer: &mut W, runs: &Tally)
    ensures { Puts (W.contents writer.old) (W.contents writer.new) gathered.old gathered.new (runs_text runs.now) }
{
    put_column(gathered, writer, 7, u64::from(runs.total));
    put_counted(gathered, writer, runs.total, b"PAGE");
    gathered.put(writer, b" IN ");
    put_decimal(gathered, writer, u64::from(runs.count));
    put_counted(gathered, writer, runs.count, b"RUN");
}

/// Puts the longest run of pages.
fn put_longest<W: Write>(gathered: &mut Gathered, writer: &mut W, runs: &Tally)
    ensures { Puts (W.contents writer.old) (W.contents writer.new) gathered.old gathered.new
        (longest_text runs.now) }
{
    gathered.put(writer, b", LONGEST ");
    put_decimal(gathered, writer, u64::from(runs.longest));
    put_counted(gathered, writer, runs.longest, b"PAGE");
    gathered.put(writer, b" (");
    put_decimal(gathered, writer, bytes_of(runs.longest));
    gathered.put(writer, b" BYTES) AT");
    put_where(gathered, writer, runs.longest > 0, bytes_of(runs.at));
}

/// Puts the line of the unassigned pages of one side.
pub(crate) fn put_unassigned_line<W: Write>(
    gathered: &mut Gathered,
    writer: &mut W,
    side: &[u8],
    runs: &Tally,
)
    ensures { Puts (W.contents writer.old) (W.contents writer.new) gathered.old gathered.new
        (unassigned_text side.now runs.now) }
{
    gathered.put(writer, b"UNASSIGNED ");
    gathered.put(writer, side);
    gathered.put(writer, b"   ");
    put_runs(gathered, writer, runs);
    put_longest(gathered, writer, runs);
    gathered.put(writer, b"\n");
}

/// Puts the names of the table's columns.
pub(crate) fn put_columns_line<W: Write>(gathered: &mut Gathered, writer: &mut W)
    ensures { Puts (W.contents writer.old) (W.contents writer.new) gathered.old gathered.new columns_text }
{
    gathered.put(
        writer,
        b"SUBPOOL OWNER SIDE   PAGES      TAKEN       FREE  AREAS    LARGEST AT       FRAGMENTED",
    );
    gathered.put(writer, b"  COULD GET SHARERS\n");
}
