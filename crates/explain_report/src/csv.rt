//! The rows over time: CSV.
ghost use Rattle.std.specs.Prelude.{◌++◌, flat_map};
ghost use Rattle.text_output.specs.Writing.{Puts};
ghost use Rattle.explain_report.specs.Csv.{heading_text, row_text, subpool_heading, value_text};
ghost use Rattle.explain_report.specs.Csv.{values_text, whole_heading};
ghost use Rattle.explain_report.specs.Values.{moment_values, share_values};

use crate::rows::{Share, SubpoolRow};
use crate::times::{Figures, Moment};
use crate::values::{moment_values, share_values};
use std::io::Write;
use text_output::{Gathered, put_decimal};

/// Puts the names of a subpool's values.
fn put_subpool_heading<W: Write>(gathered: &mut Gathered, writer: &mut W)
    ensures { Puts (W.contents writer.old) (W.contents writer.new) gathered.old gathered.new subpool_heading }
{
    gathered.put(
        writer,
        b"line,low_pages,low_taken,low_free,low_areas,low_largest,low_could_get",
    );
    gathered.put(
        writer,
        b",high_pages,high_taken,high_free,high_areas,high_largest,high_could_get\n",
    );
}

/// Puts the names of the values of the whole storage.
fn put_whole_heading<W: Write>(gathered: &mut Gathered, writer: &mut W)
    ensures { Puts (W.contents writer.old) (W.contents writer.new) gathered.old gathered.new whole_heading }
{
    gathered.put(
        writer,
        b"line,low_assigned,low_unassigned,low_runs,low_longest,high_assigned,high_unassigned,high_runs",
    );
    gathered.put(
        writer,
        b",high_longest,taken,free,areas,cell_extents,cell_bytes,cells_used,cells_free\n",
    );
}

/// Puts the first row: the names of the values of a subpool, or of the whole storage.
pub(crate) fn put_heading<W: Write>(gathered: &mut Gathered, writer: &mut W, is_subpool: bool)
    ensures { Puts (W.contents writer.old) (W.contents writer.new) gathered.old gathered.new
        (heading_text is_subpool) }
{
    if is_subpool {
        put_subpool_heading(gathered, writer);
    } else {
        put_whole_heading(gathered, writer);
    }
}

/// Puts a comma and a number.
#[tactic(auto, using(text_output::proofs::Gathering::puts_both))]
fn put_value<W: Write>(gathered: &mut Gathered, writer: &mut W, n: u64)
    ensures { Puts (W.contents writer.old) (W.contents writer.new) gathered.old gathered.new (value_text n) }
{
    gathered.put(writer, b",");
    put_decimal(gathered, writer, n);
}

/// Puts numbers, each after a comma.
fn put_numbers<W: Write>(gathered: &mut Gathered, writer: &mut W, numbers: &[u64])
    ensures { Puts (W.contents writer.old) (W.contents writer.new) gathered.old gathered.new
        (flat_map value_text numbers.now) }
{
    for number in numbers {
        put_value(gathered, writer, *number);
    }
}

/// Puts the values of the whole storage.
fn put_moment<W: Write>(gathered: &mut Gathered, writer: &mut W, moment: &Moment)
    ensures { Puts (W.contents writer.old) (W.contents writer.new) gathered.old gathered.new
        (flat_map value_text (moment_values moment.now)) }
{
    put_numbers(gathered, writer, &moment_values(moment));
}

/// Puts the values of one side of the line.
fn put_share<W: Write>(gathered: &mut Gathered, writer: &mut W, share: &Share)
    ensures { Puts (W.contents writer.old) (W.contents writer.new) gathered.old gathered.new
        (flat_map value_text (share_values share.now)) }
{
    put_numbers(gathered, writer, &share_values(share));
}

/// Puts the values of a subpool on both sides of the line.
fn put_shares<W: Write>(gathered: &mut Gathered, writer: &mut W, row: &SubpoolRow)
    ensures { Puts (W.contents writer.old) (W.contents writer.new) gathered.old gathered.new
        (flat_map value_text (share_values row.now.low) ++ flat_map value_text (share_values row.now.high)) }
{
    put_share(gathered, writer, &row.low);
    put_share(gathered, writer, &row.high);
}

/// Puts the values of figures.
fn put_values<W: Write>(gathered: &mut Gathered, writer: &mut W, figures: &Figures)
    ensures { Puts (W.contents writer.old) (W.contents writer.new) gathered.old gathered.new
        (values_text figures.now) }
{
    match figures {
        Figures::Whole(moment) => put_moment(gathered, writer, moment),
        Figures::Subpool(_, row) => put_shares(gathered, writer, row),
    }
}

/// Puts the row of the statement that begins on a line, with the figures after it.
pub(crate) fn put_row<W: Write>(
    gathered: &mut Gathered,
    writer: &mut W,
    line: u32,
    figures: &Figures,
)
    ensures { Puts (W.contents writer.old) (W.contents writer.new) gathered.old gathered.new
        (row_text line figures.now) }
{
    put_decimal(gathered, writer, u64::from(line));
    put_values(gathered, writer, figures);
    gathered.put(writer, b"\n");
}
