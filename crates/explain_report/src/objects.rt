//! The table as JSON, an object a line.
ghost use Rattle.std.specs.Prelude.{◌≡◌};
ghost use Rattle.storage_core.specs.Meaning.{state_of};
ghost use Rattle.text_output.specs.Writing.{Puts};
ghost use Rattle.vsm_model.specs.Map.{sharers};
ghost use Rattle.explain_report.specs.Objects.{amounts_fields, at_field, runs_fields, share_fields, sharers_field};
ghost use Rattle.explain_report.specs.Objects.{side_json, total_json, unassigned_json};

use crate::rows::{Share, SubpoolRow};
use crate::tables::put_tasks;
use crate::tallies::Tally;
use crate::times::Moment;
use crate::values::{bytes_of, could_get, fragmented, shown_address, taken_of};
use explain_text::{
    put_name, put_number_field, put_object_end, put_object_start, put_string_field,
};
use std::io::Write;
use storage_core::{Storage, Subpool};
use text_output::Gathered;

/// Puts the field with the address of what is longest, if there is one.
#[tactic(auto, using(text_output::proofs::Gathering::puts_none))]
fn put_at<W: Write>(gathered: &mut Gathered, writer: &mut W, address: Option<u32>)
    ensures { Puts (W.contents writer.old) (W.contents writer.new) gathered.old gathered.new (at_field address) }
{
    if let Some(address) = address {
        put_number_field(gathered, writer, b"at", u64::from(address));
    }
}

/// Puts what a subpool has on one side of the line, as fields: the pages, the bytes that are taken and free in them,
/// the free areas, and the bytes of the largest.
fn put_amounts_fields<W: Write>(gathered: &mut Gathered, writer: &mut W, share: &Share)
    ensures { Puts (W.contents writer.old) (W.contents writer.new) gathered.old gathered.new
        (amounts_fields share.now) }
{
    let free = 8 * u64::from(share.free.total);
    let largest = 8 * u64::from(share.largest);
    put_number_field(gathered, writer, b"pages", u64::from(share.pages));
    put_number_field(gathered, writer, b"taken", taken_of(share));
    put_number_field(gathered, writer, b"free", free);
    put_number_field(gathered, writer, b"areas", u64::from(share.free.count));
    put_number_field(gathered, writer, b"largest", largest);
}

/// Puts these and where the largest is, what the free storage lacks to be one area, and what can be had at once.
fn put_share_fields<W: Write>(gathered: &mut Gathered, writer: &mut W, share: &Share)
    ensures { Puts (W.contents writer.old) (W.contents writer.new) gathered.old gathered.new
        (share_fields share.now) }
{
    put_amounts_fields(gathered, writer, share);
    let at = shown_address(share.largest > 0, 8 * u64::from(share.free.at));
    put_at(gathered, writer, at);
    let lacks = fragmented(share.largest, share.free.total);
    put_number_field(gathered, writer, b"fragmented", lacks);
    put_number_field(gathered, writer, b"could_get", could_get(share));
}

/// Puts the field with the tasks other than its owner that see the subpool.
fn put_sharers<W: Write>(
    gathered: &mut Gathered,
    writer: &mut W,
    storage: &Storage,
    subpool: Subpool,
)
    ensures { Puts (W.contents writer.old) (W.contents writer.new) gathered.old gathered.new
        (sharers_field (sharers (state_of storage.now) subpool.number subpool.owner)) }
{
    put_name(gathered, writer, b"sharers");
    gathered.put(writer, b"[");
    put_tasks(gathered, writer, storage, subpool, b"");
    gathered.put(writer, b"]");
}

/// Puts the object of a subpool on one side of the line.
pub(crate) fn put_side_object<W: Write>(
    gathered: &mut Gathered,
    writer: &mut W,
    storage: &Storage,
    row: &SubpoolRow,
    side: &[u8],
    share: &Share,
)
    ensures { Puts (W.contents writer.old) (W.contents writer.new) gathered.old gathered.new
        (side_json row.now side.now share.now
        (sharers (state_of storage.now) row.now.subpool.number row.now.subpool.owner)) }
{
    let number = u64::from(row.subpool.number);
    let owner = u64::from(row.subpool.owner);
    put_object_start(gathered, writer, b"subpool");
    put_number_field(gathered, writer, b"subpool", number);
    put_number_field(gathered, writer, b"owner", owner);
    put_string_field(gathered, writer, b"side", side);
    put_share_fields(gathered, writer, share);
    put_sharers(gathered, writer, storage, row.subpool);
    put_object_end(gathered, writer);
}

/// Puts the object of all subpools: only sums.
pub(crate) fn put_total_object<W: Write>(gathered: &mut Gathered, writer: &mut W, moment: &Moment)
    ensures { Puts (W.contents writer.old) (W.contents writer.new) gathered.old gathered.new
        (total_json moment.now) }
{
    let totals = &moment.totals;
    let pages = u64::from(totals.low_pages) + u64::from(totals.high_pages);
    let areas = u64::from(moment.free.count);
    put_object_start(gathered, writer, b"total");
    put_number_field(gathered, writer, b"pages", pages);
    put_number_field(gathered, writer, b"taken", totals.taken);
    put_number_field(gathered, writer, b"free", totals.free);
    put_number_field(gathered, writer, b"areas", areas);
    put_object_end(gathered, writer);
}

/// Puts the unassigned pages of one side as fields.
fn put_runs_fields<W: Write>(gathered: &mut Gathered, writer: &mut W, runs: &Tally)
    ensures { Puts (W.contents writer.old) (W.contents writer.new) gathered.old gathered.new
        (runs_fields runs.now) }
{
    put_number_field(gathered, writer, b"pages", u64::from(runs.total));
    put_number_field(gathered, writer, b"runs", u64::from(runs.count));
    put_number_field(gathered, writer, b"longest", u64::from(runs.longest));
    put_number_field(gathered, writer, b"bytes", bytes_of(runs.longest));
    let at = shown_address(runs.longest > 0, bytes_of(runs.at));
    put_at(gathered, writer, at);
}

/// Puts the object of the unassigned pages of one side.
pub(crate) fn put_unassigned_object<W: Write>(
    gathered: &mut Gathered,
    writer: &mut W,
    side: &[u8],
    runs: &Tally,
)
    ensures { Puts (W.contents writer.old) (W.contents writer.new) gathered.old gathered.new
        (unassigned_json side.now runs.now) }
{
    put_object_start(gathered, writer, b"unassigned");
    put_string_field(gathered, writer, b"side", side);
    put_runs_fields(gathered, writer, runs);
    put_object_end(gathered, writer);
}
