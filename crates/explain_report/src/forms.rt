//! The table, in the form that is asked for.
ghost use Rattle.std.specs.Prelude.{◌≡◌, List, ℕ};
ghost use Rattle.storage_core.specs.Meaning.{settings_of, state_of};
ghost use Rattle.text_output.specs.Writing.{Puts};
ghost use Rattle.vsm_model.specs.Map.{sharers};
ghost use Rattle.explain_report.specs.Figures.{IsRowOf, all_subpools};
ghost use Rattle.explain_report.specs.Forms.{columns_in, high_in, low_in, row_in, shows_high};
ghost use Rattle.explain_report.specs.Forms.{shows_low, side_in, table_in, total_in, unassigned_in};
ghost use Rattle.explain_report.specs.Tables.{AreRowsOf};
ghost use Rattle.explain_report.specs.declared.rows.SubpoolRow.{SubpoolRow as Row};

use crate::objects::{put_side_object, put_total_object, put_unassigned_object};
use crate::pool_rows::put_pools;
use crate::rows::{Share, SubpoolRow, row_of};
use crate::tables::{put_columns_line, put_side_line, put_total_line, put_unassigned_line};
use crate::tallies::Tally;
use crate::times::Moment;
use explain_text::Form;
use std::io::Write;
use storage_core::{Storage, Subpool};
use text_output::Gathered;

/// Puts the names of the table's columns, if the form has them.
#[tactic(auto, using(text_output::proofs::Gathering::puts_none))]
fn put_columns<W: Write>(gathered: &mut Gathered, writer: &mut W, form: Form)
    ensures { Puts (W.contents writer.old) (W.contents writer.new) gathered.old gathered.new (columns_in form) }
{
    match form {
        Form::Text => put_columns_line(gathered, writer),
        Form::Json => (),
    }
}

/// Puts a subpool on one side of the line.
fn put_side<W: Write>(
    gathered: &mut Gathered,
    writer: &mut W,
    form: Form,
    storage: &Storage,
    row: &SubpoolRow,
    side: &[u8],
    share: &Share,
)
    ensures { Puts (W.contents writer.old) (W.contents writer.new) gathered.old gathered.new
        (side_in form row.now side.now share.now
        (sharers (state_of storage.now) row.now.subpool.number row.now.subpool.owner)) }
{
    match form {
        Form::Text => put_side_line(gathered, writer, storage, row, side, share),
        Form::Json => put_side_object(gathered, writer, storage, row, side, share),
    }
}

/// Whether a subpool has a line for the side below the line.
fn shows_low(row: &SubpoolRow) -> bool
    ensures { result ≡ shows_low row.now }
{
    row.low.pages > 0 || row.high.pages == 0
}

/// Puts the line of a subpool for the side below the line, if it has one.
fn put_low<W: Write>(
    gathered: &mut Gathered,
    writer: &mut W,
    form: Form,
    storage: &Storage,
    row: &SubpoolRow,
)
    ensures { Puts (W.contents writer.old) (W.contents writer.new) gathered.old gathered.new
        (low_in form row.now (sharers (state_of storage.now) row.now.subpool.number row.now.subpool.owner)) }
{
    if shows_low(row) {
        put_side(gathered, writer, form, storage, row, b"BELOW", &row.low);
    }
}

/// Whether a subpool has a line for the side above the line.
fn shows_high(row: &SubpoolRow) -> bool
    ensures { result ≡ shows_high row.now }
{
    row.high.pages > 0
}

/// Puts the line of a subpool for the side above the line, if it has pages there.
fn put_high<W: Write>(
    gathered: &mut Gathered,
    writer: &mut W,
    form: Form,
    storage: &Storage,
    row: &SubpoolRow,
)
    ensures { Puts (W.contents writer.old) (W.contents writer.new) gathered.old gathered.new
        (high_in form row.now (sharers (state_of storage.now) row.now.subpool.number row.now.subpool.owner)) }
{
    if shows_high(row) {
        put_side(gathered, writer, form, storage, row, b"ABOVE", &row.high);
    }
}

/// Puts the lines of a subpool: one for each side of the line on which it has pages, and one at least.
fn put_row<W: Write>(
    gathered: &mut Gathered,
    writer: &mut W,
    form: Form,
    storage: &Storage,
    subpool: Subpool,
)
    ensures { (row : Row) × IsRowOf (settings_of storage.now) (state_of storage.now) subpool row
        × Puts (W.contents writer.old) (W.contents writer.new) gathered.old gathered.new
        (row_in form row (sharers (state_of storage.now) subpool.number subpool.owner)) }
{
    let row = row_of(storage, subpool);
    put_low(gathered, writer, form, storage, &row);
    put_high(gathered, writer, form, storage, &row);
}

/// Puts the lines of all subpools, by number and then by owner.
fn put_rows<W: Write>(gathered: &mut Gathered, writer: &mut W, form: Form, storage: &Storage)
    ensures { (rows : List ℕ)
        × AreRowsOf (settings_of storage.now) form (state_of storage.now)
        (all_subpools (state_of storage.now).subpools) rows
        × Puts (W.contents writer.old) (W.contents writer.new) gathered.old gathered.new rows }
{
    let mut place = Storage::first_subpool_place();
    while let Some((subpool, behind)) = storage.next_subpool(place) {
        put_row(gathered, writer, form, storage, subpool);
        place = behind;
    }
}

/// Puts the sums of all subpools.
fn put_total<W: Write>(gathered: &mut Gathered, writer: &mut W, form: Form, moment: &Moment)
    ensures { Puts (W.contents writer.old) (W.contents writer.new) gathered.old gathered.new
        (total_in form moment.now) }
{
    match form {
        Form::Text => put_total_line(gathered, writer, moment),
        Form::Json => put_total_object(gathered, writer, moment),
    }
}

/// Puts the unassigned pages of one side.
fn put_unassigned<W: Write>(
    gathered: &mut Gathered,
    writer: &mut W,
    form: Form,
    side: &[u8],
    runs: &Tally,
)
    ensures { Puts (W.contents writer.old) (W.contents writer.new) gathered.old gathered.new
        (unassigned_in form side.now runs.now) }
{
    match form {
        Form::Text => put_unassigned_line(gathered, writer, side, runs),
        Form::Json => put_unassigned_object(gathered, writer, side, runs),
    }
}

/// Puts the table of a storage: each subpool on each side of the line, their totals, what is unassigned, and each cell
/// pool.
pub(crate) fn put_table<W: Write>(
    gathered: &mut Gathered,
    writer: &mut W,
    form: Form,
    storage: &Storage,
    moment: &Moment,
)
    ensures { (rows : List ℕ)
        × AreRowsOf (settings_of storage.now) form (state_of storage.now)
        (all_subpools (state_of storage.now).subpools) rows
        × Puts (W.contents writer.old) (W.contents writer.new) gathered.old gathered.new
        (table_in form rows moment.now (state_of storage.now).cell_pools) }
{
    put_columns(gathered, writer, form);
    put_rows(gathered, writer, form, storage);
    put_total(gathered, writer, form, moment);
    put_unassigned(gathered, writer, form, b"BELOW", &moment.unassigned.low);
    put_unassigned(gathered, writer, form, b"ABOVE", &moment.unassigned.high);
    put_pools(gathered, writer, form, storage);
}
