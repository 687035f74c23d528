//! Rows of what is listed: lines of text, or objects.
ghost use Rattle.std.specs.Prelude.{◌≡◌, ◌==◌, [], codes, flat_map, if◌then◌else◌};
ghost use Rattle.text_output.specs.Writing.{Puts};
ghost use Rattle.explain_text.specs.Rows.{fields_of, meant};
ghost use Rattle.explain_who.specs.ScriptLines.{LinesBegin};
ghost use Rattle.explain_areas.specs.RowTexts.{asked_field, fields, kind, line_in, pool_field, row_in};

use explain_text::{
    Field, Form, address, number, number_in_object, only_in_text, put_end, put_fields, put_start,
    text, truth,
};
use explain_who::{PoolName, put_line, put_line_fields};
use std::io::Write;
use text_output::Gathered;
use vsm_model::Subpool;

/// An area, or a cell in use, as it's listed.
#[derive(Drop)]
pub(crate) struct Row {
    /// The line that took it.
    pub line: u32,
    pub bytes: u64,
    pub address: u32,
    pub subpool: Subpool,
    /// The cell pool of a cell.
    pub cell_of: Option<PoolName>,
    /// The cell pool of which an area is an extent.
    pub extent_of: Option<PoolName>,
    /// The task that asked for it,
    pub asked_by: u32,
    /// and whether that task has ended.
    pub ended: bool,
}

/// What a row is.
fn kind(row: &Row) -> &'static [u8]
    ensures { result.now ≡ kind row.now }
{
    if row.cell_of.is_some() {
        b"cell"
    } else {
        b"area"
    }
}

/// Puts the statement of a line.
fn put_line_in<W: Write>(
    gathered: &mut Gathered,
    writer: &mut W,
    form: Form,
    script: &[u8],
    starts: &[usize],
    line: u32,
)
    requires { LinesBegin script.now script.now starts.now [] }
    ensures { Puts (W.contents writer.old) (W.contents writer.new) gathered.old gathered.new
        (line_in form script.now line) }
{
    match form {
        Form::Text => put_line(gathered, writer, script, starts, line),
        Form::Json => put_line_fields(gathered, writer, script, starts, line),
    }
}

/// A field with the name of a cell pool, if there is one.
fn pool_field<'a>(words: &'a [u8], pool: &'a Option<PoolName>) -> Field<'a>
    ensures { meant result ≡ pool_field words.now pool.now }
{
    match pool {
        Some(name) => text(words, b"pool", name.as_slice()),
        None => only_in_text(b""),
    }
}

/// A field with the task that asked, in text only if it isn't the owner of the subpool, or has ended.
fn asked_field<'a>(row: &Row) -> Field<'a>
    ensures { meant result ≡ asked_field row.now }
{
    let asked_by = u64::from(row.asked_by);
    if row.ended || row.asked_by != u32::from(row.subpool.owner) {
        number(b", obtained by task ", b"asked_by", asked_by)
    } else {
        number_in_object(b"asked_by", asked_by)
    }
}

/// Puts the fields of a row, except its line.
fn put_row_fields<W: Write>(gathered: &mut Gathered, writer: &mut W, form: Form, row: &Row)
    ensures { Puts (W.contents writer.old) (W.contents writer.new) gathered.old gathered.new
        (fields_of form (fields row.now)) }
{
    let own = [
        number(b"", b"bytes", row.bytes),
        address(b" bytes at ", b"address", row.address),
        pool_field(b", a cell of cell pool ", &row.cell_of),
        number(b", subpool ", b"subpool", u64::from(row.subpool.number)),
        number(b" of task ", b"owner", u64::from(row.subpool.owner)),
        pool_field(b", cell pool ", &row.extent_of),
        asked_field(row),
        truth(b", which has ended", b"ended", row.ended),
    ];
    put_fields(gathered, writer, form, &own);
}

/// Puts a row.
#[tactic(auto, using(text_output::proofs::Gathering::puts_both))]
fn put_row<W: Write>(
    gathered: &mut Gathered,
    writer: &mut W,
    form: Form,
    script: &[u8],
    starts: &[usize],
    row: &Row,
)
    requires { LinesBegin script.now script.now starts.now [] }
    ensures { Puts (W.contents writer.old) (W.contents writer.new) gathered.old gathered.new
        (row_in form script.now row.now) }
{
    put_start(gathered, writer, form, kind(row));
    put_line_in(gathered, writer, form, script, starts, row.line);
    put_row_fields(gathered, writer, form, row);
    put_end(gathered, writer, form);
}

/// Puts rows.
pub(crate) fn put_rows<W: Write>(
    gathered: &mut Gathered,
    writer: &mut W,
    form: Form,
    script: &[u8],
    starts: &[usize],
    rows: &[Row],
)
    requires { LinesBegin script.now script.now starts.now [] }
    ensures { Puts (W.contents writer.old) (W.contents writer.new) gathered.old gathered.new
        (flat_map (row_in form script.now) rows.now) }
{
    for row in rows {
        put_row(gathered, writer, form, script, starts, row);
    }
}
