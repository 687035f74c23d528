//! The sum of what is listed.
ghost use Rattle.std.specs.Prelude.{◌≡◌, codes};
ghost use Rattle.text_output.specs.Writing.{Puts};
ghost use Rattle.explain_text.specs.Rows.{meant, row_of};
ghost use Rattle.explain_areas.specs.RowTexts.{areas_fields, cells_field, cells_fields, cells_word, sum_in, sum_of};
ghost use Rattle.explain_areas.specs.RowTexts.{with_row, word};

use crate::asked::Listed;
use crate::rows::Row;
use explain_text::{Field, Form, number, number_in_object, only_in_text, put_row};
use std::io::Write;
use text_output::Gathered;

/// The sum of what is listed.
#[derive(Clone, Copy)]
pub(crate) struct Sum {
    pub areas: u64,
    /// The bytes of the areas.
    pub area_bytes: u64,
    pub cells: u64,
    /// The bytes of the cells.
    pub cell_bytes: u64,
}

/// With another row.
fn with_row(sum: Sum, row: &Row) -> Sum
    ensures { result ≡ with_row sum row.now }
{
    if row.cell_of.is_some() {
        Sum {
            cells: sum.cells.saturating_add(1),
            cell_bytes: sum.cell_bytes.saturating_add(row.bytes),
            ..sum
        }
    } else {
        Sum {
            areas: sum.areas.saturating_add(1),
            area_bytes: sum.area_bytes.saturating_add(row.bytes),
            ..sum
        }
    }
}

/// The sum of rows.
pub(crate) fn sum_of(rows: &[Row]) -> Sum
    ensures { result ≡ sum_of rows.now }
{
    let mut sum = Sum {
        areas: 0,
        area_bytes: 0,
        cells: 0,
        cell_bytes: 0,
    };
    for row in rows {
        sum = with_row(sum, row);
    }
    sum
}

/// One of two words, by a number.
fn word<'a>(n: u64, one: &'a [u8], more: &'a [u8]) -> &'a [u8]
    ensures { result.now ≡ word n one.now more.now }
{
    if n == 1 { one } else { more }
}

/// A field with how many cells are listed, in text only if some are.
fn cells_field<'a>(n: u64) -> Field<'a>
    ensures { meant result ≡ cells_field n }
{
    if n == 0 {
        number_in_object(b"cells", n)
    } else {
        number(b", ", b"cells", n)
    }
}

/// What cells are called after their number, if some are listed.
fn cells_word(n: u64) -> &'static [u8]
    ensures { result.now ≡ cells_word n }
{
    if n == 0 {
        b""
    } else {
        word(n, b" cell in use", b" cells in use")
    }
}

/// Puts the sum of areas with their cells.
fn put_areas_sum<W: Write>(gathered: &mut Gathered, writer: &mut W, form: Form, sum: Sum)
    ensures { Puts (W.contents writer.old) (W.contents writer.new) gathered.old gathered.new
        (row_of form (codes "sum") (areas_fields sum)) }
{
    let fields = [
        number(b"", b"areas", sum.areas),
        only_in_text(word(sum.areas, b" area", b" areas")),
        number(b", ", b"bytes", sum.area_bytes),
        only_in_text(b" bytes taken"),
        cells_field(sum.cells),
        only_in_text(cells_word(sum.cells)),
    ];
    put_row(gathered, writer, form, b"sum", &fields);
}

/// Puts the sum of cells.
fn put_cells_sum<W: Write>(gathered: &mut Gathered, writer: &mut W, form: Form, sum: Sum)
    ensures { Puts (W.contents writer.old) (W.contents writer.new) gathered.old gathered.new
        (row_of form (codes "sum") (cells_fields sum)) }
{
    let fields = [
        number(b"", b"cells", sum.cells),
        only_in_text(word(sum.cells, b" cell in use", b" cells in use")),
        number(b", ", b"bytes", sum.cell_bytes),
        only_in_text(b" bytes"),
    ];
    put_row(gathered, writer, form, b"sum", &fields);
}

/// Puts the sum of what is listed.
pub(crate) fn put_sum<W: Write>(
    gathered: &mut Gathered,
    writer: &mut W,
    form: Form,
    listed: Listed,
    sum: Sum,
)
    ensures { Puts (W.contents writer.old) (W.contents writer.new) gathered.old gathered.new
        (sum_in form listed sum) }
{
    match listed {
        Listed::Areas { .. } => put_areas_sum(gathered, writer, form, sum),
        Listed::Cells { .. } => put_cells_sum(gathered, writer, form, sum),
    }
}
