//! The lines of a check, in a form: each on a place of the file.
ghost use Rattle.std.specs.Prelude.{◌≡◌};
ghost use Rattle.text_output.specs.Writing.{Puts};
ghost use Rattle.explain_check.specs.Lines.{check_object, check_text, head_in, line_at, line_field, lines_fields};
ghost use Rattle.explain_check.specs.Lines.{note_of, place_fields, place_on, position_text, row_at, text_field};

use crate::notes::{Note, put_note};
use explain_text::{
    Form, put_head, put_name, put_number_field, put_object_end, put_object_start, put_string_field,
    put_truth_field,
};
use std::io::Write;
use text_output::{Gathered, put_decimal};

/// How lines go out: in this form; as text, each after this name of the file.
#[derive(Clone, Copy)]
pub(crate) struct Manner<'a> {
    pub(crate) form: Form,
    pub(crate) name: &'a [u8],
}

/// Bytes on a line of the file: its number, their first column, and the column after their last.
#[derive(Clone, Copy)]
pub(crate) struct LinePlace {
    pub(crate) number: u32,
    pub(crate) column: u64,
    pub(crate) end: u64,
}

/// This many bytes from a column of a line on.
pub(crate) fn place_on(number: u32, column: usize, width: usize) -> LinePlace
    ensures { result ≡ place_on number column width }
{
    let column = column.min(100_000) as u64;
    LinePlace {
        number,
        column,
        end: column + width.min(100_000) as u64,
    }
}

/// Where a line of a check goes out.
#[derive(Clone, Copy)]
pub(crate) struct Spot<'a> {
    pub(crate) manner: Manner<'a>,
    pub(crate) place: LinePlace,
}

/// Puts what a form begins with.
#[tactic(auto, using(text_output::proofs::Gathering::puts_none))]
pub(crate) fn put_head_in<W: Write>(form: Form, gathered: &mut Gathered, writer: &mut W)
    ensures { Puts (W.contents writer.old) (W.contents writer.new) gathered.old gathered.new (head_in form) }
{
    match form {
        Form::Text => (),
        Form::Json => put_head(gathered, writer, b"check"),
    }
}

/// Puts what a line on a place in a file begins with as text.
#[tactic(auto, using(text_output::proofs::Gathering::puts_both))]
fn put_position<W: Write>(gathered: &mut Gathered, writer: &mut W, name: &[u8], place: LinePlace)
    ensures { Puts (W.contents writer.old) (W.contents writer.new) gathered.old gathered.new
        (position_text name.now place.number place.column) }
{
    gathered.put(writer, name);
    gathered.put(writer, b":");
    put_decimal(gathered, writer, u64::from(place.number));
    gathered.put(writer, b":");
    put_decimal(gathered, writer, place.column);
    gathered.put(writer, b": ");
}

/// Puts a line as text.
#[tactic(auto, using(text_output::proofs::Gathering::puts_both))]
fn put_check_text<W: Write>(
    gathered: &mut Gathered,
    writer: &mut W,
    name: &[u8],
    place: LinePlace,
    note: &Note,
)
    ensures { Puts (W.contents writer.old) (W.contents writer.new) gathered.old gathered.new
        (check_text name.now (line_at place (note_of note.now))) }
{
    put_position(gathered, writer, name, place);
    put_note(Form::Text, gathered, writer, note);
    gathered.put(writer, b"\n");
}

/// Puts a field with the number of a line, if there is one.
#[tactic(auto, using(text_output::proofs::Gathering::puts_none))]
fn put_line_field<W: Write>(gathered: &mut Gathered, writer: &mut W, name: &[u8], line: Option<u32>)
    ensures { Puts (W.contents writer.old) (W.contents writer.new) gathered.old gathered.new
        (line_field name.now line) }
{
    match line {
        Some(line) => put_number_field(gathered, writer, name, u64::from(line)),
        None => (),
    }
}

/// Puts the fields of a place.
#[tactic(auto, using(text_output::proofs::Gathering::puts_both))]
fn put_place_fields<W: Write>(gathered: &mut Gathered, writer: &mut W, place: LinePlace)
    ensures { Puts (W.contents writer.old) (W.contents writer.new) gathered.old gathered.new
        (place_fields place.number place.column place.end) }
{
    put_number_field(gathered, writer, b"line", u64::from(place.number));
    put_number_field(gathered, writer, b"column", place.column);
    put_number_field(gathered, writer, b"end", place.end);
}

/// Puts the field with what is said.
#[tactic(auto, using(text_output::proofs::Gathering::puts_both))]
fn put_text_field<W: Write>(gathered: &mut Gathered, writer: &mut W, note: &Note)
    ensures { Puts (W.contents writer.old) (W.contents writer.new) gathered.old gathered.new
        (text_field (note_of note.now)) }
{
    put_name(gathered, writer, b"text");
    gathered.put(writer, b"\"");
    put_note(Form::Json, gathered, writer, note);
    gathered.put(writer, b"\"");
}

/// Puts the fields with the lines that are named.
#[tactic(auto, using(text_output::proofs::Gathering::puts_both))]
fn put_lines_fields<W: Write>(gathered: &mut Gathered, writer: &mut W, note: &Note)
    ensures { Puts (W.contents writer.old) (W.contents writer.new) gathered.old gathered.new
        (lines_fields (note_of note.now)) }
{
    put_line_field(gathered, writer, b"took", note.took());
    put_line_field(gathered, writer, b"released", note.released());
}

/// Puts a line as an object.
#[tactic(auto, using(text_output::proofs::Gathering::puts_both))]
fn put_check_object<W: Write>(
    gathered: &mut Gathered,
    writer: &mut W,
    place: LinePlace,
    note: &Note,
)
    ensures { Puts (W.contents writer.old) (W.contents writer.new) gathered.old gathered.new
        (check_object (line_at place (note_of note.now))) }
{
    put_object_start(gathered, writer, b"finding");
    put_string_field(gathered, writer, b"word", note.word());
    put_place_fields(gathered, writer, place);
    put_text_field(gathered, writer, note);
    put_truth_field(gathered, writer, b"counts", note.counts());
    put_lines_fields(gathered, writer, note);
    put_object_end(gathered, writer);
}

/// Puts a line of a check.
pub(crate) fn put_check_line<W: Write>(
    gathered: &mut Gathered,
    writer: &mut W,
    spot: &Spot,
    note: &Note,
)
    ensures { Puts (W.contents writer.old) (W.contents writer.new) gathered.old gathered.new
        (row_at spot.now (note_of note.now)) }
{
    let manner = spot.manner;
    match manner.form {
        Form::Text => put_check_text(gathered, writer, manner.name, spot.place, note),
        Form::Json => put_check_object(gathered, writer, spot.place, note),
    }
}
