//! Rows of fields: each a line of text, or an object of JSON.
ghost use Rattle.std.specs.Prelude.{◌≡◌, map};
ghost use Rattle.text_output.specs.Writing.{Puts};
ghost use Rattle.explain_text.specs.Rows.{address, end_of, field_of, fields_of, meant, number, row_of, start_of, text};
ghost use Rattle.explain_text.specs.Rows.{number_in_object, only_in_text, truth};

use crate::json::{
    Form, put_number_field, put_object_end, put_object_start, put_string_field, put_truth_field,
};
use std::io::Write;
use text_output::{Gathered, put_decimal, put_hexadecimal};

/// What a field says.
#[derive(Clone, Copy)]
enum Value<'a> {
    /// Bytes as they are in text, and as they're shown in an object.
    Text(&'a [u8]),
    Number(u64),
    /// In eight hexadecimal digits in text.
    Address(u32),
    /// Only in an object.
    Hidden(u64),
    /// Only in an object.
    Truth(bool),
    Nothing,
}

/// A field: what precedes it in a line of text, its name in an object, and what it says.
#[derive(Clone, Copy)]
pub struct Field<'a> {
    before: &'a [u8],
    name: &'a [u8],
    value: Value<'a>,
}

/// A field with bytes.
pub fn text<'a>(before: &'a [u8], name: &'a [u8], bytes: &'a [u8]) -> Field<'a>
    ensures { meant result ≡ text before.now name.now bytes.now }
{
    Field {
        before,
        name,
        value: Value::Text(bytes),
    }
}

/// A field with a number.
pub fn number<'a>(before: &'a [u8], name: &'a [u8], n: u64) -> Field<'a>
    ensures { meant result ≡ number before.now name.now n }
{
    Field {
        before,
        name,
        value: Value::Number(n),
    }
}

/// A field with an address.
pub fn address<'a>(before: &'a [u8], name: &'a [u8], at: u32) -> Field<'a>
    ensures { meant result ≡ address before.now name.now at }
{
    Field {
        before,
        name,
        value: Value::Address(at),
    }
}

/// Words that stand only in text.
pub fn only_in_text<'a>(text: &'a [u8]) -> Field<'a>
    ensures { meant result ≡ only_in_text text.now }
{
    Field {
        before: text,
        name: b"",
        value: Value::Nothing,
    }
}

/// A field with a number, which isn't in text.
pub fn number_in_object<'a>(name: &'a [u8], n: u64) -> Field<'a>
    ensures { meant result ≡ number_in_object name.now n }
{
    Field {
        before: b"",
        name,
        value: Value::Hidden(n),
    }
}

/// A field with `true` or `false`; in text these words if it's true.
pub fn truth<'a>(words: &'a [u8], name: &'a [u8], yes: bool) -> Field<'a>
    ensures { meant result ≡ truth words.now name.now yes }
{
    Field {
        before: if yes { words } else { b"" },
        name,
        value: Value::Truth(yes),
    }
}

/// Puts a field in a line of text.
#[tactic(auto, using(text_output::proofs::Gathering::puts_both))]
fn put_in_text<W: Write>(gathered: &mut Gathered, writer: &mut W, field: Field<'_>)
    ensures { Puts (W.contents writer.old) (W.contents writer.new) gathered.old gathered.new
        (meant field.entry).in_text }
{
    gathered.put(writer, field.before);
    match field.value {
        Value::Text(bytes) => gathered.put(writer, bytes),
        Value::Number(n) => put_decimal(gathered, writer, n),
        Value::Address(at) => put_hexadecimal(gathered, writer, 8, at),
        Value::Hidden(_) | Value::Truth(_) | Value::Nothing => (),
    }
}

/// Puts a field in an object.
#[tactic(auto, using(text_output::proofs::Gathering::puts_none))]
fn put_in_object<W: Write>(gathered: &mut Gathered, writer: &mut W, field: Field<'_>)
    ensures { Puts (W.contents writer.old) (W.contents writer.new) gathered.old gathered.new
        (meant field.entry).in_object }
{
    match field.value {
        Value::Text(bytes) => put_string_field(gathered, writer, field.name, bytes),
        Value::Number(n) => put_number_field(gathered, writer, field.name, n),
        Value::Address(at) => put_number_field(gathered, writer, field.name, u64::from(at)),
        Value::Hidden(n) => put_number_field(gathered, writer, field.name, n),
        Value::Truth(yes) => put_truth_field(gathered, writer, field.name, yes),
        Value::Nothing => (),
    }
}

/// Puts a field.
fn put_field<W: Write>(gathered: &mut Gathered, writer: &mut W, form: Form, field: Field<'_>)
    ensures { Puts (W.contents writer.old) (W.contents writer.new) gathered.old gathered.new
        (field_of form (meant field.entry)) }
{
    match form {
        Form::Text => put_in_text(gathered, writer, field),
        Form::Json => put_in_object(gathered, writer, field),
    }
}

/// Puts fields, one after the other.
pub fn put_fields<W: Write>(
    gathered: &mut Gathered,
    writer: &mut W,
    form: Form,
    fields: &[Field<'_>],
)
    ensures { Puts (W.contents writer.old) (W.contents writer.new) gathered.old gathered.new
        (fields_of form (map meant fields.now)) }
{
    for field in fields {
        put_field(gathered, writer, form, *field);
    }
}

/// Begins a row: an object of this kind, or a line.
#[tactic(auto, using(text_output::proofs::Gathering::puts_none))]
pub fn put_start<W: Write>(gathered: &mut Gathered, writer: &mut W, form: Form, kind: &[u8])
    ensures { Puts (W.contents writer.old) (W.contents writer.new) gathered.old gathered.new
        (start_of form kind.now) }
{
    match form {
        Form::Text => (),
        Form::Json => put_object_start(gathered, writer, kind),
    }
}

/// Ends a row.
pub fn put_end<W: Write>(gathered: &mut Gathered, writer: &mut W, form: Form)
    ensures { Puts (W.contents writer.old) (W.contents writer.new) gathered.old gathered.new (end_of form) }
{
    match form {
        Form::Text => gathered.put(writer, b"\n"),
        Form::Json => put_object_end(gathered, writer),
    }
}

/// Puts a row: a line of text, or an object of this kind.
#[tactic(auto, using(text_output::proofs::Gathering::puts_both))]
pub fn put_row<W: Write>(
    gathered: &mut Gathered,
    writer: &mut W,
    form: Form,
    kind: &[u8],
    fields: &[Field<'_>],
)
    ensures { Puts (W.contents writer.old) (W.contents writer.new) gathered.old gathered.new
        (row_of form kind.now (map meant fields.now)) }
{
    put_start(gathered, writer, form, kind);
    put_fields(gathered, writer, form, fields);
    put_end(gathered, writer, form);
}
