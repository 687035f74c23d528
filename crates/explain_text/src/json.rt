//! JSON: an object on each line, of fields with their names.
ghost use Rattle.std.specs.Prelude.{◌≡◌, ◌≤◌, ◌++◌, length};
ghost use Rattle.std.specs.List.{flat_map};
ghost use Rattle.text_output.specs.Writing.{Puts};
ghost use Rattle.explain_text.specs.Letters.{shown};
ghost use Rattle.explain_text.specs.Json.{escaped, json_head, json_name, json_string, json_truth, number_field};
ghost use Rattle.explain_text.specs.Json.{bytes_in, object_end, object_start, shown_in, string_field, truth_field};

use crate::letters::shown_at;
use crate::puts::put_shown;
use std::io::Write;
use text_output::{Gathered, put_decimal};

/// The form in which an answer is written: text for people, or JSON for programs, an object a line.
#[derive(Clone, Copy, PartialEq, Eq)]
pub enum Form {
    Text,
    Json,
}

/// Puts a byte of a string: a quotation mark or a backslash after a backslash.
fn put_escaped<W: Write>(gathered: &mut Gathered, writer: &mut W, byte: u8)
    ensures { Puts (W.contents writer.old) (W.contents writer.new) gathered.old gathered.new (escaped byte) }
{
    if byte == b'"' {
        gathered.put(writer, b"\\\"");
    } else if byte == b'\\' {
        gathered.put(writer, b"\\\\");
    } else {
        gathered.put(writer, &[byte]);
    }
}

/// Puts the bytes of a string, as they're shown.
fn put_content<W: Write>(gathered: &mut Gathered, writer: &mut W, bytes: &[u8])
    ensures { Puts (W.contents writer.old) (W.contents writer.new) gathered.old gathered.new
        (flat_map escaped (shown bytes.now)) }
{
    for at in 0..bytes.len() {
        put_escaped(gathered, writer, shown_at(bytes, at));
    }
}

/// Puts bytes as they are in text, and as they're shown within a JSON string.
pub fn put_bytes_in<W: Write>(form: Form, gathered: &mut Gathered, writer: &mut W, bytes: &[u8])
    ensures { Puts (W.contents writer.old) (W.contents writer.new) gathered.old gathered.new
        (bytes_in form bytes.now) }
{
    match form {
        Form::Text => gathered.put(writer, bytes),
        Form::Json => put_content(gathered, writer, bytes),
    }
}

/// Puts bytes of a script as they're shown, in text or within a JSON string: 80 at most.
pub fn put_shown_in<W: Write>(form: Form, gathered: &mut Gathered, writer: &mut W, bytes: &[u8])
    requires { length bytes.now ≤ 80 }
    ensures { Puts (W.contents writer.old) (W.contents writer.new) gathered.old gathered.new
        (shown_in form bytes.now) }
{
    match form {
        Form::Text => put_shown(gathered, writer, bytes),
        Form::Json => put_content(gathered, writer, bytes),
    }
}

/// Puts bytes of a script as a JSON string, as they're shown: a point for each byte that is no printing character.
#[tactic(auto, using(text_output::proofs::Gathering::puts_both))]
pub fn put_string<W: Write>(gathered: &mut Gathered, writer: &mut W, bytes: &[u8])
    ensures { Puts (W.contents writer.old) (W.contents writer.new) gathered.old gathered.new (json_string bytes.now) }
{
    gathered.put(writer, b"\"");
    put_content(gathered, writer, bytes);
    gathered.put(writer, b"\"");
}

/// Puts the name of a field after the first, and a colon.
#[tactic(auto, using(text_output::proofs::Gathering::puts_both))]
pub fn put_name<W: Write>(gathered: &mut Gathered, writer: &mut W, name: &[u8])
    ensures { Puts (W.contents writer.old) (W.contents writer.new) gathered.old gathered.new (json_name name.now) }
{
    gathered.put(writer, b",\"");
    gathered.put(writer, name);
    gathered.put(writer, b"\":");
}

/// Puts a field with a string: bytes of a script as they're shown.
#[tactic(auto, using(text_output::proofs::Gathering::puts_both))]
pub fn put_string_field<W: Write>(
    gathered: &mut Gathered,
    writer: &mut W,
    name: &[u8],
    bytes: &[u8],
)
    ensures { Puts (W.contents writer.old) (W.contents writer.new) gathered.old gathered.new
        (string_field name.now bytes.now) }
{
    put_name(gathered, writer, name);
    put_string(gathered, writer, bytes);
}

/// Puts a field with a number.
#[tactic(auto, using(text_output::proofs::Gathering::puts_both))]
pub fn put_number_field<W: Write>(gathered: &mut Gathered, writer: &mut W, name: &[u8], n: u64)
    ensures { Puts (W.contents writer.old) (W.contents writer.new) gathered.old gathered.new
        (number_field name.now n) }
{
    put_name(gathered, writer, name);
    put_decimal(gathered, writer, n);
}

/// Puts `true` or `false`.
fn put_truth<W: Write>(gathered: &mut Gathered, writer: &mut W, truth: bool)
    ensures { Puts (W.contents writer.old) (W.contents writer.new) gathered.old gathered.new (json_truth truth) }
{
    if truth {
        gathered.put(writer, b"true");
    } else {
        gathered.put(writer, b"false");
    }
}

/// Puts a field with `true` or `false`.
#[tactic(auto, using(text_output::proofs::Gathering::puts_both))]
pub fn put_truth_field<W: Write>(gathered: &mut Gathered, writer: &mut W, name: &[u8], truth: bool)
    ensures { Puts (W.contents writer.old) (W.contents writer.new) gathered.old gathered.new
        (truth_field name.now truth) }
{
    put_name(gathered, writer, name);
    put_truth(gathered, writer, truth);
}

/// Begins an object of this kind.
#[tactic(auto, using(text_output::proofs::Gathering::puts_both))]
pub fn put_object_start<W: Write>(gathered: &mut Gathered, writer: &mut W, kind: &[u8])
    ensures { Puts (W.contents writer.old) (W.contents writer.new) gathered.old gathered.new
        (object_start kind.now) }
{
    gathered.put(writer, b"{\"kind\":\"");
    gathered.put(writer, kind);
    gathered.put(writer, b"\"");
}

/// Ends an object, and its line.
pub fn put_object_end<W: Write>(gathered: &mut Gathered, writer: &mut W)
    ensures { Puts (W.contents writer.old) (W.contents writer.new) gathered.old gathered.new object_end }
{
    gathered.put(writer, b"}\n");
}

/// Puts the first line of a command's output: the version of its form, and the command.
pub fn put_head<W: Write>(gathered: &mut Gathered, writer: &mut W, command: &[u8])
    ensures { Puts (W.contents writer.old) (W.contents writer.new) gathered.old gathered.new
        (json_head command.now) }
{
    gathered.put(writer, b"{\"version\":1,\"command\":\"");
    gathered.put(writer, command);
    gathered.put(writer, b"\"}\n");
}
