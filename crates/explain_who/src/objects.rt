//! What is asked for and found, as JSON: an object a line.
ghost use Rattle.std.specs.Prelude.{◌≡◌, [], ◌++◌, codes};
ghost use Rattle.text_output.specs.Writing.{Puts};
ghost use Rattle.explain_who.specs.Code.{difference_in};
ghost use Rattle.explain_who.specs.Objects.{address_field, looked_json, part_json, part_of, question_json, text_field};
ghost use Rattle.explain_who.specs.ScriptLines.{LinesBegin};
ghost use Rattle.explain_who.specs.Texts.{asked_text, outside_text, side_text};

use crate::found::NamedChange;
use crate::readings::{Part, Seen, Subject, skip_of};
use crate::shown_lines::put_line_fields;
use crate::texts::{put_asked, put_outside, put_side, shown_at};
use explain_text::{
    put_name, put_number_field, put_object_end, put_object_start, put_string_field,
};
use std::io::Write;
use text_output::Gathered;
use vsm_model::Settings;

/// Puts what is asked for, as a field.
#[tactic(auto, using(text_output::proofs::Gathering::puts_both))]
fn put_asked_field<W: Write>(
    gathered: &mut Gathered,
    writer: &mut W,
    settings: Settings,
    asked: &Subject,
)
    ensures { Puts (W.contents writer.old) (W.contents writer.new) gathered.old gathered.new
        (text_field (codes "text") (asked_text asked.now ++ outside_text settings asked.now)) }
{
    put_name(gathered, writer, b"text");
    gathered.put(writer, b"\"");
    put_asked(gathered, writer, asked);
    put_outside(gathered, writer, settings, asked);
    gathered.put(writer, b"\"");
}

/// Puts the object of the question.
#[tactic(auto, using(text_output::proofs::Gathering::puts_both))]
pub(crate) fn put_question_object<W: Write>(
    gathered: &mut Gathered,
    writer: &mut W,
    settings: Settings,
    asked: &Subject,
)
    ensures { Puts (W.contents writer.old) (W.contents writer.new) gathered.old gathered.new
        (question_json settings asked.now) }
{
    put_object_start(gathered, writer, b"question");
    put_asked_field(gathered, writer, settings, asked);
    put_object_end(gathered, writer);
}

/// Puts a part of what is read, as a field.
#[tactic(auto, using(text_output::proofs::Gathering::puts_both))]
fn put_side_field<W: Write>(
    gathered: &mut Gathered,
    writer: &mut W,
    name: &[u8],
    part: Part,
    seen: &Seen,
    line: Option<u32>,
    skip: usize,
)
    ensures { Puts (W.contents writer.old) (W.contents writer.new) gathered.old gathered.new
        (text_field name.now (side_text part seen.now line skip)) }
{
    put_name(gathered, writer, name);
    gathered.put(writer, b"\"");
    put_side(gathered, writer, part, seen, line, skip);
    gathered.put(writer, b"\"");
}

/// What a part of a reading is of.
fn part_of(part: Part, seen: &Seen) -> &'static [u8]
    ensures { result.now ≡ part_of part seen.now }
{
    match (part, seen) {
        (Part::Storage, _) => b"storage",
        (Part::Value, Seen::Place(_)) => b"bytes",
        (Part::Value, Seen::Register(_)) => b"register",
        (Part::Value, Seen::Name(_)) => b"name",
        (Part::Value, Seen::Held(_)) => b"subpool",
    }
}

/// Puts the field with the address of the first byte that is shown, if not all are.
#[tactic(auto, using(text_output::proofs::Gathering::puts_none))]
fn put_address_field<W: Write>(gathered: &mut Gathered, writer: &mut W, at: Option<u32>)
    ensures { Puts (W.contents writer.old) (W.contents writer.new) gathered.old gathered.new (address_field at) }
{
    match at {
        Some(at) => put_number_field(gathered, writer, b"address", u64::from(at)),
        None => (),
    }
}

/// Puts the object of a part of a change.
#[tactic(auto, using(text_output::proofs::Gathering::puts_both))]
pub(crate) fn put_part_object<W: Write>(
    gathered: &mut Gathered,
    writer: &mut W,
    script: &[u8],
    starts: &[usize],
    part: Part,
    change: &NamedChange<'_>,
)
    requires { LinesBegin script.now script.now starts.now [] }
    ensures { Puts (W.contents writer.old) (W.contents writer.new) gathered.old gathered.new
        (part_json script.now part (difference_in change.now)) }
{
    let before = change.before;
    let after = change.after;
    let skip = skip_of(before, after);
    put_object_start(gathered, writer, b"change");
    put_line_fields(gathered, writer, script, starts, change.line);
    put_string_field(gathered, writer, b"of", part_of(part, before));
    put_address_field(gathered, writer, shown_at(part, before, skip));
    put_side_field(
        gathered,
        writer,
        b"before",
        part,
        before,
        change.taken_before,
        skip,
    );
    put_side_field(
        gathered,
        writer,
        b"after",
        part,
        after,
        change.taken_after,
        skip,
    );
    put_object_end(gathered, writer);
}

/// Puts the object with how many statements changed it, and how many are in effect.
#[tactic(auto, using(text_output::proofs::Gathering::puts_both))]
pub(crate) fn put_looked_object<W: Write>(
    gathered: &mut Gathered,
    writer: &mut W,
    changes: usize,
    standing: usize,
)
    ensures { Puts (W.contents writer.old) (W.contents writer.new) gathered.old gathered.new
        (looked_json changes standing) }
{
    put_object_start(gathered, writer, b"sum");
    put_number_field(gathered, writer, b"changes", changes as u64);
    put_number_field(gathered, writer, b"standing", standing as u64);
    put_object_end(gathered, writer);
}
