//! The rows of a listing as objects of JSON.
ghost use Rattle.std.specs.Prelude.{◌≡◌, ◌++◌, [], codes, length, min};
ghost use Rattle.explain_faults.specs.Places.{caret_width, line_in};
ghost use Rattle.text_output.specs.Writing.{Puts};
ghost use Rattle.explain_list.specs.Rows.{dropped_object, fault_object, hint_field, place_fields, warning_object};
ghost use Rattle.explain_list.specs.Rows.{words_field};

use crate::rows::put_loss;
use crate::words::{HintedWords, put_hinted_words};
use explain_faults::carets::Caret;
use explain_faults::lines::SourceLine;
use explain_text::{
    Form, put_name, put_number_field, put_object_end, put_object_start, put_string_field,
};
use script_steps::{FaultKind, fault_word};
use std::io::Write;
use text_output::Gathered;

/// Puts the place of a range: its line, its first column, and the column after its last.
#[tactic(auto, using(text_output::proofs::Gathering::puts_both))]
fn put_place<W: Write>(
    gathered: &mut Gathered,
    writer: &mut W,
    number: u32,
    place: usize,
    width: usize,
)
    ensures { Puts (W.contents writer.old) (W.contents writer.new) gathered.old gathered.new
        (place_fields number place width) }
{
    let column = place.min(100_000) as u64;
    let end = column + width.min(100_000) as u64;
    put_number_field(gathered, writer, b"line", u64::from(number));
    put_number_field(gathered, writer, b"column", column);
    put_number_field(gathered, writer, b"end", end);
}

/// Puts free words, and the word that is proposed, if any.
#[tactic(auto, using(text_output::proofs::Gathering::puts_both))]
fn put_words<W: Write>(gathered: &mut Gathered, writer: &mut W, hinted: &HintedWords)
    ensures { Puts (W.contents writer.old) (W.contents writer.new) gathered.old gathered.new
        (words_field hinted.now.words.now hinted.now.hint.now) }
{
    put_name(gathered, writer, b"text");
    gathered.put(writer, b"\"");
    put_hinted_words(Form::Json, gathered, writer, hinted);
    gathered.put(writer, b"\"");
}

/// Puts a word that is proposed, unless it's empty.
fn put_hint<W: Write>(gathered: &mut Gathered, writer: &mut W, hint: &[u8])
    ensures { Puts (W.contents writer.old) (W.contents writer.new) gathered.old gathered.new (hint_field hint.now) }
{
    if !hint.is_empty() {
        put_string_field(gathered, writer, b"hint", hint);
    }
}

/// Puts the fault of a statement that a caret on this line marks.
#[tactic(auto, using(text_output::proofs::Gathering::puts_both))]
pub(crate) fn put_fault_object<W: Write>(
    gathered: &mut Gathered,
    writer: &mut W,
    number: u32,
    caret: &Caret,
    kind: FaultKind,
    hinted: &HintedWords,
)
    ensures { Puts (W.contents writer.old) (W.contents writer.new) gathered.old gathered.new
        (fault_object number caret.now.place.column (caret_width kind caret.now) kind hinted.now.words.now
        hinted.now.hint.now) }
{
    put_object_start(gathered, writer, b"fault");
    put_place(
        gathered,
        writer,
        number,
        caret.place.column,
        caret.width(kind),
    );
    put_string_field(gathered, writer, b"fault", fault_word(kind).as_bytes());
    put_words(gathered, writer, hinted);
    put_hint(gathered, writer, hinted.hint);
    put_object_end(gathered, writer);
}

/// Puts a warning on a line, which marks this many bytes.
#[tactic(auto, using(text_output::proofs::Gathering::puts_both))]
pub(crate) fn put_warning_object<W: Write>(
    gathered: &mut Gathered,
    writer: &mut W,
    number: u32,
    place: usize,
    width: usize,
    words: &[u8],
)
    ensures { Puts (W.contents writer.old) (W.contents writer.new) gathered.old gathered.new
        (warning_object number place width words.now) }
{
    put_object_start(gathered, writer, b"warning");
    put_place(gathered, writer, number, place, width);
    put_words(gathered, writer, &HintedWords { words, hint: b"" });
    put_object_end(gathered, writer);
}

/// Puts that a line isn't carried out, by the line before it.
#[tactic(auto, using(text_output::proofs::Gathering::puts_both))]
pub(crate) fn put_dropped_object<W: Write>(
    gathered: &mut Gathered,
    writer: &mut W,
    number: u32,
    line: &[u8],
    before: &[u8],
)
    ensures { Puts (W.contents writer.old) (W.contents writer.new) gathered.old gathered.new
        (dropped_object number line.now before.now) }
{
    put_object_start(gathered, writer, b"dropped");
    put_place(gathered, writer, number, 1, line.len());
    put_name(gathered, writer, b"text");
    gathered.put(writer, b"\"");
    put_loss(Form::Json, gathered, writer, number, before);
    gathered.put(writer, b"\"");
    put_object_end(gathered, writer);
}
