//! What is in a listing around the answers: lines of the script, carets and warnings.
ghost use Rattle.std.specs.Prelude.{◌≡◌, ◌≤◌, ℕ, List, [], ◌∷◌, IfSome, codes, is_some, length, option_map, take};
ghost use Rattle.explain_text.specs.Columns.{column};
ghost use Rattle.explain_text.specs.Letters.{shown};
ghost use Rattle.explain_faults.specs.Places.{caret_width, line_in};
ghost use Rattle.text_output.specs.Writing.{Puts};
ghost use Rattle.explain_list.specs.Rows.{IsLineAt, IsLineBefore, PutsRows, column_72};
ghost use Rattle.explain_list.specs.Rows.{fault_text, faulty, line_text, loss_in, lost, mark_of, marks_on, more_text};
ghost use Rattle.explain_list.specs.Rows.{on_file, pointer_text};
ghost use Rattle.explain_list.specs.Rows.{row_in, row_text, source, warned, warning_text};

use crate::objects::{put_dropped_object, put_fault_object, put_warning_object};
use crate::words::{HintedWords, one_line, put_hinted_words};
use explain_faults::carets::Caret;
use explain_faults::hints::add_hint;
use explain_faults::lines::SourceLine;
use explain_faults::stands::LineStand;
use explain_faults::warnings::{KINDS, Warned, Warning, warning_in, warning_on};
use explain_text::{Form, Words, column_of, put_blanks, put_column, put_shown, put_shown_in};
use script_steps::{FaultKind, fault_word};
use std::io::Write;
use text_output::{Gathered, put_decimal};

/// What is shown of a line.
fn shown_part(bytes: &[u8]) -> &[u8]
    ensures value { result.now ≡ take 80 bytes.now }
    ensures few { length result.now ≤ 80 }
{
    &bytes[..80usize.min(bytes.len())]
}

/// Puts two points if a line isn't shown whole.
fn put_more<W: Write>(gathered: &mut Gathered, writer: &mut W, line: &[u8])
    ensures { Puts (W.contents writer.old) (W.contents writer.new) gathered.old gathered.new (more_text line.now) }
{
    if line.len() > 80 {
        gathered.put(writer, b"..");
    }
}

/// Puts a line of the script with its number and a mark.
#[tactic(auto, using(text_output::proofs::Gathering::puts_both))]
fn put_line<W: Write>(
    gathered: &mut Gathered,
    writer: &mut W,
    number: u32,
    mark: &[u8],
    line: &[u8],
)
    ensures { Puts (W.contents writer.old) (W.contents writer.new) gathered.old gathered.new
        (line_text number mark.now line.now) }
{
    put_column(gathered, writer, 7, number);
    gathered.put(writer, mark);
    put_shown(gathered, writer, shown_part(line));
    put_more(gathered, writer, line);
}

/// The byte of column 72 of a line.
fn column_72(line: &[u8]) -> u8
    ensures { result ≡ column_72 line.now }
{
    match line.get(71) {
        Some(byte) => *byte,
        None => b' ',
    }
}

/// Puts why a line isn't carried out, and which line says so: the one before it.
#[tactic(auto, using(text_output::proofs::Gathering::puts_both))]
pub fn put_loss<W: Write>(
    form: Form,
    gathered: &mut Gathered,
    writer: &mut W,
    number: u32,
    before: &[u8],
)
    ensures { Puts (W.contents writer.old) (W.contents writer.new) gathered.old gathered.new
        (loss_in form number before.now) }
{
    gathered.put(writer, b"NOT CARRIED OUT: line ");
    put_decimal(gathered, writer, u64::from(number.saturating_sub(1)));
    gathered.put(writer, b" has '");
    put_shown_in(form, gathered, writer, &[column_72(before)]);
    gathered.put(writer, b"' in column 72");
}

/// Puts a line of the script.
#[tactic(auto, using(text_output::proofs::Gathering::puts_both))]
fn put_source<W: Write>(gathered: &mut Gathered, writer: &mut W, script: &[u8], line: &SourceLine)
    ensures { Puts (W.contents writer.old) (W.contents writer.new) gathered.old gathered.new
        (row_text script.now (source line.now)) }
{
    put_line(gathered, writer, line.number, b"  ", line.bytes(script));
    gathered.put(writer, b"\n");
}

/// Puts a line of the script that isn't carried out.
#[tactic(auto, using(text_output::proofs::Gathering::puts_both))]
fn put_lost<W: Write>(
    gathered: &mut Gathered,
    writer: &mut W,
    script: &[u8],
    line: &SourceLine,
    before: &SourceLine,
)
    ensures { Puts (W.contents writer.old) (W.contents writer.new) gathered.old gathered.new
        (row_text script.now (lost line.now before.now)) }
{
    put_line(gathered, writer, line.number, b" x", line.bytes(script));
    gathered.put(writer, b"      <== ");
    put_loss(
        Form::Text,
        gathered,
        writer,
        line.number,
        before.bytes(script),
    );
    gathered.put(writer, b"\n");
}

/// Puts what is wrong with a statement.
#[tactic(auto, using(text_output::proofs::Gathering::puts_both))]
fn put_fault<W: Write>(
    gathered: &mut Gathered,
    writer: &mut W,
    kind: FaultKind,
    hinted: &HintedWords,
)
    ensures { Puts (W.contents writer.old) (W.contents writer.new) gathered.old gathered.new
        (fault_text kind hinted.now.words.now hinted.now.hint.now) }
{
    gathered.put(writer, fault_word(kind).as_bytes());
    gathered.put(writer, b": ");
    put_hinted_words(Form::Text, gathered, writer, hinted);
    gathered.put(writer, b"\n");
}

/// Puts a warning in these words.
#[tactic(auto, using(text_output::proofs::Gathering::puts_both))]
fn put_warning<W: Write>(gathered: &mut Gathered, writer: &mut W, words: &[u8])
    ensures { Puts (W.contents writer.old) (W.contents writer.new) gathered.old gathered.new
        (warning_text words.now) }
{
    gathered.put(writer, b"WARNING: ");
    gathered.put(writer, words);
    gathered.put(writer, b"\n");
}

/// Puts a caret below a column of a line, from 1.
#[tactic(auto, using(text_output::proofs::Gathering::puts_both))]
fn put_pointer<W: Write>(gathered: &mut Gathered, writer: &mut W, line: &[u8], place: usize)
    ensures { Puts (W.contents writer.old) (W.contents writer.new) gathered.old gathered.new
        (pointer_text line.now place) }
{
    let column = column_of(shown_part(line), place.saturating_sub(1).min(80));
    put_blanks(gathered, writer, 9);
    put_blanks(gathered, writer, column);
    gathered.put(writer, b"^ ");
}

/// Puts a line of the script, which isn't carried out if a line before it is given.
fn put_own_text<W: Write>(
    gathered: &mut Gathered,
    writer: &mut W,
    script: &[u8],
    line: &SourceLine,
    lost: Option<SourceLine>,
)
    ensures { IsLineAt script.now line.now → IfSome lost (IsLineBefore script.now line.now)
        → PutsRows Form.Text script.now (line.now ∷ []) (is_some lost ∷ []) []
        (W.contents writer.old) (W.contents writer.new) gathered.old gathered.new }
{
    match lost {
        Some(before) => put_lost(gathered, writer, script, line, &before),
        None => put_source(gathered, writer, script, line),
    }
}

/// Puts the object of a line, if it isn't carried out: if a line before it is given.
fn put_own_object<W: Write>(
    gathered: &mut Gathered,
    writer: &mut W,
    script: &[u8],
    line: &SourceLine,
    lost: Option<SourceLine>,
)
    ensures { IsLineAt script.now line.now → IfSome lost (IsLineBefore script.now line.now)
        → PutsRows Form.Json script.now (line.now ∷ []) (is_some lost ∷ []) []
        (W.contents writer.old) (W.contents writer.new) gathered.old gathered.new }
{
    if let Some(before) = lost {
        put_dropped_object(
            gathered,
            writer,
            line.number,
            line.bytes(script),
            before.bytes(script),
        );
    }
}

/// Puts a line of the script, and if it isn't carried out why: this line before it.
fn put_own_row<W: Write>(
    form: Form,
    gathered: &mut Gathered,
    writer: &mut W,
    script: &[u8],
    line: &SourceLine,
    lost: Option<SourceLine>,
)
    ensures { IsLineAt script.now line.now → IfSome lost (IsLineBefore script.now line.now)
        → PutsRows form script.now (line.now ∷ []) (is_some lost ∷ []) []
        (W.contents writer.old) (W.contents writer.new) gathered.old gathered.new }
{
    match form {
        Form::Text => put_own_text(gathered, writer, script, line, lost),
        Form::Json => put_own_object(gathered, writer, script, line, lost),
    }
}

/// Puts a warning on a line, in these words.
#[tactic(auto, using(text_output::proofs::Gathering::puts_both))]
fn put_warned_row<W: Write>(
    form: Form,
    gathered: &mut Gathered,
    writer: &mut W,
    script: &[u8],
    line: &SourceLine,
    place: usize,
    words: &[u8],
)
    ensures { Puts (W.contents writer.old) (W.contents writer.new) gathered.old gathered.new
        (row_in form script.now (warned line.now place 1 words.now)) }
{
    match form {
        Form::Text => {
            put_pointer(gathered, writer, line.bytes(script), place);
            put_warning(gathered, writer, words);
        }
        Form::Json => put_warning_object(gathered, writer, line.number, place, 1, words),
    }
}

/// Puts a warning on a line, if there is one.
fn put_warned<W: Write>(
    form: Form,
    gathered: &mut Gathered,
    writer: &mut W,
    script: &[u8],
    line: &SourceLine,
    warned: Warned,
)
    ensures { IsLineAt script.now line.now
        → PutsRows form script.now [] [] [] (W.contents writer.old) (W.contents writer.new) gathered.old gathered.new }
{
    if let Some((place, warning)) = warned {
        let words = one_line(warning.text());
        put_warned_row(form, gathered, writer, script, line, place, words);
    }
}

/// Puts the warnings on a line with this role.
fn put_warnings<W: Write>(
    form: Form,
    gathered: &mut Gathered,
    writer: &mut W,
    script: &[u8],
    line: &SourceLine,
    stand: &LineStand,
)
    ensures { IsLineAt script.now line.now
        → PutsRows form script.now [] [] [] (W.contents writer.old) (W.contents writer.new) gathered.old gathered.new }
{
    for kind in 0..KINDS {
        let warned = warning_in(line.bytes(script), stand, kind);
        put_warned(form, gathered, writer, script, line, warned);
    }
}

/// Puts a caret on a line, with what is wrong.
#[tactic(auto, using(text_output::proofs::Gathering::puts_both))]
fn put_faulty_row<W: Write>(
    form: Form,
    gathered: &mut Gathered,
    writer: &mut W,
    script: &[u8],
    line: &SourceLine,
    caret: &Caret,
    kind: FaultKind,
    hinted: &HintedWords,
)
    ensures { Puts (W.contents writer.old) (W.contents writer.new) gathered.old gathered.new
        (row_in form script.now (faulty line.now caret.now.place.column (caret_width kind caret.now) kind
        hinted.now.words.now hinted.now.hint.now)) }
{
    match form {
        Form::Text => {
            put_pointer(gathered, writer, line.bytes(script), caret.place.column);
            put_fault(gathered, writer, kind, hinted);
        }
        Form::Json => put_fault_object(gathered, writer, line.number, caret, kind, hinted),
    }
}

/// Puts a caret on a line, with what is wrong and what is expected.
fn put_caret<W: Write>(
    form: Form,
    gathered: &mut Gathered,
    writer: &mut W,
    script: &[u8],
    line: &SourceLine,
    caret: &Caret,
    kind: FaultKind,
)
    ensures { IsLineAt script.now line.now
        → PutsRows form script.now [] [] (mark_of line.now (caret.now, kind) ∷ []) (W.contents writer.old)
        (W.contents writer.new) gathered.old gathered.new }
{
    let mut words = Words::new();
    let hint = one_line(add_hint(&mut words, caret, kind));
    let hinted = HintedWords {
        words: one_line(words.as_slice()),
        hint,
    };
    put_faulty_row(form, gathered, writer, script, line, caret, kind, &hinted);
}

/// Puts the caret of a fault on a line, if there is one.
fn put_fault_row<W: Write>(
    form: Form,
    gathered: &mut Gathered,
    writer: &mut W,
    script: &[u8],
    line: &SourceLine,
    fault: Option<(&Caret, FaultKind)>,
)
    ensures { IsLineAt script.now line.now
        → PutsRows form script.now [] [] (marks_on line.now (option_map (λ f. (f.0.now, f.1)) fault.entry))
        (W.contents writer.old) (W.contents writer.new) gathered.old gathered.new }
{
    match fault {
        Some((caret, kind)) => put_caret(form, gathered, writer, script, line, caret, kind),
        None => (),
    }
}

/// Puts a line of the script, the warnings on it, and the caret of a fault on it.
pub(crate) fn put_line_rows<W: Write>(
    form: Form,
    gathered: &mut Gathered,
    writer: &mut W,
    script: &[u8],
    line: &SourceLine,
    stand: &LineStand,
    lost: Option<SourceLine>,
    fault: Option<(&Caret, FaultKind)>,
)
    ensures { IsLineAt script.now line.now → IfSome lost (IsLineBefore script.now line.now)
        → PutsRows form script.now (line.now ∷ []) (is_some lost ∷ [])
        (marks_on line.now (option_map (λ f. (f.0.now, f.1)) fault.entry))
        (W.contents writer.old) (W.contents writer.new) gathered.old gathered.new }
{
    put_own_row(form, gathered, writer, script, line, lost);
    put_warnings(form, gathered, writer, script, line, stand);
    put_fault_row(form, gathered, writer, script, line, fault);
}

/// Puts what is wrong with the file as a whole, in these words.
fn put_file_words<W: Write>(form: Form, gathered: &mut Gathered, writer: &mut W, words: &[u8])
    ensures { (script : List ℕ) → Puts (W.contents writer.old) (W.contents writer.new) gathered.old gathered.new
        (row_in form script (on_file words.now)) }
{
    match form {
        Form::Text => put_warning(gathered, writer, words),
        Form::Json => put_warning_object(gathered, writer, 1, 1, 0, words),
    }
}

/// Puts what is wrong with the file as a whole, if anything is.
pub(crate) fn put_file_row<W: Write>(
    form: Form,
    gathered: &mut Gathered,
    writer: &mut W,
    script: &[u8],
)
    ensures { PutsRows form script.now [] [] [] (W.contents writer.old) (W.contents writer.new) gathered.old
        gathered.new }
{
    if let Some(warning) = warning_on(script) {
        put_file_words(form, gathered, writer, one_line(warning.text()));
    }
}
