//! What is wrong with a line of a script by itself: a fault, warnings, and that it isn't carried out.
ghost use Rattle.std.specs.Prelude.{◌≡◌, [], ◌∷◌, option_map};
ghost use Rattle.explain_faults.specs.declared.lines.SourceLine.{SourceLine};
ghost use Rattle.explain_list.specs.Rows.{mark_of, marks_on};
ghost use Rattle.explain_check.specs.Lines.{PutsChecks, manner_of};

use crate::notes::Note;
use crate::rows::{Manner, Spot, place_on, put_check_line};
use explain_faults::carets::Caret;
use explain_faults::hints::add_hint;
use explain_faults::lines::SourceLine;
use explain_faults::stands::LineStand;
use explain_faults::warnings::{KINDS, Warning, warning_in, warning_on};
use explain_list::words::{HintedWords, one_line};
use explain_text::Words;
use script_steps::FaultKind;
use std::io::Write;
use text_output::Gathered;

/// Puts that a line isn't carried out, if it isn't.
pub(crate) fn put_loss_check<W: Write>(
    gathered: &mut Gathered,
    writer: &mut W,
    manner: Manner,
    script: &[u8],
    line: &SourceLine,
    lost: Option<SourceLine>,
)
    ensures { PutsChecks (manner_of manner.entry) [] [] [] (W.contents writer.old) (W.contents writer.new) gathered.old
        gathered.new }
{
    if let Some(last) = lost {
        let number = line.number;
        let before = last.bytes(script);
        let spot = Spot {
            manner,
            place: place_on(number, 1, line.bytes(script).len()),
        };
        put_check_line(gathered, writer, &spot, &Note::Loss { number, before });
    }
}

/// Puts a warning about this many bytes at a column of a line.
fn put_warned_check<W: Write>(
    gathered: &mut Gathered,
    writer: &mut W,
    spot: &Spot,
    warning: Warning,
)
    ensures { PutsChecks (manner_of spot.now.manner) [] [] [] (W.contents writer.old) (W.contents writer.new)
        gathered.old gathered.new }
{
    let note = Note::Warning(one_line(warning.text()));
    put_check_line(gathered, writer, spot, &note);
}

/// A line whose warnings are put.
#[derive(Drop)]
pub(crate) struct WarnedLine<'a> {
    pub(crate) number: u32,
    pub(crate) bytes: &'a [u8],
    pub(crate) stand: LineStand,
}

/// The first warning on a line with its column and its kind, by column and then by kind: of those from this column and
/// this kind on and before a column.
fn first_warning(
    line: &WarnedLine,
    from: (usize, usize),
    to: usize,
) -> Option<(usize, usize, Warning)> {
    if to <= from.0 {
        return None;
    }
    let mut first = None;
    let mut before = to;
    for kind in 0..KINDS {
        if let Some((place, warning)) = warning_in(line.bytes, &line.stand, kind)
            && place < before
            && (from.0 < place || (from.0 == place && from.1 <= kind))
        {
            first = Some((place, kind, warning));
            before = place;
        }
    }
    first
}

/// Puts the warnings on a line from one column on and before another, in the order of their columns.
pub(crate) fn put_warning_checks<W: Write>(
    gathered: &mut Gathered,
    writer: &mut W,
    manner: Manner,
    line: &WarnedLine,
    from: usize,
    to: usize,
)
    ensures { PutsChecks (manner_of manner.entry) [] [] [] (W.contents writer.old) (W.contents writer.new) gathered.old
        gathered.new }
{
    let mut after = (from, 0);
    for _i in 0..KINDS {
        match first_warning(line, after, to) {
            Some((column, kind, warning)) => {
                let spot = Spot {
                    manner,
                    place: place_on(line.number, column, 1),
                };
                put_warned_check(gathered, writer, &spot, warning);
                after = (column, kind.saturating_add(1));
            }
            None => return,
        }
    }
}

/// Puts a fault at a place of a line, with what is expected there.
fn put_caret_check<W: Write>(
    gathered: &mut Gathered,
    writer: &mut W,
    manner: Manner,
    number: u32,
    caret: &Caret,
    kind: FaultKind,
)
    ensures { (line : SourceLine) → line.number ≡ number
        → PutsChecks (manner_of manner.entry) (mark_of line (caret.now, kind) ∷ []) [] [] (W.contents writer.old)
        (W.contents writer.new) gathered.old gathered.new }
{
    let mut words = Words::new();
    let hint = one_line(add_hint(&mut words, caret, kind));
    let hinted = HintedWords {
        words: one_line(words.as_slice()),
        hint,
    };
    let spot = Spot {
        manner,
        place: place_on(number, caret.place.column, caret.width(kind)),
    };
    put_check_line(gathered, writer, &spot, &Note::Fault { kind, hinted });
}

/// Puts the fault of a line, if there is one.
pub(crate) fn put_fault_check<W: Write>(
    gathered: &mut Gathered,
    writer: &mut W,
    manner: Manner,
    line: &SourceLine,
    fault: Option<(&Caret, FaultKind)>,
)
    ensures { PutsChecks (manner_of manner.entry)
        (marks_on line.now (option_map (λ f. (f.0.now, f.1)) fault.entry)) [] []
        (W.contents writer.old) (W.contents writer.new) gathered.old gathered.new }
{
    match fault {
        Some((caret, kind)) => put_caret_check(gathered, writer, manner, line.number, caret, kind),
        None => (),
    }
}

/// Puts what is wrong with the file as a whole, if anything is.
pub(crate) fn put_file_check<W: Write>(
    gathered: &mut Gathered,
    writer: &mut W,
    script: &[u8],
    manner: Manner,
)
    ensures { PutsChecks (manner_of manner.entry) [] [] [] (W.contents writer.old) (W.contents writer.new) gathered.old
        gathered.new }
{
    if let Some(warning) = warning_on(script) {
        let spot = Spot {
            manner,
            place: place_on(1, 1, 0),
        };
        put_warned_check(gathered, writer, &spot, warning);
    }
}
