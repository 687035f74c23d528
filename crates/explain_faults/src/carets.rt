//! Where a statement is wrong: the line and the column of each kind of fault.
ghost use Rattle.std.specs.Prelude.{◌≡◌, ◌==◌, ◌≤◌, ◌<◌, ◌-◌, ◌+◌, true, false, Some, None, IfSome, length, map, drop};
ghost use Rattle.std.specs.List.{slice_get, take_while};
ghost use Rattle.macro_reader.specs.Continuation.{begun, with_lines};
ghost use Rattle.explain_faults.specs.Places.{card_in, first_card, further_cards, is_of_operand};
ghost use Rattle.explain_faults.specs.Places.{HasFault, IsCaretOf, IsFieldOver, IsHeadPlace, MarksOperand};
ghost use Rattle.explain_faults.specs.Places.{caret_width, operand_bytes, word_bytes};
ghost use Rattle.operand_texts.specs.Words.{after_blanks, after_word};

use crate::fields::card_of;
use crate::gathered::{Field, TextPlace};
use crate::lines::SourceLine;
use crate::operands::{has_fault, wrong_operand};
use macro_statements::FaultKind;
use operand_texts::words::{after_blanks, after_word, word_len};

/// Where a statement is wrong.
#[derive(Drop)]
pub struct Caret {
    /// Where it is.
    pub place: TextPlace,
    /// Columns 1 to 71 of the statement's first line.
    pub card: [u8; 71],
    /// Its operand field.
    pub field: Field,
    /// Where the wrong operand begins in the field.
    pub from: usize,
    /// Where it ends there.
    pub to: usize,
}

/// How many of these places are on a line, before the first that isn't.
fn count_on(line: usize, places: &[TextPlace]) -> usize
    ensures { result ≡ length (take_while (λ p. p.line == line) places.now) }
{
    places.iter().take_while(|place| place.line == line).count()
}

impl Caret {
    /// How many bytes of the wrong operand are on the caret's line.
    fn operand_bytes(&self) -> usize
        ensures { result ≡ operand_bytes self.now }
    {
        let places = self.field.places();
        let end = self.to.min(places.len());
        count_on(self.place.line, &places[self.from.min(end)..end])
    }

    /// How many bytes the word has that begins at the caret, on the statement's first line.
    fn word_bytes(&self) -> usize
        ensures { result ≡ word_bytes self.now }
    {
        let from = self.place.column.saturating_sub(1).min(71);
        word_len(&self.card[from..])
    }

    /// How many bytes it marks, for a fault of this kind: those of the operand, or of the word in column 1 or of the
    /// operation; one at least.
    pub fn width(&self, kind: FaultKind) -> usize
        ensures { result ≡ caret_width kind self.now }
    {
        match kind {
            FaultKind::Column | FaultKind::Operation => self.word_bytes().max(1),
            FaultKind::Continuation | FaultKind::Missing => 1,
            FaultKind::Operand | FaultKind::Repeated | FaultKind::Value | FaultKind::LeftOut => {
                self.operand_bytes().max(1)
            }
        }
    }
}

/// The card of a line of the script.
fn card_at(script: &[u8], line: &SourceLine) -> [u8; 71]
    ensures { result ≡ card_in script.now line.now }
{
    card_of(line.bytes(script))
}

/// The card of the first of these lines, or an empty one if none is given.
pub(crate) fn first_card(script: &[u8], lines: &[SourceLine]) -> [u8; 71]
    ensures { result ≡ first_card script.now lines.now }
{
    match lines.first() {
        Some(line) => card_at(script, line),
        None => card_of(&[]),
    }
}

/// The lines after the first.
fn further_lines(lines: &[SourceLine]) -> &[SourceLine]
    ensures { result.now ≡ drop 1 lines.now }
{
    if lines.is_empty() { lines } else { &lines[1..] }
}

/// The field over a first line and these continuation lines; and if one of them breaks a rule of continuation, its
/// place.
#[tactic(auto, using(crate::proofs::FieldOver::over_first))]
pub(crate) fn field_over(
    script: &[u8],
    card: &[u8; 71],
    lines: &[SourceLine],
) -> (Field, Option<TextPlace>)
    requires { length lines.now ≤ 9 }
    ensures whole { result.1 ≡ None → IsFieldOver card.now (map (card_in script.now) lines.now) result.0 }
    ensures broken { IfSome result.1 (λ p. with_lines (begun card.now) (map (card_in script.now) lines.now) ≡ None) }
{
    let mut field = Field::begin(card);
    for i in 0..lines.len() {
        if let Err(column) = field.take_line(&card_at(script, &lines[i])) {
            return (
                field,
                Some(TextPlace {
                    line: i + 1,
                    column,
                }),
            );
        }
    }
    (field, None)
}

/// The column of the operation on a first line, from 1; after its name if it has none.
pub(crate) fn operation_column(card: &[u8]) -> usize
    ensures { 0 < length (after_blanks (after_word card.now))
        → result ≡ length card.now - length (after_blanks (after_word card.now)) + 1 }
{
    let from = after_blanks(after_word(card)).len();
    if from == 0 {
        return word_len(card).saturating_add(2).min(71);
    }
    card.len().saturating_sub(from).saturating_add(1)
}

/// The column after the last operand of a statement that has some, or after its operation and a blank.
fn behind_operands(card: &[u8], field: &Field) -> TextPlace {
    let size = field.text().len();
    if size > 0
        && let Some(TextPlace { line, column }) = field.place(size - 1)
    {
        return TextPlace {
            line,
            column: column.saturating_add(1),
        };
    }
    let operation = word_len(after_blanks(after_word(card)));
    TextPlace {
        line: 0,
        column: operation_column(card)
            .saturating_add(operation)
            .saturating_add(1)
            .min(72),
    }
}

/// Where an operand begins, or after the last one if it's empty and nothing follows.
fn operand_place(card: &[u8], field: &Field, from: usize) -> TextPlace
    ensures { from < length field.now.text.items → slice_get field.now.places.items from ≡ Some result }
{
    match field.place(from) {
        Some(place) => place,
        None => behind_operands(card, field),
    }
}

/// The place where a rule of continuation is broken, or else column 72 of the last of this many lines.
fn broken_place(broken: Option<TextPlace>, lines: usize) -> TextPlace {
    broken.unwrap_or(TextPlace {
        line: lines.saturating_sub(1),
        column: 72,
    })
}

/// Where the caret of a fault of this kind is, by the place where a rule of continuation is broken.
fn place_for(
    kind: FaultKind,
    card: &[u8],
    field: &Field,
    from: usize,
    broken: TextPlace,
) -> TextPlace
    ensures place { is_of_operand kind ≡ true → from < length field.now.text.items
        → slice_get field.now.places.items from ≡ Some result }
    ensures head { IsHeadPlace card.now kind result }
{
    match kind {
        FaultKind::Column => TextPlace { line: 0, column: 1 },
        FaultKind::Continuation => broken,
        FaultKind::Operation => TextPlace {
            line: 0,
            column: operation_column(card),
        },
        FaultKind::Missing => behind_operands(card, field),
        FaultKind::Operand | FaultKind::Repeated | FaultKind::Value | FaultKind::LeftOut => {
            operand_place(card, field, from)
        }
    }
}

/// A place on one of this many lines: on the last, if it's after them.
fn on_line(place: TextPlace, lines: usize) -> TextPlace
    ensures on { 0 < lines → result.line < lines }
    ensures same { place.line ≤ lines - 1 → result ≡ place }
{
    let last = lines.saturating_sub(1);
    if place.line <= last {
        place
    } else {
        TextPlace {
            line: last,
            column: place.column,
        }
    }
}

/// The caret of a fault of this kind over these lines, and whether they break no rule of continuation.
fn gathered_caret(script: &[u8], lines: &[SourceLine], kind: FaultKind) -> (Caret, bool)
    requires { length lines.now ≤ 10 }
    ensures marks { MarksOperand (first_card script.now lines.now) (further_cards script.now lines.now) kind result.0 }
    ensures head { IsHeadPlace (first_card script.now lines.now) kind result.0.place }
    ensures card { result.0.card ≡ first_card script.now lines.now }
    ensures on { 0 < length lines.now → result.0.place.line < length lines.now }
    ensures broken { result.1 ≡ false
        → with_lines (begun (first_card script.now lines.now)) (further_cards script.now lines.now) ≡ None }
    ensures over { result.1 ≡ true
        → IsFieldOver (first_card script.now lines.now) (further_cards script.now lines.now) result.0.field }
{
    let card = first_card(script, lines);
    let (field, broken) = field_over(script, &card, further_lines(lines));
    let (from, to) = wrong_operand(&card, field.text(), kind);
    let joins = broken.is_none();
    let broken = broken_place(broken, lines.len());
    let place = on_line(place_for(kind, &card, &field, from, broken), lines.len());
    let caret = Caret {
        place,
        card,
        field,
        from,
        to,
    };
    (caret, joins)
}

/// Where a statement of these lines is wrong, which has a fault of this kind.
pub fn caret_of(script: &[u8], lines: &[SourceLine], kind: FaultKind) -> Caret
    requires { length lines.now ≤ 10 }
    ensures { MarksOperand (first_card script.now lines.now) (further_cards script.now lines.now) kind result }
{
    let (caret, _) = gathered_caret(script, lines, kind);
    caret
}

/// Whether an operand has such a fault.
fn is_of_operand(kind: FaultKind) -> bool
    ensures { result ≡ is_of_operand kind }
{
    match kind {
        FaultKind::Operand | FaultKind::Repeated | FaultKind::Value | FaultKind::LeftOut => true,
        FaultKind::Column | FaultKind::Continuation | FaultKind::Operation | FaultKind::Missing =>
            false,
    }
}

/// Where the statement of these lines is wrong, which has a fault of this kind; nowhere if an operand has such a fault,
/// and these lines aren't a statement that has it.
pub fn own_caret(script: &[u8], lines: &[SourceLine], kind: FaultKind) -> Option<Caret>
    requires { length lines.now ≤ 10 }
    ensures own { IfSome result
        (IsCaretOf (first_card script.now lines.now) (further_cards script.now lines.now) kind) }
    ensures head { IfSome result (λ caret. IsHeadPlace (first_card script.now lines.now) kind caret.place) }
    ensures on { IfSome result (λ caret. 0 < length lines.now → caret.place.line < length lines.now) }
    ensures none { result ≡ None
        → HasFault (first_card script.now lines.now) (further_cards script.now lines.now) kind → ⊥ }
{
    let (caret, joins) = gathered_caret(script, lines, kind);
    if !is_of_operand(kind) {
        return Some(caret);
    }
    if joins && has_fault(&caret.card, caret.field.text(), kind) {
        Some(caret)
    } else {
        None
    }
}
