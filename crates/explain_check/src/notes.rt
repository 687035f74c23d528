//! What is said of a line: a fault, a lost line, a warning, a refusal, or what is found.
ghost use Rattle.std.specs.Prelude.{◌≡◌};
ghost use Rattle.text_output.specs.Writing.{Puts};
ghost use Rattle.explain_check.specs.Findings.{home_took, part_took};
ghost use Rattle.explain_check.specs.Lines.{note_counts, note_of, note_released, note_text, note_took, note_word};
ghost use Rattle.explain_check.specs.Lines.{faulty, refusal_word, refused, warned};

use crate::found_texts::{put_outside, put_part, put_stale, put_unset};
use crate::left_texts::{put_left, put_left_in_all};
use bench_core::Refusal;
use explain_findings::{Home, Left, LeftSum, Outside, Part, Unset};
use explain_list::rows::put_loss;
use explain_list::words::{HintedWords, put_hinted_words};
use explain_text::{Form, put_bytes_in};
use script_steps::{FaultKind, Response, fault_word, put_response};
use std::io::Write;
use text_output::Gathered;

/// What is said of one line.
#[derive(Clone, Copy)]
pub(crate) enum Note<'a> {
    /// What is expected where a statement is wrong.
    Fault {
        kind: FaultKind,
        hinted: HintedWords<'a>,
    },
    /// The line of this number isn't carried out, as the one before it says.
    Loss {
        number: u32,
        before: &'a [u8],
    },
    /// What is easily overlooked.
    Warning(&'a [u8]),
    /// ABEND or REFUSED, with what decided.
    Refusal {
        answer: Response,
        words: &'a [u8],
    },
    Outside(&'a Outside),
    /// This name is used after this line ended what it names.
    Stale {
        name: &'a [u8],
        line: u32,
    },
    Part(Part),
    Unset(Unset),
    Left(&'a Left),
    /// The sums of all that is left.
    LeftInAll(&'a LeftSum),
}

/// The word of an answer that is ABEND or REFUSED.
fn refusal_word(answer: Response) -> &'static [u8]
    ensures { result.now ≡ refusal_word answer }
{
    match answer {
        Response::Refused(Refusal::Abend(_)) => b"ABEND",
        Response::Refused(Refusal::Name | Refusal::NoMemory)
        | Response::TooFar(_)
        | Response::TooFarAhead(_)
        | Response::Replied(_)
        | Response::Shown
        | Response::Kept(_)
        | Response::Map
        | Response::Fault(_) => b"REFUSED",
    }
}

/// The line that took the area of a byte.
fn home_took(home: &Home) -> Option<u32>
    ensures { result ≡ home_took home.now }
{
    match home {
        Home::Area { line, .. } => Some(*line),
        Home::Unassigned
        | Home::Free(_)
        | Home::Cell { .. }
        | Home::FreeCell(_)
        | Home::PastCells(_) => None,
    }
}

/// The line that took the area of which a part is released.
fn part_took(part: Part) -> Option<u32>
    ensures { result ≡ part_took part }
{
    match part {
        Part::OfArea(line) => Some(line),
        Part::OfSeveral => None,
    }
}

impl Note<'_> {
    /// Its word.
    pub(crate) fn word(&self) -> &'static [u8]
        ensures { result.now ≡ note_word (note_of self.now) }
    {
        match self {
            Note::Fault { kind, .. } => fault_word(*kind).as_bytes(),
            Note::Loss { .. } => b"NOT CARRIED OUT",
            Note::Warning(_) => b"WARNING",
            Note::Refusal { answer, .. } => refusal_word(*answer),
            Note::Outside(_) => b"OUTSIDE",
            Note::Stale { .. } => b"STALE",
            Note::Part(_) => b"PART",
            Note::Unset(_) => b"UNSET",
            Note::Left(_) | Note::LeftInAll(_) => b"LEFT",
        }
    }

    /// Whether it's wrong, and not only easily overlooked.
    pub(crate) fn counts(&self) -> bool
        ensures { result ≡ note_counts (note_of self.now) }
    {
        match self {
            Note::Fault { .. }
            | Note::Loss { .. }
            | Note::Refusal { .. }
            | Note::Outside(_)
            | Note::Stale { .. }
            | Note::Left(_) => true,
            Note::Warning(_) | Note::Part(_) | Note::Unset(_) | Note::LeftInAll(_) => false,
        }
    }

    /// The line that took what it's about, if it names that line.
    pub(crate) fn took(&self) -> Option<u32>
        ensures { result ≡ note_took (note_of self.now) }
    {
        match self {
            Note::Outside(outside) => home_took(&outside.home),
            Note::Part(part) => part_took(*part),
            Note::Unset(unset) => Some(unset.line),
            Note::Fault { .. }
            | Note::Loss { .. }
            | Note::Warning(_)
            | Note::Refusal { .. }
            | Note::Stale { .. }
            | Note::Left(_)
            | Note::LeftInAll(_) => None,
        }
    }

    /// The line that ended what it's about, if it names that line.
    pub(crate) fn released(&self) -> Option<u32>
        ensures { result ≡ note_released (note_of self.now) }
    {
        match self {
            Note::Stale { line, .. } => Some(*line),
            Note::Fault { .. }
            | Note::Loss { .. }
            | Note::Warning(_)
            | Note::Refusal { .. }
            | Note::Outside(_)
            | Note::Part(_)
            | Note::Unset(_)
            | Note::Left(_)
            | Note::LeftInAll(_) => None,
        }
    }
}

/// Puts what is expected where a statement is wrong.
#[tactic(auto, using(text_output::proofs::Gathering::puts_both))]
fn put_fault<W: Write>(
    form: Form,
    gathered: &mut Gathered,
    writer: &mut W,
    kind: FaultKind,
    hinted: &HintedWords,
)
    ensures { Puts (W.contents writer.old) (W.contents writer.new) gathered.old gathered.new
        (note_text form (faulty kind hinted.now.words.now hinted.now.hint.now)) }
{
    gathered.put(writer, fault_word(kind).as_bytes());
    gathered.put(writer, b": ");
    put_hinted_words(form, gathered, writer, hinted);
}

/// Puts a warning.
#[tactic(auto, using(text_output::proofs::Gathering::puts_both))]
fn put_warning<W: Write>(form: Form, gathered: &mut Gathered, writer: &mut W, words: &[u8])
    ensures { Puts (W.contents writer.old) (W.contents writer.new) gathered.old gathered.new
        (note_text form (warned words.now)) }
{
    gathered.put(writer, b"WARNING: ");
    put_bytes_in(form, gathered, writer, words);
}

/// Puts an answer that is ABEND or REFUSED, and what decided.
#[tactic(auto, using(text_output::proofs::Gathering::puts_both))]
fn put_refusal<W: Write>(
    form: Form,
    gathered: &mut Gathered,
    writer: &mut W,
    answer: &Response,
    words: &[u8],
)
    ensures { Puts (W.contents writer.old) (W.contents writer.new) gathered.old gathered.new
        (note_text form (refused answer.now words.now)) }
{
    put_response(gathered, writer, &[], answer);
    gathered.put(writer, b": ");
    put_bytes_in(form, gathered, writer, words);
}

/// Puts what is said of a line.
pub(crate) fn put_note<W: Write>(form: Form, gathered: &mut Gathered, writer: &mut W, note: &Note)
    ensures { Puts (W.contents writer.old) (W.contents writer.new) gathered.old gathered.new
        (note_text form (note_of note.now)) }
{
    match note {
        Note::Fault { kind, hinted } => put_fault(form, gathered, writer, *kind, hinted),
        Note::Loss { number, before } => put_loss(form, gathered, writer, *number, before),
        Note::Warning(words) => put_warning(form, gathered, writer, words),
        Note::Refusal { answer, words } => put_refusal(form, gathered, writer, answer, words),
        Note::Outside(outside) => put_outside(form, gathered, writer, outside),
        Note::Stale { name, line } => put_stale(form, gathered, writer, name, *line),
        Note::Part(part) => put_part(gathered, writer, *part),
        Note::Unset(unset) => put_unset(gathered, writer, *unset),
        Note::Left(left) => put_left(form, gathered, writer, left),
        Note::LeftInAll(sum) => put_left_in_all(gathered, writer, sum),
    }
}
