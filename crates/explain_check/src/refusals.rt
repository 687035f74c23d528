//! A statement that gets ABEND or REFUSED: its answer and what decided.
ghost use Rattle.std.specs.Prelude.{◌≡◌, [], List, Some, ℕ};
ghost use Rattle.macro_statements.specs.Requests.{IsValidAsked, asked_in};
ghost use Rattle.bench_core.specs.Stands.{bench_of, settings_in};
ghost use Rattle.explain_list.specs.Causes.{IsCauseText};
ghost use Rattle.script_steps.specs.Script.{NoFeed};
ghost use Rattle.text_output.specs.Writing.{Puts};
ghost use Rattle.explain_check.specs.Lines.{PutsChecks, PutsRefusal, Said, manner_of, refusal_told, refused, row_at};
ghost use Rattle.explain_check.specs.Reasons.{IsReason, IsSaidOf, first_line, why_in};

use crate::notes::Note;
use crate::operands::operation_place;
use crate::rows::{Manner, Spot, put_check_line};
use bench_core::{Bench, Refusal};
use explain_faults::lines::SourceLine;
use explain_findings::{Finding, Left};
use explain_list::causes::{cause_text, fail};
use explain_list::words::one_line;
use explain_text::Words;
use explain_why::undefined_name;
use macro_reader::Request;
use operand_texts::words::after_blanks;
use script_steps::{Response, before_feed};
use std::alloc::Global;
use std::io::Write;
use text_output::Gathered;

/// What is found on a line, and what is left of what its statement took, if that is asked for.
#[derive(Clone, Copy)]
pub(crate) struct OnLine<'a> {
    pub finding: Option<&'a Finding>,
    pub left: Option<&'a Left>,
}

/// What is answered to the lines that are shown, if anything.
#[derive(Drop)]
pub(crate) struct Answered<'a> {
    /// Gives memory for the text of a cause.
    pub alloc: Global,
    /// The bench after the answer.
    pub bench: &'a Bench,
    /// What the statement asked for, unless it's wrong.
    pub request: &'a Request,
    pub told: &'a Option<(u32, Response)>,
    /// What is found of the statement.
    pub found: OnLine<'a>,
}

/// An answer with the number of its statement's first line, if it's ABEND or REFUSED.
pub(crate) fn refusal_told(told: &Option<(u32, Response)>) -> Option<(u32, Response)>
    ensures { result ≡ refusal_told told.now }
{
    match told {
        None => None,
        Some((number, response)) => match response {
            Response::Refused(why) => Some((*number, Response::Refused(*why))),
            Response::TooFar(n) => Some((*number, Response::TooFar(*n))),
            Response::TooFarAhead(n) => Some((*number, Response::TooFarAhead(*n))),
            Response::Replied(_)
            | Response::Shown
            | Response::Kept(_)
            | Response::Map
            | Response::Fault(_) => None,
        },
    }
}

/// The first line of a text, without the blanks before it.
fn first_line(text: &[u8]) -> &[u8]
    ensures line { result.now ≡ first_line text.now }
    ensures plain { NoFeed result.now }
{
    let line = after_blanks(text);
    &line[..before_feed(line)]
}

/// Puts the line of a refusal, with these words.
fn put_words<W: Write>(
    gathered: &mut Gathered,
    writer: &mut W,
    spot: &Spot,
    answer: Response,
    words: &[u8],
)
    ensures { Puts (W.contents writer.old) (W.contents writer.new) gathered.old gathered.new
        (row_at spot.now (refused answer words.now)) }
{
    put_check_line(gathered, writer, spot, &Note::Refusal { answer, words });
}

/// Adds the first name in the values of a statement that isn't defined.
fn add_undefined(words: &mut Words, answered: &Answered) {
    match undefined_name(answered.bench, answered.request) {
        Some(name) => words.add(name.as_str().as_bytes()),
        None => words.add(b"a name"),
    }
}

/// Puts that a statement is refused for the first name in its values that isn't defined.
fn put_undefined<W: Write>(
    gathered: &mut Gathered,
    writer: &mut W,
    spot: &Spot,
    answered: &Answered,
    answer: Response,
)
    ensures { PutsRefusal spot.now answer (W.contents writer.old) (W.contents writer.new) gathered.old gathered.new }
{
    let mut words = Words::new();
    add_undefined(&mut words, answered);
    words.add(b" isn't defined");
    put_words(gathered, writer, spot, answer, one_line(words.as_slice()));
}

/// Puts the first line of the first cause of a statement. With no memory for its text, nothing further goes out, as
/// after a failed write.
fn put_cause<W: Write>(
    gathered: &mut Gathered,
    writer: &mut W,
    spot: &Spot,
    answered: &Answered,
    answer: Response,
)
    ensures { (text : List ℕ) × (IsValidAsked (asked_in answered.now.request.now)
        → IsCauseText (settings_in answered.now.bench.now) (bench_of answered.now.bench.now).present
        (asked_in answered.now.request.now) text)
        × Puts (W.contents writer.old) (W.contents writer.new) gathered.old gathered.new
        (row_at spot.now (refused answer (first_line text))) }
{
    match cause_text(answered.alloc, answered.bench, answered.request) {
        Ok(text) => put_words(gathered, writer, spot, answer, first_line(text.as_slice())),
        Err(failed) => fail(gathered, writer, failed),
    }
}

/// Puts the answer of a statement that is refused for this reason, and what decided.
fn put_refused<W: Write>(
    gathered: &mut Gathered,
    writer: &mut W,
    spot: &Spot,
    answered: &Answered,
    answer: Response,
    why: Refusal,
)
    ensures { (words : List ℕ) × IsReason (settings_in answered.now.bench.now) (bench_of answered.now.bench.now).present
        (asked_in answered.now.request.now) (Some why) words
        × NoFeed words × Puts (W.contents writer.old) (W.contents writer.new) gathered.old gathered.new
        (row_at spot.now (refused answer words)) }
{
    match why {
        Refusal::Abend(_) => put_cause(gathered, writer, spot, answered, answer),
        Refusal::Name => put_undefined(gathered, writer, spot, answered, answer),
        Refusal::NoMemory => {
            let words = one_line(b"the program got no memory for it");
            put_words(gathered, writer, spot, answer, words);
        }
    }
}

/// What is said of an answer that is no service's.
fn step_words(answer: Response) -> &'static [u8]
    ensures { NoFeed result.now }
{
    match answer {
        Response::TooFar(_) => one_line(b"fewer changes are kept"),
        Response::TooFarAhead(_) => one_line(b"fewer changes are undone"),
        Response::Refused(_)
        | Response::Replied(_)
        | Response::Shown
        | Response::Kept(_)
        | Response::Map
        | Response::Fault(_) => one_line(b""),
    }
}

/// Puts an answer that is no service's, and what decided.
fn put_step<W: Write>(gathered: &mut Gathered, writer: &mut W, spot: &Spot, answer: Response)
    ensures { PutsRefusal spot.now answer (W.contents writer.old) (W.contents writer.new) gathered.old gathered.new }
{
    put_words(gathered, writer, spot, answer, step_words(answer));
}

/// Why an answer is refused, if it's no step past what is kept or undone.
fn why_in(answer: Response) -> Option<Refusal>
    ensures { result ≡ why_in answer }
{
    match answer {
        Response::Refused(why) => Some(why),
        Response::TooFar(_)
        | Response::TooFarAhead(_)
        | Response::Replied(_)
        | Response::Shown
        | Response::Kept(_)
        | Response::Map
        | Response::Fault(_) => None,
    }
}

/// Puts an answer that is ABEND or REFUSED, and what decided.
fn put_answer<W: Write>(
    gathered: &mut Gathered,
    writer: &mut W,
    spot: &Spot,
    answered: &Answered,
    answer: Response,
)
    ensures { (words : List ℕ) × IsReason (settings_in answered.now.bench.now) (bench_of answered.now.bench.now).present
        (asked_in answered.now.request.now) (why_in answer) words
        × NoFeed words × Puts (W.contents writer.old) (W.contents writer.new) gathered.old gathered.new
        (row_at spot.now (refused answer words)) }
{
    match why_in(answer) {
        Some(why) => put_refused(gathered, writer, spot, answered, answer, why),
        None => put_step(gathered, writer, spot, answer),
    }
}

/// Puts the refusal that is answered to the lines that are shown, if it's one, at their operation. No warning is on the
/// left of it.
pub(crate) fn put_refusal_check<W: Write>(
    gathered: &mut Gathered,
    writer: &mut W,
    manner: Manner,
    script: &[u8],
    lines: &[SourceLine],
    answered: &Answered,
)
    ensures { (said : List Said)
        × IsSaidOf (settings_in answered.now.bench.now) (bench_of answered.now.bench.now).present
        (asked_in answered.now.request.now) (refusal_told answered.now.told.now) said
        × PutsChecks (manner_of manner.entry) [] said [] (W.contents writer.old) (W.contents writer.new) gathered.old
        gathered.new }
{
    match refusal_told(answered.told) {
        Some((number, answer)) => {
            let spot = Spot {
                manner,
                place: operation_place(script, lines, number),
            };
            put_answer(gathered, writer, &spot, answered, answer);
        }
        None => (),
    }
}
