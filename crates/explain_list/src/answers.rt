//! The answers of a listing.
ghost use Rattle.std.specs.Prelude.{◌≡◌, ℕ, length};
ghost use Rattle.bench_core.specs.Stands.{bench_of, settings_in};
ghost use Rattle.script_steps.specs.Responses.{response_text};
ghost use Rattle.text_output.specs.Writing.{Puts};
ghost use Rattle.explain_text.specs.declared.json.Form.TheVariants as form;
ghost use Rattle.macro_statements.specs.Requests.{asked_in, IsValidAsked};
ghost use Rattle.explain_list.specs.Answers.{AreNotes, AreNotesOf, Notes, answer_fields, answer_in, answer_object};
ghost use Rattle.explain_list.specs.Answers.{kept_text, listed_response, mark_text, told_in};

use crate::causes::put_cause_of;
use crate::notes::{name_in, pool_in, put_given};
use bench_core::Bench;
use explain_faults::lines::SourceLine;
use explain_text::{
    Form, put_name, put_number_field, put_object_end, put_object_start, put_truth_field,
};
use macro_reader::Request;
use script_steps::{Response, put_behind, put_response};
use std::alloc::Global;
use std::io::Write;
use text_output::{Gathered, put_decimal};

/// What is answered after a page, if anything.
#[derive(Drop)]
pub(crate) struct Answered<'a> {
    /// Gives memory for the text of a cause.
    pub alloc: Global,
    /// The bench after it.
    pub bench: &'a Bench,
    /// The bytes of the last reading.
    pub shown: &'a [u8],
    pub told: &'a Option<(u32, Response)>,
    /// What the statement asked for, unless it's wrong.
    pub request: &'a Request,
    /// The last line of the statement.
    pub last: SourceLine,
}

/// The mark before the text of an answer: whether it's refused.
fn mark_of(response: &Response) -> &'static [u8]
    ensures { result.now ≡ mark_text response.now }
{
    if response.is_refused() {
        b"       ** "
    } else {
        b"       -> "
    }
}

/// Puts what follows the text of an answer: of an accepted statement the number of changes that are kept.
fn put_kept<W: Write>(gathered: &mut Gathered, writer: &mut W, kept: u32, response: &Response)
    ensures { Puts (W.contents writer.old) (W.contents writer.new) gathered.old gathered.new
        (kept_text kept response.now) }
{
    match response {
        Response::Replied(_) => {
            gathered.put(writer, b"   [");
            put_decimal(gathered, writer, u64::from(kept));
            gathered.put(writer, b"]\n");
        }
        _ => gathered.put(writer, b"\n"),
    }
}

/// Puts the answer to a statement, when these bytes are shown, and the lines after it.
#[tactic(auto, using(text_output::proofs::Gathering::puts_both))]
fn put_response_of<W: Write>(
    gathered: &mut Gathered,
    writer: &mut W,
    bench: &Bench,
    shown: &[u8],
    response: &Response,
)
    ensures { Puts (W.contents writer.old) (W.contents writer.new) gathered.old gathered.new
        (listed_response (settings_in bench.now) (bench_of bench.now).present (length (bench_of bench.now).past)
        (response_text shown.now response.now) response.now) }
{
    gathered.put(writer, mark_of(response));
    put_response(gathered, writer, shown, response);
    put_kept(gathered, writer, bench.kept(), response);
    put_behind(gathered, writer, bench, response);
}

/// Puts the lines of a statement, its answer when these bytes are shown, and how many changes are kept after it.
#[tactic(auto, using(text_output::proofs::Gathering::puts_both))]
fn put_fields<W: Write>(
    gathered: &mut Gathered,
    writer: &mut W,
    kept: u32,
    shown: &[u8],
    first: u32,
    last: u32,
    response: &Response,
)
    ensures { Puts (W.contents writer.old) (W.contents writer.new) gathered.old gathered.new
        (answer_fields first last (response_text shown.now response.now) response.now kept) }
{
    put_object_start(gathered, writer, b"answer");
    put_number_field(gathered, writer, b"first", u64::from(first));
    put_number_field(gathered, writer, b"last", u64::from(last));
    put_name(gathered, writer, b"answer");
    gathered.put(writer, b"\"");
    put_response(gathered, writer, shown, response);
    gathered.put(writer, b"\"");
    put_truth_field(gathered, writer, b"refused", response.is_refused());
    put_number_field(gathered, writer, b"kept", u64::from(kept));
}

/// Puts an answer as an object.
fn put_object<W: Write>(
    gathered: &mut Gathered,
    writer: &mut W,
    answered: &Answered,
    first: u32,
    response: &Response,
)
    ensures { (notes : Notes)
        × (IsValidAsked (asked_in answered.now.request.now) → AreNotes form.Json (settings_in answered.now.bench.now)
        (bench_of answered.now.bench.now).present (asked_in answered.now.request.now) response.now notes)
        × Puts (W.contents writer.old) (W.contents writer.new) gathered.old gathered.new
        (answer_object first answered.now.last.number (response_text answered.now.shown.now response.now) response.now
        (length (bench_of answered.now.bench.now).past) notes) }
{
    put_fields(
        gathered,
        writer,
        answered.bench.kept(),
        answered.shown,
        first,
        answered.last.number,
        response,
    );
    put_cause_of(
        gathered,
        writer,
        answered.alloc,
        answered.bench,
        answered.request,
        response,
    );
    put_given(
        gathered,
        writer,
        response,
        name_in(answered.request),
        pool_in(answered.request),
    );
    put_object_end(gathered, writer);
}

/// Puts an answer to a statement that begins at the line of this number.
fn put_told<W: Write>(
    form: Form,
    gathered: &mut Gathered,
    writer: &mut W,
    answered: &Answered,
    first: u32,
    response: &Response,
)
    ensures { (notes : Notes)
        × (IsValidAsked (asked_in answered.now.request.now) → AreNotes form (settings_in answered.now.bench.now)
        (bench_of answered.now.bench.now).present (asked_in answered.now.request.now) response.now notes)
        × Puts (W.contents writer.old) (W.contents writer.new) gathered.old gathered.new
        (answer_in form (settings_in answered.now.bench.now) (bench_of answered.now.bench.now).present
        (length (bench_of answered.now.bench.now).past) (response_text answered.now.shown.now response.now)
        (first, response.now) answered.now.last notes) }
{
    match form {
        Form::Text => put_response_of(gathered, writer, answered.bench, answered.shown, response),
        Form::Json => put_object(gathered, writer, answered, first, response),
    }
}

/// Puts the answer, if there is one.
pub(crate) fn put_answer<W: Write>(
    form: Form,
    gathered: &mut Gathered,
    writer: &mut W,
    answered: &Answered,
)
    ensures { (notes : Notes)
        × AreNotesOf form (settings_in answered.now.bench.now) (bench_of answered.now.bench.now).present
        (asked_in answered.now.request.now) answered.now.told.now notes
        × Puts (W.contents writer.old) (W.contents writer.new) gathered.old gathered.new
        (told_in form (settings_in answered.now.bench.now) (bench_of answered.now.bench.now).present
        (length (bench_of answered.now.bench.now).past) answered.now.shown.now answered.now.told.now
        answered.now.last notes) }
{
    match answered.told {
        Some((first, response)) => put_told(form, gathered, writer, answered, *first, response),
        None => (),
    }
}
