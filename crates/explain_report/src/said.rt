//! What a report begins with: the statement that it follows, in the form that is asked for.
ghost use Rattle.std.specs.Prelude.{◌≡◌, ◌++◌};
ghost use Rattle.text_output.specs.Writing.{Puts};
ghost use Rattle.script_steps.specs.Responses.{response_text};
ghost use Rattle.explain_report.specs.SaidTexts.{after_json, answer_field, head_in, none_json, said_in, said_json};
ghost use Rattle.explain_report.specs.SaidTexts.{said_of_answer, said_text};

use explain_text::{Form, put_name, put_number_field, put_object_end, put_object_start};
use script_steps::{NumberedResponse, Response, put_response};
use std::io::Write;
use text_output::{Gathered, put_decimal};

/// Puts what the form begins with.
#[tactic(auto, using(text_output::proofs::Gathering::puts_none))]
fn put_head<W: Write>(gathered: &mut Gathered, writer: &mut W, form: Form)
    ensures { Puts (W.contents writer.old) (W.contents writer.new) gathered.old gathered.new (head_in form) }
{
    match form {
        Form::Text => (),
        Form::Json => explain_text::put_head(gathered, writer, b"report"),
    }
}

/// Puts the first line of a report: which statement it follows, and its answer, if these bytes are shown.
fn put_said_line<W: Write>(
    gathered: &mut Gathered,
    writer: &mut W,
    shown: &[u8],
    told: &NumberedResponse,
)
    ensures { Puts (W.contents writer.old) (W.contents writer.new) gathered.old gathered.new
        (said_text (said_of_answer shown.now told.now)) }
{
    match told {
        Some((line, response)) => {
            gathered.put(writer, b"line ");
            put_decimal(gathered, writer, u64::from(*line));
            gathered.put(writer, b": ");
            put_response(gathered, writer, shown, response);
            gathered.put(writer, b"\n");
        }
        None => gathered.put(writer, b"no statement\n"),
    }
}

/// Puts the field with an answer.
#[tactic(auto, using(text_output::proofs::Gathering::puts_both))]
fn put_answer_field<W: Write>(
    gathered: &mut Gathered,
    writer: &mut W,
    shown: &[u8],
    response: &Response,
)
    ensures { Puts (W.contents writer.old) (W.contents writer.new) gathered.old gathered.new
        (answer_field (response_text shown.now response.now)) }
{
    put_name(gathered, writer, b"answer");
    gathered.put(writer, b"\"");
    put_response(gathered, writer, shown, response);
    gathered.put(writer, b"\"");
}

/// Puts the object of the statement of a line and its answer.
fn put_after<W: Write>(
    gathered: &mut Gathered,
    writer: &mut W,
    shown: &[u8],
    line: u32,
    response: &Response,
)
    ensures { Puts (W.contents writer.old) (W.contents writer.new) gathered.old gathered.new
        (after_json line (response_text shown.now response.now)) }
{
    put_object_start(gathered, writer, b"after");
    put_number_field(gathered, writer, b"line", u64::from(line));
    put_answer_field(gathered, writer, shown, response);
    put_object_end(gathered, writer);
}

/// Puts the object of no statement.
#[tactic(auto, using(text_output::proofs::Gathering::puts_both))]
fn put_after_none<W: Write>(gathered: &mut Gathered, writer: &mut W)
    ensures { Puts (W.contents writer.old) (W.contents writer.new) gathered.old gathered.new none_json }
{
    put_object_start(gathered, writer, b"after");
    put_object_end(gathered, writer);
}

/// Puts the object of the statement that a report follows: none of its fields if there is none.
fn put_said_object<W: Write>(
    gathered: &mut Gathered,
    writer: &mut W,
    shown: &[u8],
    told: &NumberedResponse,
)
    ensures { Puts (W.contents writer.old) (W.contents writer.new) gathered.old gathered.new
        (said_json (said_of_answer shown.now told.now)) }
{
    match told {
        Some((line, response)) => put_after(gathered, writer, shown, *line, response),
        None => put_after_none(gathered, writer),
    }
}

/// Puts which statement a report follows, and its answer, if these bytes are shown.
fn put_last<W: Write>(
    gathered: &mut Gathered,
    writer: &mut W,
    form: Form,
    shown: &[u8],
    told: &NumberedResponse,
)
    ensures { Puts (W.contents writer.old) (W.contents writer.new) gathered.old gathered.new
        (said_in form (said_of_answer shown.now told.now)) }
{
    match form {
        Form::Text => put_said_line(gathered, writer, shown, told),
        Form::Json => put_said_object(gathered, writer, shown, told),
    }
}

/// Puts what a report begins with.
#[tactic(auto, using(text_output::proofs::Gathering::puts_both))]
pub(crate) fn put_said<W: Write>(
    gathered: &mut Gathered,
    writer: &mut W,
    form: Form,
    shown: &[u8],
    told: &NumberedResponse,
)
    ensures { Puts (W.contents writer.old) (W.contents writer.new) gathered.old gathered.new
        (head_in form ++ said_in form (said_of_answer shown.now told.now)) }
{
    put_head(gathered, writer, form);
    put_last(gathered, writer, form, shown, told);
}
