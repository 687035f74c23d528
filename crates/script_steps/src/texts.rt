//! The lines of output, which go to the writer in pieces of any length.
ghost use Rattle.std.specs.Prelude.{◌≡◌, ◌++◌, decimal, length};
ghost use Rattle.vsm_model.specs.Texts.{reply_text, code_text};
ghost use Rattle.vsm_model.specs.declared.replies.Reply.TheVariants.{Obtained, Returned};
ghost use Rattle.bench_core.specs.Stands.{bench_of, settings_in};
ghost use Rattle.script_steps.specs.Answers.{told_text};
ghost use Rattle.script_steps.specs.Responses.{fault_word, lines_behind, refusal_text, shown_text, response_text};
ghost use Rattle.script_steps.specs.Responses.{numbered};
ghost use Rattle.text_output.specs.Writing.{Puts};

use crate::responses::{NumberedResponse, Response};
use bench_core::{Bench, Refusal};
use macro_reader::FaultKind;
use std::io::Write;
use text_output::{
    Gathered, put_bytes, put_decimal, put_hexadecimal, put_line_number, put_over_zeros,
    put_padded_decimal, write_word,
};
use vsm_model::{Code, Reply};

/// The word of a fault.
///
/// ```
/// assert_eq!(rt; fault_word(FaultKind::Operation), "OPERATION");
/// ```
pub fn fault_word(kind: FaultKind) -> &'static str
    ensures { result.now ≡ fault_word kind }
{
    match kind {
        FaultKind::Column => "COLUMN",
        FaultKind::Continuation => "CONTINUATION",
        FaultKind::Operation => "OPERATION",
        FaultKind::Operand => "OPERAND",
        FaultKind::Repeated => "REPEATED",
        FaultKind::Missing => "MISSING",
        FaultKind::Value => "VALUE",
        FaultKind::LeftOut => "LEFTOUT",
    }
}

fn put_reply<W: Write>(gathered: &mut Gathered, writer: &mut W, reply: Reply)
    ensures { Puts (W.contents writer.old) (W.contents writer.new) gathered.old gathered.new (reply_text reply) }
{
    match reply {
        Reply::Obtained { address, length } => {
            gathered.put(writer, b"RC=0 A=");
            put_hexadecimal(gathered, writer, 8, address);
            gathered.put(writer, b" L=");
            put_hexadecimal(gathered, writer, 8, length);
        }
        Reply::Returned(code) => {
            gathered.put(writer, b"RC=");
            put_decimal(gathered, writer, u64::from(code));
        }
        Reply::Cell(cell) => {
            gathered.put(writer, b"RC=0 A=");
            put_hexadecimal(gathered, writer, 8, cell);
        }
        Reply::Attached(task) => {
            gathered.put(writer, b"RC=0 T=");
            put_decimal(gathered, writer, u64::from(task));
        }
        Reply::Turn(task) => {
            gathered.put(writer, b"T=");
            put_decimal(gathered, writer, u64::from(task));
        }
        Reply::Stored => gathered.put(writer, b"OK"),
    }
}

fn put_code<W: Write>(gathered: &mut Gathered, writer: &mut W, code: Code)
    ensures { Puts (W.contents writer.old) (W.contents writer.new) gathered.old gathered.new (code_text code) }
{
    match code {
        Code::System(code) => {
            gathered.put(writer, b"S");
            put_hexadecimal(gathered, writer, 3, u32::from(code));
        }
        Code::User(code) => {
            gathered.put(writer, b"U");
            put_padded_decimal(gathered, writer, 4, u32::from(code));
        }
    }
}

#[tactic(auto, using(text_output::proofs::Gathering::puts_both))]
fn put_refusal<W: Write>(gathered: &mut Gathered, writer: &mut W, refusal: Refusal)
    ensures { Puts (W.contents writer.old) (W.contents writer.new) gathered.old gathered.new (refusal_text refusal) }
{
    match refusal {
        Refusal::Name => gathered.put(writer, b"REFUSED NAME"),
        Refusal::Abend(code) => {
            gathered.put(writer, b"ABEND ");
            put_code(gathered, writer, code);
        }
        Refusal::NoMemory => gathered.put(writer, b"REFUSED MEMORY"),
    }
}

/// Puts `D=` and two hexadecimal digits for each byte.
#[tactic(auto, using(text_output::proofs::Gathering::puts_both))]
fn put_shown<W: Write>(gathered: &mut Gathered, writer: &mut W, bytes: &[u8])
    ensures { Puts (W.contents writer.old) (W.contents writer.new) gathered.old gathered.new (shown_text bytes.now) }
{
    gathered.put(writer, b"D=");
    put_bytes(gathered, writer, bytes);
}

/// Puts a word, followed by a number.
#[tactic(auto, using(text_output::proofs::Gathering::puts_both))]
fn put_count<W: Write>(gathered: &mut Gathered, writer: &mut W, word: &[u8], n: u32)
    ensures { Puts (W.contents writer.old) (W.contents writer.new) gathered.old gathered.new (word.now ++ decimal n) }
{
    gathered.put(writer, word);
    put_decimal(gathered, writer, u64::from(n));
}

/// Puts the text of a response, as it follows the number of its line, with these bytes if they are shown.
#[tactic(auto, using(text_output::proofs::Gathering::puts_both))]
pub fn put_response<W: Write>(
    gathered: &mut Gathered,
    writer: &mut W,
    shown: &[u8],
    response: &Response,
)
    ensures { Puts (W.contents writer.old) (W.contents writer.new) gathered.old gathered.new
        (response_text shown.now response.now) }
{
    match response {
        Response::Replied(reply) => put_reply(gathered, writer, *reply),
        Response::Refused(refusal) => put_refusal(gathered, writer, *refusal),
        Response::Shown => put_shown(gathered, writer, shown),
        Response::Kept(n) => put_count(gathered, writer, b"KEPT=", *n),
        Response::TooFar(n) => put_count(gathered, writer, b"REFUSED KEPT=", *n),
        Response::TooFarAhead(n) => put_count(gathered, writer, b"REFUSED UNDONE=", *n),
        Response::Map => gathered.put(writer, b"MAP"),
        Response::Fault(kind) => {
            gathered.put(writer, b"FAULT ");
            gathered.put(writer, fault_word(*kind).as_bytes());
        }
    }
}

/// Puts the line of an obtained area.
fn put_obtained<W: Write>(
    gathered: &mut Gathered,
    writer: &mut W,
    line: u32,
    address: u32,
    length: u32,
)
    ensures { Puts (W.contents writer.old) (W.contents writer.new) gathered.old gathered.new
        (numbered line (reply_text (Obtained address length))) }
{
    let mut places = *b"0000000000 RC=0 A=00000000 L=00000000\n";
    write_word(&mut places, 29, length);
    write_word(&mut places, 18, address);
    put_over_zeros(gathered, writer, line, &mut places);
}

/// Puts the line of an accepted statement without a value.
fn put_accepted<W: Write>(gathered: &mut Gathered, writer: &mut W, line: u32)
    ensures { Puts (W.contents writer.old) (W.contents writer.new) gathered.old gathered.new
        (numbered line (reply_text (Returned 0))) }
{
    let mut places = *b"0000000000 RC=0\n";
    put_over_zeros(gathered, writer, line, &mut places);
}

/// Puts the line of a response, with these bytes if they are shown: the number of the statement's first line, a blank,
/// the text, a line feed.
#[tactic(auto, using(text_output::proofs::Gathering::puts_both))]
pub fn put_numbered<W: Write>(
    gathered: &mut Gathered,
    writer: &mut W,
    line: u32,
    shown: &[u8],
    response: &Response,
)
    ensures { Puts (W.contents writer.old) (W.contents writer.new) gathered.old gathered.new
        (numbered line (response_text shown.now response.now)) }
{
    match response {
        Response::Replied(Reply::Obtained { address, length }) => put_obtained(
            gathered, writer, line, *address, *length,
        ),
        Response::Replied(Reply::Returned(0)) => put_accepted(gathered, writer, line),
        _ => {
            put_line_number(gathered, writer, line);
            put_response(gathered, writer, shown, response);
            gathered.put(writer, b"\n");
        }
    }
}

/// Puts the lines after that of a response: for a map the map of the bench, for any other none.
pub fn put_behind<W: Write>(
    gathered: &mut Gathered,
    writer: &mut W,
    bench: &Bench,
    response: &Response,
)
    ensures { Puts (W.contents writer.old) (W.contents writer.new) gathered.old gathered.new
        (lines_behind (settings_in bench.now) (bench_of bench.now).present (length (bench_of bench.now).past)
        response.now) }
{
    if let Response::Map = response {
        bench.put_map(gathered, writer);
    }
}

/// Puts the line of a response, if there is one, with these bytes if they are shown, and the lines after it.
#[tactic(auto, using(text_output::proofs::Gathering::puts_both))]
pub fn put_told<W: Write>(
    gathered: &mut Gathered,
    writer: &mut W,
    bench: &Bench,
    shown: &[u8],
    told: &NumberedResponse,
)
    ensures { Puts (W.contents writer.old) (W.contents writer.new) gathered.old gathered.new
        (told_text (settings_in bench.now) (bench_of bench.now) shown.now told.now) }
{
    if let Some((line, response)) = told {
        put_numbered(gathered, writer, *line, shown, response);
        put_behind(gathered, writer, bench, response);
    }
}
