//! Why a statement ended with a completion code, in the object of its answer.
ghost use Rattle.std.specs.Prelude.{◌≡◌, ◌++◌, [], List, ℕ, true, IfErr, IfOk, codes, is_some};
ghost use Rattle.macro_statements.specs.Requests.{act_in, asked_in, written_in, IsValidAct, IsValidAsked, IsValue};
ghost use Rattle.bench_core.specs.Stands.{bench_of, settings_in};
ghost use Rattle.explain_reasons.specs.Told.{PutsOne};
ghost use Rattle.text_output.specs.Writing.{Puts};
ghost use Rattle.explain_list.specs.Causes.{IsActCause, IsCauseFor, IsCauseText, IsReadingCause, after_gap};
ghost use Rattle.explain_list.specs.Causes.{cause_field};
ghost use Rattle.explain_list.specs.Causes.{cause_in, is_left_out, joined, joint_after, joint_text, separator};
ghost use Rattle.explain_list.specs.declared.causes.Joint.TheVariants as joint;

use bench_core::{Bench, Refusal};
use explain_reasons::{put_cause, put_pages};
use explain_text::{Form, put_bytes_in, put_name};
use macro_reader::{Request, Statement, Value};
use script_steps::Response;
use std::alloc::Global;
use std::io::Write;
use text_output::Gathered;

/// Where a byte is of a text whose lines are written as one.
#[derive(Clone, Copy)]
pub(crate) enum Joint {
    /// Before all text.
    First,
    /// Before the text of a further line.
    Line,
    /// Within a line.
    Within,
}

/// Whether a byte is left out: a line feed, or a blank that a line begins with.
fn is_left_out(joint: Joint, byte: u8) -> bool
    ensures { result ≡ is_left_out joint byte }
{
    match joint {
        Joint::First | Joint::Line => byte == b' ' || byte == b'\n',
        Joint::Within => byte == b'\n',
    }
}

/// Where the byte after one that is left out is.
fn after_gap(joint: Joint) -> Joint
    ensures { result ≡ after_gap joint }
{
    match joint {
        Joint::First => Joint::First,
        Joint::Line | Joint::Within => Joint::Line,
    }
}

/// Where the byte after this one is.
fn joint_after(joint: Joint, byte: u8) -> Joint
    ensures { result ≡ joint_after joint byte }
{
    if is_left_out(joint, byte) {
        after_gap(joint)
    } else {
        Joint::Within
    }
}

/// Puts what is before the text of a further line.
fn put_separator<W: Write>(gathered: &mut Gathered, writer: &mut W, joint: Joint)
    ensures { Puts (W.contents writer.old) (W.contents writer.new) gathered.old gathered.new (separator joint) }
{
    match joint {
        Joint::First | Joint::Within => (),
        Joint::Line => gathered.put(writer, b"; "),
    }
}

/// Puts a byte of a text whose lines are written as one.
fn put_joint<W: Write>(gathered: &mut Gathered, writer: &mut W, joint: Joint, byte: u8)
    ensures { Puts (W.contents writer.old) (W.contents writer.new) gathered.old gathered.new (joint_text joint byte) }
{
    if !is_left_out(joint, byte) {
        put_separator(gathered, writer, joint);
        put_bytes_in(Form::Json, gathered, writer, &[byte]);
    }
}

/// Puts the lines of a text as one.
fn put_joined<W: Write>(gathered: &mut Gathered, writer: &mut W, text: &[u8])
    ensures { Puts (W.contents writer.old) (W.contents writer.new) gathered.old gathered.new
        (joined joint.First text.now) }
{
    let mut joint = Joint::First;
    for at in 0..text.len() {
        let byte = text[at];
        put_joint(gathered, writer, joint, byte);
        joint = joint_after(joint, byte);
    }
}

/// Puts the text of a cause as a field.
#[tactic(auto, using(text_output::proofs::Gathering::puts_both))]
fn put_cause_field<W: Write>(gathered: &mut Gathered, writer: &mut W, text: &[u8])
    ensures { Puts (W.contents writer.old) (W.contents writer.new) gathered.old gathered.new (cause_field text.now) }
{
    put_name(gathered, writer, b"cause");
    gathered.put(writer, b"\"");
    put_joined(gathered, writer, text);
    gathered.put(writer, b"\"");
}

/// Puts the text of the first cause of a statement, if it has one on this bench and its names are defined.
fn put_act_cause<W: Write>(
    gathered: &mut Gathered,
    writer: &mut W,
    bench: &Bench,
    statement: &Statement,
)
    requires { IsValidAct (act_in statement.now) }
    ensures { PutsOne (IsActCause (settings_in bench.now) (bench_of bench.now).present (act_in statement.now))
        (W.contents writer.old) (W.contents writer.new) gathered.old gathered.new }
{
    let mut room = [0; 4];
    let Some(service) = bench.service_of(statement, &mut room) else {
        return;
    };
    match bench.cause_of(statement) {
        Ok(Some(cause)) => put_cause(gathered, writer, bench.storage(), &service, Some(cause)),
        Ok(None) => (),
        Err(_) => (),
    }
}

/// Puts whose the pages of the bytes of a reading are, if the name in its address is defined.
fn put_reading_cause<W: Write>(
    gathered: &mut Gathered,
    writer: &mut W,
    bench: &Bench,
    address: &Value,
    count: u32,
)
    requires { IsValue (written_in address.now) }
    ensures { PutsOne (IsReadingCause (bench_of bench.now).present (written_in address.now) count)
        (W.contents writer.old) (W.contents writer.new) gathered.old gathered.new }
{
    if let Some(word) = bench.word(address) {
        put_pages(gathered, writer, bench.storage(), word, count);
    }
}

/// Puts the text of the first cause of a request on this bench; of a reading whose the pages of its bytes are.
fn put_request_cause<W: Write>(
    gathered: &mut Gathered,
    writer: &mut W,
    bench: &Bench,
    request: &Request,
)
    ensures { PutsOne (λ text. IsValidAsked (asked_in request.now)
        → IsCauseText (settings_in bench.now) (bench_of bench.now).present (asked_in request.now) text)
        (W.contents writer.old) (W.contents writer.new) gathered.old gathered.new }
{
    match request {
        Request::Act(statement) => {
            if statement.valid() {
                put_act_cause(gathered, writer, bench, statement);
            }
        }
        Request::Peek { addr, len } => {
            if addr.valid() {
                put_reading_cause(gathered, writer, bench, addr, u32::from(*len));
            }
        }
        Request::Map | Request::Back(_) | Request::Forward(_) => (),
    }
}

/// The text of the first cause of a request on this bench; or what a failed write left, if no memory is left for it.
pub fn cause_text(alloc: Global, bench: &Bench, request: &Request) -> Result<Vec<u8>, Gathered>
    ensures text { IfOk result (λ text. IsValidAsked (asked_in request.now)
        → IsCauseText (settings_in bench.now) (bench_of bench.now).present (asked_in request.now) text.items) }
    ensures failed { IfErr result (λ failed. (text : List ℕ) × (is_some failed.fault ≡ true)
        × (IsValidAsked (asked_in request.now)
        → IsCauseText (settings_in bench.now) (bench_of bench.now).present (asked_in request.now) text)) }
{
    let mut text = Vec::new(alloc);
    let mut gathered = Gathered::new();
    put_request_cause(&mut gathered, &mut text, bench, request);
    match gathered.hand_out(&mut text) {
        Ok(()) => Ok(text),
        Err(_) => Err(gathered),
    }
}

/// Hands out what is gathered, and nothing after it: so this text fails as another one did.
pub fn fail<W: Write>(gathered: &mut Gathered, writer: &mut W, failed: Gathered)
    requires { is_some failed.fault ≡ true }
    ensures { (more : List ℕ) → Puts (W.contents writer.old) (W.contents writer.new) gathered.old gathered.new more }
{
    let _ = gathered.hand_out(writer);
    *gathered = failed;
}

/// Puts why a statement ended with a completion code on this bench, as a field. With no memory for the text, nothing
/// further goes out, as after a failed write.
fn put_why<W: Write>(
    gathered: &mut Gathered,
    writer: &mut W,
    alloc: Global,
    bench: &Bench,
    request: &Request,
)
    ensures { (text : List ℕ) × (IsValidAsked (asked_in request.now)
        → IsCauseText (settings_in bench.now) (bench_of bench.now).present (asked_in request.now) text)
        × Puts (W.contents writer.old) (W.contents writer.new) gathered.old gathered.new (cause_field text) }
{
    match cause_text(alloc, bench, request) {
        Ok(text) => put_cause_field(gathered, writer, text.as_slice()),
        Err(failed) => fail(gathered, writer, failed),
    }
}

/// Puts why a request was refused with a completion code, if it was: the bench is still as it was before.
pub(crate) fn put_cause_of<W: Write>(
    gathered: &mut Gathered,
    writer: &mut W,
    alloc: Global,
    bench: &Bench,
    request: &Request,
    response: &Response,
)
    ensures { (text : List ℕ) × (IsValidAsked (asked_in request.now)
        → IsCauseFor (settings_in bench.now) (bench_of bench.now).present (asked_in request.now) response.now text)
        × Puts (W.contents writer.old) (W.contents writer.new) gathered.old gathered.new
        (cause_in response.now text) }
{
    match response {
        Response::Refused(Refusal::Abend(_)) => put_why(gathered, writer, alloc, bench, request),
        Response::Refused(Refusal::Name | Refusal::NoMemory)
        | Response::Replied(_)
        | Response::Shown
        | Response::Kept(_)
        | Response::TooFar(_)
        | Response::TooFarAhead(_)
        | Response::Map
        | Response::Fault(_) => (),
    }
}
