//! What a listing says of a statement beyond its answer: the name or the cell pool that goes with an address.
ghost use Rattle.std.specs.Prelude.{◌≡◌, ◌++◌, [], codes, unwrap_or};
ghost use Rattle.macro_statements.specs.Requests.{act_in, asked_in};
ghost use Rattle.vsm_machine.specs.Machine.{name_asked};
ghost use Rattle.text_output.specs.Writing.{Puts};
ghost use Rattle.explain_list.specs.Answers.{given_fields, name_given, named_field, pool_built, pool_made};
ghost use Rattle.explain_list.specs.Answers.{reply_fields};

use explain_text::{put_number_field, put_string_field};
use macro_reader::{Place, Request, Statement};
use script_steps::Response;
use std::io::Write;
use text_output::Gathered;
use vsm_model::Reply;

/// The name to which a statement gives the address of its area or cell; empty if it names none.
fn name_of(statement: &Statement) -> &[u8]
    ensures { result.now ≡ unwrap_or (name_asked (act_in statement.now)) [] }
{
    match statement {
        Statement::Obtain {
            place: Some(Place::Named(name)),
            ..
        }
        | Statement::GetCell {
            place: Some(Place::Named(name)),
            ..
        } => name.as_str().as_bytes(),
        _ => b"",
    }
}

/// The name of the cell pool that a statement makes; empty if it makes none.
fn pool_of(statement: &Statement) -> &[u8]
    ensures { result.now ≡ pool_built (act_in statement.now) }
{
    match statement {
        Statement::Build(pool) => pool.name.as_str().as_bytes(),
        _ => b"",
    }
}

/// The name to which a request gives the address of its area or cell; empty if it names none.
pub(crate) fn name_in(request: &Request) -> &[u8]
    ensures { result.now ≡ name_given (asked_in request.now) }
{
    match request {
        Request::Act(statement) => name_of(statement),
        Request::Peek { .. } | Request::Map | Request::Back(_) | Request::Forward(_) => b"",
    }
}

/// The name of the cell pool that a request makes; empty if it makes none.
pub(crate) fn pool_in(request: &Request) -> &[u8]
    ensures { result.now ≡ pool_made (asked_in request.now) }
{
    match request {
        Request::Act(statement) => pool_of(statement),
        Request::Peek { .. } | Request::Map | Request::Back(_) | Request::Forward(_) => b"",
    }
}

/// Puts a name, unless it's empty, and the number that goes with it.
#[tactic(auto, using(text_output::proofs::Gathering::puts_both))]
fn put_named<W: Write>(
    gathered: &mut Gathered,
    writer: &mut W,
    key: &[u8],
    name: &[u8],
    word: &[u8],
    n: u32,
)
    ensures { Puts (W.contents writer.old) (W.contents writer.new) gathered.old gathered.new
        (named_field key.now name.now word.now n) }
{
    if !name.is_empty() {
        put_string_field(gathered, writer, key, name);
        put_number_field(gathered, writer, word, u64::from(n));
    }
}

/// Puts the name and the cell pool that go with the address in a reply.
#[tactic(auto, using(text_output::proofs::Gathering::puts_both))]
fn put_reply_fields<W: Write>(
    gathered: &mut Gathered,
    writer: &mut W,
    reply: Reply,
    name: &[u8],
    pool: &[u8],
)
    ensures { Puts (W.contents writer.old) (W.contents writer.new) gathered.old gathered.new
        (reply_fields reply name.now pool.now) }
{
    match reply {
        Reply::Obtained { address, .. } => {
            put_named(gathered, writer, b"name", name, b"word", address);
            put_named(gathered, writer, b"pool", pool, b"address", address);
        }
        Reply::Cell(address) => put_named(gathered, writer, b"name", name, b"word", address),
        Reply::Returned(_) | Reply::Attached(_) | Reply::Turn(_) | Reply::Stored => (),
    }
}

/// Puts the name and the cell pool that go with the address in an answer.
pub(crate) fn put_given<W: Write>(
    gathered: &mut Gathered,
    writer: &mut W,
    response: &Response,
    name: &[u8],
    pool: &[u8],
)
    ensures { Puts (W.contents writer.old) (W.contents writer.new) gathered.old gathered.new
        (given_fields response.now name.now pool.now) }
{
    match response {
        Response::Replied(reply) => put_reply_fields(gathered, writer, *reply, name, pool),
        Response::Refused(_)
        | Response::Shown
        | Response::Kept(_)
        | Response::TooFar(_)
        | Response::TooFarAhead(_)
        | Response::Map
        | Response::Fault(_) => (),
    }
}
