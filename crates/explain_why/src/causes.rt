//! Why a statement is answered as it is: its first cause, or the place of its area, with the numbers that decide.
ghost use Rattle.std.specs.Prelude.{◌≡◌, length};
ghost use Rattle.macro_statements.specs.Requests.{act_in, asked_in, written_in, IsValidAct};
ghost use Rattle.storage_core.specs.Meaning.{state_of};
ghost use Rattle.bench_core.specs.Stands.{bench_of, settings_in};
ghost use Rattle.text_output.specs.Writing.{Puts};
ghost use Rattle.explain_reasons.specs.Pages.{pages_text};
ghost use Rattle.explain_text.specs.Pieces.{PutsSome};
ghost use Rattle.explain_why.specs.Told.{PutsAmong, TellsAct, TellsReading, TellsRequest, step_text};

use crate::headings::{put_bytes_heading, put_heading, put_number};
use bench_core::Bench;
use explain_reasons::{put_cause, put_free_bytes, put_pages};
use explain_text::{Piece, put_line};
use macro_reader::{Request, Statement, Value};
use std::io::Write;
use storage_core::Storage;
use text_output::Gathered;

/// Puts what a request asks for, and why it gets its answer.
pub(crate) fn put_reasons<W: Write>(
    gathered: &mut Gathered,
    writer: &mut W,
    bench: &Bench,
    request: &Request,
)
    ensures told { TellsRequest (settings_in bench.now) (bench_of bench.now).present (length (bench_of bench.now).past)
        (length (bench_of bench.now).later) (asked_in request.now)
        (W.contents writer.old) (W.contents writer.new) gathered.old gathered.new }
    ensures some { PutsSome (W.contents writer.old) (W.contents writer.new) gathered.old gathered.new }
{
    match request {
        Request::Act(statement) => put_act(gathered, writer, bench, statement),
        Request::Peek { addr, len } => put_peek(gathered, writer, bench, *addr, u32::from(*len)),
        Request::Map => gathered.put(writer, b"the map of the storage: it is always shown\n"),
        Request::Back(n) => {
            put_number(gathered, writer, "steps back: ", *n);
            put_step(
                gathered,
                writer,
                bench.kept(),
                " change is kept",
                " changes are kept",
            );
        }
        Request::Forward(n) => {
            put_number(gathered, writer, "steps forward: ", *n);
            put_step(
                gathered,
                writer,
                bench.undone(),
                " change is undone",
                " changes are undone",
            );
        }
    }
}

/// Puts what a statement asks for, and why it gets its answer.
fn put_act<W: Write>(gathered: &mut Gathered, writer: &mut W, bench: &Bench, statement: &Statement)
    ensures told { IsValidAct (act_in statement.now) → TellsAct (settings_in bench.now)
        (bench_of bench.now).present (act_in statement.now)
        (W.contents writer.old) (W.contents writer.new) gathered.old gathered.new }
    ensures some { PutsSome (W.contents writer.old) (W.contents writer.new) gathered.old gathered.new }
{
    if statement.valid() {
        put_statement(gathered, writer, bench, statement);
    }
}

/// Puts which bytes a reading shows, whose their pages are, and which of them are free.
fn put_bytes<W: Write>(
    gathered: &mut Gathered,
    writer: &mut W,
    storage: &Storage,
    address: u32,
    count: u32,
)
    ensures { PutsAmong (λ text. text ≡ pages_text (state_of storage.now) address count)
        (W.contents writer.old) (W.contents writer.new) gathered.old gathered.new }
{
    put_bytes_heading(gathered, writer, address, count);
    put_pages(gathered, writer, storage, address, count);
    put_free_bytes(gathered, writer, storage, address, count);
}

/// Puts which bytes a reading shows, and whose their pages are.
fn put_peek<W: Write>(
    gathered: &mut Gathered,
    writer: &mut W,
    bench: &Bench,
    address: Value,
    count: u32,
)
    ensures told { TellsReading (bench_of bench.now).present (written_in address) count
        (W.contents writer.old) (W.contents writer.new) gathered.old gathered.new }
    ensures some { PutsSome (W.contents writer.old) (W.contents writer.new) gathered.old gathered.new }
{
    if !address.valid() {
        return;
    }
    match bench.word(&address) {
        Some(address) => put_bytes(gathered, writer, bench.storage(), address, count),
        None => gathered.put(writer, b"a reading\n"),
    }
}

/// Puts how many changes a step can go over, with the words for one and for several.
fn put_step<W: Write>(gathered: &mut Gathered, writer: &mut W, n: u32, one: &str, more: &str)
    ensures { Puts (W.contents writer.old) (W.contents writer.new) gathered.old gathered.new
        (step_text n one.now more.now) }
{
    let text = if n == 1 { one } else { more };
    put_line(gathered, writer, &[Piece::Number(n), Piece::Text(text)]);
}

/// Puts what a statement that can be written asks for, and why it gets its answer.
fn put_statement<W: Write>(
    gathered: &mut Gathered,
    writer: &mut W,
    bench: &Bench,
    statement: &Statement,
)
    requires { IsValidAct (act_in statement.now) }
    ensures told { TellsAct (settings_in bench.now) (bench_of bench.now).present (act_in statement.now)
        (W.contents writer.old) (W.contents writer.new) gathered.old gathered.new }
    ensures some { PutsSome (W.contents writer.old) (W.contents writer.new) gathered.old gathered.new }
{
    let mut room = [0; 4];
    let Some(service) = bench.service_of(statement, &mut room) else {
        return gathered.put(writer, b"a name in one of its values isn't defined\n");
    };
    put_heading(gathered, writer, bench.settings(), &service);
    match bench.cause_of(statement) {
        Ok(cause) => put_cause(gathered, writer, bench.storage(), &service, cause),
        Err(_) => (),
    }
}
