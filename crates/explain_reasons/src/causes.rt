//! Why a service is answered as it is: its first cause, or what it comes to if it has none.
ghost use Rattle.std.specs.Prelude.{◌≡◌, IfSome, None};
ghost use Rattle.vsm_model.specs.Meaning.{service_in};
ghost use Rattle.storage_core.specs.Meaning.{state_of};
ghost use Rattle.text_output.specs.Writing.{Puts};
ghost use Rattle.explain_text.specs.Pieces.{PutsSome};
ghost use Rattle.explain_reasons.specs.Told.{TellsEffect, TellsService, released_text};

use crate::areas::{put_area, put_first_extent, put_no_cell};
use crate::bytes::put_stored;
use crate::pools::{find_pool, put_no_pool};
use crate::refusals::{put_refusal, stored_count};
use crate::sight_texts::put_seen;
use crate::tasks::{put_any_parent, put_ended, put_task_count};
use explain_text::{Piece, put_line, put_text};
use std::io::Write;
use storage_core::{Cause, Service, Storage};
use storage_map::{first_free_cell, next_free_cell};
use text_output::Gathered;

/// Puts why a service on a storage is answered as it is, in lines of text with the numbers that decide: for a cause,
/// which is to be its first, what that comes from; without one, what it comes to: the place of its area, whose pages or
/// cell pool these are, which cell is handed out. For a conditional CPOOL GET without a cause, that no cell is free.
pub fn put_cause<W: Write>(
    gathered: &mut Gathered,
    writer: &mut W,
    storage: &Storage,
    service: &Service<'_>,
    cause: Option<Cause>,
)
    ensures told { IfSome cause (λ its. TellsService storage.now (service_in service.now) its
        (W.contents writer.old) (W.contents writer.new) gathered.old gathered.new) }
    ensures effect { cause ≡ None → TellsEffect storage.now (service_in service.now)
        (W.contents writer.old) (W.contents writer.new) gathered.old gathered.new }
    ensures some { PutsSome (W.contents writer.old) (W.contents writer.new) gathered.old gathered.new }
{
    match cause {
        Some(cause) => put_refusal(gathered, writer, storage, service, cause),
        None => put_no_cause(gathered, writer, storage, service),
    }
}

/// Puts why a service has no cause, or why a conditional CPOOL GET is answered 4.
fn put_no_cause<W: Write>(
    gathered: &mut Gathered,
    writer: &mut W,
    storage: &Storage,
    service: &Service<'_>,
)
    ensures effect { TellsEffect storage.now (service_in service.now)
        (W.contents writer.old) (W.contents writer.new) gathered.old gathered.new }
    ensures some { PutsSome (W.contents writer.old) (W.contents writer.new) gathered.old gathered.new }
{
    match service {
        Service::Obtain(o) => put_area(gathered, writer, storage, *o, None),
        Service::Release(r) => put_released(gathered, writer, storage, r.number),
        Service::Whole { number } => put_seen(gathered, writer, storage, *number, ""),
        Service::Attach(_) => put_task_count(gathered, writer, storage),
        Service::Detach { task } => put_ended(gathered, writer, storage, *task),
        Service::EndTask => put_ended(gathered, writer, storage, u32::from(storage.current())),
        Service::Run { task } => put_any_parent(gathered, writer, storage, *task),
        Service::Store { address, bytes } => {
            put_stored(gathered, writer, storage, *address, stored_count(bytes))
        }
        Service::Build { numbers, .. } => put_first_extent(gathered, writer, storage, *numbers),
        Service::Get { name, operands } => {
            put_cell(gathered, writer, storage, name, operands.conditional)
        }
        Service::Free { .. } => put_text(gathered, writer, "the cell is in use"),
        Service::Delete { name } => put_no_pool(gathered, writer, storage, name),
    }
}

/// Puts that an area can be released.
fn put_released<W: Write>(gathered: &mut Gathered, writer: &mut W, storage: &Storage, number: u32)
    ensures { Puts (W.contents writer.old) (W.contents writer.new) gathered.old gathered.new
        (released_text (state_of storage.now) number) }
{
    put_seen(gathered, writer, storage, number, "");
    put_text(
        gathered,
        writer,
        "each doubleword of the area is taken, and no cell pool's",
    );
}

/// Puts which cell is handed out, or that none is free.
fn put_cell<W: Write>(
    gathered: &mut Gathered,
    writer: &mut W,
    storage: &Storage,
    name: &str,
    conditional: bool,
)
    ensures { PutsSome (W.contents writer.old) (W.contents writer.new) gathered.old gathered.new }
{
    let Some(id) = find_pool(storage, name) else {
        return put_no_pool(gathered, writer, storage, name);
    };
    match next_free_cell(storage, first_free_cell(storage, id)) {
        Some((cell, _)) => put_line(
            gathered,
            writer,
            &[Piece::Text("its first free cell is "), Piece::Address(cell)],
        ),
        None => put_no_cell(gathered, writer, storage, name, conditional),
    }
}
