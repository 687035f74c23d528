//! The first cause of a service, with the numbers that decide.
ghost use Rattle.std.specs.Prelude.{◌≡◌, length, min};
ghost use Rattle.vsm_model.specs.Meaning.{service_in};
ghost use Rattle.vsm_model.specs.Services.{obtain};
ghost use Rattle.storage_core.specs.Meaning.{settings_of, state_of};
ghost use Rattle.text_output.specs.Writing.{Puts};
ghost use Rattle.explain_text.specs.Pieces.{PutsSome};
ghost use Rattle.explain_reasons.specs.Told.{free_cell_text, IsBuildTold, IsGetTold, PutsOne, release_text};
ghost use Rattle.explain_reasons.specs.Told.{TellsService, whole_text};

use crate::areas::{put_area, put_first_extent, put_no_cell};
use crate::cells::put_overlaps_cells;
use crate::pages::put_pages;
use crate::pools::{put_no_pool, put_not_in_use};
use crate::releases::{put_not_in_subpool, put_overlaps_free};
use crate::sight_texts::{put_seen, put_unseen};
use crate::tasks::{put_attach, put_detach, put_end, put_no_task};
use explain_text::{
    put_bad_cells, put_bad_length, put_left_out, put_misaligned, put_names_full, put_pool_exists,
    put_text, put_too_high,
};
use std::io::Write;
use storage_core::{Build, Cause, Get, Obtain, Release, Service, Storage};
use text_output::Gathered;

/// Puts why there is no area for a request.
fn put_obtain<W: Write>(
    gathered: &mut Gathered,
    writer: &mut W,
    storage: &Storage,
    o: Obtain,
    cause: Cause,
)
    ensures told { TellsService storage.now (obtain o) cause
        (W.contents writer.old) (W.contents writer.new) gathered.old gathered.new }
    ensures some { PutsSome (W.contents writer.old) (W.contents writer.new) gathered.old gathered.new }
{
    match cause {
        Cause::UnsupportedSubpool => put_left_out(gathered, writer, o.number),
        Cause::SubpoolNotAllowed => put_too_high(gathered, writer, o.number),
        Cause::BadLength => put_bad_length(gathered, writer, o.lengths),
        Cause::TooManyNames => put_names_full(gathered, writer),
        Cause::NoStorage => put_area(gathered, writer, storage, o, None),
        Cause::Misaligned
        | Cause::NotInSubpool
        | Cause::OverlapsFree
        | Cause::OverlapsCells
        | Cause::WholeOfZero
        | Cause::NotOwner
        | Cause::BadCells
        | Cause::CellPoolExists
        | Cause::TooManyCellPools
        | Cause::NoCellPool
        | Cause::NotInUse
        | Cause::BadList
        | Cause::TooManyTasks
        | Cause::NoTask
        | Cause::NotParent
        | Cause::HasSubtask
        | Cause::NotAssigned => (),
    }
}

/// Puts why an area can't be released.
fn put_release<W: Write>(
    gathered: &mut Gathered,
    writer: &mut W,
    storage: &Storage,
    r: Release,
    cause: Cause,
)
    ensures { Puts (W.contents writer.old) (W.contents writer.new) gathered.old gathered.new
        (release_text (settings_of storage.now) (state_of storage.now) r cause) }
{
    match cause {
        Cause::UnsupportedSubpool => put_left_out(gathered, writer, r.number),
        Cause::SubpoolNotAllowed => put_too_high(gathered, writer, r.number),
        Cause::BadLength => put_text(gathered, writer, "a length of 0 bytes is released"),
        Cause::Misaligned => put_misaligned(gathered, writer, r.address),
        Cause::NotInSubpool => put_not_in_subpool(gathered, writer, storage, r),
        Cause::OverlapsFree => put_overlaps_free(gathered, writer, storage, r),
        Cause::OverlapsCells => put_overlaps_cells(gathered, writer, storage, r),
        Cause::TooManyNames
        | Cause::NoStorage
        | Cause::WholeOfZero
        | Cause::NotOwner
        | Cause::BadCells
        | Cause::CellPoolExists
        | Cause::TooManyCellPools
        | Cause::NoCellPool
        | Cause::NotInUse
        | Cause::BadList
        | Cause::TooManyTasks
        | Cause::NoTask
        | Cause::NotParent
        | Cause::HasSubtask
        | Cause::NotAssigned => (),
    }
}

/// Puts why a whole subpool can't be released.
fn put_whole<W: Write>(
    gathered: &mut Gathered,
    writer: &mut W,
    storage: &Storage,
    number: u32,
    cause: Cause,
)
    ensures { Puts (W.contents writer.old) (W.contents writer.new) gathered.old gathered.new
        (whole_text (state_of storage.now) number cause) }
{
    match cause {
        Cause::UnsupportedSubpool => put_left_out(gathered, writer, number),
        Cause::SubpoolNotAllowed => put_too_high(gathered, writer, number),
        Cause::WholeOfZero => put_text(gathered, writer, "subpool 0 can't be released whole"),
        Cause::NotInSubpool => put_unseen(gathered, writer, storage, number),
        Cause::NotOwner => {
            let note = "; only its owner releases it whole";
            put_seen(gathered, writer, storage, number, note)
        }
        Cause::BadLength
        | Cause::TooManyNames
        | Cause::NoStorage
        | Cause::Misaligned
        | Cause::OverlapsFree
        | Cause::OverlapsCells
        | Cause::BadCells
        | Cause::CellPoolExists
        | Cause::TooManyCellPools
        | Cause::NoCellPool
        | Cause::NotInUse
        | Cause::BadList
        | Cause::TooManyTasks
        | Cause::NoTask
        | Cause::NotParent
        | Cause::HasSubtask
        | Cause::NotAssigned => (),
    }
}

/// What is asked of the cell pool of a name: its numbers, a cell, or that this one is freed.
type OfPool<'a, T> = (&'a str, T);

/// Puts why a cell pool can't be built.
fn put_build<W: Write>(
    gathered: &mut Gathered,
    writer: &mut W,
    storage: &Storage,
    asked: OfPool<'_, Build>,
    cause: Cause,
)
    ensures { PutsOne (IsBuildTold (state_of storage.now) asked.entry.0.now asked.entry.1 cause)
        (W.contents writer.old) (W.contents writer.new) gathered.old gathered.new }
{
    let (name, b) = asked;
    match cause {
        Cause::UnsupportedSubpool => put_left_out(gathered, writer, b.number),
        Cause::SubpoolNotAllowed => put_too_high(gathered, writer, b.number),
        Cause::BadCells => put_bad_cells(gathered, writer, b),
        Cause::CellPoolExists => put_pool_exists(gathered, writer, name),
        Cause::TooManyCellPools => {
            put_text(
                gathered,
                writer,
                "there are 256 cell pools, which is the most",
            )
        }
        Cause::NoStorage => put_first_extent(gathered, writer, storage, b),
        Cause::BadLength
        | Cause::TooManyNames
        | Cause::Misaligned
        | Cause::NotInSubpool
        | Cause::OverlapsFree
        | Cause::OverlapsCells
        | Cause::WholeOfZero
        | Cause::NotOwner
        | Cause::NoCellPool
        | Cause::NotInUse
        | Cause::BadList
        | Cause::TooManyTasks
        | Cause::NoTask
        | Cause::NotParent
        | Cause::HasSubtask
        | Cause::NotAssigned => (),
    }
}

/// Puts why no cell is handed out.
fn put_get<W: Write>(
    gathered: &mut Gathered,
    writer: &mut W,
    storage: &Storage,
    asked: OfPool<'_, Get>,
    cause: Cause,
)
    ensures { PutsOne (IsGetTold (state_of storage.now) asked.entry.0.now asked.entry.1 cause)
        (W.contents writer.old) (W.contents writer.new) gathered.old gathered.new }
{
    let (name, g) = asked;
    match cause {
        Cause::NoCellPool => put_no_pool(gathered, writer, storage, name),
        Cause::TooManyNames => put_names_full(gathered, writer),
        Cause::NoStorage => put_no_cell(gathered, writer, storage, name, g.conditional),
        Cause::UnsupportedSubpool
        | Cause::SubpoolNotAllowed
        | Cause::BadLength
        | Cause::Misaligned
        | Cause::NotInSubpool
        | Cause::OverlapsFree
        | Cause::OverlapsCells
        | Cause::WholeOfZero
        | Cause::NotOwner
        | Cause::BadCells
        | Cause::CellPoolExists
        | Cause::TooManyCellPools
        | Cause::NotInUse
        | Cause::BadList
        | Cause::TooManyTasks
        | Cause::NoTask
        | Cause::NotParent
        | Cause::HasSubtask
        | Cause::NotAssigned => (),
    }
}

/// Puts why a cell can't be freed.
fn put_freed<W: Write>(
    gathered: &mut Gathered,
    writer: &mut W,
    storage: &Storage,
    asked: OfPool<'_, u32>,
    cause: Cause,
)
    ensures { Puts (W.contents writer.old) (W.contents writer.new) gathered.old gathered.new
        (free_cell_text (state_of storage.now) asked.entry.0.now asked.entry.1 cause) }
{
    let (name, cell) = asked;
    match cause {
        Cause::NoCellPool => put_no_pool(gathered, writer, storage, name),
        Cause::NotInUse => put_not_in_use(gathered, writer, storage, name, cell),
        Cause::UnsupportedSubpool
        | Cause::SubpoolNotAllowed
        | Cause::BadLength
        | Cause::TooManyNames
        | Cause::NoStorage
        | Cause::Misaligned
        | Cause::NotInSubpool
        | Cause::OverlapsFree
        | Cause::OverlapsCells
        | Cause::WholeOfZero
        | Cause::NotOwner
        | Cause::BadCells
        | Cause::CellPoolExists
        | Cause::TooManyCellPools
        | Cause::BadList
        | Cause::TooManyTasks
        | Cause::NoTask
        | Cause::NotParent
        | Cause::HasSubtask
        | Cause::NotAssigned => (),
    }
}

/// How many bytes are stored, up to 256: no statement stores more.
pub(crate) fn stored_count(bytes: &[u8]) -> u32
    ensures { result ≡ min (length bytes.now) 256 }
{
    bytes.len().min(256) as u32
}

/// Puts the first cause of a service.
pub(crate) fn put_refusal<W: Write>(
    gathered: &mut Gathered,
    writer: &mut W,
    storage: &Storage,
    service: &Service<'_>,
    cause: Cause,
)
    ensures told { TellsService storage.now (service_in service.now) cause
        (W.contents writer.old) (W.contents writer.new) gathered.old gathered.new }
    ensures some { PutsSome (W.contents writer.old) (W.contents writer.new) gathered.old gathered.new }
{
    match service {
        Service::Obtain(o) => put_obtain(gathered, writer, storage, *o, cause),
        Service::Release(r) => put_release(gathered, writer, storage, *r, cause),
        Service::Whole { number } => put_whole(gathered, writer, storage, *number, cause),
        Service::Attach(a) => put_attach(gathered, writer, storage, *a, cause),
        Service::Detach { task } => put_detach(gathered, writer, storage, *task, cause),
        Service::EndTask => put_end(gathered, writer, storage, cause),
        Service::Run { task } => put_no_task(gathered, writer, *task),
        Service::Store { address, bytes } => {
            put_pages(gathered, writer, storage, *address, stored_count(bytes))
        }
        Service::Build { name, numbers, .. } => {
            put_build(gathered, writer, storage, (*name, *numbers), cause)
        }
        Service::Get { name, operands } => {
            put_get(gathered, writer, storage, (*name, *operands), cause)
        }
        Service::Free { name, cell } => put_freed(gathered, writer, storage, (*name, *cell), cause),
        Service::Delete { name } => put_no_pool(gathered, writer, storage, name),
    }
}
