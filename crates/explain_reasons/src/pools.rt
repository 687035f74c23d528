//! Cell pools by their names, and why they give or take no cell.
ghost use Rattle.std.specs.Prelude.{◌≡◌, IfSome, IsSome};
ghost use Rattle.vsm_model.specs.CellPools.{cell_pool_in};
ghost use Rattle.vsm_model.specs.Search.{holds, is_in};
ghost use Rattle.storage_core.specs.Meaning.{state_of};
ghost use Rattle.storage_map.specs.Cells.{cell_pool};
ghost use Rattle.text_output.specs.Writing.{Puts};
ghost use Rattle.explain_reasons.specs.Cells.{missing_text, no_pool_text, not_in_use_text, place_of_pool_text};
ghost use Rattle.explain_reasons.specs.Cells.{unused_text};
ghost use Rattle.explain_reasons.specs.Found.{pool_at};

use crate::sight_texts::put_seen;
use explain_text::{Piece, put_line};
use std::io::Write;
use storage_core::{Storage, Subpool};
use storage_map::{
    CellId, CellPoolName, cell_pool_name, cell_pool_settings, first_free_cell, next_cell_pool,
    next_free_cell,
};
use text_output::Gathered;

/// The cell pool of a name.
pub(crate) fn find_pool(storage: &Storage, name: &str) -> Option<CellId>
    ensures there { IfSome result (λ id. IsSome (cell_pool storage.now id)) }
    ensures found { cell_pool_in (state_of storage.now).cell_pools name.now ≡ pool_at storage.now result }
{
    let mut after: Option<CellPoolName> = None;
    while let Some(id) = next_cell_pool(storage, after.as_ref()) {
        let its = cell_pool_name(storage, id);
        if its.as_str() == name {
            return Some(id);
        }
        after = Some(its);
    }
    None
}

/// Puts which subpool the current task sees at the number of the one in which a cell pool lies, and which that is.
fn put_place_of_pool<W: Write>(
    gathered: &mut Gathered,
    writer: &mut W,
    storage: &Storage,
    name: &str,
    subpool: Subpool,
)
    ensures { Puts (W.contents writer.old) (W.contents writer.new) gathered.old gathered.new
        (place_of_pool_text (state_of storage.now) name.now subpool) }
{
    let number = u32::from(subpool.number);
    put_seen(gathered, writer, storage, number, "");
    put_line(
        gathered,
        writer,
        &[
            Piece::Text("cell pool "),
            Piece::Text(name),
            Piece::Text(" lies in subpool "),
            Piece::Number(number),
            Piece::Text(" of task "),
            Piece::Number(u32::from(subpool.owner)),
        ],
    );
}

/// Puts that there is no cell pool of a name.
fn put_missing<W: Write>(gathered: &mut Gathered, writer: &mut W, name: &str)
    ensures { Puts (W.contents writer.old) (W.contents writer.new) gathered.old gathered.new
        (missing_text name.now) }
{
    put_line(
        gathered,
        writer,
        &[Piece::Text("no cell pool has the name "), Piece::Text(name)],
    );
}

/// Puts which subpool the current task sees where the cell pool of a name lies, and which that is; or that there is
/// none.
pub(crate) fn put_no_pool<W: Write>(
    gathered: &mut Gathered,
    writer: &mut W,
    storage: &Storage,
    name: &str,
)
    ensures { Puts (W.contents writer.old) (W.contents writer.new) gathered.old gathered.new
        (no_pool_text (state_of storage.now) name.now) }
{
    match find_pool(storage, name) {
        Some(id) => {
            let subpool = cell_pool_settings(storage, id).subpool;
            put_place_of_pool(gathered, writer, storage, name, subpool);
        }
        None => put_missing(gathered, writer, name),
    }
}

/// Whether a cell of the cell pool is free.
fn is_free_cell(storage: &Storage, id: CellId, cell: u32) -> bool
    requires { IsSome (cell_pool storage.now id) }
    ensures { IfSome (cell_pool storage.now id) (λ p. result ≡ is_in p.cells cell) }
{
    let mut place = first_free_cell(storage, id);
    while let Some((free, after)) = next_free_cell(storage, place) {
        if free == cell {
            return true;
        }
        place = after;
    }
    false
}

/// Whether an address is that of a free cell of the cell pool of a name.
fn is_free(storage: &Storage, name: &str, cell: u32) -> bool
    ensures { result ≡ holds (λ pool. is_in pool.free cell)
        (cell_pool_in (state_of storage.now).cell_pools name.now) }
{
    match find_pool(storage, name) {
        Some(id) => is_free_cell(storage, id, cell),
        None => false,
    }
}

/// Puts that an address is that of a free cell, or of none.
fn put_unused<W: Write>(gathered: &mut Gathered, writer: &mut W, cell: u32, is_free: bool)
    ensures { Puts (W.contents writer.old) (W.contents writer.new) gathered.old gathered.new
        (unused_text cell is_free) }
{
    let text = if is_free {
        " is free already"
    } else {
        " isn't the address of one of its cells"
    };
    put_line(gathered, writer, &[Piece::Address(cell), Piece::Text(text)]);
}

/// Puts why an address isn't that of a cell in use of the cell pool of a name: that cell is free, or there is none.
pub(crate) fn put_not_in_use<W: Write>(
    gathered: &mut Gathered,
    writer: &mut W,
    storage: &Storage,
    name: &str,
    cell: u32,
)
    ensures { Puts (W.contents writer.old) (W.contents writer.new) gathered.old gathered.new
        (not_in_use_text (state_of storage.now) name.now cell) }
{
    put_unused(gathered, writer, cell, is_free(storage, name, cell));
}
