//! The lines of cell pools: what each was built with, its extents and its free cells.
ghost use Rattle.std.specs.Prelude.{◌≡◌, ◌+◌, ◌*◌, ◌^◌, ◌<◌, All, IsSome, IfSome, flat_map, option_map};
ghost use Rattle.cell_pool.specs.Pools.{rounded};
ghost use Rattle.storage_map.specs.Cells.{cell_pool, IsExtentPlace, extents_left, IsCellPlace, cells_left};
ghost use Rattle.storage_changes.specs.PoolTable.{cell_pool_of};
ghost use Rattle.storage_core.specs.Meaning.{state_of};
ghost use Rattle.storage_map.specs.Lines.{cell_extent_line, cell_pool_line, free_cell_line};
ghost use Rattle.vsm_model.specs.Map.{cell_pool_lines, header_text, location_text};
ghost use Rattle.text_output.specs.Writing.{Puts};

use crate::fields::{put_area, put_field, put_hex_field};
use crate::pools::{cell_pool_header, cell_pool_name, cell_pool_settings, next_cell_pool};
use crate::walks::{first_cell_extent, first_free_cell, next_cell_extent, next_free_cell};
use cell_pool::{
    CellExtentPlace, CellId, CellPlace, CellPoolHeader, CellPoolName, CellSettings, Extent,
};
use std::io::Write;
use storage_core::{Residence, Storage};
use text_output::Gathered;

/// Puts on which side of the 16 MB line extents may lie.
fn put_location<W: Write>(gathered: &mut Gathered, writer: &mut W, location: Residence)
    ensures { Puts (W.contents writer.old) (W.contents writer.new) gathered.old gathered.new
        (location_text location) }
{
    match location {
        Residence::Below => gathered.put(writer, b" LOC 24"),
        Residence::Above => gathered.put(writer, b" LOC 31"),
    }
}

/// Puts a header in quotes, and nothing if there is none.
fn put_header<W: Write>(gathered: &mut Gathered, writer: &mut W, header: &Option<CellPoolHeader>)
    ensures { Puts (W.contents writer.old) (W.contents writer.new) gathered.old gathered.new
        (header_text (option_map (λ h. h.items) header.now)) }
{
    let Some(text) = header else {
        return;
    };
    gathered.put(writer, b" HDR '");
    gathered.put(writer, text.as_slice());
    gathered.put(writer, b"'");
}

/// Puts the first line of a cell pool.
pub(crate) fn put_cell_pool_line<W: Write>(
    gathered: &mut Gathered,
    writer: &mut W,
    name: &CellPoolName,
    settings: CellSettings,
    header: &Option<CellPoolHeader>,
)
    ensures { Puts (W.contents writer.old) (W.contents writer.new) gathered.old gathered.new
        (cell_pool_line name.now.bytes settings (option_map (λ h. h.items) header.now)) }
{
    gathered.put(writer, b" CELLPOOL ");
    gathered.put(writer, name.as_str().as_bytes());
    put_field(
        gathered,
        writer,
        b" SUBPOOL",
        u64::from(settings.subpool.number),
    );
    put_field(
        gathered,
        writer,
        b" OWNER",
        u64::from(settings.subpool.owner),
    );
    put_field(gathered, writer, b" SIZE", u64::from(settings.size));
    put_field(gathered, writer, b" PRIMARY", u64::from(settings.primary));
    put_field(
        gathered,
        writer,
        b" SECONDARY",
        u64::from(settings.secondary),
    );
    put_location(gathered, writer, settings.location);
    put_header(gathered, writer, header);
    gathered.put(writer, b"\n");
}

/// Puts the line of an extent of cells of a size in bytes: it goes up to the end of its last doubleword.
pub(crate) fn put_cell_extent<W: Write>(
    gathered: &mut Gathered,
    writer: &mut W,
    extent: Extent,
    size: u32,
)
    requires { extent.start + rounded (extent.count * size) < 2 ^ 31 }
    ensures { Puts (W.contents writer.old) (W.contents writer.new) gathered.old gathered.new
        (cell_extent_line size extent) }
{
    let bytes = u64::from(extent.count) * u64::from(size);
    let length = 8 * ((bytes + 7) / 8);
    put_area(gathered, writer, b"  EXTENT", extent.start, length as u32);
}

/// Puts a line for each extent after the place, in the order in which they were made.
fn put_cell_extents<W: Write>(
    gathered: &mut Gathered,
    writer: &mut W,
    storage: &Storage,
    first: CellExtentPlace,
    size: u32,
)
    requires place { IsExtentPlace storage.now first }
    requires end { All (λ x. x.start + rounded (x.count * size) < 2 ^ 31) (extents_left storage.now first) }
    ensures { Puts (W.contents writer.old) (W.contents writer.new) gathered.old gathered.new
        (flat_map (cell_extent_line size) (extents_left storage.now first)) }
{
    let mut place = first;
    while let Some((extent, behind)) = next_cell_extent(storage, place) {
        put_cell_extent(gathered, writer, extent, size);
        place = behind;
    }
}

/// Puts the line of a free cell.
#[tactic(auto, using(text_output::proofs::Gathering::puts_both))]
pub(crate) fn put_free_cell<W: Write>(gathered: &mut Gathered, writer: &mut W, cell: u32)
    ensures { Puts (W.contents writer.old) (W.contents writer.new) gathered.old gathered.new
        (free_cell_line cell) }
{
    gathered.put(writer, b"  FREECELL");
    put_hex_field(gathered, writer, cell);
    gathered.put(writer, b"\n");
}

/// Puts a line for each free cell after the place, in the order in which they are given out.
fn put_free_cells<W: Write>(
    gathered: &mut Gathered,
    writer: &mut W,
    storage: &Storage,
    first: CellPlace,
)
    requires { IsCellPlace storage.now first }
    ensures { Puts (W.contents writer.old) (W.contents writer.new) gathered.old gathered.new
        (flat_map free_cell_line (cells_left storage.now first)) }
{
    let mut place = first;
    while let Some((cell, behind)) = next_free_cell(storage, place) {
        put_free_cell(gathered, writer, cell);
        place = behind;
    }
}

/// Puts the lines of a cell pool.
fn put_cell_pool<W: Write>(gathered: &mut Gathered, writer: &mut W, storage: &Storage, id: CellId)
    requires { IsSome (cell_pool storage.now id) }
    ensures { IfSome (cell_pool storage.now id) (λ p.
        Puts (W.contents writer.old) (W.contents writer.new) gathered.old gathered.new
        (cell_pool_lines p.name (cell_pool_of p))) }
{
    let name = cell_pool_name(storage, id);
    let settings = cell_pool_settings(storage, id);
    let header = cell_pool_header(storage, id);
    put_cell_pool_line(gathered, writer, &name, settings, &header);
    let extents = first_cell_extent(storage, id);
    put_cell_extents(gathered, writer, storage, extents, settings.size);
    put_free_cells(gathered, writer, storage, first_free_cell(storage, id));
}

/// Puts the lines of all cell pools, by name in byte order.
pub(crate) fn put_cell_pools<W: Write>(gathered: &mut Gathered, writer: &mut W, storage: &Storage)
    ensures { Puts (W.contents writer.old) (W.contents writer.new) gathered.old gathered.new
        (flat_map (λ row. cell_pool_lines row.0 row.1) (state_of storage.now).cell_pools) }
{
    let mut behind: Option<CellPoolName> = None;
    while let Some(id) = next_cell_pool(storage, behind.as_ref()) {
        put_cell_pool(gathered, writer, storage, id);
        behind = Some(cell_pool_name(storage, id));
    }
}
