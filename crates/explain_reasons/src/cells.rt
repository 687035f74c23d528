//! The cell pool whose extent overlaps the area of a release.
ghost use Rattle.std.specs.Prelude.{◌≡◌, ◌-◌, ◌*◌, ◌^◌, ◌<◌, [], IfNone, IfSome, IsSome, map, option_map};
ghost use Rattle.vsm_model.specs.Regions.{doublewords};
ghost use Rattle.cell_pool.specs.Pools.{overlaps};
ghost use Rattle.storage_changes.specs.PoolTable.{cell_pool_of, extent_of};
ghost use Rattle.storage_core.specs.Meaning.{state_of};
ghost use Rattle.storage_map.specs.Cells.{cell_pool};
ghost use Rattle.text_output.specs.Writing.{Puts};
ghost use Rattle.explain_reasons.specs.Cells.{extent_in, extent_text, overlaps_cells_text};

use crate::searches::area_of;
use explain_text::{Piece, put_line};
use std::io::Write;
use storage_core::{Release, Storage};
use storage_map::{
    CellId, CellPoolName, Extent, cell_pool_name, cell_pool_settings, first_cell_extent,
    next_cell_extent, next_cell_pool,
};
use text_output::Gathered;

/// The bytes of a number of cells of a size in bytes, up to the end of the last doubleword.
fn extent_bytes(count: u32, size: u32) -> u64
    ensures value { result ≡ 8 * doublewords (count * size) }
    ensures fits { result < 2 ^ 64 - 2 ^ 32 }
{
    let bytes = u64::from(count) * u64::from(size);
    8 * ((bytes + 7) / 8)
}

/// Whether the area of a release has a byte in common with an extent of cells of a size in bytes.
fn overlaps(r: Release, size: u32, extent: Extent) -> bool
    ensures { result ≡ overlaps size r.address (8 * doublewords r.length) extent }
{
    let end = u64::from(extent.start) + extent_bytes(extent.count, size);
    let area_end = u64::from(r.address) + 8 * u64::from(area_of(r).len);
    u64::from(r.address) < end && u64::from(extent.start) < area_end
}

/// The first extent of the cell pool that the area of a release overlaps.
fn extent_in(storage: &Storage, id: CellId, r: Release) -> Option<Extent>
    requires { IsSome (cell_pool storage.now id) }
    ensures { IfSome (cell_pool storage.now id) (λ p. option_map extent_of result
        ≡ extent_in r.address (8 * doublewords r.length) (cell_pool_of p) (map extent_of p.extents)) }
{
    let size = cell_pool_settings(storage, id).size;
    let mut place = first_cell_extent(storage, id);
    while let Some((extent, after)) = next_cell_extent(storage, place) {
        if overlaps(r, size, extent) {
            return Some(extent);
        }
        place = after;
    }
    None
}

/// The first cell pool, by name, with an extent that the area of a release overlaps, and that extent.
fn first_overlap(storage: &Storage, r: Release) -> Option<(CellId, Extent)>
    ensures there { IfSome result (λ found. IsSome (cell_pool storage.now found.0)) }
    ensures found { IfSome result (λ found. IfSome (cell_pool storage.now found.0) (λ p.
        overlaps_cells_text (state_of storage.now) r ≡ extent_text p.name p.settings.size (extent_of found.1))) }
    ensures none { IfNone result (overlaps_cells_text (state_of storage.now) r ≡ []) }
{
    let mut after: Option<CellPoolName> = None;
    while let Some(id) = next_cell_pool(storage, after.as_ref()) {
        match extent_in(storage, id, r) {
            None => (),
            Some(extent) => return Some((id, extent)),
        }
        after = Some(cell_pool_name(storage, id));
    }
    None
}

/// Puts that a cell pool has an extent of cells of a size in bytes.
fn put_extent<W: Write>(
    gathered: &mut Gathered,
    writer: &mut W,
    name: &str,
    size: u32,
    extent: Extent,
)
    ensures { Puts (W.contents writer.old) (W.contents writer.new) gathered.old gathered.new
        (extent_text name.now size (extent_of extent)) }
{
    put_line(
        gathered,
        writer,
        &[
            Piece::Text("cell pool "),
            Piece::Text(name),
            Piece::Text(" has an extent of "),
            Piece::Long(extent_bytes(extent.count, size)),
            Piece::Text(" bytes at "),
            Piece::Address(extent.start),
        ],
    );
}

/// Puts the first extent of a cell pool that the area of a release overlaps, if one does.
pub(crate) fn put_overlaps_cells<W: Write>(
    gathered: &mut Gathered,
    writer: &mut W,
    storage: &Storage,
    r: Release,
)
    ensures { Puts (W.contents writer.old) (W.contents writer.new) gathered.old gathered.new
        (overlaps_cells_text (state_of storage.now) r) }
{
    match first_overlap(storage, r) {
        Some((id, extent)) => {
            let name = cell_pool_name(storage, id);
            let size = cell_pool_settings(storage, id).size;
            put_extent(gathered, writer, name.as_str(), size, extent);
        }
        None => (),
    }
}
