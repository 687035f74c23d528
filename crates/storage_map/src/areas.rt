//! The lines of the extents and the free areas of a subpool.
ghost use Rattle.std.specs.Prelude.{flat_map};
ghost use Rattle.subpool_storage.specs.Extents.{extents, free_areas};
ghost use Rattle.storage_core.specs.Meaning.{state_in_place};
ghost use Rattle.storage_core.specs.Walks.{IsBehindSubpool, subpool_before};
ghost use Rattle.storage_map.specs.Lines.{extent_line, free_line};
ghost use Rattle.text_output.specs.Writing.{Puts};

use crate::fields::put_area;
use std::io::Write;
use storage_core::{Storage, SubpoolPlace};
use text_output::Gathered;
use vsm_model::geometry::PAGE_BYTES;

/// Puts a line for each extent of the subpool before the place, ascending.
pub(crate) fn put_extents<W: Write>(
    gathered: &mut Gathered,
    writer: &mut W,
    storage: &Storage,
    place: SubpoolPlace,
)
    requires { IsBehindSubpool storage.now place }
    ensures { Puts (W.contents writer.old) (W.contents writer.new) gathered.old gathered.new
        (flat_map extent_line (extents (state_in_place storage.now).subpools (subpool_before storage.now place))) }
{
    let mut cursor = storage.first_extent_at(place);
    while let Some((run, behind)) = storage.next_extent(cursor) {
        put_area(
            gathered,
            writer,
            b"  EXTENT",
            PAGE_BYTES * run.start,
            PAGE_BYTES * run.len,
        );
        cursor = behind;
    }
}

/// Puts a line for each free area of the subpool before the place, ascending.
pub(crate) fn put_free_areas<W: Write>(
    gathered: &mut Gathered,
    writer: &mut W,
    storage: &Storage,
    place: SubpoolPlace,
)
    requires { IsBehindSubpool storage.now place }
    ensures { Puts (W.contents writer.old) (W.contents writer.new) gathered.old gathered.new
        (flat_map free_line (free_areas (state_in_place storage.now).subpools (subpool_before storage.now place))) }
{
    let mut cursor = storage.first_free_area_at(place);
    while let Some((area, behind)) = storage.next_free_area(cursor) {
        put_area(gathered, writer, b"  FREE", 8 * area.start, 8 * area.len);
        cursor = behind;
    }
}
