//! Where the area of a request goes, or the extent of a cell pool.
ghost use Rattle.std.specs.Prelude.{◌≡◌, false, None, Some};
ghost use Rattle.vsm_model.specs.CellPools.{cell_pool_in};
ghost use Rattle.storage_core.specs.Meaning.{state_of};
ghost use Rattle.text_output.specs.Writing.{Puts};
ghost use Rattle.explain_reasons.specs.Texts.{cells_word, further_text, no_cell_text};
ghost use Rattle.explain_reasons.specs.Told.{IsNoCell, PutsOne};
ghost use Rattle.explain_reasons.specs.ToldPlaces.{further_extent, TellsArea, TellsPlace};

use crate::places::{extent_asked, sides_for};
use crate::pools::find_pool;
use crate::rooms::put_room;
use crate::sides::put_place;
use crate::sight_texts::put_seen;
use explain_text::{Piece, put_line, put_text};
use std::io::Write;
use storage_core::{Build, Location, Obtain, Residence, Storage};
use storage_map::{CellSettings, cell_pool_settings};
use text_output::Gathered;

/// The word for a number of cells of a size.
fn cells_word(count: u32) -> &'static str
    ensures { result.now ≡ cells_word count }
{
    if count == 1 {
        " cell of "
    } else {
        " cells of "
    }
}

/// Puts that there is no free cell.
fn put_none_free<W: Write>(gathered: &mut Gathered, writer: &mut W)
    ensures { Puts (W.contents writer.old) (W.contents writer.new) gathered.old gathered.new no_cell_text }
{
    put_text(gathered, writer, "it has no free cell");
}

/// Puts how many bytes an extent has of a number of cells of a size in bytes.
fn put_further<W: Write>(gathered: &mut Gathered, writer: &mut W, cells: u32, size: u32)
    ensures { Puts (W.contents writer.old) (W.contents writer.new) gathered.old gathered.new
        (further_text cells size) }
{
    put_line(
        gathered,
        writer,
        &[
            Piece::Text("a further extent has "),
            Piece::Number(cells),
            Piece::Text(cells_word(cells)),
            Piece::Number(size),
            Piece::Text(" bytes: "),
            Piece::Long(u64::from(cells) * u64::from(size)),
            Piece::Text(" bytes"),
        ],
    );
}

/// Puts that a cell pool with these settings has no free cell, and how many bytes a further extent of it has.
fn put_further_extent<W: Write>(
    gathered: &mut Gathered,
    writer: &mut W,
    extent: Option<CellSettings>,
)
    ensures { Puts (W.contents writer.old) (W.contents writer.new) gathered.old gathered.new
        (further_extent extent) }
{
    match extent {
        Some(built) => {
            put_none_free(gathered, writer);
            put_further(gathered, writer, built.secondary, built.size);
        }
        None => (),
    }
}

/// Puts how much room the sides of the line have for a request, if that isn't enough; of a further extent of a cell
/// pool with these settings, that this has no free cell; which subpool the current task sees, and what the sides have:
/// lines that end in the area's place, if it has one. The sides aren't looked at if the number can't be asked for, or
/// a length is bad.
pub(crate) fn put_area<W: Write>(
    gathered: &mut Gathered,
    writer: &mut W,
    storage: &Storage,
    o: Obtain,
    extent: Option<CellSettings>,
)
    ensures area { TellsArea storage.now o.number extent (W.contents writer.old) (W.contents writer.new)
        gathered.old gathered.new }
    ensures place { TellsPlace storage.now o extent (W.contents writer.old) (W.contents writer.new)
        gathered.old gathered.new }
{
    let sides = sides_for(storage, o);
    put_room(gathered, writer, sides);
    put_further_extent(gathered, writer, extent);
    put_seen(gathered, writer, storage, o.number, "");
    put_place(gathered, writer, storage, o.number, sides);
}

/// Puts where the first extent of a new cell pool goes.
pub(crate) fn put_first_extent<W: Write>(
    gathered: &mut Gathered,
    writer: &mut W,
    storage: &Storage,
    b: Build,
)
    ensures { TellsArea storage.now b.number None (W.contents writer.old) (W.contents writer.new)
        gathered.old gathered.new }
{
    let asked = extent_asked(b.primary, b.size, b.number, b.location);
    put_area(gathered, writer, storage, asked, None);
}

/// The side that a further extent of a cell pool is asked for on, by that of the pool.
fn location_of(side: Residence) -> Location {
    match side {
        Residence::Below => Location::Low,
        Residence::Above => Location::Either,
    }
}

/// Puts that a cell pool with these settings has no free cell, and where a further extent of it goes.
fn put_extent_area<W: Write>(
    gathered: &mut Gathered,
    writer: &mut W,
    storage: &Storage,
    built: CellSettings,
)
    ensures { TellsArea storage.now built.subpool.number (Some built) (W.contents writer.old) (W.contents writer.new)
        gathered.old gathered.new }
{
    let number = u32::from(built.subpool.number);
    let location = location_of(built.location);
    let asked = extent_asked(built.secondary, built.size, number, location);
    put_area(gathered, writer, storage, asked, Some(built));
}

/// Puts that the cell pool of a name has no free cell, and where a further extent of it goes.
fn put_extent_of<W: Write>(gathered: &mut Gathered, writer: &mut W, storage: &Storage, name: &str)
    ensures { PutsOne (IsNoCell (state_of storage.now) (cell_pool_in (state_of storage.now).cell_pools name.now) false)
        (W.contents writer.old) (W.contents writer.new) gathered.old gathered.new }
{
    match find_pool(storage, name) {
        Some(id) => {
            let built = cell_pool_settings(storage, id);
            put_extent_area(gathered, writer, storage, built);
        }
        None => put_none_free(gathered, writer),
    }
}

/// Puts that the cell pool of a name has no free cell, and how much room there is for a further extent of it, unless
/// the request is conditional.
pub(crate) fn put_no_cell<W: Write>(
    gathered: &mut Gathered,
    writer: &mut W,
    storage: &Storage,
    name: &str,
    conditional: bool,
)
    ensures { PutsOne (IsNoCell (state_of storage.now) (cell_pool_in (state_of storage.now).cell_pools name.now)
        conditional) (W.contents writer.old) (W.contents writer.new) gathered.old gathered.new }
{
    if conditional {
        put_none_free(gathered, writer);
        put_text(
            gathered,
            writer,
            "a conditional request asks for no further extent",
        );
    } else {
        put_extent_of(gathered, writer, storage, name);
    }
}
