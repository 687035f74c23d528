//! The cell pools of a storage: a line or an object each.
ghost use Rattle.std.specs.Prelude.{◌≡◌, IsSome, IfSome, codes};
ghost use Rattle.storage_changes.specs.PoolTable.{cell_pool_of};
ghost use Rattle.storage_core.specs.Meaning.{state_of};
ghost use Rattle.storage_map.specs.Cells.{cell_pool};
ghost use Rattle.text_output.specs.Writing.{Puts};
ghost use Rattle.explain_text.specs.Rows.{row_of};
ghost use Rattle.explain_report.specs.PoolRows.{pool_fields, pool_in, pools_in};

use crate::pool_figures::{PoolFigures, figures_of, used_of};
use explain_text::{Form, number, put_row, text};
use std::io::Write;
use storage_core::Storage;
use storage_map::{
    CellId, CellPoolName, CellSettings, cell_pool_name, cell_pool_settings, next_cell_pool,
};
use text_output::Gathered;

/// Puts the row of a cell pool of this name, with its figures.
fn put_pool_row<W: Write>(
    gathered: &mut Gathered,
    writer: &mut W,
    form: Form,
    name: &[u8],
    settings: &CellSettings,
    figures: &PoolFigures,
)
    ensures { Puts (W.contents writer.old) (W.contents writer.new) gathered.old gathered.new
        (row_of form (codes "pool") (pool_fields name.now settings.now.subpool settings.now.size figures.now)) }
{
    let subpool = settings.subpool;
    let fields = [
        text(b"CELLPOOL ", b"name", name),
        number(b" SUBPOOL ", b"subpool", u64::from(subpool.number)),
        number(b" OWNER ", b"owner", u64::from(subpool.owner)),
        number(b" SIZE ", b"size", u64::from(settings.size)),
        number(b" EXTENTS ", b"extents", figures.extents),
        number(b" BYTES ", b"bytes", figures.bytes),
        number(b" USED ", b"used", used_of(figures)),
        number(b" FREE ", b"free", figures.free),
    ];
    put_row(gathered, writer, form, b"pool", &fields);
}

/// Puts a cell pool.
fn put_pool<W: Write>(
    gathered: &mut Gathered,
    writer: &mut W,
    form: Form,
    storage: &Storage,
    id: CellId,
)
    requires { IsSome (cell_pool storage.now id) }
    ensures { IfSome (cell_pool storage.now id) (λ p.
        Puts (W.contents writer.old) (W.contents writer.new) gathered.old gathered.new
        (pool_in form p.name (cell_pool_of p))) }
{
    let name = cell_pool_name(storage, id);
    let settings = cell_pool_settings(storage, id);
    let figures = figures_of(storage, id);
    let text = name.as_str().as_bytes();
    put_pool_row(gathered, writer, form, text, &settings, &figures);
}

/// Puts each cell pool, by name in byte order.
pub(crate) fn put_pools<W: Write>(
    gathered: &mut Gathered,
    writer: &mut W,
    form: Form,
    storage: &Storage,
)
    ensures { Puts (W.contents writer.old) (W.contents writer.new) gathered.old gathered.new
        (pools_in form (state_of storage.now).cell_pools) }
{
    let mut behind: Option<CellPoolName> = None;
    while let Some(id) = next_cell_pool(storage, behind.as_ref()) {
        put_pool(gathered, writer, form, storage, id);
        behind = Some(cell_pool_name(storage, id));
    }
}
