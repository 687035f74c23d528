//! The sums of all cell pools.
ghost use Rattle.std.specs.Prelude.{◌≡◌};
ghost use Rattle.storage_core.specs.Meaning.{state_of};
ghost use Rattle.explain_report.specs.PoolFigures.{added, sums_of};

use crate::pool_figures::{PoolFigures, figures_of};
use storage_core::Storage;
use storage_map::{CellPoolName, cell_pool_name, next_cell_pool};

/// The sums of both.
fn added(a: PoolFigures, b: PoolFigures) -> PoolFigures
    ensures { result ≡ added a b }
{
    PoolFigures {
        extents: a.extents.saturating_add(b.extents),
        bytes: a.bytes.saturating_add(b.bytes),
        cells: a.cells.saturating_add(b.cells),
        free: a.free.saturating_add(b.free),
    }
}

/// The sums of all cell pools. It walks over their extents and their free cells.
pub(crate) fn sums_of(storage: &Storage) -> PoolFigures
    ensures { result ≡ sums_of (state_of storage.now).cell_pools }
{
    let mut sums = PoolFigures {
        extents: 0,
        bytes: 0,
        cells: 0,
        free: 0,
    };
    let mut behind: Option<CellPoolName> = None;
    while let Some(id) = next_cell_pool(storage, behind.as_ref()) {
        sums = added(sums, figures_of(storage, id));
        behind = Some(cell_pool_name(storage, id));
    }
    sums
}
