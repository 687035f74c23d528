//! The sums of a storage at one time.
ghost use Rattle.std.specs.Prelude.{◌≡◌, flat_map};
ghost use Rattle.storage_core.specs.Meaning.{state_of, settings_of};
ghost use Rattle.storage_map.specs.Totals.{totals_of};
ghost use Rattle.explain_report.specs.PoolFigures.{sums_of};
ghost use Rattle.explain_report.specs.Figures.{IsFiguresOf, all_subpools, free_areas_of, seen_in, unassigned};
ghost use Rattle.explain_report.specs.Tallies.{tally_of, low_runs, high_runs};

use crate::pool_figures::PoolFigures;
use crate::pool_sums::sums_of;
use crate::rows::{SubpoolRow, row_seen};
use crate::tallies::{SideTallies, Tally};
use crate::walks::{all_free_areas, unassigned};
use storage_core::Storage;
use storage_map::{Totals, totals};

/// The sums of a storage at one time.
#[derive(Clone, Copy)]
pub(crate) struct Moment {
    /// The assigned pages of each region and all of its pages, and the bytes of assigned ones that are taken or free.
    pub totals: Totals,
    /// The runs of unassigned pages.
    pub unassigned: SideTallies,
    /// The free areas of all subpools, in doublewords.
    pub free: Tally,
    /// The sums of the cell pools.
    pub pools: PoolFigures,
}

/// The sums of a storage. Each subpool costs the same, whatever extents and free areas it has; of cell pools it walks
/// over all extents and free cells.
pub(crate) fn moment_of(storage: &Storage) -> Moment
    ensures totals { result.totals ≡ totals_of (settings_of storage.now) (state_of storage.now) }
    ensures low { result.unassigned.low
        ≡ tally_of (low_runs 4096 (unassigned (settings_of storage.now) (state_of storage.now))) }
    ensures high { result.unassigned.high
        ≡ tally_of (high_runs 4096 (unassigned (settings_of storage.now) (state_of storage.now))) }
    ensures free { result.free ≡ tally_of (flat_map (free_areas_of (settings_of storage.now) (state_of storage.now))
        (all_subpools (state_of storage.now).subpools)) }
    ensures pools { result.pools ≡ sums_of (state_of storage.now).cell_pools }
{
    Moment {
        totals: totals(storage),
        unassigned: unassigned(storage),
        free: all_free_areas(storage),
        pools: sums_of(storage),
    }
}

/// A task, and the number of a subpool that it sees, or doesn't.
pub(crate) type SeenSubpool = (u8, u8);

/// What a row over time has.
#[derive(Clone, Copy)]
pub(crate) enum Figures {
    /// The sums of the whole storage.
    Whole(Moment),
    /// What the subpool has that a task sees at a number, or a new one of its own.
    Subpool(SeenSubpool, SubpoolRow),
}

/// Of which subpool the figures are; `None` if they are of the whole storage.
pub(crate) fn seen_in(figures: &Figures) -> Option<SeenSubpool>
    ensures { result ≡ seen_in figures.now }
{
    match figures {
        Figures::Whole(_) => None,
        Figures::Subpool(seen, _) => Some(*seen),
    }
}

/// The figures of a storage, or of the subpool in it that a task sees.
pub(crate) fn figures_of(storage: &Storage, seen: Option<SeenSubpool>) -> Figures
    ensures of { IsFiguresOf (settings_of storage.now) (state_of storage.now) result }
    ensures seen { seen_in result ≡ seen }
{
    match seen {
        None => Figures::Whole(moment_of(storage)),
        Some((task, number)) => {
            Figures::Subpool((task, number), row_seen(storage, task, number))
        }
    }
}
