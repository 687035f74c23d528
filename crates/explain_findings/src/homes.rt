//! Where a fullword is at home.
ghost use Rattle.std.specs.Prelude.{◌≡◌, ◌/◌, ◌^◌, ◌<◌};
ghost use Rattle.vsm_model.specs.Areas.{is_free};
ghost use Rattle.storage_core.specs.Meaning.{state_of};
ghost use Rattle.explain_who.specs.Taken.{cell_at, taken_by};
ghost use Rattle.explain_findings.specs.Homes.{home_at, home_by, home_on, same_home};
ghost use Rattle.explain_standing.specs.NumberMaps.{number_in};

use explain_standing::NumberMap;
use explain_who::{PoolName, Taken, cell_at, subpool_at, taken_by};
use storage_core::{Storage, Subpool};

/// The fullwords that have an address.
const WORDS: u32 = 1 << 30;

/// Where a fullword is.
#[derive(Clone, Drop)]
pub enum Home {
    /// Its page isn't assigned.
    Unassigned,
    /// In free storage of this subpool.
    Free(Subpool),
    /// In an area of this subpool, which the statement of this line took.
    Area { subpool: Subpool, line: u32 },
    /// In a cell in use of this cell pool, which begins at this address.
    Cell { pool: PoolName, start: u32 },
    /// In a free cell of this cell pool.
    FreeCell(PoolName),
    /// In an extent of this cell pool, after the extent's last cell.
    PastCells(PoolName),
}

impl Home {
    /// Whether both are in the same area, or in the same cell in use.
    pub(crate) fn is_same(&self, other: &Home) -> bool
        ensures { result ≡ same_home self.now other.now }
    {
        match (self, other) {
            (
                Home::Area {
                    subpool: a,
                    line: l,
                },
                Home::Area {
                    subpool: b,
                    line: m,
                },
            ) => a.number == b.number && a.owner == b.owner && l == m,
            (Home::Cell { start: s, .. }, Home::Cell { start: t, .. }) => s == t,
            (
                Home::Unassigned
                | Home::Free(_)
                | Home::Area { .. }
                | Home::Cell { .. }
                | Home::FreeCell(_)
                | Home::PastCells(_),
                _,
            ) => false,
        }
    }
}

/// Where an address is that is taken in a subpool.
fn taken_home(storage: &Storage, lines: &NumberMap, subpool: Subpool, address: u32) -> Home
    ensures { result ≡ home_by subpool (number_in lines.now (address / 8))
        (cell_at address (state_of storage.now).cell_pools)
        (taken_by subpool address (state_of storage.now).cell_pools) }
{
    match taken_by(storage, subpool, address) {
        Taken::Unassigned => Home::Unassigned,
        Taken::Free => Home::Free(subpool),
        Taken::Obtained(subpool) => Home::Area {
            subpool,
            line: lines.number(address / 8).unwrap_or(0),
        },
        Taken::UsedCell(pool) => Home::Cell {
            pool,
            start: cell_at(storage, address).unwrap_or(0),
        },
        Taken::FreeCell(pool) => Home::FreeCell(pool),
        Taken::PastCells(pool) => Home::PastCells(pool),
    }
}

/// Whether a doubleword is free in a subpool.
fn is_free(storage: &Storage, subpool: Subpool, doubleword: u32) -> bool
    ensures { result ≡ is_free (state_of storage.now) subpool doubleword }
{
    storage.is_free(subpool, doubleword)
}

/// Where a fullword is whose page belongs to this subpool.
fn home_on(storage: &Storage, lines: &NumberMap, word: u32, subpool: Option<Subpool>) -> Home
    requires { word < 2 ^ 30 }
    ensures { result ≡ home_on (state_of storage.now) (number_in lines.now) word subpool }
{
    match subpool {
        None => Home::Unassigned,
        Some(subpool) => {
            if is_free(storage, subpool, word / 2) {
                Home::Free(subpool)
            } else {
                taken_home(storage, lines, subpool, 4 * word)
            }
        }
    }
}

/// Where a fullword is. The guessed subpool is asked for its page first.
pub(crate) fn home_at(
    storage: &Storage,
    lines: &NumberMap,
    word: u32,
    guess: Option<Subpool>,
) -> Home
    ensures { result ≡ home_at (state_of storage.now) (number_in lines.now) word }
{
    if word >= WORDS {
        return Home::Unassigned;
    }
    home_on(storage, lines, word, subpool_at(storage, 4 * word, guess))
}
