//! What takes storage.
ghost use Rattle.std.specs.Prelude.{◌≡◌};
ghost use Rattle.explain_who.specs.Taken.{is_taken, same_taken};

use arrayvec::ArrayVec;
use vsm_model::Subpool;

/// The name of a cell pool.
pub type PoolName = ArrayVec<u8, 63>;

/// How the storage at an address is taken.
#[derive(Clone, Drop)]
pub enum Taken {
    /// Its page isn't assigned.
    Unassigned,
    /// Its doubleword is free.
    Free,
    /// An obtain in this subpool took it.
    Obtained(Subpool),
    /// It's in a cell in use of this cell pool.
    UsedCell(PoolName),
    /// It's in a free cell of this cell pool.
    FreeCell(PoolName),
    /// It's in an extent of this cell pool, after the extent's last cell.
    PastCells(PoolName),
}

impl Taken {
    /// Whether the storage is taken: its page is assigned, and it isn't free.
    pub(crate) fn is_taken(&self) -> bool
        ensures { result ≡ is_taken self.now }
    {
        match self {
            Taken::Unassigned | Taken::Free => false,
            Taken::Obtained(_) | Taken::UsedCell(_) | Taken::FreeCell(_) | Taken::PastCells(_) =>
                true,
        }
    }

    /// Whether both are the same.
    pub fn is_same(&self, other: &Taken) -> bool
        ensures { result ≡ same_taken self.now other.now }
    {
        match (self, other) {
            (Taken::Unassigned, Taken::Unassigned) => true,
            (Taken::Free, Taken::Free) => true,
            (Taken::Obtained(a), Taken::Obtained(b)) => a.number == b.number && a.owner == b.owner,
            (Taken::UsedCell(a), Taken::UsedCell(b)) => a.as_slice() == b.as_slice(),
            (Taken::FreeCell(a), Taken::FreeCell(b)) => a.as_slice() == b.as_slice(),
            (Taken::PastCells(a), Taken::PastCells(b)) => a.as_slice() == b.as_slice(),
            (
                Taken::Unassigned
                | Taken::Free
                | Taken::Obtained(_)
                | Taken::UsedCell(_)
                | Taken::FreeCell(_)
                | Taken::PastCells(_),
                _,
            ) => false,
        }
    }
}
