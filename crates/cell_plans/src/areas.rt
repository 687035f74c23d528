//! The areas of a cell pool's extents, in doublewords, one after the other.
ghost use Rattle.std.specs.Prelude.{◌≡◌, ◌+◌, ◌^◌, ◌<◌, ◌≤◌, slice_get, IfSome};
ghost use Rattle.storage_swap.specs.Storage.{state_of, Stand};
ghost use Rattle.cell_plans.specs.Areas.{areas_of};
ghost use Rattle.cell_plans.specs.CellPlans.{CanBeDeleted};

use crate::sizes::extent_doublewords;
use cell_pool::CellId;
use free_queue::FreeQueue;
use run_set::Run;
use storage_swap::Parts;

/// The first `count` extents of a cell pool, and a queue of their doublewords.
#[derive(Clone, Copy)]
pub(crate) struct FirstExtents {
    pub(crate) pool: CellId,
    pub(crate) count: u32,
    pub(crate) areas: FreeQueue,
}

/// The area of the extent of this number; `None` if the cell pool has no more extents than that. It's found at the cost
/// of a look-up.
pub(crate) fn area_at(storage: &Parts, pool: CellId, number: u32) -> Option<Run>
    requires stands { Stand storage.now }
    requires can { CanBeDeleted (state_of storage.now) (record { pool = pool }) }
    ensures area { result ≡ slice_get (areas_of ((state_of storage.now).subpools.cells pool)) number }
    ensures low { IfSome result (λ r. (0 < r.len) × (r.start + r.len ≤ 2 ^ 29)) }
{
    let pools = storage.subpools.cell_pools(&storage.elements);
    let size = pools.settings(&storage.elements, pool).size;
    match pools.extent_at(&storage.elements, pool, number) {
        Some(extent) => Some(Run {
            start: extent.start / 8,
            len: extent_doublewords(extent.count, size),
        }),
        None => None,
    }
}
