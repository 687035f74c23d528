//! The cell pools of a storage in the order of their names, and what each was built with.
ghost use Rattle.std.specs.Prelude.{◌≡◌, [], ◌∷◌, Some, IsSome, IfSome, IfNone, option_map};
ghost use Rattle.storage_changes.specs.TableOrder.{rows_behind};
ghost use Rattle.storage_changes.specs.PoolTable.{cell_pool_of};
ghost use Rattle.storage_map.specs.Cells.{cell_pool};
ghost use Rattle.storage_core.specs.Meaning.{state_of};

use cell_pool::laws::pools_are_one;
use cell_pool::{CellId, CellPoolHeader, CellPoolName, CellSettings};
use storage_changes::order::rows_come_in_order;
use storage_core::Storage;
use subpool_storage::laws::cell_pools_are_named;

/// The cell pool whose name follows this one in byte order, or is the first if none is given; `None` past the last.
///
/// It walks over all cell pools.
pub fn next_cell_pool(storage: &Storage, behind: Option<&CellPoolName>) -> Option<CellId>
    ensures none { IfNone result (rows_behind (state_of storage.now).cell_pools
        (option_map (λ n. n.now.bytes) behind.entry) ≡ []) }
    ensures there { IfSome result (λ id. IsSome (cell_pool storage.now id)) }
    ensures next { IfSome result (λ id. IfSome (cell_pool storage.now id) (λ p.
        rows_behind (state_of storage.now).cell_pools (option_map (λ n. n.now.bytes) behind.entry)
        ≡ (p.name, cell_pool_of p) ∷ rows_behind (state_of storage.now).cell_pools (Some p.name))) }
{
    pools_are_one();
    cell_pools_are_named();
    rows_come_in_order();
    storage.cell_pools().pool_after(storage.elements(), behind)
}

/// The name of a cell pool.
pub fn cell_pool_name(storage: &Storage, id: CellId) -> CellPoolName
    requires { IsSome (cell_pool storage.now id) }
    ensures { IfSome (cell_pool storage.now id) (λ p. result.bytes ≡ p.name) }
{
    storage.cell_pools().name(storage.elements(), id)
}

/// What a cell pool was built with.
pub fn cell_pool_settings(storage: &Storage, id: CellId) -> CellSettings
    requires { IsSome (cell_pool storage.now id) }
    ensures { IfSome (cell_pool storage.now id) (λ p. result ≡ p.settings) }
{
    storage.cell_pools().settings(storage.elements(), id)
}

/// The header of a cell pool; `None` if it was built without one.
pub fn cell_pool_header(storage: &Storage, id: CellId) -> Option<CellPoolHeader>
    requires { IsSome (cell_pool storage.now id) }
    ensures { IfSome (cell_pool storage.now id) (λ p. option_map (λ h. h.items) result ≡ p.header) }
{
    storage.cell_pools().header(storage.elements(), id)
}
