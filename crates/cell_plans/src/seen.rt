//! Cell pools that the current task finds by name.
ghost use Rattle.std.specs.Prelude.{◌≡◌, ◌≤◌, Some, false, length, IfErr, IfOk, IsSome};
ghost use Rattle.cell_pool.specs.Pools.{Pool};
ghost use Rattle.vsm_model.specs.Cells.{sees_pool};
ghost use Rattle.vsm_model.specs.Subpools.{sees};
ghost use Rattle.vsm_model.specs.declared.causes.Cause.TheVariants.{NoCellPool};
ghost use Rattle.storage_changes.specs.Meaning.{model_of};
ghost use Rattle.storage_swap.specs.Storage.{state_of, Stand};
ghost use Rattle.cell_plans.specs.Seen.{IsSeen};

use cell_pool::laws::pools_are_one;
use cell_pool::{CellId, CellPoolName};
use storage_changes::tables::{others_are_not_found, pools_are_found};
use storage_swap::Parts;
use subpool_storage::laws::cell_pools_are_named;
use vsm_model::{Cause, Subpool};

/// The name as an array of its own.
pub(crate) fn name_of(text: &str) -> CellPoolName
    requires { length text.now ≤ 63 }
    ensures { result.bytes ≡ text.now }
{
    let mut name = CellPoolName::new();
    let _ = name.try_push_str(text);
    name
}

// Whether the current task sees exactly this subpool.
fn sees_subpool(storage: &Parts, subpool: Subpool) -> bool
    requires { Stand storage.now }
    ensures { result ≡ sees (model_of (state_of storage.now)) subpool }
{
    let current = storage.tasks.current();
    let seen = storage
        .subpools
        .owner_seen(&storage.elements, current, subpool.number);
    match seen {
        Some(owner) => owner == subpool.owner,
        None => false,
    }
}

/// The cell pool of the name, if one exists and the current task sees its subpool; otherwise the cause `NoCellPool`.
pub(crate) fn find_seen(storage: &Parts, name: &str) -> Result<CellId, Cause>
    requires stands { Stand storage.now }
    requires name { length name.now ≤ 63 }
    ensures there { IfOk result (λ id. IsSome ((state_of storage.now).subpools.cells id)) }
    ensures seen { IfOk result (λ id. (p : Pool) → (state_of storage.now).subpools.cells id ≡ Some p
        → IsSeen (state_of storage.now) name.now id p) }
    ensures err { IfErr result (λ cause. (cause ≡ NoCellPool)
        × (sees_pool (model_of (state_of storage.now)) name.now ≡ false)) }
{
    cell_pools_are_named();
    pools_are_one();
    pools_are_found();
    others_are_not_found();
    let pools = storage.subpools.cell_pools(&storage.elements);
    let Some(id) = pools.find(&storage.elements, &name_of(name)) else {
        return Err(Cause::NoCellPool);
    };
    let subpool = pools.settings(&storage.elements, id).subpool;
    if sees_subpool(storage, subpool) {
        Ok(id)
    } else {
        Err(Cause::NoCellPool)
    }
}
