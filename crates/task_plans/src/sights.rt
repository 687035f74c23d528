//! What the tasks of a subtree see, one subpool after the other, each found by a look-up of its number and task.

ghost use Rattle.std.specs.Prelude.{◌≡◌, ℕ, [], ◌∷◌, Some, IfNone, IfSome};
ghost use Rattle.storage_swap.specs.Storage.{state_of, Stand};
ghost use Rattle.storage_changes.specs.Ending.{ended_below, is_own, seen_by_these};
ghost use Rattle.storage_changes.specs.State.{StorageState};
ghost use Rattle.task_plans.specs.Sights.{row_of, rows_behind, rows_from, seen_left, IsEnding};

use crate::ended::EndOfTasks;
use storage_swap::Parts;
use subpool_storage::laws::subpools_are_there;
use vsm_model::Subpool;

/// A row of sight: a subpool, and a task that sees it.
#[derive(Clone, Copy)]
pub(crate) struct SubpoolInSight {
    pub(crate) subpool: Subpool,
    pub(crate) task: u8,
}

/// A place in what the tasks of a subtree see: a number, and how many of the tasks that end were asked for it.
#[derive(Clone, Copy)]
pub(crate) struct SightPlace {
    number: u8,
    asked: usize,
}

impl SubpoolInSight {
    /// Whether the task owns what it sees.
    pub(crate) fn is_own(self) -> bool
        ensures { result ≡ is_own (row_of self) }
    {
        self.subpool.owner == self.task
    }
}

/// The place before all that tasks of a subtree see.
pub(crate) fn first_seen() -> SightPlace
    ensures { (m : StorageState) (top : ℕ)
        → seen_left m top result ≡ seen_by_these m.subpools (ended_below m.tasks.parents top) }
{
    SightPlace {
        number: 0,
        asked: 0,
    }
}

/// The place after all that they see at the number.
pub(crate) fn behind_number(ending: &EndOfTasks, number: u8) -> SightPlace
    ensures { (m : StorageState) → IsEnding m ending.now
        → seen_left m ending.now.tree.top result ≡ rows_behind m ending.now.tree.top number }
{
    SightPlace {
        number,
        asked: ending.tasks.len(),
    }
}

// The next of the tasks that end which sees a subpool at the number, after this many were asked; `None` if no other
// does.
fn seen_at(
    storage: &Parts,
    ending: &EndOfTasks,
    place: SightPlace,
) -> Option<(SubpoolInSight, SightPlace)>
    requires stands { Stand storage.now }
    requires ending { IsEnding (state_of storage.now) ending.now }
    ensures none { IfNone result (rows_from (state_of storage.now) ending.now.tree.top place ≡ []) }
    ensures next { IfSome result (λ r. rows_from (state_of storage.now) ending.now.tree.top place
        ≡ row_of r.0 ∷ rows_from (state_of storage.now) ending.now.tree.top r.1) }
    ensures number { IfSome result (λ r. (r.0.subpool.number ≡ place.number) × (r.1.number ≡ place.number)) }
    ensures sees { IfSome result (λ r. (state_of storage.now).subpools.sight r.0.task r.0.subpool.number
        ≡ Some r.0.subpool.owner) }
{
    let number = place.number;
    for asked in place.asked..ending.tasks.len() {
        let task = ending.tasks[asked];
        if let Some(owner) = storage.subpools.owner_seen(&storage.elements, task, number) {
            let seen = SubpoolInSight {
                subpool: Subpool { number, owner },
                task,
            };
            let behind = SightPlace {
                number,
                asked: asked + 1,
            };
            return Some((seen, behind));
        }
    }
    None
}

/// The next subpool that a task of the subtree sees from a place on, by number and then by task, and the place after
/// it; `None` if they see no other.
pub(crate) fn next_seen(
    storage: &Parts,
    ending: &EndOfTasks,
    place: SightPlace,
) -> Option<(SubpoolInSight, SightPlace)>
    requires stands { Stand storage.now }
    requires ending { IsEnding (state_of storage.now) ending.now }
    ensures none { IfNone result (seen_left (state_of storage.now) ending.now.tree.top place ≡ []) }
    ensures next { IfSome result (λ r. seen_left (state_of storage.now) ending.now.tree.top place
        ≡ row_of r.0 ∷ seen_left (state_of storage.now) ending.now.tree.top r.1) }
    ensures number { IfSome result (λ r. r.1.number ≡ r.0.subpool.number) }
    ensures sees { IfSome result (λ r. (state_of storage.now).subpools.sight r.0.task r.0.subpool.number
        ≡ Some r.0.subpool.owner) }
{
    subpools_are_there();
    let mut asked = place.asked;
    for number in place.number..ending.numbers_end {
        if let Some(next) = seen_at(storage, ending, SightPlace { number, asked }) {
            return Some(next);
        }
        asked = 0;
    }
    None
}
