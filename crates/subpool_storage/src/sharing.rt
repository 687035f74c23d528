//! Subpools that are shared, and that pass from one task to another.

ghost use Rattle.std.specs.Prelude.{◌≡◌, ◌≢◌, ℕ, ◌+◌, ◌<◌, ◌≤◌, true, false, Some, None};
ghost use Rattle.subpool_storage.specs.Subpools.{is_there, owned_by, with_sharer, with_passed};
ghost use Rattle.subpool_storage.specs.SubpoolStorage.{subpools_of, hold, Stands, Becomes};

use crate::storage::SubpoolStorage;
use vsm_elements::Elements;
use vsm_model::Subpool;

#[tactic(auto, unfolding(
// the subpools, and which elements are theirs
crate::specs::SubpoolStorage::subpools_of, crate::specs::SubpoolStorage::hold,
// which elements they are in
crate::specs::SubpoolStorage::Stands))]
impl SubpoolStorage {
    /// A task that sees no subpool of this number sees this one, as its owner does. (z/OS MVS Programming: Assembler
    /// Services Reference, ATTACH, SHSPV.)
    ///
    /// It takes one element.
    pub fn share(&mut self, elements: &mut Elements, subpool: Subpool, task: u8)
        requires stands { Stands elements.old self.old }
        requires there { is_there (subpools_of elements.old self.old) subpool ≡ true }
        requires range { (1 ≤ task) × (task ≤ 64) }
        requires unseen { (subpools_of elements.old self.old).sight task subpool.number ≡ None }
        requires room { 0 < elements.old.spare }
        ensures becomes { Becomes elements.old elements.new self.old self.new
            (with_sharer (subpools_of elements.old self.old) subpool task true) }
        ensures spares { elements.new.spare + 1 ≡ elements.old.spare }
    {
        let id = self.id(elements, subpool);
        self.set.share(elements, task, id);
    }

    /// A task that shares the subpool no longer sees it.
    ///
    /// It gives back one element.
    pub fn unshare(&mut self, elements: &mut Elements, subpool: Subpool, task: u8)
        requires stands { Stands elements.old self.old }
        requires seen { (subpools_of elements.old self.old).sight task subpool.number ≡ Some subpool.owner }
        requires other { task ≢ subpool.owner }
        ensures becomes { Becomes elements.old elements.new self.old self.new
            (with_sharer (subpools_of elements.old self.old) subpool task false) }
        ensures spares { elements.new.spare ≡ elements.old.spare + 1 }
    {
        self.set.unshare(elements, task, subpool.number);
    }

    /// The subpool passes to another task that sees none of its number, with its pages, its free storage and its cell
    /// pools. Tasks that share it see it as before, and the old owner no longer sees it. (z/OS MVS Programming:
    /// Assembler Services Reference, ATTACH, GSPV.)
    ///
    /// It takes no element.
    pub fn pass(&mut self, elements: &mut Elements, subpool: Subpool, to: u8)
        requires stands { Stands elements.old self.old }
        requires there { is_there (subpools_of elements.old self.old) subpool ≡ true }
        requires range { (1 ≤ to) × (to ≤ 64) }
        requires unseen { (subpools_of elements.old self.old).sight to subpool.number ≡ None }
        ensures becomes { Becomes elements.old elements.new self.old self.new
            (with_passed (subpools_of elements.old self.old) subpool to) }
        ensures spares { elements.new.spare ≡ elements.old.spare }
    {
        let id = self.id(elements, subpool);
        self.set.pass(elements, id, to);
        self.cells.hand_on(elements, subpool, to);
    }
}
