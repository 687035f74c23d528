//! Records of tasks, and of subpools that are shared or pass to another task, change sides with the storage.

ghost use Rattle.std.specs.Prelude.{◌≡◌, ℕ, not, List};
ghost use Rattle.raw_region.specs.Frames.{PageFrame};
ghost use Rattle.subpool_storage.specs.declared.storage.SubpoolStorage.{SubpoolStorage as TheParked};
ghost use Rattle.subpool_storage.specs.Subpools.{owned_by};
ghost use Rattle.storage_changes.specs.declared.record.Record.TheVariants.{Task, Turn, Sharer, Pass};
ghost use Rattle.storage_changes.specs.Fits.{TaskFits, TurnFits, SharerFits, PassFits};
ghost use Rattle.storage_swap.specs.Storage.{state_of, walk_of, Stand, StandsWith};
ghost use Rattle.storage_swap.specs.Exchange.{Exchanges};

use crate::storage::Parts;
use storage_changes::{PassRecord, SharerRecord, TaskRecord, TurnRecord};
use vsm_model::Subpool;

impl Parts {
    // The task exists, or it is gone, and the record that takes this back is returned.
    pub(crate) fn exchange_task(&mut self, r: TaskRecord) -> TaskRecord
        requires stands { Stand self.old }
        requires fits { (given : List PageFrame) × (parked : TheParked) × (kept : ℕ)
            × TaskFits (walk_of self.old given parked kept) r }
        ensures exchanges { (given : List PageFrame) (parked : TheParked) → StandsWith self.old parked
            → Exchanges self.old self.new given given parked parked (Task r) }
        ensures turned { result ≡ record r { present = not r.present } }
    {
        if r.present {
            self.tasks.attach(&mut self.elements, r.parent, r.task);
        } else {
            self.tasks.end_task(&mut self.elements, r.task);
        }
        TaskRecord {
            present: !r.present,
            ..r
        }
    }

    // The task makes the requests, and the record with the one that made them is returned.
    pub(crate) fn exchange_turn(&mut self, r: TurnRecord) -> TurnRecord
        requires stands { Stand self.old }
        requires fits { (given : List PageFrame) × (parked : TheParked) × (kept : ℕ)
            × TurnFits (walk_of self.old given parked kept) r }
        ensures exchanges { (given : List PageFrame) (parked : TheParked) → StandsWith self.old parked
            → Exchanges self.old self.new given given parked parked (Turn r) }
        ensures turned { result ≡ record { task = (state_of self.old).tasks.current } }
    {
        let task = self.tasks.current();
        self.tasks.run(&self.elements, r.task);
        TurnRecord { task }
    }

    // The task sees the subpool, or no longer does, and the record that takes this back is returned.
    pub(crate) fn exchange_sharer(&mut self, r: SharerRecord) -> SharerRecord
        requires stands { Stand self.old }
        requires fits { (given : List PageFrame) × (parked : TheParked) × (kept : ℕ)
            × SharerFits (walk_of self.old given parked kept) r }
        ensures exchanges { (given : List PageFrame) (parked : TheParked) → StandsWith self.old parked
            → Exchanges self.old self.new given given parked parked (Sharer r) }
        ensures turned { result ≡ record r { present = not r.present } }
    {
        if r.present {
            self.subpools.share(&mut self.elements, r.subpool, r.task);
        } else {
            self.subpools.unshare(&mut self.elements, r.subpool, r.task);
        }
        SharerRecord {
            present: !r.present,
            ..r
        }
    }

    // The subpool passes to the other task, and the record that brings it back is returned.
    pub(crate) fn exchange_pass(&mut self, r: PassRecord) -> PassRecord
        requires stands { Stand self.old }
        requires fits { (given : List PageFrame) × (parked : TheParked) × (kept : ℕ)
            × PassFits (walk_of self.old given parked kept) r }
        ensures exchanges { (given : List PageFrame) (parked : TheParked) → StandsWith self.old parked
            → Exchanges self.old self.new given given parked parked (Pass r) }
        ensures turned { result ≡ record { subpool = owned_by r.subpool r.to; to = r.subpool.owner } }
    {
        self.subpools.pass(&mut self.elements, r.subpool, r.to);
        PassRecord {
            subpool: Subpool {
                number: r.subpool.number,
                owner: r.to,
            },
            to: r.subpool.owner,
        }
    }
}
