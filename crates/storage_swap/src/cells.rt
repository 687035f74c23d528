//! Records of cell pools, of their extents and of their cells change sides with the storage.

ghost use Rattle.std.specs.Prelude.{◌≡◌, ℕ, not, List};
ghost use Rattle.raw_region.specs.Frames.{PageFrame};
ghost use Rattle.subpool_storage.specs.declared.storage.SubpoolStorage.{SubpoolStorage as TheParked};
ghost use Rattle.storage_changes.specs.declared.record.Record.TheVariants.{CellPool, CellExtent, Cell};
ghost use Rattle.storage_changes.specs.Fits.{CellPoolFits, CellExtentFits, CellFits};
ghost use Rattle.storage_swap.specs.Storage.{walk_of, Stand, StandsWith};
ghost use Rattle.storage_swap.specs.Exchange.{Exchanges};

use crate::storage::Parts;
use storage_changes::{CellExtentRecord, CellPoolRecord, CellRecord};
use subpool_storage::SubpoolStorage;

impl Parts {
    // The cell pool exists, or it is parked, and the record that takes this back is returned.
    pub(crate) fn exchange_cell_pool(
        &mut self,
        parked: &mut SubpoolStorage,
        r: CellPoolRecord,
    ) -> CellPoolRecord
        requires stands { StandsWith self.old parked.old }
        requires fits { (given : List PageFrame) × (kept : ℕ)
            × CellPoolFits (walk_of self.old given parked.old kept) r }
        ensures exchanges { (given : List PageFrame)
            → Exchanges self.old self.new given given parked.old parked.new (CellPool r) }
        ensures turned { result ≡ record r { present = not r.present } }
    {
        self.subpools
            .exchange_pool(&mut self.elements, parked, r.pool);
        CellPoolRecord {
            present: !r.present,
            ..r
        }
    }

    // The cell pool has the extent, or no longer has it, and the record that takes this back is returned.
    pub(crate) fn exchange_cell_extent(&mut self, r: CellExtentRecord) -> CellExtentRecord
        requires stands { Stand self.old }
        requires fits { (given : List PageFrame) × (parked : TheParked) × (kept : ℕ)
            × CellExtentFits (walk_of self.old given parked kept) r }
        ensures exchanges { (given : List PageFrame) (parked : TheParked) → StandsWith self.old parked
            → Exchanges self.old self.new given given parked parked (CellExtent r) }
        ensures turned { result ≡ record r { present = not r.present } }
    {
        if r.present {
            self.subpools
                .extend(&mut self.elements, r.pool, r.start, r.count);
        } else {
            self.subpools
                .retract(&mut self.elements, r.pool, r.start, r.count);
        }
        CellExtentRecord {
            present: !r.present,
            ..r
        }
    }

    // The cell is the first free one, or it's in use, and the record that takes this back is returned.
    pub(crate) fn exchange_cell(&mut self, r: CellRecord) -> CellRecord
        requires stands { Stand self.old }
        requires fits { (given : List PageFrame) × (parked : TheParked) × (kept : ℕ)
            × CellFits (walk_of self.old given parked kept) r }
        ensures exchanges { (given : List PageFrame) (parked : TheParked) → StandsWith self.old parked
            → Exchanges self.old self.new given given parked parked (Cell r) }
        ensures turned { result ≡ record r { free = not r.free } }
    {
        if r.free {
            self.subpools.put_cell(&mut self.elements, r.pool, r.cell);
        } else {
            self.subpools.take_cell(&mut self.elements, r.pool, r.cell);
        }
        CellRecord { free: !r.free, ..r }
    }
}
