//! One record of a change changes sides with the storage: a function for each kind. Those of tasks and of who sees a
//! subpool are in `sharing.rt`, those of cell pools in `cells.rt`.

ghost use Rattle.std.specs.Prelude.{◌≡◌, ℕ, ◌*◌, ◌≤◌, List, true, false};
ghost use Rattle.raw_region.specs.Frames.{PageFrame};
ghost use Rattle.subpool_storage.specs.declared.storage.SubpoolStorage.{SubpoolStorage as TheParked};
ghost use Rattle.storage_changes.specs.declared.record.Record.TheVariants.{Area, Extent, Own, Queues};
ghost use Rattle.storage_changes.specs.declared.record.Record.TheVariants.{Pages as Assignment, Bytes};
ghost use Rattle.storage_changes.specs.declared.record.Record.TheVariants.{Obtain, Register, Registers};
ghost use Rattle.storage_changes.specs.Records.{record_of};
ghost use Rattle.storage_changes.specs.Turned.{turned, turned_obtain, read, four_words};
ghost use Rattle.storage_changes.specs.Fits.{Fits, AreaFits, ExtentFits, PagesFits, OwnFits, QueuesFits};
ghost use Rattle.storage_changes.specs.Fits.{RegisterFits, RegistersFits, BytesFits, ObtainFits};
ghost use Rattle.storage_swap.specs.Storage.{state_of, walk_of, Stand, StandsWith};
ghost use Rattle.storage_swap.specs.Exchange.{Exchanges};
ghost use Rattle.storage_swap.specs.Words.{words_after, HasPlace};

use crate::storage::Parts;
use raw_region::Parked;
use run_set::Run;
use std::mem;
use storage_changes::{
    AreaRecord, BytesRecord, ExtentRecord, ObtainRecord, OwnRecord, PagesRecord, PlacedWord,
    QueuesRecord, Record, RegisterRecord, RegistersRecord,
};
use subpool_storage::SubpoolStorage;

/// What a record that is exchanged becomes, in words: one or two of them change, or all may.
pub enum TurnedWords {
    One(PlacedWord),
    Two(PlacedWord, PlacedWord),
    All([u32; 7]),
}

impl Parts {
    /// Exchanges a record with the storage: its places get its value, and the record with the value that they had is
    /// returned.
    ///
    /// Pages that become unassigned leave their frames in `given`; pages that are assigned have theirs in the tables
    /// already. The storage of a subpool changes places with the one that `parked` has under its name, and a cell
    /// pool with the one under its id. It takes no memory: the elements that it takes have to be spare.
    pub fn exchange_record(
        &mut self,
        given: &mut Parked,
        parked: &mut SubpoolStorage,
        change: Record,
    ) -> Record
        requires stands { StandsWith self.old parked.old }
        requires fits { (kept : ℕ) × (kept ≤ self.old.elements.spare)
            × Fits (walk_of self.old given.old parked.old kept) change }
        ensures exchanges { Exchanges self.old self.new given.old given.new parked.old parked.new change }
        ensures turned { result ≡ turned (state_of self.old) change }
    {
        match change {
            Record::Area(r) => {
                self.exchange_area(r);
                Record::Area(AreaRecord { free: !r.free, ..r })
            }
            Record::Extent(r) => {
                self.exchange_extent(r);
                Record::Extent(ExtentRecord {
                    present: !r.present,
                    ..r
                })
            }
            Record::Pages(r) => {
                self.exchange_pages(given, r);
                Record::Pages(PagesRecord {
                    assigned: !r.assigned,
                    ..r
                })
            }
            Record::Own(r) => {
                self.exchange_own(r);
                Record::Own(OwnRecord {
                    present: !r.present,
                    ..r
                })
            }
            Record::Queues(r) => Record::Queues(self.exchange_queues(parked, r)),
            Record::Register(r) => Record::Register(self.exchange_register(r)),
            Record::Registers(r) => Record::Registers(self.exchange_registers(r)),
            Record::Task(r) => Record::Task(self.exchange_task(r)),
            Record::Turn(r) => Record::Turn(self.exchange_turn(r)),
            Record::Sharer(r) => Record::Sharer(self.exchange_sharer(r)),
            Record::Pass(r) => Record::Pass(self.exchange_pass(r)),
            Record::CellPool(r) => Record::CellPool(self.exchange_cell_pool(parked, r)),
            Record::CellExtent(r) => Record::CellExtent(self.exchange_cell_extent(r)),
            Record::Cell(r) => Record::Cell(self.exchange_cell(r)),
            Record::Bytes(r) => Record::Bytes(self.exchange_bytes(r)),
            Record::Obtain(r) => Record::Obtain(self.exchange_obtain(r)),
        }
    }

    /// Exchanges a record given in words with the storage, and returns what it becomes: of most records all words stay
    /// except one or two.
    pub fn exchange_words(
        &mut self,
        given: &mut Parked,
        parked: &mut SubpoolStorage,
        words: [u32; 7],
    ) -> TurnedWords
        requires stands { StandsWith self.old parked.old }
        requires fits { (kept : ℕ) × (kept ≤ self.old.elements.spare)
            × Fits (walk_of self.old given.old parked.old kept) (record_of words) }
        ensures exchanges { Exchanges self.old self.new given.old given.new parked.old parked.new (record_of words) }
        ensures turned { record_of (words_after words result) ≡ turned (state_of self.old) (record_of words) }
        ensures place { HasPlace result }
    {
        if let Some(r) = RegisterRecord::in_words(words) {
            let turned = self.exchange_register(r);
            return TurnedWords::One(RegisterRecord::register_word(turned.word));
        }
        if let Some(r) = AreaRecord::in_words(words) {
            self.exchange_area(r);
            return TurnedWords::One(AreaRecord::free_word(!r.free));
        }
        if let Some(r) = ObtainRecord::in_words(words) {
            let turned = self.exchange_obtain(r);
            let (free, word) = ObtainRecord::turned_words(turned.area.free, turned.register.word);
            return TurnedWords::Two(free, word);
        }
        let change = Record::from_words(words);
        TurnedWords::All(self.exchange_record(given, parked, change).words())
    }

    // The doublewords of an area become free, or taken.
    #[inline(always)]
    fn exchange_area(&mut self, r: AreaRecord)
        requires stands { Stand self.old }
        requires fits { (given : List PageFrame) × (parked : TheParked) × (kept : ℕ)
            × AreaFits (walk_of self.old given parked kept) r }
        ensures { (given : List PageFrame) (parked : TheParked) → StandsWith self.old parked
            → Exchanges self.old self.new given given parked parked (Area r) }
    {
        if r.free {
            self.subpools
                .free_area(&mut self.elements, r.subpool, r.area);
        } else {
            self.subpools
                .carve_area(&mut self.elements, r.subpool, r.area);
        }
    }

    // The doublewords of an area become free, or taken, and the register gets the word.
    fn exchange_obtain(&mut self, r: ObtainRecord) -> ObtainRecord
        requires fits { (given : List PageFrame) × (parked : TheParked) × (kept : ℕ) × StandsWith self.old parked
            × (kept ≤ self.old.elements.spare) × ObtainFits (walk_of self.old given parked kept) r }
        ensures exchanges { (given : List PageFrame) (parked : TheParked) → StandsWith self.old parked
            → Exchanges self.old self.new given given parked parked (Obtain r) }
        ensures turned { result ≡ turned_obtain (state_of self.old) r }
    {
        self.exchange_area(r.area);
        ObtainRecord {
            area: AreaRecord {
                free: !r.area.free,
                ..r.area
            },
            register: self.exchange_register(r.register),
        }
    }

    // The pages of a run become a subpool's, or leave it.
    fn exchange_extent(&mut self, r: ExtentRecord)
        requires stands { Stand self.old }
        requires fits { (given : List PageFrame) × (parked : TheParked) × (kept : ℕ)
            × ExtentFits (walk_of self.old given parked kept) r }
        ensures { (given : List PageFrame) (parked : TheParked) → StandsWith self.old parked
            → Exchanges self.old self.new given given parked parked (Extent r) }
    {
        if r.present {
            self.subpools
                .insert_run(&mut self.elements, r.subpool, r.run);
        } else {
            self.subpools
                .remove_run(&mut self.elements, r.subpool, r.run);
        }
    }

    // An empty subpool exists, or it is gone.
    fn exchange_own(&mut self, r: OwnRecord)
        requires stands { Stand self.old }
        requires fits { (given : List PageFrame) × (parked : TheParked) × (kept : ℕ)
            × OwnFits (walk_of self.old given parked kept) r }
        ensures { (given : List PageFrame) (parked : TheParked) → StandsWith self.old parked
            → Exchanges self.old self.new given given parked parked (Own r) }
    {
        if r.present {
            self.subpools.create(&mut self.elements, r.subpool);
        } else {
            self.subpools.remove(&mut self.elements, r.subpool);
        }
    }

    // The pages of a run are assigned, with their frames already in the tables, or unassigned.
    fn exchange_pages(&mut self, given: &mut Parked, r: PagesRecord)
        requires stands { Stand self.old }
        requires fits { (parked : TheParked) × (kept : ℕ) × PagesFits (walk_of self.old given.old parked kept) r }
        ensures { (parked : TheParked) → StandsWith self.old parked
            → Exchanges self.old self.new given.old given.new parked parked (Assignment r) }
    {
        if r.assigned {
            self.unassigned.remove_run(&mut self.elements, r.run);
        } else {
            self.unassign(given, r.run);
        }
    }

    // The pages of a run become unassigned, and their frames are given to the change.
    fn unassign(&mut self, given: &mut Parked, run: Run)
        requires stands { Stand self.old }
        requires fits { (parked : TheParked) × (kept : ℕ)
            × PagesFits (walk_of self.old given.old parked kept) (record { run = run; assigned = false }) }
        ensures { (parked : TheParked) → StandsWith self.old parked
            → Exchanges self.old self.new given.old given.new parked parked
            (Assignment (record { run = run; assigned = false })) }
    {
        self.unassigned.insert_run(&mut self.elements, run);
        self.region.pages_in_range();
        let parked = self.region.park(run.start, run.len);
        let before = mem::replace(given, Parked::empty());
        *given = parked.join(before);
    }

    // The pages, the free storage and the cell pools of a subpool change places with what is parked under its name.
    fn exchange_queues(&mut self, parked: &mut SubpoolStorage, r: QueuesRecord) -> QueuesRecord
        requires stands { StandsWith self.old parked.old }
        requires fits { (given : List PageFrame) × (kept : ℕ) × QueuesFits (walk_of self.old given parked.old kept) r }
        ensures exchanges { (given : List PageFrame)
            → Exchanges self.old self.new given given parked.old parked.new (Queues r) }
        ensures turned { result ≡ r }
    {
        self.subpools
            .exchange_storage(&mut self.elements, parked, r.subpool);
        r
    }

    // The register gets the word, and the record with its old one is returned.
    fn exchange_register(&mut self, r: RegisterRecord) -> RegisterRecord
        requires stands { Stand self.old }
        requires fits { (given : List PageFrame) × (parked : TheParked) × (kept : ℕ)
            × RegisterFits (walk_of self.old given parked kept) r }
        ensures exchanges { (given : List PageFrame) (parked : TheParked) → StandsWith self.old parked
            → Exchanges self.old self.new given given parked parked (Register r) }
        ensures turned { result ≡ record r { word = (state_of self.old).tasks.words r.task r.register } }
    {
        let word = self
            .tasks
            .swap_register(&mut self.elements, r.task, r.register, r.word);
        RegisterRecord { word, ..r }
    }

    // The four registers get the words, and the record with their old ones is returned.
    fn exchange_registers(&mut self, r: RegistersRecord) -> RegistersRecord
        requires stands { Stand self.old }
        requires fits { (given : List PageFrame) × (parked : TheParked) × (kept : ℕ)
            × RegistersFits (walk_of self.old given parked kept) r }
        ensures exchanges { (given : List PageFrame) (parked : TheParked) → StandsWith self.old parked
            → Exchanges self.old self.new given given parked parked (Registers r) }
        ensures turned { result ≡ record r { words = four_words ((state_of self.old).tasks.words r.task) r.first } }
    {
        let first = self
            .tasks
            .swap_register(&mut self.elements, r.task, r.first, r.words[0]);
        let second = self
            .tasks
            .swap_register(&mut self.elements, r.task, r.first + 1, r.words[1]);
        let third = self
            .tasks
            .swap_register(&mut self.elements, r.task, r.first + 2, r.words[2]);
        let fourth = self
            .tasks
            .swap_register(&mut self.elements, r.task, r.first + 3, r.words[3]);
        RegistersRecord {
            words: [first, second, third, fourth],
            ..r
        }
    }

    // The bytes of the block change places with the record's.
    fn exchange_bytes(&mut self, r: BytesRecord) -> BytesRecord
        requires fits { (given : List PageFrame) × (parked : TheParked) × (kept : ℕ)
            × BytesFits (walk_of self.old given parked kept) r }
        ensures exchanges { (given : List PageFrame) (parked : TheParked) → StandsWith self.old parked
            → Exchanges self.old self.new given given parked parked (Bytes r) }
        ensures turned { result ≡ record r { bytes = read (state_of self.old).bytes (16 * r.block) 16 } }
    {
        self.region.pages_in_range();
        let mut bytes = r.bytes;
        match self.region.swap_bytes(16 * r.block, &mut bytes) {
            Ok(()) => BytesRecord { bytes, ..r },
            Err(_) => r,
        }
    }
}
