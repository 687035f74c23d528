ghost use Rattle.std.specs.Prelude.{◌≡◌, ◌+◌, ◌%◌, ◌≤◌, ◌==◌};
ghost use Rattle.vsm_model.specs.Bytes.{fullword};
ghost use Rattle.storage_changes.specs.Records.{record_of, words_of, word, subpool_in, run_in, register_in, bytes_in};
ghost use Rattle.storage_changes.specs.Records.{four_at, task_in, registers_in, extent_words, cell_extent_in};
ghost use Rattle.storage_changes.specs.Records.{obtain_in};

use run_set::Run;
use subpool_storage::CellId;
use vsm_model::Subpool;

/// The doublewords of an area become free storage of a subpool, or taken.
#[derive(Clone, Copy)]
pub struct AreaRecord {
    pub subpool: Subpool,
    /// In doublewords of 8 bytes.
    pub area: Run,
    pub free: bool,
}

/// The pages of a run become a subpool's, or leave it.
#[derive(Clone, Copy)]
pub struct ExtentRecord {
    pub subpool: Subpool,
    /// In pages of 4,096 bytes.
    pub run: Run,
    pub present: bool,
}

/// The pages of a run are assigned, with the frames that the change brings, or become unassigned and leave it theirs.
#[derive(Clone, Copy)]
pub struct PagesRecord {
    /// In pages of 4,096 bytes.
    pub run: Run,
    pub assigned: bool,
}

/// An empty subpool exists, which only its owner sees, or it is gone.
#[derive(Clone, Copy)]
pub struct OwnRecord {
    pub subpool: Subpool,
    pub present: bool,
}

/// The pages, the free storage and the cell pools of a subpool change places with what the change has parked under its
/// name.
#[derive(Clone, Copy)]
pub struct QueuesRecord {
    pub subpool: Subpool,
}

/// A register of a task gets a word.
#[derive(Clone, Copy)]
pub struct RegisterRecord {
    pub task: u8,
    pub register: u8,
    pub word: u32,
}

/// Four registers of a task, from a first one on, get these words.
#[derive(Clone, Copy)]
pub struct RegistersRecord {
    pub task: u8,
    /// The first of the four, at most 12.
    pub first: u8,
    pub words: [u32; 4],
}

/// The sixteen bytes of a block get these values. Block `b` has the addresses from `16 * b`.
#[derive(Clone, Copy)]
pub struct BytesRecord {
    pub block: u32,
    pub bytes: [u8; 16],
}

/// A task exists, below its parent and with registers of zeros, or it is gone.
#[derive(Clone, Copy)]
pub struct TaskRecord {
    pub task: u8,
    pub parent: u8,
    pub present: bool,
}

/// This task makes the requests.
#[derive(Clone, Copy)]
pub struct TurnRecord {
    pub task: u8,
}

/// A task also sees a subpool of another owner, or no longer does.
#[derive(Clone, Copy)]
pub struct SharerRecord {
    pub subpool: Subpool,
    pub task: u8,
    pub present: bool,
}

/// A subpool passes to another task, with its pages, its free storage and its cell pools, wherever it is named.
#[derive(Clone, Copy)]
pub struct PassRecord {
    pub subpool: Subpool,
    pub to: u8,
}

/// A cell pool exists, with its extents and its cells, or it is gone: it changes places with what the change has parked
/// under its id.
#[derive(Clone, Copy)]
pub struct CellPoolRecord {
    pub pool: CellId,
    pub present: bool,
}

/// A cell pool has another extent, or its last one is gone.
#[derive(Clone, Copy)]
pub struct CellExtentRecord {
    pub pool: CellId,
    /// The address of its first cell.
    pub start: u32,
    /// How many cells it has.
    pub count: u32,
    pub present: bool,
}

/// A cell of a cell pool is its first free one, or it is no longer free.
#[derive(Clone, Copy)]
pub struct CellRecord {
    pub pool: CellId,
    /// Its address.
    pub cell: u32,
    pub free: bool,
}

/// An area of a subpool becomes free storage, or taken, and a register of a task gets a word: the place of an obtained
/// area, and its address in register 1.
#[derive(Clone, Copy)]
pub struct ObtainRecord {
    pub area: AreaRecord,
    pub register: RegisterRecord,
}

/// Places of the storage that change together, with their other value.
#[derive(Clone, Copy)]
pub enum Record {
    Area(AreaRecord),
    Extent(ExtentRecord),
    Pages(PagesRecord),
    Own(OwnRecord),
    Queues(QueuesRecord),
    Register(RegisterRecord),
    Registers(RegistersRecord),
    Task(TaskRecord),
    Turn(TurnRecord),
    Sharer(SharerRecord),
    Pass(PassRecord),
    CellPool(CellPoolRecord),
    CellExtent(CellExtentRecord),
    Cell(CellRecord),
    Bytes(BytesRecord),
    Obtain(ObtainRecord),
}

impl Default for Record {
    /// A record that leaves all as it is: the empty storage of no subpool.
    fn default() -> Record {
        Record::Queues(QueuesRecord {
            subpool: NO_SUBPOOL,
        })
    }
}

pub(crate) const AREA: u32 = 0;

const EXTENT: u32 = 1;

const PAGES: u32 = 2;

const OWN: u32 = 3;

const QUEUES: u32 = 4;

pub(crate) const REGISTER: u32 = 5;

const TASK: u32 = 6;

const TURN: u32 = 7;

const SHARER: u32 = 8;

const PASS: u32 = 9;

const CELL_POOL: u32 = 10;

const CELL_EXTENT: u32 = 11;

const CELL: u32 = 12;

const BYTES: u32 = 13;

const REGISTERS: u32 = 14;

pub(crate) const OBTAIN: u32 = 15;

/// What the words of a record that names no subpool contain,
const NO_SUBPOOL: Subpool = Subpool {
    number: 0,
    owner: 0,
};

/// and those of one that has no run.
const NO_RUN: Run = Run { start: 0, len: 0 };

#[tactic(auto, unfolding(crate::specs::Records::record_of))]
impl Record {
    /// The record as the seven words of an element.
    pub fn words(self) -> [u32; 7]
        ensures { record_of result ≡ self }
    {
        match self {
            Record::Area(r) => place_words(AREA, r.subpool, r.area, r.free),
            Record::Extent(r) => place_words(EXTENT, r.subpool, r.run, r.present),
            Record::Pages(r) => place_words(PAGES, NO_SUBPOOL, r.run, r.assigned),
            Record::Own(r) => place_words(OWN, r.subpool, NO_RUN, r.present),
            Record::Queues(r) => place_words(QUEUES, r.subpool, NO_RUN, false),
            Record::Register(r) => [
                REGISTER,
                u32::from(r.task),
                u32::from(r.register),
                r.word,
                0,
                0,
                0,
            ],
            Record::Registers(r) => registers_words(r),
            Record::Task(r) => task_words(r),
            Record::Turn(r) => [TURN, u32::from(r.task), 0, 0, 0, 0, 0],
            Record::Sharer(r) => place_words(SHARER, r.subpool, one_task(r.task), r.present),
            Record::Pass(r) => place_words(PASS, r.subpool, one_task(r.to), false),
            Record::CellPool(r) => cell_words(CELL_POOL, r.pool, NO_RUN, r.present),
            Record::CellExtent(r) => cell_words(CELL_EXTENT, r.pool, cells_from(r), r.present),
            Record::Cell(r) => cell_words(CELL, r.pool, one_cell(r.cell), r.free),
            Record::Bytes(r) => byte_words(r),
            Record::Obtain(r) => obtain_words(r),
        }
    }

    /// The record in the seven words of an element. Words of no kind are taken for bytes.
    pub fn from_words(words: [u32; 7]) -> Record
        ensures { result ≡ record_of words }
    {
        let subpool = subpool_of(words);
        let value = words[5] == 1;
        match words[0] {
            AREA => Record::Area(area_of(words)),
            EXTENT => Record::Extent(extent_of(words)),
            PAGES => Record::Pages(PagesRecord {
                run: run_of(words),
                assigned: value,
            }),
            OWN => Record::Own(OwnRecord {
                subpool,
                present: value,
            }),
            QUEUES => Record::Queues(QueuesRecord { subpool }),
            REGISTER => Record::Register(register_of(words)),
            REGISTERS => Record::Registers(registers_of(words)),
            TASK => Record::Task(task_of(words)),
            TURN => Record::Turn(TurnRecord {
                task: low_byte(words[1]),
            }),
            SHARER => Record::Sharer(sharer_of(words)),
            PASS => Record::Pass(PassRecord {
                subpool,
                to: low_byte(words[3]),
            }),
            CELL_POOL => Record::CellPool(CellPoolRecord {
                pool: words[1],
                present: value,
            }),
            CELL_EXTENT => Record::CellExtent(cell_extent_of(words)),
            CELL => Record::Cell(cell_of(words)),
            OBTAIN => Record::Obtain(obtain_of(words)),
            _ => Record::Bytes(BytesRecord {
                block: words[1],
                bytes: bytes_of(words),
            }),
        }
    }
}

/// The words of a record of a subpool, a run and the value that its places get.
fn place_words(kind: u32, subpool: Subpool, run: Run, value: bool) -> [u32; 7]
    ensures { result ≡ words_of kind subpool run value }
{
    let value = u32::from(value);
    [
        kind,
        u32::from(subpool.number),
        u32::from(subpool.owner),
        run.start,
        run.len,
        value,
        0,
    ]
}

/// The words of a record of bytes: four bytes in a word, the first of them the highest.
fn byte_words(r: BytesRecord) -> [u32; 7]
    ensures kind { word result 0 ≡ 13 }
    ensures block { word result 1 ≡ r.block }
    ensures bytes { bytes_in result ≡ r.bytes }
{
    [
        BYTES,
        r.block,
        word_at(r.bytes, 0),
        word_at(r.bytes, 4),
        word_at(r.bytes, 8),
        word_at(r.bytes, 12),
        0,
    ]
}

/// The word of four bytes, from a place on.
fn word_at(bytes: [u8; 16], place: usize) -> u32
    requires { place + 4 ≤ 16 }
    ensures { fullword result ≡ four_at bytes place }
{
    u32::from_be_bytes([
        bytes[place],
        bytes[place + 1],
        bytes[place + 2],
        bytes[place + 3],
    ])
}

/// The words of a record of four registers.
fn registers_words(r: RegistersRecord) -> [u32; 7]
    ensures kind { word result 0 ≡ 14 }
    ensures registers { registers_in result ≡ r }
{
    [
        REGISTERS,
        u32::from(r.task),
        u32::from(r.first),
        r.words[0],
        r.words[1],
        r.words[2],
        r.words[3],
    ]
}

/// The words of a record of a task.
fn task_words(r: TaskRecord) -> [u32; 7]
    ensures kind { word result 0 ≡ 6 }
    ensures task { task_in result ≡ r }
{
    [
        TASK,
        u32::from(r.task),
        u32::from(r.parent),
        0,
        0,
        u32::from(r.present),
        0,
    ]
}

/// The words of a record of an obtain: the subpool's number is above the task's, and its owner above the register's.
fn obtain_words(r: ObtainRecord) -> [u32; 7]
    ensures kind { word result 0 ≡ 15 }
    ensures obtain { obtain_in result ≡ r }
{
    [
        OBTAIN,
        u32::from(r.area.subpool.number) + 256 * u32::from(r.register.task),
        u32::from(r.area.subpool.owner) + 256 * u32::from(r.register.register),
        r.area.area.start,
        r.area.area.len,
        u32::from(r.area.free),
        r.register.word,
    ]
}

/// A task, in the place where the words of a record have a run.
fn one_task(task: u8) -> Run
    ensures { result ≡ record { start = task; len = 0 } }
{
    Run {
        start: u32::from(task),
        len: 0,
    }
}

/// The words of a record of a cell pool, with a run of cells and the value that its places get.
fn cell_words(kind: u32, pool: CellId, cells: Run, value: bool) -> [u32; 7]
    ensures { result ≡ extent_words kind pool cells value }
{
    let value = u32::from(value);
    [kind, pool, 0, cells.start, cells.len, value, 0]
}

/// The cells of an extent, in the place where the words of a record have a run.
fn cells_from(r: CellExtentRecord) -> Run
    ensures { result ≡ record { start = r.start; len = r.count } }
{
    Run {
        start: r.start,
        len: r.count,
    }
}

/// A cell, in the place where the words of a record have a run.
fn one_cell(cell: u32) -> Run
    ensures { result ≡ record { start = cell; len = 0 } }
{
    Run {
        start: cell,
        len: 0,
    }
}

pub(crate) fn area_of(words: [u32; 7]) -> AreaRecord
    ensures { result ≡ record { subpool = subpool_in words; area = run_in words; free = word words 5 == 1 } }
{
    AreaRecord {
        subpool: subpool_of(words),
        area: run_of(words),
        free: words[5] == 1,
    }
}

fn extent_of(words: [u32; 7]) -> ExtentRecord
    ensures { result ≡ record { subpool = subpool_in words; run = run_in words; present = word words 5 == 1 } }
{
    ExtentRecord {
        subpool: subpool_of(words),
        run: run_of(words),
        present: words[5] == 1,
    }
}

fn cell_of(words: [u32; 7]) -> CellRecord
    ensures { result ≡ record { pool = word words 1; cell = word words 3; free = word words 5 == 1 } }
{
    CellRecord {
        pool: words[1],
        cell: words[3],
        free: words[5] == 1,
    }
}

fn cell_extent_of(words: [u32; 7]) -> CellExtentRecord
    ensures { result ≡ cell_extent_in words }
{
    CellExtentRecord {
        pool: words[1],
        start: words[3],
        count: words[4],
        present: words[5] == 1,
    }
}

fn low_byte(word: u32) -> u8
    ensures { result ≡ word % 256 }
{
    (word % 256) as u8
}

fn task_of(words: [u32; 7]) -> TaskRecord
    ensures { result ≡ task_in words }
{
    TaskRecord {
        task: low_byte(words[1]),
        parent: low_byte(words[2]),
        present: words[5] == 1,
    }
}

fn sharer_of(words: [u32; 7]) -> SharerRecord
    ensures { result ≡ record { subpool = subpool_in words; task = word words 3 % 256; present = word words 5 == 1 } }
{
    SharerRecord {
        subpool: subpool_of(words),
        task: low_byte(words[3]),
        present: words[5] == 1,
    }
}

fn subpool_of(words: [u32; 7]) -> Subpool
    ensures { result ≡ subpool_in words }
{
    Subpool {
        number: low_byte(words[1]),
        owner: low_byte(words[2]),
    }
}

fn run_of(words: [u32; 7]) -> Run
    ensures { result ≡ run_in words }
{
    Run {
        start: words[3],
        len: words[4],
    }
}

pub(crate) fn register_of(words: [u32; 7]) -> RegisterRecord
    ensures { result ≡ register_in words }
{
    RegisterRecord {
        task: low_byte(words[1]),
        register: low_byte(words[2]),
        word: words[3],
    }
}

pub(crate) fn obtain_of(words: [u32; 7]) -> ObtainRecord
    ensures { result ≡ obtain_in words }
{
    ObtainRecord {
        area: area_of(words),
        register: RegisterRecord {
            task: low_byte(words[1] / 256),
            register: low_byte(words[2] / 256),
            word: words[6],
        },
    }
}

fn registers_of(words: [u32; 7]) -> RegistersRecord
    ensures { result ≡ registers_in words }
{
    RegistersRecord {
        task: low_byte(words[1]),
        first: low_byte(words[2]),
        words: [words[3], words[4], words[5], words[6]],
    }
}

fn bytes_of(words: [u32; 7]) -> [u8; 16]
    ensures { result ≡ bytes_in words }
{
    let mut bytes = [0; 16];
    bytes[..4].copy_from_slice(&words[2].to_be_bytes());
    bytes[4..8].copy_from_slice(&words[3].to_be_bytes());
    bytes[8..12].copy_from_slice(&words[4].to_be_bytes());
    bytes[12..].copy_from_slice(&words[5].to_be_bytes());
    bytes
}
