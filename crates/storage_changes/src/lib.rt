//! What a change of the storage means: records that are exchanged with the storage in turn, blank elements and frames;
//! and that the exchanged change leads back. Below it what the cell pools of the storage are on the plain machine:
//! their table by name (`tables`).
//!
//! Also what records lead to on the plain machine: those of an action on the storage (`storage`), those by which tasks
//! are attached, make requests and end (`tasks`), and those of cell pools (`cells`); and what the lists and sums of the
//! storage in place are there (`maps`).
#![tactic(auto)]

pub mod cells;
mod in_words;
pub mod laws;
pub mod maps;
pub mod order;
mod record;
pub mod storage;
pub mod tables;
pub mod tasks;

pub use in_words::PlacedWord;
pub use record::{
    AreaRecord, BytesRecord, CellExtentRecord, CellPoolRecord, CellRecord, ExtentRecord,
    ObtainRecord, OwnRecord, PagesRecord, PassRecord, QueuesRecord, Record, RegisterRecord,
    RegistersRecord, SharerRecord, TaskRecord, TurnRecord,
};
