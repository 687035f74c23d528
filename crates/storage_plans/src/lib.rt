//! What services will do to the storage, found only by reading it, as the records of a change; and readings of bytes
//! and registers.
#![tactic(auto)]

pub mod areas;
mod blocks;
pub mod obtain;
pub mod places;
pub mod plan;
mod reading;
pub mod reasons;
mod release;
mod searches;
mod store;
mod whole;

pub use obtain::plan_obtain;
pub use plan::{PLAN_RECORDS, PlanRecords, PlannedStorage, StoragePlan};
pub use reading::{load, register};
pub use release::plan_release;
pub use store::{STORE_BLOCKS, StorePlan, block_records, plan_store};
pub use whole::plan_whole;
