//! The private storage of a bench, in elements and frames: plans of services, and changes that are made in place.
//!
//! A plan is found by only reading. `Storage::reserve` makes a change of it, which takes all the memory that is needed,
//! and `Storage::swap` exchanges the change with the storage, and leaves in its place its inverse.
#![tactic(auto)]

mod building;
mod changes;
mod plans;
mod positions;
mod reading;
mod reasons;
mod storage;
mod walks;

pub use free_queue::Area;
pub use plans::Plan;
pub use run_set::{Run, SideSums, Sums};
pub use storage::Storage;
pub use storage_plans::PlanRecords;
pub use storage_plans::reasons::SideReason;
pub use storage_swap::Change;
pub use subpool_storage::{SharerPlace, SubpoolPlace};
pub use vsm_model::{
    Attach, Boundary, Build, Cause, Code, Family, Get, Lengths, Location, Obtain, Passed, Release,
    Reply, Residence, Service, Settings, Subpool,
};
pub use walks::{ExtentPlace, FreeAreaPlace};
