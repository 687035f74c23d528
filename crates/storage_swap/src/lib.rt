//! The storage in elements and frames, and changes of it in place: a change is exchanged with the storage record by
//! record (a function for each kind in `exchange`, `sharing`, `cells`), and is then the one that leads back; and that
//! nothing is leaked or shared on the way (`history`).
#![tactic(auto)]

mod beginning;
mod builder;
mod building;
mod cells;
mod chains;
mod change;
mod exchange;
pub mod history;
pub mod laws;
mod records;
mod reserve;
mod sharing;
mod storage;

pub use beginning::fresh;
pub use builder::ChangeBuilder;
pub use building::ReservedCellPool;
pub use change::Change;
pub use storage::Parts;
