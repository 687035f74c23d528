//! Why a service is answered as it is, with the numbers that decide: its first cause by the definitions, or what it
//! comes to.
#![tactic(auto)]

mod areas;
mod bytes;
mod causes;
mod cells;
mod free_bytes;
pub mod laws;
mod lists;
mod numbers;
mod pages;
mod places;
mod pools;
mod refusals;
mod releases;
mod rooms;
mod searches;
mod sides;
mod sight_texts;
mod sights;
mod task_ends;
mod tasks;

pub use causes::put_cause;
pub use free_bytes::put_free_bytes;
pub use pages::put_pages;
pub use releases::deciding_address;
