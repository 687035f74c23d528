//! Which statements of a script are in effect at its end; and these carried out once more, on a bench of their own,
//! with what each took and which task asked for it.
#![tactic(auto)]

mod askers;
mod carried;
mod faults;
pub mod laws;
mod newly;
mod number_map;
mod standing;
mod trail;

pub use askers::Asker;
pub use carried::{Carried, apply, carry_out_script};
pub use faults::FollowFault;
pub use number_map::NumberMap;
pub use standing::{Followed, Reading, follow, rest_from};
pub use trail::{Trail, TrailEntry};
