//! What is taken, and by which line: each area that a script leaves taken, and each cell in use, with the statement
//! that took it.
#![tactic(auto)]

mod asked;
mod cells;
mod choices;
mod ends;
mod faults;
mod keeps;
mod line_counts;
mod listed;
mod output;
mod parts;
mod rows;
mod sums;
mod walks;

pub use asked::{AreasAsked, Listed};
pub use cells::{LineCell, cells_left};
pub use faults::AreasFault;
pub use output::areas;
pub use parts::LineArea;
pub use walks::areas_left;
