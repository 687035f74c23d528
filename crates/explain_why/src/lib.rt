//! Why a statement of a script is answered as it is: what the rules look at, in order, with the numbers that decide;
//! and what an answer means, by its text.
#![tactic(auto)]

mod ahead;
mod causes;
mod definitions;
mod details;
mod earlier;
mod faults;
mod headings;
mod lines;
mod meanings;
mod messages;
mod obstacles;
mod output;
mod undefined;
mod words;

pub use faults::WhyFault;
pub use meanings::{MeaningFault, code};
pub use output::why;
pub use undefined::undefined_name;
