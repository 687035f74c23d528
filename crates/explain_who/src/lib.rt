//! Which lines of a script changed what is read, as text or as JSON.
#![tactic(auto)]

mod cells;
mod counts;
mod faults;
mod forms;
mod found;
mod holdings;
mod lines;
mod names;
mod nearest;
mod objects;
mod one_line;
mod orders;
mod output;
mod pages;
mod place;
mod readings;
mod shown_lines;
mod starts;
mod taken;
mod taken_texts;
mod takers;
mod texts;
mod tracing;

pub use cells::{cell_at, taken_by};
pub use counts::put_count;
pub use faults::WhoFault;
pub use names::word_after;
pub use nearest::{NearNames, name_asked, nearest_after};
pub use orders::ChangeOrder;
pub use output::who;
pub use pages::subpool_at;
pub use readings::Subject;
pub use shown_lines::{put_line, put_line_fields};
pub use starts::line_starts;
pub use taken::taken_on;
pub use taken_texts::put_subpool;
pub use takers::{PoolName, Taken};
