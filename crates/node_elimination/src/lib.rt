//! Takes the nodes of a level out of a table of its edges, from numbers alone.
#![tactic(auto)]

mod cells;
mod level;
mod pulling;
mod starting;
mod table;
mod taking;
mod tally;

pub use cells::{Cell, plus};
pub use level::{DEEPEST, LevelPlan, eliminate};
pub use starting::start;
pub use table::Table;
pub use taking::{Elimination, MOST, TreeRefusal};
pub use tally::{Sums, Tally};
