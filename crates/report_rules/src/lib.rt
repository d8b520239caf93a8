//! Which lines of a report may follow one another: what was read is a form, and a form says which lines may come next
//! and what they add to it.
#![tactic(auto)]

mod atom_lines;
mod following;
mod forms;
mod head_lines;
mod naming;
mod proof_lines;
mod read_loops;
mod row_lines;
mod sections;

pub use following::follow;
pub use forms::{Form, Function};
pub use read_loops::ReadLoops;
