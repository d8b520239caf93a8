//! Runs a function of an image on the reference machine from its start, and writes what came of it.
//!
//! ```text
//! returned 44 steps 64 cycles
//! probe 0 44
//! probe 1 2
//! ```
#![tactic(auto)]

mod laws;
mod refusals;
mod running;
mod writing;

pub use laws::results_agree;
pub use refusals::RunRefusal;
pub use running::run_function;
