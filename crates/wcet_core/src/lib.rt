//! The analysis of a function of an executable: its report, with a proved bound of its runs.
//!
//! [`analyse_function`] makes the function's graph, the nest of its loops, what all paths say of its use of the stack,
//! the line uses of its blocks, the control-flow tree, its formula in normal form, and the report of all this. Loops
//! have no bounds yet, so the value of a function with a loop is unbounded.
#![tactic(auto)]

mod analysis;
mod laws;
mod refusals;
mod reports;
mod structures;

pub use analysis::analyse_function;
pub use laws::analyses_agree;
pub use refusals::AnalysisRefusal;
