//! What the formula of a report is worth at values of the report's parameters, which are given by name.
//!
//! A report with the parameter `n` from 0 to 1000 and the formula `(sum {34|4} (power 1 {34|4}))`, whose loop closes
//! `n` times, has the value 104 at `n=10`. At `n=1001`, at `m=1` or without a value it has none, and the answer is the
//! name that is at fault.
#![tactic(auto)]

mod bounds;
mod evaluating;
mod laws;
mod naming;
mod writing;

pub use evaluating::evaluate;
pub use laws::read_reports_fit;
pub use naming::ValueRefusal;
pub use writing::value_line;
