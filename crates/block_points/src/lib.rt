//! The points of a function's blocks by numbers: block after block, and in each in the order in which control passes
//! them. [`number_points`] gives each point's block, cache line and greatest cost, what follows it and what it follows:
//! the tables in which the layers above look for line uses.
#![tactic(auto)]

mod numbering;
mod tables;

pub use numbering::number_points;
pub use tables::BlockPoints;
