//! The tables of a function's points by their numbers: where control goes from each, from where it comes, from which
//! points it gets out, and what only follows what.
//!
//! The points are given in order ([`tabulate`]); a point's number is its place there, and the number after the last
//! point's is the way out of the function. [`first_fault`] finds the fault of a point that comes first, and [`cut`]
//! cuts
//! the numbers from which control gets out into chains.
//!
//! Time is the number of points times its logarithm.
#![tactic(auto)]

mod cutting;
mod faults;
mod links;
mod liveness;
mod tables;
mod targets;

pub use cutting::cut;
pub use faults::{FoundFault, first_fault};
pub use liveness::is_set;
pub use tables::{WayTables, tabulate};
pub use targets::{Targets, number_of};
