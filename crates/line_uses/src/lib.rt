//! The cache lines that each block uses, with the depths within which each misses at most once.
//!
//! [`uses`] goes over a function's points by tables ([`PointTables`]) and gives for each block what stands in its leaf:
//! the cycles that it costs at most each time, with a miss for each use that has no scope, and its uses with their
//! scopes. What a use and a scope are is `persistence`'s.
//!
//! A scope is found by halving the depths, the greatest first. At each depth the lines of the cache set are counted
//! first; where they aren't few, a search back from the use counts the younger ones and ends as soon as they are as many
//! as ways. In a loop each point leads to each, so the search back meets younger lines alone; in the whole function a
//! search forward from the line's points marks what it may go back to. Uses are taken line by line, and all uses of a
//! line share one search forward. Time grows with the lines times the points at most, memory with points and edges.
#![tactic(auto)]

mod laws;
mod leaves;
mod order;
mod scopes;
mod searches;
mod tables;

pub use laws::{blocks_of_a_nest_are_a_function, uses_agree};
pub use leaves::{LineUses, uses};
pub use tables::PointTables;
