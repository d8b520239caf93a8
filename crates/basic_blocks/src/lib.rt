//! The basic blocks of a function: the longest chains of points of which each is all that follows the one before, and
//! follows nothing else.
//!
//! Points are known here by their numbers. [`split`] cuts flagged numbers into chains by two tables: the only number
//! that follows each, and the only one before each. The laws say that chains of the numbers of live points are the
//! blocks of the function, that there is one way to cut it into blocks, and that each run out of the function goes
//! block by block.
#![tactic(auto)]

mod chains;
mod laws;

pub use chains::{chain_from, split};
pub use laws::{blocks_agree, chains_are_blocks, live_points_are_reached, routes_go_by_blocks};
