//! The facts of all paths to a point, merged exactly.
//!
//! What a path leaves in registers and stack words is a set of facts (`path_facts`). What all paths to a point say
//! together is an abstract state: for each location an origin with the least and the greatest constant, or nothing
//! ([`Range`]). Two constants are kept apart in one cell only where they count from the start's r13 and are no further
//! apart than the stack with the 64 bytes above it, so no state says more than some paths do, and no widening is
//! needed. [`solve`] merges from point to point until nothing changes; it works on any table that can merge
//! ([`Merging`]), and stops at a point at which r13's offset is needed and isn't the same on all paths, which is then
//! truly so. [`solved_maps_are_exact`] says what a table holds when it ended.
#![tactic(auto)]

mod cells;
mod laws;
mod solving;
mod waiting;

pub use cells::{Range, constant, is_above_all, is_same, is_start_sp, join, same, shift};
pub use laws::solved_maps_are_exact;
pub use solving::{Merging, Stop, solve};
