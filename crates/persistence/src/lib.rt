//! Which cache lines stay in the instruction cache, by younger lines.
//!
//! A point of a block is a *use* of its line where it is the block's first or its line differs from that of the point
//! before it. Its *younger lines* in a set of points are the other lines of its cache set that are fetched on some path
//! from a point of its line back to it, inside the set of points and without its line between. While they are fewer
//! than the ways of the cache, the line stays. The *scope* of a use is the least depth of a loop round its block in
//! which that is so, 0 being the whole function.
//!
//! The laws say what follows: within one entry of its scope a use misses at most once, whatever the cache held at the
//! start, and a point that is no use never misses (docs/PERSISTENCE.md has the proof in prose). [`meets_fewer_lines`]
//! is the search that counts younger lines.
#![tactic(auto)]

mod laws;
mod search;

pub use laws::{
    few_younger_lines_leave_a_line, misses_of_a_block_are_of_uses, points_that_are_no_use_hit,
    scopes_agree, uses_miss_once_per_entry,
};
pub use search::{line_of, meets_fewer_lines};
