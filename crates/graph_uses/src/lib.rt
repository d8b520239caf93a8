//! The uses of cache lines of a function's blocks, from its graph and the loops of it. [`graph_uses`] numbers the
//! points of the blocks and finds the scope of each use, and what stands of each block in its leaf.
#![tactic(auto)]

mod finding;

pub use finding::{GraphUses, graph_uses};
