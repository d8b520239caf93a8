//! What a run of a function may cost: at most the value of its control-flow tree.
//!
//! An analysis of a function (`specs/Analyses.antt`) has its blocks as chains of numbered points, the loops round them,
//! the scopes of the uses of cache lines, and the levels of which the tree is made. The laws join what the layers below
//! give: each returning run is a route of the function's points (`path_facts`), a route goes from block to block
//! (`basic_blocks`), within an entry of its scope a use misses at most once (`persistence`), and a walk of blocks costs
//! at most the value of the tree (`tree_law`). Nothing is assumed of how loops came to be bounded. There is no code
//! here: the laws are calls without a body.
#![tactic(auto)]

mod laws;

pub use laws::{runs_cost_at_most_the_tree, uses_of_routes_miss_once};
