//! The levels of a flow graph's loops as tables: where the blocks stand in them, and their edges.
#![tactic(auto)]

mod blocks;
mod edges;
mod laws;
mod links;
mod paths;
mod places;
mod rows;
mod trees;

pub use blocks::blocks_of_loops;
pub use edges::edges_of_level;
pub use laws::{levels_have_one_tree, places_are_of_loops};
pub use links::{EdgeRows, ahead_of, back_of};
pub use paths::{edges_on_paths, rows_between};
pub use places::LevelPlaces;
pub use rows::{levels_of, rows_of_level};
pub use trees::tree;
