//! The control-flow tree of a flow graph with loops, level by level.
#![tactic(auto)]

mod function;
mod laws;
mod level;
mod nodes;
mod tables;

pub use function::function_tree;
pub use laws::{levels_are_tasks, levels_of_loops_are_tasks};
pub use level::{loop_of, plan_between, trees_between};
pub use nodes::LevelNodes;
pub use tables::{FlowTables, LevelRows, LoopTree, PathRows, header_of, innermost};
