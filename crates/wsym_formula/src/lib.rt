//! Formulas: terms over loop bounds whose value bounds the cycles of a function.
//!
//! `(sum {34|4} (power 1 {34|4}))` costs 34 cycles once, and 34 more for the first turn of loop 1 and 4 for
//! each further turn. A formula is kept as a table of different nodes, so that equal parts are kept once: this
//! one is the nodes `{34|4}`, `(power 1)` over node 0, and `(sum)` over nodes 0 and 1.
#![tactic(auto)]

mod counts;
mod keeping;
mod leaves;
mod nodes;
mod numbers;
mod sharing;
mod table;
mod terms;
mod trees;
mod uses;
mod values;

pub use counts::has_few_counts;
pub use leaves::leaf_costs;
pub use nodes::Node;
pub use numbers::Numbers;
pub use table::{Shared, place};
pub use terms::Term;
pub use trees::{formulas_have_the_value_of_their_trees, from_tree};
pub use values::{halves, value};
