//! The parts of a report's lines, each written and read back: numbers, addresses, names, cache-line uses, trees and
//! formulas.
//!
//! ```text
//! (seq (leaf 0 2 2048@0))
//! (sum {34|4} (power 1 {34|4}))
//! ```
#![tactic(auto)]

mod addresses;
mod constants;
mod digits;
mod formula_brackets;
mod formula_limits;
mod formula_text;
mod formulas;
mod names;
mod pile;
mod shared_formulas;
mod sizes;
mod tree_brackets;
mod tree_limits;
mod tree_text;
mod trees;
mod words;

pub use addresses::address;
pub use constants::list_in;
pub use digits::number;
pub use formula_limits::term_fits;
pub use formula_text::push_term;
pub use formulas::{formulas_are_read, read_formula};
pub use names::name_from;
pub use shared_formulas::{Formula, push_formula};
pub use sizes::{term_counts, term_nodes, tree_size};
pub use tree_limits::tree_fits;
pub use tree_text::push_tree;
pub use trees::{read_tree, trees_are_read};
pub use words::{Fields, byte_off, cut, wide};
