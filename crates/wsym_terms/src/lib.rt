//! Costs, loop bounds, line uses and control-flow trees: the words in which a report speaks of time.
//!
//! All costs are counted in processor cycles. A tree says in which order and how often the blocks of a
//! function may run; what it may cost for a number of executions is its value, a definition in `specs/`
//! that formulas are proved against.
//!
//! ```text
//! Tree::Seq([Tree::Leaf { block: 0, base: 2, uses: [Use { line: 2048, scope: 0 }] }])
//! ```
//!
//! is a function of one block, whose two instructions cost one cycle each and stand in one line of the
//! instruction cache: one execution costs two cycles and one miss.
#![tactic(auto)]

mod bounds;
mod costs;
mod laws;
mod names;
mod trees;

pub use bounds::{Atom, Bound, Coef, ParamRange};
pub use costs::Cost;
pub use laws::small_trees_have_their_values;
pub use names::Name;
pub use trees::{BlockUses, Tree, Use, tree_value_of_none, tree_value_rises, tree_value_shares};
