//! Plans of a control-flow tree: which nodes the ways of edges go through, while no tree is made yet.
#![tactic(auto)]

mod building;
mod copying;
mod joining;
mod plans;

pub use building::{Nodes, members, members_between};
pub use copying::copy;
pub use joining::{add_all, add_row, add_way};
pub use plans::{Piece, Plan};
