//! Reduces a flow graph to the edges that close its loops.
//!
//! Two rules are used as long as one of them fits, the first before the second, each at its least head. At first each
//! block is a node, whose head it is. (1) Where an edge leads from a node to its own head, each edge from the node's
//! blocks to the head closes a loop. (2) A node into which open edges lead from one other node alone is put into that
//! node. This is the interval reduction of flow graphs (M. S. Hecht and J. D. Ullman, 'Characterizations of reducible
//! flow graphs', 1974, where they are the two transformations).
//!
//! [`Nodes::start`] makes the nodes of a graph, [`Nodes::reduce`] uses the rules until neither fits, and
//! [`Nodes::closings`] lists the closing edges. What they mean stands in `specs/Reduction.antt`; the laws say that the
//! reduction ends in one state, and that its loops are nested and entered by their headers alone where no cycle is left
//! open.
#![tactic(auto)]

mod closers;
mod edges;
mod fitting;
mod nodes;

ghost use Rattle.std.specs.Prelude.{◌≡◌};
ghost use Rattle.graph_search.specs.Flows.{Flow, edge, leads};
ghost use Rattle.graph_reduction.specs.Loops.{AreNested, IsIrreducible};
ghost use Rattle.graph_reduction.specs.Reduction.{State, IsReduced};

pub use edges::first_node;
pub use nodes::{Nodes, first_source, number_at};

/// Where no cycle is left without a closing edge, loops are entered by their headers alone, lie one in another or
/// apart, and an edge closes exactly where each walk from the entry to its source passes its target.
pub fn loops_are_nested()
    ensures { (flow : Flow) (s : State) → IsReduced flow s → (IsIrreducible flow s.closed → ⊥)
        → AreNested (leads (edge flow)) s.closed flow.entry }
{}

/// The reduction of each graph ends, in one state.
pub fn reduction_ends()
    ensures ends { (flow : Flow) → (s : State) × IsReduced flow s }
    ensures one { (flow : Flow) (s t : State) → IsReduced flow s → IsReduced flow t → s ≡ t }
{}
