//! The view of a flow graph of which loops and trees speak.

ghost use Rattle.std.specs.Prelude.{◌≡◌, ℕ, ◌<◌, ◌≤◌, ◌^◌, Bool, true, false, ◌==◌, List, length, slice_index_or};
ghost use Rattle.std.specs.List.{list_any};
ghost use Rattle.graph_search.specs.Flows.{Flow, IsBounded, edge};
ghost use Rattle.graph_search.specs.Rows.{row_in};

use sqlite_items::Items;
use std::marker::Model;

/// A flow graph: nodes 0 to `count` - 1 with their successors, the node where control enters, and those from which it
/// leaves.
pub trait FlowGraph {
    /// The graph.
    ghost flow: { Self → Flow };

    /// The number of nodes.
    fn count(&self) -> u32
        ensures { result ≡ (flow self.now).count };

    /// The node where control enters.
    fn entry(&self) -> u32
        ensures { result ≡ (flow self.now).entry };

    /// The successors of a node.
    fn row(&self, node: u32) -> &[u32]
        requires { node < (flow self.now).count }
        ensures { result.now ≡ (flow self.now).next node };

    /// Whether control leaves from a node.
    fn returns(&self, node: u32) -> bool
        requires { node < (flow self.now).count }
        ensures { result ≡ (flow self.now).returns node };
}

/// A flow graph by a row of successors and a flag for each node.
#[derive(Drop)]
pub struct SuccessorRows {
    rows: Items<Items<u32>>,
    count: u32,
    entry: u32,
    returns: Items<bool>,
}

impl Model for SuccessorRows {
    ghost use Rattle.std.specs.Prelude.{◌≡◌, length};
    ghost use Rattle.graph_search.specs.Flows.{GraphRows};

    ghost Value = { GraphRows };

    ghost view = { λ g. record { rows = g.rows; entry = g.entry; returns = g.returns } };

    ghost invariant = { λ g. length g.rows ≡ g.count };
}

impl SuccessorRows {
    /// The graph of these rows. A node past the flags' end has none.
    pub fn new(rows: Items<Items<u32>>, entry: u32, returns: Items<bool>) -> SuccessorRows
        requires { length rows < 2 ^ 32 }
        ensures { result ≡ record { rows = rows; entry = entry; returns = returns } }
    {
        let count = rows.len() as u32;
        SuccessorRows {
            rows,
            count,
            entry,
            returns,
        }
    }

    /// The rows of successors.
    pub fn into_rows(self) -> Items<Items<u32>>
        ensures { result ≡ self.rows }
    {
        self.rows
    }
}

impl FlowGraph for SuccessorRows {
    ghost use Rattle.graph_search.specs.Flows.{flow_of};

    ghost flow = { λ g. flow_of g };

    fn count(&self) -> u32 {
        self.count
    }

    fn entry(&self) -> u32 {
        self.entry
    }

    fn row(&self, node: u32) -> &[u32] {
        self.rows.as_slice()[node as usize].as_slice()
    }

    fn returns(&self, node: u32) -> bool {
        match self.returns.as_slice().get(node as usize) {
            Some(flag) => *flag,
            None => false,
        }
    }
}

/// Whether each number of a row is below the count.
fn is_row_below(row: &[u32], count: u32) -> bool
    ensures below { result ≡ true → (v : ℕ) → list_any (λ y. y == v) row.now ≡ true → v < count }
    ensures above { result ≡ false → (v : ℕ) × (list_any (λ y. y == v) row.now ≡ true) × (count ≤ v) }
{
    for target in row {
        if *target >= count {
            return false;
        }
    }
    true
}

/// Whether the entry is a node, and each edge leads to one.
pub fn is_bounded<G: FlowGraph>(graph: &G) -> bool
    ensures bounded { result ≡ true → IsBounded (G.flow graph.now) }
    ensures unbounded { result ≡ false → IsBounded (G.flow graph.now) → ⊥ }
{
    let count = graph.count();
    for node in 0..count {
        if !is_row_below(graph.row(node), count) {
            return false;
        }
    }
    graph.entry() < count
}
