//! Which nodes the ways of the edges of a level go through.
ghost use Rattle.std.specs.Prelude.{◌≡◌, ◌++◌, ◌∷◌, [], ℕ, List, OnOk};
ghost use Rattle.elimination_plans.specs.Plans.{via, node_of_plan, entry_pieces};

use sqlite_items::Items;
use std::alloc::AllocError;
use std::collections::BTreeMap;

/// For each edge its ways: 0 stands for the edge itself, 1 more than a place of the order for the way through
/// the node that stands there.
#[derive(Drop)]
pub struct Plan {
    pub order: Items<u32>,
    pub ways: BTreeMap<(u32, u32), Items<u32>>,
}

/// A part of a way that is still to be made: the members of an edge, or the tree of a node.
#[derive(Clone, Copy, Debug, PartialEq, Eq)]
pub enum Piece {
    Edge { from: u32, to: u32 },
    Node(u32),
}

impl Plan {
    /// The ways of an edge.
    pub fn ways_of(&self, from: u32, to: u32) -> &[u32]
        ensures { result.now ≡ via self.now from to }
    {
        match self.ways.get(&(from, to)) {
            Some(ways) => ways.as_slice(),
            None => &[],
        }
    }

    /// The node at a place of the order.
    pub fn node_at(&self, place: u32) -> u32
        ensures { result ≡ node_of_plan self.now place }
    {
        match self.order.get(place as usize) {
            Some(node) => *node,
            None => 0,
        }
    }
}

/// Puts the parts of a way of an edge on the stack.
pub fn spread(
    plan: &Plan,
    stack: &mut Vec<Piece>,
    from: u32,
    to: u32,
    entry: u32,
) -> Result<(), AllocError>
    ensures { OnOk result (stack.new.items ≡ stack.old.items ++ entry_pieces (node_of_plan plan.now) from to entry) }
{
    if entry > 0 {
        let node = plan.node_at(entry - 1);
        stack.push(Piece::Edge { from: node, to })?;
        stack.push(Piece::Node(node))?;
        stack.push(Piece::Edge { from, to: node })?;
    }
    Ok(())
}
