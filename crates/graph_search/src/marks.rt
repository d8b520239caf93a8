//! Marks on nodes, which can all be forgotten at once.

ghost use Rattle.std.specs.Prelude.{◌≡◌, ◌<◌, ℕ, [], length, nat_eq, slice_get, Some, IfOk, OnOk};
ghost use Rattle.graph_search.specs.NodeLists.{added, holds};

use std::alloc::{AllocError, Global};
use std::marker::Model;

/// Marks on the nodes of a graph. Its value in contracts: the marked nodes in the order in which they were marked, and
/// the number of all nodes.
#[derive(Drop)]
pub struct Marks {
    order: Vec<u32>,
    // The number of the round in which a node was marked last.
    stamps: Vec<u32>,
    round: u32,
}

impl Model for Marks {
    ghost use Rattle.std.specs.Prelude.{length};
    ghost use Rattle.graph_search.specs.Marking.{AreStamps, Marked};

    ghost Value = { Marked };

    ghost view = { λ marks. record { nodes = marks.order.items; count = length marks.stamps.items } };

    ghost invariant = { λ marks. AreStamps marks.stamps.items marks.round marks.order.items };
}

impl Marks {
    /// No marks, on the nodes 0 to `count` - 1.
    pub fn new(alloc: Global, count: usize) -> Result<Marks, AllocError>
        ensures { IfOk result (λ marks. marks ≡ record { nodes = []; count = count }) }
    {
        let stamps = std::vec![in alloc; 0u32; count]?;
        Ok(Marks {
            order: Vec::new(alloc),
            stamps,
            round: 1,
        })
    }

    /// The number of marked nodes.
    pub fn len(&self) -> usize
        ensures { result ≡ length self.now.nodes }
    {
        self.order.len()
    }

    /// The node that was marked at a place, counted from 0.
    pub fn get(&self, at: usize) -> u32
        requires { at < length self.now.nodes }
        ensures { slice_get self.now.nodes at ≡ Some result }
    {
        self.order[at]
    }

    /// Whether a node is marked.
    pub fn has(&self, node: u32) -> bool
        ensures { result ≡ holds nat_eq node self.now.nodes }
    {
        match self.stamps.get(node as usize) {
            Some(stamp) => *stamp == self.round,
            None => false,
        }
    }

    /// Marks a node.
    pub fn add(&mut self, node: u32) -> Result<(), AllocError>
        requires { node < self.old.count }
        ensures ok { OnOk result (self.new.nodes ≡ added nat_eq self.old.nodes node) }
        ensures count { self.new.count ≡ self.old.count }
    {
        if !self.has(node) {
            self.order.reserve(1)?;
            self.stamps[node as usize] = self.round;
            self.order.push(node)?;
        }
        Ok(())
    }

    /// Forgets the marks. Rounds are numbered, so that this looks at no node, but once in 2^32 times.
    #[tactic(auto, using(crate::proofs::StampLemmas::new_round))]
    pub fn forget(&mut self, alloc: Global) -> Result<(), AllocError>
        ensures nodes { OnOk result (self.new.nodes ≡ []) }
        ensures count { self.new.count ≡ self.old.count }
    {
        if self.round == u32::MAX {
            *self = Marks::new(alloc, self.stamps.len())?;
        } else {
            self.order.clear();
            self.round += 1;
        }
        Ok(())
    }
}
