//! A list of nodes without repetition, in which each node can be looked up.

ghost use Rattle.std.specs.Prelude.{◌≡◌, ℕ, ◌<◌, length, nat_eq, OnOk, [], List, slice_get, Some};
ghost use Rattle.graph_search.specs.NodeLists.{holds, added};

use std::alloc::{AllocError, Global};
use std::collections::BTreeSet;
use std::marker::Model;

/// Nodes in the order in which they were added, none of them twice. Its value in contracts is the list of their
/// numbers.
#[derive(Drop)]
pub struct NodeList {
    order: Vec<u32>,
    seen: BTreeSet<u32>,
}

impl Model for NodeList {
    ghost use Rattle.std.specs.Prelude.{◌≡◌, ℕ, List, nat_eq};
    ghost use Rattle.std.specs.Ordering.{nat_cmp};
    ghost use Rattle.std.specs.BTreeSet as tree;
    ghost use Rattle.std.specs.Coded.{coded_list, coded_ℕ};
    ghost use Rattle.graph_search.specs.NodeLists.{holds};

    ghost Value = { List ℕ };

    ghost coded = { coded_list coded_ℕ };

    ghost view = { λ nodes. nodes.order.items };

    ghost invariant = { λ nodes. (q : ℕ) → tree.contains nat_cmp nodes.seen q ≡ holds nat_eq q nodes.order.items };
}

impl NodeList {
    /// An empty list. It takes no memory.
    pub fn new(alloc: Global) -> NodeList
        ensures { result ≡ [] }
    {
        NodeList {
            order: Vec::new(alloc),
            seen: BTreeSet::new(alloc),
        }
    }

    /// The number of nodes.
    pub fn len(&self) -> usize
        ensures { result ≡ length self.now }
    {
        self.order.len()
    }

    /// The node at a place, counted from 0.
    pub fn get(&self, at: usize) -> u32
        requires { at < length self.now }
        ensures { slice_get self.now at ≡ Some result }
    {
        self.order[at]
    }

    /// Whether a node stands in the list.
    pub fn contains(&self, node: u32) -> bool
        ensures { result ≡ holds nat_eq node self.now }
    {
        self.seen.contains(&node)
    }

    /// Adds a node at the end, unless it stands in the list already.
    ///
    /// # Errors
    ///
    /// Want of memory alone.
    pub fn add(&mut self, node: u32) -> Result<(), AllocError>
        ensures { OnOk result (self.new ≡ added nat_eq self.old node) }
    {
        if !self.seen.contains(&node) {
            self.order.reserve(1)?;
            self.seen.insert(node)?;
            self.order.push(node)?;
        }
        Ok(())
    }
}
