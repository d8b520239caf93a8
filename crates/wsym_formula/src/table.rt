ghost use Rattle.std.specs.Prelude.{◌≡◌, List, [], length, IfOk, OnOk, OnErr, Some, slice_get, IsTrue, ◌↔◌, ◌<◌, ◌^◌, ◌-◌};
ghost use Rattle.wsym_formula.specs.Tables.{Extends, IsBelow, IsClosed, IsTable, meaning_at, meanings, opened};

use crate::nodes::Node;
use indexmap::IndexSet;
use std::alloc::{AllocError, Global};
use std::marker::Model;

/// A formula as a table of different nodes, each with members that are earlier nodes. Equal terms are one node.
/// Its meaning is its last node, opened as a term. Contracts see the list of its nodes.
#[derive(Drop)]
pub struct Shared {
    nodes: IndexSet<Node>,
}

impl Model for Shared {
    ghost use Rattle.std.specs.Prelude.{List};
    ghost use Rattle.wsym_formula.specs.declared.nodes.Node.{Node as NodeValue};

    ghost Value = { List NodeValue };

    ghost use Rattle.wsym_formula.specs.Tables.{IsTable};

    ghost view = { λ s. s.nodes.keys };

    ghost invariant = { λ s. IsTable s.nodes.keys };
}

impl Shared {
    /// A table without a node. It takes no memory.
    pub fn new(alloc: Global) -> Shared
        ensures { result ≡ [] }
    {
        Shared {
            nodes: IndexSet::new(alloc),
        }
    }

    /// The number of nodes. It takes no memory.
    pub fn nodes(&self) -> u32
        ensures { result ≡ length self.now }
    {
        self.nodes.len() as u32
    }

    /// Whether there is room for a further node.
    pub fn has_room(&self) -> bool
        ensures { IsTrue result ↔ (length self.now < 2 ^ 32 - 1) }
    {
        self.nodes.len() < u32::MAX as usize
    }

    /// The node with a number below `nodes`. It takes no memory.
    pub fn node(&self, at: u32) -> &Node
        requires { at < length self.now }
        ensures node { slice_get self.now at ≡ Some result.now }
        ensures table { IsTable self.now }
        ensures closed { IsClosed self.now }
    {
        &self.nodes.as_slice()[at as usize]
    }

    /// The nodes, in order. It takes no memory.
    pub fn as_slice(&self) -> &[Node]
        ensures nodes { result.now ≡ self.now }
        ensures closed { IsClosed result.now }
    {
        self.nodes.as_slice()
    }

    /// Puts a node into the table and gives its number. A node that is there changes nothing, and its number is
    /// given again. After an error, for want of memory alone, the table is as before and the node is dropped.
    pub fn add(&mut self, node: Node) -> Result<u32, AllocError>
        requires room { length self.old < 2 ^ 32 - 1 }
        requires below { IsBelow (length self.old) node }
        ensures within { IfOk result (λ k. k < length self.new) }
        ensures extends { OnOk result (Extends self.old self.new) }
        ensures means { IfOk result (λ k. meaning_at self.new k ≡ opened (meanings self.old) node) }
        ensures err { OnErr result (self.new ≡ self.old) }
    {
        let (at, _) = self.nodes.insert_full(node)?;
        Ok(at as u32)
    }
}

/// Puts a node into the table. A table of 2^32 - 1 nodes takes no further one: it is out of memory.
pub fn place(table: &mut Shared, node: Node) -> Result<u32, AllocError>
    requires { IsBelow (length table.old) node }
    ensures within { IfOk result (λ k. k < length table.new) }
    ensures extends { OnOk result (Extends table.old table.new) }
    ensures means { IfOk result (λ k. meaning_at table.new k ≡ opened (meanings table.old) node) }
{
    if !table.has_room() {
        return Err(AllocError);
    }
    table.add(node)
}
