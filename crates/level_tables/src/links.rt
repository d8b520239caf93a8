//! Edges by the nodes that they lead from, for searches.
ghost use Rattle.std.specs.Prelude.{◌≡◌, ◌↔◌, ◌&&◌, ◌||◌, ℕ, true, nat_eq, IfOk, OnOk};
ghost use Rattle.std.specs.Ordering.{nat_cmp};
ghost use Rattle.std.specs.BTreeMap as tree;
ghost use Rattle.graph_search.specs.NodeLists.{holds};
ghost use Rattle.node_elimination.specs.GivenLevels.{edges_of};
ghost use Rattle.level_tables.specs.EdgeRows.{row_or};
ghost use Rattle.level_tables.specs.LevelRows.{Onto, Upto};

use graph_search::{Links, NodeList, SearchRefusal, add_row, reach};
use sqlite_items::Items;
use std::alloc::{AllocError, Global};
use std::collections::BTreeMap;

/// A graph by a row of successors for each node that has some.
#[derive(Drop)]
pub struct EdgeRows {
    pub rows: BTreeMap<u32, Items<u32>>,
}

impl Links for EdgeRows {
    ghost use Rattle.std.specs.Ordering.{nat_cmp};
    ghost use Rattle.std.specs.BTreeMap as tree;
    ghost use Rattle.level_tables.specs.EdgeRows.{row_or};

    ghost step = { λ links node. row_or (tree.get nat_cmp links.rows node) };

    fn spread(&self, node: u32, nodes: &mut NodeList, most: usize) -> Result<(), SearchRefusal> {
        match self.rows.get(&node) {
            Some(row) => add_row(nodes, row.as_slice(), most),
            None => Ok(()),
        }
    }
}

impl EdgeRows {
    /// Adds an edge.
    pub fn add(&mut self, alloc: Global, from: u32, to: u32) -> Result<(), AllocError>
        ensures { OnOk result ((p q : ℕ) → holds nat_eq q (row_or (tree.get nat_cmp self.new.rows p)) ≡
            ((nat_eq p from && nat_eq q to) || holds nat_eq q (row_or (tree.get nat_cmp self.old.rows p)))) }
    {
        let mut row = match self.rows.remove(&from) {
            Some(row) => row,
            None => Items::new(alloc),
        };
        row.push(to)?;
        self.rows.insert(from, row)?;
        Ok(())
    }
}

/// The edges by where they lead from.
fn forward(alloc: Global, edges: &[(u32, u32)]) -> Result<EdgeRows, AllocError>
    ensures { IfOk result (λ r. (p q : ℕ) → holds nat_eq q (row_or (tree.get nat_cmp r.rows p)) ≡ edges_of edges.now p q) }
{
    let mut rows = EdgeRows {
        rows: BTreeMap::new(alloc),
    };
    for edge in edges {
        rows.add(alloc, edge.0, edge.1)?;
    }
    Ok(rows)
}

/// The edges by where they lead to.
fn backward(alloc: Global, edges: &[(u32, u32)]) -> Result<EdgeRows, AllocError>
    ensures { IfOk result (λ r. (p q : ℕ) → holds nat_eq q (row_or (tree.get nat_cmp r.rows p)) ≡ edges_of edges.now q p) }
{
    let mut rows = EdgeRows {
        rows: BTreeMap::new(alloc),
    };
    for edge in edges {
        rows.add(alloc, edge.1, edge.0)?;
    }
    Ok(rows)
}

/// The nodes that a node reaches over edges, itself among them.
pub fn ahead_of(alloc: Global, edges: &[(u32, u32)], start: u32) -> Result<NodeList, AllocError>
    ensures { IfOk result (λ xs. (x : ℕ) → (holds nat_eq x xs ≡ true) ↔ Onto (edges_of edges.now) start x) }
{
    let rows = forward(alloc, edges)?;
    match reach(alloc, &rows, start, usize::MAX) {
        Ok(found) => Ok(found),
        Err(_) => Err(AllocError),
    }
}

/// The nodes from which a node is reached over edges, itself among them.
pub fn back_of(alloc: Global, edges: &[(u32, u32)], end: u32) -> Result<NodeList, AllocError>
    ensures { IfOk result (λ xs. (x : ℕ) → (holds nat_eq x xs ≡ true) ↔ Upto (edges_of edges.now) end x) }
{
    let rows = backward(alloc, edges)?;
    match reach(alloc, &rows, end, usize::MAX) {
        Ok(found) => Ok(found),
        Err(_) => Err(AllocError),
    }
}
