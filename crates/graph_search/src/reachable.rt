//! The nodes that a node reaches, up to a limit.

ghost use Rattle.std.specs.Prelude.{◌≡◌, ℕ, ◌<◌, ◌≤◌, true, List, length, nat_eq, IfOk, OnOk, IsErrOf};
ghost use Rattle.graph_search.specs.NodeLists.{holds, added_all, MoreThan};
ghost use Rattle.graph_search.specs.Rows.{row_in};
ghost use Rattle.graph_search.specs.Walks.{Reached};
ghost use Rattle.graph_search.specs.Searches.{steps_to};

use crate::node_list::NodeList;
use sqlite_items::Items;
use std::alloc::{AllocError, Global};

/// Why a search gives no nodes.
#[derive(Clone, Copy, Debug, PartialEq, Eq)]
pub enum SearchRefusal {
    /// Memory was refused.
    Memory,
    /// More nodes are reached than the limit allows.
    TooLarge,
}

/// A graph that can say where the edges of a node lead.
pub trait Links {
    /// Where the edges of a node lead.
    ghost step: { Self → ℕ → List ℕ };

    /// Adds the successors of a node to a list, which is to have at most a number of nodes.
    ///
    /// # Errors
    ///
    /// `TooLarge` only where the list with all of them would have more.
    fn spread(&self, node: u32, nodes: &mut NodeList, most: usize) -> Result<(), SearchRefusal>
        requires { length nodes.old ≤ most }
        ensures ok { OnOk result ((nodes.new ≡ added_all nat_eq nodes.old (step self.now node)) ×
            (length nodes.new ≤ most)) }
        ensures many { IsErrOf result SearchRefusal.TooLarge → most < length
            (added_all nat_eq nodes.old (step self.now node)) };
}

/// The nodes that a node reaches, itself among them, each once.
///
/// # Errors
///
/// `TooLarge` exactly where they are more than `most`.
pub fn reach<L: Links>(
    alloc: Global,
    links: &L,
    start: u32,
    most: usize,
) -> Result<NodeList, SearchRefusal>
    requires { 0 < most }
    ensures found { IfOk result (λ xs. (x : ℕ) → holds nat_eq x xs ≡ true → Reached
        (steps_to nat_eq (L.step links.now)) start x) }
    ensures all { IfOk result (λ xs. (x : ℕ) → Reached (steps_to nat_eq (L.step links.now)) start x → holds nat_eq x xs
        ≡ true) }
    ensures few { IfOk result (λ xs. MoreThan nat_eq most (Reached (steps_to nat_eq (L.step links.now)) start) → ⊥) }
    ensures many { IsErrOf result SearchRefusal.TooLarge → MoreThan nat_eq most
        (Reached (steps_to nat_eq (L.step links.now)) start) }
{
    let mut nodes = NodeList::new(alloc);
    nodes.add(start).map_err(|_| SearchRefusal::Memory)?;
    let mut at = 0;
    while at < nodes.len() {
        links.spread(nodes.get(at), &mut nodes, most)?;
        at += 1;
    }
    Ok(nodes)
}

/// Adds the nodes of a row to a list, which is to have at most a number of nodes.
///
/// # Errors
///
/// `TooLarge` only where the list with all of them would have more.
pub fn add_row(nodes: &mut NodeList, row: &[u32], most: usize) -> Result<(), SearchRefusal>
    requires { length nodes.old ≤ most }
    ensures ok { OnOk result ((nodes.new ≡ added_all nat_eq nodes.old row.now) × (length nodes.new ≤ most)) }
    ensures many { IsErrOf result SearchRefusal.TooLarge → most < length (added_all nat_eq nodes.old row.now) }
{
    for node in row {
        nodes.add(*node).map_err(|_| SearchRefusal::Memory)?;
        if nodes.len() > most {
            return Err(SearchRefusal::TooLarge);
        }
    }
    Ok(())
}

/// A graph by a row for each node; a node past the last row has no successors. Over a table of predecessors a search
/// goes backwards.
#[derive(Clone, Copy)]
pub struct RowLinks<'a> {
    pub rows: &'a [Items<u32>],
}

impl<'a> Links for RowLinks<'a> {
    ghost use Rattle.graph_search.specs.Rows.{row_in};

    ghost step = { λ links node. row_in links.rows.now node };

    fn spread(&self, node: u32, nodes: &mut NodeList, most: usize) -> Result<(), SearchRefusal> {
        match self.rows.get(node as usize) {
            Some(row) => add_row(nodes, row.as_slice(), most),
            None => Ok(()),
        }
    }
}
