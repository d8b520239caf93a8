//! Marks on the nodes that a node reaches, for searches that follow one another over one graph.

ghost use Rattle.std.specs.Prelude.{◌≡◌, ℕ, ◌<◌, true, List, length, nat_eq, OnOk};
ghost use Rattle.graph_search.specs.NodeLists.{holds, added_all, Distinct};
ghost use Rattle.graph_search.specs.Walks.{Reached};
ghost use Rattle.graph_search.specs.Searches.{steps_to};

use crate::marks::Marks;
use std::alloc::{AllocError, Global};

/// A graph of a number of nodes that can mark where the edges of a node lead.
pub trait MarkLinks {
    /// Where the edges of a node lead.
    ghost step: { Self → ℕ → List ℕ };

    /// The number of nodes.
    ghost count: { Self → ℕ };

    /// Marks the successors of a node.
    fn spread(&self, node: u32, marks: &mut Marks) -> Result<(), AllocError>
        requires size { marks.old.count ≡ count self.now }
        requires inside { node < count self.now }
        requires below { (q : ℕ) → holds nat_eq q (step self.now node) ≡ true → q < count self.now }
        ensures ok { OnOk result (marks.new.nodes ≡ added_all nat_eq marks.old.nodes (step self.now node)) }
        ensures same { marks.new.count ≡ marks.old.count };
}

/// Marks the nodes that a node reaches, itself among them, and no others. Earlier marks are forgotten.
pub fn mark_reached<L: MarkLinks>(
    alloc: Global,
    links: &L,
    marks: &mut Marks,
    start: u32,
) -> Result<(), AllocError>
    requires size { marks.old.count ≡ L.count links.now }
    requires inside { start < L.count links.now }
    requires below { (x q : ℕ) → holds nat_eq q (L.step links.now x) ≡ true → q < L.count links.now }
    ensures found { OnOk result ((x : ℕ) → holds nat_eq x marks.new.nodes ≡ true → Reached
        (steps_to nat_eq (L.step links.now)) start x) }
    ensures all { OnOk result ((x : ℕ) → Reached (steps_to nat_eq (L.step links.now)) start x
        → holds nat_eq x marks.new.nodes ≡ true) }
    ensures distinct { OnOk result (Distinct nat_eq marks.new.nodes) }
    ensures below { OnOk result ((x : ℕ) → holds nat_eq x marks.new.nodes ≡ true → x < L.count links.now) }
    ensures same { OnOk result (marks.new.count ≡ marks.old.count) }
{
    marks.forget(alloc)?;
    marks.add(start)?;
    let mut at = 0;
    while at < marks.len() {
        links.spread(marks.get(at), marks)?;
        at += 1;
    }
    Ok(())
}

/// Marks the nodes of a row.
pub fn mark_row(marks: &mut Marks, row: &[u32]) -> Result<(), AllocError>
    requires { (q : ℕ) → holds nat_eq q row.now ≡ true → q < marks.old.count }
    ensures ok { OnOk result (marks.new.nodes ≡ added_all nat_eq marks.old.nodes row.now) }
    ensures same { marks.new.count ≡ marks.old.count }
{
    for node in row {
        marks.add(*node)?;
    }
    Ok(())
}
