//! Tables that have a row of numbers for each node.

ghost use Rattle.std.specs.Prelude.{◌≡◌, ℕ, ◌<◌, ◌&&◌, ◌||◌, ◌==◌, true, nat_eq, [], length, IfOk, OnOk};
ghost use Rattle.std.specs.List.{list_any};
ghost use Rattle.graph_search.specs.NodeLists.{holds};
ghost use Rattle.graph_search.specs.Flows.{edge, IsBounded};
ghost use Rattle.graph_search.specs.Rows.{row_in, RowMore};

use crate::flow_graph::FlowGraph;
use sqlite_items::Items;
use std::alloc::{AllocError, Global};

/// Adds a number to the row of a node.
#[tactic(auto, using(crate::proofs::RowLemmas::row_set))]
pub fn add_to_row(rows: &mut Vec<Items<u32>>, node: u32, number: u32) -> Result<(), AllocError>
    requires { node < length rows.old.items }
    ensures { OnOk result (RowMore rows.old.items rows.new.items node number) }
{
    rows[node as usize].push(number)?;
    Ok(())
}

/// A table of empty rows.
#[tactic(auto, using(crate::proofs::RowLemmas::row_empty))]
pub fn empty_rows(alloc: Global, count: u32) -> Result<Vec<Items<u32>>, AllocError>
    ensures size { IfOk result (λ v. length v.items ≡ count) }
    ensures empty { IfOk result (λ v. (q : ℕ) → row_in v.items q ≡ []) }
{
    let mut rows = Vec::new(alloc);
    for _made in 0..count {
        rows.push(Items::new(alloc))?;
    }
    Ok(rows)
}

/// Adds a source to the row of each target.
fn add_source(rows: &mut Vec<Items<u32>>, targets: &[u32], source: u32) -> Result<(), AllocError>
    requires { (v : ℕ) → list_any (λ y. y == v) targets.now ≡ true → v < length rows.old.items }
    ensures size { OnOk result (length rows.new.items ≡ length rows.old.items) }
    ensures there { OnOk result ((q u : ℕ) → holds nat_eq u (row_in rows.new.items q) ≡
        ((list_any (λ y. y == q) targets.now && nat_eq u source) || holds nat_eq u (row_in rows.old.items q))) }
{
    for target in targets {
        add_to_row(rows, *target, source)?;
    }
    Ok(())
}

/// The table of predecessors: in the row of each node the sources of the edges that lead to it, ascending; a source
/// stands there once for each of its edges.
pub fn sources<G: FlowGraph>(alloc: Global, graph: &G) -> Result<Vec<Items<u32>>, AllocError>
    requires { IsBounded (G.flow graph.now) }
    ensures size { IfOk result (λ v. length v.items ≡ (G.flow graph.now).count) }
    ensures exact { IfOk result (λ v. (q u : ℕ) → holds nat_eq u (row_in v.items q) ≡ edge (G.flow graph.now) u q) }
{
    let mut rows = empty_rows(alloc, graph.count())?;
    for node in 0..graph.count() {
        add_source(&mut rows, graph.row(node), node)?;
    }
    Ok(rows)
}
