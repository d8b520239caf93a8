//! What lies on paths from the header of a level to its ends.
ghost use Rattle.std.specs.Prelude.{◌≡◌, ◌↔◌, ℕ, true, nat_eq, IfOk};
ghost use Rattle.std.specs.Ordering.{nat_cmp};
ghost use Rattle.std.specs.BTreeSet as set;
ghost use Rattle.graph_search.specs.NodeLists.{holds};
ghost use Rattle.graph_search.specs.Orders.{Rising};
ghost use Rattle.node_elimination.specs.GivenLevels.{edges_of};
ghost use Rattle.level_tables.specs.LevelRows.{ArePaths, Onto, Upto};
ghost use Rattle.level_tables.specs.PathEdges.{edges_between, leads_inside};

use flow_tree::PathRows;
use graph_search::NodeList;
use sqlite_items::Items;
use std::alloc::{AllocError, Global};
use std::collections::BTreeSet;

/// The edges on paths from a header to an end, by the nodes that the header reaches and those that reach the end.
pub fn edges_on_paths(
    alloc: Global,
    edges: &[(u32, u32)],
    ahead: &NodeList,
    back: &NodeList,
) -> Result<Items<(u32, u32)>, AllocError>
    ensures { IfOk result (λ es. es ≡ edges_between ahead.now back.now edges.now) }
{
    let mut kept = Items::new(alloc);
    for edge in edges {
        if ahead.contains(edge.0) {
            if back.contains(edge.1) {
                kept.push((edge.0, edge.1))?;
            }
        }
    }
    Ok(kept)
}

/// The nodes to which edges lead, but for a header and an end.
fn targets_of(
    alloc: Global,
    edges: &[(u32, u32)],
    header: u32,
    end: u32,
) -> Result<BTreeSet<u32>, AllocError>
    ensures { IfOk result (λ s. (u : ℕ) → set.contains nat_cmp s u ≡ leads_inside header end edges.now u) }
{
    let mut targets = BTreeSet::new(alloc);
    for edge in edges {
        if edge.1 != header {
            if edge.1 != end {
                targets.insert(edge.1)?;
            }
        }
    }
    Ok(targets)
}

/// The numbers of a set, ascending.
fn ascending(alloc: Global, mut numbers: BTreeSet<u32>) -> Result<Items<u32>, AllocError>
    ensures exact { IfOk result (λ v. (u : ℕ) → set.contains nat_cmp numbers u ≡ holds nat_eq u v) }
    ensures rising { IfOk result (λ v. Rising (λ u. u) v) }
{
    let mut rising = Items::new(alloc);
    while let Some(number) = numbers.pop_first() {
        rising.push(number)?;
    }
    Ok(rising)
}

/// What lies on paths from a header to an end, by the nodes that the header reaches and those that reach the end.
pub fn rows_between(
    alloc: Global,
    edges: &[(u32, u32)],
    ahead: &NodeList,
    back: &NodeList,
    header: u32,
    end: u32,
) -> Result<PathRows, AllocError>
    requires ahead { (x : ℕ) → (holds nat_eq x ahead.now ≡ true) ↔ Onto (edges_of edges.now) header x }
    requires back { (x : ℕ) → (holds nat_eq x back.now ≡ true) ↔ Upto (edges_of edges.now) end x }
    ensures { IfOk result (ArePaths (edges_of edges.now) header end) }
{
    let kept = edges_on_paths(alloc, edges, ahead, back)?;
    let targets = targets_of(alloc, kept.as_slice(), header, end)?;
    let nodes = ascending(alloc, targets)?;
    Ok(PathRows { nodes, edges: kept })
}
