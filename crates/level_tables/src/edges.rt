//! The edges of levels.
ghost use Rattle.std.specs.Prelude.{◌≡◌, ◌<◌, ℕ, ◌++◌, ◌∷◌, [], true, nat_eq, if◌then◌else◌, IfOk, OnOk};
ghost use Rattle.graph_search.specs.NodeLists.{holds};
ghost use Rattle.level_tables.specs.LevelPlaces.{edges_from, edges_of_block, edges_of_places};

use crate::places::LevelPlaces;
use graph_search::FlowGraph;
use sqlite_items::Items;
use std::alloc::{AllocError, Global};

/// Adds where edges from a node lead in a level.
fn add_edges(
    places: &LevelPlaces,
    from: u32,
    targets: &[u32],
    edges: &mut Items<(u32, u32)>,
) -> Result<(), AllocError>
    ensures { OnOk result (edges.new ≡ edges.old ++ edges_from places.now from targets.now) }
{
    for target in targets {
        match places.target(from, *target) {
            Some(to) => edges.push((from, to))?,
            None => {}
        }
    }
    Ok(())
}

/// Adds the edges that a block gives a level.
fn add_block<G: FlowGraph>(
    graph: &G,
    places: &LevelPlaces,
    block: u32,
    edges: &mut Items<(u32, u32)>,
) -> Result<(), AllocError>
    requires { block < (G.flow graph.now).count }
    ensures { OnOk result (edges.new ≡ edges.old ++ edges_of_block places.now (G.flow graph.now) block) }
{
    let from = places.node(block);
    add_edges(places, from, graph.row(block), edges)?;
    if graph.returns(block) {
        edges.push((from, places.leave))?;
    }
    Ok(())
}

/// The edges of a level whose blocks are given.
pub fn edges_of_level<G: FlowGraph>(
    alloc: Global,
    graph: &G,
    places: &LevelPlaces,
    blocks: &[u32],
) -> Result<Items<(u32, u32)>, AllocError>
    requires { (u : ℕ) → holds nat_eq u blocks.now ≡ true → u < (G.flow graph.now).count }
    ensures { IfOk result (λ es. es ≡ edges_of_places places.now (G.flow graph.now) blocks.now) }
{
    let mut edges = Items::new(alloc);
    if places.level == 0 {
        edges.push((places.header(), places.node(graph.entry())))?;
    }
    for block in blocks {
        add_block(graph, places, *block, &mut edges)?;
    }
    Ok(edges)
}
