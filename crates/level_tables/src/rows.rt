//! The rows of the levels of a graph's loops.
ghost use Rattle.std.specs.Prelude.{◌≡◌, ◌+◌, ◌<◌, ◌^◌, ◌++◌, ◌∷◌, [], ℕ, true, nat_eq, nat_lt, length, IfOk, OnOk};
ghost use Rattle.graph_search.specs.Flows.{IsBounded};
ghost use Rattle.graph_search.specs.NodeLists.{holds};
ghost use Rattle.graph_search.specs.Rows.{row_in};
ghost use Rattle.interval_loops.specs.Nests.{IsNestOf, around_of};
ghost use Rattle.interval_loops.specs.Rounds.{within_by};
ghost use Rattle.node_elimination.specs.GivenLevels.{edges_of};
ghost use Rattle.flow_tree.specs.FlowTables.{header_by};
ghost use Rattle.flow_tree.specs.declared.tables.LevelRows.{LevelRows as LevelRowsValue};
ghost use Rattle.level_tables.specs.LevelRows.{AreLevelsIn, ArePaths, IsLevelIn};

use crate::blocks::blocks_of_loops;
use crate::edges::edges_of_level;
use crate::links::{ahead_of, back_of};
use crate::paths::rows_between;
use crate::places::LevelPlaces;
use flow_tree::LevelRows;
use graph_search::FlowGraph;
use interval_loops::LoopNest;
use sqlite_items::Items;
use std::alloc::{AllocError, Global};

/// The rows of a level whose edges are given.
fn rows_over(
    alloc: Global,
    places: &LevelPlaces,
    edges: &[(u32, u32)],
) -> Result<LevelRows, AllocError>
    ensures turning { IfOk result (λ r. ArePaths (edges_of edges.now)
        (header_by places.now.count places.now.nest.now places.now.level) places.now.close r.turns) }
    ensures leaving { IfOk result (λ r. ArePaths (edges_of edges.now)
        (header_by places.now.count places.now.nest.now places.now.level) places.now.leave r.leaves) }
{
    let header = places.header();
    let ahead = ahead_of(alloc, edges, header)?;
    let closing = back_of(alloc, edges, places.close)?;
    let turns = rows_between(alloc, edges, &ahead, &closing, header, places.close)?;
    let leaving = back_of(alloc, edges, places.leave)?;
    let leaves = rows_between(alloc, edges, &ahead, &leaving, header, places.leave)?;
    Ok(LevelRows { turns, leaves })
}

/// The rows of a level whose blocks are given.
pub fn rows_of_level<G: FlowGraph>(
    alloc: Global,
    graph: &G,
    places: &LevelPlaces,
    blocks: &[u32],
) -> Result<LevelRows, AllocError>
    requires count { places.now.count ≡ (G.flow graph.now).count }
    requires close { places.now.close ≡ (G.flow graph.now).count + 1 }
    requires leave { places.now.leave ≡ (G.flow graph.now).count + 2 }
    requires blocks { (u : ℕ) → holds nat_eq u blocks.now
        ≡ within_by (G.flow graph.now) (around_of places.now.nest.now) places.now.level u }
    requires below { (u : ℕ) → holds nat_eq u blocks.now ≡ true → u < (G.flow graph.now).count }
    ensures { IfOk result (IsLevelIn (G.flow graph.now) places.now.nest.now places.now.level) }
{
    let edges = edges_of_level(alloc, graph, places, blocks)?;
    let rows = rows_over(alloc, places, edges.as_slice())?;
    Ok(rows)
}

/// All blocks, ascending.
fn all_blocks(alloc: Global, count: u32) -> Result<Items<u32>, AllocError>
    ensures { IfOk result (λ v. (u : ℕ) → holds nat_eq u v ≡ nat_lt u count) }
{
    let mut blocks = Items::new(alloc);
    for block in 0..count {
        blocks.push(block)?;
    }
    Ok(blocks)
}

/// The blocks of each level by its number; those of the whole function are all.
fn blocks_of_levels<G: FlowGraph>(
    alloc: Global,
    graph: &G,
    nest: &LoopNest,
) -> Result<Vec<Items<u32>>, AllocError>
    requires bounded { IsBounded (G.flow graph.now) }
    requires nest { IsNestOf (G.flow graph.now) nest.now }
    ensures size { IfOk result (λ v. (length v.items ≡ length nest.now.loops + 1) × (length v.items < 2 ^ 32)) }
    ensures exact { IfOk result (λ v. (c u : ℕ) → c < length v.items
        → holds nat_eq u (row_in v.items c) ≡ within_by (G.flow graph.now) (around_of nest.now) c u) }
{
    let loops = nest.loops.as_slice().len();
    if loops >= u32::MAX as usize {
        return Err(AllocError);
    }
    let mut rows = blocks_of_loops(alloc, nest.around.as_slice(), loops as u32 + 1)?;
    rows[0] = all_blocks(alloc, graph.count())?;
    Ok(rows)
}

/// Adds the rows of the next level.
fn add_level<G: FlowGraph>(
    alloc: Global,
    graph: &G,
    nest: &LoopNest,
    level: u32,
    blocks: &[u32],
    levels: &mut Vec<LevelRows>,
) -> Result<(), AllocError>
    requires bounded { IsBounded (G.flow graph.now) }
    requires nest { IsNestOf (G.flow graph.now) nest.now }
    requires blocks { (u : ℕ) → holds nat_eq u blocks.now
        ≡ within_by (G.flow graph.now) (around_of nest.now) level u }
    ensures { OnOk result ((r : LevelRowsValue) × IsLevelIn (G.flow graph.now) nest.now level r
        × (levels.new.items ≡ levels.old.items ++ r ∷ [])) }
{
    let count = graph.count();
    if count >= u32::MAX - 2 {
        return Err(AllocError);
    }
    let places = LevelPlaces {
        nest,
        count,
        level,
        close: count + 1,
        leave: count + 2,
    };
    let rows = rows_of_level(alloc, graph, &places, blocks)?;
    levels.push(rows)?;
    Ok(())
}

/// The rows of all levels of a graph's loops, by their numbers.
pub fn levels_of<G: FlowGraph>(
    alloc: Global,
    graph: &G,
    nest: &LoopNest,
) -> Result<Vec<LevelRows>, AllocError>
    requires bounded { IsBounded (G.flow graph.now) }
    requires nest { IsNestOf (G.flow graph.now) nest.now }
    ensures { IfOk result (λ v. AreLevelsIn (G.flow graph.now) nest.now v.items) }
{
    let blocks = blocks_of_levels(alloc, graph, nest)?;
    let mut levels = Vec::new(alloc);
    let mut level = 0;
    for row in blocks.as_slice() {
        add_level(alloc, graph, nest, level, row.as_slice(), &mut levels)?;
        level += 1;
    }
    Ok(levels)
}
