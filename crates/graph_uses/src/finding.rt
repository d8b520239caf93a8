//! Uses are found over the numbered points of a graph.

ghost use Rattle.std.specs.Prelude.{◌≡◌, ◌<◌, ◌^◌, ℕ, true, Contains, length, nat_eq, IfSome, IfOk, OnOk};
ghost use Rattle.elf32_image.specs.Parts.{ImageValue};
ghost use Rattle.fetch_timing.specs.Timings.{IsWithinLimits};
ghost use Rattle.graph_search.specs.NodeLists.{holds};
ghost use Rattle.graph_search.specs.Rows.{row_in};
ghost use Rattle.flow_graph.specs.declared.graph.Block.{Block as BlockValue};
ghost use Rattle.flow_graph.specs.Flow.{flow_in};
ghost use Rattle.flow_graph.specs.Graphs.{IsGraphOf};
ghost use Rattle.interval_loops.specs.Nests.{IsNestOf};
ghost use Rattle.level_tables.specs.FlowLevels.{AreUsesIn};
ghost use Rattle.block_points.specs.Numbering.{total_of};
ghost use Rattle.line_uses.specs.Leaves.{AreUsesOf};
ghost use Rattle.line_uses.specs.PointMaps.{ArePointMaps};
ghost use Rattle.graph_analyses.specs.GraphAnalyses.{maps_of};
ghost use Rattle.graph_uses.specs.GraphUses.{AreGraphUses};

use block_points::{BlockPoints, number_points};
use fetch_timing::Timing;
use flow_graph::{Block, BlockGraph};
use interval_loops::LoopNest;
use line_uses::{LineUses, PointTables, blocks_of_a_nest_are_a_function, uses};
use std::alloc::{AllocError, Global};

/// The points of a graph's blocks by numbers, the scopes of their uses, and what stands of each block in its leaf.
#[derive(Drop)]
pub struct GraphUses {
    pub points: BlockPoints,
    pub uses: LineUses,
}

/// How many points blocks have, where 32 bits hold that number.
fn total_points(blocks: &[Block]) -> Option<u32>
    ensures some { IfSome result (λ n. total_of blocks.now ≡ n) }
{
    let mut total: u32 = 0;
    for block in blocks {
        let count = u32::try_from(block.points.len()).ok()?;
        total = total.checked_add(count)?;
    }
    Some(total)
}

/// The uses over points that are numbered.
fn uses_of_points(
    alloc: Global,
    points: &BlockPoints,
    nest: &LoopNest,
    timing: &Timing,
) -> Result<LineUses, AllocError>
    requires limits { IsWithinLimits timing.now }
    requires count { length points.now.home < 2 ^ 32 }
    requires maps { ArePointMaps (maps_of nest.now points.now) }
    requires inside { (b q : ℕ) → holds nat_eq q (row_in points.now.rows b) ≡ true → q < length points.now.home }
    ensures { IfOk result (AreUsesOf timing.now.sets timing.now.ways timing.now.miss (maps_of nest.now points.now)
        points.now.rows points.now.costs) }
{
    let tables = PointTables::new(
        points.next.as_slice(),
        points.before.as_slice(),
        points.lines.as_slice(),
        points.home.as_slice(),
        nest.around.as_slice(),
    );
    uses(
        alloc,
        &tables,
        points.rows.as_slice(),
        points.costs.as_slice(),
        timing.sets,
        timing.ways as usize,
        timing.miss,
    )
}

/// The uses of a function's graph, with its loops, by a timing.
///
/// # Errors
///
/// Want of memory alone; a graph of 2^32 points or more, which no memory holds, counts as that.
pub fn graph_uses(
    alloc: Global,
    graph: &BlockGraph,
    nest: &LoopNest,
    timing: &Timing,
) -> Result<GraphUses, AllocError>
    requires limits { IsWithinLimits timing.now }
    requires graph { (image : ImageValue) × (entry : ℕ) × IsGraphOf image entry graph.now }
    requires nest { IsNestOf (flow_in graph.now) nest.now }
    ensures uses { IfOk result (AreGraphUses timing.now graph.now nest.now) }
    ensures leaves { IfOk result (λ u. AreUsesIn (flow_in graph.now) nest.now u.uses.blocks) }
    ensures few { OnOk result ((b : BlockValue) → Contains graph.now.blocks b → length b.points < 2 ^ 32) }
{
    let Some(_total) = total_points(graph.blocks.as_slice()) else {
        return Err(AllocError);
    };
    let points = number_points(alloc, timing, graph.blocks.as_slice())?;
    blocks_of_a_nest_are_a_function();
    let uses = uses_of_points(alloc, &points, nest, timing)?;
    Ok(GraphUses { points, uses })
}
