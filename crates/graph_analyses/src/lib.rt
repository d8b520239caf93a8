//! That a function's graph, with its loops, the uses of its blocks and the levels of its tree, is an analysis of the
//! function, as the bound on runs wants one. There is no code here: the law is a call without a body.
#![tactic(auto)]

ghost use Rattle.std.specs.Prelude.{◌≡◌, ℕ, Option, List};
ghost use Rattle.elf32_image.specs.Parts.{ImageValue};
ghost use Rattle.fetch_timing.specs.declared.timing.Timing.{Timing};
ghost use Rattle.flow_graph.specs.declared.graph.BlockGraph.{BlockGraph as BlockGraphValue};
ghost use Rattle.flow_graph.specs.Flow.{flow_in};
ghost use Rattle.flow_graph.specs.Graphs.{IsGraphOf};
ghost use Rattle.interval_loops.specs.declared.nest.LoopNest.{LoopNest as LoopNestValue};
ghost use Rattle.interval_loops.specs.Nests.{IsNestOf};
ghost use Rattle.tree_law.specs.Levels.{Nest};
ghost use Rattle.block_points.specs.declared.tables.BlockPoints.{BlockPoints as BlockPointsValue};
ghost use Rattle.block_points.specs.Tables.{ArePoints};
ghost use Rattle.line_uses.specs.declared.leaves.LineUses.{LineUses as LineUsesValue};
ghost use Rattle.line_uses.specs.Leaves.{AreUsesOf};
ghost use Rattle.cycle_bounds.specs.Functions.{IsAnalysisOf};
ghost use Rattle.graph_analyses.specs.GraphAnalyses.{analysis_of, maps_of};
ghost use Rattle.level_tables.specs.FlowLevels.{IsLevelsOf};

/// The graph of a function, its loops, its numbered points, the uses of its blocks and the levels of its loops are an
/// analysis of the function, for some order of its blocks.
pub fn graphs_are_analyses()
    ensures { (image : ImageValue) (t : Timing) (entry : ℕ) (g : BlockGraphValue) (n : LoopNestValue)
        (p : BlockPointsValue) (u : LineUsesValue) (nest : Nest) → IsGraphOf image entry g → IsNestOf (flow_in g) n
        → ArePoints t g.blocks p → AreUsesOf t.sets t.ways t.miss (maps_of n p) p.rows p.costs u
        → IsLevelsOf (flow_in g) n u.blocks nest
        → (rank : ℕ → ℕ) × IsAnalysisOf image t entry (analysis_of g n p u.scopes rank nest) }
{}
