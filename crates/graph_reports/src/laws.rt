//! That a report describes the analysis of its function, and keeps what a report promises.

ghost use Rattle.std.specs.Prelude.{◌≡◌, ◌-◌, ◌<◌, ◌^◌, ℕ, suc, List, Option};
ghost use Rattle.elf32_image.specs.Parts.{ImageValue};
ghost use Rattle.fetch_timing.specs.declared.timing.Timing.{Timing};
ghost use Rattle.fetch_timing.specs.Timings.{IsWithinLimits};
ghost use Rattle.wsym_terms.specs.declared.bounds.ParamRange.{ParamRange};
ghost use Rattle.wsym_formula.specs.Trees.{formula_of};
ghost use Rattle.simplifier.specs.Normal.{normal};
ghost use Rattle.simplifier.specs.Simplified.{known_of};
ghost use Rattle.path_facts.specs.Histories.{IsFollowed};
ghost use Rattle.flow_graph.specs.declared.graph.BlockGraph.{BlockGraph as BlockGraphValue};
ghost use Rattle.flow_graph.specs.Flow.{flow_in};
ghost use Rattle.flow_graph.specs.Graphs.{IsGraphOf};
ghost use Rattle.interval_loops.specs.declared.nest.LoopNest.{LoopNest as LoopNestValue};
ghost use Rattle.interval_loops.specs.Nests.{IsNestOf};
ghost use Rattle.tree_law.specs.Levels.{Nest, function_tree};
ghost use Rattle.block_points.specs.declared.tables.BlockPoints.{BlockPoints as BlockPointsValue};
ghost use Rattle.block_points.specs.Tables.{ArePoints};
ghost use Rattle.line_uses.specs.declared.leaves.LineUses.{LineUses as LineUsesValue};
ghost use Rattle.line_uses.specs.Leaves.{AreUsesOf};
ghost use Rattle.graph_analyses.specs.GraphAnalyses.{analysis_of, maps_of};
ghost use Rattle.level_tables.specs.FlowLevels.{IsLevelsOf};
ghost use Rattle.report_lines.specs.declared.report.Report.{Report as ReportValue};
ghost use Rattle.report_bounds.specs.Descriptions.{IsReportOf};
ghost use Rattle.report_bounds.specs.Promises.{HasNoBounds, IsKept, printed_bounds};
ghost use Rattle.graph_reports.specs.Parts.{HasParts};

use graph_analyses::graphs_are_analyses;
use report_bounds::{formulas_are_exact, no_bounds_are_kept, reports_are_bounds};

/// A report with the parts that a graph and its loops give, and with the tree of an analysis of them, describes this
/// analysis, and prints no bounds.
pub fn reports_describe_analyses()
    ensures describes { (image : ImageValue) (t : Timing) (entry stack : ℕ) (g : BlockGraphValue) (n : LoopNestValue)
        (p : BlockPointsValue) (scopes : List (Option ℕ)) (rank : ℕ → ℕ) (nest : Nest) (params : List ParamRange)
        (r : ReportValue) → IsGraphOf image entry g → ArePoints t g.blocks p → HasParts g n t stack params r
        → r.tree ≡ function_tree nest (suc ((analysis_of g n p scopes rank nest).height 0))
        → IsReportOf t entry stack (analysis_of g n p scopes rank nest) r }
    ensures unbounded { (t : Timing) (stack : ℕ) (g : BlockGraphValue) (n : LoopNestValue) (params : List ParamRange)
        (r : ReportValue) → HasParts g n t stack params r → HasNoBounds r }
{}

/// A report with the parts that a function's graph and its loops give, with the tree of levels of them and with the
/// normal form of its formula, keeps what a report promises: it describes the function, its formula has the value of
/// its tree, and no returning run costs more. What is asked of the function is that each return brings its own return
/// address.
pub fn graph_reports_are_kept()
    ensures { (image : ImageValue) (t : Timing) (entry stack : ℕ) (g : BlockGraphValue) (n : LoopNestValue)
        (p : BlockPointsValue) (u : LineUsesValue) (nest : Nest) (params : List ParamRange) (r : ReportValue)
        → entry < 2 ^ 32 → stack < 2 ^ 31 → IsWithinLimits t → IsGraphOf image entry g → IsNestOf (flow_in g) n
        → IsFollowed image entry stack → ArePoints t g.blocks p
        → AreUsesOf t.sets t.ways t.miss (maps_of n p) p.rows p.costs u → IsLevelsOf (flow_in g) n u.blocks nest
        → HasParts g n t stack params r → r.tree ≡ function_tree nest 17
        → r.formula ≡ normal (known_of (printed_bounds r)) (formula_of t.miss r.tree) → IsKept image t entry stack r }
{
    graphs_are_analyses();
    reports_describe_analyses();
    no_bounds_are_kept();
    reports_are_bounds();
    formulas_are_exact();
}
