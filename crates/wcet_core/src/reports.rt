//! The report of a function's graph and its loops.

ghost use Rattle.std.specs.Prelude.{◌≡◌, ◌<◌, ◌^◌, ℕ, [], Contains, length, IfOk, IsErrOf};
ghost use Rattle.elf32_image.specs.Parts.{ImageValue};
ghost use Rattle.fetch_timing.specs.Timings.{IsWithinLimits};
ghost use Rattle.wsym_formula.specs.Trees.{formula_of};
ghost use Rattle.simplifier.specs.Normal.{normal};
ghost use Rattle.simplifier.specs.Simplified.{known_of};
ghost use Rattle.interval_loops.specs.Nests.{IsNestOf};
ghost use Rattle.flow_graph.specs.declared.graph.Block.{Block as BlockValue};
ghost use Rattle.flow_graph.specs.Flow.{flow_in};
ghost use Rattle.flow_graph.specs.Graphs.{IsGraphOf};
ghost use Rattle.report_bounds.specs.Promises.{printed_bounds};
ghost use Rattle.graph_reports.specs.Parts.{HasParts};
ghost use Rattle.wcet_core.specs.Analyses.{IsMadeOf};
ghost use Rattle.wcet_core.specs.Refusals.{HasLargeTree};

use fetch_timing::Timing;
use flow_graph::{BlockGraph, graphs_are_flows};
use graph_reports::unbounded_report;
use graph_uses::graph_uses;
use interval_loops::LoopNest;
use level_tables::tree;
use node_elimination::TreeRefusal;
use report_elements::Formula;
use report_lines::Report;
use simplifier::simplify;
use sqlite_items::Items;
use std::alloc::{AllocError, Global};
use wsym_formula::from_tree;
use wsym_terms::{ParamRange, Tree};

/// The normal form of a tree's formula, where no bound of a loop is known.
fn normal_formula(alloc: Global, tree: &Tree, miss: u64) -> Result<Formula, AllocError>
    ensures { IfOk result (λ f. f ≡ normal (known_of []) (formula_of miss tree.now)) }
{
    let formula = from_tree(alloc, tree, miss)?;
    let bounds = Items::new(alloc);
    let simple = simplify(alloc, formula, &bounds)?;
    Ok(Formula::new(simple))
}

/// The report with a tree.
fn report_with(
    alloc: Global,
    graph: &BlockGraph,
    nest: &LoopNest,
    timing: &Timing,
    stack: u32,
    params: Items<ParamRange>,
    tree: Tree,
) -> Result<Report, AllocError>
    requires { (b : BlockValue) → Contains graph.now.blocks b → length b.points < 2 ^ 32 }
    ensures parts { IfOk result (HasParts graph.now nest.now timing.now stack params) }
    ensures tree { IfOk result (λ r. r.tree ≡ tree) }
    ensures formula { IfOk result (λ r. r.formula ≡ normal (known_of (printed_bounds r))
        (formula_of timing.now.miss r.tree)) }
{
    let formula = normal_formula(alloc, &tree, timing.miss)?;
    let report = unbounded_report(alloc, graph, nest, *timing, stack, params, tree, formula)?;
    Ok(report)
}

/// The report of a function's graph and its loops.
///
/// # Errors
///
/// `TooLarge` where the tree is larger or nests deeper than a tree may; `Memory` where memory was refused.
pub(crate) fn report_of(
    alloc: Global,
    graph: &BlockGraph,
    nest: &LoopNest,
    timing: &Timing,
    stack: u32,
    params: Items<ParamRange>,
) -> Result<Report, TreeRefusal>
    requires limits { IsWithinLimits timing.now }
    requires graph { (image : ImageValue) × (entry : ℕ) × IsGraphOf image entry graph.now }
    requires nest { IsNestOf (flow_in graph.now) nest.now }
    ensures made { IfOk result (IsMadeOf timing.now stack params graph.now nest.now) }
    ensures large { IsErrOf result TreeRefusal.TooLarge → HasLargeTree timing.now graph.now nest.now }
{
    let Ok(uses) = graph_uses(alloc, graph, nest, timing) else {
        return Err(TreeRefusal::Memory);
    };
    graphs_are_flows();
    let tree = tree(alloc, graph, nest, uses.uses.blocks.as_slice())?;
    match report_with(alloc, graph, nest, timing, stack, params, tree) {
        Ok(report) => Ok(report),
        Err(_) => Err(TreeRefusal::Memory),
    }
}
