//! The control-flow tree of a flow graph with its loops.
ghost use Rattle.std.specs.Prelude.{◌≡◌, ◌<◌, ◌≤◌, ℕ, IfOk, IsErrOf};
ghost use Rattle.graph_search.specs.Flows.{IsBounded, edge, leads};
ghost use Rattle.graph_search.specs.Walks.{Reached};
ghost use Rattle.interval_loops.specs.Nests.{IsNestOf};
ghost use Rattle.tree_law.specs.Levels.{Nest, function_tree as tree_of_nest};
ghost use Rattle.wsym_terms.specs.Trees.{size_of};
ghost use Rattle.wsym_terms.specs.TreeNesting.{tree_nesting};
ghost use Rattle.flow_tree.specs.Descriptions.{IsTooLarge};
ghost use Rattle.level_tables.specs.FlowLevels.{AreUsesIn, IsLevelsOf, IsTreeOf};

use crate::rows::levels_of;
use flow_tree::{FlowTables, function_tree};
use graph_search::FlowGraph;
use interval_loops::LoopNest;
use node_elimination::TreeRefusal;
use std::alloc::Global;
use wsym_terms::{BlockUses, Tree};

/// The control-flow tree of a flow graph with the nest of its loops and what stands of each block in its leaf.
///
/// # Errors
///
/// `TooLarge` exactly where the tree's size passes 500,000 or its nesting 1,000; it comes before such a tree is made.
pub fn tree<G: FlowGraph>(
    alloc: Global,
    graph: &G,
    nest: &LoopNest,
    uses: &[BlockUses],
) -> Result<Tree, TreeRefusal>
    requires bounded { IsBounded (G.flow graph.now) }
    requires reached { (b : ℕ) → b < (G.flow graph.now).count
        → Reached (leads (edge (G.flow graph.now))) (G.flow graph.now).entry b }
    requires nest { IsNestOf (G.flow graph.now) nest.now }
    requires uses { AreUsesIn (G.flow graph.now) nest.now uses.now }
    ensures exact { IfOk result (λ t. IsTreeOf (G.flow graph.now) nest.now uses.now t
        × (size_of t ≤ 500000) × (tree_nesting t ≤ 1000)) }
    ensures large { IsErrOf result TreeRefusal.TooLarge → (levels : Nest)
        × IsLevelsOf (G.flow graph.now) nest.now uses.now levels × IsTooLarge (tree_of_nest levels 17) }
{
    let count = graph.count();
    if count >= u32::MAX - 2 {
        return Err(TreeRefusal::Memory);
    }
    let Ok(levels) = levels_of(alloc, graph, nest) else {
        return Err(TreeRefusal::Memory);
    };
    let tables = FlowTables {
        nest,
        levels: levels.as_slice(),
        blocks: uses,
        count,
        close: count + 1,
        leave: count + 2,
    };
    function_tree(alloc, &tables)
}
