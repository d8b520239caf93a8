//! Laws of uses, as calls without a body.

ghost use Rattle.std.specs.Prelude.{◌≡◌, ◌<◌, ℕ, List};
ghost use Rattle.graph_search.specs.Flows.{Flow, IsBounded, edge, leads};
ghost use Rattle.graph_search.specs.Walks.{Reached};
ghost use Rattle.interval_loops.specs.Nests.{IsNestOf};
ghost use Rattle.interval_loops.specs.declared.nest.LoopNest.{LoopNest as LoopNestValue};
ghost use Rattle.line_uses.specs.BlockRows.{AreBlockRows};
ghost use Rattle.line_uses.specs.Leaves.{AreUsesOf};
ghost use Rattle.line_uses.specs.PointMaps.{ArePointMaps, PointMaps};
ghost use Rattle.line_uses.specs.declared.leaves.LineUses.{LineUses as LineUsesValue};

/// Blocks of points have one base and one list of uses each.
pub fn uses_agree()
    ensures { (sets ways miss : ℕ) (m : PointMaps) (rows : List (List ℕ)) (costs : List ℕ) (u v : LineUsesValue)
        → AreUsesOf sets ways miss m rows costs u → AreUsesOf sets ways miss m rows costs v → u.blocks ≡ v.blocks }
{}

/// Tables that have the points of a flow graph's blocks, and the loops round each block of its nest, are a function's: in
/// each loop each point leads to each inside it, and the loops round a block lie one in another.
pub fn blocks_of_a_nest_are_a_function()
    ensures { (flow : Flow) (n : LoopNestValue) (rows : List (List ℕ)) (m : PointMaps) → AreBlockRows flow n rows m
        → IsBounded flow → ((b : ℕ) → b < flow.count → Reached (leads (edge flow)) flow.entry b) → IsNestOf flow n
        → ArePointMaps m }
{}
