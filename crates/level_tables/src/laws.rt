//! What the places of a level are to the loops of the law on trees.
ghost use Rattle.std.specs.Prelude.{◌≡◌, ℕ, List};
ghost use Rattle.graph_search.specs.Flows.{Flow};
ghost use Rattle.interval_loops.specs.Loops.{node_in};
ghost use Rattle.interval_loops.specs.Nests.{around_of, header_of, loops_of};
ghost use Rattle.interval_loops.specs.Rounds.{within_by};
ghost use Rattle.interval_loops.specs.declared.nest.LoopNest.{LoopNest as LoopNestValue};
ghost use Rattle.wsym_terms.specs.declared.trees.BlockUses.{BlockUses};
ghost use Rattle.tree_law.specs.Levels.{Nest, function_tree};
ghost use Rattle.flow_tree.specs.FlowTables.{header_by};
ghost use Rattle.level_tables.specs.FlowLevels.{IsLevelsOf};
ghost use Rattle.level_tables.specs.LevelPlaces.{node_by, within_level};

/// A law: headers, nodes and blocks of a level are those of the loops of which the law on trees speaks.
pub fn places_are_of_loops()
    ensures { (flow : Flow) (n : LoopNestValue) (c b : ℕ) → (header_by flow.count n c ≡ header_of flow n c)
        × (node_by flow.count n c b ≡ node_in (loops_of flow n) c b)
        × (within_level flow.count n c b ≡ within_by flow (around_of n) c b) }
{}

/// A law: all levels of a flow graph, with the nest of its loops and one list of leaves, have one tree.
pub fn levels_have_one_tree()
    ensures { (flow : Flow) (n : LoopNestValue) (uses : List BlockUses) (a b : Nest) → IsLevelsOf flow n uses a
        → IsLevelsOf flow n uses b → (k : ℕ) → function_tree a k ≡ function_tree b k }
{}
