//! Levels are tasks.
ghost use Rattle.std.specs.Prelude.{◌≡◌, ◌<◌, ◌⊎◌, ℕ, Bool, true};
ghost use Rattle.tree_law.specs.Levels.{IsEnd, Nest};
ghost use Rattle.interval_loops.specs.Loops.{AreEnds, AreLoops, IsOrder, Loops};
ghost use Rattle.tree_law.specs.LevelEdges.{AreLevels, level_rank};
ghost use Rattle.tree_law.specs.Nests.{IsNest};
ghost use Rattle.node_elimination.specs.LevelStates.{IsTask};
ghost use Rattle.flow_tree.specs.FlowTables.{AreTasks};
ghost use Rattle.flow_tree.specs.LevelTasks.{AreExact, task_of};

/// A law: the nodes between the header of a level and one of its ends can be taken out by numbers.
pub fn levels_are_tasks()
    ensures { (l : Loops) (next within : ℕ → ℕ → Bool) (entry : ℕ) (at height : ℕ → ℕ) (close leave : ℕ) (n : Nest)
        (rank : ℕ → ℕ → ℕ) → AreLevels l next within entry at close leave n → AreExact n → IsNest n at rank
        → (c t : ℕ) → IsEnd (n.level c) t → rank c (n.level c).header < rank c t
        → IsTask (task_of n height c t) (rank c) }
{}

/// A law: where the levels are those of the loops of a flow graph, of which the law of the tree speaks, each of them
/// can be taken out by numbers between its header and its ends, and loops lie lower than those round them.
pub fn levels_of_loops_are_tasks()
    ensures { (l : Loops) (next within : ℕ → ℕ → Bool) (entry : ℕ) (at height : ℕ → ℕ)
        → AreLoops l next within entry at height → (rank : ℕ → ℕ) → IsOrder l next within entry rank
        → (close leave top : ℕ) → AreEnds l within rank close leave top → (n : Nest)
        → AreLevels l next within entry at close leave n → AreExact n → within 0 entry ≡ true
        → ((c : ℕ) → (l.header c ≡ l.header 0) ⊎ (within 0 (l.header c) ≡ true))
        → AreTasks n height (λ c. level_rank l rank close leave top) }
{}
