//! The value of a control-flow tree bounds what a run may cost.
//!
//! `specs/` defines the levels of a function's loops, the tree that is left when the nodes between two ends of a level
//! are taken out one after another, and the pieces of a run for which a tree stands. The laws go from the tree's own
//! pieces to walks of blocks; nothing is assumed of how loop bounds were found or why line uses miss rarely
//! (docs/TREE-LAW.md has the proof in prose). There is no code here: the laws are calls without a body.
#![tactic(auto)]

ghost use Rattle.std.specs.List.{AllByRecursion};
ghost use Rattle.std.specs.Prelude.{◌≡◌, ◌∷◌, ◌≤◌, Bool, List, [], suc, ℕ};
ghost use Rattle.wsym_terms.specs.Extents.{Extent, IsWithin};
ghost use Rattle.wsym_terms.specs.Trees.{tree_value};
ghost use Rattle.tree_law.specs.Levels.{BlockRun, FunctionRun, Nest, function_tree, scopes_of};
ghost use Rattle.tree_law.specs.Nests.{IsNest};
ghost use Rattle.tree_law.specs.Pieces.{AtMostOnce, Same, total};
ghost use Rattle.interval_loops.specs.Trails.{Visit, IsWalk, Ran, all_visits};
ghost use Rattle.interval_loops.specs.Loops.{AreEnds, AreLoops, IsOrder, Loops, flow_with, IsRound, LoopFlow};
ghost use Rattle.tree_law.specs.LevelEdges.{AreLevels, EdgesOf};
ghost use Rattle.tree_law.specs.Trails.{IsCut, IsTrail, Paid};

/// A run that is cut into the levels of loops costs at most the value of the function's tree.
pub fn runs_cost_at_most_the_tree()
    ensures { (miss : ℕ) (bounds : ℕ → Extent) (n : Nest) (at : ℕ → ℕ) (rank : ℕ → ℕ → ℕ) → IsNest n at rank → (k : ℕ)
        (x : List Visit) → FunctionRun n (BlockRun miss n) bounds k x → AtMostOnce (scopes_of n) (x ∷ []) → Same 0
        (x ∷ []) → IsWithin (total (x ∷ [])) (tree_value miss bounds (function_tree n k) 1) }
{}

/// A trail of a function, which is its visits with their stamps, costs at most the value of the function's tree.
pub fn trails_cost_at_most_the_tree()
    ensures { (miss : ℕ) (bounds : ℕ → Extent) (n : Nest) (f : LoopFlow) (at height : ℕ → ℕ) (rank : ℕ → ℕ → ℕ)
        → IsNest n at rank → IsCut n f at height → (k : ℕ) (v : Visit) (w : List Visit) → height 0 ≤ k
        → IsTrail miss bounds n f at v w → AtMostOnce (scopes_of n) ((v ∷ w) ∷ []) → IsWithin (total ((v ∷ w) ∷ []))
        (tree_value miss bounds (function_tree n (suc k)) 1) }
{}

/// A walk of blocks of a flow graph with loops costs at most the value of the tree that its levels make.
pub fn walks_cost_at_most_the_tree()
    ensures { (miss : ℕ) (bounds : ℕ → Extent) (l : Loops) (next within : ℕ → ℕ → Bool) (ends : ℕ → Bool)
        (entry close leave top : ℕ) (at height rank : ℕ → ℕ) (round : ℕ → ℕ → ℕ) (n : Nest)
        → AreLoops l next within entry at height → IsOrder l next within entry rank
        → AreEnds l within rank close leave top → AreLevels l next within entry at close leave n
        → EdgesOf l next within entry ends n
        → IsRound (flow_with l next within ends entry) at round → (x : Ran) (xs : List Ran) → x.block ≡ entry → IsWalk
        (flow_with l next within ends entry) x.block xs
        → AllByRecursion (Paid miss bounds n (flow_with l next within ends entry) at)
        (all_visits (flow_with l next within ends entry) round x xs) → AtMostOnce (scopes_of n)
        (all_visits (flow_with l next within ends entry) round x xs ∷ [])
        → IsWithin (total (all_visits (flow_with l next within ends entry) round x xs ∷ []))
        (tree_value miss bounds (function_tree n (suc (height 0))) 1) }
{}
