//! The loops of a flow graph: headers, closing edges, which loop lies in which, and the loops round each block.
//!
//! [`loops`] reduces the graph (`graph_reduction`), puts its blocks in an order in which each edge that closes no loop
//! leads onward, and collects the blocks of each loop. A graph with a cycle that no closing edge cuts is irreducible
//! and refused, as is one that has more than sixteen loops round a block. Loops have numbers from 1 on, by their
//! headers; 0 stands for the whole function.
//!
//! What loops are to the layers above stands in `specs/Loops.antt`; the law [`nests_are_loops`] gives it of each nest.
#![tactic(auto)]

mod bodies;
mod nest;
mod order;
mod tables;

ghost use Rattle.std.specs.Prelude.{◌≡◌, ℕ, ◌-◌, ◌<◌, ◌+◌, ◌++◌, ◌∷◌, [], Bool, true, List};
ghost use Rattle.std.specs.List.{AllByRecursion};
ghost use Rattle.graph_search.specs.Walks.{Reached};
ghost use Rattle.graph_search.specs.Flows.{Flow, IsBounded, edge, leads};
ghost use Rattle.graph_reduction.specs.Loops.{IsIrreducible};
ghost use Rattle.graph_reduction.specs.Reduction.{State, IsReduced};
ghost use Rattle.interval_loops.specs.declared.nest.LoopNest.{LoopNest as LoopNestValue};
ghost use Rattle.interval_loops.specs.Loops.{AreLoops, AreEnds, IsOrder, IsRound, LoopFlow, flow_with};
ghost use Rattle.interval_loops.specs.Nests.{loops_of, depth_of, around_of, IsNestOf};
ghost use Rattle.interval_loops.specs.Rounds.{within_by, round_by};
ghost use Rattle.interval_loops.specs.Tables.{IsDeeper};
ghost use Rattle.interval_loops.specs.Trails.{Ran, Visit, last_visit};

pub use bodies::LoopRefusal;
pub use nest::{LoopInfo, LoopNest, loops};

/// A nest of a graph whose blocks are all reached is what loops are to be (`AreLoops`), with an order in which each
/// block but the entry has an edge from before it, with the three numbers past the blocks as start and ends, and with
/// the loop of each depth round a block.
pub fn nests_are_loops()
    ensures { (flow : Flow) (n : LoopNestValue) (ends : ℕ → Bool)
        → ((b : ℕ) → b < flow.count → Reached (leads (edge flow)) flow.entry b) → IsNestOf flow n
        → AreLoops (loops_of flow n) (edge flow) (within_by flow (around_of n)) flow.entry (depth_of n)
        (λ d. 16 - depth_of n d)
        × IsRound (flow_with (loops_of flow n) (edge flow) (within_by flow (around_of n)) ends flow.entry) (depth_of n)
        (round_by (around_of n))
        × ((rank : ℕ → ℕ) × IsOrder (loops_of flow n) (edge flow) (within_by flow (around_of n)) flow.entry rank
        × AreEnds (loops_of flow n) (within_by flow (around_of n)) rank (flow.count + 1) (flow.count + 2)
        (flow.count + 1)) }
{}

/// A graph whose blocks are all reached has one nest.
pub fn nests_agree()
    ensures { (flow : Flow) (n m : LoopNestValue) → IsBounded flow
        → ((b : ℕ) → b < flow.count → Reached (leads (edge flow)) flow.entry b)
        → IsNestOf flow n → IsNestOf flow m → n ≡ m }
{}

/// A graph that has a nest has no open cycle and no block with more than sixteen loops round it.
pub fn nests_are_not_refused()
    ensures { (flow : Flow) (n : LoopNestValue) (s : State) → IsBounded flow
        → ((b : ℕ) → b < flow.count → Reached (leads (edge flow)) flow.entry b)
        → IsNestOf flow n → IsReduced flow s → (IsIrreducible flow s.closed → ⊥) × (IsDeeper flow s.closed 16 → ⊥) }
{}

/// Between two visits of a loop with one entry the loop isn't left.
#[tactic(auto, using(crate::proofs::VisitLemmas::one_stretch))]
pub fn visits_of_one_entry_are_one_stretch()
    ensures { (f : LoopFlow) (at : ℕ → ℕ) (round : ℕ → ℕ → ℕ) → IsRound f at round
        → (c : ℕ) (m : List Ran) (time : ℕ) (v : Visit) (x : Ran) → v.entry (at c) < time
        → f.within c v.block ≡ true → f.within c x.block ≡ true
        → (last_visit f round time v (m ++ x ∷ [])).entry (at c) ≡ v.entry (at c)
        → AllByRecursion (λ y. f.within c y.block ≡ true) m }
{}
