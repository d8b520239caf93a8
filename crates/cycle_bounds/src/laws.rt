//! The bound on runs, and that the uses of a route miss once.

ghost use Rattle.std.specs.Prelude.{◌≡◌, ◌∷◌, ◌<◌, ◌^◌, List, [], length, map, slice_index, ℕ};
ghost use Rattle.elf32_image.specs.Parts.{ImageValue};
ghost use Rattle.fetch_timing.specs.declared.timing.Timing.{Timing};
ghost use Rattle.wsym_terms.specs.Extents.{Extent, IsWithin};
ghost use Rattle.control_flow.specs.Points.{Point, entry_point};
ghost use Rattle.control_flow.specs.Routes.{IsRoute, Taken, place_of};
ghost use Rattle.control_flow.specs.Routes.Place.{At};
ghost use Rattle.control_flow.specs.Ways.{ways_from};
ghost use Rattle.arm_machine.specs.States.{State};
ghost use Rattle.arm_machine.specs.declared.start.RegisterValue.{RegisterValue};
ghost use Rattle.arm_machine.specs.Starts.{IsStart};
ghost use Rattle.arm_machine.specs.Runs.{Returns};
ghost use Rattle.path_facts.specs.Histories.{IsFollowed};
ghost use Rattle.interval_loops.specs.Trails.{all_visits};
ghost use Rattle.tree_law.specs.Levels.{scopes_of};
ghost use Rattle.tree_law.specs.Pieces.{AtMostOnce};
ghost use Rattle.cycle_bounds.specs.Analyses.{Analysis, flow_of};
ghost use Rattle.cycle_bounds.specs.Functions.{AllTurnsWithin, IsAnalysisOf, cost_at, value_of};
ghost use Rattle.cycle_bounds.specs.Visits.{ArePassed, Passed, all_taken, named, ran_of, rans};

/// A route goes from block to block, and a use misses at most once in an entry of its scope, whatever the cache held at
/// the start.
pub fn uses_of_routes_miss_once()
    ensures { (image : ImageValue) (t : Timing) (entry : ℕ) (a : Analysis) (sets : List (List ℕ))
        (route : List (Taken Point)) → IsAnalysisOf image t entry a → 0 < t.sets → length sets ≡ t.sets
        → place_of route ≡ At (entry_point entry) → IsRoute (ways_from image entry) route
        → (x : Passed) × (xs : List Passed) × ArePassed (ways_from image entry) a x xs
        × (map (named a.point) (all_taken (x ∷ xs)) ≡ route)
        × AtMostOnce (scopes_of a.nest) (all_visits (flow_of a) a.round (ran_of (cost_at image t) t sets a [] x)
        (rans (cost_at image t) t sets a (x.block ∷ []) xs) ∷ []) }
{}

/// A returning run of a function costs at most the value of its tree, whatever the cache held at the start, where on
/// each of its routes no loop turns more often than its bound says.
pub fn runs_cost_at_most_the_tree()
    ensures { (image : ImageValue) (t : Timing) (entry stack : ℕ) (numbers : List RegisterValue) (s : State) (n c : ℕ)
        (a : Analysis) (bounds : ℕ → Extent) → entry < 2 ^ 32 → stack < 2 ^ 31 → 0 < t.sets → 0 < t.ways
        → IsFollowed image entry stack → IsAnalysisOf image t entry a → IsStart image t entry stack numbers s
        → AllTurnsWithin image t entry stack bounds a s → Returns image t (slice_index s.cpu.registers 14) s n c
        → IsWithin c (value_of t bounds a) }
{}
