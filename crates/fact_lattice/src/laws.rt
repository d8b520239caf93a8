//! What is read off a search that came to its end. Layers above cite these laws.

ghost use Rattle.std.specs.Prelude.{◌≡◌, ◌≢◌, ◌↔◌, ℕ, ℤ, pos, neg_ℤ, ◌<ℤ◌, true, false, List, Option, Some, None};
ghost use Rattle.control_flow.specs.Routes.{Taken};
ghost use Rattle.path_facts.specs.Facts.{Fact, Location, Source, offset_of};
ghost use Rattle.fact_lattice.specs.Cells.{AbstractState, cell_of, known_in, one_offset};
ghost use Rattle.fact_lattice.specs.Flows.{Flow, IsHistoryIn, IsLostAt, IsOverAt, IsSolved, IsUnprovedAt, facts_in};

/// A fixed point says exactly what all histories say: no point is lost; r13's offset, a fact and a mark are there where
/// each history gives them and nowhere else; an access goes beyond the stack, or a return brings another fact than the
/// wanted one, exactly where the state of its point says so; and a point without a state has no history.
pub fn solved_maps_are_exact()
    ensures lost { (flow : Flow) (map : ℕ → Option AbstractState) → IsSolved flow map → (p : ℕ) → IsLostAt flow p → ⊥ }
    ensures offset { (flow : Flow) (map : ℕ → Option AbstractState) → IsSolved flow map → (p : ℕ) (m : AbstractState)
        → map p ≡ Some m → (o : ℤ) → (one_offset m ≡ Some o)
        ↔ ((h : List (Taken ℕ)) → IsHistoryIn flow h p → offset_of (facts_in flow h) ≡ Some o) }
    ensures known { (flow : Flow) (map : ℕ → Option AbstractState) → IsSolved flow map → (p : ℕ) (m : AbstractState)
        → map p ≡ Some m → (location : Location) (k : Fact) → (known_in (m.cell location) ≡ Some k)
        ↔ ((h : List (Taken ℕ)) → IsHistoryIn flow h p → (facts_in flow h).fact location ≡ Some k) }
    ensures kept { (flow : Flow) (map : ℕ → Option AbstractState) → IsSolved flow map → (p : ℕ) (m : AbstractState)
        → map p ≡ Some m → (word : ℕ) → (m.marked word ≡ true)
        ↔ ((h : List (Taken ℕ)) → IsHistoryIn flow h p → (facts_in flow h).marked word ≡ true) }
    ensures over { (flow : Flow) (map : ℕ → Option AbstractState) → IsSolved flow map → (at : ℤ → Option ℤ) (p : ℕ)
        (m : AbstractState) (c o : ℤ) → map p ≡ Some m → flow.accesses p ≡ true → one_offset m ≡ Some c
        → IsOverAt flow at p o ↔ ((at c ≡ Some o) × (o <ℤ neg_ℤ (pos flow.stack))) }
    ensures unproved { (flow : Flow) (map : ℕ → Option AbstractState) → IsSolved flow map → (p : ℕ) (m : AbstractState)
        → map p ≡ Some m → (source : Option ℤ → Source)
        → ((o q : Option ℤ) → flow.accesses p ≡ false → source o ≡ source q) → (k : Fact)
        → IsUnprovedAt flow source k p ↔ (known_in (cell_of m (source (one_offset m))) ≢ Some k) }
    ensures unreached { (flow : Flow) (map : ℕ → Option AbstractState) → IsSolved flow map → (p : ℕ) → map p ≡ None
        → (h : List (Taken ℕ)) → IsHistoryIn flow h p → ⊥ }
{}
