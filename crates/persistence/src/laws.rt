//! Laws of uses and their scopes, as calls without a body.

ghost use Rattle.std.specs.List.{AllByRecursion};
ghost use Rattle.std.specs.Prelude.{◌≡◌, ◌≢◌, ◌∷◌, ◌++◌, ◌<◌, ◌≤◌, ◌+◌, Bool, true, List, Option, [], length, map, ℕ};
ghost use Rattle.fetch_timing.specs.declared.timing.Timing.{Timing};
ghost use Rattle.fetch_timing.specs.Caches.{holds, lines_at};
ghost use Rattle.interval_loops.specs.Loops.{IsRound, LoopFlow};
ghost use Rattle.interval_loops.specs.Trails.{Ran, all_visits};
ghost use Rattle.tree_law.specs.Pieces.{AtMostOnce};
ghost use Rattle.persistence.specs.BlockHistories.{finds};
ghost use Rattle.persistence.specs.BlockMisses.{IsBefore, always, missed_uses, missing};
ghost use Rattle.persistence.specs.Fetches.{after_history};
ghost use Rattle.persistence.specs.Runs.{AreUses, IsRun, Uses};
ghost use Rattle.persistence.specs.Younger.{AtLeast, Code, HasNoScope, IsScope, IsYounger, Linked};

/// Within one entry of its scope a use misses at most once, whatever the cache held at the start. The whole run is the
/// one entry of scope 0.
pub fn uses_miss_once_per_entry()
    ensures { (t : Timing) (sets : List (List ℕ)) (c : Code) (f : LoopFlow) (at : ℕ → ℕ) (round : ℕ → ℕ → ℕ)
        (reversed : ℕ → List ℕ) (points : ℕ → ℕ → Bool) (uses : Uses) → 0 < t.sets → length sets ≡ t.sets
        → IsRound f at round → AreUses t c f at reversed points uses → (x : Ran) (xs : List Ran)
        → IsRun t c reversed uses sets [] (x ∷ xs) → AtMostOnce uses.scope (all_visits f round x xs ∷ []) }
{}

/// A point whose line is that of the point before it never misses.
pub fn points_that_are_no_use_hit()
    ensures { (t : Timing) (sets : List (List ℕ)) (c : Code) (p q : ℕ) (h : List ℕ) → 0 < t.sets → 0 < t.ways
        → length sets ≡ t.sets → c.line q ≡ c.line p → finds t sets c p (q ∷ h) ≡ true }
{}

/// The points of a block miss no more often than its uses: each time those without a scope, and those with one where
/// they miss.
pub fn misses_of_a_block_are_of_uses()
    ensures { (t : Timing) (sets : List (List ℕ)) (c : Code) (scoped : ℕ → Bool) → 0 < t.sets → 0 < t.ways
        → length sets ≡ t.sets → (before : Option ℕ) (ps h : List ℕ) → IsBefore before h
        → missing t sets c ps h ≤ always c scoped before ps + missed_uses t sets c scoped before ps h }
{}

/// A point that comes back to itself inside a set of points in which it has fewer younger lines than ways finds its line
/// in the cache.
pub fn few_younger_lines_leave_a_line()
    ensures { (t : Timing) (sets : List (List ℕ)) (c : Code) (within : ℕ → Bool) (p : ℕ) (since rest : List ℕ)
        → 0 < t.sets → length sets ≡ t.sets → (AtLeast t.ways (IsYounger c t.sets within p) → ⊥) → within p ≡ true
        → AllByRecursion (λ u. within u ≡ true) since → Linked c.next p (since ++ p ∷ rest)
        → finds t sets c p (since ++ p ∷ rest) ≡ true }
{}

/// A use has one scope, or none.
///
/// - `one`: two scopes are equal.
/// - `none`: no use has a scope and has none.
pub fn scopes_agree()
    ensures one { (c : Code) (sets ways : ℕ) (within : ℕ → ℕ → Bool) (depth p d e : ℕ)
        → IsScope c sets ways within depth p d → IsScope c sets ways within depth p e → d ≡ e }
    ensures none { (c : Code) (sets ways : ℕ) (within : ℕ → ℕ → Bool) (depth p d : ℕ)
        → IsScope c sets ways within depth p d → HasNoScope c sets ways within depth p → ⊥ }
{}
