//! What holds of lists of open calls, for the layers above.

ghost use Rattle.std.specs.Prelude.{◌≡◌, ℕ, List, Option};
ghost use Rattle.function_points.specs.Contexts.{AreContexts, lists_of};

/// The lists of open calls determine their table.
pub fn contexts_agree()
    ensures { (rows others : List (ℕ × ℕ)) (look now : ℕ × ℕ → Option ℕ) → AreContexts rows look
        → AreContexts others now
        → lists_of rows ≡ lists_of others → rows ≡ others }
{}
