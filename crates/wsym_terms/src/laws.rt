//! What the value of a tree says, on small trees. A miss costs 10 cycles, and each loop makes five turns for each entry.

ghost use Rattle.std.specs.Prelude.{◌≡◌};
ghost use Rattle.wsym_terms.specs.Extents.{Finite};
ghost use Rattle.wsym_terms.specs.SmallTrees.{body_and_exit, dear_or_missing, five, loop_in_loop, loop_with_line};
ghost use Rattle.wsym_terms.specs.Trees.{tree_value};

/// Values of small trees, worked out by the definition:
///
/// - `exit`: two entries of a loop pay for ten bodies, and for its exit once each;
/// - `run`, `entry`: a line whose scope is the whole run misses once in all entries of a loop, one whose scope is the
///   loop once in each entry;
/// - `outer`: a line whose scope is the outer of two loops misses once for each entry of that one, however often the
///   inner one is entered;
/// - `choices`: of three executions of an alternative two take the choice that costs 10, and one the cheaper one, for
///   whose line a miss is then paid: no single choice costs as much.
pub fn small_trees_have_their_values()
    ensures exit { tree_value 10 five body_and_exit 2 ≡ Finite 46 }
    ensures run { tree_value 10 five (loop_with_line 0) 2 ≡ Finite 50 }
    ensures entry { tree_value 10 five (loop_with_line 1) 2 ≡ Finite 60 }
    ensures outer { tree_value 10 five (loop_in_loop 1) 1 ≡ Finite 110 }
    ensures choices { tree_value 10 five dear_or_missing 3 ≡ Finite 34 }
{}
