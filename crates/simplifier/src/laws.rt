ghost use Rattle.std.specs.Prelude.{◌≡◌, ◌≤◌, ◌+◌, ◌*◌, ℕ, ℤ, List, Option, Some};
ghost use Rattle.wsym_terms.specs.Extents.{Extent, Finite};
ghost use Rattle.wsym_terms.specs.declared.bounds.Bound.{Bound as BoundValue};
ghost use Rattle.wsym_terms.specs.Trees.{size_of};
ghost use Rattle.wsym_terms.specs.declared.trees.Tree.{Tree as TreeValue};
ghost use Rattle.wsym_formula.specs.Terms.{term_value};
ghost use Rattle.wsym_formula.specs.Trees.{formula_of};
ghost use Rattle.wsym_formula.specs.Values.{bound_at, counts_of};
ghost use Rattle.wsym_formula.specs.declared.terms.Term.{Term as TermValue};
ghost use Rattle.simplifier.specs.Normal.{normal};
ghost use Rattle.simplifier.specs.Simplified.{known_of};
ghost use Rattle.wsym_terms.specs.TreeNesting.{tree_nesting};
ghost use Rattle.simplifier.specs.Sizes.{nesting_of, nodes_of};

/// A law of the normal form: it has the value of the term, for each number of executions and all bounds of loops
/// that are those which were known.
pub fn normal_forms_keep_their_value()
    ensures { (bounds : ℕ → Extent) (known : ℕ → Option ℕ) → ((id m : ℕ) → known id ≡ Some m → bounds id ≡ Finite m) → (term : TermValue) (n : ℕ) → term_value bounds (normal known term) n ≡ term_value bounds term n }
{}

/// A law of the normal form for a list of bounds: it has the value of the term, for each number of executions and
/// all values of the parameters.
pub fn simplified_terms_keep_their_value()
    ensures { (bounds : List BoundValue) (values : List ℤ) (term : TermValue) (n : ℕ) → term_value (bound_at bounds values) (normal (known_of bounds) term) n ≡ term_value (bound_at bounds values) term n }
{}

/// A law of the normal form: its constants have no more counts than the term's together.
pub fn normal_forms_have_no_more_counts()
    ensures { (known : ℕ → Option ℕ) (term : TermValue) → counts_of (normal known term) ≤ counts_of term }
{}

/// A law of the normal form: it has no more nodes than the term, equal ones as often as they stand in it, and nests
/// no deeper.
pub fn normal_forms_are_no_larger()
    ensures nodes { (known : ℕ → Option ℕ) (term : TermValue) → nodes_of (normal known term) ≤ nodes_of term }
    ensures nesting { (known : ℕ → Option ℕ) (term : TermValue) → nesting_of (normal known term) ≤ nesting_of term }
{}

/// A law of the formula of a tree: it has fewer nodes than twice the tree's size, and nests at most twice as deep.
pub fn formulas_of_trees_are_small()
    ensures nodes { (miss : ℕ) (tree : TreeValue) → nodes_of (formula_of miss tree) + 1 ≤ 2 * size_of tree }
    ensures nesting { (miss : ℕ) (tree : TreeValue) → nesting_of (formula_of miss tree) ≤ 2 * tree_nesting tree }
{}
