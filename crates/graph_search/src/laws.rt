//! What holds of all graphs and lists, for the layers above.

ghost use Rattle.std.specs.Prelude.{◌≡◌, ℕ, suc, true, nat_eq, List};
ghost use Rattle.graph_search.specs.NodeLists.{holds};
ghost use Rattle.graph_search.specs.Flows.{Flow, edge, leads};
ghost use Rattle.graph_search.specs.Orders.{Rising};
ghost use Rattle.graph_search.specs.Walks.{Walk};

/// Where each node of a list that isn't empty has a predecessor in the list, the graph has a cycle.
pub fn predecessors_make_a_cycle()
    ensures { (flow : Flow) (p : ℕ) (xs : List ℕ) → holds nat_eq p xs ≡ true
        → ((x : ℕ) → holds nat_eq x xs ≡ true → (y : ℕ) × (holds nat_eq y xs ≡ true) × (edge flow y x ≡ true))
        → (x : ℕ) × (n : ℕ) × Walk (leads (edge flow)) x x (suc n) }
{}

/// Two lists that ascend by one rank and have the same numbers are equal.
#[tactic(auto, using(crate::proofs::OrderLemmas::rising_same))]
pub fn ascending_lists_agree()
    ensures { (rank : ℕ → ℕ) (xs ys : List ℕ) → Rising rank xs → Rising rank ys
        → ((z : ℕ) → holds nat_eq z xs ≡ true → holds nat_eq z ys ≡ true)
        → ((z : ℕ) → holds nat_eq z ys ≡ true → holds nat_eq z xs ≡ true) → xs ≡ ys }
{}
