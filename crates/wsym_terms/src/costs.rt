ghost use Rattle.std.specs.Prelude.{◌≡◌, MatchOption};
ghost use Rattle.wsym_terms.specs.Costs.{cost_of, is_less, larger_of, sum_of, times_of};
ghost use Rattle.wsym_terms.specs.Extents.{Finite};

/// A number of cycles.
#[derive(Clone, Copy, PartialEq, Eq, Hash)]
pub enum Cost {
    /// So many cycles, below 2^127.
    Fin(u128),
    /// A finite number of 2^127 cycles or more.
    Beyond,
    /// No bound is known.
    Unbounded,
}

/// The first number of cycles that is not counted exactly.
const LIMIT: u128 = 1 << 127;

impl Cost {
    /// The cost of a number of cycles, where it is known: Beyond from 2^127 on, and where it passed what a
    /// `u128` holds.
    fn of(cycles: Option<u128>) -> Cost
        ensures { MatchOption cycles (result ≡ Cost.Beyond) (λ n. result ≡ cost_of (Finite n)) }
    {
        match cycles {
            Some(cycles) if cycles < LIMIT => Cost::Fin(cycles),
            _ => Cost::Beyond,
        }
    }

    /// Both costs together. Finite sums of 2^127 or more are Beyond.
    pub fn plus(self, other: Cost) -> Cost
        ensures { result ≡ sum_of self other }
    {
        match (self, other) {
            (Cost::Unbounded, _) | (_, Cost::Unbounded) => Cost::Unbounded,
            (Cost::Fin(a), Cost::Fin(b)) => Cost::of(a.checked_add(b)),
            _ => Cost::Beyond,
        }
    }

    /// `count` times this cost: 0 for a count of 0, else Beyond where it is finite and 2^127 or more.
    pub fn times(self, count: u128) -> Cost
        ensures { result ≡ times_of count self }
    {
        match self {
            Cost::Fin(cycles) => Cost::of(cycles.checked_mul(count)),
            _ if count == 0 => Cost::Fin(0),
            other => other,
        }
    }

    /// Whether this cost is below the other: numbers in their order, then Beyond, then Unbounded.
    pub fn is_less(self, other: Cost) -> bool
        ensures { result ≡ is_less self other }
    {
        match (self, other) {
            (Cost::Fin(a), Cost::Fin(b)) => a < b,
            (Cost::Fin(_), _) => true,
            (Cost::Beyond, Cost::Unbounded) => true,
            _ => false,
        }
    }

    /// The larger of two costs.
    pub fn larger(self, other: Cost) -> Cost
        ensures { result ≡ larger_of self other }
    {
        if self.is_less(other) { other } else { self }
    }
}
