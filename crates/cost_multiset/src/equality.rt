use crate::costs::Multi;
use std::hash::{Hash, Hasher};

impl PartialEq for Multi {
    ghost use Rattle.cost_multiset.specs.Equality.{same_lists, lists_laws};
    ghost use Rattle.std.specs.Cmp.{partial_equiv_from_equiv};

    ghost eq = { same_lists };

    ghost laws = { partial_equiv_from_equiv lists_laws };

    fn eq(&self, other: &Multi) -> bool {
        self.runs() == other.runs() && self.tail() == other.tail()
    }
}

impl Eq for Multi {
    ghost use Rattle.cost_multiset.specs.Equality.{lists_laws};

    ghost laws = { lists_laws };
}

impl Hash for Multi {
    ghost use Rattle.cost_multiset.specs.Equality.{list_writes, lists_alike};

    ghost hash_input = { list_writes };

    ghost respects_eq = { lists_alike.fed };

    fn hash<H: Hasher>(&self, state: &mut H) {
        self.runs().hash(state);
        self.tail().hash(state);
    }
}
