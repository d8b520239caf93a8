//! The points that wait, the least first.

ghost use Rattle.std.specs.Prelude.{◌≡◌, ℕ, ◌+◌, ◌≤◌, Bool, true, false, ◌==◌, if◌then◌else◌, is_some, IfSome, IfNone};
ghost use Rattle.std.specs.Prelude.{OnOk};
ghost use Rattle.std.specs.Ordering.{nat_cmp};
ghost use Rattle.std.specs.BTreeSet as tree;
ghost use Rattle.std.specs.BTreeSet.{btree_set_len};
ghost use Rattle.fact_lattice.specs.Searches.{adds, IsTaken};

use std::alloc::AllocError;
use std::collections::BTreeSet;

/// Puts in a point, if there is one.
pub fn put(waiting: &mut BTreeSet<u32>, changed: Option<u32>) -> Result<(), AllocError>
    ensures adds { OnOk result
        ((q : ℕ) → tree.contains nat_cmp waiting.new q ≡ adds changed (tree.contains nat_cmp waiting.old) q) }
    ensures few { OnOk result
        (btree_set_len waiting.new ≤ btree_set_len waiting.old + (if is_some changed then 1 else 0)) }
{
    if let Some(point) = changed {
        waiting.insert(point)?;
    }
    Ok(())
}

/// Takes out the least.
pub fn take(waiting: &mut BTreeSet<u32>) -> Option<u32>
    ensures taken { IfSome result (IsTaken (tree.contains nat_cmp waiting.old) (tree.contains nat_cmp waiting.new)) }
    ensures few { IfSome result (λ p. btree_set_len waiting.new + 1 ≡ btree_set_len waiting.old) }
    ensures none { IfNone result ((q : ℕ) → tree.contains nat_cmp waiting.old q ≡ false) }
    ensures kept { IfNone result (tree.contains nat_cmp waiting.new ≡ tree.contains nat_cmp waiting.old) }
{
    waiting.pop_first()
}
