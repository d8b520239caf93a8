//! Ordered sets of numbers that pass a test.
ghost use Rattle.std.specs.Prelude.{◌≡◌, ℕ, ◌<◌, Bool, true, false, ◌==◌, if◌then◌else◌, OnOk, OnErr, IfSome, IfNone};
ghost use Rattle.std.specs.Ordering.{nat_cmp};
ghost use Rattle.std.specs.BTreeSet as tree;
ghost use Rattle.graph_reduction.specs.Reduction.{first_below};
ghost use Rattle.graph_reduction.specs.Sets.{HasExactly, HasAllBut};

use std::alloc::{AllocFailed, Global};
use std::collections::BTreeSet;

/// The least of a set.
pub fn least(fitting: &BTreeSet<u32>) -> Option<u32>
    ensures { (test : ℕ → Bool) (n : ℕ) → HasExactly fitting.now test n → result ≡ first_below test n }
{
    match fitting.first() {
        Some(number) => Some(*number),
        None => None,
    }
}

/// Puts a number in or takes it out, as its test now says.
pub fn set(fitting: &mut BTreeSet<u32>, number: u32, passes: bool) -> Result<(), AllocFailed<u32>>
    ensures ok { OnOk result ((q : ℕ) → tree.contains nat_cmp fitting.new q ≡
        (if q == number then passes else tree.contains nat_cmp fitting.old q)) }
    ensures err { OnErr result (fitting.new.keys ≡ fitting.old.keys) }
{
    if passes {
        fitting.insert(number)?;
    } else {
        fitting.remove(&number);
    }
    Ok(())
}
