//! The sums of the nodes of a level, and the gains of those that are left.
ghost use Rattle.std.specs.Prelude.{◌≡◌, ◌⊎◌, ◌<◌, ◌≤◌, ◌+◌, ◌*◌, ℕ, Bool, true, false, if◌then◌else◌, ◌==◌, nat_eq};
ghost use Rattle.std.specs.Prelude.{length, IfOk, OnOk, IfSome, IfNone};
ghost use Rattle.elimination_plans.specs.Weights.{gain};
ghost use Rattle.node_elimination.specs.Tables.{sums_at, leaves_at, gain_at, Gains, Before, without_node};

use std::alloc::AllocError;
use std::collections::BTreeSet;

/// Of a node: how many edges lead to it and from it, and the leaves of those to it and of those from it.
#[derive(Clone, Copy, Debug, PartialEq, Eq)]
pub struct Sums {
    pub ins: u64,
    pub outs: u64,
    pub into: u64,
    pub out: u64,
}

/// The sums and the leaves of nodes by their numbers, and the gains of those that are left.
#[derive(Drop)]
pub struct Tally {
    pub sums: Vec<Sums>,
    pub leaves: Vec<u64>,
    pub gains: BTreeSet<(u128, u32)>,
}

fn times(a: u128, b: u128) -> Result<u128, AllocError>
    ensures { IfOk result (λ c. c ≡ a * b) }
{
    match a.checked_mul(b) {
        Some(c) => Ok(c),
        None => Err(AllocError),
    }
}

fn both(a: u128, b: u128) -> Result<u128, AllocError>
    ensures { IfOk result (λ c. c ≡ a + b) }
{
    match a.checked_add(b) {
        Some(c) => Ok(c),
        None => Err(AllocError),
    }
}

/// By how much the weight grows when a node is taken out.
pub fn gain_of(sums: Sums, leaves: u64) -> Result<u128, AllocError>
    ensures { IfOk result (λ g. g ≡ gain sums.ins sums.outs sums.into sums.out leaves) }
{
    let ins = sums.ins as u128;
    let outs = sums.outs as u128;
    let into = sums.into as u128;
    let out = sums.out as u128;
    let own = leaves as u128;
    let before = times(outs, into)?;
    let onward = both(times(outs, own)?, out)?;
    let all = both(before, times(ins, onward)?)?;
    let gone = both(both(into, out)?, own)?;
    Ok(all.saturating_sub(gone))
}

/// Puts sums at a place of the list.
fn put_at(list: &mut Vec<Sums>, place: u32, value: Sums)
    requires { place < length list.old.items }
    ensures { (q : ℕ) → sums_at list.new.items q ≡ (if q == place then value else sums_at list.old.items q) }
{
    list[place as usize] = value;
}

impl Tally {
    pub fn sums_of(&self, node: u32) -> Sums
        ensures { result ≡ sums_at self.now.sums.items node }
    {
        match self.sums.get(node as usize) {
            Some(sums) => *sums,
            None => Sums {
                ins: 0,
                outs: 0,
                into: 0,
                out: 0,
            },
        }
    }

    pub fn leaves_of(&self, node: u32) -> u64
        ensures { result ≡ leaves_at self.now.leaves.items node }
    {
        match self.leaves.get(node as usize) {
            Some(leaves) => *leaves,
            None => 0,
        }
    }

    /// Gives a node other sums.
    pub fn set(&mut self, node: u32, sums: Sums) -> Result<(), AllocError>
        ensures leaves { OnOk result (self.new.leaves.items ≡ self.old.leaves.items) }
        ensures sums { OnOk result ((q : ℕ) → sums_at self.new.sums.items q ≡
            (if q == node then sums else sums_at self.old.sums.items q)) }
        ensures gains { OnOk result ((live : ℕ → Bool) → Gains live self.old → Gains live self.new) }
    {
        if node as usize >= self.sums.len() {
            return Err(AllocError);
        }
        let leaves = self.leaves_of(node);
        let old = gain_of(self.sums_of(node), leaves)?;
        let new = gain_of(sums, leaves)?;
        if self.gains.remove(&(old, node)) {
            self.gains.insert((new, node))?;
        }
        put_at(&mut self.sums, node, sums);
        Ok(())
    }

    /// Takes out the node with the least gain, of several the one with the least number.
    pub fn take_least(&mut self) -> Option<u32>
        ensures sums { (self.new.sums.items ≡ self.old.sums.items) × (self.new.leaves.items ≡ self.old.leaves.items) }
        ensures least { IfSome result (λ v. (live : ℕ → Bool) → Gains live self.old → (live v ≡ true)
            × ((u : ℕ) → live u ≡ true → Before self.old v u)) }
        ensures rest { IfSome result (λ v. (live : ℕ → Bool) → Gains live self.old
            → Gains (without_node v live) self.new) }
        ensures kept { IfNone result ((live : ℕ → Bool) → Gains live self.old → Gains live self.new) }
        ensures none { IfNone result ((live : ℕ → Bool) → Gains live self.old → (u : ℕ) → live u ≡ false) }
    {
        match self.gains.pop_first() {
            Some(pair) => Some(pair.1),
            None => None,
        }
    }
}
