ghost use Rattle.std.specs.Prelude.{[], true, ◌≡◌, ◌≢◌, ℕ, ◌+◌, ◌^◌, ◌<◌, ◌≤◌, IfOk};
ghost use Rattle.cost_multiset.specs.CostLists.{IsDescending, descends, grouped, merged, place, places, prefix_sum};
ghost use Rattle.cost_multiset.specs.Gathered.{all_counted, is_counted, list_groups, list_of, runs_counted};
ghost use Rattle.wsym_terms.specs.Costs.{cost_of, is_in_range, sum_of};
ghost use Rattle.wsym_terms.specs.Trees.{best};
ghost use Rattle.wsym_terms.specs.declared.costs.Cost.{Cost as CostValue};

use crate::groups::Groups;
use crate::growing::Growing;
use crate::joins::{next_greatest, next_sum};
use crate::rest::Rest;
use sqlite_items::Items;
use std::alloc::{AllocError, Global};
use std::marker::Model;
use wsym_terms::Cost;

/// So many equal costs in a row.
#[derive(Clone, Copy, PartialEq, Eq, Hash)]
pub struct Run {
    /// The cost, in cycles.
    pub value: Cost,
    /// How often it stands in the list, at least once.
    pub count: u64,
}

/// A list of costs that descends and goes on for ever: some runs, then one cost again and again. Contracts
/// see its runs and its tail.
#[derive(Drop)]
pub struct Multi {
    runs: Items<Run>,
    tail: Cost,
}

impl Model for Multi {
    ghost use Rattle.cost_multiset.specs.CostLists.{CostList, IsDescending};

    ghost Value = { CostList };

    ghost view = { λ m. record { runs = m.runs; tail = m.tail } };

    ghost invariant = { λ m. IsDescending m.runs m.tail };
}

impl Multi {
    /// The list of these runs with this tail. It takes no memory.
    ///
    /// The counts are at least 1 and add up to less than 2^63; the values descend strictly from run to run
    /// and to the tail.
    pub fn of(runs: Items<Run>, tail: Cost) -> Multi
        requires { IsDescending runs tail }
        ensures { result ≡ record { runs = runs; tail = tail } }
    {
        Multi { runs, tail }
    }

    /// The list of one cost for ever. It takes no memory.
    pub fn flat(alloc: Global, cost: Cost) -> Multi
        requires { is_in_range cost ≡ true }
        ensures { result ≡ record { runs = []; tail = cost } }
    {
        Multi::of(Items::new(alloc), cost)
    }

    /// The same list once more.
    pub fn copy(&self, alloc: Global) -> Result<Multi, AllocError>
        ensures { IfOk result (λ copy. copy ≡ self.now) }
    {
        Ok(Multi {
            runs: Items::from_slice(alloc, self.runs.as_slice())?,
            tail: self.tail,
        })
    }

    /// The runs before the tail, in descending order.
    pub fn runs(&self) -> &[Run]
        ensures { result.now ≡ self.now.runs }
    {
        self.runs.as_slice()
    }

    /// What each place after the runs costs.
    pub fn tail(&self) -> Cost
        ensures { result ≡ self.now.tail }
    {
        self.tail
    }

    /// A law of the list: its costs place by place determine it.
    pub fn is_its_places(&self)
        ensures { (n : ℕ) (costs : ℕ → CostValue) → places self.now.runs ≤ n → ((k : ℕ) → place self.now k ≡ costs k) → self.now ≡ list_of n costs }
    {
        let _tail = self.tail;
    }

    /// A law of the list: it descends.
    pub fn is_descending(&self)
        ensures { descends self.now.runs self.now.tail ≡ true }
    {
        let _tail = self.tail;
    }

    /// Whether all costs of the list are numbers below 2^127. It takes no memory.
    pub fn is_counted(&self) -> bool
        ensures { result ≡ all_counted self.now }
    {
        for run in self.runs.as_slice() {
            if !is_counted(run.value) {
                return false;
            }
        }
        is_counted(self.tail)
    }

    /// How many places there are before the tail.
    pub fn length(&self) -> u64
        ensures { result ≡ places self.now.runs }
    {
        let mut length = 0;
        for run in self.runs.as_slice() {
            length += run.count;
        }
        length
    }

    /// The sum of the first `n` costs of the list; finite sums of 2^127 or more are Beyond. It takes no
    /// memory.
    #[tactic(auto, using(crate::proofs::SumLaws::sum_begins, crate::proofs::SumLaws::sum_goes_on, crate::proofs::SumLaws::sum_ends))]
    pub fn prefix(&self, n: u64) -> Cost
        ensures { result ≡ cost_of (prefix_sum self.now n) }
    {
        let mut sum = Cost::Fin(0);
        let mut left = n;
        for run in self.runs.as_slice() {
            if left <= run.count {
                return sum.plus(run.value.times(u128::from(left)));
            }
            sum = sum.plus(run.value.times(u128::from(run.count)));
            left -= run.count;
        }
        sum.plus(self.tail.times(u128::from(left)))
    }

    /// The sums of two lists, place by place; finite sums of 2^127 or more are Beyond.
    pub fn plus(&self, alloc: Global, other: &Multi) -> Result<Multi, AllocError>
        requires { places self.now.runs + places other.now.runs < 2 ^ 63 }
        ensures places { IfOk result (λ costs. (k : ℕ) → place costs k ≡ sum_of (place self.now k) (place other.now k)) }
        ensures length { IfOk result (λ costs. places costs.runs ≤ places self.now.runs + places other.now.runs) }
    {
        let tail = self.tail.plus(other.tail);
        let mut sums = Growing::new(alloc);
        let mut left = Rest::of(self);
        let mut right = Rest::of(other);
        while let Some(run) = next_sum(&mut left, &mut right) {
            sums.push(run.value, run.count)?;
        }
        sums.end(tail)
    }

    /// The descending union of two lists: the greater of the two costs that come next, again and again. Its
    /// first n costs cost as much as the dearest way to take n costs from the fronts of the two.
    pub fn merge(&self, alloc: Global, other: &Multi) -> Result<Multi, AllocError>
        requires { places self.now.runs + places other.now.runs < 2 ^ 63 }
        ensures places { IfOk result (λ costs. (k : ℕ) → place costs k ≡ merged (place self.now) (place other.now) k) }
        ensures length { IfOk result (λ costs. places costs.runs ≤ places self.now.runs + places other.now.runs) }
        ensures splits { IfOk result (λ costs. (n : ℕ) → prefix_sum costs n ≡ best (prefix_sum self.now) (prefix_sum other.now) n n) }
    {
        let tail = self.tail.larger(other.tail);
        let mut union = Growing::new(alloc);
        let mut left = Rest::of(self);
        let mut right = Rest::of(other);
        while let Some(run) = next_greatest(&mut left, &mut right) {
            union.push(run.value, run.count)?;
        }
        union.end(tail)
    }

    /// The sums of `by` places each, in order: by 0 all zeros, by Unbounded Unbounded everywhere. Finite sums
    /// of 2^127 or more are Beyond. It takes time for the runs, and none for the places.
    pub fn group(&self, alloc: Global, by: Cost) -> Result<Multi, AllocError>
        requires { by ≢ Cost.Beyond }
        ensures places { IfOk result (λ costs. (k : ℕ) → place costs k ≡ grouped by (place self.now) k) }
        ensures length { IfOk result (λ costs. places costs.runs ≤ places self.now.runs) }
    {
        match by {
            Cost::Fin(by) => {
                if by == 0 {
                    return Ok(Multi::of(Items::new(alloc), Cost::Fin(0)));
                }
                self.group_places(alloc, by)
            }
            _ => Ok(Multi::of(Items::new(alloc), Cost::Unbounded)),
        }
    }

    /// The same as `group`, as one list: the descending list that has these sums at its places.
    pub fn list_groups(&self, alloc: Global, by: Cost) -> Result<Multi, AllocError>
        requires { by ≢ Cost.Beyond }
        ensures { IfOk result (λ costs. costs ≡ list_groups by self.now) }
    {
        let costs = self.group(alloc, by)?;
        costs.is_its_places();
        Ok(costs)
    }

    /// The sums of groups of places, each of the same number of them, at least one.
    fn group_places(&self, alloc: Global, by: u128) -> Result<Multi, AllocError>
        requires { 1 ≤ by }
        ensures places { IfOk result (λ costs. (k : ℕ) → place costs k ≡ grouped (CostValue.Fin by) (place self.now) k) }
        ensures length { IfOk result (λ costs. places costs.runs ≤ places self.now.runs) }
    {
        let tail = self.tail;
        let mut groups = Groups::new(alloc, by);
        for run in self.runs.as_slice() {
            groups.add(run.value, run.count)?;
        }
        groups.close(tail)?;
        groups.end(tail.times(by))
    }
}

/// Whether a cost is a number below 2^127.
fn is_counted(cost: Cost) -> bool
    ensures { result ≡ is_counted cost }
{
    match cost {
        Cost::Fin(_) => true,
        Cost::Beyond | Cost::Unbounded => false,
    }
}
