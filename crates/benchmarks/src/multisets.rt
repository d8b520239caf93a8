//! Sums, unions and groups of a list of costs: `multisets plus 1000 10 0` adds a list of 1,000 runs to itself ten
//! times. Each run has one place, or twice as many for each doubling. The result is the number of places that the last
//! list has before its tail.

use crate::words::{number, word};
use cost_multiset::{Multi, Run};
use sqlite_items::Items;
use std::alloc::{AllocError, Global};
use wsym_terms::Cost;

/// How many places a group has.
const GROUP: u128 = 7;

/// `{value*count|0}`, or `{|0}` where one of them is 0 or the count is too large.
fn step(alloc: Global, value: u64, count: u64) -> Result<Multi, AllocError> {
    let mut runs = Items::new(alloc);
    if 0 < value && 0 < count && count < 1 << 63 {
        runs.push(Run {
            value: Cost::Fin(u128::from(value)),
            count,
        })?;
    }
    Ok(Multi::of(runs, Cost::Fin(0)))
}

/// The sum of two lists, or `{|0}` where they are too long.
fn added(alloc: Global, a: &Multi, b: &Multi) -> Result<Multi, AllocError> {
    if a.length() < 1 << 62 && b.length() < 1 << 62 {
        a.plus(alloc, b)
    } else {
        step(alloc, 0, 0)
    }
}

/// The union of two lists, or `{|0}` where they are too long.
fn united(alloc: Global, a: &Multi, b: &Multi) -> Result<Multi, AllocError> {
    if a.length() < 1 << 62 && b.length() < 1 << 62 {
        a.merge(alloc, b)
    } else {
        step(alloc, 0, 0)
    }
}

/// The list of this many runs of one place each, from `runs` down to 1, by doubling.
fn stairs(alloc: Global, runs: u64) -> Result<Multi, AllocError> {
    let mut list = step(alloc, 0, 0)?;
    for shift in 0..64u32 {
        let length = list.length();
        let raised = added(alloc, &list, &step(alloc, length, length)?)?;
        list = united(alloc, &raised, &list)?;
        if (runs >> (63 - shift)) % 2 == 1 {
            list = united(
                alloc,
                &list,
                &step(alloc, list.length().saturating_add(1), 1)?,
            )?;
        }
    }
    Ok(list)
}

/// The list that a call makes of this one and itself, or its groups where the call is another.
fn called(alloc: Global, call: &str, list: &Multi) -> Result<Multi, AllocError> {
    if call == "plus" {
        added(alloc, list, list)
    } else if call == "merge" {
        united(alloc, list, list)
    } else {
        list.group(alloc, Cost::Fin(GROUP))
    }
}

/// The list after some doublings, each of which gives each run twice as many places.
fn widened(alloc: Global, list: Multi, doublings: u64) -> Result<Multi, AllocError> {
    let mut wide = list;
    for _ in 0..doublings {
        wide = united(alloc, &wide, &wide)?;
    }
    Ok(wide)
}

/// The number of places of the last result.
pub(crate) fn done(alloc: Global, words: &[String]) -> anyhow::Result<String> {
    let call = word(words, 1);
    let runs = number(words, 2)?;
    let times = number(words, 3)?;
    let list = widened(alloc, stairs(alloc, runs)?, number(words, 4)?)?;
    let mut length = list.length();
    for _ in 0..times {
        length = called(alloc, call, &list)?.length();
    }
    Ok(format!(in alloc; "{length}")?)
}
