use crate::numbers::{number, shown_cost};
use cost_multiset::{Multi, Run};
use sqlite_items::Items;
use std::alloc::{AllocError, Global};
use wsym_terms::Cost;

/// The greatest number of cycles that is counted exactly.
const MOST: u128 = (1 << 127) - 1;

/// The list of a run of numbers, `{value*count|tail}`, or `{|tail}` where it has no such run.
fn run_of_numbers(alloc: Global, value: u128, count: u64, tail: u128) -> Result<Multi, AllocError> {
    let mut runs = Items::new(alloc);
    if tail < value && value <= MOST && 0 < count && count < 1 << 63 {
        runs.push(Run {
            value: Cost::Fin(value),
            count,
        })?;
        return Ok(Multi::of(runs, Cost::Fin(tail)));
    }
    Ok(Multi::of(runs, Cost::Fin(tail.min(MOST))))
}

/// The list of a run without bound, `{unbounded*count|tail}`, or `{|tail}` where it has no such run.
fn run_without_bound(alloc: Global, count: u64, tail: u128) -> Result<Multi, AllocError> {
    let mut runs = Items::new(alloc);
    if tail <= MOST && 0 < count && count < 1 << 63 {
        runs.push(Run {
            value: Cost::Unbounded,
            count,
        })?;
        return Ok(Multi::of(runs, Cost::Fin(tail)));
    }
    Ok(Multi::of(runs, Cost::Fin(tail.min(MOST))))
}

/// The list of one run, as `15*2` spells it, and a tail.
fn run(alloc: Global, word: &str, tail: u128) -> Result<Multi, AllocError> {
    let (value, count) = word.split_once('*').unwrap_or((word, "1"));
    let count = u64::try_from(number(count)).unwrap_or(0);
    if value == "unbounded" {
        return run_without_bound(alloc, count, tail);
    }
    run_of_numbers(alloc, number(value), count, tail)
}

/// The list that a word spells, as `{15*2,9|7}`: the union of lists of one of its runs each.
pub(crate) fn list(alloc: Global, word: &str) -> Result<Multi, AllocError> {
    let inner = word.trim_matches(&['{', '}']);
    let (runs, tail) = inner.split_once('|').unwrap_or(("", inner));
    let tail = number(tail);
    let mut union = run(alloc, "0", tail)?;
    for word in runs.split(',') {
        union = united(alloc, union, &run(alloc, word, tail)?)?;
    }
    Ok(union)
}

/// The sum of two lists, or the first where they are too long.
fn added(alloc: Global, left: Multi, right: &Multi) -> Result<Multi, AllocError> {
    if left.length() < 1 << 62 && right.length() < 1 << 62 {
        return left.plus(alloc, right);
    }
    Ok(left)
}

/// The union of two lists, or the first where they are too long.
fn united(alloc: Global, left: Multi, right: &Multi) -> Result<Multi, AllocError> {
    if left.length() < 1 << 62 && right.length() < 1 << 62 {
        return left.merge(alloc, right);
    }
    Ok(left)
}

/// The groups of a number of places, or of a count without bound.
fn grouped(alloc: Global, costs: &Multi, count: &str) -> Result<Multi, AllocError> {
    if count == "unbounded" {
        return costs.group(alloc, Cost::Unbounded);
    }
    costs.group(alloc, Cost::Fin(number(count)))
}

/// A list as `{15*2,9|7}`.
pub(crate) fn shown(alloc: Global, costs: &Multi) -> Result<String, AllocError> {
    let mut text = String::from_str(alloc, "{")?;
    let mut between = "";
    for run in costs.runs() {
        text.push_str(between)?;
        shown_cost(&mut text, run.value)?;
        if run.count != 1 {
            write!(text, "*{}", run.count)?;
        }
        between = ",";
    }
    text.push_str("|")?;
    shown_cost(&mut text, costs.tail())?;
    text.push_str("}")?;
    Ok(text)
}

/// What a call of a list gives.
pub(crate) fn list_call(
    alloc: Global,
    call: &str,
    first: &str,
    second: &str,
) -> Result<String, AllocError> {
    let costs = list(alloc, first)?;
    match call {
        "plus" => shown(alloc, &added(alloc, costs, &list(alloc, second)?)?),
        "merge" => shown(alloc, &united(alloc, costs, &list(alloc, second)?)?),
        "group" => shown(alloc, &grouped(alloc, &costs, second)?),
        "length" => format!(in alloc; "{}", costs.length()),
        "prefix" => {
            let count = u64::try_from(number(second)).unwrap_or(u64::MAX);
            let mut text = String::new(alloc);
            shown_cost(&mut text, costs.prefix(count))?;
            Ok(text)
        }
        _ => String::from_str(alloc, "no such call"),
    }
}
