//! Reads the constants of a formula: lists of costs.

ghost use Rattle.std.specs.Prelude.{◌≡◌, ◌&&◌, ◌<◌, ◌^◌, [], ◌∷◌, IfOk, IfSome, None, Some, nat_le, nat_lt};
ghost use Rattle.report_elements.specs.ConstantReading.{cost_number, costs_of, last_run, run_of, runs_on, with_tail};
ghost use Rattle.cost_multiset.specs.CostLists.{descends, next_value, places};
ghost use Rattle.wsym_terms.specs.Costs.{is_in_range, is_less};
ghost use Rattle.report_elements.specs.Constants.{checked, is_list, list_of};

use crate::digits::number;
use cost_multiset::{Multi, Run};
use sqlite_items::Items;
use std::alloc::{AllocError, Global};
use std::marker::Model;
use wsym_terms::Cost;

/// Runs and a tail that may not descend.
#[derive(Drop)]
pub struct Listing {
    runs: Items<Run>,
    tail: Cost,
}

impl Model for Listing {
    ghost use Rattle.cost_multiset.specs.CostLists.{CostList};

    ghost Value = { CostList };

    ghost view = { λ m. record { runs = m.runs; tail = m.tail } };
}

fn cost_in(digits: &[u8]) -> Option<u128>
    ensures value { result ≡ cost_number digits.now }
{
    number(digits, 1 << 127)
}

fn run_in(value: Option<u128>, digits: &[u8]) -> Option<Run>
    ensures { result ≡ run_of value digits.now }
{
    match value {
        Some(value) => match number(digits, 1 << 63) {
            Some(count) => Some(Run {
                value: Cost::Fin(value),
                count: count as u64,
            }),
            None => None,
        },
        None => match cost_in(digits) {
            Some(value) => Some(Run {
                value: Cost::Fin(value),
                count: 1,
            }),
            None => None,
        },
    }
}

fn tail_in(alloc: Global, runs: Items<Run>, text: &[u8]) -> Result<Option<Listing>, AllocError>
    ensures { IfOk result (λ o. o ≡ with_tail runs [] text.now) }
{
    let mut digits: Vec<u8> = Vec::new(alloc);
    for byte in text {
        let byte = *byte;
        if byte == 125 {
            return Ok(tail_made(runs, digits.as_slice()));
        }
        digits.push(byte)?;
    }
    Ok(None)
}

fn tail_made(runs: Items<Run>, digits: &[u8]) -> Option<Listing>
    ensures { result ≡ with_tail runs digits.now (125 ∷ []) }
{
    match cost_in(digits) {
        Some(tail) => Some(Listing {
            runs,
            tail: Cost::Fin(tail),
        }),
        None => None,
    }
}

fn last_in(
    alloc: Global,
    runs: Items<Run>,
    value: Option<u128>,
    digits: &[u8],
    rest: &[u8],
) -> Result<Option<Listing>, AllocError>
    ensures { IfOk result (λ o. o ≡ last_run runs value digits.now rest.now) }
{
    let mut runs = runs;
    if value.is_none() && digits.is_empty() {
        return tail_in(alloc, runs, rest);
    }
    match run_in(value, digits) {
        Some(run) => {
            runs.push(run)?;
            tail_in(alloc, runs, rest)
        }
        None => Ok(None),
    }
}

fn listed_in(alloc: Global, text: &[u8]) -> Result<Option<Listing>, AllocError>
    ensures { IfOk result (λ o. o ≡ runs_on [] None [] text.now) }
{
    let mut runs = Items::new(alloc);
    let mut value: Option<u128> = None;
    let mut digits: Vec<u8> = Vec::new(alloc);
    let mut left = text;
    while let Some((byte, later)) = left.split_first() {
        let byte = *byte;
        if byte == 42 {
            match cost_in(digits.as_slice()) {
                Some(cost) => value = Some(cost),
                None => return Ok(None),
            }
            digits.clear();
        } else if byte == 44 {
            match run_in(value, digits.as_slice()) {
                Some(run) => runs.push(run)?,
                None => return Ok(None),
            }
            value = None;
            digits.clear();
        } else if byte == 124 {
            return last_in(alloc, runs, value, digits.as_slice(), later);
        } else {
            digits.push(byte)?;
        }
        left = later;
    }
    Ok(None)
}

fn costs_in(alloc: Global, word: &[u8]) -> Result<Option<Listing>, AllocError>
    ensures { IfOk result (λ o. o ≡ costs_of word.now) }
{
    match word.split_first() {
        Some((first, rest)) => {
            if *first == 123 {
                listed_in(alloc, rest)
            } else {
                Ok(None)
            }
        }
        None => Ok(None),
    }
}

/// Whether a cost is less than another.
fn is_below(first: Cost, second: Cost) -> bool
    ensures { result ≡ is_less first second }
{
    match second {
        Cost::Fin(second) => match first {
            Cost::Fin(first) => first < second,
            Cost::Beyond | Cost::Unbounded => false,
        },
        Cost::Beyond => match first {
            Cost::Fin(_) => true,
            Cost::Beyond | Cost::Unbounded => false,
        },
        Cost::Unbounded => match first {
            Cost::Fin(_) | Cost::Beyond => true,
            Cost::Unbounded => false,
        },
    }
}

fn is_ranged(cost: Cost) -> bool
    ensures { result ≡ is_in_range cost }
{
    match cost {
        Cost::Fin(cycles) => cycles < 1 << 127,
        Cost::Beyond | Cost::Unbounded => true,
    }
}

fn next_of(runs: &[Run], tail: Cost) -> Cost
    ensures { result ≡ next_value runs.now tail }
{
    match runs.split_first() {
        Some((run, _)) => run.value,
        None => tail,
    }
}

fn step_ok(run: Run, next: Cost) -> bool
    ensures { result ≡ (nat_le 1 run.count && (is_in_range run.value && is_less next run.value)) }
{
    run.count >= 1 && is_ranged(run.value) && is_below(next, run.value)
}

pub(crate) fn descending(runs: &[Run], tail: Cost) -> bool
    ensures { result ≡ descends runs.now tail }
{
    let mut left = runs;
    while let Some((run, later)) = left.split_first() {
        if !step_ok(*run, next_of(later, tail)) {
            return false;
        }
        left = later;
    }
    is_ranged(tail)
}

/// Whether the counts add up to less than 2^63.
pub(crate) fn few(runs: &[Run]) -> bool
    ensures { result ≡ nat_lt (places runs.now) (2 ^ 63) }
{
    let mut room = 1_u64 << 63;
    for run in runs {
        if run.count >= room {
            return false;
        }
        room -= run.count;
    }
    true
}

fn made(listing: Listing) -> Option<Multi>
    ensures { result ≡ checked listing }
{
    let Listing { runs, tail } = listing;
    let descends = descending(runs.as_slice(), tail);
    let few = few(runs.as_slice());
    if descends && few {
        Some(Multi::of(runs, tail))
    } else {
        None
    }
}

/// The list of costs that a word writes.
pub fn list_in(alloc: Global, word: &[u8]) -> Result<Option<Multi>, AllocError>
    ensures { IfOk result (λ o. o ≡ list_of word.now) }
{
    match costs_in(alloc, word)? {
        Some(listing) => Ok(made(listing)),
        None => Ok(None),
    }
}
