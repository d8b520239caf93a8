ghost use Rattle.std.specs.Prelude.{◌≡◌, ℕ, List, [], ◌∷◌, ◌++◌, ◌+◌, ◌^◌, length, map, IfOk, OnOk, ◌<◌, nat_lt, Option, None, Some, Bool, true, false};
ghost use Rattle.cost_multiset.specs.CostLists.{CostList, places};
ghost use Rattle.wsym_formula.specs.Tables.{AllBelow, meaning_at};
ghost use Rattle.simplifier.specs.Normal.{all_places, constant, constants, is_zero, without_zero};
ghost use Rattle.simplifier.specs.Simplified.{IsSummed, IsJointly, IsUnited, descends_if, places_if, leading_sum, leading_union};

use crate::folds::constant_in;
use cost_multiset::Multi;
use std::alloc::{AllocError, Global};
use wsym_formula::{Numbers, Shared, halves};
use wsym_terms::Cost;

/// The most places that a list has, and one more.
const LIMIT: u64 = 1 << 63;

/// How many places the constant at a number has before its tail; 0 where there is none.
#[tactic(auto, using(crate::proofs::Showing::constant_shows))]
fn places_of(table: &Shared, at: u32) -> u64
    requires { at < length table.now }
    ensures { result ≡ places_if (constant (meaning_at table.now at)) }
{
    match constant_in(table.node(at)) {
        Some(costs) => costs.length(),
        None => 0,
    }
}

/// Whether the constants among some parts have fewer than 2^63 places together.
fn are_few(table: &Shared, parts: &[u32]) -> bool
    requires { AllBelow (length table.now) parts.now }
    ensures { result ≡ nat_lt (all_places (constants (map (meaning_at table.now) parts.now))) (2 ^ 63) }
{
    let mut total = 0;
    for part in parts {
        let more = places_of(table, *part);
        if more >= LIMIT - total {
            return false;
        }
        total += more;
    }
    true
}

/// The constant at a number, once more.
#[tactic(auto, using(crate::proofs::Showing::constant_shows))]
fn copied_at(table: &Shared, alloc: Global, at: u32) -> Result<Option<Multi>, AllocError>
    requires { at < length table.now }
    ensures same { IfOk result (λ costs. costs ≡ constant (meaning_at table.now at)) }
    ensures down { IfOk result (λ costs. descends_if costs ≡ true) }
{
    match constant_in(table.node(at)) {
        Some(costs) => {
            let copy = costs.copy(alloc)?;
            copy.is_descending();
            Ok(Some(copy))
        }
        None => Ok(None),
    }
}

/// The sum of two constants, each of which may be missing.
fn join_sums(
    alloc: Global,
    left: Option<Multi>,
    right: Option<Multi>,
) -> Result<Option<Multi>, AllocError>
    requires { places_if left + places_if right < 2 ^ 63 }
    ensures { IfOk result (λ both. (xs ys : List CostList) → IsJointly IsSummed xs left → IsJointly IsSummed ys right → IsJointly IsSummed (xs ++ ys) both) }
{
    let Some(front) = left else {
        return Ok(right);
    };
    let Some(back) = right else {
        return Ok(Some(front));
    };
    let costs = front.plus(alloc, &back)?;
    Ok(Some(costs))
}

/// The descending union of two constants, each of which may be missing.
fn join_unions(
    alloc: Global,
    left: Option<Multi>,
    right: Option<Multi>,
) -> Result<Option<Multi>, AllocError>
    requires { places_if left + places_if right < 2 ^ 63 }
    ensures { IfOk result (λ both. (xs ys : List CostList) → IsJointly IsUnited xs left → IsJointly IsUnited ys right → IsJointly IsUnited (xs ++ ys) both) }
{
    let Some(front) = left else {
        return Ok(right);
    };
    let Some(back) = right else {
        return Ok(Some(front));
    };
    let costs = front.merge(alloc, &back)?;
    Ok(Some(costs))
}

/// The sum of the constants among some parts, by halves.
#[cycle(sums)]
#[tactic(auto, using(wsym_formula::proofs::Valuing::front_below, wsym_formula::proofs::Valuing::back_below, crate::proofs::Joining::front_few, crate::proofs::Joining::back_few, crate::proofs::Joining::both_sums_few))]
fn sum_constants(table: &Shared, alloc: Global, parts: &[u32]) -> Result<Option<Multi>, AllocError>
    requires below { AllBelow (length table.now) parts.now }
    requires few { all_places (constants (map (meaning_at table.now) parts.now)) < 2 ^ 63 }
    ensures { IfOk result (IsJointly IsSummed (constants (map (meaning_at table.now) parts.now))) }
{
    match parts {
        [] => Ok(None),
        [one] => copied_at(table, alloc, *one),
        _ => {
            let (front, back) = halves(parts);
            let left = sum_constants(table, alloc, front)?;
            let right = sum_constants(table, alloc, back)?;
            join_sums(alloc, left, right)
        }
    }
}

/// The descending union of the constants among some parts, by halves.
#[cycle(unions)]
#[tactic(auto, using(wsym_formula::proofs::Valuing::front_below, wsym_formula::proofs::Valuing::back_below, crate::proofs::Joining::front_few, crate::proofs::Joining::back_few, crate::proofs::Joining::both_unions_few))]
fn unite_constants(
    table: &Shared,
    alloc: Global,
    parts: &[u32],
) -> Result<Option<Multi>, AllocError>
    requires below { AllBelow (length table.now) parts.now }
    requires few { all_places (constants (map (meaning_at table.now) parts.now)) < 2 ^ 63 }
    ensures { IfOk result (IsJointly IsUnited (constants (map (meaning_at table.now) parts.now))) }
{
    match parts {
        [] => Ok(None),
        [one] => copied_at(table, alloc, *one),
        _ => {
            let (front, back) = halves(parts);
            let left = unite_constants(table, alloc, front)?;
            let right = unite_constants(table, alloc, back)?;
            join_unions(alloc, left, right)
        }
    }
}

/// The sum of the constants among some parts, where none of its costs is 2^127 or more.
pub(crate) fn leading_sum(
    table: &Shared,
    alloc: Global,
    parts: &[u32],
) -> Result<Option<Multi>, AllocError>
    requires { AllBelow (length table.now) parts.now }
    ensures { IfOk result (λ costs. costs ≡ leading_sum (constants (map (meaning_at table.now) parts.now))) }
{
    if !are_few(table, parts) {
        return Err(AllocError);
    }
    match sum_constants(table, alloc, parts)? {
        Some(costs) => {
            costs.is_its_places();
            if costs.is_counted() {
                Ok(Some(costs))
            } else {
                Ok(None)
            }
        }
        None => Ok(None),
    }
}

/// The descending union of the constants among some parts, where their counts are below 2^63 together.
pub(crate) fn leading_union(
    table: &Shared,
    alloc: Global,
    parts: &[u32],
) -> Result<Option<Multi>, AllocError>
    requires { AllBelow (length table.now) parts.now }
    ensures { IfOk result (λ costs. costs ≡ leading_union (constants (map (meaning_at table.now) parts.now))) }
{
    if !are_few(table, parts) {
        return Ok(None);
    }
    match unite_constants(table, alloc, parts)? {
        Some(costs) => {
            costs.is_its_places();
            Ok(Some(costs))
        }
        None => Ok(None),
    }
}

/// Whether the constant at a number costs nothing.
#[tactic(auto, using(crate::proofs::Showing::constant_shows))]
fn is_zero_at(table: &Shared, alloc: Global, at: u32) -> bool
    requires { at < length table.now }
    ensures { result ≡ is_zero (constant (meaning_at table.now at)) }
{
    match constant_in(table.node(at)) {
        Some(costs) => *costs == Multi::flat(alloc, Cost::Fin(0)),
        None => false,
    }
}

/// The members without a first 0 beside others.
pub(crate) fn without_zero(
    table: &Shared,
    alloc: Global,
    members: Numbers,
) -> Result<Numbers, AllocError>
    requires { AllBelow (length table.now) members }
    ensures below { IfOk result (AllBelow (length table.now)) }
    ensures means { IfOk result (λ rest. map (meaning_at table.now) rest ≡ without_zero (map (meaning_at table.now) members)) }
{
    if members.as_slice().len() < 2 {
        return Ok(members);
    }
    if !is_zero_at(table, alloc, members.as_slice()[0]) {
        return Ok(members);
    }
    let mut rest = Numbers::new(alloc);
    rest.extend(&members.as_slice()[1..])?;
    Ok(rest)
}
