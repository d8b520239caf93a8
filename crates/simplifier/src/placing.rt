ghost use Rattle.std.specs.Prelude.{◌≡◌, ℕ, List, [], ◌∷◌, ◌++◌, length, map, IfOk, OnOk, ◌<◌, Option, None, Some};
ghost use Rattle.wsym_formula.specs.Tables.{AllBelow, Extends, IsBelow, meaning_at, meanings, opened};
ghost use Rattle.simplifier.specs.Normal.{alone_alt, alone_sum, choices, constants, flattened, normal_alt, normal_sum, others, summands, sums_first, unions_first, without_zero};
ghost use Rattle.wsym_formula.specs.Values.{zero_costs};
ghost use Rattle.wsym_formula.specs.declared.terms.Term.{Term as TermValue};

use crate::constants::{leading_sum, leading_union, without_zero};
use crate::flattening::{others_in, shares_in, summands_in};
use cost_multiset::Multi;
use std::alloc::{AllocError, Global};
use wsym_formula::{Node, Numbers, Shared, place};
use wsym_terms::Cost;

/// The node of a list of summands.
fn place_summands(table: &mut Shared, alloc: Global, numbers: Numbers) -> Result<u32, AllocError>
    requires { AllBelow (length table.old) numbers }
    ensures within { IfOk result (λ k. k < length table.new) }
    ensures extends { OnOk result (Extends table.old table.new) }
    ensures means { IfOk result (λ k. meaning_at table.new k ≡ alone_sum (map (meaning_at table.old) numbers)) }
{
    match numbers.as_slice() {
        [] => place(table, Node::Const(Multi::flat(alloc, Cost::Fin(0)))),
        [one] => Ok(*one),
        _ => place(table, Node::Sum(numbers)),
    }
}

/// The node of a list of choices.
fn place_choices(table: &mut Shared, numbers: Numbers) -> Result<u32, AllocError>
    requires { AllBelow (length table.old) numbers }
    ensures within { IfOk result (λ k. k < length table.new) }
    ensures extends { OnOk result (Extends table.old table.new) }
    ensures means { IfOk result (λ k. meaning_at table.new k ≡ alone_alt (map (meaning_at table.old) numbers)) }
{
    match numbers.as_slice() {
        [one] => Ok(*one),
        _ => place(table, Node::Alt(numbers)),
    }
}

/// A constant in front of the parts that aren't constants.
fn lead(
    table: &mut Shared,
    alloc: Global,
    costs: Multi,
    parts: &[u32],
) -> Result<Numbers, AllocError>
    requires { AllBelow (length table.old) parts.now }
    ensures below { IfOk result (AllBelow (length table.new)) }
    ensures extends { OnOk result (Extends table.old table.new) }
    ensures means { IfOk result (λ all. map (meaning_at table.new) all ≡ TermValue.Const costs ∷ others (map (meaning_at table.old) parts.now)) }
{
    let rest = others_in(table, alloc, parts)?;
    let first = place(table, Node::Const(costs))?;
    let mut all = Numbers::new(alloc);
    all.push(first)?;
    all.extend(rest.as_slice())?;
    Ok(all)
}

/// Some summands with their constants as one in front, where no cost of that one is 2^127 or more.
fn lead_by_sum(table: &mut Shared, alloc: Global, parts: Numbers) -> Result<Numbers, AllocError>
    requires { AllBelow (length table.old) parts }
    ensures below { IfOk result (AllBelow (length table.new)) }
    ensures extends { OnOk result (Extends table.old table.new) }
    ensures means { IfOk result (λ all. map (meaning_at table.new) all ≡ sums_first (constants (map (meaning_at table.old) parts)) (others (map (meaning_at table.old) parts)) (map (meaning_at table.old) parts)) }
{
    match leading_sum(table, alloc, parts.as_slice())? {
        Some(costs) => lead(table, alloc, costs, parts.as_slice()),
        None => Ok(parts),
    }
}

/// Some choices with their constants as one in front, where their counts are below 2^63 together.
fn lead_by_union(table: &mut Shared, alloc: Global, parts: Numbers) -> Result<Numbers, AllocError>
    requires { AllBelow (length table.old) parts }
    ensures below { IfOk result (AllBelow (length table.new)) }
    ensures extends { OnOk result (Extends table.old table.new) }
    ensures means { IfOk result (λ all. map (meaning_at table.new) all ≡ unions_first (constants (map (meaning_at table.old) parts)) (others (map (meaning_at table.old) parts)) (map (meaning_at table.old) parts)) }
{
    match leading_union(table, alloc, parts.as_slice())? {
        Some(costs) => lead(table, alloc, costs, parts.as_slice()),
        None => Ok(parts),
    }
}

/// The normal form of a sum of nodes in normal form.
pub(crate) fn place_sum(
    table: &mut Shared,
    alloc: Global,
    members: &[u32],
) -> Result<u32, AllocError>
    requires { AllBelow (length table.old) members.now }
    ensures within { IfOk result (λ k. k < length table.new) }
    ensures extends { OnOk result (Extends table.old table.new) }
    ensures means { IfOk result (λ k. meaning_at table.new k ≡ normal_sum (map (meaning_at table.old) members.now)) }
{
    let parts = summands_in(table, alloc, members)?;
    let led = lead_by_sum(table, alloc, parts)?;
    let rest = without_zero(table, alloc, led)?;
    place_summands(table, alloc, rest)
}

/// The normal form of an Alt of nodes in normal form.
pub(crate) fn place_alt(
    table: &mut Shared,
    alloc: Global,
    members: &[u32],
) -> Result<u32, AllocError>
    requires { AllBelow (length table.old) members.now }
    ensures within { IfOk result (λ k. k < length table.new) }
    ensures extends { OnOk result (Extends table.old table.new) }
    ensures means { IfOk result (λ k. meaning_at table.new k ≡ normal_alt (map (meaning_at table.old) members.now)) }
{
    let parts = shares_in(table, alloc, members)?;
    let led = lead_by_union(table, alloc, parts)?;
    place_choices(table, led)
}
