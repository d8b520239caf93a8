ghost use Rattle.std.specs.Prelude.{◌≡◌, ℕ, List, [], ◌∷◌, ◌++◌, length, map, IfOk, OnOk, OnErr, ◌<◌, Option, None, Some};
ghost use Rattle.wsym_formula.specs.Tables.{AllBelow, meaning_at};
ghost use Rattle.simplifier.specs.Normal.{choices, constant, flattened, others, summands, unless_constant};
ghost use Rattle.simplifier.specs.Simplified.{choices_in, numbers_in};

use crate::folds::constant_in;
use std::alloc::{AllocError, Global};
use wsym_formula::{Node, Numbers, Shared};

/// Puts the numbers of a node's summands after others; `at` is the node's own number.
fn push_numbers(node: &Node, parts: &mut Numbers, at: u32) -> Result<(), AllocError>
    ensures { OnOk result (parts.new ≡ parts.old ++ numbers_in at node.now) }
{
    match node {
        Node::Sum(members) => parts.extend(members.as_slice()),
        Node::Const(_)
        | Node::Alt(_)
        | Node::Power { id: _, body: _ }
        | Node::Once(_)
        | Node::Scaled { id: _, body: _ } => parts.push(at),
    }
}

/// Puts the numbers of a node's choices after others; `at` is the node's own number.
fn push_choices(node: &Node, parts: &mut Numbers, at: u32) -> Result<(), AllocError>
    ensures { OnOk result (parts.new ≡ parts.old ++ choices_in at node.now) }
{
    match node {
        Node::Alt(choices) => parts.extend(choices.as_slice()),
        Node::Const(_)
        | Node::Sum(_)
        | Node::Power { id: _, body: _ }
        | Node::Once(_)
        | Node::Scaled { id: _, body: _ } => parts.push(at),
    }
}

/// Puts the summands of a member after others.
#[tactic(auto, using(crate::proofs::Revealing::pushed_below, crate::proofs::Revealing::pushed_means))]
fn push_summands(table: &Shared, parts: &mut Numbers, member: u32) -> Result<(), AllocError>
    requires { member < length table.now }
    ensures below { OnOk result (AllBelow (length table.now) parts.old → AllBelow (length table.now) parts.new) }
    ensures means { OnOk result (map (meaning_at table.now) parts.new ≡ map (meaning_at table.now) parts.old ++ summands (meaning_at table.now member)) }
{
    push_numbers(table.node(member), parts, member)
}

/// Puts the choices of a member after others.
#[tactic(auto, using(crate::proofs::Revealing::chosen_below, crate::proofs::Revealing::chosen_means))]
fn push_shares(table: &Shared, parts: &mut Numbers, member: u32) -> Result<(), AllocError>
    requires { member < length table.now }
    ensures below { OnOk result (AllBelow (length table.now) parts.old → AllBelow (length table.now) parts.new) }
    ensures means { OnOk result (map (meaning_at table.now) parts.new ≡ map (meaning_at table.now) parts.old ++ choices (meaning_at table.now member)) }
{
    push_choices(table.node(member), parts, member)
}

/// The summands of the members.
pub(crate) fn summands_in(
    table: &Shared,
    alloc: Global,
    members: &[u32],
) -> Result<Numbers, AllocError>
    requires { AllBelow (length table.now) members.now }
    ensures below { IfOk result (AllBelow (length table.now)) }
    ensures means { IfOk result (λ parts. map (meaning_at table.now) parts ≡ flattened summands (map (meaning_at table.now) members.now)) }
{
    let mut parts = Numbers::new(alloc);
    for member in members {
        push_summands(table, &mut parts, *member)?;
    }
    Ok(parts)
}

/// The choices of the members.
pub(crate) fn shares_in(
    table: &Shared,
    alloc: Global,
    members: &[u32],
) -> Result<Numbers, AllocError>
    requires { AllBelow (length table.now) members.now }
    ensures below { IfOk result (AllBelow (length table.now)) }
    ensures means { IfOk result (λ parts. map (meaning_at table.now) parts ≡ flattened choices (map (meaning_at table.now) members.now)) }
{
    let mut parts = Numbers::new(alloc);
    for member in members {
        push_shares(table, &mut parts, *member)?;
    }
    Ok(parts)
}

/// Takes a part that isn't a constant.
#[tactic(auto, using(crate::proofs::Revealing::below_pushed, crate::proofs::Revealing::other_skipped, crate::proofs::Revealing::other_taken))]
fn push_other(table: &Shared, rest: &mut Numbers, part: u32) -> Result<(), AllocError>
    requires { part < length table.now }
    ensures below { OnOk result (AllBelow (length table.now) rest.old → AllBelow (length table.now) rest.new) }
    ensures means { OnOk result (map (meaning_at table.now) rest.new ≡ map (meaning_at table.now) rest.old ++ unless_constant (constant (meaning_at table.now part)) (meaning_at table.now part) []) }
{
    match constant_in(table.node(part)) {
        Some(_) => Ok(()),
        None => rest.push(part),
    }
}

/// The parts that aren't constants.
pub(crate) fn others_in(table: &Shared, alloc: Global, parts: &[u32]) -> Result<Numbers, AllocError>
    requires { AllBelow (length table.now) parts.now }
    ensures below { IfOk result (AllBelow (length table.now)) }
    ensures means { IfOk result (λ rest. map (meaning_at table.now) rest ≡ others (map (meaning_at table.now) parts.now)) }
{
    let mut rest = Numbers::new(alloc);
    for part in parts {
        push_other(table, &mut rest, *part)?;
    }
    Ok(rest)
}
