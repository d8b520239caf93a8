ghost use Rattle.std.specs.Prelude.{◌≡◌, ℕ, List, [], ◌∷◌, length, map, IfOk, OnOk, ◌<◌, Option, None, Some, MatchOption};
ghost use Rattle.cost_multiset.specs.Gathered.{all_counted, list_groups};
ghost use Rattle.wsym_formula.specs.Tables.{Extends, IsBelow, meaning_at, meanings, opened};
ghost use Rattle.simplifier.specs.Normal.{constant, constant_in, counted_groups, once_of, power_of, scaled_of};
ghost use Rattle.simplifier.specs.Simplified.{first_as_flat, prefix_as_flat};

use cost_multiset::Multi;
use std::alloc::{AllocError, Global};
use wsym_formula::{Node, Shared, place};
use wsym_terms::Cost;

/// The constant that a node is.
pub(crate) fn constant_in(node: &Node) -> Option<&Multi>
    ensures { MatchOption result (constant_in node.now ≡ None) (λ c. constant_in node.now ≡ Some c.now) }
{
    match node {
        Node::Const(costs) => Some(costs),
        Node::Sum(_)
        | Node::Alt(_)
        | Node::Power { id: _, body: _ }
        | Node::Once(_)
        | Node::Scaled { id: _, body: _ } => None,
    }
}

/// The groups of the constant that stands at a number, where none of them costs 2^127 or more.
#[tactic(auto, using(crate::proofs::Showing::constant_shows))]
fn groups_at(table: &Shared, alloc: Global, at: u32, by: u128) -> Result<Option<Multi>, AllocError>
    requires { at < length table.now }
    ensures { IfOk result (λ groups. groups ≡ counted_groups by (constant (meaning_at table.now at))) }
{
    match constant_in(table.node(at)) {
        Some(costs) => {
            let groups = costs.list_groups(alloc, Cost::Fin(by))?;
            if groups.is_counted() {
                Ok(Some(groups))
            } else {
                Ok(None)
            }
        }
        None => Ok(None),
    }
}

/// The normal form of a power over a node in normal form, where the loop's bound may be known.
pub(crate) fn place_power(
    table: &mut Shared,
    alloc: Global,
    id: u32,
    body: u32,
    known: Option<u128>,
) -> Result<u32, AllocError>
    requires { body < length table.old }
    ensures within { IfOk result (λ k. k < length table.new) }
    ensures extends { OnOk result (Extends table.old table.new) }
    ensures means { IfOk result (λ k. meaning_at table.new k ≡ power_of id (meaning_at table.old body) known (constant (meaning_at table.old body))) }
{
    let Some(by) = known else {
        return place(table, Node::Power { id, body });
    };
    match groups_at(table, alloc, body, by)? {
        Some(groups) => place(table, Node::Const(groups)),
        None => place(table, Node::Power { id, body }),
    }
}

/// The first place of the constant at a number, for ever.
#[tactic(auto, using(crate::proofs::Showing::constant_shows, crate::proofs::Leading::first_place))]
fn first_at(table: &Shared, alloc: Global, at: u32) -> Option<Multi>
    requires { at < length table.now }
    ensures { result ≡ first_as_flat (constant (meaning_at table.now at)) }
{
    match constant_in(table.node(at)) {
        Some(costs) => {
            costs.is_descending();
            Some(Multi::flat(alloc, costs.prefix(1)))
        }
        None => None,
    }
}

/// The first places of the constant at a number as one, for ever, where none of them costs 2^127 or more.
#[tactic(auto, using(crate::proofs::Showing::constant_shows, crate::proofs::Leading::prefix_of_group))]
fn prefix_at(table: &Shared, alloc: Global, at: u32, by: u128) -> Result<Option<Multi>, AllocError>
    requires { at < length table.now }
    ensures { IfOk result (λ costs. costs ≡ prefix_as_flat by (constant (meaning_at table.now at))) }
{
    match constant_in(table.node(at)) {
        Some(costs) => {
            let groups = costs.group(alloc, Cost::Fin(by))?;
            let all = Multi::flat(alloc, groups.prefix(1));
            if all.is_counted() {
                Ok(Some(all))
            } else {
                Ok(None)
            }
        }
        None => Ok(None),
    }
}

/// The normal form of one execution of a node in normal form.
pub(crate) fn place_once(table: &mut Shared, alloc: Global, body: u32) -> Result<u32, AllocError>
    requires { body < length table.old }
    ensures within { IfOk result (λ k. k < length table.new) }
    ensures extends { OnOk result (Extends table.old table.new) }
    ensures means { IfOk result (λ k. meaning_at table.new k ≡ once_of (meaning_at table.old body) (constant (meaning_at table.old body))) }
{
    match first_at(table, alloc, body) {
        Some(costs) => place(table, Node::Const(costs)),
        None => place(table, Node::Once(body)),
    }
}

/// The normal form of the turns of one entry, over a node in normal form.
pub(crate) fn place_scaled(
    table: &mut Shared,
    alloc: Global,
    id: u32,
    body: u32,
    known: Option<u128>,
) -> Result<u32, AllocError>
    requires { body < length table.old }
    ensures within { IfOk result (λ k. k < length table.new) }
    ensures extends { OnOk result (Extends table.old table.new) }
    ensures means { IfOk result (λ k. meaning_at table.new k ≡ scaled_of id (meaning_at table.old body) known (constant (meaning_at table.old body))) }
{
    let Some(by) = known else {
        return place(table, Node::Scaled { id, body });
    };
    match prefix_at(table, alloc, body, by)? {
        Some(costs) => place(table, Node::Const(costs)),
        None => place(table, Node::Scaled { id, body }),
    }
}
