ghost use Rattle.std.specs.Prelude.{◌≡◌, ℕ, ℤ, List, [], ◌∷◌, ◌++◌, ◌-◌, length, map, All, IfOk, OnOk, OnErr, ◌<◌};
ghost use Rattle.wsym_terms.specs.declared.bounds.Bound.{Bound as BoundValue};
ghost use Rattle.wsym_formula.specs.Keeping.{IsRooted};
ghost use Rattle.wsym_formula.specs.Tables.{AllBelow, Extends, IsBelow, IsClosed, meaning_at, meanings, opened};
ghost use Rattle.simplifier.specs.Normal.{normal};
ghost use Rattle.simplifier.specs.Simplified.{IsPlain, known_of, normal_node, picked};

use crate::folds::{place_once, place_power, place_scaled};
use crate::known::known_at;
use crate::placing::{place_alt, place_sum};
use sqlite_items::Items;
use std::alloc::{AllocError, Global};
use wsym_formula::{Node, Numbers, Shared, place};
use wsym_terms::Bound;

/// The new numbers of some members.
fn picked(alloc: Global, numbers: &[u32], members: &[u32]) -> Result<Numbers, AllocError>
    requires { AllBelow (length numbers.now) members.now }
    ensures { IfOk result (λ p. p ≡ picked numbers.now members.now) }
{
    let mut chosen = Numbers::new(alloc);
    for member in members {
        chosen.push(numbers[*member as usize])?;
    }
    Ok(chosen)
}

/// The normal form of a node, where `numbers` are those of the nodes before it.
#[tactic(auto, using(crate::proofs::Simplifying::picked_below, crate::proofs::Simplifying::picked_means, crate::proofs::Simplifying::number_below, crate::proofs::Simplifying::at_map))]
fn simplify_node(
    table: &mut Shared,
    alloc: Global,
    bounds: &[Bound],
    numbers: &[u32],
    node: &Node,
) -> Result<u32, AllocError>
    requires bounds { All (λ (b : BoundValue). All IsPlain b.atoms) bounds.now }
    requires below { IsBelow (length numbers.now) node.now }
    requires numbers { AllBelow (length table.old) numbers.now }
    ensures within { IfOk result (λ k. k < length table.new) }
    ensures extends { OnOk result (Extends table.old table.new) }
    ensures means { IfOk result (λ k. meaning_at table.new k ≡ normal_node (known_of bounds.now) (map (meaning_at table.old) numbers.now) node.now) }
{
    match node {
        Node::Const(costs) => place(table, Node::Const(costs.copy(alloc)?)),
        Node::Sum(members) => {
            let chosen = picked(alloc, numbers, members.as_slice())?;
            place_sum(table, alloc, chosen.as_slice())
        }
        Node::Alt(choices) => {
            let chosen = picked(alloc, numbers, choices.as_slice())?;
            place_alt(table, alloc, chosen.as_slice())
        }
        Node::Power { id, body } => {
            let at = numbers[*body as usize];
            place_power(table, alloc, *id, at, known_at(bounds, *id))
        }
        Node::Once(body) => place_once(table, alloc, numbers[*body as usize]),
        Node::Scaled { id, body } => {
            let at = numbers[*body as usize];
            place_scaled(table, alloc, *id, at, known_at(bounds, *id))
        }
    }
}

/// The numbers of the normal forms of all nodes, each made once.
fn simplify_all(
    table: &mut Shared,
    alloc: Global,
    bounds: &[Bound],
    nodes: &[Node],
) -> Result<Numbers, AllocError>
    requires bounds { All (λ (b : BoundValue). All IsPlain b.atoms) bounds.now }
    requires closed { IsClosed nodes.now }
    ensures below { IfOk result (AllBelow (length table.new)) }
    ensures means { IfOk result (λ numbers. map (meaning_at table.new) numbers ≡ map (normal (known_of bounds.now)) (meanings nodes.now)) }
{
    let mut numbers = Numbers::new(alloc);
    for node in nodes {
        let number = simplify_node(table, alloc, bounds, numbers.as_slice(), node)?;
        numbers.push(number)?;
    }
    Ok(numbers)
}

/// The table with the normal form of a formula, and the number of its root.
fn simplify_nodes(
    alloc: Global,
    formula: &Shared,
    bounds: &[Bound],
) -> Result<(Shared, u32), AllocError>
    requires node { 0 < length formula.now }
    requires bounds { All (λ (b : BoundValue). All IsPlain b.atoms) bounds.now }
    ensures within { IfOk result (λ s. s.1 < length s.0) }
    ensures exact { IfOk result (λ s. meaning_at s.0 s.1 ≡ normal (known_of bounds.now) (meaning_at formula.now (length formula.now - 1))) }
{
    let mut table = Shared::new(alloc);
    let mut numbers = simplify_all(&mut table, alloc, bounds, formula.as_slice())?;
    match numbers.pop() {
        Some(root) => Ok((table, root)),
        None => Err(AllocError),
    }
}

/// The normal form of a formula for the bounds of its loops, in the order of their numbers. The formula has a
/// node; each atom has a constant of a magnitude of at most 2^90 and a divisor of at least 1.
///
/// It is out of memory also where the constants of a sum have 2^63 counts or more together. A formula whose
/// constants have fewer counts never comes there.
pub fn simplify(alloc: Global, formula: Shared, bounds: &Items<Bound>) -> Result<Shared, AllocError>
    requires node { 0 < length formula }
    requires bounds { All (λ (b : BoundValue). All IsPlain b.atoms) bounds.now }
    ensures { IfOk result (λ s. IsRooted s (normal (known_of bounds.now) (meaning_at formula (length formula - 1)))) }
{
    let (table, root) = simplify_nodes(alloc, &formula, bounds.as_slice())?;
    table.keep(alloc, root)
}
