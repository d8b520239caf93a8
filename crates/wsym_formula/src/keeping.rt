ghost use Rattle.std.specs.Prelude.{◌≡◌, ◌≤◌, ℕ, List, [], ◌∷◌, ◌++◌, length, map, take, IfOk, OnOk, ◌<◌, Some, IfSome};
ghost use Rattle.wsym_formula.specs.Keeping.{IsRooted, AllKept, IsKept, IsRenumbered, all_there, numbers_at};
ghost use Rattle.wsym_formula.specs.Tables.{AllBelow, Extends, IsBelow, IsClosed, meaning_at, meanings, opened};
ghost use Rattle.wsym_formula.specs.declared.terms.Term.{Term as TermValue};
ghost use Rattle.wsym_formula.specs.declared.nodes.Node.{Node as NodeValue};

use crate::nodes::Node;
use crate::numbers::Numbers;
use crate::table::{Shared, place};
use crate::uses::{are_used, flag_members};
use sqlite_items::Items;
use std::alloc::{AllocError, Global};

/// The new numbers of some members, all of which are kept.
fn kept_members(
    alloc: Global,
    numbers: &[Option<u32>],
    members: &[u32],
) -> Result<Numbers, AllocError>
    requires { AllBelow (length numbers.now) members.now }
    ensures { IfOk result (λ chosen. all_there chosen ≡ numbers_at numbers.now members.now) }
{
    let mut chosen = Numbers::new(alloc);
    for member in members {
        match numbers[*member as usize] {
            Some(number) => chosen.push(number)?,
            None => return Err(AllocError),
        }
    }
    Ok(chosen)
}

/// A node with the new numbers of its members.
fn renumbered(alloc: Global, numbers: &[Option<u32>], node: &Node) -> Result<Node, AllocError>
    requires { IsBelow (length numbers.now) node.now }
    ensures { IfOk result (IsRenumbered numbers.now node.now) }
{
    match node {
        Node::Const(costs) => Ok(Node::Const(costs.copy(alloc)?)),
        Node::Sum(members) => Ok(Node::Sum(kept_members(alloc, numbers, members.as_slice())?)),
        Node::Alt(choices) => Ok(Node::Alt(kept_members(alloc, numbers, choices.as_slice())?)),
        Node::Power { id, body } => match numbers[*body as usize] {
            Some(number) => Ok(Node::Power {
                id: *id,
                body: number,
            }),
            None => Err(AllocError),
        },
        Node::Scaled { id, body } => match numbers[*body as usize] {
            Some(number) => Ok(Node::Scaled {
                id: *id,
                body: number,
            }),
            None => Err(AllocError),
        },
        Node::Once(body) => match numbers[*body as usize] {
            Some(number) => Ok(Node::Once(number)),
            None => Err(AllocError),
        },
    }
}

/// Puts the nodes that are marked into a table. Where a member isn't marked it is out of memory.
fn keep_marked(
    table: &mut Shared,
    alloc: Global,
    nodes: &[Node],
    marks: &[bool],
) -> Result<Items<Option<u32>>, AllocError>
    requires closed { IsClosed nodes.now }
    requires marks { length nodes.now ≤ length marks.now }
    ensures { IfOk result (λ numbers. AllKept table.new numbers (meanings nodes.now)) }
{
    let mut numbers = Items::new(alloc);
    for at in 0..nodes.len() {
        let number = keep_one(table, alloc, numbers.as_slice(), &nodes[at], marks[at])?;
        numbers.push(number)?;
    }
    Ok(numbers)
}

/// Puts a node into a table, where it is marked; `numbers` are those of the nodes before it.
fn keep_one(
    table: &mut Shared,
    alloc: Global,
    numbers: &[Option<u32>],
    node: &Node,
    mark: bool,
) -> Result<Option<u32>, AllocError>
    requires below { IsBelow (length numbers.now) node.now }
    requires kept { (terms : List TermValue) × AllKept table.old numbers.now terms }
    ensures extends { OnOk result (Extends table.old table.new) }
    ensures means { IfOk result (λ number. (terms : List TermValue) → AllKept table.old numbers.now terms → IsKept table.new number (opened terms node.now)) }
{
    if !mark {
        return Ok(None);
    }
    let made = renumbered(alloc, numbers, node)?;
    Ok(Some(place(table, made)?))
}

/// Marks the members of a marked node.
#[tactic(auto, using(crate::proofs::Flagging::used_below))]
fn mark_members(marks: &mut Vec<bool>, nodes: &[Node], at: usize)
    requires closed { IsClosed nodes.now }
    requires at { at < length nodes.now }
    requires long { length marks.old.items ≡ length nodes.now }
    ensures { length marks.new.items ≡ length nodes.now }
{
    if marks[at] {
        flag_members(marks, &nodes[at]);
    }
}

/// Marks the nodes that a node reaches.
fn marked(alloc: Global, nodes: &[Node], root: u32) -> Result<Vec<bool>, AllocError>
    requires closed { IsClosed nodes.now }
    requires root { root < length nodes.now }
    ensures { IfOk result (λ marks. length marks.items ≡ length nodes.now) }
{
    let mut marks = Vec::new(alloc);
    marks.resize(nodes.len(), false)?;
    marks[root as usize] = true;
    for done in 0..nodes.len() {
        mark_members(&mut marks, nodes, nodes.len() - 1 - done);
    }
    Ok(marks)
}

impl Shared {
    /// Just the nodes that the node with the number `root` reaches, in their order; `root` is the last. Memory
    /// alone may be refused, and then the table is dropped.
    pub fn keep(self, alloc: Global, root: u32) -> Result<Shared, AllocError>
        requires { root < length self }
        ensures { IfOk result (λ s. IsRooted s (meaning_at self root)) }
    {
        kept(alloc, &self, root)
    }
}

/// The nodes that a node reaches, as a table of which it is the last.
#[tactic(auto, using(crate::proofs::KeepingLaws::kept_root, crate::proofs::KeepingLaws::root_there))]
pub(crate) fn kept(alloc: Global, formula: &Shared, root: u32) -> Result<Shared, AllocError>
    requires { root < length formula.now }
    ensures { IfOk result (λ s. IsRooted s (meaning_at formula.now root)) }
{
    let marks = marked(alloc, formula.as_slice(), root)?;
    let mut table = Shared::new(alloc);
    let numbers = keep_marked(&mut table, alloc, formula.as_slice(), marks.as_slice())?;
    match numbers.as_slice()[root as usize] {
        Some(last) => {
            if are_used(alloc, table.as_slice(), last)? {
                Ok(table)
            } else {
                Err(AllocError)
            }
        }
        None => Err(AllocError),
    }
}
