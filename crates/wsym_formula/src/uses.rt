ghost use Rattle.std.specs.Prelude.{◌≡◌, ◌≢◌, ℕ, List, [], ◌∷◌, ◌++◌, length, IfOk, OnOk, OnErr, ◌<◌, true, false};
ghost use Rattle.wsym_formula.specs.Tables.{AllBelow, IsBelow, IsClosed};
ghost use Rattle.wsym_formula.specs.Reaching.{AreUsed, FlagsUsed, FlagsMembers, FlagsNode, IsFlagged};

use crate::nodes::Node;
use std::alloc::{AllocError, Global};

/// Flags a place.
#[tactic(auto, using(crate::proofs::Flagging::one_flagged))]
fn flag(used: &mut Vec<bool>, at: u32)
    requires { at < length used.old.items }
    ensures long { length used.new.items ≡ length used.old.items }
    ensures flags { FlagsMembers used.old.items used.new.items (at ∷ []) }
{
    used[at as usize] = true;
}

/// Flags some members.
fn flag_all(used: &mut Vec<bool>, members: &[u32])
    requires { AllBelow (length used.old.items) members.now }
    ensures long { length used.new.items ≡ length used.old.items }
    ensures flags { FlagsMembers used.old.items used.new.items members.now }
{
    for member in members {
        flag(used, *member);
    }
}

/// Flags the members of a node.
pub(crate) fn flag_members(used: &mut Vec<bool>, node: &Node)
    requires { IsBelow (length used.old.items) node.now }
    ensures long { length used.new.items ≡ length used.old.items }
    ensures flags { FlagsNode used.old.items used.new.items node.now }
{
    match node {
        Node::Const(_) => {}
        Node::Sum(members) => flag_all(used, members.as_slice()),
        Node::Alt(choices) => flag_all(used, choices.as_slice()),
        Node::Power { id: _, body } => flag(used, *body),
        Node::Once(body) => flag(used, *body),
        Node::Scaled { id: _, body } => flag(used, *body),
    }
}

/// Whether each node but one is seen to be a member of some node.
pub(crate) fn are_used(alloc: Global, nodes: &[Node], root: u32) -> Result<bool, AllocError>
    requires { IsClosed nodes.now }
    ensures { IfOk result (λ all. all ≡ true → AreUsed nodes.now root) }
{
    let mut used = Vec::new(alloc);
    used.resize(nodes.len(), false)?;
    flag_nodes(&mut used, nodes);
    Ok(all_flagged(used.as_slice(), root))
}

/// Flags the members of all nodes.
fn flag_nodes(used: &mut Vec<bool>, nodes: &[Node])
    requires closed { IsClosed nodes.now }
    requires long { length used.old.items ≡ length nodes.now }
    ensures long { length used.new.items ≡ length nodes.now }
    ensures flags { FlagsUsed used.old.items used.new.items nodes.now }
{
    for node in nodes {
        flag_members(used, node);
    }
}

/// Whether all places but one are flagged.
fn all_flagged(used: &[bool], root: u32) -> bool
    ensures { result ≡ true → (k : ℕ) → k < length used.now → k ≢ root → IsFlagged used.now k }
{
    for at in 0..used.len() {
        if at != root as usize && !used[at] {
            return false;
        }
    }
    true
}
