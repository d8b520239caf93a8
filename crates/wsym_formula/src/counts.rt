ghost use Rattle.std.specs.Prelude.{◌≡◌, ◌^◌, ◌<◌, min, length, true, false, IfOk};
ghost use Rattle.wsym_formula.specs.Tables.{AllBelow, IsBelow, meanings};
ghost use Rattle.wsym_formula.specs.Values.{AllFew};
ghost use Rattle.wsym_formula.specs.Counts.{counts_at, node_counts};

use crate::nodes::Node;
use crate::table::Shared;
use std::alloc::{AllocError, Global};

/// The most counts of a formula's constants, and one more.
const LIMIT: u64 = 1 << 63;

/// Whether the constants of each node's term, each as often as it stands there, have fewer than 2^63 counts
/// together. That is what `value` needs. Memory alone may be refused.
pub fn has_few_counts(alloc: Global, formula: &Shared) -> Result<bool, AllocError>
    ensures few { IfOk result (λ few. few ≡ true → AllFew (meanings formula.now)) }
    ensures many { IfOk result (λ few. few ≡ false → AllFew (meanings formula.now) → ⊥) }
{
    let mut counts = Vec::new(alloc);
    for node in formula.as_slice() {
        let count = count_of(counts.as_slice(), node);
        if count >= LIMIT {
            return Ok(false);
        }
        counts.push(count)?;
    }
    Ok(true)
}

/// The counts of a node, or 2^63 where there are more, by those of the nodes before it.
fn count_of(counts: &[u64], node: &Node) -> u64
    requires { IsBelow (length counts.now) node.now }
    ensures { result ≡ min (node_counts counts.now node.now) (2 ^ 63) }
{
    match node {
        Node::Const(costs) => costs.length().min(LIMIT),
        Node::Sum(members) => sum_counts(counts, members.as_slice()),
        Node::Alt(choices) => sum_counts(counts, choices.as_slice()),
        Node::Power { id: _, body } => counts[*body as usize].min(LIMIT),
        Node::Once(body) => counts[*body as usize].min(LIMIT),
        Node::Scaled { id: _, body } => counts[*body as usize].min(LIMIT),
    }
}

/// The counts of some members together, or 2^63 where there are more.
fn sum_counts(counts: &[u64], members: &[u32]) -> u64
    requires { AllBelow (length counts.now) members.now }
    ensures { result ≡ min (counts_at counts.now members.now) (2 ^ 63) }
{
    let mut total = 0;
    for member in members {
        let more = counts[*member as usize];
        if more >= LIMIT - total {
            return LIMIT;
        }
        total += more;
    }
    total
}
