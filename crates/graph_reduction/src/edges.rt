//! The edges that don't close, each by its target, the number of its source's node, and its source.
ghost use Rattle.std.specs.Prelude.{◌≡◌, ◌≢◌, ℕ, ◌<◌, ◌≤◌, ◌^◌, true, false, IfSome, IfNone, OnOk, option_map};
ghost use Rattle.std.specs.BTreeSet as tree;
ghost use Rattle.graph_search.specs.Flows.{Flow};
ghost use Rattle.graph_reduction.specs.Labels.{Labelled};
ghost use Rattle.graph_reduction.specs.Reduction.{State, giver_of};
ghost use Rattle.graph_reduction.specs.Sets.{edge_cmp, HoldsOpen, in_set, one_moved, row_moved};

use std::alloc::AllocError;
use std::collections::BTreeSet;

/// The least node from which an edge leads to a target.
pub fn first_node(into: &BTreeSet<(u32, u32, u32)>, target: u32) -> Option<u32>
    ensures some { IfSome result (λ n. (u : ℕ) × (tree.contains edge_cmp into.now (target, n, u) ≡ true)) }
    ensures least { IfSome result (λ n. (m u : ℕ) → m < 2 ^ 32 → u < 2 ^ 32 → tree.contains edge_cmp into.now
        (target, m, u) ≡ true → n ≤ m) }
    ensures none { IfNone result ((m u : ℕ) → m < 2 ^ 32 → u < 2 ^ 32 → tree.contains edge_cmp into.now (target, m, u)
        ≡ false) }
{
    match into
        .range((target, 0, 0)..=(target, u32::MAX, u32::MAX))
        .next()
    {
        Some(edge) => Some(edge.1),
        None => None,
    }
}

/// The greatest node from which an edge leads to a target.
pub fn last_node(into: &BTreeSet<(u32, u32, u32)>, target: u32) -> Option<u32>
    ensures some { IfSome result (λ n. (u : ℕ) × (tree.contains edge_cmp into.now (target, n, u) ≡ true)) }
    ensures greatest { IfSome result (λ n. (m u : ℕ) → m < 2 ^ 32 → u < 2 ^ 32 → tree.contains edge_cmp into.now
        (target, m, u) ≡ true → m ≤ n) }
    ensures none { IfNone result ((m u : ℕ) → m < 2 ^ 32 → u < 2 ^ 32 → tree.contains edge_cmp into.now (target, m, u)
        ≡ false) }
{
    match into
        .range((target, 0, 0)..=(target, u32::MAX, u32::MAX))
        .next_back()
    {
        Some(edge) => Some(edge.1),
        None => None,
    }
}

/// The one other node from which edges lead to a head, whose own node has this number.
pub fn giver(into: &BTreeSet<(u32, u32, u32)>, target: u32, own: u32) -> Option<u32>
    ensures { (flow : Flow) (s : State) (label owner : ℕ → ℕ) → Labelled s label owner → HoldsOpen flow s label into.now
        → s.head target ≡ target → label target ≡ own → option_map owner result ≡ giver_of flow s target }
{
    match first_node(into, target) {
        Some(first) => match last_node(into, target) {
            Some(last) => {
                if first != last {
                    None
                } else if first == own {
                    None
                } else {
                    Some(first)
                }
            }
            None => None,
        },
        None => None,
    }
}

/// Gives an edge the number of another node, where it is there.
pub fn move_edge(
    into: &mut BTreeSet<(u32, u32, u32)>,
    target: u32,
    source: u32,
    from: u32,
    to: u32,
) -> Result<(), AllocError>
    requires { from ≢ to }
    ensures { OnOk result ((x n w : ℕ) → in_set into.new x n w ≡ one_moved target source from to
        (in_set into.old) x n w) }
{
    if into.remove(&(target, from, source)) {
        into.insert((target, to, source))?;
    }
    Ok(())
}

/// Gives each edge from a source to a target of the row the number of another node.
pub fn move_row(
    into: &mut BTreeSet<(u32, u32, u32)>,
    row: &[u32],
    source: u32,
    from: u32,
    to: u32,
) -> Result<(), AllocError>
    requires apart { from ≢ to }
    requires only { (y n : ℕ) → n ≢ from → in_set into.old y n source ≡ false }
    ensures { OnOk result ((x n w : ℕ) → in_set into.new x n w ≡ row_moved row.now source from to
        (in_set into.old) x n w) }
{
    for target in row {
        move_edge(into, *target, source, from, to)?;
    }
    Ok(())
}
