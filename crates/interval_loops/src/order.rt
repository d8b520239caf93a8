//! The blocks in an order in which each edge that doesn't close leads onward.
ghost use Rattle.std.specs.Prelude.{◌≡◌, ℕ, ◌+◌, ◌<◌, ◌^◌, nat_lt, if◌then◌else◌, false, ◌&&◌, ◌==◌, Some, slice_get};
ghost use Rattle.std.specs.Prelude.{length, IfOk, OnOk};
ghost use Rattle.std.specs.BTreeSet as tree;
ghost use Rattle.graph_search.specs.Flows.{Flow, IsBounded};
ghost use Rattle.graph_reduction.specs.Nodes.{number_in, AreHeld};
ghost use Rattle.graph_reduction.specs.Sets.{in_set};
ghost use Rattle.interval_loops.specs.BlockOrders.{IsListing, ListsFree, Follows};

use graph_reduction::{first_node, number_at};
use graph_search::FlowGraph;
use std::alloc::{AllocError, Global};
use std::collections::BTreeSet;

/// Lists a block where no edge of the set leads to it.
fn list_free(
    into: &BTreeSet<(u32, u32, u32)>,
    order: &mut Vec<u32>,
    block: u32,
) -> Result<(), AllocError>
    ensures { OnOk result (ListsFree into.now block order.old.items order.new.items) }
{
    match first_node(into, block) {
        Some(_) => Ok(()),
        None => {
            order.push(block)?;
            Ok(())
        }
    }
}

/// Takes an edge out, and lists its target where it was the last edge to it.
fn take_out(
    into: &mut BTreeSet<(u32, u32, u32)>,
    order: &mut Vec<u32>,
    target: u32,
    node: u32,
    block: u32,
) -> Result<(), AllocError>
    ensures less { OnOk result ((x n w : ℕ) → in_set into.new x n w ≡
        (if (x == target) && (n == node) && (w == block) then false else in_set into.old x n w)) }
    ensures order { OnOk result (Follows (in_set into.old target node block) into.new target order.old.items
        order.new.items) }
{
    if into.remove(&(target, node, block)) {
        list_free(into, order, target)?;
    }
    Ok(())
}

/// Takes the edges of a block out, whose targets are listed where nothing else leads to them.
fn take_row(
    into: &mut BTreeSet<(u32, u32, u32)>,
    order: &mut Vec<u32>,
    row: &[u32],
    node: u32,
    block: u32,
) -> Result<(), AllocError>
    ensures { OnOk result ((flow : Flow) (label : ℕ → ℕ) (first : tree.BTreeSet (ℕ × ℕ × ℕ)) (at : ℕ) → IsBounded flow
        → AreHeld flow label first → ((u : ℕ) → u < flow.count → label u < flow.count) → node ≡ label block → row.now
        ≡ flow.next block
        → slice_get order.old.items at ≡ Some (block) → IsListing
        (λ t. nat_lt t flow.count) flow label first into.old at at order.old.items → IsListing
        (λ t. nat_lt t flow.count) flow label first into.new (at + 1) (at + 1) order.new.items) }
{
    for target in row {
        take_out(into, order, *target, node, block)?;
    }
    Ok(())
}

/// The blocks to which no edge leads.
fn free_blocks<G: FlowGraph>(
    alloc: Global,
    graph: &G,
    into: &BTreeSet<(u32, u32, u32)>,
) -> Result<Vec<u32>, AllocError>
    ensures { IfOk result (λ v. (label : ℕ → ℕ) → IsBounded (G.flow graph.now) → AreHeld
        (G.flow graph.now) label into.now → ((u : ℕ) → u < (G.flow graph.now).count → label u <
        (G.flow graph.now).count) → IsListing (λ t. nat_lt t (G.flow graph.now).count)
        (G.flow graph.now) label into.now into.now 0 0 v.items) }
{
    let mut order = Vec::new(alloc);
    for block in 0..graph.count() {
        list_free(into, &mut order, block)?;
    }
    Ok(order)
}

/// The block at a place of the list.
pub fn listed_at(order: &[u32], at: usize) -> u32
    requires { at < length order.now }
    ensures { slice_get order.now at ≡ Some (result) }
{
    order[at]
}

/// The blocks one after another, each once every edge to it comes from a listed one; those in open cycles and after
/// them are left out.
pub fn order_of<G: FlowGraph>(
    alloc: Global,
    graph: &G,
    label: &[u32],
    into: &mut BTreeSet<(u32, u32, u32)>,
) -> Result<Vec<u32>, AllocError>
    requires bounded { IsBounded (G.flow graph.now) }
    requires held { AreHeld (G.flow graph.now) (number_in label.now) into.old }
    requires labels { (u : ℕ) → u < (G.flow graph.now).count → number_in label.now u < (G.flow graph.now).count }
    ensures { IfOk result (λ v. IsListing (λ t. nat_lt t (G.flow graph.now).count) (G.flow graph.now)
        (number_in label.now) into.old into.new (length v.items) (length v.items) v.items) }
{
    let mut order = free_blocks(alloc, graph, into)?;
    let mut at = 0;
    while at < order.len() {
        let block = listed_at(order.as_slice(), at);
        take_row(
            into,
            &mut order,
            graph.row(block),
            number_at(label, block),
            block,
        )?;
        at += 1;
    }
    Ok(order)
}
