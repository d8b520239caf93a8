//! The closing edges of a reduced graph.
ghost use Rattle.std.specs.Prelude.{◌≡◌, ℕ, ◌<◌, Bool, true, ◌==◌, ◌&&◌, not, OnOk, IfOk};
ghost use Rattle.graph_reduction.specs.Nodes.{number_in};
ghost use Rattle.graph_reduction.specs.Sets.{in_set};
ghost use Rattle.graph_reduction.specs.ClosingEdges.{closing_added, closings_added};

use crate::nodes::number_at;
use std::alloc::AllocError;
use std::collections::BTreeSet;

/// Adds an edge, as its header, its source and 0, where it closes.
fn add_closing(
    closing: &mut BTreeSet<(u32, u32, u32)>,
    into: &BTreeSet<(u32, u32, u32)>,
    target: u32,
    node: u32,
    block: u32,
) -> Result<(), AllocError>
    ensures { OnOk result ((h u z : ℕ) → in_set closing.new h u z ≡ closing_added target block
        (in_set into.now target node block) (in_set closing.old) h u z) }
{
    if into.contains(&(target, node, block)) {
        Ok(())
    } else {
        closing.insert((target, block, 0))?;
        Ok(())
    }
}

/// Adds the closing edges of a block, each as its header, its source and 0.
pub fn add_closings(
    closing: &mut BTreeSet<(u32, u32, u32)>,
    into: &BTreeSet<(u32, u32, u32)>,
    row: &[u32],
    node: u32,
    block: u32,
) -> Result<(), AllocError>
    ensures { OnOk result ((h u z : ℕ) → in_set closing.new h u z ≡ closings_added row.now
        (λ t. in_set into.now t node block) block (in_set closing.old) h u z) }
{
    for target in row {
        add_closing(closing, into, *target, node, block)?;
    }
    Ok(())
}
