//! What of a function's levels is given as tables, and what of its nest is looked up.
ghost use Rattle.std.specs.Prelude.{◌≡◌};
ghost use Rattle.interval_loops.specs.Nests.{inner_of, parent_of as parent_in};
ghost use Rattle.flow_tree.specs.FlowTables.{child_by, header_by};

use interval_loops::LoopNest;
use node_elimination::Cell;
use sqlite_items::Items;
use wsym_terms::{BlockUses, Tree};

/// What of a level lies on paths from its header to one of its ends: the nodes, ascending, and the edges.
#[derive(Drop)]
pub struct PathRows {
    pub nodes: Items<u32>,
    pub edges: Items<(u32, u32)>,
}

/// A level: what lies on paths to the end where its turns close, and to the end where it is left.
#[derive(Drop)]
pub struct LevelRows {
    pub turns: PathRows,
    pub leaves: PathRows,
}

/// The tree of a loop, with its numbers.
#[derive(Drop)]
pub struct LoopTree {
    pub tree: Tree,
    pub cell: Cell,
}

/// The header of a loop; the number of blocks for the whole function and for a number of no loop.
pub fn header_of(nest: &LoopNest, count: u32, number: u32) -> u32
    ensures { result ≡ header_by count nest.now number }
{
    if number == 0 {
        return count;
    }
    match nest.loops.get((number - 1) as usize) {
        Some(info) => info.header,
        None => count,
    }
}

/// The number of the loop in which a loop lies.
pub fn parent_of(nest: &LoopNest, number: u32) -> u32
    ensures { result ≡ parent_in nest.now number }
{
    if number == 0 {
        return 0;
    }
    match nest.loops.get((number - 1) as usize) {
        Some(info) => info.parent,
        None => 0,
    }
}

/// The innermost loop round a block.
pub fn innermost(nest: &LoopNest, block: u32) -> u32
    ensures { result ≡ inner_of nest.now block }
{
    match nest.innermost.as_slice().get(block as usize) {
        Some(number) => *number,
        None => 0,
    }
}

/// The loop for which a node of a level stands.
pub fn child_of(nest: &LoopNest, count: u32, level: u32, node: u32) -> Option<u32>
    ensures { result ≡ child_by count nest.now level node }
{
    let inner = innermost(nest, node);
    if inner == 0 {
        return None;
    }
    if parent_of(nest, inner) == level {
        if header_of(nest, count, inner) == node {
            return Some(inner);
        }
        return None;
    }
    None
}

/// A function's levels as tables: the nest of its loops, the rows of each level by the loop's number, where 0 is the
/// whole function, what stands of each block in its leaf, the number of blocks, and the numbers of the two ends.
#[derive(Clone, Copy)]
pub struct FlowTables<'a> {
    pub nest: &'a LoopNest,
    pub levels: &'a [LevelRows],
    pub blocks: &'a [BlockUses],
    pub count: u32,
    pub close: u32,
    pub leave: u32,
}
