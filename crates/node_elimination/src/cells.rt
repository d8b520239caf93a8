//! The numbers of the edges of a level.
ghost use Rattle.std.specs.Prelude.{◌≡◌, ◌+◌, ◌*◌, IfOk, Some};
ghost use Rattle.node_elimination.specs.Cells.{members_size, members_depth, passed, joined, one, leaves_in, size_in};

use std::alloc::AllocError;

/// Of an edge: how many ways it has, and the leaves, the size and the depth of what stands in them. Of a node:
/// the same of its tree, as of one way.
#[derive(Clone, Copy, Debug, PartialEq, Eq)]
pub struct Cell {
    pub count: u64,
    pub leaves: u64,
    pub size: u64,
    pub depth: u64,
}

/// A sum.
pub fn plus(a: u64, b: u64) -> Result<u64, AllocError>
    ensures { IfOk result (λ c. c ≡ a + b) }
{
    match a.checked_add(b) {
        Some(c) => Ok(c),
        None => Err(AllocError),
    }
}

/// A number with one part taken out and another put in.
pub fn moved(a: u64, less: u64, more: u64) -> Result<u64, AllocError>
    ensures { IfOk result (λ c. c + less ≡ a + more) }
{
    if less > a {
        return Err(AllocError);
    }
    plus(a - less, more)
}

/// The size of the members of an edge.
pub fn size_of_members(cell: Cell) -> Result<u64, AllocError>
    ensures { IfOk result (λ n. n ≡ members_size cell) }
{
    if cell.count <= 1 {
        Ok(cell.size)
    } else {
        plus(plus(1, cell.count)?, cell.size)
    }
}

/// The depth of the members of an edge.
pub fn depth_of_members(cell: Cell) -> Result<u64, AllocError>
    ensures { IfOk result (λ n. n ≡ members_depth cell) }
{
    if cell.count <= 1 {
        Ok(cell.depth)
    } else {
        plus(2, cell.depth)
    }
}

/// The way through a node.
pub fn pass(into: Cell, node: Cell, out: Cell) -> Result<Cell, AllocError>
    ensures { IfOk result (λ c. c ≡ passed into node out) }
{
    let leaves = plus(plus(into.leaves, node.leaves)?, out.leaves)?;
    let first = size_of_members(into)?;
    let last = size_of_members(out)?;
    let size = plus(plus(first, node.size)?, last)?;
    let before = depth_of_members(into)?;
    let onward = depth_of_members(out)?;
    let depth = before.max(node.depth.max(onward));
    Ok(Cell {
        count: 1,
        leaves,
        size,
        depth,
    })
}

/// One more way beside those of an edge.
pub fn join(cell: Option<Cell>, way: Cell) -> Result<Cell, AllocError>
    ensures { IfOk result (λ c. c ≡ joined cell way) }
{
    match cell {
        Some(old) => {
            let count = plus(old.count, way.count)?;
            let leaves = plus(old.leaves, way.leaves)?;
            let size = plus(old.size, way.size)?;
            let depth = old.depth.max(way.depth);
            Ok(Cell {
                count,
                leaves,
                size,
                depth,
            })
        }
        None => Ok(way),
    }
}

/// Whether an edge is there, as a number.
pub fn ones(cell: Option<Cell>) -> u64
    ensures { result ≡ one cell }
{
    match cell {
        Some(_) => 1,
        None => 0,
    }
}

/// Its leaves.
pub fn leaves(cell: Option<Cell>) -> u64
    ensures { result ≡ leaves_in cell }
{
    match cell {
        Some(c) => c.leaves,
        None => 0,
    }
}

/// What its ways count for the size.
pub fn sizes(cell: Option<Cell>) -> u64
    ensures { result ≡ size_in cell }
{
    match cell {
        Some(c) => c.size,
        None => 0,
    }
}
