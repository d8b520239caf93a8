//! Uses of cache lines: `uses straight POINTS WAYS TIMES` finds the uses of one block of points, four to a line, in a
//! cache of 64 sets; `copies` has its points in POINTS / 10 blocks, one after the other, and each fourth of them has the
//! lines of the first, as a function has that is called from several places; `nests` has such blocks, each of lines of
//! its own, in loops of two blocks each. The result is the number of uses that have a scope.

use crate::words::{number, small_number, word};
use anyhow::bail;
use graph_search::{SuccessorRows, add_to_row, empty_rows, is_bounded};
use interval_loops::{LoopNest, loops};
use line_uses::{PointTables, uses};
use sqlite_items::Items;
use std::alloc::{AllocError, Global};

/// The points of a block of a function of more than one block.
const BLOCK: u32 = 10;

/// The sets of the cache.
const SETS: u32 = 64;

/// A function by its blocks and by its points.
#[derive(Drop)]
struct Function {
    blocks: Vec<Items<u32>>,
    edges: Vec<Items<u32>>,
    next: Vec<Items<u32>>,
    before: Vec<Items<u32>>,
    lines: Vec<u32>,
    home: Vec<u32>,
}

/// Adds an edge to a table, where it has a row for the place.
fn add(rows: &mut Vec<Items<u32>>, from: u32, to: u32) -> Result<(), AllocError> {
    if (from as usize) < rows.len() {
        add_to_row(rows, from, to)?;
    }
    Ok(())
}

/// An edge from a point to a point.
fn link(function: &mut Function, from: u32, to: u32) -> Result<(), AllocError> {
    add(&mut function.next, from, to)?;
    add(&mut function.before, to, from)
}

/// The points of a block, and their edges.
fn add_block(
    alloc: Global,
    function: &mut Function,
    block: u32,
    first: u32,
    count: u32,
    is_copy: bool,
) -> Result<(), AllocError> {
    let mut points = Items::new(alloc);
    for at in 0..count {
        let point = first.saturating_add(at);
        points.push(point)?;
        let place = if is_copy { at } else { point };
        function.lines.push(place / 4)?;
        function.home.push(block)?;
        if at > 0 {
            link(function, point.saturating_sub(1), point)?;
        }
    }
    function.blocks.push(points)?;
    Ok(())
}

/// An edge from the last point of a block to the first of another.
fn follow(function: &mut Function, from: u32, to: u32) -> Result<(), AllocError> {
    add(&mut function.edges, from, to)?;
    let last = from.saturating_mul(BLOCK).saturating_add(BLOCK - 1);
    link(function, last, to.saturating_mul(BLOCK))
}

/// A function of a shape.
fn function_of(alloc: Global, shape: &str, points: u32) -> Result<Function, AllocError> {
    let count = if shape == "straight" {
        1
    } else {
        points / BLOCK
    };
    let mut function = Function {
        blocks: Vec::new(alloc),
        edges: empty_rows(alloc, count)?,
        next: empty_rows(alloc, points)?,
        before: empty_rows(alloc, points)?,
        lines: Vec::new(alloc),
        home: Vec::new(alloc),
    };
    if shape == "straight" {
        add_block(alloc, &mut function, 0, 0, points, false)?;
        return Ok(function);
    }
    for block in 0..count {
        let is_copy = shape == "copies" && block % 4 == 3;
        add_block(
            alloc,
            &mut function,
            block,
            block.saturating_mul(BLOCK),
            BLOCK,
            is_copy,
        )?;
    }
    for block in 1..count {
        follow(&mut function, block.saturating_sub(1), block)?;
        if shape == "nests" && block % 2 == 1 {
            follow(&mut function, block, block.saturating_sub(1))?;
        }
    }
    Ok(function)
}

/// The loops of the function.
fn nest_of(alloc: Global, edges: Vec<Items<u32>>) -> anyhow::Result<LoopNest> {
    if edges.len() >= 1 << 32 {
        bail!("too many blocks");
    }
    let graph = SuccessorRows::new(Items::from_vec(edges), 0, Items::new(alloc));
    if !is_bounded(&graph) {
        bail!("no block");
    }
    match loops(alloc, &graph) {
        Ok(nest) => Ok(nest),
        Err(_) => bail!("no loops"),
    }
}

/// The number of uses with a scope that the last of the searches finds.
pub(crate) fn done(alloc: Global, words: &[String]) -> anyhow::Result<String> {
    let ways = small_number(words, 3)?;
    let times = number(words, 4)?;
    let Function {
        blocks,
        edges,
        next,
        before,
        lines,
        home,
    } = function_of(alloc, word(words, 1), small_number(words, 2)?)?;
    let nest = nest_of(alloc, edges)?;
    let costs = std::vec![in alloc; 1u64; home.len()]?;
    if ways == 0 || home.len() >= 1 << 32 {
        bail!("no cache, or too many points");
    }
    let tables = PointTables::new(
        next.as_slice(),
        before.as_slice(),
        lines.as_slice(),
        home.as_slice(),
        nest.around.as_slice(),
    );
    let mut count: u64 = 0;
    for _ in 0..times {
        let found = uses(
            alloc,
            &tables,
            blocks.as_slice(),
            costs.as_slice(),
            SETS,
            ways as usize,
            10,
        )?;
        count = 0;
        for block in found.blocks.as_slice() {
            count = count.wrapping_add(block.uses.len() as u64);
        }
    }
    Ok(format!(in alloc; "{count}")?)
}
