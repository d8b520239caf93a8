//! The uses of the blocks of small functions: each line of the input has a function, each line of the output what stands
//! of its blocks in their leaves.
//!
//! `NAME SETS WAYS MISS BLOCK.. EDGE..`: a block is the lines of its points, `LINE,LINE,..`, an edge is `FROM>TO`, by
//! the numbers of the blocks; the entry is block 0. A word `LINE*COUNT` is a block of a number of points, one line after
//! the other from the first, four points each. Each point costs one cycle.
#![tactic(auto)]

use graph_search::{SuccessorRows, add_to_row, empty_rows, is_bounded};
use interval_loops::{LoopNest, loops};
use line_uses::{PointTables, uses};
use sqlite_items::Items;
use std::alloc::{AllocError, Global};
use wsym_terms::BlockUses;

/// The number that a word spells, or 0.
fn number(word: &str) -> u32 {
    word.parse::<u32>().unwrap_or(0)
}

/// A function by its blocks: the points of each, and by point its line and its block.
#[derive(Drop)]
struct Points {
    blocks: Vec<Items<u32>>,
    lines: Vec<u32>,
    home: Vec<u32>,
}

/// Adds a point of a line to a block.
fn add_point(points: &mut Points, block: &mut Items<u32>, line: u32) -> Result<(), AllocError> {
    if let (Ok(point), Ok(home)) = (
        u32::try_from(points.lines.len()),
        u32::try_from(points.blocks.len()),
    ) {
        block.push(point)?;
        points.lines.push(line)?;
        points.home.push(home)?;
    }
    Ok(())
}

/// The block of a word.
fn add_block(alloc: Global, points: &mut Points, word: &str) -> Result<(), AllocError> {
    let mut block = Items::new(alloc);
    match word.split_once('*') {
        Some((first, count)) => {
            let first = number(first);
            for at in 0..number(count) {
                add_point(points, &mut block, first.wrapping_add(at / 4))?;
            }
        }
        None => {
            for line in word.split(',') {
                add_point(points, &mut block, number(line))?;
            }
        }
    }
    points.blocks.push(block)?;
    Ok(())
}

/// The blocks of some words.
fn points_of(alloc: Global, words: &str) -> Result<Points, AllocError> {
    let mut points = Points {
        blocks: Vec::new(alloc),
        lines: Vec::new(alloc),
        home: Vec::new(alloc),
    };
    for word in words.split(' ') {
        if word.split_once('>').is_none() {
            add_block(alloc, &mut points, word)?;
        }
    }
    Ok(points)
}

/// The edges of some words, by block.
fn edges_of(alloc: Global, count: u32, words: &str) -> Result<Vec<Items<u32>>, AllocError> {
    let mut rows = empty_rows(alloc, count)?;
    for word in words.split(' ') {
        if let Some((from, to)) = word.split_once('>') {
            let from = number(from);
            if (from as usize) < rows.len() {
                add_to_row(&mut rows, from, number(to))?;
            }
        }
    }
    Ok(rows)
}

/// Adds an edge between points to both tables.
fn add_edge(
    next: &mut Vec<Items<u32>>,
    before: &mut Vec<Items<u32>>,
    from: u32,
    to: u32,
) -> Result<(), AllocError> {
    if (from as usize) < next.len() && (to as usize) < before.len() {
        add_to_row(next, from, to)?;
        add_to_row(before, to, from)?;
    }
    Ok(())
}

/// Adds the edges of a block's points to both tables: along the block, and from its last point to the first ones of the
/// blocks that follow.
fn add_edges(
    next: &mut Vec<Items<u32>>,
    before: &mut Vec<Items<u32>>,
    blocks: &[Items<u32>],
    block: &[u32],
    targets: &[u32],
) -> Result<(), AllocError> {
    let mut last = None;
    for point in block {
        if let Some(from) = last {
            add_edge(next, before, from, *point)?;
        }
        last = Some(*point);
    }
    for target in targets {
        if let (Some(from), Some(row)) = (last, blocks.get(*target as usize)) {
            if let Some(first) = row.as_slice().first() {
                add_edge(next, before, from, *first)?;
            }
        }
    }
    Ok(())
}

/// What stands of a block in its leaf.
fn leaf_text(text: &mut String, at: usize, block: &BlockUses) -> anyhow::Result<()> {
    write!(text, " (leaf {at} {}", block.base)?;
    for one in block.uses.as_slice() {
        write!(text, " {}@{}", one.line, one.scope)?;
    }
    write!(text, ")")?;
    Ok(())
}

/// The sum of the bases and the number of uses of some blocks.
fn sums_text(text: &mut String, blocks: &[BlockUses]) -> anyhow::Result<()> {
    let mut base = 0u128;
    let mut count = 0usize;
    for block in blocks {
        base = base.wrapping_add(block.base);
        count = count.wrapping_add(block.uses.len());
    }
    write!(text, " base {base} uses {count}")?;
    Ok(())
}

/// The leaves of a function; of one with more than sixteen blocks the sums alone.
fn leaves_text(alloc: Global, blocks: &[BlockUses]) -> anyhow::Result<String> {
    let mut text = String::new(alloc);
    if blocks.len() > 16 {
        sums_text(&mut text, blocks)?;
    } else {
        for at in 0..blocks.len() {
            leaf_text(&mut text, at, &blocks[at])?;
        }
    }
    Ok(text)
}

/// The edges between points, both ways.
#[derive(Drop)]
struct PointEdges {
    next: Vec<Items<u32>>,
    before: Vec<Items<u32>>,
}

/// The edges between the points of a function.
fn point_edges(
    alloc: Global,
    count: u32,
    blocks: &[Items<u32>],
    edges: &[Items<u32>],
) -> Result<PointEdges, AllocError> {
    let mut next = empty_rows(alloc, count)?;
    let mut before = empty_rows(alloc, count)?;
    for at in 0..blocks.len() {
        if let Some(row) = edges.get(at) {
            add_edges(
                &mut next,
                &mut before,
                blocks,
                blocks[at].as_slice(),
                row.as_slice(),
            )?;
        }
    }
    Ok(PointEdges { next, before })
}

/// The loops of the blocks, where they have a nest.
fn nest_of(alloc: Global, rows: Items<Items<u32>>) -> Option<LoopNest> {
    if rows.len() >= 1 << 32 {
        return None;
    }
    let graph = SuccessorRows::new(rows, 0, Items::new(alloc));
    if !is_bounded(&graph) {
        return None;
    }
    match loops(alloc, &graph) {
        Ok(nest) => Some(nest),
        Err(_) => None,
    }
}

/// A cache: its sets, its ways, and what a miss costs.
#[derive(Clone, Copy)]
struct Cache {
    sets: u32,
    ways: usize,
    miss: u64,
}

/// The leaves of a function by its tables.
fn found_text(
    alloc: Global,
    cache: Cache,
    points: &Points,
    edges: &PointEdges,
    nest: &LoopNest,
) -> anyhow::Result<String> {
    if cache.sets == 0 || cache.ways == 0 || points.home.len() >= 1 << 32 {
        return Ok(format!(in alloc; " no cache")?);
    }
    let costs = std::vec![in alloc; 1u64; points.home.len()]?;
    let tables = PointTables::new(
        edges.next.as_slice(),
        edges.before.as_slice(),
        points.lines.as_slice(),
        points.home.as_slice(),
        nest.around.as_slice(),
    );
    let blocks = points.blocks.as_slice();
    let found = uses(
        alloc,
        &tables,
        blocks,
        costs.as_slice(),
        cache.sets,
        cache.ways,
        cache.miss,
    )?;
    leaves_text(alloc, found.blocks.as_slice())
}

/// What `uses` gives.
fn uses_text(alloc: Global, cache: Cache, words: &str) -> anyhow::Result<String> {
    let points = points_of(alloc, words)?;
    let (Ok(count), Ok(size)) = (
        u32::try_from(points.lines.len()),
        u32::try_from(points.blocks.len()),
    ) else {
        return Ok(format!(in alloc; " too large")?);
    };
    let rows = edges_of(alloc, size, words)?;
    let edges = point_edges(alloc, count, points.blocks.as_slice(), rows.as_slice())?;
    match nest_of(alloc, Items::from_vec(rows)) {
        Some(nest) => found_text(alloc, cache, &points, &edges, &nest),
        None => Ok(format!(in alloc; " no nest")?),
    }
}

/// The line of the output for a line of the input.
fn answer(alloc: Global, line: &str) -> anyhow::Result<String> {
    let mut words = line.splitn(5, ' ');
    let name = words.next().unwrap_or("");
    let cache = Cache {
        sets: number(words.next().unwrap_or("")),
        ways: number(words.next().unwrap_or("")) as usize,
        miss: number(words.next().unwrap_or("")) as u64,
    };
    let given = uses_text(alloc, cache, words.next().unwrap_or(""))?;
    Ok(format!(in alloc; "{name}:{given}")?)
}

fn main(rt: HostRuntime) -> anyhow::Result<()> {
    for line in rt.lines(rt.alloc()) {
        let line = line?;
        let given = answer(rt.alloc(), line.as_str())?;
        println!(rt; "{given}")?;
    }
    Ok(())
}
