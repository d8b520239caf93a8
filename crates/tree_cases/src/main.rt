//! Levels whose nodes are all taken out: each line of the input has a graph without loops, each line of the output the
//! size and the nesting of the trees that are left between its start and its end, and the order in which its blocks are
//! taken out; or that they are too large. Lines that begin with `tree` have a graph with loops, and get its tree.
//!
//! `NAME SIZE COUNT EDGE..`: the leaf of each block has the size, an edge is `FROM>TO`. Blocks are 0 to `COUNT` - 1;
//! `COUNT` is the start and `COUNT` + 1 the end.
//!
//! `tree NAME COUNT ENTRY RETURNS EDGE..`: blocks are 0 to `COUNT` - 1, control enters at `ENTRY` and leaves from the
//! blocks of `RETURNS`, between which there are commas. Each leaf has the base 1.
#![tactic(auto)]

mod graphs;

use graphs::tree_text;
use node_elimination::{Cell, LevelPlan, TreeRefusal, eliminate};
use std::alloc::{AllocError, Global};

/// The number that a word spells, or 0.
pub(crate) fn number(word: Option<&str>) -> u32 {
    word.map_or(0, |word| word.parse::<u32>().unwrap_or(0))
}

/// The edges of a line.
fn edges_of(alloc: Global, words: &str) -> Result<Vec<(u32, u32)>, AllocError> {
    let mut edges = Vec::new(alloc);
    for word in words.split(' ') {
        if let Some((from, to)) = word.split_once('>') {
            edges.push((number(Some(from)), number(Some(to))))?;
        }
    }
    Ok(edges)
}

/// The numbers of leaves of a size, with places for the start and the end.
fn leaves(alloc: Global, size: u64, count: u32) -> Result<Vec<Cell>, AllocError> {
    let mut cells = Vec::new(alloc);
    for _block in 0..count.saturating_add(2) {
        cells.push(Cell {
            count: 1,
            leaves: 1,
            size,
            depth: 1,
        })?;
    }
    Ok(cells)
}

/// The blocks in ascending order.
fn blocks(alloc: Global, count: u32) -> Result<Vec<u32>, AllocError> {
    let mut numbers = Vec::new(alloc);
    for block in 0..count {
        numbers.push(block)?;
    }
    Ok(numbers)
}

/// The plan of the level between the start and the end.
fn plan_of(alloc: Global, size: u64, count: u32, edges: &str) -> Result<LevelPlan, TreeRefusal> {
    let Ok(edges) = edges_of(alloc, edges) else {
        return Err(TreeRefusal::Memory);
    };
    let Ok(cells) = leaves(alloc, size, count) else {
        return Err(TreeRefusal::Memory);
    };
    let Ok(numbers) = blocks(alloc, count) else {
        return Err(TreeRefusal::Memory);
    };
    let end = count.saturating_add(1);
    eliminate(
        alloc,
        cells,
        edges.as_slice(),
        numbers.as_slice(),
        count,
        end,
    )
}

/// What stands of a plan in the output.
fn plan_text(alloc: Global, plan: &LevelPlan) -> anyhow::Result<String> {
    let mut text = String::new(alloc);
    let size = plan.measures.size;
    let nesting = plan.measures.depth;
    write!(text, " size {size} nesting {nesting} order")?;
    for block in plan.plan.order.as_slice() {
        write!(text, " {block}")?;
    }
    Ok(text)
}

/// The line of the output for a graph with loops.
fn tree_answer(alloc: Global, line: &str) -> anyhow::Result<String> {
    let mut words = line.splitn(5, ' ');
    let name = words.next().unwrap_or("");
    let count = number(words.next());
    let entry = number(words.next());
    let returns = words.next().unwrap_or("");
    let edges = words.next().unwrap_or("");
    let text = tree_text(alloc, count, entry, returns, edges)?;
    Ok(format!(in alloc; "{name}: {text}")?)
}

/// The line of the output for a line of the input.
fn answer(alloc: Global, line: &str) -> anyhow::Result<String> {
    if let Some(graph) = line.strip_prefix("tree ") {
        return tree_answer(alloc, graph);
    }
    let mut words = line.splitn(4, ' ');
    let name = words.next().unwrap_or("");
    let size = u64::from(number(words.next()));
    let count = number(words.next());
    let edges = words.next().unwrap_or("");
    match plan_of(alloc, size, count, edges) {
        Ok(plan) => {
            let text = plan_text(alloc, &plan)?;
            Ok(format!(in alloc; "{name}:{text}")?)
        }
        Err(TreeRefusal::TooLarge) => Ok(format!(in alloc; "{name}: too large")?),
        Err(TreeRefusal::Memory) => Ok(format!(in alloc; "{name}: memory")?),
    }
}

fn main(rt: HostRuntime) -> anyhow::Result<()> {
    for line in rt.lines(rt.alloc()) {
        let line = line?;
        let given = answer(rt.alloc(), line.as_str())?;
        println!(rt; "{given}")?;
    }
    Ok(())
}
