//! Searches and loops of small graphs: each line of the input names a call and a graph, each line of the output what the
//! call gave.
//!
//! `loops NAME COUNT EDGE..` and `reach NAME COUNT START MOST EDGE..` have edges `FROM>TO`; the entry is node 0.
#![tactic(auto)]

use graph_search::{
    RowLinks, SearchRefusal, SuccessorRows, add_to_row, empty_rows, is_bounded, reach,
};
use interval_loops::{LoopNest, LoopRefusal, loops};
use sqlite_items::Items;
use std::alloc::{AllocError, Global};

/// The number that a word spells, or 0.
fn number(word: Option<&str>) -> u32 {
    word.map_or(0, |word| word.parse::<u32>().unwrap_or(0))
}

/// The successors of each node, by the edges of a line; an edge from a number that is no node is left out.
fn rows_of(alloc: Global, count: u32, edges: &str) -> Result<Vec<Items<u32>>, AllocError> {
    let mut rows = empty_rows(alloc, count)?;
    for edge in edges.split(' ') {
        if let Some((from, to)) = edge.split_once('>') {
            let from = number(Some(from));
            if (from as usize) < rows.len() {
                add_to_row(&mut rows, from, number(Some(to)))?;
            }
        }
    }
    Ok(rows)
}

/// The loops of a nest, and the loops round each block.
fn nest_text(alloc: Global, nest: &LoopNest) -> anyhow::Result<String> {
    let mut text = String::new(alloc);
    for info in nest.loops.as_slice() {
        write!(
            text,
            " loop {} in {} depth {} from",
            info.header, info.parent, info.depth
        )?;
        for source in info.closing.as_slice() {
            write!(text, " {source}")?;
        }
        write!(text, ";")?;
    }
    for row in nest.around.as_slice() {
        write!(text, " (")?;
        for number in row.as_slice() {
            write!(text, " {number}")?;
        }
        write!(text, " )")?;
    }
    Ok(text)
}

/// What `loops` gives.
fn loops_text(alloc: Global, count: u32, edges: &str) -> anyhow::Result<String> {
    let rows = Items::from_vec(rows_of(alloc, count, edges)?);
    if rows.len() >= 1 << 32 {
        return Ok(format!(in alloc; " too many nodes")?);
    }
    let graph = SuccessorRows::new(rows, 0, Items::new(alloc));
    if !is_bounded(&graph) {
        return Ok(format!(in alloc; " an edge to no node")?);
    }
    match loops(alloc, &graph) {
        Ok(nest) => nest_text(alloc, &nest),
        Err(LoopRefusal::Irreducible) => Ok(format!(in alloc; " irreducible")?),
        Err(LoopRefusal::TooDeep) => Ok(format!(in alloc; " too deep")?),
        Err(LoopRefusal::Memory) => Ok(format!(in alloc; " memory")?),
    }
}

/// What `reach` gives.
fn reach_text(
    alloc: Global,
    count: u32,
    start: u32,
    most: usize,
    edges: &str,
) -> anyhow::Result<String> {
    let rows = rows_of(alloc, count, edges)?;
    let mut text = String::new(alloc);
    if most == 0 {
        write!(text, " no limit")?;
        return Ok(text);
    }
    match reach(
        alloc,
        &RowLinks {
            rows: rows.as_slice(),
        },
        start,
        most,
    ) {
        Ok(nodes) => {
            for at in 0..nodes.len() {
                write!(text, " {}", nodes.get(at))?;
            }
        }
        Err(SearchRefusal::TooLarge) => write!(text, " too large")?,
        Err(SearchRefusal::Memory) => write!(text, " memory")?,
    }
    Ok(text)
}

/// The line of the output for a line of the input.
fn answer(alloc: Global, line: &str) -> anyhow::Result<String> {
    let mut words = line.splitn(4, ' ');
    let call = words.next().unwrap_or("");
    let name = words.next().unwrap_or("");
    let count = number(words.next());
    let rest = words.next().unwrap_or("");
    let given = if call == "loops" {
        loops_text(alloc, count, rest)?
    } else {
        let mut parts = rest.splitn(3, ' ');
        let start = number(parts.next());
        let most = number(parts.next()) as usize;
        reach_text(alloc, count, start, most, parts.next().unwrap_or(""))?
    };
    Ok(format!(in alloc; "{name}:{given}")?)
}

fn main(rt: HostRuntime) -> anyhow::Result<()> {
    for line in rt.lines(rt.alloc()) {
        let line = line?;
        let given = answer(rt.alloc(), line.as_str())?;
        println!(rt; "{given}")?;
    }
    Ok(())
}
