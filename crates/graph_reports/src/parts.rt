//! The parts of a report.

ghost use Rattle.std.specs.Prelude.{◌≡◌, ◌<◌, ◌∷◌, ◌++◌, ◌^◌, [], ℕ, Contains, length, map, get_or, IfOk};
ghost use Rattle.function_points.specs.Contexts.{row_list};
ghost use Rattle.flow_graph.specs.Graphs.{context_row, returns_in};
ghost use Rattle.flow_graph.specs.declared.graph.Block.{Block as BlockValue};
ghost use Rattle.graph_reports.specs.Parts.{HasParts, block_in, blocks_of, loop_in};

use fetch_timing::Timing;
use flow_graph::{Block, BlockGraph, Context};
use interval_loops::{LoopInfo, LoopNest};
use report_elements::Formula;
use report_lines::{Report, ReportBlock, ReportLoop};
use sqlite_items::Items;
use std::alloc::{AllocError, Global};
use wsym_terms::{Bound, ParamRange, Tree};

/// A row of a table, copied; an empty one where there is none.
fn copied(alloc: Global, lists: &[Items<u32>], number: u32) -> Result<Items<u32>, AllocError>
    ensures { IfOk result (λ v. v ≡ get_or lists.now number []) }
{
    match lists.get(number as usize) {
        Some(list) => Items::from_slice(alloc, list.as_slice()),
        None => Ok(Items::new(alloc)),
    }
}

/// The open calls of a context: those of its parent, and one more.
fn list_of(alloc: Global, lists: &[Items<u32>], context: &Context) -> Result<Items<u32>, AllocError>
    ensures { IfOk result (λ v. v ≡ row_list lists.now (context_row context.now)) }
{
    let mut list = copied(alloc, lists, context.parent)?;
    list.push(context.return_address)?;
    Ok(list)
}

/// The open calls of each context, the oldest first.
fn lists_of(alloc: Global, contexts: &[Context]) -> Result<Items<Items<u32>>, AllocError>
    ensures { IfOk result (λ v. v ≡ returns_in contexts.now) }
{
    let mut lists = Items::new(alloc);
    lists.push(Items::new(alloc))?;
    let mut at = 1;
    while at < contexts.len() {
        let list = list_of(alloc, lists.as_slice(), &contexts[at])?;
        lists.push(list)?;
        at += 1;
    }
    Ok(lists)
}

/// A block of the report.
fn report_block(
    alloc: Global,
    lists: &[Items<u32>],
    block: &Block,
) -> Result<ReportBlock, AllocError>
    requires { length block.now.points < 2 ^ 32 }
    ensures { IfOk result (λ v. v ≡ block_in lists.now block.now) }
{
    match block.points.as_slice().first() {
        Some(point) => Ok(ReportBlock {
            address: point.address,
            points: block.points.len() as u32,
            returns: copied(alloc, lists, point.context)?,
        }),
        None => Ok(ReportBlock {
            address: 0,
            points: 0,
            returns: Items::new(alloc),
        }),
    }
}

/// The blocks of the report.
fn report_blocks(
    alloc: Global,
    lists: &[Items<u32>],
    blocks: &[Block],
) -> Result<Items<ReportBlock>, AllocError>
    requires { (b : BlockValue) → Contains blocks.now b → length b.points < 2 ^ 32 }
    ensures { IfOk result (λ v. v ≡ map (block_in lists.now) blocks.now) }
{
    let mut found = Items::new(alloc);
    for block in blocks {
        found.push(report_block(alloc, lists, block)?)?;
    }
    Ok(found)
}

/// The loops of the report, without bounds.
fn report_loops(alloc: Global, loops: &[LoopInfo]) -> Result<Items<ReportLoop>, AllocError>
    ensures { IfOk result (λ v. v ≡ map loop_in loops.now) }
{
    let mut found = Items::new(alloc);
    for info in loops {
        found.push(ReportLoop {
            header: info.header,
            depth: info.depth,
            bound: Bound {
                atoms: Items::new(alloc),
            },
        })?;
    }
    Ok(found)
}

/// The report of a function without bounds of its loops: of version 1, with the blocks of the graph, the loops of the
/// nest, and the timing, stack, parameters, tree and formula that are handed in.
///
/// # Errors
///
/// Want of memory alone.
pub fn unbounded_report(
    alloc: Global,
    graph: &BlockGraph,
    nest: &LoopNest,
    timing: Timing,
    stack: u32,
    params: Items<ParamRange>,
    tree: Tree,
    formula: Formula,
) -> Result<Report, AllocError>
    requires { (b : BlockValue) → Contains graph.now.blocks b → length b.points < 2 ^ 32 }
    ensures parts { IfOk result (HasParts graph.now nest.now timing stack params) }
    ensures tree { IfOk result (λ r. r.tree ≡ tree) }
    ensures formula { IfOk result (λ r. r.formula ≡ formula) }
{
    let lists = lists_of(alloc, graph.contexts.as_slice())?;
    let blocks = report_blocks(alloc, lists.as_slice(), graph.blocks.as_slice())?;
    let loops = report_loops(alloc, nest.loops.as_slice())?;
    Ok(Report {
        version: 1,
        entry: graph.entry,
        stack,
        timing,
        params,
        blocks,
        loops,
        rows: Items::new(alloc),
        facts: Items::new(alloc),
        proofs: Items::new(alloc),
        tree,
        formula,
    })
}
