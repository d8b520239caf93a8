//! Points are numbered block after block.

ghost use Rattle.std.specs.Prelude.{◌≡◌, ◌<◌, ◌≤◌, ◌+◌, ◌^◌, ◌++◌, ◌∷◌, ℕ, [], length, map, nat_eq, replicate, IfOk, OnOk, IfErr, get_or};
ghost use Rattle.fetch_timing.specs.Caches.{line_of as line_value};
ghost use Rattle.fetch_timing.specs.Timings.{IsWithinLimits, point_cost as cost_value};
ghost use Rattle.graph_search.specs.Flows.{IsBounded, flow_of};
ghost use Rattle.graph_search.specs.NodeLists.{holds};
ghost use Rattle.graph_search.specs.Rows.{row_in};
ghost use Rattle.flow_graph.specs.declared.graph.GraphPoint.{GraphPoint as PointValue};
ghost use Rattle.block_points.specs.Numbering.{firsts_at, firsts_from, following, joined, next_from, numbers_from};
ghost use Rattle.block_points.specs.Numbering.{rows_from, total_of};
ghost use Rattle.block_points.specs.Tables.{AreLinked, ArePoints};

use crate::tables::BlockPoints;
use fetch_timing::Timing;
use flow_graph::{Block, GraphPoint};
use graph_search::{SuccessorRows, sources};
use sqlite_items::Items;
use std::alloc::{AllocError, Global};

/// The number of the first point of each block.
fn firsts_of(alloc: Global, blocks: &[Block]) -> Result<Items<u32>, AllocError>
    requires { total_of blocks.now < 2 ^ 32 }
    ensures { IfOk result (λ v. v ≡ firsts_from 0 blocks.now) }
{
    let mut firsts = Items::new(alloc);
    let mut first: u32 = 0;
    for block in blocks {
        firsts.push(first)?;
        first += block.points.len() as u32;
    }
    Ok(firsts)
}

/// Numbers one after another from a first one.
fn numbers(alloc: Global, first: u32, count: u32) -> Result<Items<u32>, AllocError>
    requires { first + count < 2 ^ 32 }
    ensures { IfOk result (λ v. v ≡ numbers_from first count) }
{
    let mut numbers = Items::new(alloc);
    for at in 0..count {
        numbers.push(first + at)?;
    }
    Ok(numbers)
}

/// The numbers of the points of each block.
fn rows_of(alloc: Global, blocks: &[Block]) -> Result<Items<Items<u32>>, AllocError>
    requires { total_of blocks.now < 2 ^ 32 }
    ensures { IfOk result (λ v. v ≡ rows_from 0 blocks.now) }
{
    let mut rows = Items::new(alloc);
    let mut first: u32 = 0;
    for block in blocks {
        let count = block.points.len() as u32;
        rows.push(numbers(alloc, first, count)?)?;
        first += count;
    }
    Ok(rows)
}

/// Adds a block's number, once for each of its points.
fn add_home(home: &mut Items<u32>, count: usize, number: u32) -> Result<(), AllocError>
    ensures { OnOk result (home.new ≡ home.old ++ replicate count number) }
{
    for _at in 0..count {
        home.push(number)?;
    }
    Ok(())
}

/// The block of each point.
fn home_of(alloc: Global, blocks: &[Block]) -> Result<Items<u32>, AllocError>
    requires { length blocks.now < 2 ^ 32 }
    ensures { IfOk result (λ v. v ≡ joined (λ k b. replicate (length b.points) k) 0 blocks.now) }
{
    let mut home = Items::new(alloc);
    let mut number: u32 = 0;
    for block in blocks {
        add_home(&mut home, block.points.len(), number)?;
        number += 1;
    }
    Ok(home)
}

/// Adds the cache line of each point.
fn add_lines(
    lines: &mut Items<u32>,
    timing: &Timing,
    points: &[GraphPoint],
) -> Result<(), AllocError>
    requires { IsWithinLimits timing.now }
    ensures { OnOk result (lines.new ≡ lines.old ++ map (λ (p : PointValue). line_value timing.now p.address) points.now) }
{
    for point in points {
        lines.push(timing.line_of(point.address))?;
    }
    Ok(())
}

/// The cache line of each point.
fn lines_of(alloc: Global, timing: &Timing, blocks: &[Block]) -> Result<Items<u32>, AllocError>
    requires { IsWithinLimits timing.now }
    ensures { IfOk result (λ v. v ≡ joined (λ k b. map (λ x. line_value timing.now x.address) b.points) 0 blocks.now) }
{
    let mut lines = Items::new(alloc);
    for block in blocks {
        add_lines(&mut lines, timing, block.points.as_slice())?;
    }
    Ok(lines)
}

/// Adds the greatest cost of each point.
fn add_costs(
    costs: &mut Items<u64>,
    timing: &Timing,
    points: &[GraphPoint],
) -> Result<(), AllocError>
    requires { IsWithinLimits timing.now }
    ensures { OnOk result (costs.new ≡ costs.old ++ map (λ (p : PointValue). cost_value timing.now p.insn) points.now) }
{
    for point in points {
        costs.push(timing.point_cost(&point.insn))?;
    }
    Ok(())
}

/// The greatest cost of each point.
fn costs_of(alloc: Global, timing: &Timing, blocks: &[Block]) -> Result<Items<u64>, AllocError>
    requires { IsWithinLimits timing.now }
    ensures { IfOk result (λ v. v ≡ joined (λ k b. map (λ x. cost_value timing.now x.insn) b.points) 0 blocks.now) }
{
    let mut costs = Items::new(alloc);
    for block in blocks {
        add_costs(&mut costs, timing, block.points.as_slice())?;
    }
    Ok(costs)
}

/// The first numbers of some blocks.
fn firsts_at(alloc: Global, firsts: &[u32], blocks: &[u32]) -> Result<Items<u32>, AllocError>
    ensures { IfOk result (λ v. v ≡ firsts_at firsts.now blocks.now) }
{
    let mut found = Items::new(alloc);
    for block in blocks {
        let first = match firsts.get(*block as usize) {
            Some(first) => *first,
            None => 0,
        };
        found.push(first)?;
    }
    Ok(found)
}

/// A row of one number.
fn row_of_one(alloc: Global, number: u32) -> Result<Items<u32>, AllocError>
    ensures { IfOk result (λ v. v ≡ number ∷ []) }
{
    let mut row = Items::new(alloc);
    row.push(number)?;
    Ok(row)
}

/// Adds what follows each point of a block: the next one, and after the last what is handed in.
fn add_following(
    alloc: Global,
    next: &mut Items<Items<u32>>,
    first: u32,
    count: u32,
    after: Items<u32>,
) -> Result<(), AllocError>
    requires { first + count < 2 ^ 32 }
    ensures { OnOk result (next.new ≡ next.old ++ following first count after) }
{
    if count == 0 {
        return Ok(());
    }
    for at in 0..count - 1 {
        next.push(row_of_one(alloc, first + at + 1)?)?;
    }
    next.push(after)?;
    Ok(())
}

/// What follows each point.
fn next_of(alloc: Global, blocks: &[Block], firsts: &[u32]) -> Result<Items<Items<u32>>, AllocError>
    requires { total_of blocks.now < 2 ^ 32 }
    ensures { IfOk result (λ v. v ≡ next_from firsts.now 0 blocks.now) }
{
    let mut next = Items::new(alloc);
    let mut first: u32 = 0;
    for block in blocks {
        let count = block.points.len() as u32;
        let after = firsts_at(alloc, firsts, block.next.as_slice())?;
        add_following(alloc, &mut next, first, count, after)?;
        first += count;
    }
    Ok(next)
}

/// What follows each point and what each follows.
fn neighbours(
    alloc: Global,
    next: Items<Items<u32>>,
) -> Result<(Items<Items<u32>>, Items<Items<u32>>), AllocError>
    requires few { length next < 2 ^ 32 }
    requires bounded { IsBounded (flow_of (record { rows = next; entry = 0; returns = [] })) }
    ensures same { IfOk result (λ pair. pair.0 ≡ next) }
    ensures size { IfOk result (λ pair. length pair.1 ≡ length next) }
    ensures before { IfOk result (λ pair. (r q : ℕ)
        → holds nat_eq q (row_in next r) ≡ holds nat_eq r (row_in pair.1 q)) }
{
    let graph = SuccessorRows::new(next, 0, Items::new(alloc));
    let before = sources(alloc, &graph)?;
    Ok((graph.into_rows(), Items::from_vec(before)))
}

/// The points of a graph's blocks by numbers, with their cache lines and greatest costs by a timing, and what follows and
/// precedes each.
///
/// # Errors
///
/// Want of memory alone.
pub fn number_points(
    alloc: Global,
    timing: &Timing,
    blocks: &[Block],
) -> Result<BlockPoints, AllocError>
    requires limits { IsWithinLimits timing.now }
    requires few { total_of blocks.now < 2 ^ 32 }
    requires linked { AreLinked blocks.now }
    requires some { 0 < length blocks.now }
    ensures { IfOk result (ArePoints timing.now blocks.now) }
{
    let firsts = firsts_of(alloc, blocks)?;
    let next = next_of(alloc, blocks, firsts.as_slice())?;
    let rows = rows_of(alloc, blocks)?;
    let home = home_of(alloc, blocks)?;
    let lines = lines_of(alloc, timing, blocks)?;
    let costs = costs_of(alloc, timing, blocks)?;
    let (next, before) = neighbours(alloc, next)?;
    Ok(BlockPoints {
        rows,
        home,
        lines,
        costs,
        next,
        before,
    })
}
