//! The parts of a graph, made from the tables.

ghost use Rattle.std.specs.Prelude.{◌≡◌, ◌↔◌, ℕ, ◌<◌, ◌≤◌, ◌^◌, ◌++◌, ◌∷◌, [], true, Some, None, Contains, length, map};
ghost use Rattle.std.specs.Prelude.{slice_get, List, IfOk, OnOk};
ghost use Rattle.arm_isa.specs.declared.instruction.Insn.{Insn as InsnValue};
ghost use Rattle.control_flow.specs.Instructions.{instruction_at};
ghost use Rattle.basic_blocks.specs.Blocks.{Ascending};
ghost use Rattle.basic_blocks.specs.Chains.{is_flagged};
ghost use Rattle.flow_graph.specs.declared.graph.GraphPoint.{GraphPoint as GraphPointValue};
ghost use Rattle.point_tables.specs.Numbers.{Pointwise};
ghost use Rattle.flow_graph.specs.Parts.{AreContextsOf, AreNextBlocks, AreUnflagged, IsBlockAt, IsBlockOf};
ghost use Rattle.flow_graph.specs.Parts.{first_number, last_number, pair_at, point_pair};
ghost use Rattle.flow_graph.specs.Parts.{in_order as numbers_in_order};
ghost use Rattle.point_tables.specs.Targets.{step_in, target_numbers};

use crate::graph::{Block, Context, GraphPoint};
use control_flow::fetch;
use elf32_image::Image;
use function_points::Contexts;
use point_tables::{Targets, is_set};
use sqlite_items::Items;
use std::alloc::{AllocError, Global};

/// Adds a point with its instruction.
fn add_point(
    out: &mut Items<GraphPoint>,
    image: &Image,
    context: u32,
    address: u32,
) -> Result<(), AllocError>
    requires { instruction_at image.now address ≡ None → ⊥ }
    ensures { OnOk result ((insn : InsnValue) × (instruction_at image.now address ≡ Some insn)
        × (out.new ≡ out.old ++ record { context = context; address = address; insn = insn } ∷ [])) }
{
    match fetch(image, address) {
        Ok(insn) => {
            out.push(GraphPoint {
                context,
                address,
                insn,
            })?;
            Ok(())
        }
        Err(_) => Ok(()),
    }
}

/// The points with these numbers, with their instructions.
pub fn graph_points(
    alloc: Global,
    image: &Image,
    points: &[(u32, u32)],
    numbers: &[u32],
) -> Result<Items<GraphPoint>, AllocError>
    requires under { (i : ℕ) → Contains numbers.now i → i < length points.now }
    requires clear { (n : ℕ × ℕ) → Contains points.now n → instruction_at image.now n.1 ≡ None → ⊥ }
    ensures points { IfOk result (λ ps. map point_pair ps ≡ map (pair_at points.now) numbers.now) }
    ensures known { IfOk result (λ ps. (p : GraphPointValue) → Contains ps p
        → instruction_at image.now p.address ≡ Some p.insn) }
{
    let mut out = Items::new(alloc);
    for number in numbers {
        let point = points[*number as usize];
        add_point(&mut out, image, point.0, point.1)?;
    }
    Ok(out)
}

/// The first number of each chain.
pub fn firsts_of(alloc: Global, chains: &[Items<u32>]) -> Result<Items<u32>, AllocError>
    requires { (xs : List ℕ) → Contains chains.now xs → 0 < length xs }
    ensures { IfOk result (λ firsts. firsts ≡ map first_number chains.now) }
{
    let mut firsts = Items::new(alloc);
    for chain in chains {
        firsts.push(chain.as_slice()[0])?;
    }
    Ok(firsts)
}

/// The number of the block that begins with the number to which a way leads.
pub fn block_at(firsts: &[u32], to: Option<u32>) -> Option<u32>
    requires few { length firsts.now < 2 ^ 32 }
    requires rising { Ascending (λ i j. i < j) firsts.now }
    ensures { IsBlockAt firsts.now to result }
{
    match to {
        Some(number) => match firsts.binary_search(&number) {
            Ok(at) => Some(at as u32),
            Err(_) => None,
        },
        None => None,
    }
}

/// One or two numbers, ascending.
fn in_order(alloc: Global, one: Option<u32>, other: Option<u32>) -> Result<Items<u32>, AllocError>
    ensures { IfOk result (λ next. next ≡ numbers_in_order one other) }
{
    let mut next = Items::new(alloc);
    match one {
        Some(i) => match other {
            Some(j) => {
                if i == j {
                    next.push(i)?;
                } else if i < j {
                    next.push(i)?;
                    next.push(j)?;
                } else {
                    next.push(j)?;
                    next.push(i)?;
                }
            }
            None => next.push(i)?,
        },
        None => match other {
            Some(j) => next.push(j)?,
            None => {}
        },
    }
    Ok(next)
}

/// The blocks to which control goes on.
fn next_blocks(alloc: Global, firsts: &[u32], targets: Targets) -> Result<Items<u32>, AllocError>
    requires few { length firsts.now < 2 ^ 32 }
    requires rising { Ascending (λ i j. i < j) firsts.now }
    ensures { IfOk result (AreNextBlocks firsts.now (target_numbers targets)) }
{
    in_order(
        alloc,
        block_at(firsts, targets.done),
        block_at(firsts, targets.skipped),
    )
}

/// Whether a way leads to a number.
fn leads_to(to: Option<u32>, number: usize) -> bool
    ensures { (result ≡ true) ↔ (to ≡ Some number) }
{
    match to {
        Some(target) => target as usize == number,
        None => false,
    }
}

/// Whether one of the ways leads to a number.
fn lead_to(targets: Targets, number: usize) -> bool
    ensures { (result ≡ true) ↔ Contains (target_numbers targets) number }
{
    leads_to(targets.done, number) || leads_to(targets.skipped, number)
}

/// Where control goes from the last of some numbers.
fn last_targets(table: &[Targets], chain: &[u32]) -> Targets
    requires some { 0 < length chain.now }
    requires under { (i : ℕ) → Contains chain.now i → i < length table.now }
    ensures { step_in table.now (last_number chain.now) ≡ target_numbers result }
{
    table[chain[chain.len() - 1] as usize]
}

/// The block of a chain.
fn block_of(
    alloc: Global,
    image: &Image,
    points: &[(u32, u32)],
    table: &[Targets],
    firsts: &[u32],
    chain: &[u32],
) -> Result<Block, AllocError>
    requires few { length firsts.now < 2 ^ 32 }
    requires rising { Ascending (λ i j. i < j) firsts.now }
    requires clear { (n : ℕ × ℕ) → Contains points.now n → instruction_at image.now n.1 ≡ None → ⊥ }
    requires long { length table.now ≡ length points.now }
    requires some { 0 < length chain.now }
    requires under { (i : ℕ) → Contains chain.now i → i < length points.now }
    ensures { IfOk result (IsBlockOf (instruction_at image.now) points.now table.now firsts.now chain.now) }
{
    let block_points = graph_points(alloc, image, points, chain)?;
    let targets = last_targets(table, chain);
    let next = next_blocks(alloc, firsts, targets)?;
    Ok(Block {
        points: block_points,
        next,
        returns: lead_to(targets, points.len()),
    })
}

/// The blocks of all chains.
pub fn blocks_of(
    alloc: Global,
    image: &Image,
    points: &[(u32, u32)],
    table: &[Targets],
    firsts: &[u32],
    chains: &[Items<u32>],
) -> Result<Items<Block>, AllocError>
    requires few { length firsts.now < 2 ^ 32 }
    requires rising { Ascending (λ i j. i < j) firsts.now }
    requires clear { (n : ℕ × ℕ) → Contains points.now n → instruction_at image.now n.1 ≡ None → ⊥ }
    requires long { length table.now ≡ length points.now }
    requires some { (xs : List ℕ) → Contains chains.now xs → 0 < length xs }
    requires under { (xs : List ℕ) (i : ℕ) → Contains chains.now xs → Contains xs i → i < length points.now }
    ensures { IfOk result (Pointwise
        (IsBlockOf (instruction_at image.now) points.now table.now firsts.now) chains.now) }
{
    let mut blocks = Items::new(alloc);
    for chain in chains {
        let block = block_of(alloc, image, points, table, firsts, chain.as_slice())?;
        blocks.push(block)?;
    }
    Ok(blocks)
}

/// The numbers without a flag, ascending.
pub fn unflagged(alloc: Global, flags: &[bool], count: u32) -> Result<Items<u32>, AllocError>
    ensures { IfOk result (AreUnflagged count (is_flagged flags.now)) }
{
    let mut numbers = Items::new(alloc);
    let mut at: u32 = 0;
    while at < count {
        if !is_set(flags, at) {
            numbers.push(at)?;
        }
        at += 1;
    }
    Ok(numbers)
}

/// The contexts of lists of open calls.
pub fn contexts_of(alloc: Global, contexts: &Contexts) -> Result<Items<Context>, AllocError>
    ensures { IfOk result (AreContextsOf contexts.now) }
{
    let mut out = Items::new(alloc);
    out.push(Context {
        parent: 0,
        return_address: 0,
    })?;
    let rows = contexts.rows();
    for row in rows {
        out.push(Context {
            parent: row.0,
            return_address: row.1,
        })?;
    }
    Ok(out)
}
