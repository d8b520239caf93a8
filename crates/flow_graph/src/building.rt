//! The graph of a function from its image.

ghost use Rattle.std.specs.Prelude.{◌≡◌, ℕ, ◌<◌, ◌^◌, true, Contains, Some, List, [], length, get_or, map, slice_get};
ghost use Rattle.std.specs.Prelude.{IfOk};
ghost use Rattle.std.specs.Prelude.{IfErr, OnOk};
ghost use Rattle.basic_blocks.specs.Blocks.{Ascending};
ghost use Rattle.basic_blocks.specs.Chains.{is_flagged};
ghost use Rattle.control_flow.specs.Points.{entry_point};
ghost use Rattle.control_flow.specs.Routes.{IsLive};
ghost use Rattle.control_flow.specs.Ways.{ways_from};
ghost use Rattle.function_points.specs.PointLists.{points_at};
ghost use Rattle.point_order.specs.Arrangements.{IsArranged};
ghost use Rattle.flow_graph.specs.declared.graph.Block.{Block as BlockValue};
ghost use Rattle.flow_graph.specs.Graphs.{AreTooMany, IsGraphOf, IsRefusedGraph, IsSound, refusal_for, returns_in};
ghost use Rattle.flow_graph.specs.Graphs.{graph_points as points_of_graph};
ghost use Rattle.flow_graph.specs.Parts.{AreReady};
ghost use Rattle.point_tables.specs.Tables.{AreTables};
ghost use Rattle.flow_graph.specs.Tables.{IsFunctionGraph};

use crate::graph::{Block, BlockGraph, FunctionGraph, GraphRefusal, PointTables};
use crate::parts::{block_at, blocks_of, contexts_of, firsts_of, graph_points, unflagged};
use control_flow::Fault;
use elf32_image::Image;
use function_points::Contexts;
use graph_search::SearchRefusal;
use point_order::{Arrangement, arrange};
use point_tables::{FoundFault, Targets, WayTables, cut, first_fault, is_set, number_of, tabulate};
use sqlite_items::Items;
use std::alloc::{AllocError, Global};

/// The greatest number of points that a graph may have, the pruned ones included.
const MOST_POINTS: usize = 100_000;

/// The points that control reaches, in order.
fn arranged(alloc: Global, image: &Image, entry: u32) -> Result<Arrangement, GraphRefusal>
    ensures ok { IfOk result (λ a. IsArranged image.now entry a.contexts a.points) }
    ensures few { IfOk result (λ a. AreTooMany image.now entry → ⊥) }
    ensures refused { IfErr result (IsRefusedGraph image.now entry) }
{
    match arrange(alloc, image, entry, MOST_POINTS) {
        Ok(arrangement) => Ok(arrangement),
        Err(SearchRefusal::Memory) => Err(GraphRefusal::Memory),
        Err(SearchRefusal::TooLarge) => Err(GraphRefusal::TooLarge),
    }
}

/// The refusal for a fault.
fn refusal_of(found: FoundFault) -> GraphRefusal
    ensures { result ≡ refusal_for found.fault found.address }
{
    match found.fault {
        Fault::Unknown => GraphRefusal::UnknownWord(found.address),
        Fault::Outside => GraphRefusal::OutsideCode(found.address),
        Fault::Indirect => GraphRefusal::IndirectJump(found.address),
        Fault::Recursive => GraphRefusal::Recursion(found.address),
    }
}

/// Refuses a function of which a point has a fault.
fn check_faults(
    image: &Image,
    contexts: &Contexts,
    points: &[(u32, u32)],
    entry: u32,
) -> Result<(), GraphRefusal>
    requires arranged { IsArranged image.now entry contexts.now points.now }
    requires few { AreTooMany image.now entry → ⊥ }
    ensures ok { OnOk result (IsSound image.now entry) }
    ensures refused { IfErr result (IsRefusedGraph image.now entry) }
{
    match first_fault(image, contexts, entry, points) {
        Some(found) => Err(refusal_of(found)),
        None => Ok(()),
    }
}

/// The number of the point where the function begins.
fn entry_number(image: &Image, contexts: &Contexts, points: &[(u32, u32)], entry: u32) -> u32
    requires few { length points.now < 2 ^ 31 }
    requires arranged { IsArranged image.now entry contexts.now points.now }
    ensures { slice_get points.now result ≡ Some (0, entry) }
{
    match number_of(points, 0, entry) {
        Some(number) => number,
        None => 0,
    }
}

/// The number of the block that begins with a number.
fn entry_block(firsts: &[u32], first: u32) -> u32
    requires few { length firsts.now < 2 ^ 32 }
    requires rising { Ascending (λ i j. i < j) firsts.now }
    requires there { (k : ℕ) × (slice_get firsts.now k ≡ Some first) }
    ensures { slice_get firsts.now result ≡ Some first }
{
    match block_at(firsts, Some(first)) {
        Some(number) => number,
        None => 0,
    }
}

/// The number of blocks.
fn count_of(blocks: &Items<Block>) -> u32
    requires { length blocks.now < 2 ^ 32 }
    ensures { result ≡ length blocks.now }
{
    blocks.len() as u32
}

/// The graph of a function from the tables of its points.
fn graph_of(
    alloc: Global,
    image: &Image,
    contexts: &Contexts,
    points: &[(u32, u32)],
    table: &[Targets],
    live: &[bool],
    chains: &[Items<u32>],
    entry: u32,
    first: u32,
) -> Result<BlockGraph, AllocError>
    requires few { length points.now < 2 ^ 31 }
    requires ready { AreReady image.now entry contexts.now points.now table.now live.now chains.now }
    requires first { slice_get points.now first ≡ Some (0, entry) }
    requires alive { is_flagged live.now first ≡ true }
    ensures graph { IfOk result (IsGraphOf image.now entry) }
    ensures contexts { IfOk result (λ g. returns_in g.contexts ≡ contexts.now) }
    ensures cut { IfOk result (λ g. map (λ (b : BlockValue). points_of_graph contexts.now b.points) g.blocks
        ≡ map (map (λ i. get_or (points_at contexts.now points.now) i (entry_point entry))) chains.now) }
{
    let first_numbers = firsts_of(alloc, chains)?;
    let firsts = first_numbers.as_slice();
    let blocks = blocks_of(alloc, image, points, table, firsts, chains)?;
    let cast = unflagged(alloc, live, points.len() as u32)?;
    let pruned = graph_points(alloc, image, points, cast.as_slice())?;
    let rows = contexts_of(alloc, contexts)?;
    Ok(BlockGraph {
        entry,
        contexts: rows,
        block_count: count_of(&blocks),
        entry_block: entry_block(firsts, first),
        blocks,
        pruned,
    })
}

/// The tables of points, or a refusal for want of memory.
fn tabulated(
    alloc: Global,
    image: &Image,
    contexts: &Contexts,
    points: &[(u32, u32)],
    entry: u32,
) -> Result<WayTables, GraphRefusal>
    requires few { length points.now < 2 ^ 31 }
    requires arranged { IsArranged image.now entry contexts.now points.now }
    ensures ok { IfOk result (λ t. AreTables (ways_from image.now entry) (entry_point entry)
        (points_at contexts.now points.now) t.targets t.sources t.live) }
    ensures refused { IfErr result (IsRefusedGraph image.now entry) }
{
    match tabulate(alloc, image, contexts, points, entry) {
        Ok(tables) => Ok(tables),
        Err(_) => Err(GraphRefusal::Memory),
    }
}

/// The graph of a function from which control gets out.
fn assemble(
    alloc: Global,
    image: &Image,
    contexts: &Contexts,
    points: Items<(u32, u32)>,
    tables: WayTables,
    entry: u32,
    first: u32,
) -> Result<FunctionGraph, AllocError>
    requires few { length points < 2 ^ 31 }
    requires arranged { IsArranged image.now entry contexts.now points }
    requires sound { IsSound image.now entry }
    requires tables { AreTables (ways_from image.now entry) (entry_point entry) (points_at contexts.now points)
        tables.targets tables.sources tables.live }
    requires first { slice_get points first ≡ Some (0, entry) }
    requires alive { is_flagged tables.live first ≡ true }
    ensures { IfOk result (IsFunctionGraph image.now entry) }
{
    let WayTables {
        targets,
        sources,
        live,
    } = tables;
    let chains = cut(
        alloc,
        targets.as_slice(),
        sources.as_slice(),
        live.as_slice(),
        first,
    )?;
    let graph = graph_of(
        alloc,
        image,
        contexts,
        points.as_slice(),
        targets.as_slice(),
        live.as_slice(),
        chains.as_slice(),
        entry,
        first,
    )?;
    Ok(FunctionGraph {
        graph,
        tables: PointTables {
            points,
            targets,
            sources,
            live,
            chains,
        },
    })
}

/// The graph of a function no point of which has a fault.
fn sound_graph(
    alloc: Global,
    image: &Image,
    contexts: &Contexts,
    points: Items<(u32, u32)>,
    entry: u32,
) -> Result<FunctionGraph, GraphRefusal>
    requires arranged { IsArranged image.now entry contexts.now points }
    requires sound { IsSound image.now entry }
    ensures ok { IfOk result (IsFunctionGraph image.now entry) }
    ensures refused { IfErr result (IsRefusedGraph image.now entry) }
{
    let tables = tabulated(alloc, image, contexts, points.as_slice(), entry)?;
    let first = entry_number(image, contexts, points.as_slice(), entry);
    if is_set(tables.live.as_slice(), first) {
        match assemble(alloc, image, contexts, points, tables, entry, first) {
            Ok(graph) => Ok(graph),
            Err(_) => Err(GraphRefusal::Memory),
        }
    } else {
        Err(GraphRefusal::NoReturn)
    }
}

/// The graph of the function at an address, with all points that control reaches there by their numbers. Any address
/// may
/// be given.
///
/// # Errors
///
/// `TooLarge` exactly where control reaches more than 100,000 points. Else, where points have faults, the fault that
/// comes first: by its kind, in the order in which [`GraphRefusal`] has them, and then by the address. Else `NoReturn`
/// exactly where no way leads from the entry out of the function. `Memory` where memory was refused.
pub fn build(alloc: Global, image: &Image, entry: u32) -> Result<FunctionGraph, GraphRefusal>
    ensures ok { IfOk result (IsFunctionGraph image.now entry) }
    ensures refused { IfErr result (IsRefusedGraph image.now entry) }
{
    let Arrangement { contexts, points } = arranged(alloc, image, entry)?;
    check_faults(image, &contexts, points.as_slice(), entry)?;
    sound_graph(alloc, image, &contexts, points, entry)
}
