//! The nest of a graph's loops.
ghost use Rattle.std.specs.Prelude.{◌≡◌, ℕ, ◌<◌, ◌≤◌, ◌^◌, ◌++◌, ◌∷◌, [], true, nat_eq, length, map, IfOk, OnOk};
ghost use Rattle.std.specs.Prelude.{IsErrOf};
ghost use Rattle.graph_search.specs.Flows.{Flow, IsBounded};
ghost use Rattle.graph_reduction.specs.Loops.{IsIrreducible};
ghost use Rattle.graph_reduction.specs.Reduction.{State, IsReduced};
ghost use Rattle.graph_reduction.specs.NodeStates.{state_in, AreWhole};
ghost use Rattle.graph_search.specs.NodeLists.{holds};
ghost use Rattle.interval_loops.specs.Rounds.{last_or, RisesOpen};
ghost use Rattle.graph_search.specs.Orders.{Rising};
ghost use Rattle.interval_loops.specs.BlockOrders.{place};
ghost use Rattle.graph_search.specs.Rows.{row_in};
ghost use Rattle.interval_loops.specs.Tables.{closed_of, AreSources, AreAll, IsDeeper};
ghost use Rattle.interval_loops.specs.Nests.{before_last, info_of, infos_of, nest_by, IsNestIn, IsNestOf};

use crate::bodies::{LoopRefusal, chains};
use crate::order::order_of;
use crate::tables::{Tables, closing_sources, numbers};
use graph_reduction::Nodes;
use graph_search::{FlowGraph, sources};
use sqlite_items::Items;
use std::alloc::{AllocError, Global};

/// A loop: its header, the number of the loop that it lies in, or 0, how many loops are round its header, and the
/// blocks from which its closing edges go, ascending.
#[derive(Drop)]
pub struct LoopInfo {
    pub header: u32,
    pub parent: u32,
    pub depth: u32,
    pub closing: Items<u32>,
}

/// The loops by their numbers, from 1 by their headers; for each block the number of the innermost loop round it, or
/// 0; and the numbers of all loops round it, the outermost first.
#[derive(Drop)]
pub struct LoopNest {
    pub loops: Items<LoopInfo>,
    pub innermost: Items<u32>,
    pub around: Items<Items<u32>>,
}

/// The last number of a row, or 0.
fn last_of(row: &[u32]) -> u32
    ensures { result ≡ last_or 0 row.now }
{
    let mut last = 0;
    for number in row {
        last = *number;
    }
    last
}

/// The number before the last of a row, or 0.
fn second_last(row: &[u32]) -> u32
    ensures { result ≡ before_last row.now }
{
    if row.len() < 2 { 0 } else { row[row.len() - 2] }
}

/// A row of a table.
fn row_at(rows: &[Items<u32>], place: u32) -> &[u32]
    requires { place < length rows.now }
    ensures { result.now ≡ row_in rows.now place }
{
    rows[place as usize].as_slice()
}

/// The loop of a header.
fn describe(
    alloc: Global,
    header: u32,
    closing: &[u32],
    round: &[u32],
) -> Result<LoopInfo, AllocError>
    requires { length round.now < 2 ^ 32 }
    ensures { IfOk result (λ i. i ≡ info_of header closing.now round.now) }
{
    Ok(LoopInfo {
        header,
        parent: second_last(round),
        depth: round.len() as u32,
        closing: Items::from_slice(alloc, closing)?,
    })
}

/// Adds the loop of a header.
fn add_info(
    alloc: Global,
    infos: &mut Items<LoopInfo>,
    header: u32,
    closers: &[Items<u32>],
    around: &[Items<u32>],
) -> Result<(), AllocError>
    requires inside { (header < length closers.now) × (header < length around.now) }
    requires few { (q : ℕ) → length (row_in around.now q) ≤ 16 }
    ensures { OnOk result (infos.new ≡ infos.old ++ info_of header (row_in closers.now header)
        (row_in around.now header) ∷ []) }
{
    let info = describe(
        alloc,
        header,
        row_at(closers, header),
        row_at(around, header),
    )?;
    infos.push(info)?;
    Ok(())
}

/// The loops of the headers.
fn describe_all(
    alloc: Global,
    headers: &[u32],
    closers: &[Items<u32>],
    around: &[Items<u32>],
) -> Result<Items<LoopInfo>, AllocError>
    requires inside { (h : ℕ) → holds nat_eq h headers.now ≡ true → (h < length closers.now) × (h < length around.now) }
    requires few { (q : ℕ) → length (row_in around.now q) ≤ 16 }
    ensures { IfOk result (λ v. v ≡ infos_of headers.now closers.now around.now) }
{
    let mut infos = Items::new(alloc);
    for header in headers {
        add_info(alloc, &mut infos, *header, closers, around)?;
    }
    Ok(infos)
}

/// The innermost loop of each block.
fn innermost_of(alloc: Global, around: &[Items<u32>]) -> Result<Items<u32>, AllocError>
    ensures { IfOk result (λ v. v ≡ map (last_or 0) around.now) }
{
    let mut innermost = Items::new(alloc);
    for row in around {
        innermost.push(last_of(row.as_slice()))?;
    }
    Ok(innermost)
}

/// The nest by the rows of loops round each block.
fn nest_from(
    alloc: Global,
    headers: &[u32],
    closers: &[Items<u32>],
    around: Vec<Items<u32>>,
) -> Result<LoopNest, AllocError>
    requires inside { (h : ℕ) → holds nat_eq h headers.now ≡ true → (h < length closers.now) ×
        (h < length around.items) }
    requires few { (q : ℕ) → length (row_in around.items q) ≤ 16 }
    ensures { IfOk result (λ n. n ≡ nest_by headers.now closers.now around.items) }
{
    let loops = describe_all(alloc, headers, closers, around.as_slice())?;
    let innermost = innermost_of(alloc, around.as_slice())?;
    Ok(LoopNest {
        loops,
        innermost,
        around: Items::from_vec(around),
    })
}

/// The nest of a graph whose closing edges and whose order are known.
fn nest_in<G: FlowGraph>(
    alloc: Global,
    graph: &G,
    order: &[u32],
    closers: &[Items<u32>],
    before: &[Items<u32>],
) -> Result<LoopNest, LoopRefusal>
    requires bounded { IsBounded (G.flow graph.now) }
    requires sources { AreSources (G.flow graph.now) closers.now before.now }
    requires all { AreAll (G.flow graph.now) order.now }
    requires rising { (h : ℕ) → Rising (λ u. u) (row_in closers.now h) }
    ensures ok { IfOk result (λ n. (t : State) → IsReduced (G.flow graph.now) t →
        ((u h : ℕ) → closed_of closers.now u h ≡ t.closed u h) → RisesOpen (G.flow graph.now) t.closed
        (λ x. place x order.now) → IsNestIn (G.flow graph.now) t (λ x. place x order.now) n) }
    ensures deep { IsErrOf result LoopRefusal.TooDeep → IsDeeper (G.flow graph.now) (closed_of closers.now) 16 }
    ensures never { IsErrOf result LoopRefusal.Irreducible → ⊥ }
{
    let mut headers = Vec::new(alloc);
    let Ok(numbers) = numbers(alloc, closers, &mut headers) else {
        return Err(LoopRefusal::Memory);
    };
    let around = chains(
        alloc,
        graph,
        order,
        headers.as_slice(),
        numbers.as_slice(),
        closers,
        before,
    )?;
    let nest = nest_from(alloc, headers.as_slice(), closers, around).map_err(
        |_| LoopRefusal::Memory,
    )?;
    Ok(nest)
}

/// The nodes to which a graph is reduced.
fn reduced<G: FlowGraph>(alloc: Global, graph: &G) -> Result<Nodes, AllocError>
    requires { IsBounded (G.flow graph.now) }
    ensures whole { IfOk result (AreWhole (G.flow graph.now)) }
    ensures reduced { IfOk result (λ n. IsReduced (G.flow graph.now) (state_in (G.flow graph.now) n)) }
{
    let mut nodes = Nodes::start(alloc, graph)?;
    nodes.reduce(alloc, graph)?;
    Ok(nodes)
}

/// The sources of closing edges and of all edges.
fn tables_of<G: FlowGraph>(alloc: Global, graph: &G, nodes: &Nodes) -> Result<Tables, AllocError>
    requires { AreWhole (G.flow graph.now) nodes.now }
    ensures sources { IfOk result (λ t. AreSources (G.flow graph.now) t.closers.items t.before.items) }
    ensures same { IfOk result (λ t. (u h : ℕ) → closed_of t.closers.items u h ≡
        (state_in (G.flow graph.now) nodes.now).closed u h) }
    ensures rising { IfOk result (λ t. (h : ℕ) → Rising (λ u. u) (row_in t.closers.items h)) }
{
    let closings = nodes.closings(alloc, graph)?;
    let closers = closing_sources(alloc, closings, graph.count())?;
    let before = sources(alloc, graph)?;
    Ok(Tables { closers, before })
}

/// The blocks in an order in which each edge that doesn't close leads onward.
fn ordered<G: FlowGraph>(
    alloc: Global,
    graph: &G,
    nodes: &mut Nodes,
) -> Result<Vec<u32>, LoopRefusal>
    requires { AreWhole (G.flow graph.now) nodes.old }
    ensures all { IfOk result (λ v. AreAll (G.flow graph.now) v.items) }
    ensures rises { IfOk result (λ v. RisesOpen (G.flow graph.now) (state_in (G.flow graph.now) nodes.old).closed
        (λ x. place x v.items)) }
    ensures irreducible { IsErrOf result LoopRefusal.Irreducible → IsIrreducible (G.flow graph.now)
        (state_in (G.flow graph.now) nodes.old).closed }
    ensures never { IsErrOf result LoopRefusal.TooDeep → ⊥ }
{
    let order = order_of(alloc, graph, nodes.label.as_slice(), &mut nodes.into).map_err(
        |_| LoopRefusal::Memory,
    )?;
    if order.len() < graph.count() as usize {
        return Err(LoopRefusal::Irreducible);
    }
    Ok(order)
}

/// The loops of a graph.
pub fn loops<G: FlowGraph>(alloc: Global, graph: &G) -> Result<LoopNest, LoopRefusal>
    requires { IsBounded (G.flow graph.now) }
    ensures ok { IfOk result (IsNestOf (G.flow graph.now)) }
    ensures irreducible { IsErrOf result LoopRefusal.Irreducible → (s : State) × IsReduced (G.flow graph.now) s
        × IsIrreducible (G.flow graph.now) s.closed }
    ensures deep { IsErrOf result LoopRefusal.TooDeep → (s : State) × IsReduced (G.flow graph.now) s ×
        (IsIrreducible (G.flow graph.now) s.closed → ⊥) × IsDeeper (G.flow graph.now) s.closed 16 }
{
    let Ok(mut nodes) = reduced(alloc, graph) else {
        return Err(LoopRefusal::Memory);
    };
    let Ok(tables) = tables_of(alloc, graph, &nodes) else {
        return Err(LoopRefusal::Memory);
    };
    let order = ordered(alloc, graph, &mut nodes)?;
    let nest = nest_in(
        alloc,
        graph,
        order.as_slice(),
        tables.closers.as_slice(),
        tables.before.as_slice(),
    )?;
    Ok(nest)
}
