//! The loops round each block.
ghost use Rattle.std.specs.Prelude.{◌≡◌, ◌≢◌, ℕ, ◌<◌, ◌≤◌, ◌+◌, Bool, true, if◌then◌else◌, nat_eq, List, [], ◌∷◌, ◌++◌};
ghost use Rattle.std.specs.Prelude.{length, slice_index_or, IfOk, OnOk, IsErrOf};
ghost use Rattle.graph_search.specs.NodeLists.{holds, added_all, Distinct};
ghost use Rattle.graph_search.specs.Walks.{Reached};
ghost use Rattle.graph_search.specs.Searches.{steps_to};
ghost use Rattle.graph_search.specs.Rows.{row_in, RowMore};
ghost use Rattle.interval_loops.specs.Tables.{back_step, closed_of, AreSources, AreAll, AreNumbered, IsDeeper};
ghost use Rattle.interval_loops.specs.Tables.{AreSoFar};
ghost use Rattle.graph_search.specs.Flows.{Flow};

use crate::order::listed_at;
use graph_search::{FlowGraph, MarkLinks, Marks, add_to_row, empty_rows, mark_reached, mark_row};
use sqlite_items::Items;
use std::alloc::{AllocError, Global};

/// Why a graph's loops are refused.
#[derive(Clone, Copy, Debug, PartialEq, Eq)]
pub enum LoopRefusal {
    Memory,
    Irreducible,
    TooDeep,
}

/// The edges of a graph backwards, as a search for the blocks of a loop goes over them: from the header along its
/// closing edges alone, from other blocks along all edges.
#[derive(Clone, Copy)]
struct LoopLinks<'a> {
    closers: &'a [Items<u32>],
    before: &'a [Items<u32>],
    header: u32,
}

impl<'a> MarkLinks for LoopLinks<'a> {
    ghost use Rattle.std.specs.Prelude.{length};
    ghost use Rattle.interval_loops.specs.Tables.{back_step};

    ghost step = { λ links x. back_step links.closers.now links.before.now links.header x };

    ghost count = { λ links. length links.before.now };

    fn spread(&self, node: u32, marks: &mut Marks) -> Result<(), AllocError> {
        let rows = if node == self.header {
            self.closers
        } else {
            self.before
        };
        match rows.get(node as usize) {
            Some(row) => mark_row(marks, row.as_slice()),
            None => Ok(()),
        }
    }
}

/// Marks the blocks of a loop.
pub fn mark_loop(
    alloc: Global,
    closers: &[Items<u32>],
    before: &[Items<u32>],
    marks: &mut Marks,
    header: u32,
) -> Result<(), AllocError>
    requires size { (marks.old.count ≡ length before.now) × (length closers.now ≡ length before.now) }
    requires inside { header < length before.now }
    requires below { (x q : ℕ) → holds nat_eq q (back_step closers.now before.now header x) ≡ true
        → q < length before.now }
    ensures found { OnOk result ((x : ℕ) → holds nat_eq x marks.new.nodes ≡ true → Reached
        (steps_to nat_eq (back_step closers.now before.now header)) header x) }
    ensures all { OnOk result ((x : ℕ) → Reached (steps_to nat_eq (back_step closers.now before.now header)) header x
        → holds nat_eq x marks.new.nodes ≡ true) }
    ensures distinct { OnOk result (Distinct nat_eq marks.new.nodes) }
    ensures below { OnOk result ((x : ℕ) → holds nat_eq x marks.new.nodes ≡ true → x < length before.now) }
    ensures size { OnOk result (marks.new.count ≡ length before.now) }
{
    let links = LoopLinks {
        closers,
        before,
        header,
    };
    mark_reached(alloc, &links, marks, header)
}

/// Adds a loop's number to those round a block.
fn add_one(around: &mut Vec<Items<u32>>, block: u32, number: u32) -> Result<(), LoopRefusal>
    requires { block < length around.old.items }
    ensures ok { OnOk result (RowMore around.old.items around.new.items block number) }
    ensures few { OnOk result (length (row_in around.old.items block) < 16) }
    ensures deep { IsErrOf result LoopRefusal.TooDeep → 16 ≤ length (row_in around.old.items block) }
    ensures never { IsErrOf result LoopRefusal.Irreducible → ⊥ }
{
    if around[block as usize].len() < 16 {
        add_to_row(around, block, number).map_err(|_| LoopRefusal::Memory)
    } else {
        Err(LoopRefusal::TooDeep)
    }
}

/// Adds a loop's number to those round each of its blocks.
fn add_loop(around: &mut Vec<Items<u32>>, marks: &Marks, number: u32) -> Result<(), LoopRefusal>
    requires inside { (q : ℕ) → holds nat_eq q marks.now.nodes ≡ true → q < length around.old.items }
    requires distinct { Distinct nat_eq marks.now.nodes }
    ensures size { OnOk result (length around.new.items ≡ length around.old.items) }
    ensures ok { OnOk result ((q : ℕ) → row_in around.new.items q ≡
        (if holds nat_eq q marks.now.nodes then row_in around.old.items q ++ number ∷ []
        else row_in around.old.items q)) }
    ensures few { OnOk result ((q : ℕ) → holds nat_eq q marks.now.nodes ≡ true → length
        (row_in around.old.items q) < 16) }
    ensures deep { IsErrOf result LoopRefusal.TooDeep → (q : ℕ) × (holds nat_eq q marks.now.nodes ≡ true) ×
        (16 ≤ length (row_in around.old.items q)) }
    ensures never { IsErrOf result LoopRefusal.Irreducible → ⊥ }
{
    for at in 0..marks.len() {
        add_one(around, marks.get(at), number)?;
    }
    Ok(())
}

/// The number at a place, or 0.
fn number_of(numbers: &[u32], block: u32) -> u32
    ensures { result ≡ slice_index_or numbers.now block 0 }
{
    match numbers.get(block as usize) {
        Some(number) => *number,
        None => 0,
    }
}

/// Adds the loop of the block at a place of the order, where it is a header.
fn add_around<G: FlowGraph>(
    alloc: Global,
    graph: &G,
    order: &[u32],
    headers: &[u32],
    numbers: &[u32],
    closers: &[Items<u32>],
    before: &[Items<u32>],
    marks: &mut Marks,
    around: &mut Vec<Items<u32>>,
    at: usize,
) -> Result<(), LoopRefusal>
    requires sources { AreSources (G.flow graph.now) closers.now before.now }
    requires all { AreAll (G.flow graph.now) order.now }
    requires numbered { AreNumbered closers.now (G.flow graph.now).count headers.now numbers.now }
    requires at { at < length order.now }
    requires marks { marks.old.count ≡ (G.flow graph.now).count }
    requires so_far { AreSoFar (G.flow graph.now) (closed_of closers.now) order.now headers.now at around.old.items }
    ensures marks { OnOk result (marks.new.count ≡ (G.flow graph.now).count) }
    ensures ok { OnOk result (AreSoFar (G.flow graph.now) (closed_of closers.now) order.now headers.now
        (at + 1) around.new.items) }
    ensures deep { IsErrOf result LoopRefusal.TooDeep → IsDeeper (G.flow graph.now) (closed_of closers.now) 16 }
    ensures never { IsErrOf result LoopRefusal.Irreducible → ⊥ }
{
    let block = listed_at(order, at);
    let number = number_of(numbers, block);
    if number == 0 {
        return Ok(());
    }
    mark_loop(alloc, closers, before, marks, block).map_err(|_| LoopRefusal::Memory)?;
    add_loop(around, marks, number)?;
    Ok(())
}

/// The numbers of the loops round each block, the outermost first.
pub fn chains<G: FlowGraph>(
    alloc: Global,
    graph: &G,
    order: &[u32],
    headers: &[u32],
    numbers: &[u32],
    closers: &[Items<u32>],
    before: &[Items<u32>],
) -> Result<Vec<Items<u32>>, LoopRefusal>
    requires sources { AreSources (G.flow graph.now) closers.now before.now }
    requires all { AreAll (G.flow graph.now) order.now }
    requires numbered { AreNumbered closers.now (G.flow graph.now).count headers.now numbers.now }
    ensures ok { IfOk result (λ v. AreSoFar (G.flow graph.now) (closed_of closers.now) order.now headers.now
        (length order.now) v.items) }
    ensures deep { IsErrOf result LoopRefusal.TooDeep → IsDeeper (G.flow graph.now) (closed_of closers.now) 16 }
    ensures never { IsErrOf result LoopRefusal.Irreducible → ⊥ }
{
    let mut around = empty_rows(alloc, graph.count()).map_err(|_| LoopRefusal::Memory)?;
    let mut marks = Marks::new(alloc, graph.count() as usize).map_err(|_| LoopRefusal::Memory)?;
    for at in 0..order.len() {
        add_around(
            alloc,
            graph,
            order,
            headers,
            numbers,
            closers,
            before,
            &mut marks,
            &mut around,
            at,
        )?;
    }
    Ok(around)
}
