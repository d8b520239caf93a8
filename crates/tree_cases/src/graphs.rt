//! The trees of graphs with loops.

ghost use Rattle.std.specs.Prelude.{◌≡◌, ◌<◌, ℕ, List, [], Bool, true, Some, length, nat_eq, slice_get, IfOk};
ghost use Rattle.graph_search.specs.Flows.{edge, flow_of, leads};
ghost use Rattle.graph_search.specs.NodeLists.{holds};
ghost use Rattle.graph_search.specs.Walks.{Reached};
ghost use Rattle.wsym_terms.specs.declared.trees.BlockUses.{BlockUses as BlockUsesValue};

use graph_search::{NodeList, RowLinks, SuccessorRows, add_to_row, empty_rows, is_bounded, reach};
use interval_loops::{LoopRefusal, loops};
use level_tables::tree;
use node_elimination::TreeRefusal;
use sqlite_items::Items;
use std::alloc::{AllocError, Global};
use std::fmt::Write;
use wsym_terms::{BlockUses, Tree};

/// The successors of each block, by the edges of a line; an edge from a number that is no block is left out.
fn rows_of(alloc: Global, count: u32, edges: &str) -> Result<Vec<Items<u32>>, AllocError> {
    let mut rows = empty_rows(alloc, count)?;
    for edge in edges.split(' ') {
        if let Some((from, to)) = edge.split_once('>') {
            let from = crate::number(Some(from));
            if (from as usize) < rows.len() {
                add_to_row(&mut rows, from, crate::number(Some(to)))?;
            }
        }
    }
    Ok(rows)
}

/// Whether control leaves from each block, by the numbers of those from which it does.
fn returns_of(alloc: Global, count: u32, numbers: &str) -> Result<Items<bool>, AllocError> {
    let mut flags = std::vec![in alloc; false; count as usize]?;
    for word in numbers.split(',') {
        let block = crate::number(Some(word)) as usize;
        if block < flags.len() {
            flags[block] = true;
        }
    }
    Ok(Items::from_vec(flags))
}

/// Whether a list has all numbers below a count.
fn has_all(found: &NodeList, count: u32) -> bool
    ensures { result ≡ true → (b : ℕ) → b < count → holds nat_eq b found.now ≡ true }
{
    for block in 0..count {
        if !found.contains(block) {
            return false;
        }
    }
    true
}

/// Whether all blocks are reached from the entry.
fn are_reached(alloc: Global, rows: &[Items<u32>], entry: u32) -> Result<bool, AllocError>
    requires { length rows.now < 4294967296 }
    ensures { IfOk result (λ all. all ≡ true → (returns : List Bool) (b : ℕ) → b < length rows.now → Reached
        (leads (edge (flow_of (record { rows = rows.now; entry = entry; returns = returns })))) entry b) }
{
    match reach(alloc, &RowLinks { rows }, entry, usize::MAX) {
        Ok(found) => Ok(has_all(&found, rows.len() as u32)),
        Err(_) => Err(AllocError),
    }
}

/// A leaf without uses for each block.
fn leaves(alloc: Global, count: usize) -> Result<Vec<BlockUses>, AllocError>
    ensures { IfOk result (λ v. (length v.items ≡ count) × ((b : ℕ) (u : BlockUsesValue) → slice_get v.items b ≡ Some u
        → u.uses ≡ [])) }
{
    let mut uses = Vec::new(alloc);
    for _block in 0..count {
        uses.push(BlockUses {
            base: 1,
            uses: Items::new(alloc),
        })?;
    }
    Ok(uses)
}

/// Writes a tree.
#[cycle(trees)]
fn push_tree(out: &mut String, tree: &Tree) -> Result<(), AllocError> {
    match tree {
        Tree::Leaf {
            block,
            base,
            uses: _,
        } => {
            write!(out, "(leaf {block} {base})")?;
            Ok(())
        }
        Tree::Seq(members) => {
            out.push_str("(seq")?;
            push_trees(out, members.as_slice())?;
            out.push_str(")")?;
            Ok(())
        }
        Tree::Alt(choices) => {
            out.push_str("(alt")?;
            push_trees(out, choices.as_slice())?;
            out.push_str(")")?;
            Ok(())
        }
        Tree::Loop { id, body, exit } => {
            write!(out, "(loop {id} ")?;
            push_tree(out, body.get())?;
            out.push_str(" ")?;
            push_tree(out, exit.get())?;
            out.push_str(")")?;
            Ok(())
        }
    }
}

/// Writes a space and a tree for each tree.
#[cycle(trees)]
fn push_trees(out: &mut String, trees: &[Tree]) -> Result<(), AllocError> {
    for tree in trees {
        out.push_str(" ")?;
        push_tree(out, tree)?;
    }
    Ok(())
}

/// The tree of a graph, or what it lacks.
fn tree_in(alloc: Global, graph: &SuccessorRows, uses: &[BlockUses]) -> Result<Tree, &'static str>
    requires reached { (b : ℕ) → b < length graph.now.rows
        → Reached (leads (edge (flow_of graph.now))) graph.now.entry b }
    requires all { length uses.now ≡ length graph.now.rows }
    requires none { (b : ℕ) (u : BlockUsesValue) → slice_get uses.now b ≡ Some u → u.uses ≡ [] }
{
    if !is_bounded(graph) {
        return Err("an edge to no block");
    }
    let nest = match loops(alloc, graph) {
        Ok(nest) => nest,
        Err(LoopRefusal::Irreducible) => return Err("irreducible"),
        Err(LoopRefusal::TooDeep) => return Err("too deep"),
        Err(LoopRefusal::Memory) => return Err("memory"),
    };
    match tree(alloc, graph, &nest, uses) {
        Ok(tree) => Ok(tree),
        Err(TreeRefusal::TooLarge) => Err("too large"),
        Err(TreeRefusal::Memory) => Err("memory"),
    }
}

/// What stands in the output for a graph.
pub fn tree_text(
    alloc: Global,
    count: u32,
    entry: u32,
    returns: &str,
    edges: &str,
) -> Result<String, AllocError> {
    let mut text = String::new(alloc);
    let rows = rows_of(alloc, count, edges)?;
    if rows.len() >= 1 << 32 {
        return Err(AllocError);
    }
    if !are_reached(alloc, rows.as_slice(), entry)? {
        text.push_str("not reached")?;
        return Ok(text);
    }
    let uses = leaves(alloc, rows.len())?;
    let returns = returns_of(alloc, count, returns)?;
    let graph = SuccessorRows::new(Items::from_vec(rows), entry, returns);
    match tree_in(alloc, &graph, uses.as_slice()) {
        Ok(tree) => push_tree(&mut text, &tree)?,
        Err(lack) => text.push_str(lack)?,
    }
    Ok(text)
}
