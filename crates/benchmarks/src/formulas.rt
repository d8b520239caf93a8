//! Formulas: `formulas tree shared|different LEAVES TIMES` makes the formula of a tree of alternatives of two leaves
//! each, all alike or all different, that many times; `value` asks that formula for its value, and `simplify` for its
//! normal form. `none` makes the tree alone. The result is the number of nodes of the formula.

use crate::words::{number, small_number, word};
use anyhow::bail;
use simplifier::simplify;
use sqlite_items::Items;
use std::alloc::{AllocError, Global};
use wsym_formula::{Shared, from_tree, has_few_counts, value};
use wsym_terms::{Bound, Tree};

/// The cycles of a miss.
const MISS: u64 = 10;

/// A leaf of a block of that many cycles.
fn leaf(alloc: Global, block: u32, base: u32) -> Tree {
    Tree::Leaf {
        block: block,
        base: u128::from(base),
        uses: Items::new(alloc),
    }
}

/// Alternatives one after another: each of two leaves.
fn tree_of(alloc: Global, shape: &str, leaves: u32) -> Result<Tree, AllocError> {
    let mut members = Items::new(alloc);
    for at in 0..leaves / 2 {
        let base = if shape == "shared" {
            0
        } else {
            at.wrapping_mul(2)
        };
        let mut choices = Items::new(alloc);
        choices.push(leaf(alloc, at, base.wrapping_add(1)))?;
        choices.push(leaf(alloc, at, base.wrapping_add(2)))?;
        members.push(Tree::Alt(choices))?;
    }
    Ok(Tree::Seq(members))
}

/// Does the work with a formula once, and gives the number of nodes of the last one.
fn worked(alloc: Global, work: &str, formula: Shared) -> anyhow::Result<u32> {
    let no_bounds: Items<Bound> = Items::new(alloc);
    if formula.nodes() == 0 {
        bail!("no formula");
    }
    if work == "value" {
        if !has_few_counts(alloc, &formula)? {
            bail!("too many counts");
        }
        let _cost = value(alloc, &formula, &no_bounds, &[])?;
    }
    if work == "simplify" {
        return Ok(simplify(alloc, formula, &no_bounds)?.nodes());
    }
    Ok(formula.nodes())
}

/// The number of nodes of the last formula.
pub(crate) fn done(alloc: Global, words: &[String]) -> anyhow::Result<String> {
    let work = word(words, 1);
    let tree = tree_of(alloc, word(words, 2), small_number(words, 3)?)?;
    let times = number(words, 4)?;
    let mut nodes = 0;
    if work != "none" {
        for _ in 0..times {
            let formula = from_tree(alloc, &tree, MISS)?;
            nodes = worked(alloc, work, formula)?;
        }
    }
    Ok(format!(in alloc; "{nodes}")?)
}
