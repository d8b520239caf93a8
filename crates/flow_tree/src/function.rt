//! The tree of a function, from the deepest loops up.
ghost use Rattle.std.specs.Prelude.{◌≡◌, ◌<◌, ◌≤◌, ℕ, suc, IfOk, IsErrOf, OnOk};
ghost use Rattle.tree_law.specs.Levels.{Nest, function_tree as tree_of_nest};
ghost use Rattle.wsym_terms.specs.Trees.{size_of};
ghost use Rattle.wsym_terms.specs.TreeNesting.{tree_nesting};
ghost use Rattle.flow_tree.specs.Descriptions.{AreLarge, AreMade, HasNest, IsDescribed, IsTooLarge};

use crate::level::{loop_of, plan_between, trees_between};
use crate::nodes::LevelNodes;
use crate::tables::{FlowTables, LoopTree, header_of};
use node_elimination::{DEEPEST, MOST, TreeRefusal};
use std::alloc::{AllocError, Global};
use std::collections::BTreeSet;
use wsym_terms::Tree;

/// Makes the tree of a loop, where those of the loops inside it are made, or puts it among those that are too large.
fn make_loop(
    alloc: Global,
    tables: &FlowTables,
    trees: &mut Vec<Option<LoopTree>>,
    large: &mut BTreeSet<u32>,
    number: u32,
) -> Result<(), AllocError>
    requires described { HasNest tables.now }
    requires old { AreMade tables.now trees.old.items }
    requires past { AreLarge tables.now large.old }
    ensures made { AreMade tables.now trees.new.items }
    ensures large { OnOk result (AreLarge tables.now large.new) }
{
    let Some(rows) = tables.levels.get(number as usize) else {
        return Err(AllocError);
    };
    if number as usize >= trees.len() {
        return Err(AllocError);
    }
    let nodes = LevelNodes {
        nest: tables.nest,
        count: tables.count,
        blocks: tables.blocks,
        trees: trees.as_slice(),
        large: &*large,
        level: number,
        close: tables.close,
        leave: tables.leave,
    };
    match loop_of(alloc, &nodes, rows) {
        Ok(made) => {
            trees[number as usize] = Some(made);
            Ok(())
        }
        Err(TreeRefusal::TooLarge) => {
            large.insert(number)?;
            Ok(())
        }
        Err(TreeRefusal::Memory) => Err(AllocError),
    }
}

/// Makes the trees of the loops of a depth.
fn make_depth(
    alloc: Global,
    tables: &FlowTables,
    trees: &mut Vec<Option<LoopTree>>,
    large: &mut BTreeSet<u32>,
    depth: u32,
) -> Result<(), AllocError>
    requires described { HasNest tables.now }
    requires old { AreMade tables.now trees.old.items }
    requires past { AreLarge tables.now large.old }
    ensures made { AreMade tables.now trees.new.items }
    ensures large { OnOk result (AreLarge tables.now large.new) }
{
    let mut number = 0u32;
    for info in tables.nest.loops.as_slice() {
        if number == u32::MAX {
            return Err(AllocError);
        }
        number += 1;
        if info.depth == depth {
            make_loop(alloc, tables, trees, large, number)?;
        }
    }
    Ok(())
}

/// A table without trees, with a place for each loop and one for the whole function.
fn no_trees(alloc: Global, tables: &FlowTables) -> Result<Vec<Option<LoopTree>>, AllocError>
    ensures { IfOk result (λ v. AreMade tables.now v.items) }
{
    let mut made = Vec::new(alloc);
    made.push(None)?;
    for _loop in tables.nest.loops.as_slice() {
        made.push(None)?;
    }
    Ok(made)
}

/// The tree of the whole function, where those of all loops are made.
fn whole(
    alloc: Global,
    tables: &FlowTables,
    trees: &[Option<LoopTree>],
    large: &BTreeSet<u32>,
) -> Result<Tree, TreeRefusal>
    requires described { HasNest tables.now }
    requires made { AreMade tables.now trees.now }
    requires past { AreLarge tables.now large.now }
    ensures exact { IfOk result (λ t. (n : Nest) (height : ℕ → ℕ) (rank : ℕ → ℕ → ℕ)
        → IsDescribed tables.now n height rank → (t ≡ tree_of_nest n (suc (height 0)))
        × (size_of t ≤ 500000) × (tree_nesting t ≤ 1000)) }
    ensures large { IsErrOf result TreeRefusal.TooLarge → (n : Nest) (height : ℕ → ℕ) (rank : ℕ → ℕ → ℕ)
        → IsDescribed tables.now n height rank → IsTooLarge (tree_of_nest n (suc (height 0))) }
{
    let Some(rows) = tables.levels.get(0) else {
        return Err(TreeRefusal::Memory);
    };
    let nodes = LevelNodes {
        nest: tables.nest,
        count: tables.count,
        blocks: tables.blocks,
        trees,
        large,
        level: 0,
        close: tables.close,
        leave: tables.leave,
    };
    let header = header_of(tables.nest, tables.count, 0);
    let plan = match plan_between(alloc, &nodes, &rows.leaves, header, tables.leave) {
        Ok(plan) => plan,
        Err(refusal) => return Err(refusal),
    };
    if plan.measures.size >= MOST {
        return Err(TreeRefusal::TooLarge);
    }
    if plan.measures.depth >= DEEPEST {
        return Err(TreeRefusal::TooLarge);
    }
    let Ok(made) = trees_between(alloc, &plan, &nodes, header, tables.leave) else {
        return Err(TreeRefusal::Memory);
    };
    Ok(Tree::Seq(made))
}

/// The control-flow tree of a function whose levels are given as tables.
///
/// # Errors
///
/// `TooLarge` exactly where the tree's size passes 500,000 or its nesting 1,000; it comes before such a tree is made.
/// A loop that isn't in the tree, since no path from its header leads out of the function, may be as large as it likes.
pub fn function_tree(alloc: Global, tables: &FlowTables) -> Result<Tree, TreeRefusal>
    requires described { HasNest tables.now }
    ensures exact { IfOk result (λ t. (n : Nest) (height : ℕ → ℕ) (rank : ℕ → ℕ → ℕ)
        → IsDescribed tables.now n height rank → (t ≡ tree_of_nest n (suc (height 0)))
        × (size_of t ≤ 500000) × (tree_nesting t ≤ 1000)) }
    ensures large { IsErrOf result TreeRefusal.TooLarge → (n : Nest) (height : ℕ → ℕ) (rank : ℕ → ℕ → ℕ)
        → IsDescribed tables.now n height rank → IsTooLarge (tree_of_nest n (suc (height 0))) }
{
    let Ok(none) = no_trees(alloc, tables) else {
        return Err(TreeRefusal::Memory);
    };
    let mut trees = none;
    let mut large = BTreeSet::new(alloc);
    for step in 0..16u32 {
        let Ok(()) = make_depth(alloc, tables, &mut trees, &mut large, 16 - step) else {
            return Err(TreeRefusal::Memory);
        };
    }
    whole(alloc, tables, trees.as_slice(), &large)
}
