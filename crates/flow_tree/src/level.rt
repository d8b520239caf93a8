//! A level between two of its ends: its plan, and the trees that the plan stands for.
ghost use Rattle.std.specs.Prelude.{◌≡◌, ◌∷◌, ℕ, IfOk, IsErrOf};
ghost use Rattle.tree_law.specs.Levels.{IsEnd, Nest};
ghost use Rattle.elimination_plans.specs.Plans.{Extends};
ghost use Rattle.elimination_plans.specs.Stages.{Task, EndsApart, tree_members};
ghost use Rattle.node_elimination.specs.Cells.{node_cell};
ghost use Rattle.node_elimination.specs.LevelPlans.{IsPast, IsPlanOf};
ghost use Rattle.node_elimination.specs.LevelStates.{IsTask};
ghost use Rattle.wsym_terms.specs.declared.trees.Tree.TheVariants.{Seq};
ghost use Rattle.flow_tree.specs.LevelNumbers.{IsLevelOf, IsTaskOf, loop_cell, tree_for};
ghost use Rattle.flow_tree.specs.FlowTables.{tree_of_loop};
ghost use Rattle.flow_tree.specs.LevelTasks.{task_of};
ghost use Rattle.flow_tree.specs.declared.tables.LevelRows.{LevelRows as LevelRowsValue};

use crate::nodes::LevelNodes;
use crate::tables::{LevelRows, LoopTree, PathRows, header_of};
use elimination_plans::{Nodes, members_between};
use node_elimination::{Cell, LevelPlan, TreeRefusal, eliminate, plus};
use sqlite_items::{Boxed, Items};
use std::alloc::{AllocError, Global};
use wsym_terms::Tree;

/// The plan of a level between two of its ends; it is too large where one of its nodes is.
pub fn plan_between(
    alloc: Global,
    nodes: &LevelNodes,
    rows: &PathRows,
    from: u32,
    to: u32,
) -> Result<LevelPlan, TreeRefusal>
    ensures planned { IfOk result (λ p. (k : Task) (rank : ℕ → ℕ) → IsTask k rank → IsTaskOf nodes.now rows.now k
        → k.from ≡ from → k.to ≡ to → IsPlanOf k p) }
    ensures large { IsErrOf result TreeRefusal.TooLarge → (k : Task) (rank : ℕ → ℕ) → IsTask k rank
        → IsTaskOf nodes.now rows.now k → k.from ≡ from → k.to ≡ to → IsPast k }
{
    if nodes.has_large(rows.nodes.as_slice()) {
        return Err(TreeRefusal::TooLarge);
    }
    let Ok(cells) = nodes.cells(alloc, rows.nodes.as_slice()) else {
        return Err(TreeRefusal::Memory);
    };
    eliminate(
        alloc,
        cells,
        rows.edges.as_slice(),
        rows.nodes.as_slice(),
        from,
        to,
    )
}

/// The trees between two ends of a level that is planned.
pub fn trees_between<N: Nodes>(
    alloc: Global,
    plan: &LevelPlan,
    nodes: &N,
    from: u32,
    to: u32,
) -> Result<Items<Tree>, AllocError>
    requires planned { (k : Task) × IsPlanOf k plan.now × EndsApart k }
    ensures { IfOk result (λ ts. (k : Task) → IsPlanOf k plan.now → EndsApart k → Extends (N.tree nodes.now) k.tree
        → k.from ≡ from → k.to ≡ to → ts ≡ tree_members k) }
{
    let made = members_between(alloc, &plan.plan, nodes, from, to)?;
    Ok(made)
}

/// The header's tree and those between it and an end, one after another.
pub fn part(
    alloc: Global,
    plan: &LevelPlan,
    nodes: &LevelNodes,
    from: u32,
    to: u32,
) -> Result<Tree, AllocError>
    requires planned { (k : Task) × IsPlanOf k plan.now × EndsApart k }
    ensures { IfOk result (λ t. (k : Task) → IsPlanOf k plan.now → EndsApart k
        → Extends (tree_for nodes.now) k.tree
        → k.from ≡ from → k.to ≡ to → t ≡ Seq (k.tree from ∷ tree_members k)) }
{
    let mut made = Items::new(alloc);
    made.push(nodes.tree_of(alloc, from)?)?;
    made.append(trees_between(alloc, plan, nodes, from, to)?)?;
    Ok(Tree::Seq(made))
}

/// The numbers of a loop's tree.
fn loop_numbers(header: Cell, body: Cell, exit: Cell) -> Result<Cell, AllocError>
    ensures { IfOk result (λ c. c ≡ loop_cell header body exit) }
{
    let first = plus(header.leaves, body.leaves)?;
    let second = plus(header.leaves, exit.leaves)?;
    let leaves = plus(first, second)?;
    let turn = plus(1, plus(1, plus(header.size, body.size)?)?)?;
    let way_out = plus(1, plus(header.size, exit.size)?)?;
    let size = plus(turn, way_out)?;
    let deep = plus(1, header.depth.max(body.depth))?;
    let deep_out = plus(1, header.depth.max(exit.depth))?;
    let depth = plus(1, deep.max(deep_out))?;
    Ok(Cell {
        count: 1,
        leaves,
        size,
        depth,
    })
}

/// The tree of a loop whose level is planned.
fn loop_from(
    alloc: Global,
    nodes: &LevelNodes,
    header: u32,
    turns: &LevelPlan,
    leaves: &LevelPlan,
) -> Result<LoopTree, AllocError>
    requires turning { (k : Task) × IsPlanOf k turns.now × EndsApart k }
    requires leaving { (k : Task) × IsPlanOf k leaves.now × EndsApart k }
    ensures { IfOk result (λ t. (n : Nest) (height : ℕ → ℕ) (rank : ℕ → ℕ → ℕ) (rows : LevelRowsValue)
        → IsLevelOf n height rank nodes.now rows → (n.level nodes.now.level).header ≡ header
        → IsPlanOf (task_of n height nodes.now.level nodes.now.close) turns.now
        → IsPlanOf (task_of n height nodes.now.level nodes.now.leave) leaves.now
        → (t.tree ≡ tree_of_loop n height nodes.now.level)
        × (t.cell ≡ node_cell (tree_of_loop n height nodes.now.level))) }
{
    let cell = loop_numbers(nodes.cell_of(header)?, turns.measures, leaves.measures)?;
    let body = Boxed::new(alloc, part(alloc, turns, nodes, header, nodes.close)?)?;
    let exit = Boxed::new(alloc, part(alloc, leaves, nodes, header, nodes.leave)?)?;
    let tree = Tree::Loop {
        id: nodes.level,
        body,
        exit,
    };
    Ok(LoopTree { tree, cell })
}

/// The tree of the loop of a level.
pub fn loop_of(alloc: Global, nodes: &LevelNodes, rows: &LevelRows) -> Result<LoopTree, TreeRefusal>
    requires described { (n : Nest) × (height : ℕ → ℕ) × (rank : ℕ → ℕ → ℕ)
        × IsLevelOf n height rank nodes.now rows.now }
    ensures made { IfOk result (λ t. (n : Nest) (height : ℕ → ℕ) (rank : ℕ → ℕ → ℕ)
        → IsLevelOf n height rank nodes.now rows.now → (t.tree ≡ tree_of_loop n height nodes.now.level)
        × (t.cell ≡ node_cell (tree_of_loop n height nodes.now.level))) }
    ensures large { IsErrOf result TreeRefusal.TooLarge → (n : Nest) (height : ℕ → ℕ) (rank : ℕ → ℕ → ℕ)
        → IsLevelOf n height rank nodes.now rows.now → (t : ℕ) × IsEnd (n.level nodes.now.level) t
        × IsPast (task_of n height nodes.now.level t) }
{
    let header = header_of(nodes.nest, nodes.count, nodes.level);
    let turns = match plan_between(alloc, nodes, &rows.turns, header, nodes.close) {
        Ok(plan) => plan,
        Err(refusal) => return Err(refusal),
    };
    let leaves = match plan_between(alloc, nodes, &rows.leaves, header, nodes.leave) {
        Ok(plan) => plan,
        Err(refusal) => return Err(refusal),
    };
    match loop_from(alloc, nodes, header, &turns, &leaves) {
        Ok(made) => Ok(made),
        Err(_) => Err(TreeRefusal::Memory),
    }
}
