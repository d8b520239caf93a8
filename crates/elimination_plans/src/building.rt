//! The trees of a level from its plan.
ghost use Rattle.std.specs.Prelude.{◌≡◌, ◌≤◌, ◌<◌, ◌+◌, max, ◌++◌, ◌∷◌, [], ℕ, List, IfOk, OnOk, map, Option, Some};
ghost use Rattle.wsym_terms.specs.declared.trees.Tree.{Tree as TreeValue};
ghost use Rattle.wsym_terms.specs.declared.trees.Tree.TheVariants.{Seq};
ghost use Rattle.tree_law.specs.Ways.{members as members_of};
ghost use Rattle.elimination_plans.specs.Plans.{via, node_of_plan, stacked, Extends, Unrolls, Falls, effort, efforts};
ghost use Rattle.elimination_plans.specs.Plans.{high};
ghost use Rattle.elimination_plans.specs.Plans.{top};
ghost use Rattle.elimination_plans.specs.Stages.{Task, Stage, IsDone, EndsApart, tree_members};

use crate::plans::{Piece, Plan, spread};
use sqlite_items::Items;
use std::alloc::{AllocError, Global};
use wsym_terms::Tree;

/// The nodes of a level.
pub trait Nodes {
    /// The trees of the nodes that have one.
    ghost tree: { Self → ℕ → Option TreeValue };

    /// The tree of a node.
    fn tree_of(&self, alloc: Global, node: u32) -> Result<Tree, AllocError>
        ensures { IfOk result (λ t. tree self.now node ≡ Some t) };
}

/// The members of an edge of a level.
pub fn members<N: Nodes>(
    alloc: Global,
    plan: &Plan,
    nodes: &N,
    from: u32,
    to: u32,
) -> Result<Items<Tree>, AllocError>
    requires falls { Falls (node_of_plan plan.now) (via plan.now) }
    ensures { IfOk result (λ ts. (tree : ℕ → TreeValue) (F : ℕ → ℕ → List (List TreeValue))
        → Extends (N.tree nodes.now) tree
        → Unrolls tree (node_of_plan plan.now) (via plan.now) F → ts ≡ members_of (F from to)) }
{
    let mut stack = Vec::new(alloc);
    stack.push(Piece::Edge { from, to })?;
    let made = run(alloc, plan, nodes, stack)?;
    Ok(made)
}

/// The members between the ends of a level whose nodes are all taken out.
pub fn members_between<N: Nodes>(
    alloc: Global,
    plan: &Plan,
    nodes: &N,
    from: u32,
    to: u32,
) -> Result<Items<Tree>, AllocError>
    requires falls { Falls (node_of_plan plan.now) (via plan.now) }
    ensures { IfOk result (λ ts. (k : Task) (s : Stage) → IsDone k s → EndsApart k → Extends (N.tree nodes.now) k.tree
        → k.from ≡ from → k.to ≡ to → via plan.now ≡ s.plan → plan.now.order ≡ s.taken → ts ≡ tree_members k) }
{
    let made = members(alloc, plan, nodes, from, to)?;
    Ok(made)
}

/// The trees that a stack of parts stands for.
#[cycle(run)]
fn run<N: Nodes>(
    alloc: Global,
    plan: &Plan,
    nodes: &N,
    stack: Vec<Piece>,
) -> Result<Items<Tree>, AllocError>
    requires falls { Falls (node_of_plan plan.now) (via plan.now) }
    ensures { IfOk result (λ ts. (tree : ℕ → TreeValue) (F : ℕ → ℕ → List (List TreeValue))
        → Extends (N.tree nodes.now) tree
        → Unrolls tree (node_of_plan plan.now) (via plan.now) F
        → ts ≡ stacked tree F stack.items) }
{
    let mut stack = stack;
    let mut made = Items::new(alloc);
    while let Some(piece) = stack.pop() {
        match piece {
            Piece::Edge { from, to } => unfold(
                alloc, plan, nodes, from, to, &mut stack, &mut made,
            )?,
            Piece::Node(node) => made.push(nodes.tree_of(alloc, node)?)?,
        }
    }
    Ok(made)
}

/// Makes the members of an edge, or puts their parts on the stack where it has one way.
#[cycle(run)]
fn unfold<N: Nodes>(
    alloc: Global,
    plan: &Plan,
    nodes: &N,
    from: u32,
    to: u32,
    stack: &mut Vec<Piece>,
    made: &mut Items<Tree>,
) -> Result<(), AllocError>
    requires falls { Falls (node_of_plan plan.now) (via plan.now) }
    ensures lower { OnOk result (efforts (via plan.now) stack.new.items < effort (top (via plan.now from to)) +
        efforts (via plan.now) stack.old.items) }
    ensures low { OnOk result (high (via plan.now) stack.new.items ≤ max (top (via plan.now from to))
        (high (via plan.now) stack.old.items)) }
    ensures made { OnOk result ((tree : ℕ → TreeValue) (F : ℕ → ℕ → List (List TreeValue))
        → Extends (N.tree nodes.now) tree
        → Unrolls tree (node_of_plan plan.now) (via plan.now) F
        → made.new ++ stacked tree F stack.new.items ≡ made.old ++ members_of (F from to) ++ stacked tree F
        stack.old.items) }
{
    let ways = plan.ways_of(from, to);
    if ways.len() > 1 {
        made.push(Tree::Alt(choices(alloc, plan, nodes, from, to)?))?;
    } else {
        if ways.len() > 0 {
            spread(plan, stack, from, to, ways[0])?;
        }
    }
    Ok(())
}

/// The ways of an edge as choices.
#[cycle(run)]
fn choices<N: Nodes>(
    alloc: Global,
    plan: &Plan,
    nodes: &N,
    from: u32,
    to: u32,
) -> Result<Items<Tree>, AllocError>
    requires falls { Falls (node_of_plan plan.now) (via plan.now) }
    ensures { IfOk result (λ ts. (tree : ℕ → TreeValue) (F : ℕ → ℕ → List (List TreeValue))
        → Extends (N.tree nodes.now) tree
        → Unrolls tree (node_of_plan plan.now) (via plan.now) F → ts ≡ map Seq (F from to)) }
{
    let mut made = Items::new(alloc);
    for entry in plan.ways_of(from, to) {
        let mut stack = Vec::new(alloc);
        spread(plan, &mut stack, from, to, *entry)?;
        made.push(Tree::Seq(run(alloc, plan, nodes, stack)?))?;
    }
    Ok(made)
}
