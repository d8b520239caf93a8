//! A level whose nodes are all taken out, or the refusal of one whose tree is too large.
ghost use Rattle.std.specs.Prelude.{◌≡◌, ◌<◌, ◌⊎◌, ℕ, IfOk, IsErrOf};
ghost use Rattle.elimination_plans.specs.Stages.{Task};
ghost use Rattle.node_elimination.specs.GivenLevels.{IsGiven};
ghost use Rattle.node_elimination.specs.LevelPlans.{IsFinished, IsPast, IsPlanOf};
ghost use Rattle.node_elimination.specs.LevelStates.{IsTask};

use crate::cells::Cell;
use crate::starting::start;
use crate::taking::{Elimination, MOST, TreeRefusal};
use elimination_plans::Plan;
use std::alloc::Global;

/// How deep a tree may nest.
pub const DEEPEST: u64 = 1000;

/// A level whose nodes are all taken out: its plan, and the numbers of what stands between its ends.
#[derive(Drop)]
pub struct LevelPlan {
    pub plan: Plan,
    pub measures: Cell,
}

/// The plan of a level that is done, unless its trees are too large.
fn finish(level: Elimination, measures: Cell) -> Result<LevelPlan, TreeRefusal>
    ensures planned { IfOk result (λ p. IsFinished level measures p) }
    ensures large { IsErrOf result TreeRefusal.TooLarge → (500000 < measures.size) ⊎ (1000 < measures.depth) }
{
    if measures.size > MOST {
        return Err(TreeRefusal::TooLarge);
    }
    if measures.depth > DEEPEST {
        return Err(TreeRefusal::TooLarge);
    }
    let Elimination {
        table: _,
        plan,
        nodes: _,
    } = level;
    Ok(LevelPlan { plan, measures })
}

/// Takes out all nodes between two ends of a level, where the numbers of the nodes' trees, the edges and the nodes are
/// given.
///
/// # Errors
///
/// `TooLarge` exactly where what is left between the ends has a size of more than 500,000 or nests deeper than 1,000;
/// no tree is made to find it out.
pub fn eliminate(
    alloc: Global,
    cells: Vec<Cell>,
    edges: &[(u32, u32)],
    nodes: &[u32],
    from: u32,
    to: u32,
) -> Result<LevelPlan, TreeRefusal>
    ensures planned { IfOk result (λ p. (k : Task) (rank : ℕ → ℕ) → IsTask k rank
        → IsGiven k cells.items edges.now nodes.now → k.from ≡ from → k.to ≡ to → IsPlanOf k p) }
    ensures large { IsErrOf result TreeRefusal.TooLarge → (k : Task) (rank : ℕ → ℕ) → IsTask k rank
        → IsGiven k cells.items edges.now nodes.now → k.from ≡ from → k.to ≡ to → IsPast k }
{
    let Ok(begun) = start(alloc, cells, edges, nodes) else {
        return Err(TreeRefusal::Memory);
    };
    let mut level = begun;
    match level.take_out_all(alloc) {
        Ok(()) => {}
        Err(refusal) => return Err(refusal),
    }
    let Ok(measures) = level.measures(from, to) else {
        return Err(TreeRefusal::Memory);
    };
    finish(level, measures)
}
