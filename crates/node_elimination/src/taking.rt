//! Takes the nodes of a level out, each by its weight, from numbers alone.
ghost use Rattle.std.specs.Prelude.{◌≡◌, ◌≢◌, ◌<◌, ◌+◌, ◌*◌, ◌++◌, ◌∷◌, [], ℕ, suc, List, Bool, true, false};
ghost use Rattle.std.specs.Prelude.{if◌then◌else◌, ◌&&◌, Option, Some, None, is_some, length, IfOk, OnOk, IsErrOf};
ghost use Rattle.std.specs.Prelude.{IfSome, IfNone};
ghost use Rattle.elimination_plans.specs.AddedWays.{listed};
ghost use Rattle.elimination_plans.specs.Stages.{Task, Stage, Went, IsDone, IsLarge, first_stage};
ghost use Rattle.node_elimination.specs.declared.cells.Cell.{Cell as CellValue};
ghost use Rattle.node_elimination.specs.Cells.{AreIn, cells_step, firsts};
ghost use Rattle.node_elimination.specs.LevelStates.{IsTask, IsStage, Holds, cell_at};
ghost use Rattle.node_elimination.specs.Measures.{AreMeasures};
ghost use Rattle.node_elimination.specs.Tables.{Gains, Keeps, sums_at};

use crate::cells::{Cell, depth_of_members, size_of_members};
use crate::table::Table;
use elimination_plans::{Plan, add_all};
use std::alloc::{AllocError, Global};

/// Why a tree isn't made: there is no memory, or it is larger or nests deeper than a tree may.
#[derive(Clone, Copy, Debug, PartialEq, Eq)]
pub enum TreeRefusal {
    Memory,
    TooLarge,
}

/// The greatest size of a tree.
pub const MOST: u64 = 500000;

/// A level whose nodes are taken out: its edges, the plan as it grows, and the numbers of the nodes' trees.
#[derive(Drop)]
pub struct Elimination {
    pub table: Table,
    pub plan: Plan,
    pub nodes: Vec<Cell>,
}

/// The nodes of some edges.
fn firsts_of(alloc: Global, list: &[(u32, Cell)]) -> Result<Vec<u32>, AllocError>
    ensures { IfOk result (λ v. v.items ≡ firsts list.now) }
{
    let mut made = Vec::new(alloc);
    for each in list {
        made.push(each.0)?;
    }
    Ok(made)
}

/// Whether the new ways are more than a tree may have.
fn are_many(ins: u64, outs: u64, size: u64) -> bool
    ensures { result ≡ true → 500000 < ins * (outs * size) }
{
    let ways = (outs as u128) * (size as u128);
    match (ins as u128).checked_mul(ways) {
        Some(all) => all > MOST as u128,
        None => false,
    }
}

impl Elimination {
    /// The numbers of a node's tree.
    fn node(&self, node: u32) -> Cell
        ensures { result ≡ cell_at self.now.nodes.items node }
    {
        match self.nodes.get(node as usize) {
            Some(cell) => *cell,
            None => Cell {
                count: 0,
                leaves: 0,
                size: 0,
                depth: 0,
            },
        }
    }

    /// The number of the ways through the node that comes next.
    fn entry(&self) -> Result<u32, AllocError>
        ensures { IfOk result (λ n. n ≡ suc (length self.now.plan.order)) }
    {
        let places = self.plan.order.len();
        if places >= 4294967295 {
            return Err(AllocError);
        }
        Ok(places as u32 + 1)
    }

    /// Takes a node out.
    fn take_out(&mut self, alloc: Global, node: u32) -> Result<(), AllocError>
        ensures table { OnOk result ((all : List ℕ) (E : ℕ → ℕ → Option CellValue) → Keeps all E self.old.table
            → AreIn all E → E node node ≡ None → Keeps all (cells_step node (cell_at self.old.nodes.items node) E)
            self.new.table) }
        ensures plan { OnOk result ((all : List ℕ) (E : ℕ → ℕ → Option CellValue) → Keeps all E self.old.table
            → AreIn all E → E node node ≡ None → (x y : ℕ) → listed self.new.plan.ways x y ≡
            (if is_some (E x node) && is_some (E node y) then listed self.old.plan.ways x y ++ suc
            (length self.old.plan.order) ∷ [] else listed self.old.plan.ways x y)) }
        ensures order { OnOk result (self.new.plan.order ≡ self.old.plan.order ++ node ∷ []) }
        ensures nodes { OnOk result (self.new.nodes.items ≡ self.old.nodes.items) }
        ensures leaves { OnOk result (self.new.table.tally.leaves.items ≡ self.old.table.tally.leaves.items) }
        ensures gains { OnOk result ((live : ℕ → Bool) → Gains live self.old.table.tally
            → Gains live self.new.table.tally) }
    {
        let cell = self.node(node);
        let entry = self.entry()?;
        let ins = self.table.pull_in(alloc, node)?;
        let outs = self.table.pull_out(alloc, node)?;
        self.table.add_rows(ins.as_slice(), cell, outs.as_slice())?;
        let sources = firsts_of(alloc, ins.as_slice())?;
        let targets = firsts_of(alloc, outs.as_slice())?;
        add_all(
            alloc,
            &mut self.plan.ways,
            sources.as_slice(),
            targets.as_slice(),
            entry,
        )?;
        self.plan.order.push(node)?;
        Ok(())
    }

    /// Takes out the node that comes next, and answers whether one was left.
    pub fn take_out_next(&mut self, alloc: Global) -> Result<bool, TreeRefusal>
        ensures went { IfOk result (λ more. (k : Task) (rank : ℕ → ℕ) (s : Stage) → IsTask k rank → IsStage k s
            → Holds k s self.old → (t : Stage) × Went k s t more × Holds k t self.new) }
        ensures large { IsErrOf result TreeRefusal.TooLarge → (k : Task) (rank : ℕ → ℕ) (s : Stage) → IsTask k rank
            → IsStage k s → Holds k s self.old → IsLarge 500000 k }
    {
        match self.table.tally.take_least() {
            Some(node) => {
                let sums = self.table.tally.sums_of(node);
                let size = self.node(node).size;
                if are_many(sums.ins, sums.outs, size) {
                    return Err(TreeRefusal::TooLarge);
                }
                let Ok(()) = self.take_out(alloc, node) else {
                    return Err(TreeRefusal::Memory);
                };
                if self.table.total > MOST {
                    return Err(TreeRefusal::TooLarge);
                }
                Ok(true)
            }
            None => Ok(false),
        }
    }

    /// Takes out all nodes.
    pub fn take_out_all(&mut self, alloc: Global) -> Result<(), TreeRefusal>
        ensures done { OnOk result ((k : Task) (rank : ℕ → ℕ) → IsTask k rank → Holds k (first_stage k) self.old
            → (s : Stage) × IsDone k s × Holds k s self.new) }
        ensures large { IsErrOf result TreeRefusal.TooLarge → (k : Task) (rank : ℕ → ℕ) → IsTask k rank
            → Holds k (first_stage k) self.old → IsLarge 500000 k }
    {
        for _round in 0..u32::MAX {
            match self.take_out_next(alloc) {
                Ok(more) => {
                    if !more {
                        return Ok(());
                    }
                }
                Err(refusal) => return Err(refusal),
            }
        }
        Err(TreeRefusal::Memory)
    }

    /// The numbers of what stands between the ends, as of one way, once all nodes are taken out.
    pub fn measures(&self, from: u32, to: u32) -> Result<Cell, AllocError>
        ensures { IfOk result (λ c. (k : Task) (s : Stage) → IsDone k s → Holds k s self.now → k.from ≡ from
            → k.to ≡ to → AreMeasures k c) }
    {
        match self.table.cell(from, to) {
            Some(cell) => {
                let size = size_of_members(cell)?;
                let depth = depth_of_members(cell)?;
                Ok(Cell {
                    count: 1,
                    leaves: cell.leaves,
                    size,
                    depth,
                })
            }
            None => Ok(Cell {
                count: 1,
                leaves: 0,
                size: 0,
                depth: 0,
            }),
        }
    }
}
