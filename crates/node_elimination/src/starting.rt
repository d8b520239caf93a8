//! A level before its first node is taken out.
ghost use Rattle.std.specs.Prelude.{◌≡◌, ◌<◌, ◌+◌, ℕ, List, [], Bool, true, false, if◌then◌else◌, ◌&&◌, ◌||◌, nat_eq};
ghost use Rattle.std.specs.Prelude.{map, Option, Some, None, IfOk, OnOk};
ghost use Rattle.elimination_plans.specs.AddedWays.{listed, has};
ghost use Rattle.elimination_plans.specs.PlanSteps.{edge_plan};
ghost use Rattle.elimination_plans.specs.Stages.{Task, first_stage};
ghost use Rattle.elimination_plans.specs.Weights.{Only};
ghost use Rattle.node_elimination.specs.declared.cells.Cell.{Cell as CellValue};
ghost use Rattle.node_elimination.specs.LevelStates.{IsTask, Holds};
ghost use Rattle.node_elimination.specs.GivenLevels.{IsBlank, IsGiven, plain_of, with_edge, edges_of, own_leaves};
ghost use Rattle.node_elimination.specs.GivenLevels.{zeros, AllOnly};
ghost use Rattle.node_elimination.specs.Tables.{Gains, Keeps};

use crate::cells::Cell;
use crate::table::Table;
use crate::taking::Elimination;
use crate::tally::{Sums, Tally, gain_of};
use elimination_plans::{Plan, add_way};
use sqlite_items::Items;
use std::alloc::{AllocError, Global};
use std::collections::{BTreeMap, BTreeSet};

/// Sums of nodes without edges.
fn no_edges(alloc: Global, cells: &[Cell]) -> Result<Vec<Sums>, AllocError>
    ensures { IfOk result (λ v. v.items ≡ zeros cells.now) }
{
    let mut made = Vec::new(alloc);
    for _cell in cells {
        made.push(Sums {
            ins: 0,
            outs: 0,
            into: 0,
            out: 0,
        })?;
    }
    Ok(made)
}

/// The leaves of the nodes' trees.
fn leaves_of(alloc: Global, cells: &[Cell]) -> Result<Vec<u64>, AllocError>
    ensures { IfOk result (λ v. v.items ≡ own_leaves cells.now) }
{
    let mut made = Vec::new(alloc);
    for cell in cells {
        made.push(cell.leaves)?;
    }
    Ok(made)
}

/// A level without edges.
fn blank(alloc: Global, nodes: Vec<Cell>) -> Result<Elimination, AllocError>
    ensures { IfOk result (IsBlank nodes.items) }
{
    let sums = no_edges(alloc, nodes.as_slice())?;
    let leaves = leaves_of(alloc, nodes.as_slice())?;
    let tally = Tally {
        sums,
        leaves,
        gains: BTreeSet::new(alloc),
    };
    let table = Table {
        tally,
        cells: BTreeMap::new(alloc),
        links: BTreeSet::new(alloc),
        total: 0,
    };
    let plan = Plan {
        order: Items::new(alloc),
        ways: BTreeMap::new(alloc),
    };
    Ok(Elimination { table, plan, nodes })
}

impl Elimination {
    /// Puts an edge in, where it isn't there.
    fn put_edge(&mut self, alloc: Global, from: u32, to: u32) -> Result<(), AllocError>
        ensures keeps { OnOk result ((all : List ℕ) (edge : ℕ → ℕ → Bool) → Keeps all (plain_of edge) self.old.table
            → Only from all → Only to all → Keeps all (plain_of (with_edge from to edge)) self.new.table) }
        ensures ways { OnOk result ((all : List ℕ) (edge : ℕ → ℕ → Bool) → Keeps all (plain_of edge) self.old.table
            → ((x y : ℕ) → listed self.old.plan.ways x y ≡ edge_plan edge x y) → (x y : ℕ)
            → listed self.new.plan.ways x y ≡ edge_plan (with_edge from to edge) x y) }
        ensures order { OnOk result (self.new.plan.order ≡ self.old.plan.order) }
        ensures nodes { OnOk result (self.new.nodes.items ≡ self.old.nodes.items) }
        ensures leaves { OnOk result (self.new.table.tally.leaves.items ≡ self.old.table.tally.leaves.items) }
        ensures gains { OnOk result ((live : ℕ → Bool) → Gains live self.old.table.tally
            → Gains live self.new.table.tally) }
    {
        match self.table.cell(from, to) {
            Some(_) => Ok(()),
            None => {
                self.table.add(
                    from,
                    to,
                    Cell {
                        count: 1,
                        leaves: 0,
                        size: 0,
                        depth: 0,
                    },
                )?;
                add_way(alloc, &mut self.plan.ways, from, to, 0)?;
                Ok(())
            }
        }
    }

    /// Puts edges in.
    fn put_edges(&mut self, alloc: Global, edges: &[(u32, u32)]) -> Result<(), AllocError>
        ensures keeps { OnOk result ((all : List ℕ) → Keeps all (plain_of (edges_of [])) self.old.table
            → ((x y : ℕ) → listed self.old.plan.ways x y ≡ []) → AllOnly all edges.now
            → Keeps all (plain_of (edges_of edges.now)) self.new.table
            × ((x y : ℕ) → listed self.new.plan.ways x y ≡ edge_plan (edges_of edges.now) x y)) }
        ensures order { OnOk result (self.new.plan.order ≡ self.old.plan.order) }
        ensures nodes { OnOk result (self.new.nodes.items ≡ self.old.nodes.items) }
        ensures leaves { OnOk result (self.new.table.tally.leaves.items ≡ self.old.table.tally.leaves.items) }
        ensures gains { OnOk result ((live : ℕ → Bool) → Gains live self.old.table.tally
            → Gains live self.new.table.tally) }
    {
        for edge in edges {
            self.put_edge(alloc, edge.0, edge.1)?;
        }
        Ok(())
    }
}

/// Puts a node among those that are left.
fn put_node(tally: &mut Tally, node: u32) -> Result<(), AllocError>
    ensures gains { OnOk result ((live : ℕ → Bool) → Gains live tally.old
        → Gains (λ u. nat_eq u node || live u) tally.new) }
    ensures sums { OnOk result ((tally.new.sums.items ≡ tally.old.sums.items)
        × (tally.new.leaves.items ≡ tally.old.leaves.items)) }
{
    let gain = gain_of(tally.sums_of(node), tally.leaves_of(node))?;
    tally.gains.insert((gain, node))?;
    Ok(())
}

/// Puts nodes among those that are left.
fn put_nodes(tally: &mut Tally, nodes: &[u32]) -> Result<(), AllocError>
    ensures gains { OnOk result (Gains (λ u. false) tally.old → Gains (λ u. has u nodes.now) tally.new) }
    ensures sums { OnOk result ((tally.new.sums.items ≡ tally.old.sums.items)
        × (tally.new.leaves.items ≡ tally.old.leaves.items)) }
{
    for node in nodes {
        put_node(tally, *node)?;
    }
    Ok(())
}

/// A level, with the numbers of the nodes' trees, its edges and the nodes between its ends.
pub fn start(
    alloc: Global,
    cells: Vec<Cell>,
    edges: &[(u32, u32)],
    nodes: &[u32],
) -> Result<Elimination, AllocError>
    ensures { IfOk result (λ e. (k : Task) (rank : ℕ → ℕ) → IsTask k rank → IsGiven k cells.items edges.now nodes.now
        → Holds k (first_stage k) e) }
{
    let mut level = blank(alloc, cells)?;
    level.put_edges(alloc, edges)?;
    put_nodes(&mut level.table.tally, nodes)?;
    Ok(level)
}
