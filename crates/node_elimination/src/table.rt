//! The edges of a level and their numbers, as its nodes are taken out.
ghost use Rattle.std.specs.Prelude.{◌≡◌, ◌<◌, ◌^◌, ◌+◌, ℕ, List, Bool, true, false, if◌then◌else◌, length, Option};
ghost use Rattle.std.specs.Prelude.{Some, None, is_some, IfOk, OnOk};
ghost use Rattle.std.specs.BTreeMap as tree;
ghost use Rattle.graph_reduction.specs.Sets.{in_set};
ghost use Rattle.elimination_plans.specs.Plans.{pair_cmp};
ghost use Rattle.elimination_plans.specs.Weights.{Only};
ghost use Rattle.node_elimination.specs.Cells.{one, leaves_in, size_in, put, joined};
ghost use Rattle.node_elimination.specs.Tables.{sums_at, Gains, Keeps, ShiftedIn, ShiftedOut, link_put};

use crate::cells::{Cell, join, leaves, moved, ones, sizes};
use crate::tally::{Sums, Tally};
use std::alloc::AllocError;
use std::collections::{BTreeMap, BTreeSet};

/// The edges that are left by their ends, each also from both of its ends (0: to the first node, 1: from it), the
/// sums of the nodes, and the size of all that stands in the ways.
#[derive(Drop)]
pub struct Table {
    pub tally: Tally,
    pub cells: BTreeMap<(u32, u32), Cell>,
    pub links: BTreeSet<(u32, u32, u32)>,
    pub total: u64,
}

/// An edge to a node is another.
fn shift_in(
    tally: &mut Tally,
    node: u32,
    before: Option<Cell>,
    after: Option<Cell>,
) -> Result<(), AllocError>
    ensures leaves { OnOk result (tally.new.leaves.items ≡ tally.old.leaves.items) }
    ensures sums { OnOk result (ShiftedIn node before after tally.old.sums.items tally.new.sums.items) }
    ensures gains { OnOk result ((live : ℕ → Bool) → Gains live tally.old → Gains live tally.new) }
{
    let old = tally.sums_of(node);
    let ins = moved(old.ins, ones(before), ones(after))?;
    let into = moved(old.into, leaves(before), leaves(after))?;
    tally.set(
        node,
        Sums {
            ins,
            outs: old.outs,
            into,
            out: old.out,
        },
    )
}

/// An edge from a node is another.
fn shift_out(
    tally: &mut Tally,
    node: u32,
    before: Option<Cell>,
    after: Option<Cell>,
) -> Result<(), AllocError>
    ensures leaves { OnOk result (tally.new.leaves.items ≡ tally.old.leaves.items) }
    ensures sums { OnOk result (ShiftedOut node before after tally.old.sums.items tally.new.sums.items) }
    ensures gains { OnOk result ((live : ℕ → Bool) → Gains live tally.old → Gains live tally.new) }
{
    let old = tally.sums_of(node);
    let outs = moved(old.outs, ones(before), ones(after))?;
    let out = moved(old.out, leaves(before), leaves(after))?;
    tally.set(
        node,
        Sums {
            ins: old.ins,
            outs,
            into: old.into,
            out,
        },
    )
}

/// Notes at both ends whether an edge is there.
fn link(
    links: &mut BTreeSet<(u32, u32, u32)>,
    from: u32,
    to: u32,
    on: bool,
) -> Result<(), AllocError>
    ensures links { OnOk result ((v s u : ℕ) → in_set links.new v s u ≡ link_put from to on (in_set links.old) v s u) }
    ensures fewer { OnOk result (on ≡ false → in_set links.old to 0 from ≡ true
        → length links.new.keys < length links.old.keys) }
    ensures less { OnOk result (on ≡ false → in_set links.old from 1 to ≡ true
        → length links.new.keys < length links.old.keys) }
{
    if on {
        links.insert((from, 1, to))?;
        links.insert((to, 0, from))?;
    } else {
        links.remove(&(from, 1, to));
        links.remove(&(to, 0, from));
    }
    Ok(())
}

/// Puts an edge in the place of another, or takes it out.
fn put_cell(
    cells: &mut BTreeMap<(u32, u32), Cell>,
    from: u32,
    to: u32,
    after: Option<Cell>,
) -> Result<(), AllocError>
    ensures { OnOk result ((x y : ℕ) → tree.get pair_cmp cells.new (x, y) ≡ put from to after
        (λ p q. tree.get pair_cmp cells.old (p, q)) x y) }
{
    match after {
        Some(cell) => {
            cells.insert((from, to), cell)?;
        }
        None => {
            cells.remove(&(from, to));
        }
    }
    Ok(())
}

impl Table {
    /// An edge.
    pub fn cell(&self, from: u32, to: u32) -> Option<Cell>
        ensures { result ≡ tree.get pair_cmp self.now.cells (from, to) }
    {
        match self.cells.get(&(from, to)) {
            Some(cell) => Some(*cell),
            None => None,
        }
    }

    /// Puts an edge in the place of another, or takes it out.
    pub fn change(
        &mut self,
        from: u32,
        to: u32,
        before: Option<Cell>,
        after: Option<Cell>,
    ) -> Result<(), AllocError>
        ensures keeps { OnOk result ((all : List ℕ) (E : ℕ → ℕ → Option Cell) → Keeps all E self.old
            → E from to ≡ before → Only from all → Only to all → Keeps all (put from to after E) self.new) }
        ensures leaves { OnOk result (self.new.tally.leaves.items ≡ self.old.tally.leaves.items) }
        ensures gains { OnOk result ((live : ℕ → Bool) → Gains live self.old.tally → Gains live self.new.tally) }
        ensures fewer { OnOk result (is_some after ≡ false → in_set self.old.links to 0 from ≡ true
            → length self.new.links.keys < length self.old.links.keys) }
        ensures less { OnOk result (is_some after ≡ false → in_set self.old.links from 1 to ≡ true
            → length self.new.links.keys < length self.old.links.keys) }
    {
        shift_in(&mut self.tally, to, before, after)?;
        shift_out(&mut self.tally, from, before, after)?;
        self.total = moved(self.total, sizes(before), sizes(after))?;
        put_cell(&mut self.cells, from, to, after)?;
        link(&mut self.links, from, to, after.is_some())?;
        Ok(())
    }
}
