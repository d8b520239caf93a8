//! Takes a node out of a table: its edges go, and the ways through it come beside those that are there.
ghost use Rattle.std.specs.Prelude.{◌≡◌, ◌<◌, ◌^◌, ℕ, List, Bool, true, false, Option, Some, None, IfOk, OnOk};
ghost use Rattle.std.specs.Prelude.{IfSome, IfNone};
ghost use Rattle.graph_reduction.specs.Sets.{in_set};
ghost use Rattle.std.specs.List.{AllByRecursion};
ghost use Rattle.elimination_plans.specs.Weights.{Only};
ghost use Rattle.node_elimination.specs.declared.cells.Cell.{Cell as CellValue};
ghost use Rattle.node_elimination.specs.Cells.{AreIn, Pulled, OnceIn, all_joined, cut_into, cut_out, joined, put};
ghost use Rattle.node_elimination.specs.Cells.{row_joined, cells_step};
ghost use Rattle.node_elimination.specs.Tables.{Gains, Keeps};

use crate::cells::{Cell, join, pass};
use crate::table::Table;
use graph_reduction::first_source;
use std::alloc::{AllocError, Global};

impl Table {
    /// The other end of an edge of a node.
    fn other_end(&self, node: u32, side: u32) -> Option<u32>
        ensures some { IfSome result (λ u. in_set self.now.links node side u ≡ true) }
        ensures none { IfNone result ((u : ℕ) → u < 2 ^ 32 → in_set self.now.links node side u ≡ false) }
    {
        first_source(&self.links, node, side)
    }

    /// Takes out the edges to a node.
    pub fn pull_in(&mut self, alloc: Global, node: u32) -> Result<Vec<(u32, Cell)>, AllocError>
        ensures keeps { IfOk result (λ list. (all : List ℕ) (E : ℕ → ℕ → Option CellValue) → Keeps all E self.old
            → AreIn all E → Keeps all (cut_into node list.items E) self.new × Pulled (λ p. E p node) list.items) }
        ensures leaves { OnOk result (self.new.tally.leaves.items ≡ self.old.tally.leaves.items) }
        ensures gains { OnOk result ((live : ℕ → Bool) → Gains live self.old.tally → Gains live self.new.tally) }
    {
        let mut list = Vec::new(alloc);
        while let Some(from) = self.other_end(node, 0) {
            match self.cell(from, node) {
                Some(cell) => {
                    self.change(from, node, Some(cell), None)?;
                    list.push((from, cell))?;
                }
                None => return Err(AllocError),
            }
        }
        Ok(list)
    }

    /// Takes out the edges from a node.
    pub fn pull_out(&mut self, alloc: Global, node: u32) -> Result<Vec<(u32, Cell)>, AllocError>
        ensures keeps { IfOk result (λ list. (all : List ℕ) (E : ℕ → ℕ → Option CellValue) → Keeps all E self.old
            → AreIn all E → Keeps all (cut_out node list.items E) self.new × Pulled (λ q. E node q) list.items) }
        ensures leaves { OnOk result (self.new.tally.leaves.items ≡ self.old.tally.leaves.items) }
        ensures gains { OnOk result ((live : ℕ → Bool) → Gains live self.old.tally → Gains live self.new.tally) }
    {
        let mut list = Vec::new(alloc);
        while let Some(to) = self.other_end(node, 1) {
            match self.cell(node, to) {
                Some(cell) => {
                    self.change(node, to, Some(cell), None)?;
                    list.push((to, cell))?;
                }
                None => return Err(AllocError),
            }
        }
        Ok(list)
    }

    /// One more way.
    pub fn add(&mut self, from: u32, to: u32, way: Cell) -> Result<(), AllocError>
        ensures keeps { OnOk result ((all : List ℕ) (E : ℕ → ℕ → Option CellValue) → Keeps all E self.old
            → Only from all → Only to all → Keeps all (put from to (Some (joined (E from to) way)) E) self.new) }
        ensures leaves { OnOk result (self.new.tally.leaves.items ≡ self.old.tally.leaves.items) }
        ensures gains { OnOk result ((live : ℕ → Bool) → Gains live self.old.tally → Gains live self.new.tally) }
    {
        let before = self.cell(from, to);
        let after = join(before, way)?;
        self.change(from, to, before, Some(after))
    }

    /// The ways from one node through another.
    pub fn add_row(
        &mut self,
        from: u32,
        into: Cell,
        node: Cell,
        outs: &[(u32, Cell)],
    ) -> Result<(), AllocError>
        ensures keeps { OnOk result ((all : List ℕ) (E : ℕ → ℕ → Option CellValue) → Keeps all E self.old
            → Only from all → AllByRecursion (λ x. Only x.0 all) outs.now → OnceIn outs.now
            → Keeps all (row_joined from into node outs.now E) self.new) }
        ensures leaves { OnOk result (self.new.tally.leaves.items ≡ self.old.tally.leaves.items) }
        ensures gains { OnOk result ((live : ℕ → Bool) → Gains live self.old.tally → Gains live self.new.tally) }
    {
        for out in outs {
            let way = pass(into, node, out.1)?;
            self.add(from, out.0, way)?;
        }
        Ok(())
    }

    /// The ways through a node.
    pub fn add_rows(
        &mut self,
        ins: &[(u32, Cell)],
        node: Cell,
        outs: &[(u32, Cell)],
    ) -> Result<(), AllocError>
        ensures keeps { OnOk result ((all : List ℕ) (E : ℕ → ℕ → Option CellValue) → Keeps all E self.old
            → AllByRecursion (λ x. Only x.0 all) ins.now → OnceIn ins.now
            → AllByRecursion (λ x. Only x.0 all) outs.now → OnceIn outs.now
            → Keeps all (all_joined ins.now node outs.now E) self.new) }
        ensures leaves { OnOk result (self.new.tally.leaves.items ≡ self.old.tally.leaves.items) }
        ensures gains { OnOk result ((live : ℕ → Bool) → Gains live self.old.tally → Gains live self.new.tally) }
    {
        for from in ins {
            self.add_row(from.0, from.1, node, outs)?;
        }
        Ok(())
    }
}
