//! The trees of the nodes of a level: leaves of blocks, and loops whose trees are made.
ghost use Rattle.std.specs.Prelude.{◌≡◌, ℕ, slice_get, Some, true, IfOk};
ghost use Rattle.tree_law.specs.Ways.{IsIn};
ghost use Rattle.node_elimination.specs.LevelStates.{cell_at};
ghost use Rattle.flow_tree.specs.FlowTables.{cell_had, child_by};
ghost use Rattle.flow_tree.specs.LevelNumbers.{large_for};

use crate::tables::{LoopTree, child_of};
use elimination_plans::{Nodes, copy};
use interval_loops::LoopNest;
use node_elimination::{Cell, plus};
use sqlite_items::Items;
use std::alloc::{AllocError, Global};
use std::collections::BTreeSet;
use wsym_terms::{BlockUses, Tree};

/// The nodes of the level of a loop, the trees of loops that are made, the loops whose trees are too large, and the
/// numbers of the level's ends.
#[derive(Clone, Copy)]
pub struct LevelNodes<'a> {
    pub nest: &'a LoopNest,
    pub count: u32,
    pub blocks: &'a [BlockUses],
    pub trees: &'a [Option<LoopTree>],
    pub large: &'a BTreeSet<u32>,
    pub level: u32,
    pub close: u32,
    pub leave: u32,
}

impl<'a> Nodes for LevelNodes<'a> {
    ghost use Rattle.std.specs.Prelude.{slice_get};
    ghost use Rattle.flow_tree.specs.FlowTables.{child_by, node_had};

    ghost tree = { λ s v. node_had v s.trees.now (slice_get s.blocks.now v) (child_by s.count s.nest.now s.level v) };

    fn tree_of(&self, alloc: Global, node: u32) -> Result<Tree, AllocError> {
        match self.blocks.get(node as usize) {
            Some(block) => match child_of(self.nest, self.count, self.level, node) {
                Some(number) => match self.trees.get(number as usize) {
                    Some(Some(made)) => copy(alloc, &made.tree),
                    Some(None) => Err(AllocError),
                    None => Err(AllocError),
                },
                None => Ok(Tree::Leaf {
                    block: node,
                    base: block.base,
                    uses: Items::from_slice(alloc, block.uses.as_slice())?,
                }),
            },
            None => Err(AllocError),
        }
    }
}

impl<'a> LevelNodes<'a> {
    /// The numbers of the tree of a node.
    pub fn cell_of(&self, node: u32) -> Result<Cell, AllocError>
        ensures { IfOk result (λ c. cell_had self.now.trees.now (slice_get self.now.blocks.now node)
            (child_by self.now.count self.now.nest.now self.now.level node) ≡ Some c) }
    {
        match self.blocks.get(node as usize) {
            Some(block) => match child_of(self.nest, self.count, self.level, node) {
                Some(number) => match self.trees.get(number as usize) {
                    Some(Some(made)) => Ok(made.cell),
                    Some(None) => Err(AllocError),
                    None => Err(AllocError),
                },
                None => Ok(Cell {
                    count: 1,
                    leaves: 1,
                    size: plus(1, block.uses.len() as u64)?,
                    depth: 1,
                }),
            },
            None => Err(AllocError),
        }
    }

    /// The numbers of the trees of some nodes by their numbers, with places for all blocks, the start and the two ends.
    pub fn cells(&self, alloc: Global, nodes: &[u32]) -> Result<Vec<Cell>, AllocError>
        ensures { IfOk result (λ v. (u : ℕ) → IsIn u nodes.now → cell_had self.now.trees.now
            (slice_get self.now.blocks.now u)
            (child_by self.now.count self.now.nest.now self.now.level u) ≡ Some (cell_at v.items u)) }
    {
        let none = Cell {
            count: 0,
            leaves: 0,
            size: 0,
            depth: 0,
        };
        let mut made = std::vec![in alloc; none; (self.count as usize).saturating_add(3)]?;
        for node in nodes {
            if *node as usize >= made.len() {
                return Err(AllocError);
            }
            made[*node as usize] = self.cell_of(*node)?;
        }
        Ok(made)
    }

    /// Whether a node stands for a loop whose tree is too large.
    fn is_large(&self, node: u32) -> bool
        ensures { result ≡ large_for self.now node }
    {
        match child_of(self.nest, self.count, self.level, node) {
            Some(number) => self.large.contains(&number),
            None => false,
        }
    }

    /// Whether one of some nodes stands for a loop whose tree is too large.
    pub fn has_large(&self, nodes: &[u32]) -> bool
        ensures { result ≡ true → (v : ℕ) × IsIn v nodes.now × (large_for self.now v ≡ true) }
    {
        for node in nodes {
            if self.is_large(*node) {
                return true;
            }
        }
        false
    }
}
