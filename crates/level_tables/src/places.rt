//! Where a block stands in a level, and where an edge of the flow goes in it.
ghost use Rattle.std.specs.Prelude.{◌≡◌, ◌∷◌, nat_eq};
ghost use Rattle.graph_search.specs.NodeLists.{holds};
ghost use Rattle.interval_loops.specs.Rounds.{after};
ghost use Rattle.flow_tree.specs.FlowTables.{header_by};
ghost use Rattle.level_tables.specs.LevelPlaces.{node_by, target_by, within_level};

use flow_tree::{header_of, innermost};
use interval_loops::LoopNest;

/// A level of a nest of loops, and the numbers of its ends.
#[derive(Clone, Copy)]
pub struct LevelPlaces<'a> {
    pub nest: &'a LoopNest,
    pub count: u32,
    pub level: u32,
    pub close: u32,
    pub leave: u32,
}

/// The loop that comes after a level's among those round a block, the outermost first; 0 where none does.
fn next_inside(level: u32, round: &[u32]) -> u32
    ensures { result ≡ after level (0 ∷ round.now) }
{
    let mut found = level == 0;
    for number in round {
        if found {
            return *number;
        }
        found = *number == level;
    }
    0
}

/// Whether a number stands in a row.
fn row_has(number: u32, row: &[u32]) -> bool
    ensures { result ≡ holds nat_eq number row.now }
{
    for other in row {
        if *other == number {
            return true;
        }
    }
    false
}

impl<'a> LevelPlaces<'a> {
    /// The header of the level's loop.
    pub fn header(&self) -> u32
        ensures { result ≡ header_by self.now.count self.now.nest.now self.now.level }
    {
        header_of(self.nest, self.count, self.level)
    }

    /// The block that stands for a block.
    pub fn node(&self, block: u32) -> u32
        ensures { result ≡ node_by self.now.count self.now.nest.now self.now.level block }
    {
        if innermost(self.nest, block) == self.level {
            return block;
        }
        match self.nest.around.as_slice().get(block as usize) {
            Some(round) => header_of(
                self.nest,
                self.count,
                next_inside(self.level, round.as_slice()),
            ),
            None => self.count,
        }
    }

    /// Whether a block is in the level.
    pub fn has(&self, block: u32) -> bool
        ensures { result ≡ within_level self.now.count self.now.nest.now self.now.level block }
    {
        if self.level == 0 {
            return block < self.count;
        }
        match self.nest.around.as_slice().get(block as usize) {
            Some(round) => row_has(self.level, round.as_slice()),
            None => false,
        }
    }

    /// Where an edge leads from a node to a block.
    pub fn target(&self, from: u32, block: u32) -> Option<u32>
        ensures { result ≡ target_by self.now from block }
    {
        if self.has(block) {
            if block == self.header() {
                return Some(self.close);
            }
            let node = self.node(block);
            if from == node {
                return None;
            }
            return Some(node);
        }
        Some(self.leave)
    }
}
