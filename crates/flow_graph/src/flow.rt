//! The graph of blocks as loops and trees see it.

ghost use Rattle.std.specs.Prelude.{◌≡◌, ℕ};
ghost use Rattle.flow_graph.specs.Flow.{flow_in};

use crate::graph::BlockGraph;
use graph_search::FlowGraph;

impl FlowGraph for BlockGraph {
    ghost use Rattle.flow_graph.specs.Flow.{flow_in};

    ghost flow = { flow_in };

    fn count(&self) -> u32 {
        self.block_count
    }

    fn entry(&self) -> u32 {
        self.entry_block
    }

    fn row(&self, node: u32) -> &[u32] {
        let blocks = self.blocks.as_slice();
        if (node as usize) < blocks.len() {
            blocks[node as usize].next.as_slice()
        } else {
            &[]
        }
    }

    fn returns(&self, node: u32) -> bool {
        let blocks = self.blocks.as_slice();
        if (node as usize) < blocks.len() {
            blocks[node as usize].returns
        } else {
            false
        }
    }
}
