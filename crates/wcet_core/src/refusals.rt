//! Why a function has no report.

ghost use Rattle.std.specs.Prelude.{◌≡◌};
ghost use Rattle.wcet_core.specs.Refusals.{of_frames, of_graph, of_loops, of_tree};
ghost use Rattle.wcet_core.specs.declared.refusals.AnalysisRefusal.TheVariants.{Memory};

use copy_facts::FrameRefusal;
use flow_graph::GraphRefusal;
use interval_loops::LoopRefusal;
use node_elimination::TreeRefusal;
use std::alloc::AllocError;

/// Why a function has no report. The first cause is answered, in the order given here; want of memory may come at any
/// place, and is always `Memory`.
#[derive(Clone, Copy)]
pub enum AnalysisRefusal {
    /// Memory was refused.
    Memory,
    /// The function has no graph.
    Graph(GraphRefusal),
    /// The loops of its graph are refused.
    Loops(LoopRefusal),
    /// Its use of the stack can't be followed.
    Frames(FrameRefusal),
    /// Its tree is larger or nests deeper than a tree may.
    TreeTooLarge,
}

impl From<AllocError> for AnalysisRefusal {
    ghost from_gives = { λ _ why. why ≡ Memory };

    fn from(_error: AllocError) -> AnalysisRefusal {
        AnalysisRefusal::Memory
    }
}

impl From<GraphRefusal> for AnalysisRefusal {
    ghost from_gives = { λ cause why. why ≡ of_graph cause };

    fn from(cause: GraphRefusal) -> AnalysisRefusal {
        match cause {
            GraphRefusal::Memory => AnalysisRefusal::Memory,
            other => AnalysisRefusal::Graph(other),
        }
    }
}

impl From<LoopRefusal> for AnalysisRefusal {
    ghost from_gives = { λ cause why. why ≡ of_loops cause };

    fn from(cause: LoopRefusal) -> AnalysisRefusal {
        match cause {
            LoopRefusal::Memory => AnalysisRefusal::Memory,
            other => AnalysisRefusal::Loops(other),
        }
    }
}

impl From<FrameRefusal> for AnalysisRefusal {
    ghost from_gives = { λ cause why. why ≡ of_frames cause };

    fn from(cause: FrameRefusal) -> AnalysisRefusal {
        match cause {
            FrameRefusal::Memory => AnalysisRefusal::Memory,
            other => AnalysisRefusal::Frames(other),
        }
    }
}

impl From<TreeRefusal> for AnalysisRefusal {
    ghost from_gives = { λ cause why. why ≡ of_tree cause };

    fn from(cause: TreeRefusal) -> AnalysisRefusal {
        match cause {
            TreeRefusal::Memory => AnalysisRefusal::Memory,
            TreeRefusal::TooLarge => AnalysisRefusal::TreeTooLarge,
        }
    }
}
