//! The graph and the loops of a function, and whether its use of the stack can be followed.

ghost use Rattle.std.specs.Prelude.{◌<◌, ◌^◌, ℕ, IfErr, IfOk, OnOk};
ghost use Rattle.fetch_timing.specs.declared.timing.Timing.{Timing as TimingValue};
ghost use Rattle.path_facts.specs.Histories.{IsFollowed};
ghost use Rattle.wcet_core.specs.Analyses.{IsFramed, IsStructureOf};
ghost use Rattle.wcet_core.specs.Refusals.{IsRefusedAnalysis};

use crate::refusals::AnalysisRefusal;
use elf32_image::Image;
use flow_graph::{FunctionGraph, build, graphs_are_flows};
use function_frames::function_frames;
use interval_loops::{LoopNest, loops};
use std::alloc::Global;

/// The graph of a function with all its points, and the nest of its loops.
#[derive(Drop)]
pub(crate) struct Structure {
    pub function: FunctionGraph,
    pub nest: LoopNest,
}

/// The structure of the function at an address.
pub(crate) fn structure_of(
    alloc: Global,
    image: &Image,
    entry: u32,
) -> Result<Structure, AnalysisRefusal>
    ensures structure { IfOk result (IsStructureOf image.now entry) }
    ensures refused { IfErr result (λ why. (t : TimingValue) (stack : ℕ)
        → IsRefusedAnalysis image.now t entry stack why) }
{
    let function = build(alloc, image, entry)?;
    graphs_are_flows();
    let nest = loops(alloc, &function.graph)?;
    Ok(Structure { function, nest })
}

/// Refuses a function whose use of the stack can't be followed.
pub(crate) fn check_frames(
    alloc: Global,
    image: &Image,
    structure: &Structure,
    entry: u32,
    stack: u32,
) -> Result<(), AnalysisRefusal>
    requires small { stack < 2 ^ 31 }
    requires structure { IsStructureOf image.now entry structure.now }
    ensures framed { OnOk result (IsFramed image.now entry stack) }
    ensures followed { OnOk result (IsFollowed image.now entry stack) }
    ensures refused { IfErr result (λ why. (t : TimingValue) → IsRefusedAnalysis image.now t entry stack why) }
{
    function_frames(alloc, image, &structure.function, stack)?;
    Ok(())
}
