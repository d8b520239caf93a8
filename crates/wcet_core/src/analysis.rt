//! The analysis of a function.

ghost use Rattle.std.specs.Prelude.{◌<◌, ◌^◌, IfErr, IfOk};
ghost use Rattle.fetch_timing.specs.Timings.{IsWithinLimits};
ghost use Rattle.report_bounds.specs.Promises.{IsKept};
ghost use Rattle.wcet_core.specs.Analyses.{IsAnalysed};
ghost use Rattle.wcet_core.specs.Refusals.{IsRefusedAnalysis};

use crate::refusals::AnalysisRefusal;
use crate::reports::report_of;
use crate::structures::{check_frames, structure_of};
use elf32_image::Image;
use fetch_timing::Timing;
use graph_reports::graph_reports_are_kept;
use report_lines::Report;
use sqlite_items::Items;
use std::alloc::Global;
use wsym_terms::ParamRange;

/// The report of the function at an address of an image, by a timing within its limits, with the bytes of stack that it
/// may use, fewer than 2^31, and its parameters. The report describes the function; its formula has the value of its
/// tree; and where that is finite, no run that returns costs more.
///
/// # Errors
///
/// The first of these that stands, but that `Memory` may come at any place: `Graph` where the function has no graph;
/// `Loops` where a cycle of its graph is closed by no edge, or where more than sixteen loops are round a block;
/// `Frames` where its use of the stack can't be followed; `TreeTooLarge` where its tree passes a size of 500,000 or a
/// nesting of 1,000.
pub fn analyse_function(
    alloc: Global,
    image: &Image,
    timing: &Timing,
    entry: u32,
    stack: u32,
    params: Items<ParamRange>,
) -> Result<Report, AnalysisRefusal>
    requires limits { IsWithinLimits timing.now }
    requires small { stack < 2 ^ 31 }
    ensures analysed { IfOk result (IsAnalysed image.now timing.now entry stack params) }
    ensures kept { IfOk result (IsKept image.now timing.now entry stack) }
    ensures refused { IfErr result (IsRefusedAnalysis image.now timing.now entry stack) }
{
    let structure = structure_of(alloc, image, entry)?;
    check_frames(alloc, image, &structure, entry, stack)?;
    let report = report_of(
        alloc,
        &structure.function.graph,
        &structure.nest,
        timing,
        stack,
        params,
    )?;
    graph_reports_are_kept();
    Ok(report)
}
