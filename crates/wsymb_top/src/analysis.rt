//! The analysis of a function, and its text.

ghost use Rattle.std.specs.Prelude.{IfOk, IfErr};
ghost use Rattle.command_words.specs.Analyses.{IsAnalysis};
ghost use Rattle.fetch_timing.specs.Timings.{IsWithinLimits};
ghost use Rattle.wsymb_top.specs.Outcomes.{IsOfAnalysis, IsRefusal, Outcome};

use crate::jobs::Job;
use crate::refusals::Refusal;
use command_words::AnalysisSetup;
use std::alloc::Global;
use wcet_core::analyse_function;
use whole_reports::write_report;

/// The text of the report of a job's function, or why there is none.
pub(crate) fn report_of(alloc: Global, job: &Job, setup: AnalysisSetup) -> Result<Vec<u8>, Refusal>
    requires limits { IsWithinLimits job.now.timing }
    requires setup { IsAnalysis setup }
    ensures text { IfOk result (λ text. IsOfAnalysis setup job.now (Outcome.Answers text.items)) }
    ensures refused { IfErr result (IsRefusal (IsOfAnalysis setup job.now)) }
{
    match analyse_function(
        alloc,
        &job.image,
        &job.timing,
        job.entry,
        setup.stack,
        setup.params,
    ) {
        Ok(report) => match write_report(alloc, &report) {
            Ok(text) => Ok(text),
            Err(_) => Err(Refusal::Memory),
        },
        Err(why) => Err(Refusal::Analysis(why)),
    }
}
