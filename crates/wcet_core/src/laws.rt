//! That a function has one report, or refusals of one kind.

ghost use Rattle.std.specs.Prelude.{◌≡◌, ◌≢◌, ℕ, List};
ghost use Rattle.elf32_image.specs.Parts.{ImageValue};
ghost use Rattle.fetch_timing.specs.declared.timing.Timing.{Timing as TimingValue};
ghost use Rattle.wsym_terms.specs.declared.bounds.ParamRange.{ParamRange as ParamRangeValue};
ghost use Rattle.report_lines.specs.declared.report.Report.{Report as ReportValue};
ghost use Rattle.wcet_core.specs.Agreement.{AreOneRefusal};
ghost use Rattle.wcet_core.specs.Analyses.{IsAnalysed};
ghost use Rattle.wcet_core.specs.Refusals.{IsRefusedAnalysis};
ghost use Rattle.wcet_core.specs.declared.refusals.AnalysisRefusal.{AnalysisRefusal as RefusalValue};
ghost use Rattle.wcet_core.specs.declared.refusals.AnalysisRefusal.TheVariants.{Memory};

use flow_graph::{graphs_agree, graphs_are_flows};
use graph_reduction::reduction_ends;
use interval_loops::{nests_agree, nests_are_not_refused};
use level_tables::levels_have_one_tree;
use line_uses::uses_agree;

/// A law: a function that has a report is refused for want of memory alone, and two other refusals of a function are of
/// one kind.
pub fn analyses_agree()
    ensures none { (image : ImageValue) (t : TimingValue) (entry stack : ℕ) (params : List ParamRangeValue)
        (r : ReportValue) (why : RefusalValue) → IsAnalysed image t entry stack params r
        → IsRefusedAnalysis image t entry stack why → why ≡ Memory }
    ensures one { (image : ImageValue) (t : TimingValue) (entry stack : ℕ) (why other : RefusalValue)
        → IsRefusedAnalysis image t entry stack why → IsRefusedAnalysis image t entry stack other
        → why ≢ Memory → other ≢ Memory → AreOneRefusal why other }
{
    graphs_agree();
    graphs_are_flows();
    nests_agree();
    nests_are_not_refused();
    reduction_ends();
    uses_agree();
    levels_have_one_tree();
}
