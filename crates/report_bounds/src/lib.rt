//! What a report promises of the runs of its function: that no returning run costs more than the value of its tree,
//! which its formula has. There is no code here: the laws are calls without a body.
#![tactic(auto)]

ghost use Rattle.std.specs.Prelude.{◌≡◌, ◌<◌, ◌^◌, ℕ};
ghost use Rattle.elf32_image.specs.Parts.{ImageValue};
ghost use Rattle.fetch_timing.specs.declared.timing.Timing.{Timing};
ghost use Rattle.path_facts.specs.Histories.{IsFollowed};
ghost use Rattle.cycle_bounds.specs.Analyses.{Analysis};
ghost use Rattle.cycle_bounds.specs.Functions.{IsAnalysisOf};
ghost use Rattle.report_lines.specs.declared.report.Report.{Report as ReportValue};
ghost use Rattle.report_bounds.specs.Descriptions.{IsReportOf};
ghost use Rattle.report_bounds.specs.Promises.{HasNoBounds, IsBound, IsExact, IsFormulaBound, KeepsTurns};
ghost use Rattle.report_bounds.specs.Promises.{printed_bounds};
ghost use Rattle.simplifier.specs.Normal.{normal};
ghost use Rattle.simplifier.specs.Simplified.{known_of};
ghost use Rattle.wsym_formula.specs.Trees.{formula_of};

use simplifier::simplified_terms_keep_their_value;
use wsym_formula::formulas_have_the_value_of_their_trees;

/// The value of a report's tree bounds the runs of the function that the report is of, for all values of its
/// parameters, where each run keeps the printed bounds of the loops.
pub fn reports_are_bounds()
    ensures { (image : ImageValue) (t : Timing) (entry stack : ℕ) (a : Analysis) (report : ReportValue)
        → entry < 2 ^ 32 → stack < 2 ^ 31 → 0 < t.sets → 0 < t.ways → IsFollowed image entry stack
        → IsAnalysisOf image t entry a → IsReportOf t entry stack a report → KeepsTurns image report a
        → IsBound image report }
{}

/// Where the formula has the value of the tree, it bounds the runs too.
pub fn formulas_are_bounds()
    ensures { (image : ImageValue) (report : ReportValue) → IsExact report → IsBound image report
        → IsFormulaBound image report }
{}

/// The normal form of the formula of a report's tree, for the printed bounds of its loops, has the value of the tree.
pub fn formulas_are_exact()
    ensures { (report : ReportValue) → report.formula ≡ normal (known_of (printed_bounds report))
        (formula_of report.timing.miss report.tree) → IsExact report }
{
    simplified_terms_keep_their_value();
    formulas_have_the_value_of_their_trees();
}

/// Where no loop has a printed bound, each run keeps them.
pub fn no_bounds_are_kept()
    ensures { (image : ImageValue) (report : ReportValue) (a : Analysis) → HasNoBounds report
        → KeepsTurns image report a }
{}
