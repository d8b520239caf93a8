//! Laws of reports that were read.

ghost use Rattle.std.specs.Prelude.{◌≡◌, true};
ghost use Rattle.report_lines.specs.declared.report.Report.{Report as ReportValue};
ghost use Rattle.report_values.specs.Evaluations.{HasFittingBounds};
ghost use Rattle.whole_reports.specs.Reports.{is_well_formed};

/// A law of well-formed reports as a definition: their bounds have what `evaluate` wants.
pub fn read_reports_fit()
    ensures { (r : ReportValue) → is_well_formed r ≡ true → HasFittingBounds r }
{}
