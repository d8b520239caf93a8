//! Laws of reading.

ghost use Rattle.std.specs.Prelude.{◌≡◌, Err, List, Ok, true, ℕ};
ghost use Rattle.report_lines.specs.declared.report.Report.{Report as ReportValue};
ghost use Rattle.whole_reports.specs.Walk.{IsFirstBad};
ghost use Rattle.report_lines.specs.Grammar.{text_of};
ghost use Rattle.whole_reports.specs.Reports.{done, is_well_formed, report_of};
ghost use Rattle.report_rules.specs.Following.{after, names_text, start};

/// A law of the reader as a definition: it reads exactly the texts of well-formed reports, each as the report whose
/// text it is, and answers any other text with its first bad line; and no two reports have one text.
#[tactic(auto, using(crate::proofs::ReportLaws::report_found, crate::proofs::ReportLaws::report_only, crate::proofs::ReportLaws::report_bad, crate::proofs::ReportLaws::report_bad_only, crate::proofs::ReportLaws::one_text))]
pub fn reports_are_read()
    ensures found { (bytes : List ℕ) (r : ReportValue) → report_of bytes ≡ Ok r → (is_well_formed r ≡ true) × (bytes ≡ text_of r) }
    ensures only { (r : ReportValue) → is_well_formed r ≡ true → report_of (text_of r) ≡ Ok r }
    ensures bad { (bytes : List ℕ) (k : ℕ) → report_of bytes ≡ Err k → IsFirstBad names_text after done start bytes k }
    ensures bad_only { (bytes : List ℕ) (k : ℕ) → IsFirstBad names_text after done start bytes k → report_of bytes ≡ Err k }
    ensures one { (r s : ReportValue) → is_well_formed r ≡ true → is_well_formed s ≡ true → text_of r ≡ text_of s → r ≡ s }
{}
