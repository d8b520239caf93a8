//! Reads a text line by line.

ghost use Rattle.std.specs.Prelude.{◌≡◌, ◌≢◌, [], Err, IfOk, List, Ok, true, ℕ};
ghost use Rattle.whole_reports.specs.declared.verdicts.ReadRefusal.TheVariants as refusal;
ghost use Rattle.report_lines.specs.declared.report.Report.{Report as ReportValue};
ghost use Rattle.whole_reports.specs.Walk.{IsFirstBad, ended, take_line};
ghost use Rattle.report_lines.specs.Grammar.{text_of};
ghost use Rattle.whole_reports.specs.Reports.{done, is_well_formed, read_line, report_of, report_walk, verdict_of};
ghost use Rattle.report_rules.specs.Following.{after, names_text, start};

use crate::verdicts::{ReadRefusal, Verdict};
use report_lines::{Report, read_line};
use report_rules::{Form, ReadLoops, follow};
use sqlite_items::Items;
use std::alloc::{AllocError, Global};

fn next_form(alloc: Global, form: Form, text: &[u8]) -> Result<Option<Form>, AllocError>
    ensures { IfOk result (λ o. o ≡ take_line read_line after done form text.now) }
{
    match read_line(alloc, form.params.as_slice(), text)? {
        Some(line) => follow(alloc, form, line),
        None => Ok(None),
    }
}

fn finish(form: Form, line: &[u8], number: u64) -> Verdict
    ensures { result ≡ verdict_of (ended number line.now (done form)) }
{
    if !line.is_empty() {
        return Verdict::Bad { line: number };
    }
    match whole(form) {
        Some(report) => Verdict::Good(report),
        None => Verdict::Bad { line: number },
    }
}

fn whole(form: Form) -> Option<Report>
    ensures { result ≡ done form }
{
    let Form {
        version,
        function,
        timing,
        params,
        blocks,
        loops,
        owed,
        rows,
        facts,
        proofs,
        tree,
        formula,
        ended,
    } = form;
    if !ended || owed != 0 {
        return None;
    }
    let version = version?;
    let function = function?;
    let timing = timing?;
    let tree = tree?;
    let formula = formula?;
    Some(Report {
        version,
        entry: function.entry,
        stack: function.stack,
        timing,
        params,
        blocks,
        loops: loops.into_items(),
        rows,
        facts,
        proofs,
        tree,
        formula,
    })
}

fn walk(alloc: Global, form: Form, text: &[u8]) -> Result<Verdict, AllocError>
    ensures { IfOk result (λ v. v ≡ verdict_of (report_walk 1 [] form text.now)) }
{
    let mut form = form;
    let mut number = 1;
    let mut line: Vec<u8> = Vec::new(alloc);
    for byte in text {
        let byte = *byte;
        if byte == 10 {
            match next_form(alloc, form, line.as_slice())? {
                Some(next) => form = next,
                None => return Ok(Verdict::Bad { line: number }),
            }
            line.clear();
            number += 1;
        } else {
            line.push(byte)?;
        }
    }
    Ok(finish(form, line.as_slice(), number))
}

fn begin(alloc: Global) -> Form
    ensures { result ≡ start }
{
    Form {
        version: None,
        function: None,
        timing: None,
        params: Items::new(alloc),
        blocks: Items::new(alloc),
        loops: ReadLoops::new(alloc),
        owed: 0,
        rows: Items::new(alloc),
        facts: Items::new(alloc),
        proofs: Items::new(alloc),
        tree: None,
        formula: None,
        ended: false,
    }
}

fn verdict(alloc: Global, text: &[u8]) -> Result<Verdict, AllocError>
    ensures { IfOk result (λ v. v ≡ verdict_of (report_of text.now)) }
{
    walk(alloc, begin(alloc), text)
}

/// Reads a report of either version; else it names the first line that may not stand where it stands.
#[tactic(auto, using(crate::proofs::VerdictLaws::good_found, crate::proofs::VerdictLaws::good_only, crate::proofs::VerdictLaws::not_good, crate::proofs::VerdictLaws::bad_first))]
pub fn read_report(alloc: Global, bytes: &[u8]) -> Result<Report, ReadRefusal>
    ensures found { IfOk result (λ r. (is_well_formed r ≡ true) × (bytes.now ≡ text_of r)) }
    ensures only { (r : ReportValue) → is_well_formed r ≡ true → bytes.now ≡ text_of r → IfOk result (λ x. x ≡ r) }
    ensures never { (r : ReportValue) (k : ℕ) → is_well_formed r ≡ true → bytes.now ≡ text_of r → result ≢ Err (refusal.Bad k) }
    ensures bad { (k : ℕ) → result ≡ Err (refusal.Bad k) → IsFirstBad names_text after done start bytes.now k }
{
    match verdict(alloc, bytes) {
        Ok(Verdict::Good(report)) => Ok(report),
        Ok(Verdict::Bad { line }) => Err(ReadRefusal::Bad { line }),
        Err(_) => Err(ReadRefusal::Memory),
    }
}
