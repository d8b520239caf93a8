//! The value of a report's formula, and its text.

ghost use Rattle.std.specs.Prelude.{◌⊎◌, IfOk, IfErr};
ghost use Rattle.wsymb_top.specs.Outcomes.{IsBadValue, IsOfValue, IsRefusal, IsValueText, Outcome};
ghost use Rattle.report_values.specs.Evaluations.{HasFittingBounds};
ghost use Rattle.wsymb_top.specs.Refusals.{IsMemory};

use crate::refusals::Refusal;
use command_words::{NamedValue, Valuation};
use report_lines::Report;
use report_values::{ValueRefusal, evaluate, read_reports_fit, value_line};
use std::alloc::Global;
use whole_reports::{ReadRefusal, read_report, reports_are_read};

/// The line of the value of a report's formula, or why there is none.
pub(crate) fn value_of(
    alloc: Global,
    valuation: &Valuation,
    bytes: &[u8],
) -> Result<Vec<u8>, Refusal>
    ensures text { IfOk result (λ text. IsOfValue valuation.now.values bytes.now (Outcome.Answers text.items)) }
    ensures refused { IfErr result (IsRefusal (IsOfValue valuation.now.values bytes.now)) }
{
    reports_are_read();
    read_reports_fit();
    match read_report(alloc, bytes) {
        Ok(report) => value_in(alloc, &report, valuation.values.as_slice()),
        Err(ReadRefusal::Bad { line }) => Err(Refusal::BadReport(line)),
        Err(ReadRefusal::Memory) => Err(Refusal::Memory),
    }
}

/// The line of the value of a report's formula at values by name.
fn value_in(alloc: Global, report: &Report, values: &[NamedValue]) -> Result<Vec<u8>, Refusal>
    requires { HasFittingBounds report.now }
    ensures text { IfOk result (λ text. IsValueText report.now values.now text.items) }
    ensures refused { IfErr result (λ why. IsMemory why ⊎ IsBadValue report.now values.now why) }
{
    match evaluate(alloc, report, values) {
        Ok(value) => match value_line(alloc, value) {
            Ok(line) => Ok(line.into_bytes()),
            Err(_) => Err(Refusal::Memory),
        },
        Err(ValueRefusal::Bad { name }) => Err(Refusal::BadValue(name)),
        Err(ValueRefusal::Memory) => Err(Refusal::Memory),
    }
}
