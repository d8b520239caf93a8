//! The value of a formula.

ghost use Rattle.std.specs.Prelude.{◌≡◌, Err, Ok, IfOk, List, ℕ, ℤ, length, All};
ghost use Rattle.wsym_terms.specs.Costs.{cost_of};
ghost use Rattle.report_lines.specs.Values.{AreInRange, value_of_formula};
ghost use Rattle.report_values.specs.declared.naming.ValueRefusal.TheVariants as refusal;
ghost use Rattle.report_values.specs.Evaluations.{HasFittingBounds, IsValueAt, bounds_of};
ghost use Rattle.report_values.specs.Naming.{named_values};

use crate::bounds::bounds_of;
use crate::naming::{ValueRefusal, named_values};
use command_words::NamedValue;
use report_lines::Report;
use std::alloc::{AllocError, Global};
use wsym_formula::{has_few_counts, value};
use wsym_terms::Cost;

/// The value of a report's formula over one execution, at values of the parameters by their names: a number of cycles
/// below 2^127, Beyond where it is finite and greater, Unbounded where it is infinite.
///
/// The loops' bounds have atoms over the report's parameters: each at most 13 of them, numbers of a magnitude of at
/// most 2^90, and a divisor of at least 1. That is so in each report that is read (`read_reports_fit`).
///
/// # Errors
///
/// The first value whose name is no parameter's or stands before it, or that is out of its parameter's range. Where
/// there is none, the first parameter without a value. Memory where it is refused, or where a node of the formula's
/// table stands for a term whose constants have 2^63 counts or more together.
#[tactic(auto, using(crate::proofs::NamedAndBound::ranged, crate::proofs::NamedAndBound::as_many))]
pub fn evaluate(alloc: Global, report: &Report, values: &[NamedValue]) -> Result<Cost, ValueRefusal>
    requires { HasFittingBounds report.now }
    ensures value { IfOk result (IsValueAt report.now values.now) }
    ensures bad { (name : List ℕ) → result ≡ Err (refusal.Bad name)
        → named_values report.now.params values.now ≡ Err name }
{
    let at = named_values(alloc, report.params.as_slice(), values)?;
    value_at(alloc, report, at.as_slice()).map_err(|_| ValueRefusal::Memory)
}

/// The value at values of the parameters in their order.
#[tactic(auto, using(crate::proofs::NamedAndBound::fitting, crate::proofs::NamedAndBound::same_value))]
fn value_at(alloc: Global, report: &Report, at: &[i32]) -> Result<Cost, AllocError>
    requires bounds { HasFittingBounds report.now }
    requires values { length at.now ≡ length report.now.params }
    ensures { IfOk result (λ cost. cost ≡ cost_of (value_of_formula report.now at.now)) }
{
    let bounds = bounds_of(alloc, report.loops.as_slice())?;
    let table = report.formula.table();
    if !has_few_counts(alloc, table)? {
        return Err(AllocError);
    }
    let cost = value(alloc, table, &bounds, at)?;
    Ok(cost)
}
