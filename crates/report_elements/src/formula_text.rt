//! Writes formulas.

ghost use Rattle.std.specs.Prelude.{◌≡◌, ◌++◌, ◌∷◌, OnOk, string_bytes, codes};
ghost use Rattle.report_elements.specs.Elements.{cost_text, run_text, runs_text, further_runs, costs_text, spaced, term_text};

use cost_multiset::{Multi, Run};
use std::alloc::AllocError;
use std::fmt::Write;
use wsym_formula::Term;
use wsym_terms::Cost;

/// Writes a formula.
#[cycle(terms)]
pub fn push_term(out: &mut String, term: &Term) -> Result<(), AllocError>
    ensures { OnOk result (string_bytes out.new ≡ string_bytes out.old ++ term_text term.now) }
{
    match term {
        Term::Const(costs) => push_costs(out, costs),
        Term::Sum(members) => {
            out.push_str("(sum")?;
            push_terms(out, members.as_slice())?;
            out.push_str(")")?;
            Ok(())
        }
        Term::Alt(choices) => {
            out.push_str("(alt")?;
            push_terms(out, choices.as_slice())?;
            out.push_str(")")?;
            Ok(())
        }
        Term::Power { id, body } => {
            write!(out, "(power {id} ")?;
            push_term(out, body.get())?;
            out.push_str(")")?;
            Ok(())
        }
        Term::Once(body) => {
            out.push_str("(once ")?;
            push_term(out, body.get())?;
            out.push_str(")")?;
            Ok(())
        }
        Term::Scaled { id, body } => {
            write!(out, "(scaled {id} ")?;
            push_term(out, body.get())?;
            out.push_str(")")?;
            Ok(())
        }
    }
}

/// Writes a space and a formula for each formula.
#[cycle(terms)]
fn push_terms(out: &mut String, terms: &[Term]) -> Result<(), AllocError>
    ensures { OnOk result (string_bytes out.new ≡ string_bytes out.old ++ spaced term_text terms.now) }
{
    for term in terms {
        out.push_str(" ")?;
        push_term(out, term)?;
    }
    Ok(())
}

/// Writes a list of costs.
pub(crate) fn push_costs(out: &mut String, costs: &Multi) -> Result<(), AllocError>
    ensures { OnOk result (string_bytes out.new ≡ string_bytes out.old ++ costs_text costs.now) }
{
    out.push_str("{")?;
    push_runs(out, costs.runs())?;
    out.push_str("|")?;
    push_cost(out, costs.tail())?;
    out.push_str("}")
}

/// Writes runs, with a comma between two.
fn push_runs(out: &mut String, runs: &[Run]) -> Result<(), AllocError>
    ensures { OnOk result (string_bytes out.new ≡ string_bytes out.old ++ runs_text runs.now) }
{
    match runs.split_first() {
        Some((first, others)) => {
            push_run(out, *first)?;
            push_further_runs(out, others)
        }
        None => Ok(()),
    }
}

/// Writes a comma and a run for each run.
fn push_further_runs(out: &mut String, runs: &[Run]) -> Result<(), AllocError>
    ensures { OnOk result (string_bytes out.new ≡ string_bytes out.old ++ further_runs runs.now) }
{
    for run in runs {
        out.push_str(",")?;
        push_run(out, *run)?;
    }
    Ok(())
}

/// Writes a run: its value, and its count where that is more than 1.
fn push_run(out: &mut String, run: Run) -> Result<(), AllocError>
    ensures { OnOk result (string_bytes out.new ≡ string_bytes out.old ++ run_text run) }
{
    push_cost(out, run.value)?;
    if run.count == 1 {
        return Ok(());
    }
    let count = run.count;
    write!(out, "*{count}")?;
    Ok(())
}

/// Writes a cost.
fn push_cost(out: &mut String, cost: Cost) -> Result<(), AllocError>
    ensures { OnOk result (string_bytes out.new ≡ string_bytes out.old ++ cost_text cost) }
{
    match cost {
        Cost::Fin(cycles) => {
            write!(out, "{cycles}")?;
            Ok(())
        }
        Cost::Beyond => out.push_str("beyond"),
        Cost::Unbounded => out.push_str("unbounded"),
    }
}
