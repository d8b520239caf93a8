//! Whether a formula may stand in a report.

ghost use Rattle.std.specs.Prelude.{◌≡◌, ◌&&◌, map, nat_lt};
ghost use Rattle.report_elements.specs.ConstantReading.{cost_fits, costs_fit, run_fits, runs_fit};
ghost use Rattle.report_elements.specs.Constants.{is_list, list_fits};
ghost use Rattle.report_elements.specs.FormulaReading.{fits};
ghost use Rattle.report_elements.specs.TreeReading.{all_fit, is_loop};

use crate::constants::{descending, few};
use crate::tree_limits::is_loop;
use cost_multiset::{Multi, Run};
use wsym_formula::Term;
use wsym_terms::Cost;

fn cost_fits(cost: Cost) -> bool
    ensures { result ≡ cost_fits cost }
{
    match cost {
        Cost::Fin(cycles) => cycles < 1 << 127,
        Cost::Beyond | Cost::Unbounded => false,
    }
}

fn runs_fit(runs: &[Run]) -> bool
    ensures { result ≡ runs_fit runs.now }
{
    for run in runs {
        if !cost_fits(run.value) || run.count >= 1 << 63 {
            return false;
        }
    }
    true
}

fn costs_fit(runs: &[Run], tail: Cost) -> bool
    ensures { result ≡ costs_fit (record { runs = runs.now; tail = tail }) }
{
    runs_fit(runs) && cost_fits(tail)
}

fn is_list(runs: &[Run], tail: Cost) -> bool
    ensures { result ≡ is_list (record { runs = runs.now; tail = tail }) }
{
    descending(runs, tail) && few(runs)
}

fn list_fits(costs: &Multi) -> bool
    ensures { result ≡ list_fits costs.now }
{
    let runs = costs.runs();
    let tail = costs.tail();
    let fit = costs_fit(runs, tail);
    let descends = is_list(runs, tail);
    fit && descends
}

fn named(id: u32, loops: usize, body: bool) -> bool
    ensures { result ≡ (is_loop loops id && body) }
{
    is_loop(id, loops) && body
}

/// Whether a formula may stand in a report of that many loops: they exist, its constants are lists of finite costs, and
/// at most `room` of its terms stand in one another.
#[cycle(fitting)]
#[tactic(auto, using(crate::proofs::FormulaLaws::fits_const, crate::proofs::FormulaLaws::fits_sum, crate::proofs::FormulaLaws::fits_alt, crate::proofs::FormulaLaws::fits_power, crate::proofs::FormulaLaws::fits_once, crate::proofs::FormulaLaws::fits_scaled))]
pub fn term_fits(term: &Term, loops: usize, room: usize) -> bool
    ensures { result ≡ fits loops list_fits term.now room }
{
    if room == 0 {
        return false;
    }
    match term {
        Term::Const(costs) => list_fits(costs),
        Term::Sum(members) => terms_fit(members.as_slice(), loops, room - 1),
        Term::Alt(choices) => terms_fit(choices.as_slice(), loops, room - 1),
        Term::Power { id, body } => named(*id, loops, term_fits(body.get(), loops, room - 1)),
        Term::Once(body) => term_fits(body.get(), loops, room - 1),
        Term::Scaled { id, body } => named(*id, loops, term_fits(body.get(), loops, room - 1)),
    }
}

#[cycle(fitting)]
fn terms_fit(terms: &[Term], loops: usize, room: usize) -> bool
    ensures { result ≡ all_fit (map (fits loops list_fits) terms.now) room }
{
    for term in terms {
        if !term_fits(term, loops, room) {
            return false;
        }
    }
    true
}
