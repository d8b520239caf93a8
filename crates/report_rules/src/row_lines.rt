//! The lines of rows and facts.

ghost use Rattle.linear_rows.specs.Variables.{var_cmp};
ghost use Rattle.std.specs.Ordering.{ordering_then, nat_cmp, int_cmp};
ghost use Rattle.std.specs.Prelude.{◌≡◌};
ghost use Rattle.report_rules.specs.Following.{after_fact, after_row, fact_ok, is_less, is_row, last_of, may, row_cmp, row_ok, terms_cmp};
ghost use Rattle.report_lines.specs.declared.report.Line.TheVariants as line;

use crate::forms::Form;
use crate::naming::{point_exists, vars_exist};
use crate::sections::{any, is_first, is_level, is_second, no_facts, no_proofs};
use linear_rows::{Row, RowTerm, order};
use report_lines::{Fact, ReportRow};
use std::cmp::Ordering;

#[tactic(auto, using(crate::proofs::RowTests::row_tested))]
fn is_row(row: &Row) -> bool
    ensures { result ≡ is_row row.now }
{
    let _terms = row.terms();
    true
}

fn term_order(first: RowTerm, second: RowTerm) -> Ordering
    ensures { result ≡ ordering_then (var_cmp first.var second.var) (int_cmp first.factor second.factor) }
{
    order(&first.var, &second.var).then(first.factor.cmp(&second.factor))
}

fn terms_order(first: &[RowTerm], second: &[RowTerm]) -> Ordering
    ensures { result ≡ terms_cmp first.now second.now }
{
    let mut first = first;
    let mut second = second;
    while let Some((x, xs)) = first.split_first() {
        match second.split_first() {
            Some((y, ys)) => {
                let order = term_order(*x, *y);
                if order != Ordering::Equal {
                    return order;
                }
                second = ys;
            }
            None => return Ordering::Greater,
        }
        first = xs;
    }
    if any(second) {
        Ordering::Less
    } else {
        Ordering::Equal
    }
}

fn row_order(first: &Row, second: &Row) -> Ordering
    ensures { result ≡ row_cmp first.now second.now }
{
    terms_order(first.terms(), second.terms()).then(first.constant().cmp(&second.constant()))
}

fn fact_order(first: &Fact, second: &Fact) -> Ordering
    ensures { result ≡ ordering_then (ordering_then (nat_cmp first.now.block second.now.block) (nat_cmp first.now.index second.now.index)) (row_cmp first.now.row second.now.row) }
{
    first
        .block
        .cmp(&second.block)
        .then(first.index.cmp(&second.index))
        .then(row_order(&first.row, &second.row))
}

pub(crate) fn is_less(order: Ordering) -> bool
    ensures { result ≡ is_less order }
{
    match order {
        Ordering::Less => true,
        Ordering::Equal | Ordering::Greater => false,
    }
}

fn after_fact(facts: &[Fact], fact: &Fact) -> bool
    ensures { result ≡ after_fact (last_of facts.now) fact.now }
{
    if facts.is_empty() {
        return true;
    }
    is_less(fact_order(&facts[facts.len() - 1], fact))
}

fn fact_ok(form: &Form, number: u32, fact: &Fact) -> bool
    ensures { result ≡ fact_ok form.now number fact.now }
{
    number as usize == form.facts.len()
        && point_exists(form, fact.block, fact.index)
        && is_row(&fact.row)
        && vars_exist(form, fact.row.terms())
        && after_fact(form.facts.as_slice(), fact)
}

pub(crate) fn may_state(form: &Form, number: u32, fact: &Fact) -> bool
    ensures { result ≡ may form.now (line.Fact number fact.now) }
{
    fact_ok(form, number, fact) && is_second(form) && is_level(form) && no_proofs(form)
}

fn row_line_order(first: &ReportRow, second: &ReportRow) -> Ordering
    ensures { result ≡ ordering_then (nat_cmp first.now.block second.now.block) (row_cmp first.now.row second.now.row) }
{
    first
        .block
        .cmp(&second.block)
        .then(row_order(&first.row, &second.row))
}

fn after_row(rows: &[ReportRow], row: &ReportRow) -> bool
    ensures { result ≡ after_row (last_of rows.now) row.now }
{
    if rows.is_empty() {
        return true;
    }
    is_less(row_line_order(&rows[rows.len() - 1], row))
}

fn row_ok(form: &Form, row: &ReportRow) -> bool
    ensures { result ≡ row_ok form.now row.now }
{
    form.loops.has_header(row.block)
        && is_row(&row.row)
        && vars_exist(form, row.row.terms())
        && after_row(form.rows.as_slice(), row)
}

pub(crate) fn may_row(form: &Form, row: &ReportRow) -> bool
    ensures { result ≡ may form.now (line.Row row.now) }
{
    row_ok(form, row) && is_first(form) && is_level(form) && no_facts(form)
}
