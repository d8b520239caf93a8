//! The lines of the atoms of a loop's bound.

ghost use Rattle.linear_rows.specs.NormalForm.{is_within};
ghost use Rattle.std.specs.Ordering.{ordering_then, nat_cmp, int_cmp};
ghost use Rattle.std.specs.Prelude.{◌≡◌};
ghost use Rattle.report_rules.specs.Following.{after_atom, atom_ok, coefs_cmp, coefs_from, last_atom, last_of, may};
ghost use Rattle.report_lines.specs.declared.report.Line.TheVariants as line;

use crate::forms::Form;
use crate::naming::param_exists;
use crate::row_lines::is_less;
use crate::sections::{any, no_rows};
use linear_rows::order;
use report_lines::ReportLoop;
use std::cmp::Ordering;
use wsym_terms::{Atom, Coef, ParamRange};

fn is_within(number: i128) -> bool
    ensures { result ≡ is_within number }
{
    number.unsigned_abs() <= 1 << 90
}

fn coefs_ascend(params: &[ParamRange], coefs: &[Coef]) -> bool
    ensures { result ≡ coefs_from params.now 0 coefs.now }
{
    let mut least = 0_u64;
    for coef in coefs {
        let Coef { param, factor } = *coef;
        if u64::from(param) < least
            || !param_exists(params, param)
            || !is_within(factor)
            || factor == 0
        {
            return false;
        }
        least = u64::from(param) + 1;
    }
    true
}

fn coef_order(first: Coef, second: Coef) -> Ordering
    ensures { result ≡ ordering_then (nat_cmp first.param second.param) (int_cmp first.factor second.factor) }
{
    first
        .param
        .cmp(&second.param)
        .then(first.factor.cmp(&second.factor))
}

fn coefs_order(first: &[Coef], second: &[Coef]) -> Ordering
    ensures { result ≡ coefs_cmp first.now second.now }
{
    let mut first = first;
    let mut second = second;
    while let Some((x, xs)) = first.split_first() {
        match second.split_first() {
            Some((y, ys)) => {
                let order = coef_order(*x, *y);
                if order != Ordering::Equal {
                    return order;
                }
                second = ys;
            }
            None => return Ordering::Greater,
        }
        first = xs;
    }
    if any(second) {
        Ordering::Less
    } else {
        Ordering::Equal
    }
}

fn atom_order(first: &Atom, second: &Atom) -> Ordering
    ensures { result ≡ ordering_then (ordering_then (int_cmp first.now.divisor second.now.divisor) (int_cmp first.now.constant second.now.constant)) (coefs_cmp first.now.coefs second.now.coefs) }
{
    first
        .divisor
        .cmp(&second.divisor)
        .then(first.constant.cmp(&second.constant))
        .then(coefs_order(first.coefs.as_slice(), second.coefs.as_slice()))
}

fn after_last(atoms: &[Atom], atom: &Atom) -> bool
    ensures { result ≡ after_atom (last_of atoms.now) atom.now }
{
    if atoms.is_empty() {
        return true;
    }
    is_less(atom_order(&atoms[atoms.len() - 1], atom))
}

fn after_atom(loops: &[ReportLoop], atom: &Atom) -> bool
    ensures { result ≡ after_atom (last_atom (last_of loops.now)) atom.now }
{
    if loops.is_empty() {
        return true;
    }
    after_last(loops[loops.len() - 1].bound.atoms.as_slice(), atom)
}

fn atom_ok(form: &Form, atom: &Atom) -> bool
    ensures { result ≡ atom_ok form.now atom.now }
{
    form.owed > 0
        && any(form.loops.as_slice())
        && is_within(atom.constant)
        && is_within(atom.divisor)
        && atom.divisor > 0
        && coefs_ascend(form.params.as_slice(), atom.coefs.as_slice())
        && after_atom(form.loops.as_slice(), atom)
}

pub(crate) fn may_atom(form: &Form, atom: &Atom) -> bool
    ensures { result ≡ may form.now (line.Atom atom.now) }
{
    atom_ok(form, atom) && no_rows(form)
}
