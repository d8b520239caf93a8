ghost use Rattle.std.specs.Prelude.{◌≡◌, ◌<◌, ◌+◌, ℕ, ℤ, pos, negsuc, ◌+ℤ◌, int_le, int_lt, if◌then◌else◌, true, false, max, unsigned_abs, List, IfOk, IfSome, MatchOption, IsTrue, ◌↔◌};
ghost use Rattle.linear_rows.specs.NormalForm.{gcd, divided, floor, common_divisor, all_within};
ghost use Rattle.linear_rows.specs.Terms.{factor_of, scaled_terms, IsCollected, IsAscending};
ghost use Rattle.linear_rows.specs.Forms.{weighted_constant_within, weighted_terms_within};
ghost use Rattle.linear_rows.specs.Terms.{is_zero};
ghost use Rattle.row_elimination.specs.Derivations.{divisor_of_all};
ghost use Rattle.row_elimination.specs.Steps.{are_negated, are_same};

use crate::weights::{Multiplier, Support};
use linear_rows::{
    Row, RowTerm, Terms, Var, Weight, factor, greatest_common_divisor, order, quotient, weigh,
    weigh_constants,
};
use sqlite_items::Items;
use std::alloc::{AllocError, Global};
use std::cmp::Ordering;
use std::marker::Model;

/// A row derived from given ones: terms, plus a multiple of one more variable, the last, are at most a
/// constant. The last variable stands for the left side of a row that is tested.
#[derive(Drop)]
pub struct Derived {
    terms: Terms,
    last: i128,
    constant: i128,
    support: Support,
}

impl Model for Derived {
    ghost use Rattle.row_elimination.specs.Derivations.{Derivation};
    ghost use Rattle.linear_rows.specs.Terms.{IsCollected};

    ghost Value = { Derivation };

    ghost view = { λ d. record { terms = d.terms; last = d.last; constant = d.constant; support = d.support } };

    ghost invariant = { λ d. IsCollected d.terms };
}

impl Derived {
    ghost use Rattle.linear_rows.specs.Rows.{Inequality};
    ghost use Rattle.row_elimination.specs.Derivations.{given, at_most_last, at_least_last, combination, combination_fits, size_of, sum_stays_small, weighted_sum};
    ghost use Rattle.row_elimination.specs.Steps.{bounds_last, is_absurd, is_negation, is_alike, is_plain, has_no_terms, mentions, has_positive, has_negative};

    /// The row at a place of the given list.
    pub fn given(alloc: Global, place: u64, row: &Row) -> Result<Derived, AllocError>
        ensures is { IfOk result (λ d. d ≡ given place row.now) }
        ensures collected { IfOk result (λ d. IsCollected d.terms) }
    {
        let mut multipliers = Items::new(alloc);
        multipliers.push(Multiplier {
            row: place,
            factor: 1,
        })?;
        Ok(Derived {
            terms: copy(alloc, row.terms())?,
            last: 0,
            constant: row.constant(),
            support: Support {
                multipliers,
                divisor: 1,
            },
        })
    }

    /// The row that says that the terms of a row are at most the last variable.
    pub fn at_most_last(alloc: Global, row: &Row) -> Result<Derived, AllocError>
        ensures is { IfOk result (λ d. d ≡ at_most_last row.now.terms) }
        ensures collected { IfOk result (λ d. IsCollected d.terms) }
    {
        Ok(Derived {
            terms: copy(alloc, row.terms())?,
            last: -1,
            constant: 0,
            support: Support::none(alloc),
        })
    }

    /// The row that says that the last variable is at most the terms of a row.
    pub fn at_least_last(alloc: Global, row: &Row) -> Result<Derived, AllocError>
        ensures is { IfOk result (λ d. d ≡ at_least_last row.now.terms) }
        ensures collected { IfOk result (λ d. IsCollected d.terms) }
    {
        Ok(Derived {
            terms: negate(alloc, row.terms())?,
            last: 1,
            constant: 0,
            support: Support::none(alloc),
        })
    }

    /// The combination with another row that has no more the variable, of which this row has a positive factor and
    /// the other a negative one. None exactly where a number of which it is made has a magnitude of 2^127 or more.
    pub fn combine(
        &self,
        alloc: Global,
        var: &Var,
        other: &Derived,
    ) -> Result<Option<Derived>, AllocError>
        requires positive { has_positive var.now self.now ≡ true }
        requires negative { has_negative var.now other.now ≡ true }
        ensures { IfOk result (λ o. MatchOption o (combination_fits var.now self.now other.now ≡ false) (λ d. (combination_fits var.now self.now other.now ≡ true) × (d ≡ combination var.now self.now other.now))) }
    {
        let a = other.size(var);
        let b = self.size(var);
        self.weighted(alloc, a, other, b)
    }

    /// The terms.
    pub fn terms(&self) -> &[RowTerm]
        ensures { result.now ≡ self.now.terms }
    {
        self.terms.as_slice()
    }

    /// The factor of a variable.
    pub fn factor(&self, var: &Var) -> i128
        ensures { result ≡ factor_of var.now self.now.terms }
    {
        factor(self.terms.as_slice(), var)
    }

    /// Whether it has a factor of a variable.
    pub fn mentions(&self, var: &Var) -> bool
        ensures { result ≡ mentions var.now self.now }
    {
        self.factor(var) != 0
    }

    /// Whether it has a positive factor of a variable.
    pub fn is_positive_in(&self, var: &Var) -> bool
        ensures { result ≡ has_positive var.now self.now }
    {
        self.factor(var) > 0
    }

    /// Whether it has a negative factor of a variable.
    pub fn is_negative_in(&self, var: &Var) -> bool
        ensures { result ≡ has_negative var.now self.now }
    {
        self.factor(var) < 0
    }

    /// The magnitude of a variable's factor.
    pub fn size(&self, var: &Var) -> u128
        ensures { result ≡ size_of var.now self.now }
    {
        self.factor(var).unsigned_abs()
    }

    /// The factor of the last variable.
    pub fn last(&self) -> i128
        ensures { result ≡ self.now.last }
    {
        self.last
    }

    /// What the rest is at most.
    pub fn constant(&self) -> i128
        ensures { result ≡ self.now.constant }
    {
        self.constant
    }

    /// Whether each number is that of the other row negated.
    pub fn is_negation(&self, other: &Derived) -> bool
        ensures { result ≡ is_negation self.now other.now }
    {
        are_negated(self.terms.as_slice(), other.terms.as_slice())
            && cancel(self.last(), other.last())
            && cancel(self.constant(), other.constant())
    }

    /// Whether the left side is that of the other row.
    pub fn is_alike(&self, other: &Derived) -> bool
        ensures { result ≡ is_alike self.now other.now }
    {
        are_same(self.terms.as_slice(), other.terms.as_slice()) && self.last() == other.last()
    }

    /// Whether it says nothing: no terms, and a constant of at least 0.
    pub fn is_plain(&self) -> bool
        ensures { result ≡ is_plain self.now }
    {
        self.is_bare() && self.last() == 0 && is_natural(self.constant())
    }

    /// Whether it has no terms.
    pub fn is_bare(&self) -> bool
        ensures { result ≡ has_no_terms self.now.terms }
    {
        self.terms.as_slice().is_empty()
    }

    /// Whether it holds nowhere: no terms and no multiple of the last variable, and a negative constant.
    pub fn is_absurd(&self) -> bool
        ensures { result ≡ is_absurd self.now }
    {
        self.is_bare() && self.last() == 0 && self.constant() < 0
    }

    /// Whether it bounds the last variable from above, or from below.
    pub fn bounds_last(&self, up: bool) -> bool
        ensures { result ≡ bounds_last up self.now }
    {
        self.is_bare() && is_signed(self.last(), up)
    }

    /// What supports it.
    pub fn support(&self) -> &Support
        ensures { result.now ≡ self.now.support }
    {
        &self.support
    }

    /// a times this row plus b times another, divided by the greatest common divisor of all numbers. None
    /// where a number of which it is made passes the limit.
    fn weighted(
        &self,
        alloc: Global,
        a: u128,
        other: &Derived,
        b: u128,
    ) -> Result<Option<Derived>, AllocError>
        ensures { IfOk result (λ o. MatchOption o (sum_stays_small a self.now b other.now ≡ false) (λ d. (sum_stays_small a self.now b other.now ≡ true) × (d ≡ weighted_sum a self.now b other.now))) }
    {
        let Some(last) = weigh_numbers(a, self.last(), b, other.last()) else {
            return Ok(None);
        };
        let Some(constant) = weigh_numbers(a, self.constant(), b, other.constant()) else {
            return Ok(None);
        };
        let Some(terms) = weigh_terms(alloc, a, &self.terms, b, &other.terms)? else {
            return Ok(None);
        };
        let divisor = divisor_of(terms.as_slice(), last, constant);
        let Some(support) = self.support.combine(alloc, a, &other.support, b, divisor)? else {
            return Ok(None);
        };
        let terms = divide(alloc, terms.as_slice(), divisor)?;
        let last = quotient(last, divisor);
        let constant = quotient(constant, divisor);
        Ok(Some(Derived {
            terms,
            last,
            constant,
            support,
        }))
    }
}

/// Whether a number is positive, or negative.
fn is_signed(number: i128, positive: bool) -> bool
    ensures { result ≡ (if positive then int_lt (pos 0) number else int_lt number (pos 0)) }
{
    if positive { number > 0 } else { number < 0 }
}

/// Whether a number is at least 0.
fn is_natural(number: i128) -> bool
    ensures { result ≡ int_le (pos 0) number }
{
    number >= 0
}

/// Whether the sum of two numbers is 0.
fn cancel(first: i128, second: i128) -> bool
    ensures { result ≡ is_zero (first +ℤ second) }
{
    first.checked_add(second) == Some(0)
}

/// Whether the terms are those of the other list with negated factors.
fn are_negated(first: &[RowTerm], second: &[RowTerm]) -> bool
    ensures { result ≡ are_negated first.now second.now }
{
    let mut left = first;
    let mut right = second;
    while let Some((x, rest)) = left.split_first() {
        let Some((y, others)) = right.split_first() else {
            return false;
        };
        if !(order(&x.var, &y.var) == Ordering::Equal && cancel(x.factor, y.factor)) {
            return false;
        }
        left = rest;
        right = others;
    }
    right.is_empty()
}

/// Whether the terms are those of the other list.
pub fn are_same(first: &[RowTerm], second: &[RowTerm]) -> bool
    ensures { result ≡ are_same first.now second.now }
{
    let mut left = first;
    let mut right = second;
    while let Some((x, rest)) = left.split_first() {
        let Some((y, others)) = right.split_first() else {
            return false;
        };
        if !(order(&x.var, &y.var) == Ordering::Equal && x.factor == y.factor) {
            return false;
        }
        left = rest;
        right = others;
    }
    right.is_empty()
}

/// The weighted sum of two numbers, None where a product or the sum passes the limit.
fn weigh_numbers(a: u128, first: i128, b: u128, second: i128) -> Option<i128>
    ensures { result ≡ weighted_constant_within (pos a) first (pos b) second }
{
    weigh_constants(Weight::times(a), first, Weight::times(b), second)
}

/// The weighted sum of two lists of terms, None where a product or a sum passes the limit.
fn weigh_terms(
    alloc: Global,
    a: u128,
    first: &Terms,
    b: u128,
    second: &Terms,
) -> Result<Option<Terms>, AllocError>
    requires first { IsAscending first.now }
    requires second { IsAscending second.now }
    ensures exact { IfOk result (λ o. o ≡ weighted_terms_within (pos a) first.now (pos b) second.now) }
    ensures collected { IfOk result (λ o. IfSome o (λ ts. IsCollected ts)) }
{
    let xs = first.as_slice();
    let ys = second.as_slice();
    weigh(alloc, xs, Weight::times(a), ys, Weight::times(b))
}

/// The same terms.
fn copy(alloc: Global, terms: &[RowTerm]) -> Result<Terms, AllocError>
    ensures { IfOk result (λ ts. ts ≡ terms.now) }
{
    let mut out = Terms::new(alloc);
    for term in terms {
        out.push(*term)?;
    }
    Ok(out)
}

/// The terms with each factor divided.
fn divide(alloc: Global, terms: &[RowTerm], divisor: u128) -> Result<Terms, AllocError>
    requires { 0 < divisor }
    ensures { IfOk result (λ ts. ts ≡ divided divisor terms.now) }
{
    let mut out = Terms::new(alloc);
    for term in terms {
        out.push(RowTerm {
            var: term.var,
            factor: quotient(term.factor, divisor),
        })?;
    }
    Ok(out)
}

/// The greatest common divisor of two numbers.
fn divisor_of_two(first: i128, second: i128) -> u128
    ensures { result ≡ gcd (unsigned_abs first) (unsigned_abs second) }
{
    greatest_common_divisor(first.unsigned_abs(), second.unsigned_abs())
}

/// The greatest common divisor of all numbers of a row, 1 where they are all 0.
fn divisor_of(terms: &[RowTerm], last: i128, constant: i128) -> u128
    ensures { result ≡ divisor_of_all terms.now last constant }
{
    let mut divisor = divisor_of_two(last, constant);
    for term in terms {
        divisor = greatest_common_divisor(divisor, term.factor.unsigned_abs());
    }
    divisor.max(1)
}

/// The terms with each factor negated.
fn negate(alloc: Global, terms: &[RowTerm]) -> Result<Terms, AllocError>
    requires { all_within terms.now ≡ true }
    ensures { IfOk result (λ ts. ts ≡ scaled_terms (negsuc 0) terms.now) }
{
    let mut out = Terms::new(alloc);
    for term in terms {
        out.push(RowTerm {
            var: term.var,
            factor: -term.factor,
        })?;
    }
    Ok(out)
}
