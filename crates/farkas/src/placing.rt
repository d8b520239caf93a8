ghost use Rattle.std.specs.Prelude.{◌≡◌, ◌<◌, ◌*◌, ◌+◌, ℕ, ℤ, pos, neg_ℤ, ◌-ℤ◌, ◌*ℤ◌, true, false, int_lt, unsigned_abs, ◌&&◌, [], ◌∷◌, IfOk, IfSome, MatchOption, IsTrue, ◌↔◌, Option, Some, None};
ghost use Rattle.linear_rows.specs.Forms.{small, is_small};
ghost use Rattle.linear_rows.specs.NormalForm.{floor, gcd};
ghost use Rattle.farkas.specs.Points.{number_of};
ghost use Rattle.farkas.specs.Placing.{slack_from, slack_fits_from, slack_of, slack_fits, limit_of, is_less, lesser, limits, least_limit, limits_fit, scaled_numbers, numbers_fit, extended, extended_fits, common_number, point_divisor, divided_numbers, lowest_point, from_below, from_above, fits_below, fits_above, chosen, chosen_fits, with_number, number_fits, raised, raised_fits};

use linear_rows::{
    RowTerm, Var, Weight, fit, greatest_common_divisor, order, quotient, weigh_number,
};
use row_elimination::Derived;
use sqlite_items::Items;
use std::alloc::{AllocError, Global};
use std::cmp::Ordering;

/// A point that gives numbers to some variables and to the last one, over one divisor.
#[derive(Drop)]
pub(crate) struct Placed {
    /// The variables.
    pub(crate) vars: Items<Var>,
    /// Their numbers.
    pub(crate) numbers: Items<i128>,
    /// The number of the last variable.
    pub(crate) last: i128,
    /// What each is divided by.
    pub(crate) divisor: i128,
}

/// How far a variable may go: a fraction.
#[derive(Clone, Copy)]
pub(crate) struct Limit {
    /// Its numerator.
    pub(crate) slack: i128,
    /// Its denominator.
    pub(crate) size: u128,
}

/// A step of a run: the variable with the rows that mentioned it.
#[derive(Drop)]
pub(crate) struct Level {
    /// The variable.
    pub(crate) var: Var,
    /// The rows.
    pub(crate) rows: Items<Derived>,
}

/// Whether a fraction is less than another, without a product that could be too large.

fn is_less_natural(a: u128, m: u128, b: u128, n: u128) -> bool
    requires first { 0 < m }
    requires second { 0 < n }
    ensures { IsTrue result ↔ (a * n < b * m) }
{
    if let (Some(first), Some(second)) = (a.checked_mul(n), b.checked_mul(m)) {
        return first < second;
    }
    if a / m != b / n {
        return a / m < b / n;
    }
    let r = a % m;
    let s = b % n;
    if s == 0 {
        return false;
    }
    if r == 0 {
        return true;
    }
    is_less_natural(n, s, m, r)
}

impl Limit {
    /// Whether the fraction is less than another.
    pub(crate) fn is_less(self, other: Limit) -> bool
        requires first { 0 < self.size }
        requires second { 0 < other.size }
        ensures { result ≡ is_less self other }
    {
        let mine = self.slack.unsigned_abs();
        let theirs = other.slack.unsigned_abs();
        if self.slack < 0 {
            other.slack >= 0 || is_less_natural(theirs, other.size, mine, self.size)
        } else {
            other.slack > 0 && is_less_natural(mine, self.size, theirs, other.size)
        }
    }
}

impl Limit {
    ghost use Rattle.farkas.specs.Deciding.{is_negative_sum};

    /// Whether the sum with another fraction is negative.
    pub(crate) fn is_negative_with(self, other: Limit) -> bool
        requires first { 0 < self.size }
        requires second { 0 < other.size }
        ensures { result ≡ is_negative_sum self other }
    {
        let mine = self.slack.unsigned_abs();
        let theirs = other.slack.unsigned_abs();
        if self.slack < 0 {
            other.slack <= 0 || is_less_natural(theirs, other.size, mine, self.size)
        } else {
            other.slack < 0 && is_less_natural(mine, self.size, theirs, other.size)
        }
    }
}

/// The product, where its magnitude is below the limit.
fn times(first: i128, second: i128) -> Option<i128>
    ensures { result ≡ small (first *ℤ second) }
{
    fit(first.checked_mul(second)?)
}

/// The difference, where its magnitude is below the limit.
fn minus(first: i128, second: i128) -> Option<i128>
    ensures { result ≡ small (first -ℤ second) }
{
    fit(first.checked_sub(second)?)
}

/// The number without some, where the product and the difference stay below the limit.
fn less_product(rest: i128, first: i128, second: i128) -> Option<i128>
    ensures { MatchOption result ((is_small (first *ℤ second) && is_small (rest -ℤ (first *ℤ second))) ≡ false) (λ z. z ≡ rest -ℤ (first *ℤ second)) }
{
    let product = times(first, second)?;
    minus(rest, product)
}

impl Placed {
    /// The number of a variable, 0 where it has none.
    fn number(&self, var: &Var) -> i128
        ensures { result ≡ number_of self.now.vars self.now.numbers var.now }
    {
        let mut vars = self.vars.as_slice();
        let mut numbers = self.numbers.as_slice();
        while let (Some((other, rest)), Some((number, others))) = (
            vars.split_first(),
            numbers.split_first(),
        ) {
            if order(var, other) == Ordering::Equal {
                return *number;
            }
            vars = rest;
            numbers = others;
        }
        0
    }

    /// What is left of a number without the terms, None where a number passes the limit.
    fn without(&self, rest: i128, terms: &[RowTerm]) -> Option<i128>
        ensures { MatchOption result (slack_fits_from rest self.now terms.now ≡ false) (λ s. s ≡ slack_from rest self.now terms.now) }
    {
        let mut left = rest;
        for term in terms {
            left = less_product(left, term.factor, self.number(&term.var))?;
        }
        Some(left)
    }

    /// What a row leaves for more terms, times the divisor. None where a number passes the limit.
    fn slack(&self, row: &Derived) -> Option<i128>
        ensures { MatchOption result (slack_fits self.now row.now ≡ false) (λ s. s ≡ slack_of self.now row.now) }
    {
        let whole = times(row.constant(), self.divisor)?;
        let rest = less_product(whole, row.last(), self.last)?;
        self.without(rest, row.terms())
    }

    /// How far a variable may go by a row, None where a number passes the limit.
    fn limit(&self, var: &Var, row: &Derived) -> Option<Limit>
        ensures { MatchOption result (slack_fits self.now row.now ≡ false) (λ l. l ≡ limit_of var.now self.now row.now) }
    {
        let slack = self.slack(row)?;
        Some(Limit {
            slack,
            size: row.size(var),
        })
    }

    /// The least limit of a variable from above or from below. The inner None is no limit, the outer one that
    /// a number passes the limit of all numbers.
    fn least_limit(&self, up: bool, var: &Var, rows: &[Derived]) -> Option<Option<Limit>>
        ensures { MatchOption result (limits_fit up var.now self.now rows.now ≡ false) (λ l. l ≡ least_limit up var.now self.now None rows.now) }
    {
        let mut least = None;
        for row in rows {
            if is_limit(up, var, row) {
                least = Some(lesser_of(least, self.limit(var, row)?));
            }
        }
        Some(least)
    }
}

/// Whether a row limits a variable from above, or from below.
fn is_limit(up: bool, var: &Var, row: &Derived) -> bool
    ensures { result ≡ limits up var.now row.now }
{
    if up {
        row.is_positive_in(var)
    } else {
        row.is_negative_in(var)
    }
}

/// The lesser of two limits, the first of equal ones.
fn lesser_of(least: Option<Limit>, limit: Limit) -> Limit
    requires first { IfSome least (λ l. 0 < l.size) }
    requires second { 0 < limit.size }
    ensures { Some result ≡ lesser least limit }
{
    match least {
        Some(least) => { if limit.is_less(least) { limit } else { least } }
        None => limit,
    }
}

/// The multiple of a number, where its magnitude is below the limit.
fn multiple(by: u128, number: &i128) -> Option<i128>
    ensures { MatchOption result (is_small (pos by *ℤ number.now) ≡ false) (λ z. (z ≡ pos by *ℤ number.now) × (is_small (pos by *ℤ number.now) ≡ true)) }
{
    weigh_number(Weight::times(by), *number)
}

/// A number, and after it the multiples of others. None where one passes the limit.
fn scale(
    alloc: Global,
    first: i128,
    numbers: &[i128],
    by: u128,
) -> Result<Option<Items<i128>>, AllocError>
    ensures { IfOk result (λ o. MatchOption o (numbers_fit (pos by) numbers.now ≡ false) (λ ns. ns ≡ first ∷ scaled_numbers (pos by) numbers.now)) }
{
    let mut out = Items::new(alloc);
    out.push(first)?;
    for number in numbers {
        let Some(scaled) = multiple(by, number) else {
            return Ok(None);
        };
        out.push(scaled)?;
    }
    Ok(Some(out))
}

/// A variable in front of others.
fn put_first(alloc: Global, var: &Var, vars: &[Var]) -> Result<Items<Var>, AllocError>
    ensures { IfOk result (λ vs. vs ≡ var.now ∷ vars.now) }
{
    let mut out = Items::new(alloc);
    out.push(*var)?;
    for other in vars {
        out.push(*other)?;
    }
    Ok(out)
}

/// The greatest common divisor of a number and of others.
fn divisor_of(number: u128, numbers: &[i128]) -> u128
    ensures { result ≡ common_number number numbers.now }
{
    let mut divisor = number;
    for number in numbers {
        divisor = divisor_with(divisor, *number);
    }
    divisor
}

/// The greatest common divisor of a number and of another's magnitude.
fn divisor_with(divisor: u128, number: i128) -> u128
    ensures { result ≡ gcd divisor (unsigned_abs number) }
{
    greatest_common_divisor(divisor, number.unsigned_abs())
}

/// Each number divided.
fn divide(alloc: Global, numbers: &[i128], divisor: u128) -> Result<Items<i128>, AllocError>
    requires { 0 < divisor }
    ensures { IfOk result (λ ns. ns ≡ divided_numbers divisor numbers.now) }
{
    let mut out = Items::new(alloc);
    for number in numbers {
        out.push(quotient(*number, divisor))?;
    }
    Ok(out)
}

impl Placed {
    /// The point with one more variable, whose number is over the old divisor times a size. None where a
    /// number passes the limit.
    fn extend(
        &self,
        alloc: Global,
        var: &Var,
        number: i128,
        size: u128,
    ) -> Result<Option<Placed>, AllocError>
        ensures { IfOk result (λ o. MatchOption o (extended_fits number size self.now ≡ false) (λ p. p ≡ extended var.now number size self.now)) }
    {
        let Some(number) = fit(number) else {
            return Ok(None);
        };
        let Some(numbers) = scale(alloc, number, self.numbers.as_slice(), size)? else {
            return Ok(None);
        };
        let Some(last) = multiple(size, &self.last) else {
            return Ok(None);
        };
        let Some(divisor) = multiple(size, &self.divisor) else {
            return Ok(None);
        };
        let vars = put_first(alloc, var, self.vars.as_slice())?;
        Ok(Some(Placed {
            vars,
            numbers,
            last,
            divisor,
        }))
    }

    /// The point in lowest terms.
    fn lowest(self, alloc: Global) -> Result<Placed, AllocError>
        ensures { IfOk result (λ p. p ≡ lowest_point self) }
    {
        let both = divisor_with(self.divisor.unsigned_abs(), self.last);
        let common = divisor_of(both, self.numbers.as_slice()).max(1);
        let Placed {
            vars,
            numbers,
            last,
            divisor,
        } = self;
        Ok(Placed {
            vars,
            numbers: divide(alloc, numbers.as_slice(), common)?,
            last: quotient(last, common),
            divisor: quotient(divisor, common),
        })
    }

    /// The point with the greatest lower bound of a variable, None where a number passes the limit.
    fn from_below(
        &self,
        alloc: Global,
        var: &Var,
        limit: Limit,
    ) -> Result<Option<Placed>, AllocError>
        ensures { IfOk result (λ o. MatchOption o (fits_below limit self.now ≡ false) (λ p. p ≡ from_below var.now limit self.now)) }
    {
        match negated(limit.slack) {
            Some(number) => self.extend(alloc, var, number, limit.size),
            None => Ok(None),
        }
    }

    /// The point with the least upper bound of a variable, 0 where it has none. None where a number passes the
    /// limit.
    fn from_above(
        &self,
        alloc: Global,
        var: &Var,
        limit: Option<Limit>,
    ) -> Result<Option<Placed>, AllocError>
        ensures { IfOk result (λ o. MatchOption o (fits_above limit self.now ≡ false) (λ p. p ≡ from_above var.now limit self.now)) }
    {
        match limit {
            Some(limit) => self.extend(alloc, var, limit.slack, limit.size),
            None => self.extend(alloc, var, 0, 1),
        }
    }

    /// The point with a number for a variable: the greatest lower bound that some rows give it, else the least
    /// upper bound, else 0. None where a number passes the limit.
    fn choose(
        &self,
        alloc: Global,
        var: &Var,
        below: Option<Limit>,
        rows: &[Derived],
    ) -> Result<Option<Placed>, AllocError>
        ensures { IfOk result (λ o. MatchOption o (chosen_fits var.now below rows.now self.now ≡ false) (λ p. p ≡ chosen var.now below rows.now self.now)) }
    {
        match below {
            Some(limit) => self.from_below(alloc, var, limit),
            None => match self.least_limit(true, var, rows) {
                Some(above) => self.from_above(alloc, var, above),
                None => Ok(None),
            },
        }
    }

    /// The point with a number for one more variable, in lowest terms. None where a number passes the limit.
    fn with_number(
        &self,
        alloc: Global,
        var: &Var,
        rows: &[Derived],
    ) -> Result<Option<Placed>, AllocError>
        ensures { IfOk result (λ o. MatchOption o (number_fits var.now rows.now self.now ≡ false) (λ p. p ≡ with_number var.now rows.now self.now)) }
    {
        let Some(below) = self.least_limit(false, var, rows) else {
            return Ok(None);
        };
        match self.choose(alloc, var, below, rows)? {
            Some(point) => Ok(Some(point.lowest(alloc)?)),
            None => Ok(None),
        }
    }
}

/// The negated number, where its magnitude is below the limit.
pub(crate) fn negated(number: i128) -> Option<i128>
    ensures { MatchOption result (is_small (pos 0 -ℤ number) ≡ false) (λ z. z ≡ pos 0 -ℤ number) }
{
    minus(0, number)
}

/// The point with numbers for the variables of all steps, the last step first. None where a number passes the
/// limit.
#[tactic(auto, using(crate::proofs::Raising::raised_push, crate::proofs::Raising::fits_push))]
pub(crate) fn raise(
    alloc: Global,
    levels: Items<Level>,
    start: Placed,
) -> Result<Option<Placed>, AllocError>
    ensures { IfOk result (λ o. MatchOption o (raised_fits levels start ≡ false) (λ p. p ≡ raised levels start)) }
{
    let mut left = levels;
    let mut point = start;
    while let Some(level) = left.pop() {
        match point.with_number(alloc, &level.var, level.rows.as_slice())? {
            Some(next) => point = next,
            None => return Ok(None),
        }
    }
    Ok(Some(point))
}
