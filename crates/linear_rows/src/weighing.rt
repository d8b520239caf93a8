ghost use Rattle.std.specs.Prelude.{◌≡◌, ◌≢◌, ◌<◌, ◌+◌, ◌+ℤ◌, ◌*ℤ◌, ℕ, ℤ, pos, neg_ℤ, true, false, Bool, List, [], ◌∷◌, ◌++◌, unsigned_abs, OnOk, IfOk, IfSome, IfNone, MatchOption, Option, Some, None, if◌then◌else◌};
ghost use Rattle.linear_rows.specs.Variables.{var_cmp};
ghost use Rattle.linear_rows.specs.Terms.{IsAscending, IsCollected, without_zeros, factor_of, without_var};
ghost use Rattle.linear_rows.specs.Forms.{small, weighted_terms_within, weighted_constant_within, terms_stay_small};
ghost use Rattle.linear_rows.specs.Steps.{signed, TakesFirst};

use crate::rows::{RowTerm, Var};
use crate::term_list::Terms;
use std::alloc::{AllocError, Global};
use std::cmp::Ordering;

/// The magnitude from which on a product or sum is too large, 2^127.
const TOO_LARGE: u128 = 1 << 127;

/// What a row or form is multiplied by.
#[derive(Clone, Copy)]
pub struct Weight {
    /// Its magnitude.
    pub magnitude: u128,
    /// Whether it is the negative of that.
    pub is_negative: bool,
}

impl Weight {
    /// A weight of at least 0.
    pub fn times(magnitude: u128) -> Weight
        ensures { result ≡ record { magnitude = magnitude; is_negative = false } }
    {
        Weight {
            magnitude,
            is_negative: false,
        }
    }

    /// A number as a weight.
    pub(crate) fn signed(number: i128) -> Weight
        ensures { signed result.is_negative result.magnitude ≡ number }
    {
        Weight {
            magnitude: number.unsigned_abs(),
            is_negative: number < 0,
        }
    }
}

/// A magnitude with a sign, where it is below 2^127.
fn with_sign(is_negative: bool, magnitude: u128) -> Option<i128>
    ensures { result ≡ small (signed is_negative magnitude) }
{
    if magnitude >= TOO_LARGE {
        return None;
    }
    let number = magnitude as i128;
    if is_negative {
        Some(-number)
    } else {
        Some(number)
    }
}

/// A number times a weight, where the product has a magnitude below 2^127.
pub fn weigh_number(weight: Weight, number: i128) -> Option<i128>
    ensures { result ≡ small (signed weight.is_negative weight.magnitude *ℤ number) }
{
    let magnitude = number.unsigned_abs().checked_mul(weight.magnitude)?;
    with_sign(weight.is_negative != (number < 0), magnitude)
}

/// The number, where its magnitude is below 2^127.
pub fn fit(number: i128) -> Option<i128>
    ensures { result ≡ small number }
{
    if number.unsigned_abs() < TOO_LARGE {
        Some(number)
    } else {
        None
    }
}

/// The sum, where its magnitude is below 2^127.
fn sum(first: i128, second: i128) -> Option<i128>
    ensures { result ≡ small (first +ℤ second) }
{
    fit(first.checked_add(second)?)
}

/// The weighted sum of two constants, where each product and the sum have magnitudes below 2^127.
pub fn weigh_constants(a: Weight, first: i128, b: Weight, second: i128) -> Option<i128>
    ensures { result ≡ weighted_constant_within (signed a.is_negative a.magnitude) first (signed b.is_negative b.magnitude) second }
{
    sum(weigh_number(a, first)?, weigh_number(b, second)?)
}

/// Adds a term at the end, unless its factor is 0.
fn push_nonzero(out: &mut Terms, var: Var, factor: i128) -> Result<(), AllocError>
    ensures { OnOk result (out.new ≡ out.old ++ without_zeros (record { var = var; factor = factor } ∷ [])) }
{
    if factor != 0 {
        out.push(RowTerm { var, factor })?;
    }
    Ok(())
}

/// The order of two variables.
pub fn order(first: &Var, second: &Var) -> Ordering
    ensures { result ≡ var_cmp first.now second.now }
{
    first.cmp(second)
}

/// The first term of a weighted sum of two lists, and what is left of the two.
#[derive(Drop)]
struct First<'a> {
    /// Its variable.
    var: Var,
    /// Its factor, None where a product or the sum is too large.
    factor: Option<i128>,
    /// What is left of the first list.
    left: &'a [RowTerm],
    /// What is left of the second list.
    right: &'a [RowTerm],
}

/// The first term of a times one list plus b times another, None where both are empty.
fn first_term<'a>(xs: &'a [RowTerm], a: Weight, ys: &'a [RowTerm], b: Weight) -> Option<First<'a>>
    requires first { IsAscending xs.now }
    requires second { IsAscending ys.now }
    ensures none { IfNone result ((xs.now ≡ []) × (ys.now ≡ [])) }
    ensures some { IfSome result (λ f. MatchOption f.factor
        (terms_stay_small (signed a.is_negative a.magnitude) xs.now (signed b.is_negative b.magnitude) ys.now ≡ false)
        (λ factor. TakesFirst (signed a.is_negative a.magnitude) xs.now (signed b.is_negative b.magnitude) ys.now f.var factor f.left.now f.right.now)) }
{
    match (xs.split_first(), ys.split_first()) {
        (None, None) => None,
        (Some((x, left)), None) => Some(First {
            var: x.var,
            factor: weigh_number(a, x.factor),
            left,
            right: ys,
        }),
        (None, Some((y, right))) => Some(First {
            var: y.var,
            factor: weigh_number(b, y.factor),
            left: xs,
            right,
        }),
        (Some((x, left)), Some((y, right))) => match order(&x.var, &y.var) {
            Ordering::Less => Some(First {
                var: x.var,
                factor: weigh_number(a, x.factor),
                left,
                right: ys,
            }),
            Ordering::Greater => Some(First {
                var: y.var,
                factor: weigh_number(b, y.factor),
                left: xs,
                right,
            }),
            Ordering::Equal => Some(First {
                var: y.var,
                factor: weigh_constants(a, x.factor, b, y.factor),
                left,
                right,
            }),
        },
    }
}

/// The weighted sum of two lists of terms, variable by variable, without zeros. None where a product or a
/// sum has a magnitude of 2^127 or more.
pub fn weigh(
    alloc: Global,
    xs: &[RowTerm],
    a: Weight,
    ys: &[RowTerm],
    b: Weight,
) -> Result<Option<Terms>, AllocError>
    requires first { IsAscending xs.now }
    requires second { IsAscending ys.now }
    ensures exact { IfOk result (λ o. o ≡ weighted_terms_within (signed a.is_negative a.magnitude) xs.now (signed b.is_negative b.magnitude) ys.now) }
    ensures collected { IfOk result (λ o. IfSome o (λ ts. IsCollected ts)) }
{
    let mut out = Terms::new(alloc);
    let mut left = xs;
    let mut right = ys;
    while let Some(first) = first_term(left, a, right, b) {
        let Some(factor) = first.factor else {
            return Ok(None);
        };
        push_nonzero(&mut out, first.var, factor)?;
        left = first.left;
        right = first.right;
    }
    Ok(Some(out))
}

/// The factor of a variable in terms, 0 where it has none.
pub fn factor(terms: &[RowTerm], var: &Var) -> i128
    ensures { result ≡ factor_of var.now terms.now }
{
    for term in terms {
        if order(var, &term.var) == Ordering::Equal {
            return term.factor;
        }
    }
    0
}

/// The terms of all other variables.
pub(crate) fn without(alloc: Global, terms: &[RowTerm], var: &Var) -> Result<Terms, AllocError>
    ensures { IfOk result (λ ts. ts ≡ without_var var.now terms.now) }
{
    let mut out = Terms::new(alloc);
    for term in terms {
        if order(var, &term.var) != Ordering::Equal {
            out.push(*term)?;
        }
    }
    Ok(out)
}
