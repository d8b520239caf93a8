ghost use Rattle.std.specs.Prelude.{◌≡◌, ◌<◌, ◌+◌, ℕ, ℤ, pos, neg_ℤ, unsigned_abs, IfOk, Option, Some, None, if◌then◌else◌};
ghost use Rattle.linear_rows.specs.NormalForm.{gcd, divisor_of as common_divisor_of, floor, is_within, number_within, terms_within, divided};

use crate::rows::RowTerm;
use crate::term_list::Terms;
use std::alloc::{AllocError, Global};

/// The greatest magnitude of a factor or constant of a row, 2^90.
const MOST: u128 = 1 << 90;

/// The greatest common divisor of two numbers, by Euclid's algorithm.
#[tactic(auto, using(crate::proofs::Divisors::gcd_step, crate::proofs::Divisors::gcd_zero))]
pub fn greatest_common_divisor(mut first: u128, mut second: u128) -> u128
    ensures { result ≡ gcd first second }
{
    while second != 0 {
        let rest = first % second;
        first = second;
        second = rest;
    }
    first
}

/// The greatest common divisor of the factors of terms, and 1 where there are none.
pub(crate) fn divisor(terms: &[RowTerm]) -> u128
    ensures { result ≡ common_divisor_of terms.now }
{
    if terms.is_empty() {
        return 1;
    }
    let mut divisor = 0;
    for term in terms {
        divisor = greatest_common_divisor(divisor, term.factor.unsigned_abs());
    }
    divisor
}

/// The quotient, rounded down.
pub fn quotient(number: i128, divisor: u128) -> i128
    requires { 0 < divisor }
    ensures { result ≡ floor number divisor }
{
    if number >= 0 {
        (number.unsigned_abs() / divisor) as i128
    } else {
        -1 - ((-1 - number).unsigned_abs() / divisor) as i128
    }
}

/// The number, where a row may have it.
fn within(number: i128) -> Option<i128>
    ensures { result ≡ number_within number }
{
    if number.unsigned_abs() <= MOST {
        Some(number)
    } else {
        None
    }
}

/// The negated constant divided and rounded down, where a row may have it.
pub(crate) fn bound(constant: i128, divisor: u128) -> Option<i128>
    requires { 0 < divisor }
    ensures { result ≡ number_within (floor (neg_ℤ constant) divisor) }
{
    if constant > 0 {
        within(-1 - ((constant - 1).unsigned_abs() / divisor) as i128)
    } else {
        let magnitude = constant.unsigned_abs() / divisor;
        if magnitude <= MOST {
            Some(magnitude as i128)
        } else {
            None
        }
    }
}

/// The terms with each factor divided, where a row may have them.
pub(crate) fn divide(
    alloc: Global,
    terms: &[RowTerm],
    divisor: u128,
) -> Result<Option<Terms>, AllocError>
    requires { 0 < divisor }
    ensures { IfOk result (λ o. o ≡ terms_within (divided divisor terms.now)) }
{
    let mut out = Terms::new(alloc);
    for term in terms {
        match within(quotient(term.factor, divisor)) {
            Some(factor) => out.push(RowTerm {
                var: term.var,
                factor,
            })?,
            None => return Ok(None),
        }
    }
    Ok(Some(out))
}
