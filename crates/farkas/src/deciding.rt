ghost use Rattle.std.specs.Prelude.{◌≡◌, ◌<◌, ◌*◌, ℕ, ℤ, pos, ◌-ℤ◌, ◌+ℤ◌, true, false, [], List, unsigned_abs, IfOk, OnOk, IfSome, MatchOption, Option, Some, None, ◌&&◌};
ghost use Rattle.std.specs.Option.{option_copied};
ghost use Rattle.farkas.specs.Deciding.{first_absurd, last_limit, tighter, tightest, is_at_most, is_negative_sum, last_at, start_above, start_above_fits, point_of, refuted_from, by_bounds, by_bounds_fits, by_upper, by_upper_fits, by_absurd, by_absurd_fits, decided, decision_fits, emptiness_by, emptiness_by_fits};
ghost use Rattle.row_elimination.specs.Steps.{is_absurd, bounds_last};
ghost use Rattle.farkas.specs.Placing.{raised, raised_fits};
ghost use Rattle.row_elimination.specs.Weights.{is_below, combined_support, supports_fit};
ghost use Rattle.linear_rows.specs.Forms.{is_small};
ghost use Rattle.farkas.specs.declared.answers.Answer.TheVariants.{Proved};

use crate::answers::{Answer, Emptiness, RationalPoint};
use crate::placing::{Level, Limit, Placed, negated, raise};
use linear_rows::fit;
use row_elimination::{Derived, Support, product_below_limit};
use sqlite_items::Items;
use std::alloc::{AllocError, Global};

/// The bound of the last variable.
fn last_limit(row: &Derived) -> Limit
    ensures { result ≡ last_limit row.now }
{
    Limit {
        slack: row.constant(),
        size: row.last().unsigned_abs(),
    }
}

/// The first row that holds nowhere.
fn first_absurd(rows: &[Derived]) -> Option<&Derived>
    ensures { option_copied result ≡ first_absurd rows.now }
{
    for row in rows {
        if row.is_absurd() {
            return Some(row);
        }
    }
    None
}

/// The tighter of two bounds of the last variable, the first of equal ones.
fn tighter<'a>(best: Option<&'a Derived>, row: &'a Derived) -> &'a Derived
    requires best { IfSome best (λ s. 0 < unsigned_abs s.now.last) }
    requires row { 0 < unsigned_abs row.now.last }
    ensures { Some result.now ≡ tighter (option_copied best.entry) row.now }
{
    match best {
        Some(other) => {
            if last_limit(row).is_less(last_limit(other)) {
                row
            } else {
                other
            }
        }
        None => row,
    }
}

/// The tightest bound of the last variable from above or from below, the first of equal ones.
fn tightest(up: bool, rows: &[Derived]) -> Option<&Derived>
    ensures told { option_copied result ≡ tightest up None rows.now }
    ensures sized { IfSome result (λ r. 0 < unsigned_abs r.now.last) }
{
    let mut best = None;
    for row in rows {
        if row.bounds_last(up) {
            best = Some(tighter(best, row));
        }
    }
    best
}

/// The point that gives the last variable a number and no other one.
fn last_at(alloc: Global, number: i128, divisor: i128) -> Placed
    ensures { result ≡ last_at number divisor }
{
    Placed {
        vars: Items::new(alloc),
        numbers: Items::new(alloc),
        last: number,
        divisor,
    }
}

/// One more than a number, where it is below the limit.
fn next(number: i128) -> Option<i128>
    ensures { MatchOption result (is_small (number +ℤ pos 1) ≡ false) (λ z. z ≡ number +ℤ pos 1) }
{
    fit(number.checked_add(1)?)
}

/// The point whose last number is a row's lower bound of it.
fn at_lower(alloc: Global, row: &Derived) -> Option<Placed>
    ensures { MatchOption result ((is_small (pos 0 -ℤ row.now.constant) && is_small (pos 0 -ℤ row.now.last)) ≡ false)
        (λ p. p ≡ last_at (pos 0 -ℤ row.now.constant) (pos 0 -ℤ row.now.last)) }
{
    let number = negated(row.constant())?;
    let divisor = negated(row.last())?;
    Some(last_at(alloc, number, divisor))
}

/// The point that gives the last variable one more than the tested constant, or its lower bound where that is
/// greater.
fn start_above(alloc: Global, tested: i128, lower: Option<&Derived>) -> Option<Placed>
    requires { IfSome lower (λ l. 0 < unsigned_abs l.now.last) }
    ensures { MatchOption result (start_above_fits tested (option_copied lower.entry) ≡ false) (λ p. p ≡ start_above tested (option_copied lower.entry)) }
{
    let above = next(tested)?;
    match lower {
        Some(row) => {
            let limit = Limit {
                slack: above,
                size: 1,
            };
            if last_limit(row).is_negative_with(limit) {
                at_lower(alloc, row)
            } else {
                Some(last_at(alloc, above, 1))
            }
        }
        None => Some(last_at(alloc, above, 1)),
    }
}

/// The answer with the point that is raised from a number of the last variable. None where a number passes
/// the limit.
fn refute(alloc: Global, levels: Items<Level>, start: Placed) -> Result<Option<Answer>, AllocError>
    ensures { IfOk result (λ o. MatchOption o (raised_fits levels start ≡ false) (λ a. a ≡ refuted_from levels start)) }
{
    match raise(alloc, levels, start)? {
        Some(point) => Ok(Some(Answer::Refuted(point_of(point)))),
        None => Ok(None),
    }
}

/// A point without the last variable.
fn point_of(point: Placed) -> RationalPoint
    ensures { result ≡ point_of point }
{
    let Placed {
        vars,
        numbers,
        last: _,
        divisor,
    } = point;
    RationalPoint {
        vars,
        numbers,
        divisor,
    }
}

/// The answer where the last variable has a least upper bound that isn't low enough: proved where a lower
/// bound is above it, else refuted. None where a number passes the limit.
fn decide_by_bounds(
    alloc: Global,
    levels: Items<Level>,
    upper: &Derived,
    lower: Option<&Derived>,
) -> Result<Option<Answer>, AllocError>
    requires upper { 0 < unsigned_abs upper.now.last }
    requires lower { IfSome lower (λ l. 0 < unsigned_abs l.now.last) }
    ensures { IfOk result (λ o. MatchOption o (by_bounds_fits levels upper.now (option_copied lower.entry) ≡ false) (λ a. a ≡ by_bounds levels upper.now (option_copied lower.entry))) }
{
    if let Some(row) = lower {
        if last_limit(upper).is_negative_with(last_limit(row)) {
            return prove_by_bounds(alloc, upper, row);
        }
    }
    let start = last_at(alloc, upper.constant(), upper.last());
    refute(alloc, levels, start)
}

/// The proof from an upper bound of the last variable and a greater lower bound.
fn prove_by_bounds(
    alloc: Global,
    upper: &Derived,
    lower: &Derived,
) -> Result<Option<Answer>, AllocError>
    ensures { IfOk result (λ o. MatchOption o (supports_fit (unsigned_abs lower.now.last) upper.now.support (unsigned_abs upper.now.last) lower.now.support 1 ≡ false)
        (λ a. a ≡ Proved (combined_support (unsigned_abs lower.now.last) upper.now.support (unsigned_abs upper.now.last) lower.now.support 1).multipliers
        (combined_support (unsigned_abs lower.now.last) upper.now.support (unsigned_abs upper.now.last) lower.now.support 1).divisor)) }
{
    let a = last_limit(lower).size;
    let b = last_limit(upper).size;
    match upper.support().combine(alloc, a, lower.support(), b, 1)? {
        Some(
            Support {
                multipliers,
                divisor,
            },
        ) => Ok(Some(Answer::Proved {
            multipliers,
            divisor,
        })),
        None => Ok(None),
    }
}

/// The proof by one row, whose left side is a multiple of the tested one. None where the divisor passes the
/// limit.
fn prove_by(alloc: Global, row: &Derived, multiple: u128) -> Result<Option<Answer>, AllocError>
    ensures { IfOk result (λ o. MatchOption o (is_below (row.now.support.divisor * multiple) ≡ false)
        (λ a. a ≡ Proved row.now.support.multipliers (row.now.support.divisor * multiple))) }
{
    let support = row.support();
    match product_below_limit(support.divisor, multiple) {
        Some(divisor) => Ok(Some(Answer::Proved {
            multipliers: Items::from_slice(alloc, support.multipliers.as_slice())?,
            divisor,
        })),
        None => Ok(None),
    }
}

/// Whether a bound is at most a number.
fn is_at_most(tested: i128, upper: &Derived) -> bool
    requires { 0 < unsigned_abs upper.now.last }
    ensures { result ≡ is_at_most tested upper.now }
{
    let limit = Limit {
        slack: tested,
        size: 1,
    };
    !limit.is_less(last_limit(upper))
}

/// The answer where no row that is left holds nowhere. None where a number passes the limit.
fn decide_by_upper(
    alloc: Global,
    tested: i128,
    levels: Items<Level>,
    left: &[Derived],
) -> Result<Option<Answer>, AllocError>
    ensures { IfOk result (λ o. MatchOption o (by_upper_fits tested levels left.now (tightest true None left.now) ≡ false) (λ a. a ≡ by_upper tested levels left.now (tightest true None left.now))) }
{
    match tightest(true, left) {
        Some(upper) => {
            if is_at_most(tested, upper) {
                prove_by(alloc, upper, last_limit(upper).size)
            } else {
                decide_by_bounds(alloc, levels, upper, tightest(false, left))
            }
        }
        None => match start_above(alloc, tested, tightest(false, left)) {
            Some(start) => refute(alloc, levels, start),
            None => Ok(None),
        },
    }
}

/// The answer to whether a row whose constant is tested follows, where a run had some steps and left some
/// rows. None where a number passes the limit.
pub(crate) fn decide(
    alloc: Global,
    tested: i128,
    levels: Items<Level>,
    left: &[Derived],
) -> Result<Option<Answer>, AllocError>
    ensures { IfOk result (λ o. MatchOption o (decision_fits tested levels left.now ≡ false) (λ a. a ≡ decided tested levels left.now)) }
{
    match first_absurd(left) {
        Some(row) => prove_absurd(alloc, row),
        None => decide_by_upper(alloc, tested, levels, left),
    }
}

/// The proof by a row that holds nowhere.
fn prove_absurd(alloc: Global, row: &Derived) -> Result<Option<Answer>, AllocError>
    ensures { IfOk result (λ o. o ≡ Some (Proved row.now.support.multipliers row.now.support.divisor)) }
{
    let support = row.support();
    Ok(Some(Answer::Proved {
        multipliers: Items::from_slice(alloc, support.multipliers.as_slice())?,
        divisor: support.divisor,
    }))
}

/// Whether there is a rational point, where a run had some steps and left some rows. None where a number
/// passes the limit.
pub(crate) fn decide_emptiness(
    alloc: Global,
    levels: Items<Level>,
    left: &[Derived],
) -> Result<Option<Emptiness>, AllocError>
    ensures { IfOk result (λ o. MatchOption o (emptiness_by_fits levels (first_absurd left.now) ≡ false) (λ a. a ≡ emptiness_by levels (first_absurd left.now))) }
{
    match first_absurd(left) {
        Some(row) => Ok(Some(Emptiness::Empty {
            multipliers: Items::from_slice(alloc, row.support().multipliers.as_slice())?,
        })),
        None => match raise(alloc, levels, last_at(alloc, 0, 1))? {
            Some(point) => Ok(Some(Emptiness::Inhabited(point_of(point)))),
            None => Ok(None),
        },
    }
}
