ghost use Rattle.std.specs.Prelude.{◌≡◌, ◌+◌, ◌*◌, ◌/◌, ◌<◌, ◌≤◌, ℕ, length, max, List, Bool, true, false, Option, Some, None, if◌then◌else◌, ◌&&◌, IfOk, MatchOption, MatchBool};
ghost use Rattle.row_elimination.specs.Weights.{is_below, before_row, found_factor, scaled_multipliers, products_fit, with_multiplier, sum_fits, summed_multipliers, sums_fit, weighted_multipliers, multipliers_fit, common_factor, divided_multipliers, lowest_support, combined_support, supports_fit};

use linear_rows::greatest_common_divisor;
use sqlite_items::Items;
use std::alloc::{AllocError, Global};

/// What all numbers of a run stay below, 2^127.
const LIMIT: u128 = 1 << 127;

/// A row of a list, and how often it is taken.
#[derive(Clone, Copy)]
pub struct Multiplier {
    /// The place of the row in the list, from 0 on.
    pub row: u64,
    /// How often it is taken.
    pub factor: u128,
}

/// How a derived row follows from the given ones: the sum of the multiplied rows, divided by the divisor.
#[derive(Drop)]
pub struct Support {
    /// The rows of the sum, in ascending order.
    pub multipliers: Items<Multiplier>,
    /// What the sum is divided by.
    pub divisor: u128,
}

/// The product of two multipliers or divisors, where it is below 2^127.
pub fn product_below_limit(first: u128, second: u128) -> Option<u128>
    ensures { result ≡ (if is_below (first * second) then Some (first * second) else None) }
{
    let product = first.checked_mul(second)?;
    if product < LIMIT { Some(product) } else { None }
}

/// The sum, where it is below the limit.
fn sum(first: u128, second: u128) -> Option<u128>
    ensures { result ≡ (if is_below (first + second) then Some (first + second) else None) }
{
    let sum = first.checked_add(second)?;
    if sum < LIMIT { Some(sum) } else { None }
}

/// The multipliers times a number, None where a product passes the limit.
fn scale(
    alloc: Global,
    multipliers: &[Multiplier],
    by: u128,
) -> Result<Option<Vec<Multiplier>>, AllocError>
    ensures { IfOk result (λ o. MatchOption o (products_fit by multipliers.now ≡ false) (λ v. (products_fit by multipliers.now ≡ true) × (v.items ≡ scaled_multipliers by multipliers.now))) }
{
    let mut out = Vec::new(alloc);
    for multiplier in multipliers {
        let Some(factor) = product_below_limit(by, multiplier.factor) else {
            return Ok(None);
        };
        out.push(Multiplier {
            row: multiplier.row,
            factor,
        })?;
    }
    Ok(Some(out))
}

/// Where a row's multiplier stands or would stand.
#[derive(Clone, Copy)]
struct Place {
    /// How many multipliers stand before it.
    index: usize,
    /// Its factor, where it stands there.
    factor: Option<u128>,
}

/// The place of a row in a list that ascends by row.
fn place_of(multipliers: &[Multiplier], row: u64) -> Place
    ensures index { result.index ≡ before_row row multipliers.now }
    ensures factor { result.factor ≡ found_factor row multipliers.now }
    ensures within { result.index ≤ length multipliers.now }
{
    let mut index = 0;
    for multiplier in multipliers {
        if multiplier.row >= row {
            let factor = if multiplier.row == row {
                Some(multiplier.factor)
            } else {
                None
            };
            return Place { index, factor };
        }
        index += 1;
    }
    Place {
        index,
        factor: None,
    }
}

/// Adds a multiplier to those of a list that ascends by row, false where the sum for its row passes the
/// limit.
fn add(out: &mut Vec<Multiplier>, new: Multiplier) -> Result<bool, AllocError>
    ensures { IfOk result (λ b. MatchBool b ((sum_fits new out.old.items ≡ true) × (out.new.items ≡ with_multiplier new out.old.items)) (sum_fits new out.old.items ≡ false)) }
{
    let place = place_of(out.as_slice(), new.row);
    match place.factor {
        Some(old) => {
            let Some(factor) = sum(old, new.factor) else {
                return Ok(false);
            };
            let row = new.row;
            out[place.index] = Multiplier { row, factor };
        }
        None => out.insert(place.index, new)?,
    }
    Ok(true)
}

/// The weighted sum of two lists of multipliers, None where a number passes the limit.
fn weigh(
    alloc: Global,
    first: &[Multiplier],
    a: u128,
    second: &[Multiplier],
    b: u128,
) -> Result<Option<Vec<Multiplier>>, AllocError>
    ensures { IfOk result (λ o. MatchOption o (multipliers_fit a first.now b second.now ≡ false) (λ v. (multipliers_fit a first.now b second.now ≡ true) × (v.items ≡ weighted_multipliers a first.now b second.now))) }
{
    let Some(mut out) = scale(alloc, second, b)? else {
        return Ok(None);
    };
    for multiplier in first {
        let Some(factor) = product_below_limit(a, multiplier.factor) else {
            return Ok(None);
        };
        let row = multiplier.row;
        if !add(&mut out, Multiplier { row, factor })? {
            return Ok(None);
        }
    }
    Ok(Some(out))
}

/// The greatest common divisor of a number and of factors.
fn divisor_of(number: u128, multipliers: &[Multiplier]) -> u128
    ensures { result ≡ common_factor number multipliers.now }
{
    let mut divisor = number;
    for multiplier in multipliers {
        divisor = greatest_common_divisor(divisor, multiplier.factor);
    }
    divisor
}

/// The multipliers with each factor divided.
fn divide(
    alloc: Global,
    multipliers: &[Multiplier],
    divisor: u128,
) -> Result<Vec<Multiplier>, AllocError>
    requires { 0 < divisor }
    ensures { IfOk result (λ v. v.items ≡ divided_multipliers divisor multipliers.now) }
{
    let mut out = Vec::new(alloc);
    for multiplier in multipliers {
        out.push(Multiplier {
            row: multiplier.row,
            factor: multiplier.factor / divisor,
        })?;
    }
    Ok(out)
}

impl Support {
    ghost use Rattle.row_elimination.specs.Derivations.{no_support};

    /// No rows.
    pub fn none(alloc: Global) -> Support
        ensures { result ≡ no_support }
    {
        Support {
            multipliers: Items::new(alloc),
            divisor: 1,
        }
    }

    /// What supports 1/g of a times one inequality plus b times another, in lowest terms. None exactly where a
    /// number of which it is made is 2^127 or more.
    pub fn combine(
        &self,
        alloc: Global,
        a: u128,
        other: &Support,
        b: u128,
        g: u128,
    ) -> Result<Option<Support>, AllocError>
        ensures { IfOk result (λ o. MatchOption o (supports_fit a self.now b other.now g ≡ false) (λ s. (supports_fit a self.now b other.now g ≡ true) × (s ≡ combined_support a self.now b other.now g))) }
    {
        let (Some(first), Some(second)) = (
            product_below_limit(a, other.divisor),
            product_below_limit(b, self.divisor),
        ) else {
            return Ok(None);
        };
        let mine = self.multipliers.as_slice();
        let theirs = other.multipliers.as_slice();
        let Some(sum) = weigh(alloc, mine, first, theirs, second)? else {
            return Ok(None);
        };
        let Some(both) = product_below_limit(self.divisor, other.divisor) else {
            return Ok(None);
        };
        let Some(divisor) = product_below_limit(both, g) else {
            return Ok(None);
        };
        Ok(Some(lowest(alloc, sum, divisor)?))
    }
}

/// The support with its numbers divided by their greatest common divisor.
fn lowest(alloc: Global, multipliers: Vec<Multiplier>, divisor: u128) -> Result<Support, AllocError>
    ensures { IfOk result (λ s. s ≡ lowest_support (record { multipliers = multipliers.items; divisor = divisor })) }
{
    let common = divisor_of(divisor, multipliers.as_slice()).max(1);
    let multipliers = Items::from_vec(divide(alloc, multipliers.as_slice(), common)?);
    Ok(Support {
        multipliers,
        divisor: divisor / common,
    })
}
