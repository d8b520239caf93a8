//! Combinations of two rows that have half of their variables in common: `rows TERMS TIMES`, the terms of each row and
//! how often they are combined. The result is the sum of the constants of all the combinations.

use crate::words::{small_number, word};
use anyhow::bail;
use linear_rows::{Form, Row, RowTerm, Var};
use sqlite_items::Items;
use std::alloc::Global;

/// A row of parameters from a number on, with the factors from another number on.
fn row(alloc: Global, from: u8, terms: u8, factor: u8) -> anyhow::Result<Row> {
    let mut items = Vec::new(alloc);
    for place in 0..terms {
        items.push(RowTerm {
            var: Var::Param(u32::from(from) + u32::from(place)),
            factor: i128::from(factor) + i128::from(place),
        })?;
    }
    let form = Form {
        terms: Items::from_vec(items),
        constant: -1000,
    };
    if !form.is_collected() {
        bail!("a form that isn't collected");
    }
    match Row::make(alloc, &form)? {
        Some(row) => Ok(row),
        None => bail!("no row"),
    }
}

/// The sum of the constants of a number of combinations.
fn combine(alloc: Global, first: &Row, second: &Row, times: u32) -> anyhow::Result<i128> {
    let mut sum = 0i128;
    for time in 0..times {
        if let Some(row) = first.combine(alloc, u128::from(time), second, 7)? {
            sum = sum.wrapping_add(row.constant());
        }
    }
    Ok(sum)
}

/// The sum of the constants of the combinations.
pub(crate) fn done(alloc: Global, words: &[String]) -> anyhow::Result<String> {
    let Ok(terms) = word(words, 1).parse::<u8>() else {
        bail!("no number of terms");
    };
    let times = small_number(words, 2)?;
    let first = row(alloc, 0, terms, 3)?;
    let second = row(alloc, terms / 2, terms, 5)?;
    let sum = combine(alloc, &first, &second, times)?;
    Ok(format!(in alloc; "{sum}")?)
}
