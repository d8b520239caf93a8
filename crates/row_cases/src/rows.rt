use crate::text::{form, number, push_terms, row, variable};
use anyhow::bail;
use linear_rows::Row;
use std::alloc::{AllocError, Global};

/// A row, or `none`.
fn shown(alloc: Global, row: Option<Row>) -> Result<String, AllocError> {
    let mut text = String::new(alloc);
    match row {
        Some(row) => push_terms(&mut text, row.constant(), row.terms())?,
        None => text.push_str("none")?,
    }
    Ok(text)
}

/// Whether a form is collected.
pub(crate) fn collected(alloc: Global, given: &str) -> anyhow::Result<String> {
    let form = form(alloc, given)?;
    Ok(format!(in alloc; "{}", form.is_collected())?)
}

/// The row that a form is at most 0.
pub(crate) fn make(alloc: Global, given: &str) -> anyhow::Result<String> {
    let form = form(alloc, given)?;
    if form.is_collected() {
        return Ok(shown(alloc, Row::make(alloc, &form)?)?);
    }
    bail!("a form that isn't collected")
}

/// The weighted sum of two rows.
pub(crate) fn combine(
    alloc: Global,
    first: &str,
    mine: &str,
    second: &str,
    theirs: &str,
) -> anyhow::Result<String> {
    let first = row(alloc, first)?;
    let second = row(alloc, second)?;
    let made = first.combine(alloc, number(mine)?, &second, number(theirs)?)?;
    Ok(shown(alloc, made)?)
}

/// A row with a form in place of a variable.
pub(crate) fn substitute(
    alloc: Global,
    given: &str,
    var: &str,
    taken: &str,
) -> anyhow::Result<String> {
    let row = row(alloc, given)?;
    let var = variable(var)?;
    let form = form(alloc, taken)?;
    if form.is_collected() {
        return Ok(shown(alloc, row.substitute(alloc, var, &form)?)?);
    }
    bail!("a form that isn't collected")
}
