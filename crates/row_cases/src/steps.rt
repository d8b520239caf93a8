use crate::text::{number, push_terms, row, rows, variable};
use anyhow::bail;
use linear_rows::Var;
use row_elimination::{Derived, Step, Support, eliminate, product_below_limit};
use std::alloc::{AllocError, Global};

/// The product of two multipliers, or `none`.
pub(crate) fn multiply(alloc: Global, first: &str, second: &str) -> anyhow::Result<String> {
    match product_below_limit(number(first)?, number(second)?) {
        Some(product) => Ok(format!(in alloc; "{product}")?),
        None => Ok(String::from_str(alloc, "none")?),
    }
}

/// Writes a row with its multiple of the last variable.
fn push_derived(text: &mut String, derived: &Derived) -> Result<(), AllocError> {
    push_terms(text, derived.constant(), derived.terms())?;
    match derived.last() {
        0 => Ok(()),
        last => write!(text, " {last}*last"),
    }
}

/// Writes the places of the given rows and how often each is taken, and what their sum is divided by.
fn push_support(text: &mut String, support: &Support) -> Result<(), AllocError> {
    write!(text, " = 1/{} of", support.divisor)?;
    for multiplier in support.multipliers.as_slice() {
        write!(text, " {}*{}", multiplier.row, multiplier.factor)?;
    }
    Ok(())
}

/// Writes what two rows say to one question.
fn push_pair(text: &mut String, name: &str, first: bool, second: bool) -> Result<(), AllocError> {
    write!(text, " {name} {first} {second}")
}

/// Writes what two rows say of each other and of a variable.
fn push_tests(
    text: &mut String,
    var: &Var,
    most: &Derived,
    least: &Derived,
) -> Result<(), AllocError> {
    push_pair(
        text,
        "negation alike",
        most.is_negation(least),
        most.is_alike(least),
    )?;
    push_pair(text, "mentions", most.mentions(var), least.mentions(var))?;
    push_pair(
        text,
        "positive",
        most.is_positive_in(var),
        least.is_positive_in(var),
    )?;
    push_pair(
        text,
        "negative",
        most.is_negative_in(var),
        least.is_negative_in(var),
    )
}

/// The row that says that the terms are at most the last variable, and the opposite one, with what they say of a
/// variable.
pub(crate) fn last(alloc: Global, given: &str, var: &str) -> anyhow::Result<String> {
    let row = row(alloc, given)?;
    let var = variable(var)?;
    let most = Derived::at_most_last(alloc, &row)?;
    let least = Derived::at_least_last(alloc, &row)?;
    let mut text = String::new(alloc);
    push_derived(&mut text, &most)?;
    text.push_str(", ")?;
    push_derived(&mut text, &least)?;
    text.push_str(":")?;
    push_tests(&mut text, &var, &most, &least)?;
    Ok(text)
}

/// The combination of two rows without a variable, where the first has a positive factor of it and the second a
/// negative one.
fn combined(
    alloc: Global,
    first: &Derived,
    var: &Var,
    second: &Derived,
) -> Result<Option<Derived>, AllocError> {
    if !first.is_positive_in(var) {
        return Ok(None);
    }
    if !second.is_negative_in(var) {
        return Ok(None);
    }
    first.combine(alloc, var, second)
}

/// Writes what a row without terms says.
fn push_ends(text: &mut String, made: &Derived) -> Result<(), AllocError> {
    write!(text, ": bare {}", made.is_bare())?;
    push_pair(
        text,
        "bounds",
        made.bounds_last(true),
        made.bounds_last(false),
    )?;
    push_pair(text, "absurd plain", made.is_absurd(), made.is_plain())
}

/// The row from which a variable is eliminated by the one that says that the last variable is at most the terms.
pub(crate) fn bound(alloc: Global, given: &str, var: &str) -> anyhow::Result<String> {
    let row = row(alloc, given)?;
    let var = variable(var)?;
    let upper = Derived::given(alloc, 0, &row)?;
    let least = Derived::at_least_last(alloc, &row)?;
    let Some(made) = combined(alloc, &upper, &var, &least)? else {
        bail!("no combination");
    };
    let mut text = String::new(alloc);
    push_derived(&mut text, &made)?;
    push_ends(&mut text, &made)?;
    Ok(text)
}

/// The rows that a text spells, each given at its place.
fn given_rows(alloc: Global, text: &str) -> anyhow::Result<Vec<Derived>> {
    let mut derived = Vec::new(alloc);
    let mut place = 0u64;
    for row in &rows(alloc, text)? {
        derived.push(Derived::given(alloc, place, row)?)?;
        place = place.wrapping_add(1);
    }
    Ok(derived)
}

/// Writes the number of rows that are gone, and those that are left.
fn push_step(text: &mut String, step: &Step) -> Result<(), AllocError> {
    write!(text, "{} gone", step.gone.len())?;
    for left in &step.left {
        text.push_str(", ")?;
        push_derived(text, left)?;
        push_support(text, left.support())?;
    }
    Ok(())
}

/// What a step leaves.
pub(crate) fn eliminated(alloc: Global, var: &str, given: &str) -> anyhow::Result<String> {
    let var = variable(var)?;
    let rows = given_rows(alloc, given)?;
    let mut text = String::new(alloc);
    match eliminate(alloc, &var, rows)? {
        Some(step) => push_step(&mut text, &step)?,
        None => text.push_str("none")?,
    }
    Ok(text)
}
