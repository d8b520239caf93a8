use anyhow::bail;
use linear_rows::{Form, Row, RowTerm, Var};
use sqlite_items::Items;
use std::alloc::{AllocError, Global};

/// The signed number that a word spells.
fn signed(word: &str) -> anyhow::Result<i128> {
    match word.parse::<i128>() {
        Ok(number) => Ok(number),
        Err(_) => bail!("no number"),
    }
}

/// The number that a word spells.
pub(crate) fn number(word: &str) -> anyhow::Result<u128> {
    match word.parse::<u128>() {
        Ok(number) => Ok(number),
        Err(_) => bail!("no number"),
    }
}

/// The variable that a word spells.
pub(crate) fn variable(word: &str) -> anyhow::Result<Var> {
    if word == "%sp" {
        return Ok(Var::StartSp);
    }
    let digits = word.trim_matches(&['%', 'r', '[', ']', 'p', '#']);
    let number = signed(digits)?;
    match word.chars().next() {
        Some('%') => Ok(Var::Register(u8::try_from(number).unwrap_or(0))),
        Some('[') => Ok(Var::Word(i32::try_from(number).unwrap_or(0))),
        Some('p') => Ok(Var::Param(u32::try_from(number).unwrap_or(0))),
        Some('#') => Ok(Var::Count(u32::try_from(number).unwrap_or(0))),
        _ => bail!("no variable"),
    }
}

/// The term that a word spells, as `2*%r0`.
fn term(word: &str) -> anyhow::Result<RowTerm> {
    let Some((factor, var)) = word.split_once('*') else {
        bail!("no term");
    };
    Ok(RowTerm {
        var: variable(var)?,
        factor: signed(factor)?,
    })
}

/// The form that a text spells.
pub(crate) fn form(alloc: Global, text: &str) -> anyhow::Result<Form> {
    let (constant, rest) = text.split_once(' ').unwrap_or((text, ""));
    let mut terms = Items::new(alloc);
    for word in rest.split(' ') {
        if !word.is_empty() {
            terms.push(term(word)?)?;
        }
    }
    Ok(Form {
        terms,
        constant: signed(constant)?,
    })
}

/// The row that a text spells.
pub(crate) fn row(alloc: Global, text: &str) -> anyhow::Result<Row> {
    let Form { terms, constant } = form(alloc, text)?;
    let form = Form {
        terms,
        constant: constant.wrapping_neg(),
    };
    if form.is_collected() {
        if let Some(row) = Row::make(alloc, &form)? {
            return Ok(row);
        }
    }
    bail!("no row")
}

/// The rows that a text spells.
pub(crate) fn rows(alloc: Global, text: &str) -> anyhow::Result<Vec<Row>> {
    let mut out = Vec::new(alloc);
    if text != "-" {
        for word in text.split(';') {
            out.push(row(alloc, word.trim())?)?;
        }
    }
    Ok(out)
}

/// Writes a variable.
pub(crate) fn push_variable(text: &mut String, var: &Var) -> Result<(), AllocError> {
    match var {
        Var::Register(register) => write!(text, "%r{register}"),
        Var::Word(offset) => write!(text, "[{offset}]"),
        Var::Param(place) => write!(text, "p{place}"),
        Var::StartSp => text.push_str("%sp"),
        Var::Count(id) => write!(text, "#{id}"),
    }
}

/// Writes a constant and terms.
pub(crate) fn push_terms(
    text: &mut String,
    constant: i128,
    terms: &[RowTerm],
) -> Result<(), AllocError> {
    write!(text, "{constant}")?;
    for term in terms {
        write!(text, " {}*", term.factor)?;
        push_variable(text, &term.var)?;
    }
    Ok(())
}
