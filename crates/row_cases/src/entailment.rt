use crate::text::{push_variable, row, rows};
use farkas::{Answer, Emptiness, Multiplier, RationalPoint, empty, entails};
use std::alloc::{AllocError, Global};

/// Writes the places of the given rows, and how often each is taken.
fn push_multipliers(text: &mut String, multipliers: &[Multiplier]) -> Result<(), AllocError> {
    for multiplier in multipliers {
        write!(text, " {}*{}", multiplier.row, multiplier.factor)?;
    }
    Ok(())
}

/// Writes the variables of a point, their numerators and the divisor.
fn push_point(text: &mut String, point: &RationalPoint) -> Result<(), AllocError> {
    for var in point.vars.as_slice() {
        text.push_str(" ")?;
        push_variable(text, var)?;
    }
    text.push_str(" =")?;
    for number in point.numbers.as_slice() {
        write!(text, " {number}")?;
    }
    write!(text, " over {}", point.divisor)
}

/// Whether rows entail a row.
pub(crate) fn asked(alloc: Global, given: &str, tested: &str) -> anyhow::Result<String> {
    let given = rows(alloc, given)?;
    let answer = match entails(alloc, given.as_slice(), &row(alloc, tested)?)? {
        Answer::Proved { .. } => "proved",
        Answer::Refuted(_) => "refuted",
        Answer::Beyond => "beyond",
    };
    Ok(String::from_str(alloc, answer)?)
}

/// Whether rows entail a row, with the multipliers or the point.
pub(crate) fn proved(alloc: Global, given: &str, tested: &str) -> anyhow::Result<String> {
    let given = rows(alloc, given)?;
    let mut text = String::new(alloc);
    match entails(alloc, given.as_slice(), &row(alloc, tested)?)? {
        Answer::Proved {
            multipliers,
            divisor,
        } => {
            write!(text, "proved by 1/{divisor} of")?;
            push_multipliers(&mut text, multipliers.as_slice())?;
        }
        Answer::Refuted(point) => {
            text.push_str("refuted at")?;
            push_point(&mut text, &point)?;
        }
        Answer::Beyond => text.push_str("beyond")?,
    }
    Ok(text)
}

/// Whether rows are empty, with the multipliers or a point.
pub(crate) fn emptied(alloc: Global, given: &str) -> anyhow::Result<String> {
    let given = rows(alloc, given)?;
    let mut text = String::new(alloc);
    match empty(alloc, given.as_slice())? {
        Emptiness::Empty { multipliers } => {
            text.push_str("empty by")?;
            push_multipliers(&mut text, multipliers.as_slice())?;
        }
        Emptiness::Inhabited(point) => {
            text.push_str("met at")?;
            push_point(&mut text, &point)?;
        }
        Emptiness::Beyond => text.push_str("beyond")?,
    }
    Ok(text)
}
