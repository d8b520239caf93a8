//! Whether difference rows entail one: `entails ROWS VARS TIMES`, the rows of a set, the variables that they speak of,
//! and how many sets are made.
//!
//! The rows are `a - b <= c` for two of the variables, or `a <= c` and `-a <= c`, chosen by a fixed sequence of
//! numbers. The result is how many answers of each kind there are.

use crate::words::{number, small_number};
use anyhow::bail;
use farkas::{Answer, entails};
use linear_rows::{Form, Row, RowTerm, Var};
use sqlite_items::Items;
use std::alloc::Global;

/// The next number of the sequence.
fn next(state: u64) -> u64 {
    state
        .wrapping_mul(6364136223846793005)
        .wrapping_add(1442695040888963407)
}

/// A row of one or two of the variables.
fn row(alloc: Global, state: &mut u64, vars: u64) -> anyhow::Result<Row> {
    if vars == 0 {
        bail!("no variables");
    }
    *state = next(*state);
    let first = (*state >> 33) % vars;
    *state = next(*state);
    let second = (*state >> 33) % vars;
    *state = next(*state);
    let constant = i128::from((*state >> 33) % 100) - 20;
    let mut terms = Items::new(alloc);
    let less = first.min(second);
    let more = first.max(second);
    let factor: i128 = if first < second { 1 } else { -1 };
    terms.push(RowTerm {
        var: Var::Count(less as u32),
        factor,
    })?;
    if less < more {
        terms.push(RowTerm {
            var: Var::Count(more as u32),
            factor: -factor,
        })?;
    }
    let form = Form {
        terms,
        constant: -constant,
    };
    if !form.is_collected() {
        bail!("a form that isn't collected");
    }
    match Row::make(alloc, &form)? {
        Some(row) => Ok(row),
        None => bail!("no row"),
    }
}

/// How many answers of each kind there were.
#[derive(Clone, Copy)]
struct Counts {
    proved: u32,
    refuted: u32,
    beyond: u32,
}

/// Asks about one set of rows.
fn ask(
    alloc: Global,
    state: &mut u64,
    rows: u64,
    vars: u64,
    counts: &mut Counts,
) -> anyhow::Result<()> {
    let mut given = Vec::new(alloc);
    for _ in 0..rows {
        given.push(row(alloc, state, vars)?)?;
    }
    let tested = row(alloc, state, vars)?;
    match entails(alloc, given.as_slice(), &tested)? {
        Answer::Proved { .. } => counts.proved = counts.proved.wrapping_add(1),
        Answer::Refuted(_) => counts.refuted = counts.refuted.wrapping_add(1),
        Answer::Beyond => counts.beyond = counts.beyond.wrapping_add(1),
    }
    Ok(())
}

/// How many answers of each kind there are.
pub(crate) fn done(alloc: Global, words: &[String]) -> anyhow::Result<String> {
    let rows = number(words, 1)?;
    let vars = u64::from(small_number(words, 2)?);
    let times = small_number(words, 3)?;
    let mut counts = Counts {
        proved: 0,
        refuted: 0,
        beyond: 0,
    };
    let mut state = 1;
    for _ in 0..times {
        ask(alloc, &mut state, rows, vars, &mut counts)?;
    }
    let Counts {
        proved,
        refuted,
        beyond,
    } = counts;
    Ok(format!(in alloc; "proved {proved} refuted {refuted} beyond {beyond}")?)
}
