//! Works out the lines of standard input, and prints each with what its call gives.
//!
//! ```text
//! collected FORM                       whether the terms ascend by variable, none of them 0
//! make FORM                            the row that the form is at most 0
//! combine ROW | MINE | ROW | THEIRS    the weighted sum of two rows
//! substitute ROW | VAR | FORM          the row with a form in place of a variable
//! multiply NUMBER | NUMBER             the product of two multipliers
//! last ROW | VAR                       the two rows that join the row's terms and the last variable
//! bound ROW | VAR                      the row's bound of the last variable, which is its terms
//! eliminate VAR | ROW; ROW; ..         what a step of the elimination leaves
//! entails ROW; ROW; .. | ROW           whether the rows entail the last one
//! prove ROW; ROW; .. | ROW             the same, with the evidence
//! empty ROW; ROW; ..                   whether no rational point meets the rows, with the evidence
//! ```
//!
//! A form is its constant and then its terms, as `-3 2*%r0 -1*#1`; a row likewise, whose terms are at most the
//! constant. Variables are `%r0`, `[-4]`, `p0`, `%sp` and `#1`; no rows are `-`. What stands in brackets at the end
//! says why the line is here.
#![tactic(auto)]

mod entailment;
mod rows;
mod steps;
mod text;

use anyhow::bail;
use std::alloc::Global;

/// What a line's call gives.
fn answer(alloc: Global, line: &str) -> anyhow::Result<String> {
    let (asked, _) = line.split_once(" (").unwrap_or((line, ""));
    let (call, given) = asked.split_once(' ').unwrap_or((asked, ""));
    let mut parts = given.split('|');
    let first = parts.next().unwrap_or("").trim();
    let second = parts.next().unwrap_or("").trim();
    let third = parts.next().unwrap_or("").trim();
    let fourth = parts.next().unwrap_or("").trim();
    match call {
        "collected" => rows::collected(alloc, first),
        "make" => rows::make(alloc, first),
        "combine" => rows::combine(alloc, first, second, third, fourth),
        "substitute" => rows::substitute(alloc, first, second, third),
        "multiply" => steps::multiply(alloc, first, second),
        "last" => steps::last(alloc, first, second),
        "bound" => steps::bound(alloc, first, second),
        "eliminate" => steps::eliminated(alloc, first, second),
        "entails" => entailment::asked(alloc, first, second),
        "prove" => entailment::proved(alloc, first, second),
        "empty" => entailment::emptied(alloc, first),
        _ => bail!("no such call"),
    }
}

fn main(rt: HostRuntime) -> anyhow::Result<()> {
    let alloc = rt.alloc();
    for line in rt.lines(alloc) {
        let line = line?;
        let answer = answer(alloc, line.as_str())?;
        println!(rt; "{line}: {answer}")?;
    }
    Ok(())
}
