//! Works out the lines of standard input, and prints each with what its call gives.
//!
//! ```text
//! plus LIST LIST, merge LIST LIST                  lists of costs, as {15*2,9|7}: runs, then the tail
//! group LIST COUNT, prefix LIST COUNT, length LIST
//! cost plus COST COST, cost larger COST COST, cost less COST COST, cost times COST COUNT
//! turns VALUE FACTOR CONSTANT DIVISOR              the bound (FACTOR*VALUE + CONSTANT) / DIVISOR of a loop
//! leaf BASE MISS USES                              the costs of a block
//! size                                             the size of the tree of a block that uses one line
//! formula FORMULA                                  a formula, and how many nodes its table has
//! simple BOUND BOUND FORMULA                       its normal form for the bounds of loops 1 and 2
//! value BOUND BOUND VALUE FORMULA                  its value at a value of the parameter
//! keep NODE FORMULA                                what a node of it reaches
//! add LIST LIST ..                                 the numbers of constants that are put into one table
//! ```
//!
//! A cost is a number of cycles, `beyond` or `unbounded`. A bound is `-` without an atom, else `CONSTANT:DIVISOR` or
//! `CONSTANT:DIVISOR:FACTOR`, the factor being that of the one parameter. A formula has its members before it: lists,
//! `sum:COUNT`, `alt:COUNT`, `power:LOOP`, `once`, `scaled:LOOP`; or after `tree:MISS` it is that of a tree of
//! `leaf:BASE:SCOPES`, `seq:COUNT`, `alt:COUNT`, `loop:LOOP` (the body, then the exit). What stands after these words
//! says why the line is here.
#![tactic(auto)]

mod blocks;
mod formulas;
mod lists;
mod numbers;
mod tables;
mod terms;
mod trees;

use std::alloc::{AllocError, Global};
use std::io;

/// What a line's call gives.
fn answer(alloc: Global, line: &str) -> Result<String, AllocError> {
    let mut words = line.split(' ');
    let call = words.next().unwrap_or("");
    let first = words.next().unwrap_or("");
    let second = words.next().unwrap_or("");
    let third = words.next().unwrap_or("");
    let fourth = words.next().unwrap_or("");
    match call {
        "cost" => numbers::cost_call(alloc, first, second, third),
        "turns" => numbers::turns(alloc, first, second, third, fourth),
        "leaf" => blocks::leaf(alloc, first, second, third),
        "size" => blocks::block_size(alloc),
        "formula" | "simple" | "value" | "keep" | "add" => formulas::formula_call(alloc, line),
        _ => lists::list_call(alloc, call, first, second),
    }
}

fn main(rt: HostRuntime) -> io::Result<()> {
    let alloc = rt.alloc();
    for line in rt.lines(alloc) {
        let line = line?;
        let answer = answer(alloc, line.as_str())?;
        println!(rt; "{line}: {answer}")?;
    }
    Ok(())
}
