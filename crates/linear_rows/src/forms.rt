ghost use Rattle.std.specs.Prelude.{IsTrue, ◌↔◌};
ghost use Rattle.linear_rows.specs.Terms.{ComesBefore};

use crate::rows::{Row, RowTerm, Var};
use crate::weighing::order;
use sqlite_items::Items;
use std::cmp::Ordering;

/// A sum of terms plus a constant.
///
/// The calls that take a form need its terms in ascending order of their variables, none twice, and no
/// factor 0. The numbers may be any.
#[derive(Drop)]
pub struct Form {
    /// What is added up.
    pub terms: Items<RowTerm>,
    /// What is added to the sum.
    pub constant: i128,
}

impl Form {
    ghost use Rattle.linear_rows.specs.Terms.{IsCollected};

    /// Whether the variables of the terms ascend, none twice, and no factor is 0.
    pub fn is_collected(&self) -> bool
        ensures { IsTrue result ↔ IsCollected self.now.terms }
    {
        let mut left = self.terms.as_slice();
        while let Some((term, rest)) = left.split_first() {
            if term.factor == 0 || !comes_before(term, rest) {
                return false;
            }
            left = rest;
        }
        true
    }
}

/// Whether a term's variable comes before that of the first of some terms, if there is one.
fn comes_before(term: &RowTerm, rest: &[RowTerm]) -> bool
    ensures { IsTrue result ↔ ComesBefore term.now rest.now }
{
    match rest.first() {
        Some(next) => order(&term.var, &next.var) == Ordering::Less,
        None => true,
    }
}

/// By how much a register or word changes in one turn of a loop.
#[derive(Clone, Copy)]
pub struct NetChange {
    /// What changes.
    pub var: Var,
    /// Its number after the turn, less its number before.
    pub change: i128,
}

/// The rows that hold whenever a closing edge of a loop is taken, before it is counted.
#[derive(Drop)]
pub struct ClosingRows {
    /// The number of the loop's first block, to which the edge leads.
    pub header: u32,
    /// The number of the block that it leaves.
    pub from: u32,
    /// What holds.
    pub rows: Items<Row>,
}

/// The two numbers, as forms, that an instruction has compared.
#[derive(Drop)]
pub struct Test {
    /// What was compared.
    pub left: Form,
    /// What it was compared with.
    pub right: Form,
}
