//! What was read of a report.

use crate::read_loops::ReadLoops;
use fetch_timing::Timing;
use report_elements::Formula;
use report_lines::{Fact, Proof, ReportBlock, ReportRow};
use sqlite_items::Items;
use wsym_terms::{ParamRange, Tree};

/// The function that a report speaks of.
#[derive(Clone, Copy)]
pub struct Function {
    /// Its address.
    pub entry: u32,
    /// The bytes of stack that it may use.
    pub stack: u32,
}

/// What was read of a report: the lines of which there is one, where they came, and the others in lists.
#[derive(Drop)]
pub struct Form {
    pub version: Option<u8>,
    pub function: Option<Function>,
    pub timing: Option<Timing>,
    pub params: Items<ParamRange>,
    pub blocks: Items<ReportBlock>,
    pub loops: ReadLoops,
    /// How many atoms of the last loop are still to come.
    pub owed: u64,
    pub rows: Items<ReportRow>,
    pub facts: Items<Fact>,
    pub proofs: Items<Proof>,
    pub tree: Option<Tree>,
    pub formula: Option<Formula>,
    pub ended: bool,
}
