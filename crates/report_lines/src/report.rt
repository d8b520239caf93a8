//! The report, and the kinds of line of its text.

use fetch_timing::Timing;
use linear_rows::Row;
use report_elements::Formula;
use row_elimination::Multiplier;
use sqlite_items::Items;
use wsym_formula::Term;
use wsym_terms::{Atom, Bound, ParamRange, Tree};

/// A basic block of the report; its number is its place in the report's list.
#[derive(Drop)]
pub struct ReportBlock {
    /// The address of its first instruction.
    pub address: u32,
    /// How many instructions it has, at least 1.
    pub points: u32,
    /// The return addresses of the calls that are open in it, the oldest first.
    pub returns: Items<u32>,
}

/// A loop of the report; its number, from 1, is its place in the report's list plus 1.
#[derive(Drop)]
pub struct ReportLoop {
    /// The number of its header block.
    pub header: u32,
    /// How many loops hold its header, itself included: 1 to 16.
    pub depth: u32,
    /// How often it closes for each time that it is entered.
    pub bound: Bound,
}

/// An inequality that holds whenever a run is at the first instruction of a block.
#[derive(Drop)]
pub struct ReportRow {
    /// The number of the block.
    pub block: u32,
    /// The inequality.
    pub row: Row,
}

/// An inequality that holds whenever a run is before an instruction of a block.
#[derive(Drop)]
pub struct Fact {
    /// The number of the block.
    pub block: u32,
    /// The instruction's place in the block, from 0.
    pub index: u32,
    /// The inequality.
    pub row: Row,
}

/// How a run comes to an instruction.
#[derive(Clone, Copy)]
pub enum Way {
    /// It starts there.
    Start,
    /// It has done the instruction before.
    Done { block: u32, index: u32 },
    /// It has skipped the instruction before, whose condition did not pass.
    Skip { block: u32, index: u32 },
}

/// What a proof line proves.
#[derive(Clone, Copy)]
pub enum About {
    /// A fact, by its number, after a way to its instruction.
    Fact(u32),
    /// That the value of an instruction is not too small.
    Low { block: u32, index: u32 },
    /// That the value of an instruction is not too large.
    High { block: u32, index: u32 },
    /// An atom of a loop's bound, after a way that closes the loop.
    Turn { id: u32, atom: u32 },
    /// A row of a report without proofs. It stands in no report.
    Closing { place: u32, row: u32 },
}

/// A proof that rows entail an inequality: the sum of the rows, each times its multiplier, divided.
#[derive(Drop)]
pub struct Proof {
    /// What is proved.
    pub about: About,
    /// After which way.
    pub way: Way,
    /// What the sum of the rows is divided by, at least 1.
    pub divisor: u128,
    /// The multipliers, by ascending places of their rows among the hypotheses.
    pub pairs: Items<Multiplier>,
}

/// What an analysis says of a function.
#[derive(Drop)]
pub struct Report {
    /// The version of its text: with facts and their proofs from version 2 on, with rows in version 1.
    pub version: u8,
    /// The address of the function.
    pub entry: u32,
    /// The bytes of stack that it may use, a multiple of 4.
    pub stack: u32,
    /// The cost table and cache geometry that all costs rest on.
    pub timing: Timing,
    /// The parameters, in the order in which the user gave them.
    pub params: Items<ParamRange>,
    /// The blocks of the function and of all that it calls.
    pub blocks: Items<ReportBlock>,
    /// The loops, by their headers.
    pub loops: Items<ReportLoop>,
    /// What holds at the headers of loops, in version 1.
    pub rows: Items<ReportRow>,
    /// What holds before instructions, from version 2 on.
    pub facts: Items<Fact>,
    /// The proofs of the facts and of the loops' bounds, from version 2 on.
    pub proofs: Items<Proof>,
    /// The order and number of the blocks' executions.
    pub tree: Tree,
    /// A bound of the cycles of one execution.
    pub formula: Formula,
}

/// A line of a report's text.
#[derive(Drop)]
pub enum Line {
    Version(u8),
    Function {
        entry: u32,
        stack: u32,
    },
    Timing(Timing),
    Param(ParamRange),
    Block {
        number: u32,
        block: ReportBlock,
    },
    Loop {
        number: u32,
        header: u32,
        depth: u32,
        atoms: u64,
    },
    Atom(Atom),
    Row(ReportRow),
    Fact {
        number: u32,
        fact: Fact,
    },
    Proof(Proof),
    Tree(Tree),
    Formula(Term),
    End,
}
