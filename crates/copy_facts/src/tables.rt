//! What all paths say of one point.

use fact_lattice::Range;

/// What all paths say of a stack word: what it holds, and whether only stores by r13 change it.
#[derive(Clone, Copy, Debug, PartialEq, Eq, Drop)]
pub struct WordFacts {
    pub word: u32,
    pub cell: Option<Range>,
    pub kept: bool,
}

/// What all paths say of a point: of r0 to r14, and of the stack words that have a cell or a mark, in order.
#[derive(Drop)]
pub struct PointFacts {
    pub registers: [Option<Range>; 15],
    pub words: Vec<WordFacts>,
}
