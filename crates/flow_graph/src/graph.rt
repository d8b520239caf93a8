//! The graph of a function as a value.

use arm_isa::Insn;
use point_tables::Targets;
use sqlite_items::Items;

/// A list of open calls: its parent's, with one return address more.
#[derive(Clone, Copy)]
pub struct Context {
    /// The number of the list without its last return address; 0 in the empty list, which is context 0.
    pub parent: u32,
    /// The last return address; 0 in the empty list.
    pub return_address: u32,
}

/// An instruction in a context.
#[derive(Clone, Copy)]
pub struct GraphPoint {
    pub context: u32,
    pub address: u32,
    pub insn: Insn,
}

/// A basic block.
#[derive(Drop)]
pub struct Block {
    /// The points in the order in which control passes them, at least one.
    pub points: Items<GraphPoint>,
    /// The numbers of the blocks to which control goes on, ascending.
    pub next: Items<u32>,
    /// Whether control leaves the function from here.
    pub returns: bool,
}

/// The basic blocks of a function.
#[derive(Drop)]
pub struct BlockGraph {
    /// The address of the function.
    pub entry: u32,
    /// The lists of open calls in order: by their return addresses, the oldest first, a list before those that it
    /// begins. The first is the empty one.
    pub contexts: Items<Context>,
    /// The blocks in the order of their first points.
    pub blocks: Items<Block>,
    /// The number of blocks.
    pub block_count: u32,
    /// The number of the block that begins at the entry.
    pub entry_block: u32,
    /// The points that control reaches and from which it never gets out of the function, in order.
    pub pruned: Items<GraphPoint>,
}

/// All points that control reaches from a function's entry, by their numbers.
#[derive(Drop)]
pub struct PointTables {
    /// The points in order, each the number of its context and its address. A point's number is its place here.
    pub points: Items<(u32, u32)>,
    /// Where control goes from each point; the number after the last point's is the way out.
    pub targets: Items<Targets>,
    /// The numbers of the points from which control comes to each point and, last, to the way out.
    pub sources: Items<Items<u32>>,
    /// Whether control gets out of the function from each point; true at the way out.
    pub live: Items<bool>,
    /// The points of each block by their numbers, in the order in which control passes them.
    pub chains: Items<Items<u32>>,
}

/// The graph of a function, and all points that control reaches there by their numbers.
#[derive(Drop)]
pub struct FunctionGraph {
    pub graph: BlockGraph,
    pub tables: PointTables,
}

/// Why a function has no graph. Of several faults of points that one is answered which comes first by its kind, in the
/// order given here, and then by its address.
#[derive(Clone, Copy, Debug, PartialEq, Eq)]
pub enum GraphRefusal {
    /// Memory was refused.
    Memory,
    /// Control reaches more points than the limit allows.
    TooLarge,
    /// The word at this address has no decoding.
    UnknownWord(u32),
    /// Control reaches this address, which isn't code.
    OutsideCode(u32),
    /// The instruction at this address writes r15 and is neither a branch nor a return.
    IndirectJump(u32),
    /// The instruction at this address calls the function itself, or one whose call is open.
    Recursion(u32),
    /// Control never gets out of the function.
    NoReturn,
}
