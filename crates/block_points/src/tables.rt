//! The tables of numbered points.

use sqlite_items::Items;

/// The points of a function's blocks by their numbers, which go from 0 on, block after block.
#[derive(Drop)]
pub struct BlockPoints {
    /// By block the numbers of its points, in the order in which control passes them.
    pub rows: Items<Items<u32>>,
    /// By point the number of its block.
    pub home: Items<u32>,
    /// By point the number of its line in memory: the address divided by the bytes of a line.
    pub lines: Items<u32>,
    /// By point the greatest number of cycles of its instruction, done or skipped, without its fetch.
    pub costs: Items<u64>,
    /// By point the numbers of the points that follow it.
    pub next: Items<Items<u32>>,
    /// By point the numbers of the points that it follows.
    pub before: Items<Items<u32>>,
}
