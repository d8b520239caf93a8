//! Loops of flow graphs: `loops ladder 50000 3` finds the loops of a ladder of 50,000 blocks three times. A ladder's
//! blocks follow one another, and each second one goes back to the one before it; `nests` has sixteen loops one in
//! another, again and again; `tangle` is a ladder whose last loop is entered at both of its blocks. The result is the
//! number of loops, or that there are none because the graph is irreducible.

use crate::words::{number, small_number, word};
use anyhow::bail;
use graph_search::{SuccessorRows, add_to_row, empty_rows, is_bounded};
use interval_loops::{LoopRefusal, loops};
use sqlite_items::Items;
use std::alloc::{AllocError, Global};

/// The number of blocks of a nest of sixteen loops: their headers, a body, and for each a block that closes it.
const NEST: u32 = 33;

/// The block to which a block of a graph goes back, if it does.
fn back(shape: &str, count: u32, block: u32) -> Option<u32> {
    if shape == "nests" {
        let place = block % NEST;
        return if place > 16 {
            block.checked_sub(2 * (place - 16))
        } else {
            None
        };
    }
    if block % 2 == 1 {
        return block.checked_sub(1);
    }
    // The entry of a tangle goes to the last block too.
    if shape == "tangle" && block == 0 {
        return count.checked_sub(1);
    }
    None
}

/// The successors of each block.
fn rows_of(alloc: Global, shape: &str, count: u32) -> Result<Vec<Items<u32>>, AllocError> {
    let mut rows = empty_rows(alloc, count)?;
    for block in 0..count {
        if (block as usize) < rows.len() {
            if block + 1 < count {
                add_to_row(&mut rows, block, block + 1)?;
            }
        }
        if let Some(target) = back(shape, count, block) {
            if (block as usize) < rows.len() {
                add_to_row(&mut rows, block, target)?;
            }
        }
    }
    Ok(rows)
}

/// What the last of the searches gives.
pub(crate) fn done(alloc: Global, words: &[String]) -> anyhow::Result<String> {
    let shape = word(words, 1);
    let count = small_number(words, 2)?;
    let times = number(words, 3)?;
    let rows = Items::from_vec(rows_of(alloc, shape, count)?);
    if rows.len() >= 1 << 32 {
        bail!("too many blocks");
    }
    let graph = SuccessorRows::new(rows, 0, Items::new(alloc));
    if !is_bounded(&graph) {
        bail!("no block");
    }
    let mut found = format!(in alloc; "none")?;
    for _ in 0..times {
        found = match loops(alloc, &graph) {
            Ok(nest) => format!(in alloc; "{}", nest.loops.len())?,
            Err(LoopRefusal::Irreducible) => format!(in alloc; "irreducible")?,
            Err(LoopRefusal::TooDeep) => format!(in alloc; "too deep")?,
            Err(LoopRefusal::Memory) => bail!("memory"),
        };
    }
    Ok(found)
}
