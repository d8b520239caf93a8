//! Graphs of functions: `graph FILE TIMES` builds the graph of the function at address 0x8000 of an executable that many
//! times. The result is the number of its blocks, or that the function has none.

use crate::words::{file, small_number, word};
use anyhow::bail;
use elf32_image::read_image;
use flow_graph::{GraphRefusal, build};

/// Where the function begins.
const ENTRY: u32 = 0x8000;

/// The number of blocks of the last of the graphs.
pub(crate) fn done(rt: HostRuntime, words: &[String]) -> anyhow::Result<String> {
    let alloc = rt.alloc();
    let bytes = file(rt, word(words, 1))?;
    let times = small_number(words, 2)?;
    let Ok(image) = read_image(alloc, bytes.as_slice()) else {
        bail!("no executable");
    };
    let mut found = format!(in alloc; "none")?;
    for _ in 0..times {
        found = match build(alloc, &image, ENTRY) {
            Ok(function) => format!(in alloc; "{}", function.graph.blocks.len())?,
            Err(GraphRefusal::Memory) => bail!("memory"),
            Err(_) => format!(in alloc; "refused")?,
        };
    }
    Ok(found)
}
