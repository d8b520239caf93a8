//! Path facts of functions: `facts FILE STACK TIMES` merges what is known at the points of the function at address
//! 0x8000 of an executable that many times, with that many bytes of stack. The result is the number of points, and how
//! many stack words have a cell or a mark at all of them together; or that the use of the stack is refused.

use crate::words::{file, number, small_number, word};
use anyhow::bail;
use copy_facts::FrameRefusal;
use elf32_image::read_image;
use flow_graph::build;
use function_frames::{Frames, function_frames};

/// Where the function begins.
const ENTRY: u32 = 0x8000;

/// The number of stack words of which something is known, at all points.
fn words_of(frames: &Frames) -> u64 {
    let mut sum: u64 = 0;
    for facts in frames.facts.as_slice() {
        if let Some(table) = facts {
            sum = sum.wrapping_add(table.words.len() as u64);
        }
    }
    sum
}

/// The numbers of points and words of the last of the tables.
pub(crate) fn done(rt: HostRuntime, words: &[String]) -> anyhow::Result<String> {
    let alloc = rt.alloc();
    let bytes = file(rt, word(words, 1))?;
    let stack = small_number(words, 2)?;
    let times = number(words, 3)?;
    if stack >= 1 << 31 {
        bail!("too much stack");
    }
    let Ok(image) = read_image(alloc, bytes.as_slice()) else {
        bail!("no executable");
    };
    let mut found = format!(in alloc; "none")?;
    for _ in 0..times {
        found = match build(alloc, &image, ENTRY) {
            Ok(function) => match function_frames(alloc, &image, &function, stack) {
                Ok(frames) => { format!(in alloc; "{} {}", frames.facts.len(), words_of(&frames))? }
                Err(FrameRefusal::Memory) => bail!("memory"),
                Err(_) => format!(in alloc; "refused")?,
            },
            Err(_) => bail!("no graph"),
        };
    }
    Ok(found)
}
