//! Fetches of lines into an instruction cache: `cache STREAM SETS WAYS TIMES`.
//!
//! The stream `newest` fetches one line of each set four times in a row, as straight code does, `other` the lines of a
//! full set from the oldest on, and `miss` lines that are never there. The result is the number of hits.

ghost use Rattle.std.specs.Prelude.{IfOk};
ghost use Rattle.fetch_timing.specs.Timings.{IsWithinLimits};

use crate::words::{small_number, word};
use anyhow::bail;
use fetch_timing::{LruCache, Timing, read_timing};
use std::alloc::Global;

/// How often each line of a stream is fetched before the next, and after how many lines it begins anew.
#[derive(Clone, Copy)]
struct Stream {
    repeats: u32,
    period: u32,
}

/// A timing of a number of sets and ways.
fn timing(alloc: Global, sets: u32, ways: u32) -> anyhow::Result<Timing>
    ensures { IfOk result (λ timing. IsWithinLimits timing) }
{
    let costs =
        "\"skipped\":1,\"register\":1,\"compute\":1,\"shifted\":1,\"multiply\":1,\"long\":1";
    let more =
        "\"load\":1,\"store\":1,\"loadmany\":1,\"storemany\":1,\"branch\":1,\"call\":1,\"exchange\":1";
    let text = format!(in alloc;
        "{{\"sets\":{sets},\"ways\":{ways},\"line\":16,\"miss\":10,{costs},{more}}}"
    )?;
    let timing = read_timing(alloc, text.as_bytes())?;
    Ok(timing)
}

/// The hits among a number of fetches.
fn hits(cache: &mut LruCache, stream: &Stream, times: u32) -> u64 {
    let mut hits = 0u64;
    let mut line = 0u32;
    let mut left = stream.repeats;
    for _ in 0..times {
        if cache.fetch(line) {
            hits = hits.wrapping_add(1);
        }
        left = left.wrapping_sub(1);
        if left == 0 {
            left = stream.repeats;
            line = line.wrapping_add(1);
            if line == stream.period {
                line = 0;
            }
        }
    }
    hits
}

/// The stream that a word names, over such a cache.
fn named_stream(name: &str, timing: &Timing) -> anyhow::Result<Stream> {
    let (repeats, period) = match name {
        "newest" => (4, timing.sets),
        "other" => (1, timing.sets.wrapping_mul(timing.ways)),
        "miss" => (1, 0),
        _ => bail!("no such stream"),
    };
    Ok(Stream { repeats, period })
}

/// The number of hits.
pub(crate) fn done(alloc: Global, words: &[String]) -> anyhow::Result<String> {
    let timing = timing(alloc, small_number(words, 2)?, small_number(words, 3)?)?;
    let times = small_number(words, 4)?;
    let stream = named_stream(word(words, 1), &timing)?;
    let mut cache = LruCache::new(alloc, &timing)?;
    let hits = hits(&mut cache, &stream, times);
    Ok(format!(in alloc; "{hits}")?)
}
