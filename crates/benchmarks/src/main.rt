//! Work whose time the scripts of `bench/` take, one layer of the analyser a subcommand.
//!
//! ```text
//! benchmarks multisets plus|merge|group RUNS TIMES DOUBLINGS
//! benchmarks rows TERMS TIMES
//! benchmarks entails ROWS VARS TIMES
//! benchmarks decode decode|add FILE TIMES
//! benchmarks image hold|read|name|walk|jump FILE TIMES
//! benchmarks cache newest|other|miss SETS WAYS TIMES
//! benchmarks run bare|probes TURNS
//! benchmarks loops ladder|nests|tangle BLOCKS TIMES
//! benchmarks graph FILE TIMES
//! benchmarks facts FILE STACK TIMES
//! benchmarks uses straight|copies|nests POINTS WAYS TIMES
//! benchmarks formulas tree|value|simplify|none shared|different LEAVES TIMES
//! ```
//!
//! Without words it does what the lines of standard input say, each such words, and prints each line with its result.
//! What is printed, a count or a sum, keeps the work from being left out; the modules say what it counts.
#![tactic(auto)]

mod cache;
mod decode;
mod entails;
mod facts;
mod formulas;
mod graphs;
mod image;
mod multisets;
mod nests;
mod rows;
mod runs;
mod uses;
mod words;

use crate::words::word;
use anyhow::bail;
use std::env;

/// What the work that some words ask for gives.
fn done(rt: HostRuntime, words: &[String]) -> anyhow::Result<String> {
    let alloc = rt.alloc();
    match word(words, 0) {
        "multisets" => multisets::done(alloc, words),
        "rows" => rows::done(alloc, words),
        "entails" => entails::done(alloc, words),
        "decode" => decode::done(rt, words),
        "image" => image::done(rt, words),
        "cache" => cache::done(alloc, words),
        "run" => runs::done(alloc, words),
        "loops" => nests::done(alloc, words),
        "graph" => graphs::done(rt, words),
        "facts" => facts::done(rt, words),
        "uses" => uses::done(alloc, words),
        "formulas" => formulas::done(alloc, words),
        _ => bail!(
            "usage: benchmarks multisets|rows|entails|decode|image|cache|run|loops|graph|facts|uses|formulas WORDS"
        ),
    }
}

/// Does what a line says.
fn line_done(rt: HostRuntime, line: &str) -> anyhow::Result<String> {
    let mut words = Vec::new(rt.alloc());
    for word in line.split(' ') {
        words.push(String::from_str(rt.alloc(), word)?)?;
    }
    done(rt, words.as_slice())
}

fn main(rt: HostRuntime) -> anyhow::Result<()> {
    let mut words = Vec::new(rt.alloc());
    for word in env::args(&rt)?.skip(1) {
        words.push(word)?;
    }
    if !words.is_empty() {
        println!(rt; "{}", done(rt, words.as_slice())?)?;
        return Ok(());
    }
    for line in rt.lines(rt.alloc()) {
        let line = line?;
        let result = line_done(rt, line.as_str())?;
        println!(rt; "{line}: {result}")?;
    }
    Ok(())
}
