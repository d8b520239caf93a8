//! Runs commands on real files: each line of standard input is a command, its words separated by single spaces. It
//! writes the line, the command's answer and its status.
//!
//! No probe watches the runs, so their answers are one line.
#![tactic(auto)]

use std::alloc::{AllocError, Global};
use wsym_io::{FileShelf, StdoutSink};
use wsymb_top::wsymb;

/// The words of a line.
fn words_of(alloc: Global, line: &str) -> Result<Vec<String>, AllocError> {
    let mut words = Vec::new(alloc);
    for word in line.split(' ') {
        words.push(String::from_str(alloc, word)?)?;
    }
    Ok(words)
}

fn main(rt: HostRuntime) -> anyhow::Result<()> {
    let alloc = rt.alloc();
    for line in rt.lines(alloc) {
        let line = line?;
        println!(rt; "{line}")?;
        let words = words_of(alloc, line.as_str())?;
        let mut shelf = FileShelf::new(&rt);
        let mut out = StdoutSink::new(&rt);
        let status = wsymb(alloc, &words, &mut shelf, &mut out, Vec::new(alloc));
        println!(rt; "status {status}")?;
    }
    Ok(())
}
