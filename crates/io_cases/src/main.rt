//! Reads and writes as lines of input ask, over files, shelves and sinks that fail where the line says, and prints each
//! line with what came of it. What follows the numbers of a line is its reason.
//!
//! ```text
//! plain NAME MOST                a file of the shelf that never fails, up to MOST bytes
//! shelf NAME MOST CALL           three reads of a file of the shelf whose calls CALL and 2^64 - 1 fail
//! sink MOST CALL                 a text through a sink that takes MOST bytes a call; call CALL fails
//! pieces TEXT..                  each word of the line through one sink that never fails
//! output MOST CALL               the text through standard output, over a runtime that takes MOST bytes a call
//! print                          a text through standard output as it is
//! file LENGTH MOST               a file of LENGTH bytes is written and read back, up to MOST
//! absent MOST                    a file that isn't there
//! ```
#![tactic(auto)]

mod paper;

use crate::paper::Paper;
use std::alloc::{AllocError, Global};
use std::{fs, io};
use wsym_io::{
    FileShelf, MemShelf, MemSink, PlainShelf, PlainSink, Shelf, ShelfFile, StdoutSink, write_all,
};

/// What goes through the sinks.
const TEXT: &str = "a long enough text";

/// Where files are written and read back.
const NAME: &str = "written.tmp";

/// The number that a word spells, or 0.
fn number(word: Option<&str>) -> u64 {
    word.map_or(0, |word| word.parse::<u64>().unwrap_or(0))
}

/// The files `a`, `empty` and a second `a`, which no call reads.
fn three_files(alloc: Global) -> Result<Vec<ShelfFile>, AllocError> {
    let mut files = Vec::new(alloc);
    for (name, text) in [("a", "first"), ("empty", ""), ("a", "second")] {
        files.push(ShelfFile {
            name: String::from_str(alloc, name)?,
            bytes: text.as_bytes().to_vec(alloc)?,
        })?;
    }
    Ok(files)
}

/// Reads once, and prints the text or the fault.
fn show_read<F: Shelf>(
    rt: HostRuntime,
    line: &str,
    shelf: &mut F,
    name: &str,
    most: u64,
) -> anyhow::Result<()> {
    match shelf.read_all(rt.alloc(), name, most) {
        Ok(bytes) => {
            let text = String::from_utf8_lossy(rt.alloc(), &bytes)?;
            println!(rt; "{line}: '{text}'")?;
        }
        Err(fault) => println!(rt; "{line}: {fault:?}")?,
    }
    Ok(())
}

fn plain_line(rt: HostRuntime, line: &str, name: &str, most: u64) -> anyhow::Result<()> {
    let mut shelf = PlainShelf::new(three_files(rt.alloc())?);
    show_read(rt, line, &mut shelf, name, most)
}

fn shelf_line(rt: HostRuntime, line: &str, name: &str, most: u64, call: u64) -> anyhow::Result<()> {
    let failing = vec![in rt.alloc(); call, u64::MAX]?;
    let mut shelf = MemShelf::new(three_files(rt.alloc())?, failing);
    for _call in 0..3 {
        show_read(rt, line, &mut shelf, name, most)?;
    }
    Ok(())
}

fn sink_line(rt: HostRuntime, line: &str, most: u64, call: u64) -> anyhow::Result<()> {
    let most = most as usize;
    if 0 < most {
        let mut sink = MemSink::new(rt.alloc(), most, vec![in rt.alloc(); call]?);
        let result = write_all(&mut sink, TEXT.as_bytes());
        let text = String::from_utf8_lossy(rt.alloc(), sink.written())?;
        println!(rt; "{line}: {result:?} '{text}'")?;
    }
    Ok(())
}

fn pieces_line(rt: HostRuntime, line: &str) -> anyhow::Result<()> {
    let mut sink = PlainSink::new(rt.alloc());
    write_all(&mut sink, b"")?;
    for word in line.split(' ').skip(1) {
        write_all(&mut sink, word.as_bytes())?;
    }
    let text = String::from_utf8_lossy(rt.alloc(), sink.written())?;
    println!(rt; "{line}: '{text}'")?;
    Ok(())
}

fn output_line(rt: HostRuntime, line: &str, most: u64, call: u64) -> anyhow::Result<()> {
    let paper = Paper::new(rt.alloc(), most as usize, call);
    let result = write_all(&mut StdoutSink::new(&paper), TEXT.as_bytes());
    let taken = paper.taken();
    let text = String::from_utf8_lossy(rt.alloc(), taken.as_slice())?;
    println!(rt; "{line}: {result:?} '{text}'")?;
    Ok(())
}

fn print_line(rt: HostRuntime, line: &str) -> anyhow::Result<()> {
    let result = write_all(&mut StdoutSink::new(&rt), b"to standard output\n");
    println!(rt; "{line}: {result:?}")?;
    Ok(())
}

fn file_line(rt: HostRuntime, line: &str, length: u64, most: u64) -> anyhow::Result<()> {
    let mut bytes = Vec::new(rt.alloc());
    for place in 0..length {
        bytes.push((place % 251) as u8)?;
    }
    fs::write(&rt, NAME, bytes.as_slice())?;
    let mut shelf = FileShelf::new(&rt);
    match shelf.read_all(rt.alloc(), NAME, most) {
        Ok(read) => {
            let is_front = bytes.as_slice().starts_with(read.as_slice());
            println!(rt; "{line}: {} bytes, the first ones: {is_front}", read.len())?;
        }
        Err(fault) => println!(rt; "{line}: {fault:?}")?,
    }
    fs::remove_file(&rt, NAME)?;
    Ok(())
}

fn main(rt: HostRuntime) -> anyhow::Result<()> {
    for line in rt.lines(rt.alloc()) {
        let line = line?;
        let line = line.as_str();
        let mut words = line.split(' ');
        match words.next().unwrap_or("") {
            "plain" => {
                let name = words.next().unwrap_or("");
                plain_line(rt, line, name, number(words.next()))?;
            }
            "shelf" => {
                let name = words.next().unwrap_or("");
                let most = number(words.next());
                shelf_line(rt, line, name, most, number(words.next()))?;
            }
            "sink" => {
                let most = number(words.next());
                sink_line(rt, line, most, number(words.next()))?;
            }
            "pieces" => pieces_line(rt, line)?,
            "output" => {
                let most = number(words.next());
                output_line(rt, line, most, number(words.next()))?;
            }
            "print" => print_line(rt, line)?,
            "file" => {
                let length = number(words.next());
                file_line(rt, line, length, number(words.next()))?;
            }
            "absent" => show_read(
                rt,
                line,
                &mut FileShelf::new(&rt),
                NAME,
                number(words.next()),
            )?,
            _ => println!(rt; "{line}: no such call")?,
        }
    }
    Ok(())
}
