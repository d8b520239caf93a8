//! Runs the machine and whole commands, over files in memory, as lines of input ask, and prints each line with what
//! came of it.
//!
//! The reason of a line stands after ` # `. In words of code and addresses numbers are hexadecimal, else decimal.
//!
//! ```text
//! file NAME WORD..               an executable: its code, symbols and headers (`Executable::add`)
//! text NAME TEXT                 a file of a text
//! lines NAME TEXT                a file of lines, with `/` at the end of each
//! run PROBES FILE ENTRY rK=VALUE STEPS..
//!                                how runs end, one after another on one machine with those steps each, from a stack of
//!                                4096 bytes below 0x20000000, and what each probe has counted then
//! command PROBES WORD..          the text and the status of a command
//! faults CALL MOST CALL WORD..   the same without probes, where a call of the shelf fails, and the sink takes MOST
//!                                bytes a call and fails at one
//! cuts FILE FROM TO WORD..       the same without probes, of the file cut to each length from FROM on and below TO
//! held WORD..                    how many hold a token that a probe holds too, before a command and after it
//! ```
//!
//! PROBES is `-`, or rules parted by commas: `steps`, `misses`, `cycles` or `branches`, with `:LIMIT` where there is
//! one, and `late` for one that counts steps from 2^126 on.
#![tactic(auto)]

mod commands;
mod executable;
mod machines;
mod probes;

use crate::commands::{Faults, NO_FAULTS, answer, copies, cut_files, held_line};
use crate::executable::Executable;
use crate::machines::run_line;
use crate::probes::{Late, MOST, rule_of};
use machine_probe::{Counter, Probe};
use std::alloc::{AllocError, Global};
use wsym_io::ShelfFile;

/// What stands before the first space and what after it.
fn first_and_rest(text: &str) -> (&str, &str) {
    text.split_once(' ').unwrap_or((text, ""))
}

fn executable_file(alloc: Global, name: &str, words: &str) -> Result<ShelfFile, AllocError> {
    let mut file = Executable::new(alloc)?;
    for word in words.split(' ') {
        file.add(word)?;
    }
    Ok(ShelfFile {
        name: String::from_str(alloc, name)?,
        bytes: file.bytes(alloc)?,
    })
}

/// A file of lines, which stand one after another in the text with `/` at the end of each.
fn lines_file(alloc: Global, name: &str, text: &str) -> Result<ShelfFile, AllocError> {
    let mut bytes = Vec::new(alloc);
    for byte in text.as_bytes() {
        bytes.push(if *byte == b'/' { b'\n' } else { *byte })?;
    }
    Ok(ShelfFile {
        name: String::from_str(alloc, name)?,
        bytes,
    })
}

fn text_file(alloc: Global, name: &str, text: &str) -> Result<ShelfFile, AllocError> {
    Ok(ShelfFile {
        name: String::from_str(alloc, name)?,
        bytes: text.as_bytes().to_vec(alloc)?,
    })
}

/// Runs of the machine or a command, with the probes that the first word spells.
fn probed_line(
    rt: HostRuntime,
    line: &str,
    files: &[ShelfFile],
    call: &str,
    given: &str,
) -> anyhow::Result<()> {
    let alloc = rt.alloc();
    let (rules, rest) = first_and_rest(given);
    let mut probes: Vec<Box<dyn Probe>> = Vec::new(alloc);
    for rule in rules.split(',') {
        if rule == "late" {
            probes.push(Box::new(alloc, Late { tally: MOST })?)?;
        } else if rule != "-" {
            probes.push(Box::new(alloc, Counter::new(rule_of(rule)))?)?;
        }
    }
    if call == "run" {
        run_line(rt, line, files, rest, &mut probes)
    } else {
        let text = answer(alloc, copies(alloc, files)?, rest, &NO_FAULTS, probes)?;
        println!(rt; "{line}\n{text}")?;
        Ok(())
    }
}

fn number(word: &str) -> u64 {
    word.parse::<u64>().unwrap_or(0)
}

fn faults_line(
    rt: HostRuntime,
    line: &str,
    files: &[ShelfFile],
    given: &str,
) -> anyhow::Result<()> {
    let alloc = rt.alloc();
    let (shelf_call, rest) = first_and_rest(given);
    let (most, rest) = first_and_rest(rest);
    let (sink_call, words) = first_and_rest(rest);
    let faults = Faults {
        shelf_call: number(shelf_call),
        most: number(most) as usize,
        sink_call: number(sink_call),
    };
    let text = answer(
        alloc,
        copies(alloc, files)?,
        words,
        &faults,
        Vec::new(alloc),
    )?;
    println!(rt; "{line}\n{text}")?;
    Ok(())
}

/// Prints each answer once, with how many lengths in a row have it.
fn cuts_line(rt: HostRuntime, line: &str, files: &[ShelfFile], given: &str) -> anyhow::Result<()> {
    let alloc = rt.alloc();
    let (name, rest) = first_and_rest(given);
    let (from, rest) = first_and_rest(rest);
    let (to, words) = first_and_rest(rest);
    println!(rt; "{line}")?;
    let mut before = String::new(alloc);
    let mut lengths: u64 = 0;
    for length in number(from)..number(to) {
        let cut = cut_files(alloc, files, name, length as usize)?;
        let text = answer(alloc, cut, words, &NO_FAULTS, Vec::new(alloc))?;
        if text.as_str() != before.as_str() {
            if lengths > 0 {
                println!(rt; "{lengths} lengths: {before}")?;
            }
            before = text;
            lengths = 0;
        }
        lengths = lengths.wrapping_add(1);
    }
    println!(rt; "{lengths} lengths: {before}")?;
    Ok(())
}

fn main(rt: HostRuntime) -> anyhow::Result<()> {
    let alloc = rt.alloc();
    let mut files = Vec::new(alloc);
    for line in rt.lines(alloc) {
        let line = line?;
        let line = line.as_str();
        let (asked, _reason) = line.split_once(" # ").unwrap_or((line, ""));
        let (call, given) = first_and_rest(asked);
        let (first, rest) = first_and_rest(given);
        match call {
            "file" => files.push(executable_file(alloc, first, rest)?)?,
            "text" => files.push(text_file(alloc, first, rest)?)?,
            "lines" => files.push(lines_file(alloc, first, rest)?)?,
            "run" | "command" => probed_line(rt, line, files.as_slice(), call, given)?,
            "faults" => faults_line(rt, line, files.as_slice(), given)?,
            "cuts" => cuts_line(rt, line, files.as_slice(), given)?,
            "held" => held_line(rt, line, files.as_slice(), given)?,
            _ => println!(rt; "{line}: no such call")?,
        }
    }
    Ok(())
}
