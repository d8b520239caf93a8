//! Reads executables and asks what they hold, as lines of input say, and prints each line with the answers.
//!
//! Numbers are hexadecimal. An edit `OFFSET=WORD` writes the word's four bytes, the least significant first, at that
//! offset of the file. The other words that a line doesn't need are its reason.
//!
//! ```text
//! part NAME HEX..                bytes, two digits each
//! file NAME PART..               a file of parts, one after the other
//! read FILE EDIT..               why the file is refused, or `read`
//! cuts FILE FROM TO              how often each answer comes, at each length from FROM on and below TO
//! at FILE ADDRESS EDIT..         whether there is code; the code, the word, the constant, and what is loaded there
//! name FILE NAME EDIT..          the function of that name, where `.` stands for a zero byte
//! many FILE COUNT SIZE           the file, which has no segment, with COUNT of 16 bytes at descending addresses, the
//!                                last of SIZE bytes
//! code FILE COUNT ADDRESS        the code there among COUNT such segments
//! ```
#![tactic(auto)]

mod bytes;
mod files;

use crate::bytes::{edited, number, push_words, write_word};
use crate::files::Files;
use elf32_image::{ElfRefusal, FileHeader, Image, read_image};
use std::alloc::{AllocError, Global};

/// A word in hexadecimal, or `none`.
fn shown(alloc: Global, word: Option<u32>) -> Result<String, AllocError> {
    match word {
        Some(word) => format!(in alloc; "{word:08x}"),
        None => String::from_str(alloc, "none"),
    }
}

fn part_line(alloc: Global, parts: &mut Files, name: &str, line: &str) -> anyhow::Result<()> {
    let mut bytes = Vec::new(alloc);
    for digits in line.split(' ').skip(2) {
        bytes.extend_from_slice(hex::decode(alloc, digits)?.as_slice())?;
    }
    parts.add(alloc, name, bytes)?;
    Ok(())
}

fn file_line(
    alloc: Global,
    files: &mut Files,
    parts: &Files,
    name: &str,
    line: &str,
) -> anyhow::Result<()> {
    let mut bytes = Vec::new(alloc);
    for part in line.split(' ').skip(2) {
        bytes.extend_from_slice(parts.bytes(part))?;
    }
    files.add(alloc, name, bytes)?;
    Ok(())
}

fn read_line(rt: HostRuntime, line: &str, file: &[u8]) -> anyhow::Result<()> {
    match read_image(rt.alloc(), &edited(rt.alloc(), file, line)?) {
        Ok(_) => println!(rt; "{line}: read")?,
        Err(refusal) => println!(rt; "{line}: {refusal:?}")?,
    }
    Ok(())
}

fn cuts_line(rt: HostRuntime, line: &str, file: &[u8], from: u32, to: u32) -> anyhow::Result<()> {
    let mut headers: u32 = 0;
    let mut truncated: u32 = 0;
    let mut others: u32 = 0;
    for length in from..to {
        if let Some(cut) = file.get(..length as usize) {
            if FileHeader::read(cut).is_some() {
                headers = headers.wrapping_add(1);
            }
            match read_image(rt.alloc(), cut) {
                Err(ElfRefusal::NotElf32Arm) => {}
                Err(ElfRefusal::Truncated) => truncated = truncated.wrapping_add(1),
                _ => others = others.wrapping_add(1),
            }
        }
    }
    println!(rt; "{line}: {headers} have a header, {truncated} are truncated, {others} neither")?;
    Ok(())
}

fn at_line(rt: HostRuntime, line: &str, file: &[u8], address: u32) -> anyhow::Result<()> {
    let alloc = rt.alloc();
    let image = read_image(alloc, &edited(alloc, file, line)?)?;
    let is_code = image.is_code(address);
    let code = shown(alloc, image.code_at(address))?;
    let word = shown(alloc, image.word_at(address))?;
    let constant = shown(alloc, image.constant_at(address))?;
    let loaded = image.loaded(address);
    println!(rt; "{line}: {is_code} {code} {word} {constant} {loaded:?}")?;
    Ok(())
}

fn name_line(rt: HostRuntime, line: &str, file: &[u8], name: &str) -> anyhow::Result<()> {
    let alloc = rt.alloc();
    let image = read_image(alloc, &edited(alloc, file, line)?)?;
    let name = name.replace(alloc, ".", "\0")?;
    match image.function(name.as_str()) {
        Ok(value) => println!(rt; "{line}: {value:08x}")?,
        Err(refusal) => println!(rt; "{line}: {refusal:?}")?,
    }
    Ok(())
}

/// A file with this header and a number of segments of 16 zero bytes each, which may be executed, at descending
/// addresses, the last of another size.
fn segments(alloc: Global, header: &[u8], count: u16, last: u32) -> Result<Vec<u8>, AllocError> {
    let mut bytes = header.to_vec(alloc)?;
    for index in 0..count {
        let left = count - index;
        let size = if left == 1 { last } else { 16 };
        push_words(&mut bytes, &[1, 0, 16 * u32::from(left), 0, 0, size, 5, 0])?;
    }
    write_word(&mut bytes, 42, 0x10000 * u32::from(count) + 32);
    Ok(bytes)
}

fn many_line(
    rt: HostRuntime,
    line: &str,
    header: &[u8],
    count: u16,
    last: u32,
) -> anyhow::Result<()> {
    let file = segments(rt.alloc(), header, count, last)?;
    read_line(rt, line, &file)
}

fn code_line(
    rt: HostRuntime,
    line: &str,
    header: &[u8],
    count: u16,
    at: u32,
) -> anyhow::Result<()> {
    let alloc = rt.alloc();
    let image = read_image(alloc, &segments(alloc, header, count, 16)?)?;
    let code = shown(alloc, image.code_at(at))?;
    println!(rt; "{line}: {code}")?;
    Ok(())
}

fn main(rt: HostRuntime) -> anyhow::Result<()> {
    let alloc = rt.alloc();
    let mut parts = Files::new(alloc);
    let mut files = Files::new(alloc);
    for line in rt.lines(alloc) {
        let line = line?;
        let line = line.as_str();
        let mut words = line.split(' ');
        let call = words.next().unwrap_or("");
        let first = words.next().unwrap_or("");
        let second = words.next().unwrap_or("");
        let third = words.next().unwrap_or("");
        let count = u16::try_from(number(second)).unwrap_or(0);
        match call {
            "part" => part_line(alloc, &mut parts, first, line)?,
            "file" => file_line(alloc, &mut files, &parts, first, line)?,
            "read" => read_line(rt, line, files.bytes(first))?,
            "cuts" => cuts_line(rt, line, files.bytes(first), number(second), number(third))?,
            "at" => at_line(rt, line, files.bytes(first), number(second))?,
            "name" => name_line(rt, line, files.bytes(first), second)?,
            "many" => many_line(rt, line, files.bytes(first), count, number(third))?,
            "code" => code_line(rt, line, files.bytes(first), count, number(third))?,
            _ => println!(rt; "{line}: no such call")?,
        }
    }
    Ok(())
}
