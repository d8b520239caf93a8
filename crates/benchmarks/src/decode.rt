//! 16 MiB of code decoded: `decode decode FILE TIMES`, the words of a file, repeated up to that size, and how often all
//! of them are decoded. `decode add FILE TIMES` adds the same words up instead, as a plain loop to compare with. The
//! result is the number of decoded instructions or the sum.

use crate::words::{file, small_number, word};
use anyhow::bail;
use arm_isa::{Insn, decode};
use std::alloc::{AllocError, Global};

/// The words in 16 MiB.
const WORDS: usize = 4 << 20;

/// The words that are decoded into one list.
const BLOCK: usize = 4096;

/// The words of some bytes, least significant byte first, repeated up to 16 MiB. None where there are fewer
/// than four bytes.
fn words_of(alloc: Global, bytes: &[u8]) -> Result<Option<Vec<u32>>, AllocError> {
    let mut words = Vec::with_capacity(alloc, WORDS)?;
    let mut rest = bytes;
    for _place in 0..WORDS {
        if rest.len() < 4 {
            rest = bytes;
        }
        if rest.len() < 4 {
            return Ok(None);
        }
        words.push(u32::from_le_bytes([rest[0], rest[1], rest[2], rest[3]]))?;
        rest = &rest[4..];
    }
    Ok(Some(words))
}

/// How many of the words are instructions.
fn count(alloc: Global, words: &[u32], times: u32) -> Result<u64, AllocError> {
    let mut found: u64 = 0;
    let mut insns: Vec<Insn> = Vec::with_capacity(alloc, BLOCK)?;
    for _time in 0..times {
        for word in words {
            if insns.len() >= BLOCK {
                insns.clear();
            }
            if let Some(insn) = decode(*word) {
                insns.push(insn)?;
                found = found.wrapping_add(1);
            }
        }
    }
    Ok(found)
}

/// The sum of the words, modulo 2^64.
fn add(words: &[u32], times: u32) -> u64 {
    let mut sum: u64 = 0;
    for _time in 0..times {
        for word in words {
            sum = sum.rotate_left(1).wrapping_add(u64::from(*word));
        }
    }
    sum
}

/// The number of instructions, or the sum.
pub(crate) fn done(rt: HostRuntime, words: &[String]) -> anyhow::Result<String> {
    let alloc = rt.alloc();
    let times = small_number(words, 3)?;
    let bytes = file(rt, word(words, 2))?;
    let Some(code) = words_of(alloc, bytes.as_slice())? else {
        bail!("the file has no word");
    };
    let result = if word(words, 1) == "add" {
        add(code.as_slice(), times)
    } else {
        count(alloc, code.as_slice(), times)?
    };
    Ok(format!(in alloc; "{result}")?)
}
