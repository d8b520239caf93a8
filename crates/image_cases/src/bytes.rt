//! Bytes that a line spells.

use std::alloc::{AllocError, Global};

/// The number that a word spells in hexadecimal, or 0.
pub fn number(word: &str) -> u32 {
    u32::from_str_radix(word, 16).unwrap_or(0)
}

/// Adds words, the least significant byte first.
pub fn push_words(bytes: &mut Vec<u8>, words: &[u32]) -> Result<(), AllocError> {
    for word in words {
        bytes.extend_from_slice(&word.to_le_bytes())?;
    }
    Ok(())
}

/// Writes a word's bytes from an offset on, the least significant first, as far as there are places.
pub fn write_word(bytes: &mut Vec<u8>, offset: u32, word: u32) {
    for (index, byte) in word.to_le_bytes().iter().enumerate() {
        let place = offset as usize + index;
        if place < bytes.len() {
            bytes[place] = *byte;
        }
    }
}

/// The bytes with the edits of a line, `OFFSET=WORD` each, written into them.
pub fn edited(alloc: Global, file: &[u8], line: &str) -> Result<Vec<u8>, AllocError> {
    let mut bytes = file.to_vec(alloc)?;
    for word in line.split(' ') {
        if let Some((offset, value)) = word.split_once('=') {
            write_word(&mut bytes, number(offset), number(value));
        }
    }
    Ok(bytes)
}
