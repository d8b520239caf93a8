//! The bytes that a text of the input spells.

use std::alloc::{AllocError, Global};

/// The number that decimal digits write, or 0.
pub fn number(word: &str) -> usize {
    match word.parse::<usize>() {
        Ok(number) => number,
        Err(_) => 0,
    }
}

/// The bytes of a text, in which `\xHH` is one byte and `\<COUNT PART>` is a part that many times.
pub fn spelled(alloc: Global, text: &str) -> Result<Vec<u8>, AllocError> {
    let mut out = Vec::new(alloc);
    let mut parts = text.split('\\');
    if let Some(first) = parts.next() {
        out.extend_from_slice(first.as_bytes())?;
    }
    for part in parts {
        if let Some(digits) = part.strip_prefix("x") {
            push_byte(&mut out, digits.as_bytes())?;
        } else {
            push_repeated(&mut out, part)?;
        }
    }
    Ok(out)
}

/// The value of a hexadecimal digit, 0 for another byte.
fn digit(byte: u8) -> u8 {
    match byte {
        b'0'..=b'9' => byte - b'0',
        b'a'..=b'f' => byte - b'a' + 10,
        _ => 0,
    }
}

/// A byte by its two digits, and what stands after them.
fn push_byte(out: &mut Vec<u8>, text: &[u8]) -> Result<(), AllocError> {
    if let [first, second, rest @ ..] = text {
        out.push(digit(*first).wrapping_mul(16).wrapping_add(digit(*second)))?;
        out.extend_from_slice(rest)?;
    }
    Ok(())
}

/// `<COUNT PART>`, and what stands after it.
fn push_repeated(out: &mut Vec<u8>, text: &str) -> Result<(), AllocError> {
    let inner = text.strip_prefix("<").unwrap_or(text);
    let (repeated, rest) = inner.split_once('>').unwrap_or((inner, ""));
    let (count, part) = repeated.split_once(' ').unwrap_or((repeated, ""));
    for _ in 0..number(count) {
        out.extend_from_slice(part.as_bytes())?;
    }
    out.extend_from_slice(rest.as_bytes())?;
    Ok(())
}
