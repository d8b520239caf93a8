//! Texts of timing files.

use std::alloc::{AllocError, Global};

/// The names of a timing file, in the order in which the numbers of a timing stand.
pub static NAMES: [&str; 17] = [
    "sets",
    "ways",
    "line",
    "miss",
    "skipped",
    "register",
    "compute",
    "shifted",
    "multiply",
    "long",
    "load",
    "store",
    "loadmany",
    "storemany",
    "branch",
    "call",
    "exchange",
];

/// The numbers of the table `unit`.
pub const UNIT: &str = "16 2 16 10 1 1 1 1 1 1 1 1 1 1 1 1 1";

fn push_member(text: &mut String, name: &str, value: &str) -> Result<(), AllocError> {
    text.push(if text.is_empty() { '{' } else { ',' })?;
    text.push('"')?;
    text.push_str(name)?;
    text.push_str("\":")?;
    text.push_str(value)
}

/// The object of these numbers, in which one name has another value.
pub fn object(
    alloc: Global,
    numbers: &str,
    changed: &str,
    value: &str,
) -> Result<String, AllocError> {
    let mut text = String::new(alloc);
    for (name, number) in NAMES.iter().zip(numbers.split(' ')) {
        let number = if *name == changed { value } else { number };
        push_member(&mut text, name, number)?;
    }
    text.push('}')?;
    Ok(text)
}

/// The object of the table `unit` in which one name is left out, and another stands a second time.
pub fn object_without(alloc: Global, left_out: &str) -> Result<String, AllocError> {
    let mut text = String::new(alloc);
    for (name, number) in NAMES.iter().zip(UNIT.split(' ')) {
        if *name != left_out {
            push_member(&mut text, name, number)?;
        }
    }
    let doubled = if left_out == "sets" { "ways" } else { "sets" };
    push_member(&mut text, doubled, "2")?;
    text.push('}')?;
    Ok(text)
}

/// The object of the table `unit` with a first value of `miss` that is a number of lists in one another.
pub fn object_nested(alloc: Global, lists: u32) -> Result<String, AllocError> {
    let mut value = String::new(alloc);
    for _list in 0..lists {
        value.push('[')?;
    }
    for _list in 0..lists {
        value.push(']')?;
    }
    value.push_str(",\"miss\":10")?;
    object(alloc, UNIT, "miss", value.as_str())
}

/// The bytes that a text spells: `%` and two hexadecimal digits for any byte, and `@` for the object of `unit`.
pub fn spelled(alloc: Global, text: &str) -> Result<Vec<u8>, AllocError> {
    let mut bytes = Vec::new(alloc);
    let mut pieces = text.split('%');
    if let Some(first) = pieces.next() {
        push_plain(alloc, &mut bytes, first)?;
    }
    for piece in pieces {
        if let Some((digits, rest)) = piece.split_at_checked(2) {
            bytes.push(u8::from_str_radix(digits, 16).unwrap_or(0))?;
            push_plain(alloc, &mut bytes, rest)?;
        }
    }
    Ok(bytes)
}

/// Adds a text, with the object of `unit` for each `@`.
fn push_plain(alloc: Global, bytes: &mut Vec<u8>, text: &str) -> Result<(), AllocError> {
    let unit = object(alloc, UNIT, "", "")?;
    let whole = text.replace(alloc, "@", unit.as_str())?;
    bytes.extend_from_slice(whole.as_bytes())
}
