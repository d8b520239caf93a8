//! Shows what is said of instruction words and of conditions, a line for each line that it reads.
//!
//! ```text
//! WORD ASSEMBLER..             the instruction, its class, the registers that it may write, whether it returns
//! condition NUMBER NAME        the condition, and under which of the flags NZCV, 0000 to 1111, it passes
//! ```
#![tactic(auto)]

use arm_isa::{Condition, Flags, class_of, decode, is_return, may_write};
use std::io;

/// The number that a word spells in hexadecimal, or 0.
fn number(word: Option<&str>) -> u32 {
    word.map_or(0, |word| u32::from_str_radix(word, 16).unwrap_or(0))
}

/// The flags whose bits are N, Z, C and V.
fn flags_of(nzcv: u32) -> Flags {
    let is_one = |place: u32| (nzcv >> place) % 2 == 1;
    Flags {
        n: is_one(3),
        z: is_one(2),
        c: is_one(1),
        v: is_one(0),
    }
}

fn show_condition(rt: HostRuntime, line: &str, place: u32) -> io::Result<()> {
    let condition = Condition::from_number((place % 16) as u8);
    print!(rt; "{line}: {condition:?} ")?;
    for nzcv in 0..16u32 {
        print!(rt; "{}", u8::from(condition.passes(flags_of(nzcv))))?;
    }
    println!(rt; "")
}

fn show_word(rt: HostRuntime, line: &str, word: u32) -> io::Result<()> {
    let Some(insn) = decode(word) else {
        return println!(rt; "{line}: none");
    };
    let mut written: u32 = 0;
    for register in 0..20u8 {
        if may_write(&insn, register) {
            written = written.wrapping_add(1 << register);
        }
    }
    let returns = if is_return(&insn) { ", returns" } else { "" };
    println!(rt;
        "{line}: {insn:?} {:?}, writes {written:04x}{returns}",
        class_of(&insn)
    )
}

fn main(rt: HostRuntime) -> io::Result<()> {
    for line in rt.lines(rt.alloc()) {
        let line = line?;
        let mut words = line.split(' ');
        let first = words.next();
        if first == Some("condition") {
            show_condition(rt, line.as_str(), number(words.next()))?;
        } else {
            show_word(rt, line.as_str(), number(first))?;
        }
    }
    Ok(())
}
