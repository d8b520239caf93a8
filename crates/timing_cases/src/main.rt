//! Reads timing files, costs instructions and fetches lines as lines of input say, and prints each line with the
//! answers.
//!
//! The reason of a line stands after ` # `. In texts `%` with two hexadecimal digits is any byte, and `@` the object of
//! the table `unit`.
//!
//! ```text
//! text TEXT                      the timing of a text, its numbers in the order of the names, or why there is none
//! value NAME TEXT                the same of the object of `unit` with that text as a name's value
//! without NAME                   the same of that object without a name, where another name stands twice
//! nested LISTS                   the same of that object with a first value of `miss` of LISTS lists in one another
//! cost WORD NUMBER..             what the instruction of a word costs by these numbers: done, skipped, and at most
//! place ADDRESS                  the line of an address and its set, by `unit`
//! fetch SETS WAYS LINE..         lines fetched into an empty cache, `1` for each that was there
//! laws                           calls the laws
//! ```
#![tactic(auto)]

mod texts;

use crate::texts::{UNIT, object, object_nested, object_without, spelled};
use arm_isa::decode;
use fetch_timing::{
    LruCache, Timing, empty_cache_is_a_cache, fetch_costs_what_the_timing_says,
    fetch_keeps_a_cache, fetch_leaves_what_the_timing_says, file_limits_are_those_of_timings,
    read_timing,
};

/// The number that a word spells, or 0.
fn number(word: &str) -> u32 {
    word.parse::<u32>().unwrap_or(0)
}

/// The number that a word spells in hexadecimal, or 0.
fn hexadecimal(word: &str) -> u32 {
    u32::from_str_radix(word, 16).unwrap_or(0)
}

fn show(rt: HostRuntime, line: &str, bytes: &[u8]) -> anyhow::Result<()> {
    match read_timing(rt.alloc(), bytes) {
        Ok(t) => {
            let mut numbers = format!(in rt.alloc();
                "{} {} {} {} {} {}",
                t.sets, t.ways, t.line, t.miss, t.skipped, t.register
            )?;
            for cost in &t.classes {
                write!(numbers, " {cost}")?;
            }
            println!(rt; "{line}: {numbers}")?;
        }
        Err(refusal) => println!(rt; "{line}: {refusal:?}")?,
    }
    Ok(())
}

fn cost_line(rt: HostRuntime, line: &str, word: u32, numbers: &str) -> anyhow::Result<()> {
    let text = object(rt.alloc(), numbers, "", "")?;
    let timing = read_timing(rt.alloc(), text.as_bytes())?;
    match decode(word) {
        Some(insn) => {
            let done = timing.cost(&insn, true);
            let skipped = timing.cost(&insn, false);
            let most = timing.point_cost(&insn);
            println!(rt; "{line}: {done} {skipped} {most}")?;
        }
        None => println!(rt; "{line}: no instruction")?,
    }
    Ok(())
}

fn place_line(rt: HostRuntime, line: &str, address: u32) -> anyhow::Result<()> {
    let unit = Timing::unit();
    let place = unit.line_of(address);
    let set = unit.set_of(place);
    println!(rt; "{line}: line {place} set {set}")?;
    Ok(())
}

fn fetch_line(
    rt: HostRuntime,
    line: &str,
    sets: &str,
    ways: &str,
    lines: &str,
) -> anyhow::Result<()> {
    let alloc = rt.alloc();
    let numbers = format!(in alloc; "{sets} {ways} 16 10 1 1 1 1 1 1 1 1 1 1 1 1 1")?;
    let text = object(alloc, numbers.as_str(), "", "")?;
    let timing = read_timing(alloc, text.as_bytes())?;
    let mut cache = LruCache::new(alloc, &timing)?;
    let mut hits = String::new(alloc);
    for fetched in lines.split(' ') {
        hits.push(if cache.fetch(number(fetched)) {
            '1'
        } else {
            '0'
        })?;
    }
    println!(rt; "{line}: {hits}")?;
    Ok(())
}

fn laws_line(rt: HostRuntime, line: &str) -> anyhow::Result<()> {
    file_limits_are_those_of_timings();
    empty_cache_is_a_cache();
    fetch_keeps_a_cache();
    fetch_leaves_what_the_timing_says();
    fetch_costs_what_the_timing_says();
    println!(rt; "{line}: called")?;
    Ok(())
}

/// What stands before the first space and what after it.
fn first_and_rest(text: &str) -> (&str, &str) {
    text.split_once(' ').unwrap_or((text, ""))
}

fn main(rt: HostRuntime) -> anyhow::Result<()> {
    let alloc = rt.alloc();
    for line in rt.lines(alloc) {
        let line = line?;
        let line = line.as_str();
        let (asked, _reason) = line.split_once(" # ").unwrap_or((line, ""));
        let (call, given) = first_and_rest(asked);
        let (first, rest) = first_and_rest(given);
        match call {
            "text" => show(rt, line, &spelled(alloc, given)?)?,
            "value" => {
                let text = object(alloc, UNIT, first, rest)?;
                show(rt, line, &spelled(alloc, text.as_str())?)?;
            }
            "without" => show(rt, line, object_without(alloc, first)?.as_bytes())?,
            "nested" => show(rt, line, object_nested(alloc, number(first))?.as_bytes())?,
            "cost" => cost_line(rt, line, hexadecimal(first), rest)?,
            "place" => place_line(rt, line, number(first))?,
            "fetch" => {
                let (ways, lines) = first_and_rest(rest);
                fetch_line(rt, line, first, ways, lines)?;
            }
            "laws" => laws_line(rt, line)?,
            _ => println!(rt; "{line}: no such call")?,
        }
    }
    Ok(())
}
