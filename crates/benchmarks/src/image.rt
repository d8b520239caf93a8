//! Look-ups in an executable: `image hold FILE 0` reads the file alone, `image read FILE TIMES` makes its image TIMES
//! times, `image name FILE TIMES` looks as often for a function that isn't there, and `image walk FILE TIMES` and
//! `image jump FILE TIMES` look that many words of code up, one after the other or at places far apart. The result is a
//! count or a sum.

use crate::words::{file, small_number, word};
use anyhow::bail;
use elf32_image::{ElfRefusal, Image, read_image};
use std::alloc::Global;

/// Where the code of the file begins.
const START: u32 = 0x8000;

/// The bytes from there on that are looked up: 32 MiB.
const SPAN: u32 = 1 << 25;

/// How many bytes of the file the images have at their first address, none or one each.
fn read(alloc: Global, bytes: &[u8], times: u32) -> Result<u64, ElfRefusal> {
    let mut sum: u64 = 0;
    for _time in 0..times {
        let image = read_image(alloc, bytes)?;
        if image.word_at(START).is_some() {
            sum = sum.wrapping_add(1);
        }
    }
    Ok(sum)
}

/// How many of the look-ups find a function.
fn name(image: &Image, times: u32) -> u64 {
    let mut sum: u64 = 0;
    for _time in 0..times {
        if image.function("no function").is_ok() {
            sum = sum.wrapping_add(1);
        }
    }
    sum
}

/// The sum of the words of code that stand one after the other, again and again.
fn walk(image: &Image, times: u32) -> u64 {
    let mut sum: u64 = 0;
    let mut place: u32 = 0;
    for _time in 0..times {
        if let Some(word) = image.code_at(START + place % SPAN) {
            sum = sum.wrapping_add(u64::from(word));
        }
        place = place.wrapping_add(4);
    }
    sum
}

/// The sum of the words of code at places far apart.
fn jump(image: &Image, times: u32) -> u64 {
    let mut sum: u64 = 0;
    let mut place: u32 = 0;
    for _time in 0..times {
        if let Some(word) = image.code_at(START + place % SPAN / 4 * 4) {
            sum = sum.wrapping_add(u64::from(word));
        }
        place = place.wrapping_mul(1_664_525).wrapping_add(1_013_904_223);
    }
    sum
}

/// The count or the sum.
pub(crate) fn done(rt: HostRuntime, words: &[String]) -> anyhow::Result<String> {
    let alloc = rt.alloc();
    let work = word(words, 1);
    let times = small_number(words, 3)?;
    let bytes = file(rt, word(words, 2))?;
    let result = match work {
        "hold" => bytes.len() as u64,
        "read" => read(alloc, bytes.as_slice(), times)?,
        _ => look_up(&read_image(alloc, bytes.as_slice())?, work, times)?,
    };
    Ok(format!(in alloc; "{result}")?)
}

/// What look-ups in an image give.
fn look_up(image: &Image, work: &str, times: u32) -> anyhow::Result<u64> {
    match work {
        "name" => Ok(name(image, times)),
        "walk" => Ok(walk(image, times)),
        "jump" => Ok(jump(image, times)),
        _ => bail!("no such work on an image"),
    }
}
