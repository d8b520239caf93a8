//! Reads texts of reports, whole or with one line changed, and prints each line of input with what comes of it: `read`
//! where the text is read and the report that was read is written as that text again, else the first bad line.
//!
//! ```text
//! report NAME                    begins a sample, whose lines follow
//! | LINE                         one of its lines
//! read NAME                      the sample
//! line NAME K TEXT               the sample with TEXT as line K
//! insert NAME K TEXT             the sample with TEXT before line K, where its end counts as a line
//! delete NAME K                  the sample without line K
//! cut NAME K                     the sample without its last K bytes
//! more NAME TEXT                 the sample and TEXT, without a line feed
//! text TEXT                      TEXT alone, without a line feed
//! ```
//!
//! In TEXT `\xHH` is the byte with these hexadecimal digits, and `\<COUNT PART>` is PART that many times. The reason of a
//! line stands after ` # `.
#![tactic(auto)]

mod samples;
mod spelling;

use crate::samples::{Change, Samples};
use crate::spelling::{number, spelled};
use std::alloc::{AllocError, Global};
use whole_reports::{ReadRefusal, read_report, write_report};

/// What comes of reading a text.
fn answer(alloc: Global, text: &[u8]) -> Result<String, AllocError> {
    match read_report(alloc, text) {
        Ok(report) => {
            if write_report(alloc, &report)?.as_slice() == text {
                String::from_str(alloc, "read")
            } else {
                String::from_str(alloc, "read as another report")
            }
        }
        Err(ReadRefusal::Bad { line }) => format!(in alloc; "bad line {line}"),
        Err(ReadRefusal::Memory) => String::from_str(alloc, "out of memory"),
    }
}

/// The change that the words of a line ask for.
fn change_of(alloc: Global, verb: &str, rest: &str) -> Result<Option<Change>, AllocError> {
    let (first, text) = rest.split_once(' ').unwrap_or((rest, ""));
    let place = number(first);
    Ok(match verb {
        "read" => Some(Change::None),
        "line" => Some(Change::Line {
            place,
            text: spelled(alloc, text)?,
        }),
        "insert" => Some(Change::Insert {
            place,
            text: spelled(alloc, text)?,
        }),
        "delete" => Some(Change::Delete { place }),
        "cut" => Some(Change::Cut { bytes: place }),
        "more" => Some(Change::More {
            text: spelled(alloc, rest)?,
        }),
        _ => None,
    })
}

fn asked_line(rt: HostRuntime, samples: &Samples, line: &str, asked: &str) -> anyhow::Result<()> {
    let alloc = rt.alloc();
    let (verb, rest) = asked.split_once(' ').unwrap_or((asked, ""));
    if verb == "text" {
        let answer = answer(alloc, spelled(alloc, rest)?.as_slice())?;
        println!(rt; "{line}: {answer}")?;
        return Ok(());
    }
    let (name, rest) = rest.split_once(' ').unwrap_or((rest, ""));
    match change_of(alloc, verb, rest)? {
        Some(change) => {
            let text = samples.text(alloc, name, &change)?;
            let answer = answer(alloc, text.as_slice())?;
            println!(rt; "{line}: {answer}")?;
        }
        None => println!(rt; "{line}: no such call")?,
    }
    Ok(())
}

fn main(rt: HostRuntime) -> anyhow::Result<()> {
    let alloc = rt.alloc();
    let mut samples = Samples::new(alloc);
    for line in rt.lines(alloc) {
        let line = line?;
        let line = line.as_str();
        if let Some(part) = line.strip_prefix("| ") {
            samples.add_line(alloc, part)?;
        } else if let Some(name) = line.strip_prefix("report ") {
            samples.begin(alloc, name)?;
        } else {
            let (asked, _reason) = line.split_once(" # ").unwrap_or((line, ""));
            asked_line(rt, &samples, line, asked)?;
        }
    }
    Ok(())
}
