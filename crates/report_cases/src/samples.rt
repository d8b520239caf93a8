//! Samples: reports by name, as lists of lines.

use std::alloc::{AllocError, Global};

/// A line of a sample.
#[derive(Drop)]
struct Line {
    sample: String,
    text: String,
}

/// The lines of all samples, and the name of the last one.
#[derive(Drop)]
pub struct Samples {
    lines: Vec<Line>,
    last: String,
}

/// What is changed in a sample.
#[derive(Drop)]
pub enum Change {
    None,
    Line { place: usize, text: Vec<u8> },
    Insert { place: usize, text: Vec<u8> },
    Delete { place: usize },
    Cut { bytes: usize },
    More { text: Vec<u8> },
}

impl Samples {
    pub fn new(alloc: Global) -> Samples {
        Samples {
            lines: Vec::new(alloc),
            last: String::new(alloc),
        }
    }

    /// Begins a sample.
    pub fn begin(&mut self, alloc: Global, name: &str) -> Result<(), AllocError> {
        self.last = String::from_str(alloc, name)?;
        Ok(())
    }

    /// One more line for the last sample.
    pub fn add_line(&mut self, alloc: Global, text: &str) -> Result<(), AllocError> {
        let line = Line {
            sample: String::from_str(alloc, self.last.as_str())?,
            text: String::from_str(alloc, text)?,
        };
        self.lines.push(line)?;
        Ok(())
    }

    /// The text of a sample with a change.
    pub fn text(&self, alloc: Global, name: &str, change: &Change) -> Result<Vec<u8>, AllocError> {
        let mut out = Vec::new(alloc);
        let mut number = 0_usize;
        for line in self.lines.as_slice() {
            if line.sample.as_str() == name {
                number = number.wrapping_add(1);
                push_changed(&mut out, number, line.text.as_bytes(), change)?;
            }
        }
        push_end(&mut out, number.wrapping_add(1), change)?;
        Ok(out)
    }
}

fn push_line(out: &mut Vec<u8>, text: &[u8]) -> Result<(), AllocError> {
    out.extend_from_slice(text)?;
    out.push(10)?;
    Ok(())
}

/// A line of the sample, by its number, as it is after the change.
fn push_changed(
    out: &mut Vec<u8>,
    number: usize,
    line: &[u8],
    change: &Change,
) -> Result<(), AllocError> {
    match change {
        Change::Line { place, text } if *place == number => push_line(out, text.as_slice()),
        Change::Insert { place, text } if *place == number => {
            push_line(out, text.as_slice())?;
            push_line(out, line)
        }
        Change::Delete { place } if *place == number => Ok(()),
        _ => push_line(out, line),
    }
}

/// What the change does at the end, whose number is that of a line more.
fn push_end(out: &mut Vec<u8>, number: usize, change: &Change) -> Result<(), AllocError> {
    match change {
        Change::Insert { place, text } if *place == number => push_line(out, text.as_slice()),
        Change::Cut { bytes } => {
            let length = out.len().saturating_sub(*bytes);
            out.truncate(length);
            Ok(())
        }
        Change::More { text } => {
            out.extend_from_slice(text.as_slice())?;
            Ok(())
        }
        _ => Ok(()),
    }
}
