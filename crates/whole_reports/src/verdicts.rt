//! What comes of reading a text.

use report_lines::Report;

/// The answer.
#[derive(Drop)]
pub enum Verdict {
    Good(Report),
    Bad { line: u64 },
}

/// Why no report was read.
#[derive(Drop)]
pub enum ReadRefusal {
    Memory,
    Bad { line: u64 },
}
