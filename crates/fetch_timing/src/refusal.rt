//! Why a file is no timing.

use thiserror::Error;

/// Why `read_timing` gives no timing.
#[derive(Clone, Copy, Debug, Error)]
pub enum TimingRefusal {
    /// There was no memory for the value of the text.
    #[error("out of memory")]
    Memory,
    /// The file isn't the text of a JSON object with exactly the names of a timing, each with a whole
    /// number within its limits.
    #[error("no timing")]
    Bad,
}
