//! Why a file has no image, and a name no function.

use thiserror::Error;

/// Why `read_image` gives no image.
#[derive(Clone, Copy, Debug, Error)]
pub enum ElfRefusal {
    /// There was no memory for the file's bytes.
    #[error("out of memory")]
    Memory,
    /// The file is shorter than a file header, or its header has not the values of an ELF32
    /// executable for ARM.
    #[error("not an ELF32 ARM executable")]
    NotElf32Arm,
    /// A table, a segment or a section that is read passes the file's end, a segment has more bytes
    /// in the file than in memory, it passes the end of the 32-bit memory, or a symbol table names a
    /// section for its names that isn't there.
    #[error("truncated")]
    Truncated,
    /// Two loaded segments share an address.
    #[error("segments overlap")]
    SegmentsOverlap,
}

/// Why `Image::function` gives no address.
#[derive(Clone, Copy, Debug, Error)]
pub enum NameRefusal {
    /// No function symbol has the name.
    #[error("no symbol")]
    NoSymbol,
    /// Function symbols of different values have the name.
    #[error("two symbols")]
    TwoSymbols,
    /// The one value is odd: the function is Thumb code.
    #[error("thumb code")]
    ThumbCode,
}
