//! Reads the image of an ELF32 executable for ARM: the segments that a loader puts into memory, and the
//! addresses of its functions by their names.
//!
//! ```rust
//! use elf32_image::{Loaded, read_image};
//!
//! let image = read_image(rt.alloc(), bytes)?;
//! let entry = image.function("main")?;
//! let first = image.code_at(entry);
//! assert_eq!(rt; image.loaded(0), Loaded::No);
//! ```
//!
//! The format is that of the System V ABI, chapters 4 and 5. Addresses, offsets and sizes are in bytes,
//! and a word has four bytes, the least significant first.
#![tactic(auto)]

mod format;
mod image;
mod linking;
mod lookup;
mod naming;
mod reading;
mod refusal;

pub use format::FileHeader;
pub use image::{Image, Loaded};
pub use reading::read_image;
pub use refusal::{ElfRefusal, NameRefusal};
