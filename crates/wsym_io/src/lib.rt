//! WSymb's edge to files and standard output.
//!
//! A [`Shelf`] gives the bytes of a file by its name, and a [`Sink`] takes bytes a piece at a time. A
//! program that is generic over both says in its contract what it reads and what it appends, and runs
//! over files, over standard output or over memory alike. Both keep a count of faults: `Failed` comes
//! only where that count rose.
//!
//! ```
//! fn copied<F: Shelf, K: Sink>(alloc: Global, name: &str, shelf: &mut F, sink: &mut K) -> bool {
//!     match shelf.read_all(alloc, name, 1000) {
//!         Ok(bytes) => write_all(sink, bytes.as_slice()).is_ok(),
//!         Err(_) => false,
//!     }
//! }
//! ```
#![tactic(auto)]

mod faulty;
mod shelves;
mod sinks;
mod steady;
mod streams;
mod system;

pub use faulty::{MemShelf, MemSink};
pub use shelves::{Shelf, ShelfFault, ShelfFile};
pub use sinks::{Sink, SinkFault, write_all};
pub use steady::{PlainShelf, PlainSink};
pub use system::{FileShelf, StdoutSink};
