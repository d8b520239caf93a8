//! Reads the files that a command names, in the order of its words.
#![tactic(auto)]

mod reading;

pub use reading::{InputRefusal, read_file, read_files};
