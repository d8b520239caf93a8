//! The words of the command line: which are right, and what they ask for.
//!
//! ```text
//! analyse ELF TIMING FUNCTION [param=NAME:rK:LOW..HIGH].. [stack=BYTES]
//! run ELF TIMING FUNCTION [NAME=rK=VALUE].. [sp=ADDRESS] [stack=BYTES] [steps=NUMBER]
//! eval REPORT [NAME=VALUE]..
//! ```
#![tactic(auto)]

mod analyses;
mod commands;
mod laws;
mod numerals;
mod options;
mod parts;
mod places;
mod valuations;
mod word;

pub use analyses::AnalysisSetup;
pub use commands::{Command, read_command};
pub use laws::numbers_are_decimal;
pub use options::Setup;
pub use places::{FunctionWord, Task, TimingWord};
pub use valuations::{NamedValue, Valuation};
pub use word::Word;
