//! WSymb's commands over any shelf and sink: words in, an answer or a refusal out.
//!
//! ```text
//! analyse ELF TIMING FUNCTION [param=NAME:rK:LO..HI].. [stack=BYTES]
//! run ELF TIMING FUNCTION [NAME=rK=VALUE].. [sp=ADDRESS] [stack=BYTES] [steps=NUMBER]
//! eval REPORT [NAME=VALUE]..
//! ```
//!
//! `analyse` writes the report of a function of an ELF executable, `run` what a run of it on the reference
//! machine comes to, `eval` the value of a report's formula; or one line says why there is none. A command reads the
//! files that its words name, in their order, and their bytes decide the rest. What the answer says of them is the
//! contract of [`wsymb`].
#![tactic(auto)]

mod analysis;
mod commands;
mod delivery;
mod jobs;
mod refusal_lines;
mod refusals;
mod statuses;
mod top;
mod values;

pub use refusals::Refusal;
pub use statuses::Status;
pub use top::wsymb;
