//! What one instruction does to the facts of registers and stack words: the table of `path_facts` as code.
//!
//! ```
//! let source = register_source(address, literal, offset, &insn, 4);
//! match stack_change(offset, &insn) {
//!     StackChange::Nothing => ..,
//!     StackChange::Words { first, last } => .., // word_source and mark_after of these words alone
//!     ..
//! }
//! ```
//!
//! Here `offset` is how far r13 is from where it pointed at the start, where that is known, and `literal` the word of
//! the image that a load by r15 reads ([`literal_of`]). Each call gives what the definitions of `path_facts` say. An
//! instruction that is skipped changes no location, and there is no call for it. Nothing here takes memory.
#![tactic(auto)]

mod blocks;
mod changes;
mod laws;
mod offsets;
mod registers;
mod source;
mod stack_use;
mod table;
mod words;

pub use changes::{StackChange, stack_change};
pub use laws::{
    marks_rise, offsets_matter_to_accesses_by_sp, skipped_instructions_leave_locations,
};
pub use source::{Location, Source};
pub use stack_use::{accesses_by_sp, lowest_byte};
pub use table::{literal_of, mark_after, register_source, returned_source, word_source};
