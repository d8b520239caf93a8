//! Decodes the user instructions of ARMv4 with BX from the 32-bit words that hold them.
//!
//! ```
//! let move_one = decode(0xE3A0_0001); // MOV r0,#1
//! let give_back = decode(0xE12F_FF1E); // BX r14
//! ```
//!
//! The first gives an [`Insn`] with the condition [`Condition::Al`] and an [`Op::Compute`], the second one
//! with [`Op::Exchange`], of which [`is_return`] says that it goes back to the caller. A word that the
//! decoder doesn't know gives `None`: coprocessor instructions, software interrupts, the words that the
//! architecture leaves undefined or unpredictable, and some that this project refuses of its own
//! (`docs/DECODING.md` lists them all).
//!
//! Encodings and names are those of the ARM Architecture Reference Manual (ARM DDI 0100), chapters A3
//! and A5. Nothing here takes memory.
#![tactic(auto)]

mod conditions;
mod decoder;
mod effects;
mod fields;
mod instruction;
mod opcodes;

pub use conditions::{Condition, Flags};
pub use decoder::decode;
pub use effects::{class_of, is_return, may_write};
pub use instruction::{
    BlockTransfer, Branch, BranchExchange, Class, DataProcessing, HalfKind, HalfTransfer, Index,
    Insn, LongMultiply, Multiply, Offset, Op, Operand, Shift, ShiftKind, WordTransfer,
};
pub use opcodes::Opcode;
