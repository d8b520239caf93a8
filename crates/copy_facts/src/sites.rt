//! The points of a function, with what is needed of each.

use arm_isa::Insn;
use point_tables::Targets;

/// A point: its address and instruction, the word of the image that this loads by r15, the return address of the last
/// call that is open there, and where control goes from it.
#[derive(Clone, Copy)]
pub struct Site {
    pub address: u32,
    pub insn: Insn,
    pub literal: Option<u32>,
    pub home: Option<u32>,
    pub targets: Targets,
}
