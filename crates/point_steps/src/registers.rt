//! Registers that are computed, written back or loaded from the image.

ghost use Rattle.std.specs.Prelude.{◌≡◌, ◌≤ℤ◌, pos, neg_ℤ, ◌^◌};
ghost use Rattle.path_facts.specs.Sources.{base_source, block_base_source, compute_source, constant_source};
ghost use Rattle.path_facts.specs.Sources.{literal_source, moved_source, register_source, shifted_source};
ghost use Rattle.point_steps.specs.Meanings.{source_meant};

use crate::source::{Location, Source};
use arm_isa::{BlockTransfer, Offset, Opcode, Operand, Shift};

/// A register plus a constant; r15 reads as the instruction's address + 8.
fn register_source(address: u32, register: u8, by: i64) -> Source
    requires low { neg_ℤ (pos (2 ^ 32)) ≤ℤ by }
    requires high { by ≤ℤ pos (2 ^ 32) }
    ensures { source_meant result ≡ register_source address register by }
{
    if register == 15 {
        let pc = address.wrapping_add(8).cast_signed();
        Source::Constant(i64::from(pc) + by)
    } else {
        Source::Sum(register, by)
    }
}

/// A register less a constant.
fn register_less(address: u32, register: u8, constant: i32) -> Source
    ensures { source_meant result ≡ register_source address register (neg_ℤ constant) }
{
    let by = -i64::from(constant);
    register_source(address, register, by)
}

/// MOV, ADD or SUB with a constant.
fn constant_source(address: u32, opcode: Opcode, rn: u8, value: u32) -> Source
    ensures { source_meant result ≡ constant_source address opcode rn value }
{
    let constant = value.cast_signed();
    match opcode {
        Opcode::Mov => Source::Constant(i64::from(constant)),
        Opcode::Add => register_source(address, rn, i64::from(constant)),
        Opcode::Sub => register_less(address, rn, constant),
        _ => Source::Nothing,
    }
}

/// MOV of a register.
fn moved_source(address: u32, opcode: Opcode, rm: u8) -> Source
    ensures { source_meant result ≡ moved_source address opcode rm }
{
    match opcode {
        Opcode::Mov => register_source(address, rm, 0),
        _ => Source::Nothing,
    }
}

/// Data processing with a register that may be shifted.
fn shifted_source(address: u32, opcode: Opcode, rm: u8, shift: Shift) -> Source
    ensures { source_meant result ≡ shifted_source address opcode rm shift }
{
    match shift {
        Shift::Lsl(amount) => {
            if amount == 0 {
                moved_source(address, opcode, rm)
            } else {
                Source::Nothing
            }
        }
        _ => Source::Nothing,
    }
}

/// The result of data processing.
pub(crate) fn compute_source(address: u32, opcode: Opcode, rn: u8, operand: Operand) -> Source
    ensures { source_meant result ≡ compute_source address opcode rn operand }
{
    match operand {
        Operand::Value { value, .. } => constant_source(address, opcode, rn, value),
        Operand::Shifted { rm, shift } => shifted_source(address, opcode, rm, shift),
        Operand::ByRegister { .. } => Source::Nothing,
    }
}

/// A base that gets the changed address.
pub(crate) fn base_source(up: bool, rn: u8, offset: Offset) -> Source
    ensures { source_meant result ≡ base_source up rn offset }
{
    match offset {
        Offset::Value(bytes) => {
            let bytes = i64::from(bytes);
            Source::Sum(rn, if up { bytes } else { -bytes })
        }
        Offset::Shifted { .. } => Source::Nothing,
    }
}

/// The base of a block, or a register that stays.
pub(crate) fn block_base_source(this: BlockTransfer, register: u8) -> Source
    ensures { source_meant result ≡ block_base_source this register }
{
    if this.write_back && register == this.rn {
        let bytes = i64::from(4 * this.list.count_ones());
        Source::Sum(this.rn, if this.up { bytes } else { -bytes })
    } else {
        Source::Copy(Location::Register(register))
    }
}

/// A word of the image.
pub(crate) fn literal_source(literal: Option<u32>) -> Source
    ensures { source_meant result ≡ literal_source literal }
{
    match literal {
        Some(value) => Source::Constant(i64::from(value.cast_signed())),
        None => Source::Nothing,
    }
}
