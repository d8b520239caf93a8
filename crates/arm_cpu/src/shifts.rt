//! The shifter: the second operand of data processing, and its carry.

ghost use Rattle.std.specs.Prelude.{◌≡◌, ◌≤◌, ◌<◌};
ghost use Rattle.arm_isa.specs.Ranges.{IsOperand, IsShift};
ghost use Rattle.arm_cpu.specs.Shifts.{bit, carry_by, inverted, operand_carry, operand_value, shift_carry, shift_value, sign, signed_to_the_right, to_the_right, value_by};

use crate::cpu::Cpu;
use arm_isa::{Operand, Shift, ShiftKind};

/// The value of the second operand.
#[inline]
pub fn operand_value(cpu: &Cpu, operand: Operand) -> u32
    requires { IsOperand operand }
    ensures { result ≡ operand_value cpu.now operand }
{
    match operand {
        Operand::Value { value, .. } => value,
        Operand::Shifted { rm, shift } => shift_value(cpu.flags.c, cpu.read(rm), shift),
        Operand::ByRegister { rm, kind, rs } => value_by(kind, cpu.read(rm), cpu.read(rs) % 256),
    }
}

/// The shifter's carry.
#[inline]
pub fn operand_carry(cpu: &Cpu, operand: Operand) -> bool
    requires { IsOperand operand }
    ensures { result ≡ operand_carry cpu.now operand }
{
    match operand {
        Operand::Value { value, rotated } => { if rotated { sign(value) } else { cpu.flags.c } }
        Operand::Shifted { rm, shift } => shift_carry(cpu.flags.c, cpu.read(rm), shift),
        Operand::ByRegister { rm, kind, rs } => {
            carry_by(cpu.flags.c, kind, cpu.read(rm), cpu.read(rs) % 256)
        }
    }
}

/// A word shifted by a constant amount.
#[inline]
pub fn shift_value(carry: bool, word: u32, shift: Shift) -> u32
    requires { IsShift shift }
    ensures { result ≡ shift_value carry word shift }
{
    match shift {
        Shift::Lsl(amount) => word << amount,
        Shift::Lsr(amount) => to_the_right(word, u32::from(amount)),
        Shift::Asr(amount) => signed_to_the_right(word, u32::from(amount)),
        Shift::Ror(amount) => word.rotate_right(u32::from(amount)),
        Shift::Rrx => word / 2 + if carry { 0x8000_0000 } else { 0 },
    }
}

/// The bit that leaves last in a shift by a constant amount.
#[inline]
fn shift_carry(carry: bool, word: u32, shift: Shift) -> bool
    requires { IsShift shift }
    ensures { result ≡ shift_carry carry word shift }
{
    match shift {
        Shift::Lsl(amount) => {
            if amount == 0 {
                carry
            } else {
                bit(word, 32 - u32::from(amount))
            }
        }
        Shift::Lsr(amount) | Shift::Asr(amount) => bit(word, u32::from(amount) - 1),
        Shift::Ror(amount) => sign(word.rotate_right(u32::from(amount))),
        Shift::Rrx => word % 2 == 1,
    }
}

/// A word shifted by the low byte of a register.
fn value_by(kind: ShiftKind, word: u32, amount: u32) -> u32
    ensures { result ≡ value_by kind word amount }
{
    match kind {
        ShiftKind::Lsl => { if amount < 32 { word << amount } else { 0 } }
        ShiftKind::Lsr => { if amount < 32 { word >> amount } else { 0 } }
        ShiftKind::Asr => signed_to_the_right(word, amount.min(32)),
        ShiftKind::Ror => word.rotate_right(amount),
    }
}

/// The bit that leaves last in a shift by the low byte of a register.
fn carry_by(carry: bool, kind: ShiftKind, word: u32, amount: u32) -> bool
    ensures { result ≡ carry_by carry kind word amount }
{
    if amount == 0 {
        return carry;
    }
    match kind {
        ShiftKind::Lsl => amount <= 32 && bit(word, 32 - amount),
        ShiftKind::Lsr => amount <= 32 && bit(word, amount - 1),
        ShiftKind::Asr => bit(word, amount.min(32) - 1),
        ShiftKind::Ror => sign(word.rotate_right(amount)),
    }
}

/// A word shifted to the right by at most 32, filled with zeros.
fn to_the_right(word: u32, amount: u32) -> u32
    requires { amount ≤ 32 }
    ensures { result ≡ to_the_right word amount }
{
    if amount == 32 { 0 } else { word >> amount }
}

/// A word shifted to the right by at most 32, filled with its sign.
fn signed_to_the_right(word: u32, amount: u32) -> u32
    requires { amount ≤ 32 }
    ensures { result ≡ signed_to_the_right word amount }
{
    if sign(word) {
        inverted(to_the_right(inverted(word), amount))
    } else {
        to_the_right(word, amount)
    }
}

fn bit(word: u32, place: u32) -> bool
    requires { place < 32 }
    ensures { result ≡ bit word place }
{
    (word >> place) % 2 == 1
}

/// Bit 31.
#[inline(always)]
pub fn sign(word: u32) -> bool
    ensures { result ≡ sign word }
{
    word >= 0x8000_0000
}

/// All bits inverted.
#[inline(always)]
pub fn inverted(word: u32) -> u32
    ensures { result ≡ inverted word }
{
    u32::MAX - word
}
