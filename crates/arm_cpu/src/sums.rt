//! Data processing.

ghost use Rattle.std.specs.Prelude.{◌≡◌};
ghost use Rattle.arm_isa.specs.Ranges.{IsDataProcessing};
ghost use Rattle.arm_cpu.specs.Registers.{Does};
ghost use Rattle.arm_cpu.specs.Sums.{added, computed, computes, flags_after, flags_of, logical, one_if, subtracted};

use crate::cpu::{Cpu, PC};
use crate::shifts::{inverted, operand_carry, operand_value, sign};
use crate::stops::Stop;
use arm_isa::{DataProcessing, Flags, Opcode};

/// What the arithmetic of an instruction gives.
#[derive(Clone, Copy, Debug)]
pub struct Sum {
    /// The result, modulo 2^32.
    pub value: u32,
    /// The carry out, which says 'no borrow' after a subtraction.
    pub carry: bool,
    /// Signed overflow.
    pub overflow: bool,
}

/// Does a data-processing instruction.
///
/// # Errors
///
/// `Leaves`, exactly where it writes register 15 with a value that is no multiple of 4; then the registers stay.
#[inline]
pub fn compute(cpu: &mut Cpu, this: DataProcessing) -> Result<(), Stop>
    requires { IsDataProcessing this }
    ensures { Does (computes cpu.old this) cpu.old cpu.new result }
{
    let carry = operand_carry(cpu, this.operand);
    let value = operand_value(cpu, this.operand);
    let sum = computed(this.opcode, cpu.flags, carry, cpu.read(this.rn), value);
    let flags = flags_after(this.set_flags, cpu.flags, sum);
    if this.opcode.is_test() {
        cpu.flags = flags;
        cpu.advance();
        return Ok(());
    }
    if this.rd == PC {
        cpu.jump(sum.value)?;
    } else {
        cpu.set(this.rd, sum.value);
        cpu.advance();
    }
    cpu.flags = flags;
    Ok(())
}

/// What an operation gives for the operands `a` and `b`.
#[inline]
fn computed(opcode: Opcode, flags: Flags, shifter_carry: bool, a: u32, b: u32) -> Sum
    ensures { result ≡ computed opcode flags shifter_carry a b }
{
    match opcode {
        Opcode::And | Opcode::Tst => logical(flags, shifter_carry, a & b),
        Opcode::Eor | Opcode::Teq => logical(flags, shifter_carry, a ^ b),
        Opcode::Sub | Opcode::Cmp => subtracted(a, b, true),
        Opcode::Rsb => subtracted(b, a, true),
        Opcode::Add | Opcode::Cmn => added(a, b, false),
        Opcode::Adc => added(a, b, flags.c),
        Opcode::Sbc => subtracted(a, b, flags.c),
        Opcode::Rsc => subtracted(b, a, flags.c),
        Opcode::Orr => logical(flags, shifter_carry, a | b),
        Opcode::Mov => logical(flags, shifter_carry, b),
        Opcode::Bic => logical(flags, shifter_carry, a & inverted(b)),
        Opcode::Mvn => logical(flags, shifter_carry, inverted(b)),
    }
}

/// The flags after an instruction: with S they say what its result is.
#[inline]
fn flags_after(set_flags: bool, flags: Flags, sum: Sum) -> Flags
    ensures { result ≡ flags_after set_flags flags sum }
{
    if set_flags { flags_of(sum) } else { flags }
}

/// The flags that a result sets.
#[inline]
fn flags_of(sum: Sum) -> Flags
    ensures { result ≡ flags_of sum }
{
    Flags {
        n: sign(sum.value),
        z: sum.value == 0,
        c: sum.carry,
        v: sum.overflow,
    }
}

#[inline]
fn added(a: u32, b: u32, carry: bool) -> Sum
    ensures { result ≡ added a b carry }
{
    let total = u64::from(a) + u64::from(b) + one_if(carry);
    let value = (total % 0x1_0000_0000) as u32;
    Sum {
        value,
        carry: total >= 0x1_0000_0000,
        overflow: if sign(a) {
            sign(b) && !sign(value)
        } else {
            !sign(b) && sign(value)
        },
    }
}

#[inline]
fn one_if(carry: bool) -> u64
    ensures { result ≡ one_if carry }
{
    if carry { 1 } else { 0 }
}

#[inline]
fn subtracted(a: u32, b: u32, carry: bool) -> Sum
    ensures { result ≡ subtracted a b carry }
{
    added(a, inverted(b), carry)
}

#[inline]
fn logical(flags: Flags, shifter_carry: bool, value: u32) -> Sum
    ensures { result ≡ logical flags shifter_carry value }
{
    Sum {
        value,
        carry: shifter_carry,
        overflow: flags.v,
    }
}
