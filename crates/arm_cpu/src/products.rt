//! Multiplications.

ghost use Rattle.std.specs.Prelude.{◌≡◌, ◌<◌};
ghost use Rattle.arm_isa.specs.Ranges.{IsLongMultiply, IsMultiply};
ghost use Rattle.arm_cpu.specs.Products.{long_product, multiplies, multiplies_long, pair, product, product_flags, signed_product};

use crate::cpu::Cpu;
use crate::shifts::sign;
use arm_isa::{Flags, LongMultiply, Multiply};

/// Does MUL or MLA.
pub fn multiply(cpu: &mut Cpu, this: Multiply)
    requires { IsMultiply this }
    ensures { cpu.new ≡ multiplies cpu.old this }
{
    let addend = if this.accumulate {
        cpu.read(this.rn)
    } else {
        0
    };
    let value = product(cpu.read(this.rm), cpu.read(this.rs), addend);
    cpu.flags = product_flags(this.set_flags, cpu.flags, sign(value), value == 0);
    cpu.set(this.rd, value);
    cpu.advance();
}

/// Does UMULL, UMLAL, SMULL or SMLAL.
pub fn multiply_long(cpu: &mut Cpu, this: LongMultiply)
    requires { IsLongMultiply this }
    ensures { cpu.new ≡ multiplies_long cpu.old this }
{
    let addend = if this.accumulate {
        pair(cpu, this.rd_hi, this.rd_lo)
    } else {
        0
    };
    let value = long_product(this.signed, cpu.read(this.rm), cpu.read(this.rs), addend);
    cpu.flags = product_flags(this.set_flags, cpu.flags, value >= 1 << 63, value == 0);
    cpu.set(this.rd_hi, (value / (1 << 32)) as u32);
    cpu.set(this.rd_lo, (value % (1 << 32)) as u32);
    cpu.advance();
}

/// The flags after a product: with S, N and Z say what it is; C and V stay.
fn product_flags(set_flags: bool, flags: Flags, negative: bool, zero: bool) -> Flags
    ensures { result ≡ product_flags set_flags flags negative zero }
{
    if set_flags {
        Flags {
            n: negative,
            z: zero,
            c: flags.c,
            v: flags.v,
        }
    } else {
        flags
    }
}

/// The low word of a × b + c.
fn product(a: u32, b: u32, c: u32) -> u32
    ensures { result ≡ product a b c }
{
    ((u64::from(a) * u64::from(b) + u64::from(c)) % (1 << 32)) as u32
}

/// The number of 64 bits in two registers.
fn pair(cpu: &Cpu, hi: u8, lo: u8) -> u64
    requires hi { hi < 15 }
    requires lo { lo < 15 }
    ensures { result ≡ pair cpu.now hi lo }
{
    (1 << 32) * u64::from(cpu.read(hi)) + u64::from(cpu.read(lo))
}

/// The low 64 bits of a × b + c.
fn long_product(signed: bool, a: u32, b: u32, c: u64) -> u64
    ensures { result ≡ long_product signed a b c }
{
    let product = if signed {
        signed_product(a, b)
    } else {
        u64::from(a) * u64::from(b)
    };
    product.wrapping_add(c)
}

/// The product of two words as signed numbers, in 64 bits.
fn signed_product(a: u32, b: u32) -> u64
    ensures { result ≡ signed_product a b }
{
    (a.cast_signed() as i64 * b.cast_signed() as i64).cast_unsigned()
}
