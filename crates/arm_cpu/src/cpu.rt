//! The registers, and how values go to them.

ghost use Rattle.std.specs.Prelude.{◌≡◌, ◌<◌};
ghost use Rattle.arm_cpu.specs.Registers.{Does, advanced, jumped, next_pc, read, with_register, written};

use crate::stops::Stop;
use arm_isa::Flags;

/// The number of pc as a register.
pub const PC: u8 = 15;

/// The registers of the processor.
#[derive(Clone, Copy, Debug)]
pub struct Cpu {
    /// Registers 0 to 14.
    pub registers: [u32; 15],
    /// The address of the next instruction.
    pub pc: u32,
    /// The condition flags.
    pub flags: Flags,
}

impl Cpu {
    /// A register as an operand: register 15 reads as the address of the instruction + 8.
    #[inline(always)]
    pub fn read(&self, register: u8) -> u32
        requires { register < 16 }
        ensures { result ≡ read self.now register }
    {
        if register == PC {
            self.pc.wrapping_add(8)
        } else {
            self.registers[register as usize]
        }
    }

    /// The address of the next instruction in the order of addresses.
    #[inline(always)]
    pub fn next_pc(&self) -> u32
        ensures { result ≡ next_pc self.now }
    {
        self.pc.wrapping_add(4)
    }

    /// Goes on after the instruction.
    #[inline(always)]
    pub fn advance(&mut self)
        ensures { self.new ≡ advanced self.old }
    {
        self.pc = self.next_pc();
    }

    /// Gives one of the registers 0 to 14 a value. Another number changes nothing.
    #[inline(always)]
    pub fn set(&mut self, register: u8, value: u32)
        ensures { self.new ≡ with_register self.old register value }
    {
        if register < PC {
            self.registers[register as usize] = value;
        }
    }

    /// Gives pc a value.
    #[inline(always)]
    pub fn jump(&mut self, value: u32) -> Result<(), Stop>
        ensures { Does (jumped self.old value) self.old self.new result }
    {
        if value % 4 == 0 {
            self.pc = value;
            Ok(())
        } else {
            Err(Stop::Leaves)
        }
    }

    /// Gives a register a value, and goes on after the instruction; register 15 is pc.
    #[inline(always)]
    pub fn write(&mut self, register: u8, value: u32) -> Result<(), Stop>
        requires { register < 16 }
        ensures { Does (written self.old register value) self.old self.new result }
    {
        if register == PC {
            self.jump(value)
        } else {
            self.set(register, value);
            self.advance();
            Ok(())
        }
    }
}
