//! The machine over an image.

ghost use Rattle.std.specs.Prelude.{◌≡◌, ◌≢◌, ◌≤◌, ◌<◌, ◌==◌, None, Some, IfOk, IfErr, slice_index};
ghost use Rattle.fetch_timing.specs.Timings.{IsWithinLimits};
ghost use Rattle.control_flow.specs.Ways.{IsInCode};
ghost use Rattle.arm_machine.specs.Starts.{IsStart};
ghost use Rattle.arm_machine.specs.Starting.{AreParameters, bad_start, home, start_state};
ghost use Rattle.arm_machine.specs.Steps.{step};
ghost use Rattle.arm_machine.specs.Machines.{Makes};

use crate::events::Event;
use crate::start::{HOME, RegisterValue, StartRefusal, bad_start, start_state};
use crate::state::MachineState;
use crate::stepping::step;
use crate::stops::StepEnd;
use elf32_image::Image;
use fetch_timing::Timing;
use std::alloc::Global;
use std::marker::Model;

/// The reference machine over an image, with a timing by which it counts cycles.
///
/// Contracts see the image, the timing and the state.
#[derive(Drop)]
pub struct Machine<'a> {
    image: &'a Image,
    timing: &'a Timing,
    state: MachineState<'a>,
}

impl<'a> Model for Machine<'a> {
    ghost use Rattle.arm_machine.specs.Machines.{IsReady, MachineValue, state_of};
    ghost use Rattle.arm_machine.specs.MachineCodes.{machine_code};

    ghost Value = { MachineValue };

    ghost coded = { machine_code };

    ghost view = { λ m. record { image = m.image.now; timing = m.timing.now; state = state_of m.state } };

    ghost invariant = { λ m. IsReady m.timing.now m.state.cache };
}

impl<'a> Machine<'a> {
    /// The machine at the entry of a function, with `stack` bytes of stack (at most 1,048,576) beneath the
    /// stack pointer and these values in registers below 13, each named once. The timing is within its limits.
    ///
    /// The return address is 0xFFFFFFFC, all other registers and the flags are 0, and the instruction cache is
    /// empty. The memory holds the loaded segments, and zeros in the stack and in the 64 bytes from the stack
    /// pointer on where no segment is loaded.
    ///
    /// # Errors
    ///
    /// The first of these that holds, exactly there: `SpUnaligned`, the stack pointer is no multiple of 4;
    /// `SpRange`, as a signed number it isn't from −2^31 + `stack` to 2^31 − 65; `StackLoaded`, a byte of the
    /// stack is loaded; `ReturnLoaded`, a byte of the word at the return address is loaded. `Memory` comes where
    /// memory is refused.
    pub fn start(
        alloc: Global,
        image: &'a Image,
        timing: &'a Timing,
        entry: u32,
        sp: u32,
        stack: u32,
        values: &[RegisterValue],
    ) -> Result<Machine<'a>, StartRefusal>
        requires limits { IsWithinLimits timing.now }
        requires stack { stack ≤ 1048576 }
        requires registers { AreParameters values.now }

        ensures machine { IfOk result (λ m. m ≡ record { image = image.now; timing = timing.now; state = start_state image.now timing.now entry sp stack values.now }) }
        // It is a start state of the function, where control stays in code.
        ensures starts { IfOk result (λ m. IsInCode image.now entry → IsStart image.now timing.now entry stack values.now m.state) }

        ensures good { IfOk result (λ m. bad_start image.now sp stack ≡ None) }
        ensures refused { IfErr result (λ why. why ≢ StartRefusal.Memory → bad_start image.now sp stack ≡ Some why) }
    {
        if let Some(why) = bad_start(image, sp, stack) {
            return Err(why);
        }
        // The memory begins with bytes, since those of an image are.
        image.holds_bytes();
        match start_state(alloc, image, timing, entry, sp, stack, values) {
            Ok(state) => Ok(Machine {
                image,
                timing,
                state,
            }),
            Err(_) => Err(StartRefusal::Memory),
        }
    }

    /// Makes a step, and gives what can be seen of it; it costs at most 18,000,000 cycles. After an error the
    /// machine is as before.
    ///
    /// # Errors
    ///
    /// `Stop`, exactly where the machine stops, with the stop. `Memory` where memory is refused for what the
    /// step writes.
    pub fn step(&mut self) -> Result<Event, StepEnd>
        ensures limit { IfOk result (λ event. event.cycles ≤ 18000000) }
        ensures step { Makes (step self.old.image self.old.timing self.old.state) self.old self.new result }
    {
        step(&mut self.state, self.image, self.timing)
    }

    /// The address of the next instruction. It takes no memory.
    pub fn pc(&self) -> u32
        ensures { result ≡ self.now.state.cpu.pc }
    {
        self.state.cpu.pc
    }

    /// A register below 15. It takes no memory.
    pub fn register(&self, register: u8) -> u32
        requires { register < 15 }
        ensures { result ≡ slice_index self.now.state.cpu.registers register }
    {
        self.state.cpu.registers[register as usize]
    }

    /// Whether the machine stands at the return address with which it started. It takes no memory.
    pub fn returned(&self) -> bool
        ensures { result ≡ (self.now.state.cpu.pc == home) }
    {
        self.state.cpu.pc == HOME
    }
}
