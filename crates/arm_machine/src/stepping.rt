//! One step, and what it costs.

ghost use Rattle.std.specs.Prelude.{◌≡◌, ◌≤◌, IfOk, int_lt, not, filter};
ghost use Rattle.arm_isa.specs.Ranges.{IsInsn};
ghost use Rattle.arm_cpu.specs.Registers.{signed_of};
ghost use Rattle.arm_machine.specs.Steps.{event_at, execute, outcome_of, settle, step};
ghost use Rattle.arm_machine.specs.Machines.{Answers, Ends, IsReady, state_of};

use crate::effects::execute;
use crate::events::Event;
use crate::state::{MachineState, SP};
use crate::stops::StepEnd;
use arm_cpu::Stop;
use arm_isa::{Insn, class_of};
use control_flow::{FetchFault, fetch};
use elf32_image::Image;
use fetch_timing::Timing;

/// Makes one step.
pub(crate) fn step(
    state: &mut MachineState<'_>,
    image: &Image,
    timing: &Timing,
) -> Result<Event, StepEnd>
    requires { IsReady timing.now state.old.cache }
    ensures ready { IsReady timing.now state.new.cache }
    ensures limit { IfOk result (λ event. event.cycles ≤ 18000000) }
    ensures step { Answers (step image.now timing.now (state_of state.old)) (state_of state.old) (state_of state.new) result }
{
    match fetch(image, state.cpu.pc) {
        Ok(insn) => step_insn(state, image, timing, insn),
        Err(FetchFault::NoCode) => Err(StepEnd::Stop(Stop::NoCode)),
        Err(FetchFault::BadWord) => Err(StepEnd::Stop(Stop::BadWord)),
    }
}

/// Makes the step of an instruction.
fn step_insn(
    state: &mut MachineState<'_>,
    image: &Image,
    timing: &Timing,
    insn: Insn,
) -> Result<Event, StepEnd>
    requires ready { IsReady timing.now state.old.cache }
    requires insn { IsInsn insn }
    ensures ready { IsReady timing.now state.new.cache }
    ensures limit { IfOk result (λ event. event.cycles ≤ 18000000) }
    ensures step { Answers (execute image.now timing.now (state_of state.old) insn) (state_of state.old) (state_of state.new) result }
{
    let address = state.cpu.pc;
    let done = insn.condition.passes(state.cpu.flags);
    match outcome_of(state, image, insn, done) {
        Ok(()) => Ok(settle(state, timing, insn, done, address)),
        Err(end) => Err(end),
    }
}

/// Does an instruction, or skips it.
fn outcome_of(
    state: &mut MachineState<'_>,
    image: &Image,
    insn: Insn,
    done: bool,
) -> Result<(), StepEnd>
    requires { IsInsn insn }
    ensures cache { state.new.cache ≡ state.old.cache }
    ensures effect { Ends (outcome_of image.now (state_of state.old) insn done) (state_of state.old) (state_of state.new) result }
{
    if done {
        execute(state, image, insn.op)
    } else {
        state.cpu.advance();
        Ok(())
    }
}

/// Fetches the instruction's line, takes the marks below the stack pointer, and gives what the step was.
fn settle(
    state: &mut MachineState<'_>,
    timing: &Timing,
    insn: Insn,
    done: bool,
    address: u32,
) -> Event
    requires { IsReady timing.now state.old.cache }
    ensures ready { IsReady timing.now state.new.cache }
    ensures state { state_of state.new ≡ settle timing.now address (state_of state.old) }
    ensures limit { result.cycles ≤ 18000000 }
    ensures event { result ≡ event_at timing.now state.old.cache.sets address insn done }
{
    let miss = !state.cache.fetch(timing.line_of(address));
    drop_marks(&mut state.kept, state.cpu.registers[SP as usize]);
    Event {
        address,
        done,
        class: class_of(&insn),
        miss,
        cycles: timing.cost(&insn, done) + if miss { timing.miss } else { 0 },
    }
}

/// Takes the marks from the words below the stack pointer.
fn drop_marks(kept: &mut Vec<u32>, sp: u32)
    ensures { kept.new.items ≡ filter (λ word. not (int_lt (signed_of word) (signed_of sp))) kept.old.items }
{
    if !kept.is_empty() {
        let sp = sp.cast_signed();
        kept.retain(|word| !(word.cast_signed() < sp));
    }
}
