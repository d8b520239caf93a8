//! Runs of a machine with probes.

ghost use Rattle.std.specs.Prelude.{◌≡◌, ◌<◌, ◌^◌, if◌then◌else◌, None, Some, List, length, map, position};
ghost use Rattle.std.specs.Option.{is_some, option_or};
ghost use Rattle.arm_machine.specs.Steps.{step};
ghost use Rattle.arm_machine.specs.declared.events.Event.{Event as EventValue};
ghost use Rattle.machine_probe.specs.Weights.{AreReady, HaveRoom, is_over, seen};
ghost use Rattle.machine_probe.specs.ProbedRuns.{Advances, IsReturningRun, Ran};

use crate::probing::Probe;
use crate::rules::Go;
use arm_machine::{Event, Machine, StepEnd, Stop};

/// How a run ends.
#[derive(Clone, Copy, Debug)]
pub enum RunEnd {
    /// The machine stands at the return address, after this number of steps, of this number of cycles together.
    Returned {
        /// The steps of this run.
        steps: u64,
        /// Their cycles together.
        cycles: u128,
    },
    /// The machine stops.
    Stopped {
        /// Why.
        stop: Stop,
        /// The address of the instruction that it stops at.
        address: u32,
    },
    /// A probe answered `Stop` to the last event.
    Halted {
        /// The least place of such a probe.
        probe: u32,
    },
    /// All steps that were allowed are made.
    Spent,
    /// Memory was refused for a step.
    Memory,
}

/// Shows an event to a probe, and says whether it answers `Stop`.
fn show_one(probe: &mut Box<dyn Probe>, event: &Event) -> bool
    requires { (standing probe.old).tally < 2 ^ 127 }

    ensures counts { standing probe.new ≡ seen event.now (standing probe.old) }
    ensures answers { result ≡ is_over (standing probe.new) }
{
    match probe.see(event) {
        Go::On => false,
        Go::Stop => true,
    }
}

/// Shows an event to all probes, and says whether one of them answers `Stop`.
fn show(probes: &mut [Box<dyn Probe>], event: &Event) -> bool
    requires { HaveRoom (map standing probes.old) }

    ensures counts { map standing probes.new ≡ map (seen event.now) (map standing probes.old) }
    ensures stops { result ≡ is_some (position is_over (map standing probes.new)) }
{
    let mut stops = false;
    for probe in probes.iter_mut() {
        stops |= show_one(probe, event);
    }
    stops
}

/// Whether a probe's tally is greater than its limit.
fn is_over(probe: &Box<dyn Probe>) -> bool
    ensures { result ≡ is_over (standing probe.now) }
{
    probe.tally() > probe.rule().limit
}

/// The least place of a probe that is over its limit, after one more probe.
fn least(first: Option<u32>, over: bool, place: usize) -> Option<u32>
    requires { place < 2 ^ 32 }
    ensures { result ≡ option_or first (if over then Some place else None) }
{
    match (first, over) {
        (None, true) => Some(place as u32),
        _ => first,
    }
}

/// The least place of a probe whose tally is greater than its limit. A run asks this once, after its last event.
#[cold]
#[inline(never)]
fn first_over(probes: &[Box<dyn Probe>]) -> Option<u32>
    requires { length probes.now < 2 ^ 32 }
    ensures { result ≡ position is_over (map standing probes.now) }
{
    let mut first = None;
    for (place, probe) in probes.iter().enumerate() {
        first = least(first, is_over(probe), place);
    }
    first
}

/// Shows an event to all probes, and gives the least place of one that answers `Stop`.
fn halting(probes: &mut Vec<Box<dyn Probe>>, event: &Event) -> Option<u32>
    requires few { length probes.old.items < 2 ^ 32 }
    requires small { HaveRoom (map standing probes.old.items) }

    ensures counts { map standing probes.new.items ≡ map (seen event.now) (map standing probes.old.items) }
    ensures least { result ≡ position is_over (map standing probes.new.items) }
{
    if show(probes.as_mut_slice(), event) {
        first_over(probes.as_slice())
    } else {
        None
    }
}

/// The event of a step that was just made, copied field by field. To copy it as a whole would be to read at once what the
/// step has written piece by piece, and the processor would wait until these writes are done.
#[inline(always)]
fn copied(made: Event) -> Event
    ensures { result ≡ made }
{
    Event {
        address: made.address,
        done: made.done,
        class: made.class,
        miss: made.miss,
        cycles: made.cycles,
    }
}

/// Makes a step, and shows its event to all probes: what it cost where the run may go on, else how the run ends.
fn advance(machine: &mut Machine<'_>, probes: &mut Vec<Box<dyn Probe>>) -> Result<u64, RunEnd>
    requires few { length probes.old.items < 2 ^ 32 }
    requires small { HaveRoom (map standing probes.old.items) }

    ensures { Advances (step machine.old.image machine.old.timing machine.old.state) machine.old machine.new (map standing probes.old.items) (map standing probes.new.items) result }
{
    match machine.step() {
        Ok(made) => {
            let event = copied(made);
            match halting(probes, &event) {
                Some(probe) => Err(RunEnd::Halted { probe }),
                None => Ok(event.cycles),
            }
        }
        Err(StepEnd::Stop(stop)) => Err(RunEnd::Stopped {
            stop,
            address: machine.pc(),
        }),
        Err(StepEnd::Memory) => Err(RunEnd::Memory),
    }
}

/// Runs a machine for at most `steps` steps, and shows each step's event to all probes, in their order.
///
/// There are fewer than 2^32 probes, each with a tally of at most 2^126. Before each step it is tested whether the
/// machine has returned, and then whether all the steps are made. The run ends at once by an event to which some
/// probe answers `Stop`, also where its step returned or was the last allowed one; all probes have seen it then. It
/// takes memory only for what the steps write, and where that is refused the run ends before that step.
///
/// What it answers is of this run alone: a second run with the same machine and probes goes on where the first ended.
pub fn run(machine: &mut Machine<'_>, steps: u64, probes: &mut Vec<Box<dyn Probe>>) -> RunEnd
    requires few { length probes.old.items < 2 ^ 32 }
    requires tallies { AreReady (map standing probes.old.items) }

    ensures ran { (events : List EventValue) × Ran machine.old machine.new steps (map standing probes.old.items) (map standing probes.new.items) result events }
    ensures returned { IsReturningRun machine.old result }
{
    let mut cycles: u128 = 0;
    for done in 0..steps {
        if machine.returned() {
            return RunEnd::Returned {
                steps: done,
                cycles,
            };
        }
        match advance(machine, probes) {
            Ok(spent) => cycles += u128::from(spent),
            Err(end) => return end,
        }
    }
    if machine.returned() {
        RunEnd::Returned { steps, cycles }
    } else {
        RunEnd::Spent
    }
}
