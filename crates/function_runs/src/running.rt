//! The run of a function.

ghost use Rattle.std.specs.Prelude.{◌≡◌, ◌<◌, ◌^◌, IfOk, IfErr, length, map};
ghost use Rattle.command_words.specs.Options.{IsSetup};
ghost use Rattle.fetch_timing.specs.Timings.{IsWithinLimits};
ghost use Rattle.machine_probe.specs.Weights.{AreReady};
ghost use Rattle.function_runs.specs.Causes.{IsRefused};
ghost use Rattle.function_runs.specs.Results.{IsResultText};

use crate::refusals::RunRefusal;
use crate::writing::write_result;
use arm_machine::Machine;
use command_words::Setup;
use elf32_image::Image;
use fetch_timing::Timing;
use machine_probe::{Probe, RunEnd, run};
use std::alloc::Global;

/// Runs the function at an address of an image from the start that a setup gives, for at most as many steps as it
/// allows, and writes what came of it: the line `returned S steps C cycles`, and for each probe, numbered from 0, a line
/// `probe I T` with its tally after the run.
///
/// The timing is within its limits, and there are fewer than 2^32 probes, each with a tally of at most 2^126. Each event
/// of the run is shown to every probe, also where no text comes of it.
///
/// # Errors
///
/// There is no start: `SpUnaligned`, `SpOutOfRange`, `StackLoaded` or `ReturnLoaded`, the first that holds. Else, by the
/// way in which the run ends: `Halted`, a probe stopped it; `Spent`, all steps are made and the function hasn't
/// returned; `Stopped`, the machine stops. `Memory` comes where memory is refused.
pub fn run_function(
    alloc: Global,
    image: &Image,
    timing: &Timing,
    entry: u32,
    setup: &Setup,
    probes: &mut Vec<Box<dyn Probe>>,
) -> Result<Vec<u8>, RunRefusal>
    requires limits { IsWithinLimits timing.now }
    requires setup { IsSetup setup.now }
    requires few { length probes.old.items < 2 ^ 32 }
    requires tallies { AreReady (map standing probes.old.items) }

    ensures text { IfOk result (λ text. IsResultText (record { image = image.now; timing = timing.now; entry = entry; setup = setup.now; probes = map standing probes.old.items }) text.items) }
    ensures refused { IfErr result (IsRefused (record { image = image.now; timing = timing.now; entry = entry; setup = setup.now; probes = map standing probes.old.items })) }
{
    let values = setup.values.as_slice();
    let mut machine = Machine::start(alloc, image, timing, entry, setup.sp, setup.stack, values)?;
    match run(&mut machine, setup.steps, probes) {
        RunEnd::Returned { steps, cycles } => {
            Ok(write_result(alloc, steps, cycles, probes.as_slice())?)
        }
        RunEnd::Stopped { stop, address } => Err(RunRefusal::Stopped { stop, address }),
        RunEnd::Halted { probe } => Err(RunRefusal::Halted { probe }),
        RunEnd::Spent => Err(RunRefusal::Spent),
        RunEnd::Memory => Err(RunRefusal::Memory),
    }
}
