//! Runs of a counted loop: `run bare TURNS` by the machine's steps alone, `run probes TURNS` by a run that two counters
//! watch.
//!
//! The loop takes 4 steps a turn, all of them out of the cache. The result is the steps and their cycles, and what the
//! counters have: the steps once more, and the misses.

ghost use Rattle.std.specs.Prelude.{◌≡◌};

use crate::words::word;
use anyhow::bail;
use arm_machine::{Machine, RegisterValue};
use elf32_image::read_image;
use fetch_timing::Timing;
use machine_probe::{Counter, Probe, Rule, RunEnd, Weigh, run};
use std::alloc::Global;

/// An ELF32 ARM executable with one segment at 0x8000: MOV r1,#0; CMP r1,r0; BGE past the loop; ADD r1,r1,#1; B back
/// to CMP; BX r14.
static FILE: [u8; 108] = [
    0x7f, 0x45, 0x4c, 0x46, 0x01, 0x01, 0x01, 0x00, 0x00, 0x00, 0x00, 0x00, 0x00, 0x00, 0x00, 0x00,
    0x02, 0x00, 0x28, 0x00, 0x01, 0x00, 0x00, 0x00, 0x00, 0x80, 0x00, 0x00, 0x34, 0x00, 0x00, 0x00,
    0x00, 0x00, 0x00, 0x00, 0x00, 0x00, 0x00, 0x00, 0x34, 0x00, 0x20, 0x00, 0x01, 0x00, 0x00, 0x00,
    0x00, 0x00, 0x00, 0x00, 0x01, 0x00, 0x00, 0x00, 0x54, 0x00, 0x00, 0x00, 0x00, 0x80, 0x00, 0x00,
    0x00, 0x80, 0x00, 0x00, 0x18, 0x00, 0x00, 0x00, 0x18, 0x00, 0x00, 0x00, 0x05, 0x00, 0x00, 0x00,
    0x04, 0x00, 0x00, 0x00, 0x00, 0x10, 0xa0, 0xe3, 0x00, 0x00, 0x51, 0xe1, 0x01, 0x00, 0x00, 0xaa,
    0x01, 0x10, 0x81, 0xe2, 0xfb, 0xff, 0xff, 0xea, 0x1e, 0xff, 0x2f, 0xe1,
];

/// The steps of a machine until it returns, and their cycles.
fn bare(machine: &mut Machine<'_>) -> anyhow::Result<(u64, u64)> {
    let mut steps = 0u64;
    let mut cycles = 0u64;
    for _ in 0..u64::MAX {
        if machine.returned() {
            break;
        }
        let Ok(event) = machine.step() else {
            bail!("the machine stops");
        };
        steps = steps.wrapping_add(1);
        cycles = cycles.wrapping_add(event.cycles);
    }
    Ok((steps, cycles))
}

/// A counter without a limit.
fn counter(weigh: Weigh) -> Counter
    ensures { result.tally ≡ 0 }
{
    Counter::new(Rule {
        weigh,
        limit: u128::MAX,
    })
}

/// The steps of a run that two counters watch, their cycles, and the tallies of the counters.
fn watched(alloc: Global, machine: &mut Machine<'_>) -> anyhow::Result<String> {
    let mut probes: Vec<Box<dyn Probe>> = Vec::new(alloc);
    probes.push(Box::new(alloc, counter(Weigh::Steps))?)?;
    probes.push(Box::new(alloc, counter(Weigh::Misses))?)?;
    let RunEnd::Returned { steps, cycles } = run(machine, u64::MAX, &mut probes) else {
        bail!("the run doesn't return");
    };
    let mut text = format!(in alloc; "{steps} {cycles}")?;
    for probe in &probes {
        write!(text, " {}", probe.tally())?;
    }
    Ok(text)
}

/// The steps and their cycles, and the tallies of the counters.
pub(crate) fn done(alloc: Global, words: &[String]) -> anyhow::Result<String> {
    let Ok(turns) = word(words, 2).parse::<i32>() else {
        bail!("no number of turns");
    };
    let image = read_image(alloc, &FILE)?;
    let timing = Timing::unit();
    let values = [RegisterValue {
        register: 0,
        value: turns,
    }];
    let mut machine = Machine::start(alloc, &image, &timing, 0x8000, 0x2000_0000, 4096, &values)?;
    match word(words, 1) {
        "bare" => {
            let (steps, cycles) = bare(&mut machine)?;
            Ok(format!(in alloc; "{steps} {cycles}")?)
        }
        "probes" => watched(alloc, &mut machine),
        _ => bail!("no such run"),
    }
}
