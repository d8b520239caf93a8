//! Runs of the machine.

use crate::probes::are_ready;
use arm_machine::{Machine, RegisterValue};
use elf32_image::read_image;
use fetch_timing::Timing;
use machine_probe::{Probe, RunEnd, run};
use wsym_io::ShelfFile;

/// Where the stack begins, downward.
const SP: u32 = 0x2000_0000;

/// The bytes of a file, or none.
fn bytes_of<'a>(files: &'a [ShelfFile], name: &str) -> &'a [u8] {
    for file in files {
        if file.name.as_str() == name {
            return &file.bytes;
        }
    }
    &[]
}

/// The register and the value of a word `rK=VALUE`, or register 0 and 0.
fn register_value(word: &str) -> RegisterValue {
    let (register, value) = word.split_once('=').unwrap_or((word, ""));
    let register = register.strip_prefix("r").unwrap_or("");
    RegisterValue {
        register: register.parse::<u8>().unwrap_or(0),
        value: value.parse::<i32>().unwrap_or(0),
    }
}

/// How a run ends, where the probes are ready for one.
fn run_ready(
    machine: &mut Machine<'_>,
    steps: u64,
    probes: &mut Vec<Box<dyn Probe>>,
) -> Option<RunEnd> {
    if are_ready(probes.as_slice()) {
        Some(run(machine, steps, probes))
    } else {
        None
    }
}

/// Runs one machine, for as many steps as each further word says, and prints how the runs end and what the probes have
/// counted after all.
pub fn run_line(
    rt: HostRuntime,
    line: &str,
    files: &[ShelfFile],
    given: &str,
    probes: &mut Vec<Box<dyn Probe>>,
) -> anyhow::Result<()> {
    let alloc = rt.alloc();
    let mut words = given.split(' ');
    let image = read_image(alloc, bytes_of(files, words.next().unwrap_or("")))?;
    let timing = Timing::unit();
    let entry = u32::from_str_radix(words.next().unwrap_or(""), 16).unwrap_or(0);
    let value = register_value(words.next().unwrap_or(""));
    if value.register < 13 {
        let values = [value];
        let mut machine = Machine::start(alloc, &image, &timing, entry, SP, 4096, &values)?;
        println!(rt; "{line}")?;
        for steps in words {
            let steps = steps.parse::<u64>().unwrap_or(0);
            if let Some(end) = run_ready(&mut machine, steps, probes) {
                println!(rt; "{end:?}")?;
            }
        }
        for probe in probes.iter() {
            let rule = probe.rule();
            println!(rt; "{:?} up to {}: {}", rule.weigh, rule.limit, probe.tally())?;
        }
    }
    Ok(())
}
