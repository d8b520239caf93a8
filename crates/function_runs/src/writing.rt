//! The text of a result.

ghost use Rattle.std.specs.Prelude.{◌≡◌, ◌++◌, IfOk, OnOk, map, string_bytes};
ghost use Rattle.function_runs.specs.Lines.{probe_line, probe_lines, result_text, returned_line};
ghost use Rattle.function_runs.specs.Results.{tallies_of};

use machine_probe::Probe;
use std::alloc::{AllocError, Global};
use std::fmt::Write;

/// The lines of a run that has returned: its steps and cycles, and what each probe has counted.
///
/// # Errors
///
/// Where memory is refused.
pub(crate) fn write_result(
    alloc: Global,
    steps: u64,
    cycles: u128,
    probes: &[Box<dyn Probe>],
) -> Result<Vec<u8>, AllocError>
    ensures { IfOk result (λ text. text.items ≡ result_text steps cycles (tallies_of (map standing probes.now))) }
{
    let mut out = String::new(alloc);
    push_returned(&mut out, steps, cycles)?;
    push_probes(&mut out, probes)?;
    Ok(out.into_bytes())
}

fn push_returned(out: &mut String, steps: u64, cycles: u128) -> Result<(), AllocError>
    ensures { OnOk result (string_bytes out.new ≡ string_bytes out.old ++ returned_line steps cycles) }
{
    write!(out, "returned {steps} steps {cycles} cycles\n")?;
    Ok(())
}

/// Probes are numbered from 0.
fn push_probes(out: &mut String, probes: &[Box<dyn Probe>]) -> Result<(), AllocError>
    ensures { OnOk result (string_bytes out.new ≡ string_bytes out.old ++ probe_lines 0 (tallies_of (map standing probes.now))) }
{
    for (place, probe) in probes.iter().enumerate() {
        push_probe(out, place as u64, probe)?;
    }
    Ok(())
}

fn push_probe(out: &mut String, place: u64, probe: &Box<dyn Probe>) -> Result<(), AllocError>
    ensures { OnOk result (string_bytes out.new ≡ string_bytes out.old ++ probe_line place (standing probe.now).tally) }
{
    push_tally(out, place, probe.tally())
}

fn push_tally(out: &mut String, place: u64, tally: u128) -> Result<(), AllocError>
    ensures { OnOk result (string_bytes out.new ≡ string_bytes out.old ++ probe_line place tally) }
{
    write!(out, "probe {place} {tally}\n")?;
    Ok(())
}
