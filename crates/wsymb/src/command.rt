//! The command that the words name.

ghost use Rattle.std.specs.Prelude.{◌≡◌, ◌-◌, ◌^◌};

use machine_probe::{Counter, Probe, Rule, Weigh};
use std::alloc::AllocError;
use std::rt::Files;
use wsym_io::{FileShelf, StdoutSink};
use wsymb_top::{Status, wsymb};

/// Runs the command that the words name, over the system's files and standard output, and answers its status. Two
/// probes watch a run: they count its steps and its cache misses, in this order, and stop nothing.
///
/// # Errors
///
/// Where memory for the probes is refused.
pub(crate) fn run_command<R: Files + Print + AllocGlobal>(
    rt: &R,
    words: &Vec<String>,
) -> Result<Status, AllocError> {
    let alloc = rt.alloc();
    let mut probes: Vec<Box<dyn Probe>> = Vec::new(alloc);
    probes.push(Box::new(alloc, counter(Weigh::Steps))?)?;
    probes.push(Box::new(alloc, counter(Weigh::Misses))?)?;
    let mut shelf = FileShelf::new(rt);
    let mut out = StdoutSink::new(rt);
    Ok(wsymb(alloc, words, &mut shelf, &mut out, probes))
}

/// A counter that has counted nothing yet and has no limit.
fn counter(weigh: Weigh) -> Counter
    ensures { result ≡ record { rule = record { weigh = weigh; limit = 2 ^ 128 - 1 }; tally = 0 } }
{
    Counter::new(Rule {
        weigh,
        limit: u128::MAX,
    })
}
