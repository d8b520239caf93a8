//! What probes count, and how far.

ghost use Rattle.std.specs.Prelude.{◌≡◌};
ghost use Rattle.machine_probe.specs.Weights.{weight_by};

use arm_isa::Class;
use arm_machine::Event;

/// What a probe counts.
#[derive(Clone, Copy, Debug)]
pub enum Weigh {
    /// Steps.
    Steps,
    /// Misses of the instruction cache.
    Misses,
    /// Cycles.
    Cycles,
    /// Steps whose instruction is of this class, also where it was skipped.
    OfClass(Class),
}

impl Weigh {
    /// What an event counts: 1 for a step; 1 for a miss; its cycles; 1 for an instruction of the class, done or
    /// skipped; else 0. It takes no memory.
    pub fn of(self, event: &Event) -> u64
        ensures { result ≡ weight_by self event.now }
    {
        // Comparisons for what is counted most: each step asks this of each probe, and a jump through a table takes longer.
        if matches!(self, Weigh::Steps) {
            1
        } else if matches!(self, Weigh::Misses) {
            u64::from(event.miss)
        } else {
            match self {
                Weigh::OfClass(class) => u64::from(event.class == class),
                _ => event.cycles,
            }
        }
    }
}

/// What a probe counts, and the greatest tally with which it lets a run go on.
#[derive(Clone, Copy)]
pub struct Rule {
    /// What it counts.
    pub weigh: Weigh,
    /// The greatest tally that doesn't stop a run.
    pub limit: u128,
}

/// Whether a run may go on.
#[derive(Clone, Copy)]
pub enum Go {
    /// It may.
    On,
    /// It ends.
    Stop,
}
