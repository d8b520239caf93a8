//! Why a run has no result.

ghost use Rattle.std.specs.Prelude.{◌≡◌};
ghost use Rattle.function_runs.specs.Causes.{unstarted};
ghost use Rattle.function_runs.specs.declared.refusals.RunRefusal.TheVariants.{Memory};

use arm_machine::{StartRefusal, Stop};
use std::alloc::AllocError;

/// Why a run has no result.
#[derive(Clone, Copy)]
pub enum RunRefusal {
    /// "memory": memory was refused. It may come at any place.
    Memory,
    /// "bad start sp unaligned": the stack pointer is no multiple of 4.
    SpUnaligned,
    /// "bad start sp out of range": as a signed number the stack pointer isn't from −2^31 + the size of the stack to
    /// 2^31 − 65.
    SpOutOfRange,
    /// "bad start stack loaded": a byte of the stack, beneath the stack pointer, is loaded.
    StackLoaded,
    /// "bad start return loaded": a byte of the word at the return address, 0xFFFFFFFC, is loaded.
    ReturnLoaded,
    /// "stopped": the machine stops at a step that the run tries.
    Stopped {
        /// Why it stops.
        stop: Stop,
        /// The address of the instruction that it stops at.
        address: u32,
    },
    /// "spent": all steps that were allowed are made, and the function hasn't returned.
    Spent,
    /// "halted": a probe stopped the run.
    Halted {
        /// The least place, from 0, of a probe that stopped it by the last event.
        probe: u32,
    },
}

impl From<AllocError> for RunRefusal {
    ghost from_gives = { λ _ why. why ≡ Memory };

    fn from(_error: AllocError) -> RunRefusal {
        RunRefusal::Memory
    }
}

impl From<StartRefusal> for RunRefusal {
    ghost from_gives = { λ cause why. why ≡ unstarted cause };

    fn from(cause: StartRefusal) -> RunRefusal {
        match cause {
            StartRefusal::Memory => RunRefusal::Memory,
            StartRefusal::SpUnaligned => RunRefusal::SpUnaligned,
            StartRefusal::SpRange => RunRefusal::SpOutOfRange,
            StartRefusal::StackLoaded => RunRefusal::StackLoaded,
            StartRefusal::ReturnLoaded => RunRefusal::ReturnLoaded,
        }
    }
}
