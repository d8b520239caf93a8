//! Why a command has no answer.

ghost use Rattle.std.specs.Prelude.{◌≡◌};
ghost use Rattle.wsymb_top.specs.declared.refusals.Refusal.TheVariants as refusal;

use elf32_image::{ElfRefusal, NameRefusal};
use function_runs::RunRefusal;
use input_files::InputRefusal;
use std::alloc::AllocError;
use wcet_core::AnalysisRefusal;
use wsym_terms::Name;

/// Why a command has no answer. Each refusal but a fault of the sink writes one line, and has a number, which is the
/// call's status. Want of memory, which may come at any place, is status 1 in whatever layer it came.
#[derive(Drop)]
pub enum Refusal {
    /// Status 1: memory was refused.
    Memory,
    /// Status 2: the words are wrong.
    Usage,
    /// Status 3 and 5: a file could not be read, or has more than 67,108,864 bytes.
    Input(InputRefusal),
    /// Status 10 to 12: the ELF file has no image.
    Image(ElfRefusal),
    /// Status 13 to 15: no function has the name.
    Name(NameRefusal),
    /// Status 20: the timing file is none.
    BadTiming,
    /// Status 30 to 37, 40 to 42 and 50: the function has no report.
    Analysis(AnalysisRefusal),
    /// Status 60: a report's text is none; this is its first bad line, from 1.
    BadReport(u64),
    /// Status 61: the first bad name of a parameter, by the words.
    BadValue(Name),
    /// Status 70 to 73: a run that was allowed a number of steps has no result.
    Run(RunRefusal, u64),
}

impl From<AllocError> for Refusal {
    ghost from_gives = { λ _ why. why ≡ refusal.Memory };

    fn from(_error: AllocError) -> Refusal {
        Refusal::Memory
    }
}

impl From<ElfRefusal> for Refusal {
    ghost from_gives = { λ cause why. why ≡ refusal.Image cause };

    fn from(cause: ElfRefusal) -> Refusal {
        Refusal::Image(cause)
    }
}

impl From<NameRefusal> for Refusal {
    ghost from_gives = { λ cause why. why ≡ refusal.Name cause };

    fn from(cause: NameRefusal) -> Refusal {
        Refusal::Name(cause)
    }
}

impl From<AnalysisRefusal> for Refusal {
    ghost from_gives = { λ cause why. why ≡ refusal.Analysis cause };

    fn from(cause: AnalysisRefusal) -> Refusal {
        Refusal::Analysis(cause)
    }
}
