//! The numbers of refusals.

ghost use Rattle.std.specs.Prelude.{◌≡◌};
ghost use Rattle.wsymb_top.specs.Refusals.{analysis_status, frames_status, graph_status, image_status, input_status, loops_status, name_status, run_status, status_of};

use crate::refusals::Refusal;
use copy_facts::FrameRefusal;
use elf32_image::{ElfRefusal, NameRefusal};
use flow_graph::GraphRefusal;
use function_runs::RunRefusal;
use input_files::InputRefusal;
use interval_loops::LoopRefusal;
use wcet_core::AnalysisRefusal;

/// How a command ended: 0 for an answer, else the number of a refusal.
pub type Status = u8;

/// The status of an answer.
pub(crate) const ANSWERED: Status = 0;

/// The status of want of memory.
pub(crate) const NO_MEMORY: Status = 1;

/// The status where the sink failed, for which no line can be written.
pub(crate) const WRITE_FAULT: Status = 4;

fn input_status(why: &InputRefusal) -> Status
    ensures { result ≡ input_status why.now }
{
    match why {
        InputRefusal::Memory => NO_MEMORY,
        InputRefusal::ReadFault => 3,
        InputRefusal::TooLong => 5,
    }
}

fn image_status(why: &ElfRefusal) -> Status
    ensures { result ≡ image_status why.now }
{
    match why {
        ElfRefusal::Memory => NO_MEMORY,
        ElfRefusal::NotElf32Arm => 10,
        ElfRefusal::Truncated => 11,
        ElfRefusal::SegmentsOverlap => 12,
    }
}

fn name_status(why: &NameRefusal) -> Status
    ensures { result ≡ name_status why.now }
{
    match why {
        NameRefusal::NoSymbol => 13,
        NameRefusal::TwoSymbols => 14,
        NameRefusal::ThumbCode => 15,
    }
}

fn graph_status(why: &GraphRefusal) -> Status
    ensures { result ≡ graph_status why.now }
{
    match why {
        GraphRefusal::Memory => NO_MEMORY,
        GraphRefusal::TooLarge => 30,
        GraphRefusal::UnknownWord(_) => 31,
        GraphRefusal::OutsideCode(_) => 32,
        GraphRefusal::IndirectJump(_) => 33,
        GraphRefusal::Recursion(_) => 34,
        GraphRefusal::NoReturn => 35,
    }
}

fn loops_status(why: &LoopRefusal) -> Status
    ensures { result ≡ loops_status why.now }
{
    match why {
        LoopRefusal::Memory => NO_MEMORY,
        LoopRefusal::Irreducible => 36,
        LoopRefusal::TooDeep => 37,
    }
}

fn frames_status(why: &FrameRefusal) -> Status
    ensures { result ≡ frames_status why.now }
{
    match why {
        FrameRefusal::Memory => NO_MEMORY,
        FrameRefusal::Lost(_) => 40,
        FrameRefusal::Over(_, _) => 41,
        FrameRefusal::Unproved(_) => 42,
    }
}

fn analysis_status(why: &AnalysisRefusal) -> Status
    ensures { result ≡ analysis_status why.now }
{
    match why {
        AnalysisRefusal::Memory => NO_MEMORY,
        AnalysisRefusal::Graph(cause) => graph_status(cause),
        AnalysisRefusal::Loops(cause) => loops_status(cause),
        AnalysisRefusal::Frames(cause) => frames_status(cause),
        AnalysisRefusal::TreeTooLarge => 50,
    }
}

fn run_status(why: &RunRefusal) -> Status
    ensures { result ≡ run_status why.now }
{
    match why {
        RunRefusal::Memory => NO_MEMORY,
        RunRefusal::SpUnaligned
        | RunRefusal::SpOutOfRange
        | RunRefusal::StackLoaded
        | RunRefusal::ReturnLoaded => 70,
        RunRefusal::Stopped { .. } => 71,
        RunRefusal::Spent => 72,
        RunRefusal::Halted { .. } => 73,
    }
}

impl Refusal {
    /// The number of the refusal.
    pub fn status(&self) -> Status
        ensures { result ≡ status_of self.now }
    {
        match self {
            Refusal::Memory => NO_MEMORY,
            Refusal::Usage => 2,
            Refusal::Input(why) => input_status(why),
            Refusal::Image(why) => image_status(why),
            Refusal::Name(why) => name_status(why),
            Refusal::BadTiming => 20,
            Refusal::Analysis(why) => analysis_status(why),
            Refusal::BadReport(_) => 60,
            Refusal::BadValue(_) => 61,
            Refusal::Run(why, _) => run_status(why),
        }
    }
}
