//! The lines of refusals.

ghost use Rattle.std.specs.Prelude.{◌≡◌, ◌++◌, ◌≤◌, IfOk, OnOk, codes, string_bytes};
ghost use Rattle.report_elements.specs.Elements.{address_text};
ghost use Rattle.wsymb_top.specs.Answers.{IsRefused, writing_of};
ghost use Rattle.wsymb_top.specs.Refusals.{analysis_line, frames_line, graph_line, image_line, input_line, line_of, loops_line, name_line, run_line, stop_name};

use crate::delivery::deliver;
use crate::refusals::Refusal;
use crate::statuses::{NO_MEMORY, Status};
use arm_machine::Stop;
use copy_facts::FrameRefusal;
use elf32_image::{ElfRefusal, NameRefusal};
use flow_graph::GraphRefusal;
use function_runs::RunRefusal;
use input_files::InputRefusal;
use interval_loops::LoopRefusal;
use std::alloc::{AllocError, Global};
use std::fmt::Write;
use wcet_core::AnalysisRefusal;
use wsym_io::Sink;

/// The line that is written where memory was refused.
const MEMORY: &str = "refused 1 memory\n";

fn input_line(why: &InputRefusal) -> &'static str
    ensures { result.now ≡ input_line why.now }
{
    match why {
        InputRefusal::Memory => MEMORY,
        InputRefusal::ReadFault => "refused 3 read fault\n",
        InputRefusal::TooLong => "refused 5 file too long\n",
    }
}

fn image_line(why: &ElfRefusal) -> &'static str
    ensures { result.now ≡ image_line why.now }
{
    match why {
        ElfRefusal::Memory => MEMORY,
        ElfRefusal::NotElf32Arm => "refused 10 not an ELF32 ARM executable\n",
        ElfRefusal::Truncated => "refused 11 truncated\n",
        ElfRefusal::SegmentsOverlap => "refused 12 segments overlap\n",
    }
}

fn name_line(why: &NameRefusal) -> &'static str
    ensures { result.now ≡ name_line why.now }
{
    match why {
        NameRefusal::NoSymbol => "refused 13 no such function\n",
        NameRefusal::TwoSymbols => "refused 14 two such functions\n",
        NameRefusal::ThumbCode => "refused 15 Thumb code\n",
    }
}

fn loops_line(why: &LoopRefusal) -> &'static str
    ensures { result.now ≡ loops_line why.now }
{
    match why {
        LoopRefusal::Memory => MEMORY,
        LoopRefusal::Irreducible => "refused 36 irreducible\n",
        LoopRefusal::TooDeep => "refused 37 nested too deep\n",
    }
}

/// The name of a stop.
fn stop_name(stop: Stop) -> &'static str
    ensures { result.now ≡ stop_name stop }
{
    match stop {
        Stop::NoCode => "NoCode",
        Stop::BadWord => "BadWord",
        Stop::Unaligned => "Unaligned",
        Stop::Unmapped => "Unmapped",
        Stop::ReadOnly => "ReadOnly",
        Stop::Trespass => "Trespass",
        Stop::Leaves => "Leaves",
    }
}

/// A line that ends with an address.
fn push_at(line: &mut String, cause: &str, address: u32) -> Result<(), AllocError>
    ensures { OnOk result (string_bytes line.new ≡ string_bytes line.old
        ++ (cause.now ++ (address_text address ++ codes "\n"))) }
{
    write!(line, "{cause}0x{address:08x}\n")
}

fn push_graph(line: &mut String, why: &GraphRefusal) -> Result<(), AllocError>
    ensures { OnOk result (string_bytes line.new ≡ string_bytes line.old ++ graph_line why.now) }
{
    match why {
        GraphRefusal::Memory => line.push_str(MEMORY),
        GraphRefusal::TooLarge => line.push_str("refused 30 graph too large\n"),
        GraphRefusal::UnknownWord(address) => push_at(
            line,
            "refused 31 unknown word at ",
            *address,
        ),
        GraphRefusal::OutsideCode(address) => push_at(
            line,
            "refused 32 outside code at ",
            *address,
        ),
        GraphRefusal::IndirectJump(address) => push_at(
            line,
            "refused 33 indirect jump at ",
            *address,
        ),
        GraphRefusal::Recursion(address) => push_at(line, "refused 34 recursion at ", *address),
        GraphRefusal::NoReturn => line.push_str("refused 35 no return\n"),
    }
}

fn push_frames(line: &mut String, why: &FrameRefusal) -> Result<(), AllocError>
    ensures { OnOk result (string_bytes line.new ≡ string_bytes line.old ++ frames_line why.now) }
{
    match why {
        FrameRefusal::Memory => line.push_str(MEMORY),
        FrameRefusal::Lost(address) => push_at(line, "refused 40 stack lost at ", *address),
        FrameRefusal::Over(address, offset) => {
            write!(
                line,
                "refused 41 stack over at 0x{address:08x} offset {offset}\n"
            )
        }
        FrameRefusal::Unproved(address) => push_at(
            line,
            "refused 42 return unproved at ",
            *address,
        ),
    }
}

fn push_analysis(line: &mut String, why: &AnalysisRefusal) -> Result<(), AllocError>
    ensures { OnOk result (string_bytes line.new ≡ string_bytes line.old ++ analysis_line why.now) }
{
    match why {
        AnalysisRefusal::Memory => line.push_str(MEMORY),
        AnalysisRefusal::Graph(cause) => push_graph(line, cause),
        AnalysisRefusal::Loops(cause) => line.push_str(loops_line(cause)),
        AnalysisRefusal::Frames(cause) => push_frames(line, cause),
        AnalysisRefusal::TreeTooLarge => line.push_str("refused 50 tree too large\n"),
    }
}

fn push_run(line: &mut String, why: &RunRefusal, steps: u64) -> Result<(), AllocError>
    ensures { OnOk result (string_bytes line.new ≡ string_bytes line.old ++ run_line why.now steps) }
{
    match why {
        RunRefusal::Memory => line.push_str(MEMORY),
        RunRefusal::SpUnaligned => line.push_str("refused 70 bad start sp unaligned\n"),
        RunRefusal::SpOutOfRange => line.push_str("refused 70 bad start sp out of range\n"),
        RunRefusal::StackLoaded => line.push_str("refused 70 bad start stack loaded\n"),
        RunRefusal::ReturnLoaded => line.push_str("refused 70 bad start return loaded\n"),
        RunRefusal::Stopped { stop, address } => {
            let name = stop_name(*stop);
            write!(line, "refused 71 stopped {name} at 0x{address:08x}\n")
        }
        RunRefusal::Spent => write!(line, "refused 72 spent {steps}\n"),
        RunRefusal::Halted { probe } => write!(line, "refused 73 halted by probe {probe}\n"),
    }
}

impl Refusal {
    /// The line of the refusal, with its line feed.
    pub fn line(&self, alloc: Global) -> Result<String, AllocError>
        ensures { IfOk result (λ line. string_bytes line ≡ line_of self.now) }
    {
        let mut line = String::new(alloc);
        match self {
            Refusal::Memory => line.push_str(MEMORY)?,
            Refusal::Usage => line.push_str("refused 2 usage\n")?,
            Refusal::Input(why) => line.push_str(input_line(why))?,
            Refusal::Image(why) => line.push_str(image_line(why))?,
            Refusal::Name(why) => line.push_str(name_line(why))?,
            Refusal::BadTiming => line.push_str("refused 20 bad timing file\n")?,
            Refusal::Analysis(why) => push_analysis(&mut line, why)?,
            Refusal::BadReport(number) => write!(line, "refused 60 bad report at line {number}\n")?,
            Refusal::BadValue(name) => {
                let name = name.as_str();
                write!(line, "refused 61 bad value {name}\n")?;
            }
            Refusal::Run(why, steps) => push_run(&mut line, why, *steps)?,
        }
        Ok(line)
    }
}

/// Writes the line of a refusal and answers its status. Where there is no memory for the line, memory is what
/// was refused.
pub(crate) fn refuse<K: Sink>(alloc: Global, out: &mut K, why: &Refusal) -> Status
    ensures refused { IsRefused why.now (writing_of K.contents K.faults out.old out.new) result }
    ensures later { K.faults out.old ≤ K.faults out.new }
{
    match why.line(alloc) {
        Ok(line) => deliver(out, line.as_bytes(), why.status()),
        Err(_) => deliver(out, MEMORY.as_bytes(), NO_MEMORY),
    }
}
