//! What all paths say of the returns of functions. A line `facts NAME ENTRY STACK BYTES`, with the bytes of the stack
//! and an executable in hexadecimal, is answered by `ok` and, of each return that control reaches, where the facts say
//! that it goes; or by why the use of the stack can't be followed.
#![tactic(auto)]

ghost use Rattle.std.specs.Prelude.{◌≡◌, ℕ, ◌<◌, ◌^◌, Some, None, get_or};
ghost use Rattle.copy_facts.specs.Tables.{IsTable};
ghost use Rattle.copy_facts.specs.declared.tables.PointFacts.{PointFacts as PointFactsValue};

use arm_isa::is_return;
use copy_facts::{FrameRefusal, KnownFact, PointFacts, kept, known, offset};
use elf32_image::{Image, read_image};
use flow_graph::build;
use function_frames::{Frames, function_frames};
use path_facts::Origin;
use point_steps::{Location, Source, returned_source};

/// What the facts of a point say of a source.
fn fact_of(facts: &[Option<PointFacts>], point: u32, source: Source) -> Option<KnownFact>
    requires { (p : ℕ) (t : PointFactsValue) → get_or facts.now p None ≡ Some t → IsTable t }
{
    match source {
        Source::Copy(location) => known(facts, point, location),
        Source::IfMarked(word) => {
            if kept(facts, point, word) {
                known(facts, point, Location::StackWord(word))
            } else {
                None
            }
        }
        _ => None,
    }
}

/// Prints where a return goes.
fn print_return(rt: &HostRuntime, address: u32, fact: Option<KnownFact>) -> anyhow::Result<()> {
    match fact {
        None => println!(rt; "return 0x{address:08x} not known")?,
        Some(fact) => match fact.origin {
            Origin::Zero => {
                println!(rt;
                    "return 0x{address:08x} to 0x{:08x}",
                    fact.constant.cast_unsigned()
                )?;
            }
            Origin::AtStart(register) => {
                println!(rt;
                    "return 0x{address:08x} to r{register} of the start + {}",
                    fact.constant
                )?;
            }
        },
    }
    Ok(())
}

/// Prints where each return goes.
fn print_returns(rt: &HostRuntime, frames: &Frames) -> anyhow::Result<()>
    requires { (p : ℕ) (t : PointFactsValue) → get_or frames.now.facts.items p None ≡ Some t → IsTable t }
{
    let facts = frames.facts.as_slice();
    let mut point: u32 = 0;
    for site in frames.sites.as_slice() {
        if is_return(&site.insn) {
            let source = returned_source(offset(facts, point), &site.insn);
            print_return(rt, site.address, fact_of(facts, point, source))?;
        }
        point = point.saturating_add(1);
    }
    Ok(())
}

/// Prints why the use of the stack can't be followed.
fn refuse(rt: &HostRuntime, refusal: FrameRefusal) -> anyhow::Result<()> {
    match refusal {
        FrameRefusal::Memory => println!(rt; "memory")?,
        FrameRefusal::Lost(at) => println!(rt; "refused 40 stack lost at 0x{at:08x}")?,
        FrameRefusal::Over(at, lowest) => {
            println!(rt; "refused 41 stack over at 0x{at:08x} offset {lowest}")?;
        }
        FrameRefusal::Unproved(at) => println!(rt; "refused 42 return unproved at 0x{at:08x}")?,
    }
    Ok(())
}

/// The facts of the function at an address.
fn facts(rt: &HostRuntime, image: &Image, entry: u32, stack: u32) -> anyhow::Result<()>
    requires { stack < 2 ^ 31 }
{
    match build(rt.alloc(), image, entry) {
        Ok(function) => match function_frames(rt.alloc(), image, &function, stack) {
            Ok(frames) => {
                println!(rt; "ok")?;
                print_returns(rt, &frames)?;
            }
            Err(refusal) => refuse(rt, refusal)?,
        },
        Err(_) => println!(rt; "no graph")?,
    }
    Ok(())
}

/// The answer of a line.
fn answer(rt: &HostRuntime, line: &str) -> anyhow::Result<()> {
    let alloc = rt.alloc();
    let mut words = line.split(' ').skip(1);
    let name = words.next().unwrap_or("");
    let address = words.next().unwrap_or("");
    let size = words.next().unwrap_or("");
    let bytes = hex::decode(alloc, words.next().unwrap_or(""))?;
    println!(rt; "facts {name} {address} {size}")?;
    let entry = address.strip_prefix("0x").map_or(0, |digits| {
        u32::from_str_radix(digits, 16).unwrap_or(0)
    });
    let stack = size.parse::<u32>().unwrap_or(0);
    if stack >= 1 << 31 {
        println!(rt; "no stack")?;
        return Ok(());
    }
    match read_image(alloc, bytes.as_slice()) {
        Ok(image) => facts(rt, &image, entry, stack)?,
        Err(_) => println!(rt; "no executable")?,
    }
    Ok(())
}

fn main(rt: HostRuntime) -> anyhow::Result<()> {
    for line in rt.lines(rt.alloc()) {
        answer(&rt, line?.as_str())?;
    }
    Ok(())
}
