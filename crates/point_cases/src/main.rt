//! Points and blocks of functions. A line of the input that names a file, a function and the most points that are asked
//! for is answered by the points, the return addresses of their open calls before their address, in ascending order. A
//! line `graph NAME ENTRY BYTES`, with an executable in hexadecimal, is answered by the blocks of the function at the
//! entry, each with its number, its address and its number of points, or by the refusal.
#![tactic(auto)]

ghost use Rattle.std.specs.Prelude.{◌<◌, length};

use elf32_image::{Image, read_image};
use flow_graph::{GraphRefusal, build};
use function_points::{FunctionPoints, collect_points};
use graph_search::SearchRefusal;
use std::alloc::Global;
use std::collections::BTreeSet;
use wsym_io::{FileShelf, Shelf};

/// The longest file that is read, in bytes.
const MOST_BYTES: u64 = 1 << 20;

/// The text of a point: its open calls, the oldest first, and its address.
fn point_text(alloc: Global, points: &FunctionPoints, at: usize) -> anyhow::Result<String>
    requires { at < length points.now.found }
{
    let (mut context, address) = points.found.get(at);
    let mut text = format!(in alloc; "0x{address:08x}")?;
    while (context as usize) < points.contexts.len() {
        let Some((parent, after)) = points.contexts.parent_of(context) else {
            break;
        };
        text = format!(in alloc; "0x{after:08x} {text}")?;
        context = parent;
    }
    Ok(text)
}

/// The points of a function, or why there are none.
fn answer(rt: &HostRuntime, image: &Image, entry: u32, most: usize) -> anyhow::Result<()>
    requires { 0 < most }
{
    let alloc = rt.alloc();
    match collect_points(alloc, image, entry, most) {
        Ok(points) => {
            let mut lines: BTreeSet<String> = BTreeSet::new(alloc);
            for at in 0..points.found.len() {
                lines.insert(point_text(alloc, &points, at)?)?;
            }
            println!(rt;
                "{} points, {} lists of calls",
                points.found.len(),
                points.contexts.len()
            )?;
            for line in lines.iter() {
                println!(rt; "{line}")?;
            }
        }
        Err(SearchRefusal::TooLarge) => println!(rt; "more than {most} points")?,
        Err(SearchRefusal::Memory) => println!(rt; "memory")?,
    }
    Ok(())
}

/// Prints why a function has no graph.
fn refuse(rt: &HostRuntime, refusal: GraphRefusal) -> anyhow::Result<()> {
    match refusal {
        GraphRefusal::Memory => println!(rt; "memory")?,
        GraphRefusal::TooLarge => println!(rt; "refused 30 graph too large")?,
        GraphRefusal::UnknownWord(at) => println!(rt; "refused 31 unknown word at 0x{at:08x}")?,
        GraphRefusal::OutsideCode(at) => println!(rt; "refused 32 outside code at 0x{at:08x}")?,
        GraphRefusal::IndirectJump(at) => println!(rt; "refused 33 indirect jump at 0x{at:08x}")?,
        GraphRefusal::Recursion(at) => println!(rt; "refused 34 recursion at 0x{at:08x}")?,
        GraphRefusal::NoReturn => println!(rt; "refused 35 no return")?,
    }
    Ok(())
}

/// The blocks of a function, or why it has no graph.
fn blocks(rt: &HostRuntime, image: &Image, entry: u32) -> anyhow::Result<()> {
    match build(rt.alloc(), image, entry) {
        Ok(found) => {
            let mut number: u32 = 0;
            for block in found.graph.blocks.as_slice() {
                if let Some(first) = block.points.as_slice().first() {
                    println!(rt;
                        "block {number} 0x{:08x} {}",
                        first.address,
                        block.points.len()
                    )?;
                }
                number = number.saturating_add(1);
            }
        }
        Err(refusal) => refuse(rt, refusal)?,
    }
    Ok(())
}

/// The answer of a line `graph`.
fn graph_answer(rt: &HostRuntime, line: &str) -> anyhow::Result<()> {
    let alloc = rt.alloc();
    let mut words = line.split(' ').skip(1);
    let name = words.next().unwrap_or("");
    let address = words.next().unwrap_or("");
    let bytes = hex::decode(alloc, words.next().unwrap_or(""))?;
    println!(rt; "graph {name} {address}")?;
    let entry = address.strip_prefix("0x").map_or(0, |digits| {
        u32::from_str_radix(digits, 16).unwrap_or(0)
    });
    match read_image(alloc, bytes.as_slice()) {
        Ok(image) => blocks(rt, &image, entry)?,
        Err(_) => println!(rt; "no executable")?,
    }
    Ok(())
}

/// The answer of a line: a file, a function and the most points.
fn line_answer(rt: &HostRuntime, line: &str) -> anyhow::Result<()> {
    let alloc = rt.alloc();
    println!(rt; "{line}")?;
    let mut words = line.split(' ');
    let name = words.next().unwrap_or("");
    let function = words.next().unwrap_or("");
    let most = words
        .next()
        .map_or(0, |word| word.parse::<u32>().unwrap_or(0)) as usize;
    let mut shelf = FileShelf::new(rt);
    let Ok(bytes) = shelf.read_all(alloc, name, MOST_BYTES) else {
        println!(rt; "no such file")?;
        return Ok(());
    };
    let Ok(image) = read_image(alloc, bytes.as_slice()) else {
        println!(rt; "no executable")?;
        return Ok(());
    };
    match image.function(function) {
        Ok(entry) if most > 0 => answer(rt, &image, entry, most)?,
        Ok(_) => println!(rt; "no limit")?,
        Err(_) => println!(rt; "no such function")?,
    }
    Ok(())
}

fn main(rt: HostRuntime) -> anyhow::Result<()> {
    for line in rt.lines(rt.alloc()) {
        let line = line?;
        if line.as_str().starts_with("graph ") {
            graph_answer(&rt, line.as_str())?;
        } else {
            line_answer(&rt, line.as_str())?;
        }
    }
    Ok(())
}
