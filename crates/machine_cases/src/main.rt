//! Shows the machine at work, a line for each line that it reads: `KIND ENTRY SP STACK FIRST FOURTH STEPS SEGMENT.. NAME..`.
//!
//! A segment is ADDRESS:FLAGS:BYTES, where the flags are 1 to execute, 2 to write and 4 to read, and all numbers are
//! hexadecimal. The machine starts at ENTRY with this stack, and with FIRST in r0 and FOURTH in r3. Of a `step` is shown
//! what the last of a number of steps was, and all registers after it; of a `run`, which may take a number of steps, how it
//! ended, and r0. The timing is the one where all costs a cycle and a miss ten.
#![tactic(auto)]

use arm_machine::{Event, Machine, RegisterValue, StepEnd};
use elf32_image::{Image, read_image};
use fetch_timing::Timing;
use std::alloc::{AllocError, Global};
use std::io;

/// An ELF32 ARM executable up to its program headers' number, for the entry 0.
static HEAD: [u8; 44] = [
    0x7f, 0x45, 0x4c, 0x46, 0x01, 0x01, 0x01, 0x00, 0x00, 0x00, 0x00, 0x00, 0x00, 0x00, 0x00, 0x00,
    0x02, 0x00, 0x28, 0x00, 0x01, 0x00, 0x00, 0x00, 0x00, 0x00, 0x00, 0x00, 0x34, 0x00, 0x00, 0x00,
    0x00, 0x00, 0x00, 0x00, 0x00, 0x00, 0x00, 0x00, 0x34, 0x00, 0x20, 0x00,
];

/// The number that a word spells in hexadecimal, or 0.
fn number(word: Option<&str>) -> u32 {
    word.map_or(0, |word| u32::from_str_radix(word, 16).unwrap_or(0))
}

/// The value of a hexadecimal digit, or 0.
fn digit(byte: u8) -> u8 {
    match byte {
        b'0'..=b'9' => byte - b'0',
        b'a'..=b'f' => byte - b'a' + 10,
        _ => 0,
    }
}

/// What one program header says of a segment whose bytes stand at a place of the file.
fn push_header(file: &mut Vec<u8>, segment: &str, place: u32) -> Result<u32, AllocError> {
    let mut parts = segment.split(':');
    let address = number(parts.next());
    let flags = number(parts.next());
    let mut size: u32 = 0;
    for _pair in parts.next().unwrap_or("").as_bytes().chunks(2) {
        size = size.wrapping_add(1);
    }
    for field in [1, place, address, address, size, size, flags, 4] {
        file.extend_from_slice(&field.to_le_bytes())?;
    }
    Ok(size)
}

/// The bytes of a segment.
fn push_bytes(file: &mut Vec<u8>, segment: &str) -> Result<(), AllocError> {
    for pair in segment
        .rsplit(':')
        .next()
        .unwrap_or("")
        .as_bytes()
        .chunks(2)
    {
        if let [high, low] = pair {
            file.push(digit(*high).wrapping_mul(16).wrapping_add(digit(*low)))?;
        }
    }
    Ok(())
}

/// The image of the words of a line that are segments.
fn image_of(alloc: Global, line: &str) -> Result<Option<Image>, AllocError> {
    let mut count: u16 = 0;
    for word in line.split(' ') {
        if word.contains(':') {
            count = count.wrapping_add(1);
        }
    }
    let mut file = Vec::from_slice(alloc, &HEAD)?;
    file.extend_from_slice(&count.to_le_bytes())?;
    file.extend_from_slice(&[0; 6])?;
    let mut place = u32::from(count).wrapping_mul(32).wrapping_add(52);
    for word in line.split(' ') {
        if word.contains(':') {
            place = place.wrapping_add(push_header(&mut file, word, place)?);
        }
    }
    for word in line.split(' ') {
        if word.contains(':') {
            push_bytes(&mut file, word)?;
        }
    }
    Ok(read_image(alloc, file.as_slice()).ok())
}

/// How steps end, after how many of them, with how many cycles, and what the last one was.
#[derive(Clone, Copy)]
struct Course {
    steps: u32,
    cycles: u64,
    last: Option<Event>,
    stop: Option<StepEnd>,
}

/// Makes at most a number of steps.
fn make_steps(machine: &mut Machine<'_>, most: u32) -> Course {
    let mut course = Course {
        steps: 0,
        cycles: 0,
        last: None,
        stop: None,
    };
    for _step in 0..most {
        if machine.returned() {
            break;
        }
        match machine.step() {
            Ok(event) => {
                course.steps = course.steps.wrapping_add(1);
                course.cycles = course.cycles.wrapping_add(event.cycles);
                course.last = Some(event);
            }
            Err(end) => {
                course.stop = Some(end);
                break;
            }
        }
    }
    course
}

/// The end of a run, and r0.
fn show_run(rt: HostRuntime, machine: &Machine<'_>, course: &Course) -> io::Result<()> {
    let first = machine.register(0);
    let (steps, cycles) = (course.steps, course.cycles);
    if let Some(end) = course.stop {
        let pc = machine.pc();
        return println!(rt; "{end:?} at {pc:08x} after {steps} steps, r0={first:08x}");
    }
    if machine.returned() {
        return println!(rt; "returns after {steps} steps and {cycles} cycles, r0={first:08x}");
    }
    println!(rt; "goes on after {steps} steps, r0={first:08x}")
}

/// The last step, or why there is none, and the registers.
fn show_step(rt: HostRuntime, machine: &Machine<'_>, course: &Course) -> io::Result<()> {
    if let Some(end) = course.stop {
        print!(rt; "{end:?}")?;
    } else if let Some(event) = course.last {
        let done = if event.done { "done" } else { "skipped" };
        print!(rt; "{:?} {done} {} cycles", event.class, event.cycles)?;
    }
    print!(rt; ", pc={:08x}", machine.pc())?;
    for register in 0..15u8 {
        print!(rt; " r{register}={:08x}", machine.register(register))?;
    }
    println!(rt; "")
}

/// Shows one line.
fn show(rt: HostRuntime, line: &str) -> io::Result<()> {
    let mut words = line.split(' ');
    let kind = words.next();
    let entry = number(words.next());
    let sp = number(words.next());
    let stack = number(words.next());
    let first = number(words.next()).cast_signed();
    let fourth = number(words.next()).cast_signed();
    let steps = number(words.next());
    for word in words {
        if !word.contains(':') {
            print!(rt; "{word} ")?;
        }
    }
    print!(rt; "| ")?;
    let alloc = rt.alloc();
    let Some(image) = image_of(alloc, line)? else {
        return println!(rt; "no image");
    };
    if stack > 1_048_576 {
        return println!(rt; "too large a stack");
    }
    let values = [
        RegisterValue {
            register: 0,
            value: first,
        },
        RegisterValue {
            register: 3,
            value: fourth,
        },
    ];
    let timing = Timing::unit();
    match Machine::start(alloc, &image, &timing, entry, sp, stack, &values) {
        Ok(mut machine) => {
            let course = make_steps(&mut machine, steps);
            if kind == Some("run") {
                show_run(rt, &machine, &course)
            } else {
                show_step(rt, &machine, &course)
            }
        }
        Err(why) => println!(rt; "no start: {why}"),
    }
}

fn main(rt: HostRuntime) -> io::Result<()> {
    for line in rt.lines(rt.alloc()) {
        let line = line?;
        show(rt, line.as_str())?;
    }
    Ok(())
}
