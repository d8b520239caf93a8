//! The state in which a run starts.

ghost use Rattle.std.specs.Prelude.{◌≡◌, ◌<◌, ◌≤◌, IfOk, is_some, replicate, []};
ghost use Rattle.fetch_timing.specs.Timings.{IsWithinLimits};
ghost use Rattle.fetch_timing.specs.Caches.{IsCache, empty_cache};
ghost use Rattle.std.specs.List.{AllByRecursion};
ghost use Rattle.std.specs.Int.{cast_unsigned, w32};
ghost use Rattle.elf32_image.specs.Bytes.{byte_at};
ghost use Rattle.arm_machine.specs.Starting.{AreParameters, ComesBack, bad_start, is_any_loaded, is_home_loaded, is_in_range, start_cpu, start_state};
ghost use Rattle.arm_machine.specs.Machines.{state_of};

use crate::memory::Memory;
use crate::state::MachineState;
use arm_cpu::Cpu;
use arm_isa::Flags;
use elf32_image::{Image, Loaded};
use fetch_timing::{LruCache, Timing, empty_cache_is_a_cache};
use std::alloc::{AllocError, Global};
use thiserror::Error;

/// The return address with which a run starts.
pub(crate) const HOME: u32 = 0xffff_fffc;

/// A register and the signed number that it holds.
#[derive(Clone, Copy, Debug, PartialEq, Eq)]
pub struct RegisterValue {
    /// The register, 0 to 12.
    pub register: u8,
    /// The number.
    pub value: i32,
}

/// Why there is no start state.
#[derive(Clone, Copy, Debug, PartialEq, Eq, Error)]
pub enum StartRefusal {
    /// There was no memory for the machine.
    #[error("out of memory")]
    Memory,
    /// The stack pointer is no multiple of 4.
    #[error("the stack pointer is no multiple of 4")]
    SpUnaligned,
    /// As a signed number the stack pointer isn't from −2^31 + the size of the stack to 2^31 − 65.
    #[error("the stack pointer is out of range")]
    SpRange,
    /// A byte of the stack, beneath the stack pointer, is loaded.
    #[error("the stack is loaded")]
    StackLoaded,
    /// A byte of the word at the return address is loaded.
    #[error("the return address is loaded")]
    ReturnLoaded,
}

/// The first cause, if there is one, why a run can't start with this stack pointer and size of the stack in bytes.
pub(crate) fn bad_start(image: &Image, sp: u32, stack: u32) -> Option<StartRefusal>
    requires { stack ≤ 1048576 }
    ensures { result ≡ bad_start image.now sp stack }
{
    if sp % 4 != 0 {
        Some(StartRefusal::SpUnaligned)
    } else if !is_in_range(sp, stack) {
        Some(StartRefusal::SpRange)
    } else if is_any_loaded(image, sp.wrapping_sub(stack), stack) {
        Some(StartRefusal::StackLoaded)
    } else if is_home_loaded(image) {
        Some(StartRefusal::ReturnLoaded)
    } else {
        None
    }
}

/// Whether the stack pointer leaves room for the stack beneath it and for arguments above it.
fn is_in_range(sp: u32, stack: u32) -> bool
    requires { stack ≤ 1048576 }
    ensures { result ≡ is_in_range sp stack }
{
    let sp = i64::from(sp.cast_signed());
    i64::from(stack) - (1 << 31) <= sp && sp <= (1 << 31) - 65
}

/// Whether one of a number of bytes from an address on, modulo 2^32, is loaded.
fn is_any_loaded(image: &Image, address: u32, count: u32) -> bool
    ensures { result ≡ is_any_loaded image.now address count }
{
    let mut at = address;
    for _byte in 0..count {
        if is_loaded(image, at) {
            return true;
        }
        at = at.wrapping_add(1);
    }
    false
}

/// Whether a byte is loaded at an address.
fn is_loaded(image: &Image, address: u32) -> bool
    ensures { result ≡ is_some (byte_at image.now address) }
{
    match image.loaded(address) {
        Loaded::No => false,
        Loaded::ReadOnly(_) | Loaded::Writable(_) => true,
    }
}

/// Whether a byte of the word at the return address is loaded.
fn is_home_loaded(image: &Image) -> bool
    ensures { result ≡ is_home_loaded image.now }
{
    is_loaded(image, HOME)
        || is_loaded(image, HOME + 1)
        || is_loaded(image, HOME + 2)
        || is_loaded(image, HOME + 3)
}

/// The state in which a run starts.
pub(crate) fn start_state<'a>(
    alloc: Global,
    image: &'a Image,
    timing: &Timing,
    entry: u32,
    sp: u32,
    stack: u32,
    values: &[RegisterValue],
) -> Result<MachineState<'a>, AllocError>
    requires limits { IsWithinLimits timing.now }
    requires stack { stack ≤ 1048576 }
    requires registers { AreParameters values.now }
    ensures cache { IfOk result (λ state. state.cache ≡ empty_cache timing.now) }
    ensures own { IfOk result (λ state. IsCache timing.now (replicate timing.now.sets [])) }
    ensures values { IfOk result (λ state. AllByRecursion ComesBack values.now) }
    ensures state { IfOk result (λ state. state_of state ≡ start_state image.now timing.now entry sp stack values.now) }
{
    let cache = LruCache::new(alloc, timing)?;
    empty_cache_is_a_cache();
    Ok(MachineState {
        cpu: start_cpu(entry, sp, values),
        memory: Memory::start(alloc, image, sp, stack),
        kept: Vec::new(alloc),
        cache,
    })
}

/// The registers with which a run starts: the values, the stack pointer, the return address, and zeros.
fn start_cpu(entry: u32, sp: u32, values: &[RegisterValue]) -> Cpu
    requires { AreParameters values.now }
    ensures cpu { result ≡ start_cpu entry sp values.now }
    ensures values { AllByRecursion ComesBack values.now }
{
    let mut registers = [0u32; 15];
    for each in values {
        registers[each.register as usize] = word_of(*each);
    }
    registers[13] = sp;
    registers[14] = HOME;
    Cpu {
        registers,
        pc: entry,
        flags: Flags {
            n: false,
            z: false,
            c: false,
            v: false,
        },
    }
}

/// The word that stands for a number.
fn word_of(each: RegisterValue) -> u32
    ensures word { result ≡ cast_unsigned w32 each.value }
    ensures back { ComesBack each }
{
    each.value.cast_unsigned()
}
