//! The state of the machine, and stores to it.

ghost use Rattle.std.specs.Prelude.{◌≡◌, ◌+◌, ◌*◌, ◌^◌, ◌<◌, ◌≤◌, ◌++◌, ◌∷◌, [], OnOk, OnErr, None, true, is_some, vec_len, vec_capacity};
ghost use Rattle.arm_machine.specs.Access.{is_aligned, is_kept, is_read_only, marked, store_stop, stored, without_mark, word_holding};
ghost use Rattle.elf32_image.specs.Bytes.{constant_byte_at};
ghost use Rattle.arm_machine.specs.Machines.{state_of};

use crate::access::Size;
use crate::memory::{Memory, is_aligned};
use arm_cpu::{Cpu, Stop};
use elf32_image::{Image, Loaded};
use fetch_timing::LruCache;
use std::alloc::AllocError;

/// The number of the stack pointer as a register.
pub(crate) const SP: u8 = 13;

/// The state of the machine.
#[derive(Drop)]
pub(crate) struct MachineState<'a> {
    pub cpu: Cpu,
    pub memory: Memory<'a>,
    /// The addresses of the kept words.
    pub kept: Vec<u32>,
    pub cache: LruCache,
}

/// A store: by which base register, how many bytes, where, and whether it saves a register of the caller.
#[derive(Clone, Copy)]
pub(crate) struct Store {
    pub base: u8,
    pub size: Size,
    pub address: u32,
    pub saves: bool,
}

impl<'a> MachineState<'a> {
    /// Makes room for a number of stores. It changes nothing else.
    pub(crate) fn reserve(&mut self, stores: usize) -> Result<(), AllocError>
        requires { stores < 2 ^ 32 }
        ensures state { state_of self.new ≡ state_of self.old }
        ensures marks { OnOk result (vec_len self.new.kept + stores ≤ vec_capacity self.new.kept) }
        ensures bytes { OnOk result (4 * stores ≤ self.new.memory.room) }
        ensures cache { self.new.cache ≡ self.old.cache }
    {
        self.kept.reserve(stores)?;
        self.memory.reserve(4 * stores)
    }

    /// Makes a store for which there is room.
    pub(crate) fn put(&mut self, store: Store, value: u32)
        requires aligned { is_aligned store.size store.address ≡ true }
        requires mark { vec_len self.old.kept < vec_capacity self.old.kept }
        requires bytes { 4 ≤ self.old.memory.room }
        ensures state { state_of self.new ≡ stored (state_of self.old) store.base store.size store.address value store.saves }
        ensures marks { vec_len self.new.kept ≤ vec_len self.old.kept + 1 }
        ensures capacity { vec_capacity self.old.kept ≤ vec_capacity self.new.kept }
        ensures room { self.old.memory.room ≤ self.new.memory.room + 4 }
        ensures cache { self.new.cache ≡ self.old.cache }
    {
        self.memory.set(store.size, store.address, value);
        mark(&mut self.kept, store);
    }
}

/// Takes the mark from the word that a store by the stack pointer touches, and marks it where it saves a
/// register. There is room for a mark.
fn mark(kept: &mut Vec<u32>, store: Store)
    requires { vec_len kept.old < vec_capacity kept.old }
    ensures items { kept.new.items ≡ marked store.base store.address store.saves kept.old.items }
    ensures few { vec_len kept.new ≤ vec_len kept.old + 1 }
    ensures capacity { vec_capacity kept.old ≤ vec_capacity kept.new }
{
    if store.base == SP {
        unmark(kept, store.address);
        if store.saves {
            push(kept, store.address);
        }
    }
}

/// Takes the mark from the word that holds an address.
fn unmark(kept: &mut Vec<u32>, address: u32)
    ensures items { kept.new.items ≡ without_mark address kept.old.items }
    ensures few { vec_len kept.new ≤ vec_len kept.old }
    ensures capacity { vec_capacity kept.old ≤ vec_capacity kept.new }
{
    let touched = word_holding(address);
    kept.retain(|word| *word != touched);
}

/// Adds a word for which there is room.
fn push(kept: &mut Vec<u32>, word: u32)
    requires { vec_len kept.old < vec_capacity kept.old }
    ensures items { kept.new.items ≡ kept.old.items ++ word ∷ [] }
    ensures capacity { vec_capacity kept.old ≤ vec_capacity kept.new }
{
    match kept.push(word) {
        Ok(()) => {}
        Err(_) => unreachable!(),
    }
}

/// The address of the word that holds an address.
fn word_holding(address: u32) -> u32
    ensures { result ≡ word_holding address }
{
    address - address % 4
}

/// Why a store stops, if it does.
pub(crate) fn store_stop(
    image: &Image,
    memory: &Memory<'_>,
    kept: &[u32],
    base: u8,
    size: Size,
    address: u32,
) -> Option<Stop>
    ensures stop { result ≡ store_stop image.now memory.now.bytes kept.now base size address }
    ensures aligned { result ≡ None → is_aligned size address ≡ true }
{
    if !is_aligned(size, address) {
        Some(Stop::Unaligned)
    } else if memory.number(size, address).is_none() {
        Some(Stop::Unmapped)
    } else if is_read_only(image, size, address) {
        Some(Stop::ReadOnly)
    } else if base != SP && is_kept(kept, address) {
        Some(Stop::Trespass)
    } else {
        None
    }
}

/// Whether an address lies in a kept word.
fn is_kept(kept: &[u32], address: u32) -> bool
    ensures { result ≡ is_kept kept.now address }
{
    kept.contains(&word_holding(address))
}

/// Whether an access at a multiple of its size touches a byte that no program can write.
fn is_read_only(image: &Image, size: Size, address: u32) -> bool
    requires { is_aligned size address ≡ true }
    ensures { result ≡ is_read_only image.now size address }
{
    match size {
        Size::Byte => is_constant(image, address),
        Size::Half => is_constant(image, address) || is_constant(image, address + 1),
        Size::Word => {
            is_constant(image, address)
                || is_constant(image, address + 1)
                || is_constant(image, address + 2)
                || is_constant(image, address + 3)
        }
    }
}

/// Whether a byte is loaded where no program can write it.
fn is_constant(image: &Image, address: u32) -> bool
    ensures { result ≡ is_some (constant_byte_at image.now address) }
{
    match image.loaded(address) {
        Loaded::ReadOnly(_) => true,
        Loaded::Writable(_) | Loaded::No => false,
    }
}
