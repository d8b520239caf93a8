//! The memory of a run: the bytes that were written, over those with which it starts.

ghost use Rattle.std.specs.Prelude.{◌≡◌, ◌+◌, ◌-◌, ◌%◌, ◌^◌, ◌<◌, ◌≤◌, OnOk, true};
ghost use Rattle.elf32_image.specs.Bytes.{word_of};
ghost use Rattle.std.specs.FinMap as map;
ghost use Rattle.arm_machine.specs.Access.{bytes_of, half_of, is_aligned, loaded, number_at, with_bytes};
ghost use Rattle.arm_machine.specs.Memories.{Held, start_byte, start_memory};

use crate::access::Size;
use arm_cpu::Stop;
use elf32_image::{Image, Loaded};
use std::alloc::{AllocError, Global};
use std::collections::HashMap;
use std::marker::Model;

/// The memory of a run. Only bytes that were written take memory of their own: the others are those of the
/// image's loaded segments, or zeros of the stack.
#[derive(Drop)]
pub(crate) struct Memory<'a> {
    image: &'a Image,
    /// Where the zeros of the stack begin.
    bottom: u32,
    /// How many zeros there are from there on, modulo 2^32.
    room: u32,
    /// The bytes that were written, by their addresses.
    written: HashMap<u32, u8>,
}

impl<'a> Model for Memory<'a> {
    ghost use Rattle.std.specs.Prelude.{◌++◌, ◌<◌, ◌^◌};
    ghost use Rattle.std.specs.FinMap as map;
    ghost use Rattle.std.specs.HashMap.{spare};
    ghost use Rattle.arm_machine.specs.Memories.{Held, held_code, start_entries};

    ghost Value = { Held };

    ghost coded = { held_code };

    ghost view = { λ m. record {
      bytes = map.from_entries (m.written.entries ++ start_entries m.image.now m.bottom m.room);
      room = spare m.written;
    } };

    ghost invariant = { λ m. (m.bottom < 2 ^ 32) × (m.room < 2 ^ 32) };
}

impl<'a> Memory<'a> {
    /// The memory with which a run starts.
    pub(crate) fn start(alloc: Global, image: &'a Image, sp: u32, stack: u32) -> Memory<'a>
        requires { stack ≤ 1048576 }
        ensures { result.bytes ≡ start_memory image.now sp stack }
    {
        Memory {
            image,
            bottom: sp.wrapping_sub(stack),
            room: stack + 64,
            written: HashMap::new(alloc),
        }
    }

    /// The byte at an address, if it is mapped.
    pub(crate) fn byte(&self, address: u32) -> Option<u8>
        ensures { result ≡ map.get self.now.bytes address }
    {
        match self.written.get(&address) {
            Some(byte) => Some(*byte),
            None => start_byte(self.image, self.bottom, self.room, address),
        }
    }

    /// What a load gives, or why it stops.
    pub(crate) fn load(&self, size: Size, address: u32) -> Result<u32, Stop>
        ensures { result ≡ loaded self.now.bytes size address }
    {
        if !is_aligned(size, address) {
            return Err(Stop::Unaligned);
        }
        match self.number(size, address) {
            Some(value) => Ok(value),
            None => Err(Stop::Unmapped),
        }
    }

    /// The number at an address that is a multiple of its size, where each of its bytes is mapped.
    pub(crate) fn number(&self, size: Size, address: u32) -> Option<u32>
        requires { is_aligned size address ≡ true }
        ensures { result ≡ number_at self.now.bytes size address }
    {
        match size {
            Size::Byte => self.byte(address).map(u32::from),
            Size::Half => half_of(self.byte(address), self.byte(address + 1)),
            Size::Word => word_of(
                self.byte(address),
                self.byte(address + 1),
                self.byte(address + 2),
                self.byte(address + 3),
            ),
        }
    }

    /// Makes room for a number of bytes.
    pub(crate) fn reserve(&mut self, bytes: usize) -> Result<(), AllocError>
        ensures ok { OnOk result (bytes ≤ self.new.room) }
        ensures bytes { self.new.bytes ≡ self.old.bytes }
    {
        self.written.reserve(bytes)
    }

    /// Writes a byte for which there is room.
    pub(crate) fn set_byte(&mut self, address: u32, byte: u8)
        requires { 0 < self.old.room }
        ensures bytes { self.new.bytes ≡ map.insert self.old.bytes address byte }
        ensures room { self.old.room ≤ self.new.room + 1 }
    {
        match self.written.insert(address, byte) {
            Ok(_) => {}
            Err(_) => unreachable!(),
        }
    }

    /// Writes the low bytes of a number at an address that is a multiple of their count. There is room for
    /// four bytes.
    pub(crate) fn set(&mut self, size: Size, address: u32, value: u32)
        requires aligned { is_aligned size address ≡ true }
        requires room { 4 ≤ self.old.room }
        ensures bytes { self.new.bytes ≡ with_bytes self.old.bytes address (bytes_of size value) }
        ensures room { self.old.room ≤ self.new.room + 4 }
    {
        self.set_byte(address, (value % 256) as u8);
        match size {
            Size::Byte => {}
            Size::Half => self.set_byte(address + 1, (value / 256 % 256) as u8),
            Size::Word => {
                let second = address + 1;
                let third = second + 1;
                let fourth = third + 1;
                self.set_byte(second, (value / 256 % 256) as u8);
                self.set_byte(third, (value / 65_536 % 256) as u8);
                self.set_byte(fourth, (value / 16_777_216 % 256) as u8);
            }
        }
    }
}

/// Whether an address is a multiple of the size of an access.
pub(crate) fn is_aligned(size: Size, address: u32) -> bool
    ensures { result ≡ is_aligned size address }
{
    match size {
        Size::Byte => true,
        Size::Half => address % 2 == 0,
        Size::Word => address % 4 == 0,
    }
}

/// The number of two bytes, the least significant first, where both are there.
fn half_of(low: Option<u8>, high: Option<u8>) -> Option<u32>
    ensures { result ≡ half_of low high }
{
    Some(u32::from(low?) + 256 * u32::from(high?))
}

/// The number of four bytes, the least significant first, where each is there.
fn word_of(
    first: Option<u8>,
    second: Option<u8>,
    third: Option<u8>,
    fourth: Option<u8>,
) -> Option<u32>
    ensures { result ≡ word_of first second third fourth }
{
    Some(u32::from_le_bytes([first?, second?, third?, fourth?]))
}

/// The byte at an address when a run starts, if it is mapped then.
fn start_byte(image: &Image, bottom: u32, room: u32, address: u32) -> Option<u8>
    ensures { result ≡ start_byte image.now bottom room address }
{
    match image.loaded(address) {
        Loaded::ReadOnly(byte) | Loaded::Writable(byte) => Some(byte),
        Loaded::No => {
            if address.wrapping_sub(bottom) < room {
                Some(0)
            } else {
                None
            }
        }
    }
}
