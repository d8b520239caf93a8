//! An image and what it holds at an address.

ghost use Rattle.std.specs.Prelude.{◌≡◌, ◌%◌, ◌^◌, ◌<◌, ℕ, IfSome, Some, true};
ghost use Rattle.elf32_image.specs.Bytes.{AreBytes, HoldsBytes, code_at, constant_at, constant_byte, is_code, is_executable_at, loaded, loaded_byte, word_at, word_of};
ghost use Rattle.elf32_image.specs.Index.{HasWord, IsIndex, ascend};
ghost use Rattle.elf32_image.specs.Names.{function_of};
ghost use Rattle.elf32_image.specs.Segments.{image_with};

use crate::format::{FileHeader, ProgramHeader, from_offset};
use crate::lookup::holder;
use crate::naming::value_of;
use crate::refusal::NameRefusal;
use std::marker::Model;

/// What an image holds at an address.
#[derive(Clone, Copy, Debug)]
pub enum Loaded {
    /// Nothing.
    No,
    /// This byte, in a segment that may not be written.
    ReadOnly(u8),
    /// This byte, in a segment that may be written.
    Writable(u8),
}

impl Loaded {
    // The byte, where there is one.
    fn byte(self) -> Option<u8>
        ensures { result ≡ loaded_byte self }
    {
        match self {
            Loaded::No => None,
            Loaded::ReadOnly(byte) | Loaded::Writable(byte) => Some(byte),
        }
    }

    // The byte, where there is one that may not be written.
    fn constant_byte(self) -> Option<u8>
        ensures { result ≡ constant_byte self }
    {
        match self {
            Loaded::ReadOnly(byte) => Some(byte),
            Loaded::No | Loaded::Writable(_) => None,
        }
    }
}

/// The loaded segments and the function symbols of an ELF32 executable for ARM.
///
/// Contracts see the list of the segments, in the order of their program headers, and the list of the
/// function symbols, in the order of the symbol tables. No two segments share an address.
///
/// An image keeps the file's bytes once. Segments and symbols are read from there, and the zeros of a
/// segment after its bytes from the file take no memory.
#[derive(Drop)]
pub struct Image {
    // The bytes of the file.
    file: Vec<u8>,
    header: FileHeader,
    // The program headers of the loaded segments, by ascending address.
    loaded: Vec<ProgramHeader>,
}

impl Model for Image {
    ghost use Rattle.elf32_image.specs.Index.{IsIndex};
    ghost use Rattle.elf32_image.specs.Parts.{ImageValue};
    ghost use Rattle.elf32_image.specs.Segments.{image_with};

    ghost Value = { ImageValue };

    ghost view = { λ i. image_with i.file.items i.header };

    ghost invariant = { λ i. IsIndex i.file.items i.header i.loaded.items };
}

impl Image {
    // The image of a file with this header and these loaded segments, by ascending address.
    pub(crate) fn from_parts(file: Vec<u8>, header: FileHeader, loaded: Vec<ProgramHeader>) -> Image
        requires { IsIndex file.items header loaded.items }
        ensures { result ≡ image_with file.items header }
    {
        Image {
            file,
            header,
            loaded,
        }
    }

    /// The address of the function with the name, in bytes: the value of its symbols.
    ///
    /// Function symbols are those of type `STT_FUNC` that are defined, in all symbol tables of type
    /// `SHT_SYMTAB`. It takes no memory, and time for each symbol of the file.
    ///
    /// # Errors
    ///
    /// - `NoSymbol`, exactly where no function symbol has the name.
    /// - `TwoSymbols`, exactly where function symbols of different values have it.
    /// - `ThumbCode`, exactly where one value has it and is odd.
    pub fn function(&self, name: &str) -> Result<u32, NameRefusal>
        ensures { result ≡ function_of self.now name.now }
    {
        let file = self.file.as_slice();
        let sections = from_offset(file, self.header.section_offset as usize);
        value_of(file, self.header.section_count, sections, name.as_bytes())
    }

    /// Whether the four bytes of an instruction stand at the address: it is a multiple of 4, and each
    /// of its four bytes is loaded in a segment that may be executed.
    #[inline]
    pub fn is_code(&self, address: u32) -> bool
        ensures { result ≡ is_code self.now address }
    {
        if address % 4 != 0 {
            return false;
        }
        match word_holder(self.loaded.as_slice(), address) {
            Some(segment) => segment.is_executable(),
            None => self.are_executable_at(address),
        }
    }

    /// The word at the address where it is code, `None` exactly where it is none: the word that a
    /// machine takes its next instruction from.
    #[inline(always)]
    pub fn code_at(&self, address: u32) -> Option<u32>
        ensures exact { result ≡ code_at self.now address }
        ensures word { IfSome result (λ word. word < 2 ^ 32) }
    {
        if address % 4 != 0 {
            return None;
        }
        match word_holder(self.loaded.as_slice(), address) {
            Some(segment) => {
                if segment.is_executable() {
                    Some(segment.word(self.file.as_slice(), address))
                } else {
                    None
                }
            }
            None => {
                if self.are_executable_at(address) {
                    self.word_of_parts(address)
                } else {
                    None
                }
            }
        }
    }

    /// The word at the address, least significant byte first. `None` exactly where the address is no
    /// multiple of 4 or one of the four bytes is not loaded.
    #[inline]
    pub fn word_at(&self, address: u32) -> Option<u32>
        ensures exact { result ≡ word_at self.now address }
        ensures word { IfSome result (λ word. word < 2 ^ 32) }
    {
        if address % 4 != 0 {
            return None;
        }
        match word_holder(self.loaded.as_slice(), address) {
            Some(segment) => Some(segment.word(self.file.as_slice(), address)),
            None => self.word_of_parts(address),
        }
    }

    /// The word at the address where nothing can write it: as `word_at`, and `None` also where one of
    /// the four bytes is in a segment that may be written.
    #[inline]
    pub fn constant_at(&self, address: u32) -> Option<u32>
        ensures exact { result ≡ constant_at self.now address }
        ensures word { IfSome result (λ word. word < 2 ^ 32) }
    {
        if address % 4 != 0 {
            return None;
        }
        match word_holder(self.loaded.as_slice(), address) {
            Some(segment) => {
                if segment.is_writable() {
                    None
                } else {
                    Some(segment.word(self.file.as_slice(), address))
                }
            }
            None => self.constant_of_parts(address),
        }
    }

    /// What the image holds at the address.
    pub fn loaded(&self, address: u32) -> Loaded
        ensures { result ≡ loaded self.now address }
    {
        match holder(self.loaded.as_slice(), address) {
            None => Loaded::No,
            Some(segment) => {
                let byte = segment.byte(self.file.as_slice(), address);
                if segment.is_writable() {
                    Loaded::Writable(byte)
                } else {
                    Loaded::ReadOnly(byte)
                }
            }
        }
    }

    /// A law, as a call that does nothing: each byte that the image holds is below 2^8, and so each of its words and
    /// constants is below 2^32.
    pub fn holds_bytes(&self)
        ensures bytes { HoldsBytes self.now }
        ensures words { (address word : ℕ) → word_at self.now address ≡ Some word → word < 2 ^ 32 }
        ensures constants { (address word : ℕ) → constant_at self.now address ≡ Some word → word < 2 ^ 32 }
    {
        are_bytes(self.file.as_slice());
    }

    // The word at a multiple of 4 whose bytes may be in several segments.
    fn word_of_parts(&self, address: u32) -> Option<u32>
        requires { address % 4 ≡ 0 }
        ensures { result ≡ word_at self.now address }
    {
        word_of_bytes(
            self.loaded(address).byte(),
            self.loaded(address + 1).byte(),
            self.loaded(address + 2).byte(),
            self.loaded(address + 3).byte(),
        )
    }

    // The same where nothing can write it.
    fn constant_of_parts(&self, address: u32) -> Option<u32>
        requires { address % 4 ≡ 0 }
        ensures { result ≡ constant_at self.now address }
    {
        word_of_bytes(
            self.loaded(address).constant_byte(),
            self.loaded(address + 1).constant_byte(),
            self.loaded(address + 2).constant_byte(),
            self.loaded(address + 3).constant_byte(),
        )
    }

    // Whether the bytes at a multiple of 4 may be executed, which may be in several segments.
    fn are_executable_at(&self, address: u32) -> bool
        requires { address % 4 ≡ 0 }
        ensures { result ≡ is_code self.now address }
    {
        self.is_executable_at(address)
            && self.is_executable_at(address + 1)
            && self.is_executable_at(address + 2)
            && self.is_executable_at(address + 3)
    }

    // Whether the byte at the address is loaded in a segment that may be executed.
    fn is_executable_at(&self, address: u32) -> bool
        ensures { result ≡ is_executable_at self.now address }
    {
        match holder(self.loaded.as_slice(), address) {
            None => false,
            Some(segment) => segment.is_executable(),
        }
    }
}

// The segment that has the four bytes at a multiple of 4, where one has them all.
#[inline]
fn word_holder(loaded: &[ProgramHeader], address: u32) -> Option<&ProgramHeader>
    requires apart { ascend 0 loaded.now ≡ true }
    requires aligned { address % 4 ≡ 0 }
    ensures { IfSome result (λ segment. HasWord loaded.now address segment.now) }
{
    match holder(loaded, address) {
        Some(segment) if segment.has_address(address + 3) => Some(segment),
        _ => None,
    }
}

// The word of four bytes, the least significant first, where each is there.
fn word_of_bytes(
    first: Option<u8>,
    second: Option<u8>,
    third: Option<u8>,
    fourth: Option<u8>,
) -> Option<u32>
    ensures { result ≡ word_of first second third fourth }
{
    Some(u32::from_le_bytes([first?, second?, third?, fourth?]))
}

// A law of bytes: they are numbers below 2^8.
fn are_bytes(bytes: &[u8])
    ensures { AreBytes bytes.now }
{}
