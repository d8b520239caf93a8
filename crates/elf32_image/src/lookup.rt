//! Look-ups in the program headers of loaded segments that lie apart and ascend by address.

ghost use Rattle.std.specs.Prelude.{◌≡◌, ◌+◌, length, option_copied, true};
ghost use Rattle.std.specs.List.{find};
ghost use Rattle.elf32_image.specs.Bytes.{byte_of};
ghost use Rattle.elf32_image.specs.Index.{ascend, executes, has_address, word_in, writes};
ghost use Rattle.elf32_image.specs.Segments.{is_within, segment_of};

use crate::format::{PF_W, PF_X, ProgramHeader};

impl ProgramHeader {
    /// Whether the segment may be executed.
    #[inline]
    pub(crate) fn is_executable(&self) -> bool
        ensures { result ≡ executes self.now }
    {
        self.p_flags / PF_X % 2 == 1
    }

    /// Whether the segment may be written.
    #[inline]
    pub(crate) fn is_writable(&self) -> bool
        ensures { result ≡ writes self.now }
    {
        self.p_flags / PF_W % 2 == 1
    }

    /// Whether the address is one of the segment's.
    #[inline]
    pub(crate) fn has_address(&self, address: u32) -> bool
        ensures { result ≡ has_address address self.now }
    {
        self.p_vaddr <= address
            && u64::from(address) < u64::from(self.p_vaddr) + u64::from(self.p_memsz)
    }

    /// The byte at one of the segment's addresses.
    #[inline]
    pub(crate) fn byte(&self, file: &[u8], address: u32) -> u8
        requires within { is_within (length file.now) self.now ≡ true }
        requires inside { has_address address self.now ≡ true }
        ensures { result ≡ byte_of (segment_of file.now self.now) address }
    {
        let offset = address - self.p_vaddr;
        if offset < self.p_filesz {
            file[self.p_offset as usize + offset as usize]
        } else {
            0
        }
    }

    /// The word, least significant byte first, of four of the segment's addresses from one on.
    #[inline]
    pub(crate) fn word(&self, file: &[u8], address: u32) -> u32
        requires within { is_within (length file.now) self.now ≡ true }
        requires first { has_address address self.now ≡ true }
        requires last { has_address (address + 3) self.now ≡ true }
        ensures { result ≡ word_in (segment_of file.now self.now) address }
    {
        let offset = address - self.p_vaddr;
        if u64::from(offset) + 4 <= u64::from(self.p_filesz) {
            let start = self.p_offset as usize + offset as usize;
            u32::from_le_bytes([
                file[start],
                file[start + 1],
                file[start + 2],
                file[start + 3],
            ])
        } else {
            u32::from_le_bytes([
                self.byte(file, address),
                self.byte(file, address + 1),
                self.byte(file, address + 2),
                self.byte(file, address + 3),
            ])
        }
    }
}

/// Whether the segments lie apart, each after those before it.
pub(crate) fn do_ascend(loaded: &[ProgramHeader]) -> bool
    ensures { result ≡ ascend 0 loaded.now }
{
    let mut end = 0;
    for segment in loaded {
        if u64::from(segment.p_vaddr) < end {
            return false;
        }
        end = u64::from(segment.p_vaddr) + u64::from(segment.p_memsz);
    }
    true
}

/// The segment that has the address.
#[inline]
pub(crate) fn holder(loaded: &[ProgramHeader], address: u32) -> Option<&ProgramHeader>
    requires { ascend 0 loaded.now ≡ true }
    ensures { option_copied result ≡ find (has_address address) loaded.now }
{
    // The one segment that may have the address is always in what is left.
    let mut left = loaded;
    while left.len() > 1 {
        let middle = left.len() / 2;
        if left[middle].p_vaddr <= address {
            left = &left[middle..];
        } else {
            left = &left[..middle];
        }
    }
    match left.first() {
        Some(segment) if segment.has_address(address) => Some(segment),
        _ => None,
    }
}
