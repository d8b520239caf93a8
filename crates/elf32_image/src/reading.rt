//! From the bytes of a file to its image.

ghost use Rattle.std.specs.Prelude.{◌≡◌, ◌≢◌, ◌*◌, ◌≤◌, length, Ok, Err, None, IfOk, IfErr, IsErrOf, false, true};
ghost use Rattle.std.specs.List.{filter, list_all};
ghost use Rattle.std.specs.List.Sorted.{IsNonDecreasingBy, IsPermutation};
ghost use Rattle.elf32_image.specs.Header.{header_of};
ghost use Rattle.elf32_image.specs.Segments.{has_overlap, image_of, image_with, is_complete, is_loaded, is_within, program_headers, table_is_within};

use crate::format::{FileHeader, ProgramHeader, SIZEOF_PHDR, SIZEOF_SHDR, from_offset};
use crate::image::Image;
use crate::linking::are_whole;
use crate::lookup::do_ascend;
use crate::refusal::ElfRefusal;
use std::alloc::{AllocError, Global};

/// The size of the memory that addresses of 32 bits reach, in bytes.
const MEMORY_SIZE: u64 = 1 << 32;

/// Reads the image of a file from its bytes. Memory is taken for one copy of the bytes, and 24 bytes
/// for each program header.
///
/// A loaded segment is a program header of type `PT_LOAD` that takes memory. Other headers are passed
/// over, and `PF_R` is not tested. Of the sections only the symbol tables (`SHT_SYMTAB`) and those that
/// they name by `sh_link` are looked at.
///
/// # Errors
///
/// - `NotElf32Arm`, exactly where `FileHeader::read` gives `None`.
/// - `Truncated`, else, exactly where a table of program or section headers passes the file's end; or
///   for some loaded segment its bytes in the file pass the file's end, they are more than its size
///   in memory, or it passes the end of the 32-bit memory; or for some symbol table it passes the
///   file's end, there is no such section as it names, or that section passes the file's end. What is
///   empty passes nothing.
/// - `SegmentsOverlap`, else, exactly where two loaded segments share an address.
/// - `Memory`, in place of any other answer, where memory ran out.
pub fn read_image(alloc: Global, bytes: &[u8]) -> Result<Image, ElfRefusal>
    ensures exact { result ≢ Err ElfRefusal.Memory → result ≡ image_of bytes.now }
    ensures ok { IfOk result (λ image. image_of bytes.now ≡ Ok image) }
    ensures not_elf { IsErrOf result ElfRefusal.NotElf32Arm → header_of bytes.now ≡ None }
    ensures truncated { IsErrOf result ElfRefusal.Truncated → image_of bytes.now ≡ Err ElfRefusal.Truncated }
    ensures overlap { IsErrOf result ElfRefusal.SegmentsOverlap → image_of bytes.now ≡ Err ElfRefusal.SegmentsOverlap }
{
    match FileHeader::read(bytes) {
        None => Err(ElfRefusal::NotElf32Arm),
        Some(header) => {
            if is_file_complete(bytes, &header) {
                load(alloc, bytes, header)
            } else {
                Err(ElfRefusal::Truncated)
            }
        }
    }
}

// The image of a file of which all that is read is there.
fn load(alloc: Global, bytes: &[u8], header: FileHeader) -> Result<Image, ElfRefusal>
    requires { is_complete bytes.now header ≡ true }
    ensures ok { IfOk result (λ image. (image ≡ image_with bytes.now header) × (has_overlap (image_with bytes.now header).segments ≡ false)) }
    ensures overlap { IfErr result (λ why. why ≢ ElfRefusal.Memory → (why ≡ ElfRefusal.SegmentsOverlap) × (has_overlap (image_with bytes.now header).segments ≡ true)) }
{
    let table = from_offset(bytes, header.program_offset as usize);
    let Ok(read) = read_loaded(alloc, header.program_count, table) else {
        return Err(ElfRefusal::Memory);
    };
    let loaded = by_address(read);
    if !do_ascend(loaded.as_slice()) {
        return Err(ElfRefusal::SegmentsOverlap);
    }
    let Ok(file) = Vec::from_slice(alloc, bytes) else {
        return Err(ElfRefusal::Memory);
    };
    Ok(Image::from_parts(file, header, loaded))
}

// The segments in the order of their addresses.
fn by_address(read: Vec<ProgramHeader>) -> Vec<ProgramHeader>
    ensures permutation { IsPermutation read.items result.items }
    ensures rises { IsNonDecreasingBy (λ segment. segment.p_vaddr) result.items }
{
    let mut loaded = read;
    loaded.sort_unstable_by_key(|segment| segment.p_vaddr);
    loaded
}

// Whether all that is read of a file with this header is within the file and the memory.
#[tactic(auto, using(crate::proofs::Steps::table_room), unfolding(crate::specs::Segments::is_complete))]
fn is_file_complete(file: &[u8], header: &FileHeader) -> bool
    ensures { result ≡ is_complete file.now header.now }
{
    if !is_table_within(
        file.len(),
        SIZEOF_PHDR,
        header.program_offset,
        header.program_count,
    ) {
        return false;
    }
    if !is_table_within(
        file.len(),
        SIZEOF_SHDR,
        header.section_offset,
        header.section_count,
    ) {
        return false;
    }
    let segments = from_offset(file, header.program_offset as usize);
    let sections = from_offset(file, header.section_offset as usize);
    are_within(file.len(), header.program_count, segments)
        && are_whole(file.len(), header.section_count, sections)
}

// Whether a table of `count` entries of a size is empty or ends within a file of this size.
fn is_table_within(file_size: usize, entry_size: usize, offset: u32, count: u16) -> bool
    requires { entry_size ≤ 40 }
    ensures { result ≡ table_is_within file_size entry_size offset count }
{
    count == 0 || offset as usize + entry_size * usize::from(count) <= file_size
}

// Whether each loaded segment among the first `count` program headers is within the file and the memory.
fn are_within(file_size: usize, count: u16, table: &[u8]) -> bool
    requires { 32 * count ≤ length table.now }
    ensures { result ≡ list_all (is_within file_size) (filter is_loaded (program_headers count table.now)) }
{
    let mut rest = table;
    let mut left = count;
    while left > 0 {
        let header = ProgramHeader::read(rest);
        if header.is_loaded() && !is_segment_within(file_size, &header) {
            return false;
        }
        rest = from_offset(rest, SIZEOF_PHDR);
        left -= 1;
    }
    true
}

// The headers of the loaded segments among the first `count` program headers.
fn read_loaded(alloc: Global, count: u16, table: &[u8]) -> Result<Vec<ProgramHeader>, AllocError>
    requires { 32 * count ≤ length table.now }
    ensures { IfOk result (λ loaded. loaded.items ≡ filter is_loaded (program_headers count table.now)) }
{
    let mut loaded = Vec::with_capacity(alloc, usize::from(count))?;
    let mut rest = table;
    let mut left = count;
    while left > 0 {
        let header = ProgramHeader::read(rest);
        if header.is_loaded() {
            loaded.push(header)?;
        }
        rest = from_offset(rest, SIZEOF_PHDR);
        left -= 1;
    }
    Ok(loaded)
}

// Whether a segment's bytes are in the file and fit it, and it fits the memory.
fn is_segment_within(file_size: usize, header: &ProgramHeader) -> bool
    ensures { result ≡ is_within file_size header.now }
{
    header.p_offset as usize + header.p_filesz as usize <= file_size
        && header.p_filesz <= header.p_memsz
        && u64::from(header.p_vaddr) + u64::from(header.p_memsz) <= MEMORY_SIZE
}
