//! The constants and structures of the format, in the standard's names, and the reading of one
//! structure from its bytes.
//!
//! System V ABI, chapter 4, 'ELF Header', 'Sections' and 'Symbol Table', and chapter 5, 'Program
//! Header'. Numbers stand in the file with the least significant byte first.

ghost use Rattle.std.specs.Prelude.{◌≡◌, ◌+◌, ◌≤◌, drop, length};
ghost use Rattle.elf32_image.specs.Fields.{half_field, word_field};
ghost use Rattle.elf32_image.specs.Header.{has_entries_of, has_required_values, header_of, is_identified};
ghost use Rattle.elf32_image.specs.Sections.{is_function, is_symbol_table, section_header, symbol_at, symbol_count};
ghost use Rattle.elf32_image.specs.Segments.{is_loaded, program_header};

use byteorder::{ByteOrder, LittleEndian};

/// The magic number at the head of a file.
pub(crate) const ELFMAG: [u8; 4] = [0x7f, 0x45, 0x4c, 0x46];
/// The class of files whose addresses have 32 bits.
pub(crate) const ELFCLASS32: u8 = 1;
/// The encoding with the least significant byte first.
pub(crate) const ELFDATA2LSB: u8 = 1;
/// The version of the format.
pub(crate) const EV_CURRENT: u8 = 1;
/// The type of executable files.
pub(crate) const ET_EXEC: u16 = 2;
/// The machine ARM.
pub(crate) const EM_ARM: u16 = 40;
/// The type of a segment that is loaded.
pub(crate) const PT_LOAD: u32 = 1;
/// The flag of a segment that may be executed.
pub(crate) const PF_X: u32 = 1;
/// The flag of a segment that may be written.
pub(crate) const PF_W: u32 = 2;
/// The type of a section that is a symbol table.
pub(crate) const SHT_SYMTAB: u32 = 2;
/// The type of a symbol that is a function, in the low four bits of `st_info`.
pub(crate) const STT_FUNC: u8 = 2;
/// The section of a symbol that is not defined.
pub(crate) const SHN_UNDEF: u16 = 0;

/// The size of the file header, in bytes.
pub(crate) const SIZEOF_EHDR: usize = 52;
/// The size of a program header, in bytes.
pub(crate) const SIZEOF_PHDR: usize = 32;
/// The size of a section header, in bytes.
pub(crate) const SIZEOF_SHDR: usize = 40;
/// The size of a symbol, in bytes.
pub(crate) const SIZEOF_SYM: usize = 16;

// Where the fields of the file header begin.
const EI_CLASS: usize = 4;

const EI_DATA: usize = 5;

const EI_VERSION: usize = 6;

const E_TYPE: usize = 16;

const E_MACHINE: usize = 18;

const E_PHOFF: usize = 28;

const E_SHOFF: usize = 32;

const E_PHENTSIZE: usize = 42;

const E_PHNUM: usize = 44;

const E_SHENTSIZE: usize = 46;

const E_SHNUM: usize = 48;

// Where the fields of a program header begin.
const P_TYPE: usize = 0;

const P_OFFSET: usize = 4;

const P_VADDR: usize = 8;

const P_FILESZ: usize = 16;

const P_MEMSZ: usize = 20;

const P_FLAGS: usize = 24;

// Where the fields of a section header begin.
const SH_TYPE: usize = 4;

const SH_OFFSET: usize = 16;

const SH_SIZE: usize = 20;

const SH_LINK: usize = 24;

// Where the fields of a symbol begin.
const ST_NAME: usize = 0;

const ST_VALUE: usize = 4;

const ST_INFO: usize = 12;

const ST_SHNDX: usize = 14;

/// What the file header says of the two tables of an ELF32 executable for ARM.
#[derive(Clone, Copy)]
pub struct FileHeader {
    /// Where the program header table begins in the file, in bytes (`e_phoff`).
    pub program_offset: u32,
    /// The number of program headers (`e_phnum`).
    pub program_count: u16,
    /// Where the section header table begins in the file, in bytes (`e_shoff`).
    pub section_offset: u32,
    /// The number of section headers (`e_shnum`).
    pub section_count: u16,
}

impl FileHeader {
    /// The header of a file, `None` exactly where the file has fewer than 52 bytes or its header has
    /// not the values of an ELF32 executable for ARM.
    pub fn read(bytes: &[u8]) -> Option<FileHeader>
        ensures { result ≡ header_of bytes.now }
    {
        if bytes.len() < SIZEOF_EHDR {
            return None;
        }
        if !has_accepted_values(bytes) {
            return None;
        }
        Some(FileHeader {
            program_offset: word(bytes, E_PHOFF),
            program_count: half(bytes, E_PHNUM),
            section_offset: word(bytes, E_SHOFF),
            section_count: half(bytes, E_SHNUM),
        })
    }
}

/// The fields of a program header that loading needs.
#[derive(Clone, Copy)]
pub(crate) struct ProgramHeader {
    pub p_type: u32,
    pub p_offset: u32,
    pub p_vaddr: u32,
    pub p_filesz: u32,
    pub p_memsz: u32,
    pub p_flags: u32,
}

impl ProgramHeader {
    /// The program header at the head of the bytes.
    pub(crate) fn read(bytes: &[u8]) -> ProgramHeader
        requires { 32 ≤ length bytes.now }
        ensures { result ≡ program_header bytes.now }
    {
        ProgramHeader {
            p_type: word(bytes, P_TYPE),
            p_offset: word(bytes, P_OFFSET),
            p_vaddr: word(bytes, P_VADDR),
            p_filesz: word(bytes, P_FILESZ),
            p_memsz: word(bytes, P_MEMSZ),
            p_flags: word(bytes, P_FLAGS),
        }
    }

    /// Whether the header is of a segment that is loaded and takes memory.
    pub(crate) fn is_loaded(&self) -> bool
        ensures { result ≡ is_loaded self.now }
    {
        self.p_type == PT_LOAD && self.p_memsz > 0
    }
}

/// The fields of a section header that symbols need.
#[derive(Clone, Copy)]
pub(crate) struct SectionHeader {
    pub sh_type: u32,
    pub sh_offset: u32,
    pub sh_size: u32,
    pub sh_link: u32,
}

impl SectionHeader {
    /// The section header at the head of the bytes.
    pub(crate) fn read(bytes: &[u8]) -> SectionHeader
        requires { 40 ≤ length bytes.now }
        ensures { result ≡ section_header bytes.now }
    {
        SectionHeader {
            sh_type: word(bytes, SH_TYPE),
            sh_offset: word(bytes, SH_OFFSET),
            sh_size: word(bytes, SH_SIZE),
            sh_link: word(bytes, SH_LINK),
        }
    }

    /// Whether the section is a symbol table.
    pub(crate) fn is_symbol_table(&self) -> bool
        ensures { result ≡ is_symbol_table self.now }
    {
        self.sh_type == SHT_SYMTAB
    }

    /// How many symbols the section has as a symbol table.
    pub(crate) fn symbol_count(&self) -> u32
        ensures { result ≡ symbol_count self.now }
    {
        self.sh_size / SIZEOF_SYM as u32
    }
}

/// The fields of a symbol that the names of functions need.
#[derive(Clone, Copy)]
pub(crate) struct Symbol {
    pub st_name: u32,
    pub st_value: u32,
    pub st_info: u8,
    pub st_shndx: u16,
}

impl Symbol {
    /// The symbol at the head of the bytes.
    pub(crate) fn read(bytes: &[u8]) -> Symbol
        requires { 16 ≤ length bytes.now }
        ensures { result ≡ symbol_at bytes.now }
    {
        Symbol {
            st_name: word(bytes, ST_NAME),
            st_value: word(bytes, ST_VALUE),
            st_info: bytes[ST_INFO],
            st_shndx: half(bytes, ST_SHNDX),
        }
    }

    /// Whether the symbol is of a function and defined.
    pub(crate) fn is_function(&self) -> bool
        ensures { result ≡ is_function self.now }
    {
        self.st_info % 16 == STT_FUNC && self.st_shndx != SHN_UNDEF
    }
}

/// The bytes from an offset on, none where it passes the end.
pub(crate) fn from_offset(bytes: &[u8], offset: usize) -> &[u8]
    ensures { result.now ≡ drop offset bytes.now }
{
    if offset < bytes.len() {
        &bytes[offset..]
    } else {
        &[]
    }
}

// Whether the file header has the values of an ELF32 executable for ARM.
fn has_accepted_values(bytes: &[u8]) -> bool
    requires { 52 ≤ length bytes.now }
    ensures { result ≡ has_required_values bytes.now }
{
    has_accepted_identification(bytes)
        && half(bytes, E_TYPE) == ET_EXEC
        && half(bytes, E_MACHINE) == EM_ARM
        && has_accepted_entries(SIZEOF_PHDR, half(bytes, E_PHENTSIZE), half(bytes, E_PHNUM))
        && has_accepted_entries(SIZEOF_SHDR, half(bytes, E_SHENTSIZE), half(bytes, E_SHNUM))
}

// Whether the file names itself an ELF file of 32 bits, least significant byte first.
fn has_accepted_identification(bytes: &[u8]) -> bool
    requires { 52 ≤ length bytes.now }
    ensures { result ≡ is_identified bytes.now }
{
    bytes.starts_with(&ELFMAG)
        && bytes[EI_CLASS] == ELFCLASS32
        && bytes[EI_DATA] == ELFDATA2LSB
        && bytes[EI_VERSION] == EV_CURRENT
}

// Whether a table is empty or its entries have this size.
fn has_accepted_entries(size: usize, entry_size: u16, count: u16) -> bool
    ensures { result ≡ has_entries_of size entry_size count }
{
    count == 0 || usize::from(entry_size) == size
}

// The number in the two bytes from an offset on.
fn half(bytes: &[u8], offset: usize) -> u16
    requires { offset + 2 ≤ length bytes.now }
    ensures { result ≡ half_field bytes.now offset }
{
    LittleEndian::read_u16(&bytes[offset..])
}

// The number in the four bytes from an offset on.
fn word(bytes: &[u8], offset: usize) -> u32
    requires { offset + 4 ≤ length bytes.now }
    ensures { result ≡ word_field bytes.now offset }
{
    LittleEndian::read_u32(&bytes[offset..])
}
