//! Symbol tables and the sections that hold their names.

ghost use Rattle.std.specs.Prelude.{◌≡◌, ◌*◌, ◌≤◌, length, slice_get};
ghost use Rattle.std.specs.List.{list_all};
ghost use Rattle.elf32_image.specs.Sections.{bytes_of, ends_within, is_there, is_whole, section_headers};

use crate::format::{SIZEOF_SHDR, SectionHeader, from_offset};

/// Whether each symbol table among `count` sections is whole, and so is the section of its names.
pub(crate) fn are_whole(file_size: usize, count: u16, table: &[u8]) -> bool
    requires { 40 * count ≤ length table.now }
    ensures { result ≡ list_all (is_whole file_size (section_headers count table.now)) (section_headers count table.now) }
{
    let mut rest = table;
    let mut left = count;
    while left > 0 {
        if !is_section_whole(file_size, count, table, &SectionHeader::read(rest)) {
            return false;
        }
        rest = from_offset(rest, SIZEOF_SHDR);
        left -= 1;
    }
    true
}

/// The bytes of the section that a section names, none where there is no such section.
pub(crate) fn linked_bytes<'a>(
    file: &'a [u8],
    count: u16,
    table: &[u8],
    section: &SectionHeader,
) -> &'a [u8]
    requires { 40 * count ≤ length table.now }
    ensures { result.now ≡ bytes_of file.now (slice_get (section_headers count table.now) section.now.sh_link) }
{
    match linked(count, table, section) {
        None => &[],
        Some(names) => {
            let after = from_offset(file, names.sh_offset as usize);
            if (names.sh_size as usize) < after.len() {
                &after[..names.sh_size as usize]
            } else {
                after
            }
        }
    }
}

// Whether the section is no symbol table, or ends within the file as does the section of its names.
fn is_section_whole(file_size: usize, count: u16, table: &[u8], section: &SectionHeader) -> bool
    requires { 40 * count ≤ length table.now }
    ensures { result ≡ is_whole file_size (section_headers count table.now) section.now }
{
    !section.is_symbol_table()
        || (does_end_within(file_size, section.symbol_count(), section)
            && match linked(count, table, section) {
                None => false,
                Some(names) => does_end_within(file_size, names.sh_size, &names),
            })
}

// The section that a section names.
fn linked(count: u16, table: &[u8], section: &SectionHeader) -> Option<SectionHeader>
    requires { 40 * count ≤ length table.now }
    ensures { result ≡ slice_get (section_headers count table.now) section.now.sh_link }
{
    if section.sh_link < u32::from(count) {
        let entry = from_offset(table, SIZEOF_SHDR * section.sh_link as usize);
        Some(SectionHeader::read(entry))
    } else {
        None
    }
}

// Whether a table of this number of entries has none, or ends within a file of this size.
fn does_end_within(file_size: usize, entries: u32, section: &SectionHeader) -> bool
    ensures { result ≡ ends_within file_size entries section.now }
{
    entries == 0 || section.sh_offset as usize + section.sh_size as usize <= file_size
}
