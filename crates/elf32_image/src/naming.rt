//! The value of a function by its name.

ghost use Rattle.std.specs.Prelude.{◌≡◌, ◌*◌, ◌≤◌, [], ◌∷◌, None, length, true};
ghost use Rattle.std.specs.List.{list_all};
ghost use Rattle.std.specs.Str.{bytes_eq};
ghost use Rattle.elf32_image.specs.Sections.{functions_among, functions_of, is_whole, section_headers, until_zero};
ghost use Rattle.elf32_image.specs.Names.{agreed, one_value, values_of, settled};

use crate::format::{SIZEOF_SHDR, SIZEOF_SYM, SectionHeader, Symbol, from_offset};
use crate::linking::linked_bytes;
use crate::refusal::NameRefusal;

/// The value of the function with the name, in a file with `count` sections.
pub(crate) fn value_of(
    file: &[u8],
    count: u16,
    table: &[u8],
    name: &[u8],
) -> Result<u32, NameRefusal>
    requires within { 40 * count ≤ length table.now }
    requires whole { list_all (is_whole (length file.now) (section_headers count table.now)) (section_headers count table.now) ≡ true }
    ensures { result ≡ one_value (values_of name.now (functions_of file.now (section_headers count table.now))) }
{
    settle(find_in_sections(file, count, table, name)?)
}

// The value that all function symbols with the name have, in a file with `count` sections.
fn find_in_sections(
    file: &[u8],
    count: u16,
    table: &[u8],
    name: &[u8],
) -> Result<Option<u32>, NameRefusal>
    requires within { 40 * count ≤ length table.now }
    requires whole { list_all (is_whole (length file.now) (section_headers count table.now)) (section_headers count table.now) ≡ true }
    ensures { result ≡ agreed None (values_of name.now (functions_of file.now (section_headers count table.now))) }
{
    let mut found = None;
    let mut rest = table;
    let mut left = count;
    while left > 0 {
        let section = SectionHeader::read(rest);
        if section.is_symbol_table() {
            let names = linked_bytes(file, count, table, &section);
            let symbols = from_offset(file, section.sh_offset as usize);
            found = find_in_table(symbols, section.symbol_count(), names, name, found)?;
        }
        rest = from_offset(rest, SIZEOF_SHDR);
        left -= 1;
    }
    Ok(found)
}

// The value that all function symbols with the name have, those found before and those of this table.
fn find_in_table(
    table: &[u8],
    count: u32,
    names: &[u8],
    name: &[u8],
    before: Option<u32>,
) -> Result<Option<u32>, NameRefusal>
    requires { 16 * count ≤ length table.now }
    ensures { result ≡ agreed before (values_of name.now (functions_among names.now count table.now)) }
{
    let mut found = before;
    let mut rest = table;
    let mut left = count;
    while left > 0 {
        let symbol = Symbol::read(rest);
        if symbol.is_function() && is_name(from_offset(names, symbol.st_name as usize), name) {
            found = agree(found, symbol.st_value)?;
        }
        rest = from_offset(rest, SIZEOF_SYM);
        left -= 1;
    }
    Ok(found)
}

// The value, where it is the one found before.
fn agree(found: Option<u32>, value: u32) -> Result<Option<u32>, NameRefusal>
    ensures { result ≡ agreed found (value ∷ []) }
{
    match found {
        None => Ok(Some(value)),
        Some(before) => {
            if before == value {
                Ok(found)
            } else {
                Err(NameRefusal::TwoSymbols)
            }
        }
    }
}

// The value that was found, where it is one of ARM code.
fn settle(found: Option<u32>) -> Result<u32, NameRefusal>
    ensures { result ≡ settled found }
{
    match found {
        None => Err(NameRefusal::NoSymbol),
        Some(value) => {
            if value % 2 == 1 {
                Err(NameRefusal::ThumbCode)
            } else {
                Ok(value)
            }
        }
    }
}

// Whether the bytes before the first zero byte are the name.
fn is_name(bytes: &[u8], name: &[u8]) -> bool
    ensures { result ≡ bytes_eq (until_zero bytes.now) name.now }
{
    let mut bytes_left = bytes;
    let mut name_left = name;
    while let Some((byte, bytes_behind)) = bytes_left.split_first() {
        if *byte == 0 {
            break;
        }
        let Some((letter, name_behind)) = name_left.split_first() else {
            return false;
        };
        if byte != letter {
            return false;
        }
        bytes_left = bytes_behind;
        name_left = name_behind;
    }
    name_left.is_empty()
}
