//! Executables, by the words of a line.

use std::alloc::{AllocError, Global};

/// The head of an ELF32 executable for ARM, up to the offset of its section headers.
static HEAD: [u8; 32] = [
    0x7f, 0x45, 0x4c, 0x46, 0x01, 0x01, 0x01, 0x00, 0x00, 0x00, 0x00, 0x00, 0x00, 0x00, 0x00, 0x00,
    0x02, 0x00, 0x28, 0x00, 0x01, 0x00, 0x00, 0x00, 0x00, 0x80, 0x00, 0x00, 0x34, 0x00, 0x00, 0x00,
];

/// The number that a word spells in hexadecimal, or 0.
fn number(word: &str) -> u32 {
    u32::from_str_radix(word, 16).unwrap_or(0)
}

/// How many bytes these are.
fn size_of(bytes: &[u8]) -> u32 {
    u32::try_from(bytes.len()).unwrap_or(u32::MAX)
}

fn push_words(bytes: &mut Vec<u8>, words: &[u32]) -> Result<(), AllocError> {
    for word in words {
        bytes.extend_from_slice(&word.to_le_bytes())?;
    }
    Ok(())
}

fn push_halves(bytes: &mut Vec<u8>, halves: &[u16]) -> Result<(), AllocError> {
    for half in halves {
        bytes.extend_from_slice(&half.to_le_bytes())?;
    }
    Ok(())
}

/// An executable with program headers that are all of the one segment, and with a symbol table.
#[derive(Drop)]
pub struct Executable {
    headers: u16,
    address: u32,
    code: Vec<u8>,
    symbols: Vec<u8>,
    names: Vec<u8>,
}

impl Executable {
    /// No code, at 0x8000, and the symbol table of no symbol but the zero one.
    pub fn new(alloc: Global) -> Result<Executable, AllocError> {
        Ok(Executable {
            headers: 1,
            address: 0x8000,
            code: Vec::new(alloc),
            symbols: vec![in alloc; 0u8; 16]?,
            names: vec![in alloc; 0u8; 1]?,
        })
    }

    /// Adds what a word says: `+` one more header of the segment, `@ADDRESS` where it lies, `NAME=VALUE` a function
    /// symbol, and else a word of code, or `WORD*COUNT`.
    pub fn add(&mut self, word: &str) -> Result<(), AllocError> {
        if word == "+" {
            self.headers = self.headers.wrapping_add(1);
        } else if let Some(address) = word.strip_prefix("@") {
            self.address = number(address);
        } else if let Some((name, value)) = word.split_once('=') {
            self.add_symbol(name, number(value))?;
        } else {
            let (code, count) = word.split_once('*').unwrap_or((word, "1"));
            for _time in 0..count.parse::<u32>().unwrap_or(0) {
                push_words(&mut self.code, &[number(code)])?;
            }
        }
        Ok(())
    }

    fn add_symbol(&mut self, name: &str, value: u32) -> Result<(), AllocError> {
        let place = size_of(self.names.as_slice());
        push_words(&mut self.symbols, &[place, value, 0, 0x0001_0002])?;
        self.names.extend_from_slice(name.as_bytes())?;
        self.names.push(0)?;
        Ok(())
    }

    /// The bytes of the file: headers, code, symbols, names, and three section headers.
    pub fn bytes(&self, alloc: Global) -> Result<Vec<u8>, AllocError> {
        let size = size_of(self.code.as_slice());
        let symbols_size = size_of(self.symbols.as_slice());
        let names_size = size_of(self.names.as_slice());
        let at_code = 52u32.wrapping_add(u32::from(self.headers).wrapping_mul(32));
        let at_symbols = at_code.wrapping_add(size);
        let at_names = at_symbols.wrapping_add(symbols_size);
        let at_sections = at_names.wrapping_add(names_size);
        let mut bytes = Vec::from_slice(alloc, &HEAD)?;
        push_words(&mut bytes, &[at_sections, 0])?;
        push_halves(&mut bytes, &[52, 32, self.headers, 40, 3, 0])?;
        for _header in 0..self.headers {
            push_words(
                &mut bytes,
                &[1, at_code, self.address, self.address, size, size, 5, 4],
            )?;
        }
        bytes.extend_from_slice(self.code.as_slice())?;
        bytes.extend_from_slice(self.symbols.as_slice())?;
        bytes.extend_from_slice(self.names.as_slice())?;
        push_words(&mut bytes, &[0; 10])?;
        push_words(
            &mut bytes,
            &[0, 2, 0, 0, at_symbols, symbols_size, 2, 0, 0, 16],
        )?;
        push_words(&mut bytes, &[0, 3, 0, 0, at_names, names_size, 0, 0, 0, 0])?;
        Ok(bytes)
    }
}
