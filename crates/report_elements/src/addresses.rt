//! Reads addresses.

ghost use Rattle.std.specs.Prelude.{◌≡◌};
ghost use Rattle.report_elements.specs.Words.{address_of};
ghost use Rattle.report_elements.specs.Hexadecimal.{hex_on};
ghost use Rattle.std.specs.Char.{digit_value};

use crate::words::byte_off;

/// The value of a hexadecimal digit; 16 or more for another byte.
fn digit(byte: u8) -> u32
    ensures { result ≡ digit_value byte }
{
    match char::from(byte).to_digit(36) {
        Some(value) => value,
        None => 36,
    }
}

fn hex(word: &[u8]) -> Option<u32>
    ensures { result ≡ hex_on 0 word.now }
{
    let mut number = 0_u64;
    for byte in word {
        let value = digit(*byte);
        if value >= 16 {
            return None;
        }
        number = number * 16 + u64::from(value);
        if number >= 1 << 32 {
            return None;
        }
    }
    Some(number as u32)
}

/// The address that a word writes.
pub fn address(word: &[u8]) -> Option<u32>
    ensures { result ≡ address_of word.now }
{
    hex(byte_off(byte_off(word)))
}
