//! Numbers in words.

ghost use Rattle.std.specs.Prelude.{◌≡◌, ◌<◌, ◌≤◌, ◌^◌, pos, negsuc};
ghost use Rattle.std.specs.Prelude.{◌≤ℤ◌, ◌-ℤ◌, Some, None, IfSome, length, option_and_then};
ghost use Rattle.command_words.specs.Numerals.{address_of, decimal_after, decimal_digit, hex_after, hex_digit};
ghost use Rattle.command_words.specs.Numerals.{is_plain, number_within, signed_number, signed_within, wide_number};
ghost use Rattle.command_words.specs.Numerals.{within};

/// The decimal number without leading zeros that digits spell, if it is from `least` to `most`.
pub(crate) fn number(digits: &[u8], least: u64, most: u64) -> Option<u64>
    requires { most ≤ 1000000000000 }
    ensures value { result ≡ number_within least most digits.now }
    ensures limits { IfSome result (λ n. (least ≤ n) × (n ≤ most)) }
{
    if is_plain(digits) {
        decimal_number(digits, least, most)
    } else {
        None
    }
}

/// Whether there is a digit, and no zero leads others.
fn is_plain(digits: &[u8]) -> bool
    ensures { result ≡ is_plain digits.now }
{
    match digits.split_first() {
        Some((first, others)) => !(*first == b'0' && 1 <= others.len()),
        None => false,
    }
}

/// The number that decimal digits spell, if it is from `least` to `most`. It stops at the digit that passes `most`.
#[tactic(auto, using(crate::proofs::Digits::too_great))]
fn decimal_number(digits: &[u8], least: u64, most: u64) -> Option<u64>
    requires { most ≤ 1000000000000 }
    ensures value { result ≡ option_and_then (within least most) (decimal_after 0 digits.now) }
    ensures limits { IfSome result (λ n. (least ≤ n) × (n ≤ most)) }
{
    let mut value: u64 = 0;
    for digit in digits {
        value = value * 10 + u64::from(decimal_digit(*digit)?);
        if most < value {
            return None;
        }
    }
    if least <= value { Some(value) } else { None }
}

fn decimal_digit(byte: u8) -> Option<u8>
    ensures value { result ≡ decimal_digit byte }
    ensures small { IfSome result (λ digit. digit < 10) }
{
    match byte {
        b'0'..=b'9' => Some(byte - b'0'),
        _ => None,
    }
}

/// The signed number that a text spells, with `-` before a number other than 0: of a magnitude of at most `least`
/// below 0, and of at most `most` above.
fn signed(text: &[u8], least: u64, most: u64) -> Option<i64>
    requires least { least ≤ 1000000000000 }
    requires most { most ≤ 1000000000000 }
    ensures value { result ≡ signed_within least most text.now }
    ensures low { IfSome result (λ z. (pos 0 -ℤ pos least) ≤ℤ z) }
    ensures high { IfSome result (λ z. z ≤ℤ pos most) }
{
    let (first, others) = text.split_first()?;
    if *first == b'-' {
        Some(-(number(others, 1, least)? as i64))
    } else {
        Some(number(text, 0, most)? as i64)
    }
}

/// The signed number of 32 bits that a text spells.
pub(crate) fn signed_number(text: &[u8]) -> Option<i32>
    ensures value { result ≡ signed_number text.now }
    ensures low { IfSome result (λ z. negsuc 2147483647 ≤ℤ z) }
    ensures high { IfSome result (λ z. z ≤ℤ pos 2147483647) }
{
    Some(signed(text, 2147483648, 2147483647)? as i32)
}

/// The signed number of at most 10 digits that a text spells.
pub(crate) fn wide_number(text: &[u8]) -> Option<i64>
    ensures { result ≡ wide_number text.now }
{
    signed(text, 9999999999, 9999999999)
}

/// The address that `0x` and 1 to 8 hexadecimal digits spell.
pub(crate) fn address(word: &str) -> Option<u32>
    ensures { result ≡ address_of word.now }
{
    let (zero, rest) = word.as_bytes().split_first()?;
    let (x, digits) = rest.split_first()?;
    if *zero == b'0' && *x == b'x' && 1 <= digits.len() && digits.len() <= 8 {
        hex_number(digits)
    } else {
        None
    }
}

/// The number that hexadecimal digits spell.
#[tactic(auto, using(crate::proofs::Digits::hex_room, crate::proofs::Digits::hex_more))]
fn hex_number(digits: &[u8]) -> Option<u32>
    requires { length digits.now ≤ 8 }
    ensures { result ≡ hex_after 0 digits.now }
{
    let mut value: u32 = 0;
    for digit in digits {
        value = value * 16 + u32::from(hex_digit(*digit)?);
    }
    Some(value)
}

fn hex_digit(byte: u8) -> Option<u8>
    ensures value { result ≡ hex_digit byte }
    ensures small { IfSome result (λ digit. digit < 16) }
{
    match byte {
        b'0'..=b'9' => Some(byte - b'0'),
        b'a'..=b'f' => Some(byte - b'a' + 10),
        b'A'..=b'F' => Some(byte - b'A' + 10),
        _ => None,
    }
}
