//! The parts of a word after the places.

ghost use Rattle.std.specs.Prelude.{◌≡◌, ◌≤◌, ◌<◌, ◌%◌, true, false, IfSome, IfNone};
ghost use Rattle.std.specs.List.{list_all};
ghost use Rattle.command_words.specs.Parts.{after_mark, before_mark, has_equals_sign, has_mark, is_letter, is_name};
ghost use Rattle.command_words.specs.Parts.{is_name_byte, key_of, register_of, stack_of, text_of};

use crate::numerals::number;

/// The bytes of stack where no size is given.
pub(crate) const DEFAULT_STACK: u32 = 4096;

/// The most bytes of stack.
const MOST_STACK: u64 = 1_048_576;

/// What stands before the first `=` of a word, and what stands after it.
#[tactic(auto, using(crate::proofs::Marks::found_first, crate::proofs::Marks::none_first))]
pub(crate) fn cut(word: &str) -> Option<(&str, &str)>
    ensures some { IfSome result (λ p. (has_equals_sign word.now ≡ true)
        × (p.0.now ≡ key_of word.now) × (p.1.now ≡ text_of word.now)) }
    ensures none { IfNone result (has_equals_sign word.now ≡ false) }
{
    word.split_once('=')
}

/// What stands before the first `:` of a text, and what stands after it.
#[tactic(auto, using(crate::proofs::Marks::found_first, crate::proofs::Marks::none_first))]
pub(crate) fn cut_at_colon(text: &str) -> Option<(&str, &str)>
    ensures some { IfSome result (λ p. (has_mark 58 text.now ≡ true)
        × (p.0.now ≡ before_mark 58 text.now) × (p.1.now ≡ after_mark 58 text.now)) }
    ensures none { IfNone result (has_mark 58 text.now ≡ false) }
{
    text.split_once(':')
}

/// What stands before the first `.` of a text, and what stands after it.
#[tactic(auto, using(crate::proofs::Marks::found_first, crate::proofs::Marks::none_first))]
pub(crate) fn cut_at_dot(text: &str) -> Option<(&str, &str)>
    ensures some { IfSome result (λ p. (has_mark 46 text.now ≡ true)
        × (p.0.now ≡ before_mark 46 text.now) × (p.1.now ≡ after_mark 46 text.now)) }
    ensures none { IfNone result (has_mark 46 text.now ≡ false) }
{
    text.split_once('.')
}

/// An ASCII letter followed by at most 15 letters, digits or `_`.
pub(crate) fn is_name(text: &str) -> bool
    ensures { result ≡ is_name text.now }
{
    match text.as_bytes().split_first() {
        Some((first, others)) => is_letter(*first) && others.len() <= 15 && are_name_bytes(others),
        None => false,
    }
}

fn are_name_bytes(bytes: &[u8]) -> bool
    ensures { result ≡ list_all is_name_byte bytes.now }
{
    for byte in bytes {
        if !is_name_byte(*byte) {
            return false;
        }
    }
    true
}

fn is_name_byte(byte: u8) -> bool
    ensures { result ≡ is_name_byte byte }
{
    is_letter(byte) || (b'0' <= byte && byte <= b'9') || byte == b'_'
}

fn is_letter(byte: u8) -> bool
    ensures { result ≡ is_letter byte }
{
    (b'A' <= byte && byte <= b'Z') || (b'a' <= byte && byte <= b'z')
}

/// The register of `r0` to `r12`.
pub(crate) fn register_of(text: &str) -> Option<u8>
    ensures value { result ≡ register_of text.now }
    ensures limit { IfSome result (λ k. k < 13) }
{
    let (r, digits) = text.as_bytes().split_first()?;
    if *r == b'r' {
        Some(number(digits, 0, 12)? as u8)
    } else {
        None
    }
}

/// The size of a stack in bytes: a multiple of 4, at most 1,048,576.
pub(crate) fn stack_size(text: &str) -> Option<u32>
    ensures value { result ≡ stack_of text.now }
    ensures limits { IfSome result (λ n. (n ≤ 1048576) × (n % 4 ≡ 0)) }
{
    let size = number(text.as_bytes(), 0, MOST_STACK)?;
    if size % 4 == 0 {
        Some(size as u32)
    } else {
        None
    }
}
