//! Reads decimal numbers.

ghost use Rattle.std.specs.Prelude.{◌≡◌, ◌<◌, IfSome};
ghost use Rattle.report_elements.specs.Numbers.{number_below};

/// The number below a limit that a word of digits writes.
pub fn number(word: &[u8], limit: u128) -> Option<u128>
    requires { 0 < limit }
    ensures exact { result ≡ number_below limit 0 word.now }
    ensures within { IfSome result (λ n. n < limit) }
{
    let mut number = 0_u128;
    for byte in word {
        let byte = *byte;
        if byte < 48 || 57 < byte {
            return None;
        }
        number = number.checked_mul(10)?.checked_add(u128::from(byte - 48))?;
        if number >= limit {
            return None;
        }
    }
    Some(number)
}
