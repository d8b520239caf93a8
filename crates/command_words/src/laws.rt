//! What the definitions of words mean, in other terms.

ghost use Rattle.std.specs.Prelude.{◌≡◌, ◌↔◌, ◌<◌, ◌≤◌, ◌^◌, ℕ, List, Some};
ghost use Rattle.std.specs.Fmt.{decimal};
ghost use Rattle.command_words.specs.Numerals.{number_within};

/// A text spells a number below 2^64 within two limits exactly where it is what `{}` writes of the number, and
/// the number is within the limits.
pub fn numbers_are_decimal()
    ensures { (least most : ℕ) (text : List ℕ) (n : ℕ) → n < 2 ^ 64 →
        (number_within least most text ≡ Some n) ↔ ((text ≡ decimal n) × (least ≤ n) × (n ≤ most)) }
{}
