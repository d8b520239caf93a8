//! Fields of an instruction word.

ghost use Rattle.std.specs.Prelude.{◌≡◌, ◌≤◌};
ghost use Rattle.arm_isa.specs.Fields.{field, flag};

/// The register number in the four bits from `low` upward.
#[inline(always)]
pub fn register(word: u32, low: u32) -> u8
    requires { low ≤ 28 }
    ensures { result ≡ field word low 4 }
{
    ((word >> low) % 16) as u8
}

/// The bit at a place.
#[inline(always)]
pub fn is_set(word: u32, place: u32) -> bool
    requires { place ≤ 31 }
    ensures { result ≡ flag word place }
{
    (word >> place) % 2 == 1
}
