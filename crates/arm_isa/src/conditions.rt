//! Conditions and the flags that they ask.

ghost use Rattle.std.specs.Prelude.{◌≡◌};
ghost use Rattle.arm_isa.specs.Conditions.{condition_numbered, condition_passes, is_always};

/// The four condition flags.
#[derive(Clone, Copy, Debug)]
pub struct Flags {
    /// Negative.
    pub n: bool,
    /// Zero.
    pub z: bool,
    /// Carry, or no borrow.
    pub c: bool,
    /// Signed overflow.
    pub v: bool,
}

/// What an instruction asks of the flags to be done (chapter A3 of the architecture manual, "The condition field").
#[derive(Clone, Copy, Debug)]
pub enum Condition {
    /// Equal.
    Eq,
    /// Not equal.
    Ne,
    /// Carry set: unsigned higher or same.
    Cs,
    /// Carry clear: unsigned lower.
    Cc,
    /// Minus: negative.
    Mi,
    /// Plus: positive or zero.
    Pl,
    /// Overflow.
    Vs,
    /// No overflow.
    Vc,
    /// Unsigned higher.
    Hi,
    /// Unsigned lower or same.
    Ls,
    /// Signed greater than or equal.
    Ge,
    /// Signed less than.
    Lt,
    /// Signed greater than.
    Gt,
    /// Signed less than or equal.
    Le,
    /// Always.
    Al,
}

impl Condition {
    /// The condition that a condition field (bits 31:28) of 0 to 14 stands for. A field of 15 stands for none; here
    /// it gives what 14 does.
    // The arms stand in the order of the numbers, so that the match compiles to a copy of the number.
    #[inline(always)]
    pub fn from_number(number: u8) -> Self
        ensures { result ≡ condition_numbered number }
    {
        match number {
            0 => Condition::Eq,
            1 => Condition::Ne,
            2 => Condition::Cs,
            3 => Condition::Cc,
            4 => Condition::Mi,
            5 => Condition::Pl,
            6 => Condition::Vs,
            7 => Condition::Vc,
            8 => Condition::Hi,
            9 => Condition::Ls,
            10 => Condition::Ge,
            11 => Condition::Lt,
            12 => Condition::Gt,
            13 => Condition::Le,
            _ => Condition::Al,
        }
    }

    /// Whether the condition passes under the flags.
    pub fn passes(self, flags: Flags) -> bool
        ensures { result ≡ condition_passes self flags }
    {
        match self {
            Condition::Eq => flags.z,
            Condition::Ne => !flags.z,
            Condition::Cs => flags.c,
            Condition::Cc => !flags.c,
            Condition::Mi => flags.n,
            Condition::Pl => !flags.n,
            Condition::Vs => flags.v,
            Condition::Vc => !flags.v,
            Condition::Hi => flags.c && !flags.z,
            Condition::Ls => !flags.c || flags.z,
            Condition::Ge => flags.n == flags.v,
            Condition::Lt => flags.n != flags.v,
            Condition::Gt => !flags.z && flags.n == flags.v,
            Condition::Le => flags.z || flags.n != flags.v,
            Condition::Al => true,
        }
    }

    /// Whether this is AL, which passes under all flags by its name. (No other one does.)
    #[inline(always)]
    pub fn is_always(self) -> bool
        ensures { result ≡ is_always self }
    {
        matches!(self, Condition::Al)
    }
}
