//! The operations of data processing.

ghost use Rattle.std.specs.Prelude.{◌≡◌};
ghost use Rattle.arm_isa.specs.Opcodes.{is_move, is_test, opcode_numbered};

/// What a data-processing instruction computes of its first operand, Rn, and its second, the shifter operand
/// (chapter A3 of the architecture manual, "Data-processing instructions").
#[derive(Clone, Copy, Debug)]
pub enum Opcode {
    /// Logical AND.
    And,
    /// Logical exclusive OR.
    Eor,
    /// Subtract.
    Sub,
    /// Reverse subtract: the first operand from the second.
    Rsb,
    /// Add.
    Add,
    /// Add with carry.
    Adc,
    /// Subtract with carry.
    Sbc,
    /// Reverse subtract with carry.
    Rsc,
    /// Test: as AND, for its flags alone.
    Tst,
    /// Test equivalence: as EOR, for its flags alone.
    Teq,
    /// Compare: as SUB, for its flags alone.
    Cmp,
    /// Compare negated: as ADD, for its flags alone.
    Cmn,
    /// Logical inclusive OR.
    Orr,
    /// Move the second operand.
    Mov,
    /// Bit clear: AND with the second operand's bits turned.
    Bic,
    /// Move the second operand's bits turned.
    Mvn,
}

impl Opcode {
    /// The operation that an opcode field (bits 24:21, so 0 to 15) stands for.
    // The arms stand in the order of the numbers, so that the match compiles to a copy of the number.
    #[inline(always)]
    pub fn from_number(number: u8) -> Self
        ensures { result ≡ opcode_numbered number }
    {
        match number {
            0 => Opcode::And,
            1 => Opcode::Eor,
            2 => Opcode::Sub,
            3 => Opcode::Rsb,
            4 => Opcode::Add,
            5 => Opcode::Adc,
            6 => Opcode::Sbc,
            7 => Opcode::Rsc,
            8 => Opcode::Tst,
            9 => Opcode::Teq,
            10 => Opcode::Cmp,
            11 => Opcode::Cmn,
            12 => Opcode::Orr,
            13 => Opcode::Mov,
            14 => Opcode::Bic,
            _ => Opcode::Mvn,
        }
    }

    /// Whether this is TST, TEQ, CMP or CMN, which write no register.
    #[inline(always)]
    pub fn is_test(self) -> bool
        ensures { result ≡ is_test self }
    {
        matches!(self, Opcode::Tst | Opcode::Teq | Opcode::Cmp | Opcode::Cmn)
    }

    /// Whether this is MOV or MVN, which read no first operand.
    #[inline(always)]
    pub fn is_move(self) -> bool
        ensures { result ≡ is_move self }
    {
        matches!(self, Opcode::Mov | Opcode::Mvn)
    }
}
