//! Instructions as the architecture manual names their parts.

use crate::conditions::Condition;
use crate::opcodes::Opcode;

/// One instruction: under which condition it is done, and what it does.
#[derive(Clone, Copy, Debug)]
pub struct Insn {
    /// What it asks of the flags.
    pub condition: Condition,
    /// What it does where its condition passes.
    pub op: Op,
}

/// What an instruction does. Registers are 0 to 15 under the manual's names for the fields (`rn`, `rd`,
/// `rs`, `rm`). The S bit is `set_flags` everywhere: whether the result sets the flags.
#[derive(Clone, Copy, Debug)]
pub enum Op {
    /// One of the sixteen data-processing operations.
    Compute(DataProcessing),
    /// MUL and MLA.
    Multiply(Multiply),
    /// UMULL, UMLAL, SMULL and SMLAL.
    MultiplyLong(LongMultiply),
    /// LDR, STR, LDRB and STRB.
    Word(WordTransfer),
    /// LDRH, STRH, LDRSB and LDRSH.
    Half(HalfTransfer),
    /// LDM and STM.
    Block(BlockTransfer),
    /// B and BL.
    Branch(Branch),
    /// BX.
    Exchange(BranchExchange),
}

/// Data processing. Tests (TST, TEQ, CMP and CMN) have 0 in `rd`, MOV and MVN in `rn`.
#[derive(Clone, Copy, Debug)]
pub struct DataProcessing {
    /// The operation.
    pub opcode: Opcode,
    /// The S bit; tests have it always.
    pub set_flags: bool,
    /// The first operand.
    pub rn: u8,
    /// The destination.
    pub rd: u8,
    /// The second operand.
    pub operand: Operand,
}

/// MUL, the low 32 bits of Rm × Rs; or MLA, of Rm × Rs + Rn.
#[derive(Clone, Copy, Debug)]
pub struct Multiply {
    /// Whether it is MLA. MUL has 0 in `rn`.
    pub accumulate: bool,
    /// The S bit.
    pub set_flags: bool,
    /// The destination.
    pub rd: u8,
    /// What is added.
    pub rn: u8,
    /// The second factor.
    pub rs: u8,
    /// The first factor.
    pub rm: u8,
}

/// UMULL, UMLAL, SMULL and SMLAL: the 64 bits of Rm × Rs, to two registers.
#[derive(Clone, Copy, Debug)]
pub struct LongMultiply {
    /// Whether the factors are signed.
    pub signed: bool,
    /// Whether the product is added to the two registers.
    pub accumulate: bool,
    /// The S bit.
    pub set_flags: bool,
    /// The register of the upper half.
    pub rd_hi: u8,
    /// The register of the lower half, another one.
    pub rd_lo: u8,
    /// The second factor.
    pub rs: u8,
    /// The first factor.
    pub rm: u8,
}

/// A load or store of a word or an unsigned byte.
#[derive(Clone, Copy, Debug)]
pub struct WordTransfer {
    /// Whether it loads.
    pub load: bool,
    /// Whether it moves a byte in place of a word.
    pub byte: bool,
    /// When the offset counts.
    pub index: Index,
    /// Whether the offset is added; else it is subtracted.
    pub up: bool,
    /// The base.
    pub rn: u8,
    /// The register that is loaded or stored.
    pub rd: u8,
    /// What the base is changed by.
    pub offset: Offset,
}

/// A load or store of a halfword, or a load of a signed byte.
#[derive(Clone, Copy, Debug)]
pub struct HalfTransfer {
    /// Whether it loads.
    pub load: bool,
    /// What it moves.
    pub kind: HalfKind,
    /// When the offset counts.
    pub index: Index,
    /// Whether the offset is added; else it is subtracted.
    pub up: bool,
    /// The base.
    pub rn: u8,
    /// The register that is loaded or stored.
    pub rd: u8,
    /// What the base is changed by.
    pub offset: Offset,
}

/// A load or store of several registers, the lowest at the lowest address.
#[derive(Clone, Copy, Debug)]
pub struct BlockTransfer {
    /// Whether it loads.
    pub load: bool,
    /// The P bit: whether the word at the base's own address is left out.
    pub before: bool,
    /// The U bit: whether the words stand above the base; else below.
    pub up: bool,
    /// Whether the base gets the address after the block.
    pub write_back: bool,
    /// The base.
    pub rn: u8,
    /// Bit K stands for register K.
    pub list: u16,
}

/// B, or with `link` BL. The target is the instruction's address + 8 + 4 × `words`.
#[derive(Clone, Copy, Debug)]
pub struct Branch {
    /// Whether r14 gets the address of the next instruction.
    pub link: bool,
    /// The signed number of words, −2^23 to 2^23 − 1.
    pub words: i32,
}

/// BX, to the address in a register.
#[derive(Clone, Copy, Debug)]
pub struct BranchExchange {
    /// The register.
    pub rm: u8,
}

/// The second operand of a data-processing instruction.
#[derive(Clone, Copy, Debug)]
pub enum Operand {
    /// A constant. `rotated` says that its encoding rotates the byte, in which case the shifter gives a carry.
    Value { value: u32, rotated: bool },
    /// A register, shifted by a constant amount. An unshifted one has `Lsl(0)`.
    Shifted { rm: u8, shift: Shift },
    /// A register, shifted by the low byte of `rs`.
    ByRegister { rm: u8, kind: ShiftKind, rs: u8 },
}

/// The kinds of shift by a register.
#[derive(Clone, Copy, Debug)]
pub enum ShiftKind {
    /// Logical shift left, filled with zeros.
    Lsl,
    /// Logical shift right, filled with zeros.
    Lsr,
    /// Arithmetic shift right, filled with the sign.
    Asr,
    /// Rotate right.
    Ror,
}

/// A shift by a constant amount: `Lsl` 0 to 31, `Lsr` and `Asr` 1 to 32, `Ror` 1 to 31.
#[derive(Clone, Copy, Debug)]
pub enum Shift {
    /// To the left, filled with zeros.
    Lsl(u8),
    /// To the right, filled with zeros.
    Lsr(u8),
    /// To the right, filled with the sign.
    Asr(u8),
    /// Rotated to the right.
    Ror(u8),
    /// Rotated to the right by one place through the carry flag.
    Rrx,
}

/// What an address is changed by, in bytes.
#[derive(Clone, Copy, Debug)]
pub enum Offset {
    /// A constant: 0 to 4095 for a word or byte, 0 to 255 for the rest.
    Value(u32),
    /// A register, shifted by a constant amount. An unshifted one has `Lsl(0)`.
    Shifted { rm: u8, shift: Shift },
}

/// When the offset counts, and whether the base register keeps the changed address.
#[derive(Clone, Copy, Debug)]
pub enum Index {
    /// The access is at the changed address, and the base stays.
    Before,
    /// The access is at the changed address, which the base gets.
    BeforeBack,
    /// The access is at the base, which gets the changed address after it.
    After,
}

/// What a halfword instruction moves.
#[derive(Clone, Copy, Debug)]
pub enum HalfKind {
    /// 16 bits, filled with zeros.
    Half,
    /// 8 bits, filled with the sign.
    SignedByte,
    /// 16 bits, filled with the sign.
    SignedHalf,
}

/// The classes by which time is counted.
#[derive(Clone, Copy, Debug, PartialEq, Eq)]
pub enum Class {
    /// Data processing, its operand a constant or a register shifted by a constant amount.
    Compute,
    /// Data processing with a shift by a register.
    Shifted,
    /// MUL and MLA.
    Multiply,
    /// UMULL, UMLAL, SMULL and SMLAL.
    Long,
    /// LDR, LDRB, LDRH, LDRSB and LDRSH.
    Load,
    /// STR, STRB and STRH.
    Store,
    /// LDM.
    LoadMany,
    /// STM.
    StoreMany,
    /// B.
    Branch,
    /// BL.
    Call,
    /// BX.
    Exchange,
}
