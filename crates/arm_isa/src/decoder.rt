//! The decoder. A word goes by its bits 27:25 to the few lines of the table that can fit it, each of them a
//! function of its own.

ghost use Rattle.std.specs.Prelude.{◌≡◌, true, false, IfSome};
ghost use Rattle.arm_isa.specs.Decoding.{block_op, block_refused, branch_op, compute_op, compute_refused, condition_field, decoding, exchange_op, exchange_refused, first_fit, half_op, half_refused, index_field, index_refused, long_op, long_refused, multiply_op, multiply_refused, opcode_field, operand_field, shift_field, shift_kind_field, shift_refused, table, unless, word_op, word_refused};
ghost use Rattle.arm_isa.specs.Fields.{field, flag};
ghost use Rattle.arm_isa.specs.Guarantees.{IsGuarded};
ghost use Rattle.arm_isa.specs.Ranges.{IsInsn};

use crate::conditions::Condition;
use crate::fields::{is_set, register};
use crate::instruction::{
    BlockTransfer, Branch, BranchExchange, DataProcessing, HalfKind, HalfTransfer, Index, Insn,
    LongMultiply, Multiply, Offset, Op, Operand, Shift, ShiftKind, WordTransfer,
};
use crate::opcodes::Opcode;

/// The number of pc, which most fields may not name.
const PC: u8 = 15;

/// Decodes a word. `None` exactly where the table of encodings has no line that fits, or where the first
/// line that fits refuses the word (`docs/DECODING.md` has the table in words). Each field of a decoded
/// instruction lies in the range that its type gives, and the instruction is none that the table refuses: so its
/// registers differ where the manual leaves the result open if they don't.
// Inlined into each caller, with what sorts a word, since it is most of what a step of the machine does.
#[inline(always)]
#[tactic(auto, using(crate::proofs::TableLemmas::below_fifteen))]
pub fn decode(word: u32) -> Option<Insn>
    ensures decoded { result ≡ decoding word }
    ensures ranges { IfSome result IsInsn }
    ensures guarded { IfSome result (λ insn. IsGuarded insn.op) }
{
    if register(word, 28) == 15 {
        return None;
    }
    by_class(word)
}

/// What the table says of a word, whose condition isn't 15.
#[inline(always)]
#[tactic(auto, using(crate::proofs::TableLemmas::to_compute, crate::proofs::TableLemmas::to_word_constant, crate::proofs::TableLemmas::to_word_register, crate::proofs::TableLemmas::to_media, crate::proofs::TableLemmas::to_block, crate::proofs::TableLemmas::to_branch, crate::proofs::TableLemmas::to_nothing))]
fn by_class(word: u32) -> Option<Insn>
    ensures { result ≡ first_fit table word }
{
    match (word >> 25) % 8 {
        0 => register_form(word),
        1 => decode_compute(word),
        2 => decode_word(word),
        3 => {
            if is_set(word, 4) {
                None
            } else {
                decode_word(word)
            }
        }
        4 => decode_block(word),
        5 => decode_branch(word),
        _ => None,
    }
}

/// A word whose bits 27:25 are 000.
#[inline(always)]
#[tactic(auto, using(crate::proofs::TableLemmas::to_exchange, crate::proofs::TableLemmas::to_compute_register))]
fn register_form(word: u32) -> Option<Insn>
    requires { field word 25 3 ≡ 0 }
    ensures { result ≡ first_fit table word }
{
    if (word >> 4) % (1 << 24) == 0x12FFF1 {
        decode_exchange(word)
    } else if is_set(word, 7) && is_set(word, 4) {
        extension(word)
    } else {
        decode_compute(word)
    }
}

/// A word whose bits 27:25 are 000 and whose bits 7 and 4 are 1.
fn extension(word: u32) -> Option<Insn>
    requires class { field word 25 3 ≡ 0 }
    requires upper { flag word 7 ≡ true }
    requires lower { flag word 4 ≡ true }
    ensures { result ≡ first_fit table word }
{
    if (word >> 5) % 4 > 0 {
        decode_half(word)
    } else if (word >> 23) % 4 == 1 {
        decode_long(word)
    } else if (word >> 22) % 8 == 0 {
        decode_multiply(word)
    } else {
        None
    }
}

/// The instruction under the word's condition.
#[inline(always)]
fn under_condition(word: u32, op: Op) -> Option<Insn>
    ensures { result ≡ Some (record { condition = condition_field word; op = op }) }
{
    let condition = Condition::from_number(register(word, 28));
    Some(Insn { condition, op })
}

fn decode_exchange(word: u32) -> Option<Insn>
    ensures { result ≡ unless exchange_refused exchange_op word }
{
    let rm = register(word, 0);
    if rm == PC {
        None
    } else {
        under_condition(word, Op::Exchange(BranchExchange { rm }))
    }
}

fn decode_multiply(word: u32) -> Option<Insn>
    ensures { result ≡ unless multiply_refused multiply_op word }
{
    let accumulate = is_set(word, 21);
    let (rd, rn) = (register(word, 16), register(word, 12));
    let (rs, rm) = (register(word, 8), register(word, 0));
    if rd == PC || rn == PC || rs == PC || rm == PC || !accumulate && rn != 0 {
        return None;
    }
    let op = Op::Multiply(Multiply {
        accumulate,
        set_flags: is_set(word, 20),
        rd,
        rn,
        rs,
        rm,
    });
    under_condition(word, op)
}

fn decode_long(word: u32) -> Option<Insn>
    ensures { result ≡ unless long_refused long_op word }
{
    let (rd_hi, rd_lo) = (register(word, 16), register(word, 12));
    let (rs, rm) = (register(word, 8), register(word, 0));
    if rd_hi == PC || rd_lo == PC || rs == PC || rm == PC || rd_hi == rd_lo {
        return None;
    }
    let op = Op::MultiplyLong(LongMultiply {
        signed: is_set(word, 22),
        accumulate: is_set(word, 21),
        set_flags: is_set(word, 20),
        rd_hi,
        rd_lo,
        rs,
        rm,
    });
    under_condition(word, op)
}

fn decode_half(word: u32) -> Option<Insn>
    ensures { result ≡ unless half_refused half_op word }
{
    let load = is_set(word, 20);
    let by_register = !is_set(word, 22);
    let (rd, rm) = (register(word, 12), register(word, 0));
    let upper = register(word, 8);
    let moved = (word >> 5) % 4;
    if !load && moved != 1
        || rd == PC
        || by_register && upper != 0
        || is_index_refused(word, by_register)
    {
        return None;
    }
    let kind = match moved {
        1 => HalfKind::Half,
        2 => HalfKind::SignedByte,
        _ => HalfKind::SignedHalf,
    };
    let offset = if by_register {
        Offset::Shifted {
            rm,
            shift: Shift::Lsl(0),
        }
    } else {
        Offset::Value(16 * u32::from(upper) + u32::from(rm))
    };
    let op = Op::Half(HalfTransfer {
        load,
        kind,
        index: index_of(word),
        up: is_set(word, 23),
        rn: register(word, 16),
        rd,
        offset,
    });
    under_condition(word, op)
}

/// Data processing. Inlined at both its calls, so that the instruction is made in registers.
#[inline(always)]
fn decode_compute(word: u32) -> Option<Insn>
    ensures { result ≡ unless compute_refused compute_op word }
{
    if is_compute_refused(word) {
        return None;
    }
    let op = Op::Compute(DataProcessing {
        opcode: opcode_of(word),
        set_flags: is_set(word, 20),
        rn: register(word, 16),
        rd: register(word, 12),
        operand: operand_of(word),
    });
    under_condition(word, op)
}

fn is_compute_refused(word: u32) -> bool
    ensures { result ≡ compute_refused word }
{
    let set_flags = is_set(word, 20);
    let (opcode, rn, rd) = (opcode_of(word), register(word, 16), register(word, 12));
    if opcode.is_test() {
        !set_flags || rd != 0 || is_shift_refused(word)
    } else {
        opcode.is_move() && rn != 0 || set_flags && rd == PC || is_shift_refused(word)
    }
}

#[inline(always)]
fn opcode_of(word: u32) -> Opcode
    ensures { result ≡ opcode_field word }
{
    Opcode::from_number(register(word, 21))
}

/// Whether a shift by a register stands beside r15.
fn is_shift_refused(word: u32) -> bool
    ensures { result ≡ shift_refused word }
{
    !is_set(word, 25)
        && is_set(word, 4)
        && (register(word, 16) == PC
            || register(word, 12) == PC
            || register(word, 8) == PC
            || register(word, 0) == PC)
}

fn operand_of(word: u32) -> Operand
    ensures { result ≡ operand_field word }
{
    let rm = register(word, 0);
    if is_set(word, 25) {
        let turns = 2 * ((word >> 8) % 16);
        Operand::Value {
            value: (word % 256).rotate_right(turns),
            rotated: turns != 0,
        }
    } else if is_set(word, 4) {
        Operand::ByRegister {
            rm,
            kind: shift_kind_of(word),
            rs: register(word, 8),
        }
    } else {
        Operand::Shifted {
            rm,
            shift: shift_of(word),
        }
    }
}

#[inline(always)]
fn shift_kind_of(word: u32) -> ShiftKind
    ensures { result ≡ shift_kind_field word }
{
    match (word >> 5) % 4 {
        0 => ShiftKind::Lsl,
        1 => ShiftKind::Lsr,
        2 => ShiftKind::Asr,
        _ => ShiftKind::Ror,
    }
}

/// A shift by a constant: an amount of 0 stands for 32 places to the right, and at ROR for RRX.
fn shift_of(word: u32) -> Shift
    ensures { result ≡ shift_field word }
{
    let amount = ((word >> 7) % 32) as u8;
    let right = if amount == 0 { 32 } else { amount };
    match shift_kind_of(word) {
        ShiftKind::Lsl => Shift::Lsl(amount),
        ShiftKind::Lsr => Shift::Lsr(right),
        ShiftKind::Asr => Shift::Asr(right),
        ShiftKind::Ror => {
            if amount == 0 {
                Shift::Rrx
            } else {
                Shift::Ror(amount)
            }
        }
    }
}

/// A load or store of a word or byte, inlined likewise.
#[inline(always)]
fn decode_word(word: u32) -> Option<Insn>
    ensures { result ≡ unless word_refused word_op word }
{
    let (load, byte) = (is_set(word, 20), is_set(word, 22));
    let by_register = is_set(word, 25);
    let rd = register(word, 12);
    if rd == PC && (!load || byte) || is_index_refused(word, by_register) {
        return None;
    }
    let offset = if by_register {
        Offset::Shifted {
            rm: register(word, 0),
            shift: shift_of(word),
        }
    } else {
        Offset::Value(word % 4096)
    };
    let op = Op::Word(WordTransfer {
        load,
        byte,
        index: index_of(word),
        up: is_set(word, 23),
        rn: register(word, 16),
        rd,
        offset,
    });
    under_condition(word, op)
}

fn index_of(word: u32) -> Index
    ensures { result ≡ index_field word }
{
    if !is_set(word, 24) {
        Index::After
    } else if is_set(word, 21) {
        Index::BeforeBack
    } else {
        Index::Before
    }
}

/// Whether the way of addressing rules the word out, its offset being the register in bits 3:0 or not.
fn is_index_refused(word: u32, by_register: bool) -> bool
    ensures { result ≡ index_refused word by_register }
{
    let (before, write) = (is_set(word, 24), is_set(word, 21));
    let (rn, rm) = (register(word, 16), register(word, 0));
    !before && write
        || by_register && rm == PC
        || (!before || write) && (rn == PC || rn == register(word, 12) || by_register && rn == rm)
}

fn decode_block(word: u32) -> Option<Insn>
    ensures { result ≡ unless block_refused block_op word }
{
    let (load, write_back) = (is_set(word, 20), is_set(word, 21));
    let rn = register(word, 16);
    let list = (word % (1 << 16)) as u16;
    if is_set(word, 22)
        || list == 0
        || !load && is_set(word, 15)
        || rn == PC
        || write_back && is_set(word, u32::from(rn))
    {
        return None;
    }
    let op = Op::Block(BlockTransfer {
        load,
        before: is_set(word, 24),
        up: is_set(word, 23),
        write_back,
        rn,
        list,
    });
    under_condition(word, op)
}

fn decode_branch(word: u32) -> Option<Insn>
    ensures { result ≡ unless (λ _. false) branch_op word }
{
    let offset = (word % (1 << 24)) as i32;
    let words = if offset < 1 << 23 {
        offset
    } else {
        offset - (1 << 24)
    };
    let op = Op::Branch(Branch {
        link: is_set(word, 24),
        words,
    });
    under_condition(word, op)
}
