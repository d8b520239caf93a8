//! The table of instructions.

ghost use Rattle.std.specs.Prelude.{◌≡◌, ◌+◌, ◌%◌, ◌^◌, ℕ, ℤ, Option, option_and_then};
ghost use Rattle.elf32_image.specs.Bytes.{constant_at};
ghost use Rattle.arm_isa.specs.declared.instruction.Op.TheVariants as op;
ghost use Rattle.arm_isa.specs.Writes.{is_one_word};
ghost use Rattle.arm_machine.specs.Transfers.{is_before_back, is_push, word_transfer};
ghost use Rattle.path_facts.specs.Facts.Location.{Register, StackWord};
ghost use Rattle.path_facts.specs.Histories.{literal_of};
ghost use Rattle.path_facts.specs.Sources.{indexed, loaded_source, mark_after, mark_of, return_source, source_of};
ghost use Rattle.path_facts.specs.Sources.{stack_source, written_source};
ghost use Rattle.point_steps.specs.Meanings.{source_meant};

use crate::blocks::{is_push_block, is_saved, loads_source, mark_after_stores, stores_source};
use crate::offsets::{
    based_access, block_access, half_access, indexed, is_tracked, load_source, word_access,
};
use crate::registers::{base_source, block_base_source, compute_source, literal_source};
use crate::source::{Location, Source};
use crate::words::{bytes_store_source, mark_after_store, word_store_source};
use arm_isa::{BlockTransfer, HalfTransfer, Index, Insn, Offset, Op, WordTransfer, may_write};
use elf32_image::Image;

/// What a load of a word or byte brings.
fn loaded_source(literal: Option<u32>, at: Option<u32>, byte: bool, rn: u8) -> Source
    ensures { source_meant result ≡ loaded_source literal at byte rn }
{
    if byte {
        Source::Nothing
    } else if rn == 15 {
        literal_source(literal)
    } else if rn == 13 {
        load_source(at)
    } else {
        Source::Nothing
    }
}

/// A register that a load or store of a word or byte writes.
fn word_written(
    literal: Option<u32>,
    offset: Option<i32>,
    this: WordTransfer,
    register: u8,
) -> Source
    ensures { (a : ℕ) → source_meant result ≡ written_source a literal offset (op.Word this) register }
{
    if this.load && register == this.rd {
        loaded_source(literal, word_access(offset, this), this.byte, this.rn)
    } else {
        base_source(this.up, this.rn, this.offset)
    }
}

/// A register that a load or store of a halfword writes.
fn half_written(this: HalfTransfer, register: u8) -> Source
    ensures { (a : ℕ) (literal : Option ℕ) (offset : Option ℤ)
        → source_meant result ≡ written_source a literal offset (op.Half this) register }
{
    if this.load && register == this.rd {
        Source::Nothing
    } else {
        base_source(this.up, this.rn, this.offset)
    }
}

/// A register that a load or store of several registers writes.
fn block_written(offset: Option<i32>, this: BlockTransfer, register: u8) -> Source
    ensures { (a : ℕ) (literal : Option ℕ)
        → source_meant result ≡ written_source a literal offset (op.Block this) register }
{
    let base = block_base_source(this, register);
    if this.load {
        loads_source(based_access(offset, this), this.list, register, base)
    } else {
        base
    }
}

/// A register that an instruction writes.
fn written_source(
    address: u32,
    literal: Option<u32>,
    offset: Option<i32>,
    op: Op,
    register: u8,
) -> Source
    ensures { source_meant result ≡ written_source address literal offset op register }
{
    match op {
        Op::Compute(this) => compute_source(address, this.opcode, this.rn, this.operand),
        Op::Multiply(_) => Source::Nothing,
        Op::MultiplyLong(_) => Source::Nothing,
        Op::Word(this) => word_written(literal, offset, this, register),
        Op::Half(this) => half_written(this, register),
        Op::Block(this) => block_written(offset, this, register),
        Op::Branch(_) => { Source::Constant(i64::from(address.wrapping_add(4).cast_signed())) }
        Op::Exchange(_) => Source::Nothing,
    }
}

/// The source of a register after an instruction at an address. `literal` is the word of the image that it loads by
/// r15, and `offset` how far r13 is from its start before it. Nothing is said of r15.
pub fn register_source(
    address: u32,
    literal: Option<u32>,
    offset: Option<i32>,
    insn: &Insn,
    register: u8,
) -> Source
    ensures { (stack : ℕ)
        → source_meant result ≡ source_of stack address literal offset insn.now.op (Register register) }
{
    if register < 15 {
        if may_write(insn, register) {
            written_source(address, literal, offset, insn.op, register)
        } else {
            Source::Copy(Location::Register(register))
        }
    } else {
        Source::Nothing
    }
}

/// A stack word after a load or store of a word or byte.
fn word_stored(offset: Option<i32>, this: WordTransfer, word: u32) -> Source
    ensures { source_meant result ≡ stack_source offset (op.Word this) word }
{
    if this.load {
        Source::Copy(Location::StackWord(word))
    } else if this.rn != 13 {
        Source::IfMarked(word)
    } else if this.byte {
        bytes_store_source(word_access(offset, this), 1, word)
    } else {
        let before = Source::Copy(Location::StackWord(word));
        word_store_source(word_access(offset, this), this.rd, word, before)
    }
}

/// A stack word after a load or store of a halfword.
fn half_stored(offset: Option<i32>, this: HalfTransfer, word: u32) -> Source
    ensures { source_meant result ≡ stack_source offset (op.Half this) word }
{
    if this.load {
        Source::Copy(Location::StackWord(word))
    } else if this.rn != 13 {
        Source::IfMarked(word)
    } else {
        bytes_store_source(half_access(offset, this), 2, word)
    }
}

/// A stack word after a load or store of several registers.
fn block_stored(offset: Option<i32>, this: BlockTransfer, word: u32) -> Source
    ensures { source_meant result ≡ stack_source offset (op.Block this) word }
{
    let before = Source::Copy(Location::StackWord(word));
    if this.load {
        before
    } else if this.rn != 13 {
        Source::IfMarked(word)
    } else {
        stores_source(block_access(offset, this), this.list, word, before)
    }
}

/// A stack word after an instruction.
fn stack_source(offset: Option<i32>, op: Op, word: u32) -> Source
    ensures { source_meant result ≡ stack_source offset op word }
{
    match op {
        Op::Word(this) => word_stored(offset, this, word),
        Op::Half(this) => half_stored(offset, this, word),
        Op::Block(this) => block_stored(offset, this, word),
        _ => Source::Copy(Location::StackWord(word)),
    }
}

/// The source of a stack word after an instruction, where the stack has this number of bytes. `offset` is how far r13
/// is from its start before it. Nothing is said of words outside the stack.
pub fn word_source(stack: u32, offset: Option<i32>, insn: &Insn, word: u32) -> Source
    ensures { (a : ℕ) (literal : Option ℕ)
        → source_meant result ≡ source_of stack a literal offset insn.now.op (StackWord word) }
{
    if is_tracked(stack, word) {
        stack_source(offset, insn.op, word)
    } else {
        Source::Nothing
    }
}

/// Whether an access is at the changed address, which the base gets.
fn is_before_back(index: Index) -> bool
    ensures { result ≡ is_before_back index }
{
    matches!(index, Index::BeforeBack)
}

/// Whether an offset is four bytes.
fn is_one_word(offset: Offset) -> bool
    ensures { result ≡ is_one_word offset }
{
    match offset {
        Offset::Value(bytes) => bytes == 4,
        Offset::Shifted { .. } => false,
    }
}

/// Whether a store is `STR Rd,[r13,#-4]!` of a register that calls save.
fn is_push(this: WordTransfer) -> bool
    ensures { result ≡ is_push (word_transfer this) }
{
    !this.byte
        && is_before_back(this.index)
        && !this.up
        && this.rn == 13
        && is_one_word(this.offset)
        && is_saved(this.rd)
}

/// Whether a stack word is marked after a load or store of a word or byte.
fn word_mark(offset: Option<i32>, this: WordTransfer, word: u32, before: bool) -> bool
    ensures { result ≡ mark_after offset (op.Word this) word before }
{
    if this.load {
        before
    } else if this.rn != 13 {
        before
    } else if this.byte {
        mark_after_store(word_access(offset, this), 1, word, false, before)
    } else {
        mark_after_store(word_access(offset, this), 4, word, is_push(this), before)
    }
}

/// Whether a stack word is marked after a load or store of a halfword.
fn half_mark(offset: Option<i32>, this: HalfTransfer, word: u32, before: bool) -> bool
    ensures { result ≡ mark_after offset (op.Half this) word before }
{
    if this.load {
        before
    } else if this.rn != 13 {
        before
    } else {
        mark_after_store(half_access(offset, this), 2, word, false, before)
    }
}

/// Whether a stack word is marked after a load or store of several registers.
fn block_mark(offset: Option<i32>, this: BlockTransfer, word: u32, before: bool) -> bool
    ensures { result ≡ mark_after offset (op.Block this) word before }
{
    if this.load {
        before
    } else if this.rn != 13 {
        before
    } else {
        let saves = is_push_block(this);
        mark_after_stores(block_access(offset, this), this.list, word, saves, before)
    }
}

/// Whether a stack word that had this mark is marked after an instruction, where the stack has this number of bytes.
pub fn mark_after(stack: u32, offset: Option<i32>, insn: &Insn, word: u32, before: bool) -> bool
    ensures { result ≡ mark_of stack offset insn.now.op word before }
{
    if !is_tracked(stack, word) {
        return false;
    }
    match insn.op {
        Op::Word(this) => word_mark(offset, this, word, before),
        Op::Half(this) => half_mark(offset, this, word, before),
        Op::Block(this) => block_mark(offset, this, word, before),
        _ => before,
    }
}

/// The source of what goes to pc where an instruction returns.
pub fn returned_source(offset: Option<i32>, insn: &Insn) -> Source
    ensures { source_meant result ≡ return_source offset insn.now.op }
{
    match insn.op {
        Op::Compute(_) => Source::Copy(Location::Register(14)),
        Op::Word(this) => load_source(word_access(offset, this)),
        Op::Block(this) => {
            loads_source(block_access(offset, this), this.list, 15, Source::Nothing)
        }
        Op::Exchange(_) => Source::Copy(Location::Register(14)),
        _ => Source::Nothing,
    }
}

/// The word of the image, which no program can write, that an instruction at an address loads by r15 and a constant.
pub fn literal_of(image: &Image, address: u32, insn: &Insn) -> Option<u32>
    ensures { result ≡ literal_of image.now address insn.now.op }
{
    match insn.op {
        Op::Word(this) => {
            if this.rn == 15 {
                literal_at(image, address, this)
            } else {
                None
            }
        }
        _ => None,
    }
}

/// The word of the image that a load by r15 at an address reads.
fn literal_at(image: &Image, address: u32, this: WordTransfer) -> Option<u32>
    ensures { result ≡ option_and_then (constant_at image.now)
        (indexed this.index this.up ((address + 8) % 2 ^ 32) this.offset) }
{
    match indexed(this.index, this.up, address.wrapping_add(8), this.offset) {
        None => None,
        Some(place) => image.constant_at(place),
    }
}
