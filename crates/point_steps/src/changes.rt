//! Which stack words an instruction changes, so that a table of words is rewritten only there.

ghost use Rattle.std.specs.Prelude.{◌≡◌, ◌<◌, ◌≤◌, ◌*◌, ◌^◌, ℕ, Bool, Option, length, true, false};
ghost use Rattle.arm_machine.specs.Blocks.{registers_of};
ghost use Rattle.path_facts.specs.Facts.Location.{StackWord};
ghost use Rattle.path_facts.specs.Sources.{is_tracked, mark_of, source_of};
ghost use Rattle.point_steps.specs.declared.changes.StackChange.TheVariants as change;
ghost use Rattle.point_steps.specs.Changes.{IsShort, block_change, half_change, is_touched, mark_beside};
ghost use Rattle.point_steps.specs.Changes.{source_beside, stack_change, stored_words, stores};
ghost use Rattle.point_steps.specs.Changes.{touched_words, word_change};

use crate::blocks::is_listed;
use crate::offsets::{block_access, half_access, word_access};
use arm_isa::{BlockTransfer, HalfTransfer, Insn, Op, WordTransfer};

/// Which stack words an instruction changes.
#[derive(Clone, Copy, Debug, PartialEq, Eq, Drop)]
pub enum StackChange {
    /// No word.
    Nothing,
    /// The words from the first to the last, in which bytes of a store by r13 stand. There are at most seventeen.
    Words { first: u32, last: u32 },
    /// It may be any word: r13 isn't known where it stores, or a register is added to it. Nothing is known of a word
    /// after it, and none is marked.
    Any,
    /// Any word that isn't marked: a store by another base.
    Unmarked,
}

/// The words in which some of these bytes stand.
fn touched_words(at: Option<u32>, bytes: u32) -> StackChange
    ensures { result ≡ touched_words at bytes }
{
    match at {
        None => StackChange::Any,
        Some(offset) => {
            let depth = (1 << 32) - u64::from(offset);
            StackChange::Words {
                first: (depth.saturating_sub(u64::from(bytes)) / 4 + 1) as u32,
                last: ((depth + 3) / 4) as u32,
            }
        }
    }
}

/// The number of registers in a list.
#[tactic(auto, using(crate::proofs::Listed::whole, crate::proofs::Listed::at_end))]
fn number_of_registers(list: u16) -> u32
    ensures number { result ≡ length (registers_of list) }
    ensures few { result ≤ 16 }
{
    let mut number = 0;
    for listed in 0u8..16 {
        if !is_listed(list, listed) {
            continue;
        }
        number += 1;
    }
    number
}

/// The change of a load or store of a word or byte.
fn word_change(offset: Option<i32>, this: WordTransfer) -> StackChange
    ensures { result ≡ word_change offset this }
{
    if this.load {
        StackChange::Nothing
    } else if this.rn != 13 {
        StackChange::Unmarked
    } else {
        touched_words(word_access(offset, this), if this.byte { 1 } else { 4 })
    }
}

/// The change of a load or store of a halfword.
fn half_change(offset: Option<i32>, this: HalfTransfer) -> StackChange
    ensures { result ≡ half_change offset this }
{
    if this.load {
        StackChange::Nothing
    } else if this.rn != 13 {
        StackChange::Unmarked
    } else {
        touched_words(half_access(offset, this), 2)
    }
}

/// The words of a block that stores this number of registers.
#[tactic(auto, using(crate::proofs::ChangeLemmas::stored_some))]
fn stored_words(at: Option<u32>, number: u32) -> StackChange
    requires { number ≤ 16 }
    ensures { result ≡ stored_words at number }
{
    if number == 0 {
        StackChange::Nothing
    } else {
        touched_words(at, 4 * number)
    }
}

/// The change of a load or store of several registers.
fn block_change(offset: Option<i32>, this: BlockTransfer) -> StackChange
    ensures { result ≡ block_change offset this }
{
    if this.load {
        StackChange::Nothing
    } else if this.rn != 13 {
        StackChange::Unmarked
    } else {
        stored_words(block_access(offset, this), number_of_registers(this.list))
    }
}

/// The change by the kind of the instruction.
fn op_change(offset: Option<i32>, op: Op) -> StackChange
    ensures { result ≡ stack_change offset op }
{
    match op {
        Op::Word(this) => word_change(offset, this),
        Op::Half(this) => half_change(offset, this),
        Op::Block(this) => block_change(offset, this),
        _ => StackChange::Nothing,
    }
}

/// Which stack words an instruction changes, where r13 has this offset from its start before it. All others keep what
/// they hold and their marks, as the change says, in a stack of less than 2^31 bytes. Only stores change words.
pub fn stack_change(offset: Option<i32>, insn: &Insn) -> StackChange
    ensures sources { (stack a k : ℕ) (literal : Option ℕ) → stack < 2 ^ 31 → is_tracked stack k ≡ true
        → is_touched result k ≡ false
        → source_of stack a literal offset insn.now.op (StackWord k) ≡ source_beside result k }
    ensures marks { (stack k : ℕ) (before : Bool) → stack < 2 ^ 31 → is_tracked stack k ≡ true
        → is_touched result k ≡ false
        → mark_of stack offset insn.now.op k before ≡ mark_beside result before }
    ensures short { IsShort result }
    ensures others { stores insn.now.op ≡ false → result ≡ change.Nothing }
{
    op_change(offset, insn.op)
}
