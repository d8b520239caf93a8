//! Which instructions access the stack by r13, and where.

ghost use Rattle.std.specs.Prelude.{◌≡◌, Some};
ghost use Rattle.arm_isa.specs.declared.instruction.Op.TheVariants as op;
ghost use Rattle.path_facts.specs.StackUse.{accessed_from, accesses_by_sp, lowest_byte};

use arm_isa::{BlockTransfer, Index, Insn, Offset, Op};

/// Whether an instruction is a load or store whose base is r13.
pub fn accesses_by_sp(insn: &Insn) -> bool
    ensures { result ≡ accesses_by_sp insn.now.op }
{
    match insn.op {
        Op::Word(this) => this.rn == 13,
        Op::Half(this) => this.rn == 13,
        Op::Block(this) => this.rn == 13,
        _ => false,
    }
}

/// An offset with a constant added or subtracted.
fn accessed_from(offset: i32, index: Index, up: bool, by: Offset) -> Option<i64>
    ensures { result ≡ accessed_from offset index up by }
{
    let offset = i64::from(offset);
    match by {
        Offset::Value(bytes) => Some(match index {
            Index::After => offset,
            Index::Before | Index::BeforeBack => {
                if up {
                    offset + i64::from(bytes)
                } else {
                    offset - i64::from(bytes)
                }
            }
        }),
        Offset::Shifted { .. } => None,
    }
}

/// The lowest byte of a block.
fn lowest_of_block(offset: i32, this: BlockTransfer) -> i64
    ensures { Some result ≡ lowest_byte offset (op.Block this) }
{
    let offset = i64::from(offset);
    let bytes = i64::from(4 * this.list.count_ones());
    if this.up {
        offset + if this.before { 4 } else { 0 }
    } else {
        offset - bytes + if this.before { 0 } else { 4 }
    }
}

/// The lowest byte of an access by r13, from where r13 pointed at the start, where r13 has this offset. None where a
/// register is added or subtracted, or nothing is loaded or stored.
pub fn lowest_byte(offset: i32, insn: &Insn) -> Option<i64>
    ensures { result ≡ lowest_byte offset insn.now.op }
{
    match insn.op {
        Op::Word(this) => accessed_from(offset, this.index, this.up, this.offset),
        Op::Half(this) => accessed_from(offset, this.index, this.up, this.offset),
        Op::Block(this) => Some(lowest_of_block(offset, this)),
        _ => None,
    }
}
