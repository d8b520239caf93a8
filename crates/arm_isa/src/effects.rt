//! What callers ask of an instruction: its class, what it writes, whether it returns.

ghost use Rattle.std.specs.Prelude.{◌≡◌};
ghost use Rattle.arm_isa.specs.Classes.{class_by_op, transfer_class};
ghost use Rattle.arm_isa.specs.Writes.{is_listed, is_return_form, keeps_address, writes_register};

use crate::instruction::{
    BlockTransfer, Class, DataProcessing, Index, Insn, Offset, Op, Operand, Shift, WordTransfer,
};
use crate::opcodes::Opcode;

/// The class by which an instruction's time is counted.
pub fn class_of(insn: &Insn) -> Class
    ensures { result ≡ class_by_op insn.now }
{
    match &insn.op {
        Op::Compute(this) => match this.operand {
            Operand::ByRegister { .. } => Class::Shifted,
            Operand::Value { .. } | Operand::Shifted { .. } => Class::Compute,
        },
        Op::Multiply(_) => Class::Multiply,
        Op::MultiplyLong(_) => Class::Long,
        Op::Word(this) => transfer_class(this.load),
        Op::Half(this) => transfer_class(this.load),
        Op::Block(this) if this.load => Class::LoadMany,
        Op::Block(_) => Class::StoreMany,
        Op::Branch(this) if this.link => Class::Call,
        Op::Branch(_) => Class::Branch,
        Op::Exchange(_) => Class::Exchange,
    }
}

/// The class of a load or store of one register.
#[inline(always)]
fn transfer_class(load: bool) -> Class
    ensures { result ≡ transfer_class load }
{
    if load { Class::Load } else { Class::Store }
}

/// Whether the instruction, where it is done, writes the register (0 to 15): as its destination, as a base
/// that is written back, as a register of LDM's list, as r14 of BL, or as r15 where something goes to pc
/// (B, BL and BX among them). TST, TEQ, CMP and CMN write none.
pub fn may_write(insn: &Insn, register: u8) -> bool
    ensures { result ≡ writes_register insn.now register }
{
    match &insn.op {
        Op::Compute(this) => !this.opcode.is_test() && register == this.rd,
        Op::Multiply(this) => register == this.rd,
        Op::MultiplyLong(this) => register == this.rd_hi || register == this.rd_lo,
        Op::Word(this) => {
            this.load && register == this.rd || is_written_back(this.index) && register == this.rn
        }
        Op::Half(this) => {
            this.load && register == this.rd || is_written_back(this.index) && register == this.rn
        }
        Op::Block(this) => {
            this.load && is_in_list(this.list, register) || this.write_back && register == this.rn
        }
        Op::Branch(this) => register == 15 || this.link && register == 14,
        Op::Exchange(_) => register == 15,
    }
}

/// Whether the instruction is one of the four that go back to the caller, under any condition: `BX r14`;
/// `MOV r15,r14` without shift and without S; LDMIA r13! with r15 in its list; `LDR r15,[r13],#4`.
pub fn is_return(insn: &Insn) -> bool
    ensures { result ≡ is_return_form insn.now }
{
    match insn.op {
        Op::Exchange(this) => this.rm == 14,
        Op::Compute(
            DataProcessing {
                opcode: Opcode::Mov,
                set_flags: false,
                rd: 15,
                operand: Operand::Shifted {
                    rm: 14,
                    shift: Shift::Lsl(0),
                },
                ..
            },
        ) => true,
        Op::Block(
            BlockTransfer {
                load: true,
                before: false,
                up: true,
                write_back: true,
                rn: 13,
                list,
            },
        ) => is_in_list(list, 15),
        Op::Word(
            WordTransfer {
                load: true,
                byte: false,
                index: Index::After,
                up: true,
                rn: 13,
                rd: 15,
                offset: Offset::Value(4),
            },
        ) => true,
        _ => false,
    }
}

/// Whether the base register gets the changed address.
fn is_written_back(index: Index) -> bool
    ensures { result ≡ keeps_address index }
{
    !matches!(index, Index::Before)
}

/// Whether a register stands in the list of LDM or STM.
fn is_in_list(list: u16, register: u8) -> bool
    ensures { result ≡ is_listed list register }
{
    register < 16 && (list >> register) % 2 == 1
}
