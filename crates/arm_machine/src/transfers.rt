//! Loads and stores of one number.

ghost use Rattle.std.specs.Prelude.{◌≡◌, ◌<◌};
ghost use Rattle.arm_isa.specs.Ranges.{IsHalfTransfer, IsOffset, IsWordTransfer};
ghost use Rattle.arm_isa.specs.Writes.{is_one_word, keeps_address};
ghost use Rattle.arm_machine.specs.Access.{is_saved};
ghost use Rattle.arm_cpu.specs.Registers.{Does};
ghost use Rattle.arm_machine.specs.Machines.{Ends, state_of};
ghost use Rattle.arm_machine.specs.Transfers.{IsTransfer, accessed, changed_base, extended, half_transfer, is_before_back, is_push, kind_size, loads, offset_value, rebased, stores, word_size, word_transfer};

use crate::access::Size;
use crate::memory::Memory;
use crate::state::{MachineState, SP, Store, store_stop};
use crate::stops::StepEnd;
use arm_cpu::{Cpu, Stop, shift_value};
use arm_isa::{HalfKind, HalfTransfer, Index, Offset, WordTransfer};
use elf32_image::Image;

/// A load or store of one number, of a word, a byte or a half-word (ARM Architecture Reference Manual, A5.2 and A5.3).
#[derive(Clone, Copy)]
pub struct Transfer {
    /// A load, and else a store.
    pub load: bool,
    /// The number of bytes.
    pub size: Size,
    /// How a load fills the register above its number; `Half` fills it with zeros.
    pub kind: HalfKind,
    /// Whether the offset counts before or after the access, and whether the base gets the changed address.
    pub index: Index,
    /// The offset is added to the base, and else subtracted.
    pub up: bool,
    /// The base register, 0 to 15.
    pub rn: u8,
    /// The register that is loaded or stored, 0 to 15.
    pub rd: u8,
    /// The offset, in bytes.
    pub offset: Offset,
}

impl Transfer {
    /// That of LDR, STR, LDRB or STRB.
    pub(crate) fn of_word(this: WordTransfer) -> Self
        requires { IsWordTransfer this }
        ensures exact { result ≡ word_transfer this }
        ensures ranges { IsTransfer result }
    {
        Transfer {
            load: this.load,
            size: word_size(this.byte),
            kind: HalfKind::Half,
            index: this.index,
            up: this.up,
            rn: this.rn,
            rd: this.rd,
            offset: this.offset,
        }
    }

    /// That of LDRH, STRH, LDRSB or LDRSH.
    pub(crate) fn of_half(this: HalfTransfer) -> Self
        requires { IsHalfTransfer this }
        ensures exact { result ≡ half_transfer this }
        ensures ranges { IsTransfer result }
    {
        Transfer {
            load: this.load,
            size: kind_size(this.kind),
            kind: this.kind,
            index: this.index,
            up: this.up,
            rn: this.rn,
            rd: this.rd,
            offset: this.offset,
        }
    }
}

/// Does a load.
pub(crate) fn load(cpu: &mut Cpu, memory: &Memory<'_>, transfer: Transfer) -> Result<(), Stop>
    requires { IsTransfer transfer }
    ensures { Does (loads cpu.old memory.now.bytes transfer) cpu.old cpu.new result }
{
    let value = memory.load(transfer.size, accessed(cpu, transfer))?;
    let mut changed = rebased(cpu, transfer);
    changed.write(transfer.rd, extended(transfer.kind, value))?;
    *cpu = changed;
    Ok(())
}

/// Does a store.
pub(crate) fn store(
    state: &mut MachineState<'_>,
    image: &Image,
    transfer: Transfer,
) -> Result<(), StepEnd>
    requires { IsTransfer transfer }
    ensures cache { state.new.cache ≡ state.old.cache }
    ensures effect { Ends (stores image.now (state_of state.old) transfer) (state_of state.old) (state_of state.new) result }
{
    let address = accessed(&state.cpu, transfer);
    let found = store_stop(
        image,
        &state.memory,
        state.kept.as_slice(),
        transfer.rn,
        transfer.size,
        address,
    );
    if let Some(stop) = found {
        return Err(StepEnd::Stop(stop));
    }
    if state.reserve(1).is_err() {
        return Err(StepEnd::Memory);
    }
    let value = state.cpu.read(transfer.rd);
    let store = Store {
        base: transfer.rn,
        size: transfer.size,
        address,
        saves: is_push(transfer),
    };
    let mut changed = rebased(&state.cpu, transfer);
    changed.advance();
    state.put(store, value);
    state.cpu = changed;
    Ok(())
}

/// The address of the access.
fn accessed(cpu: &Cpu, transfer: Transfer) -> u32
    requires { IsTransfer transfer }
    ensures { result ≡ accessed cpu.now transfer }
{
    match transfer.index {
        Index::Before | Index::BeforeBack => changed_base(cpu, transfer),
        Index::After => cpu.read(transfer.rn),
    }
}

/// The registers with the changed address as base, where it is written back.
fn rebased(cpu: &Cpu, transfer: Transfer) -> Cpu
    requires { IsTransfer transfer }
    ensures { result ≡ rebased cpu.now transfer }
{
    let mut changed = *cpu;
    match transfer.index {
        Index::BeforeBack | Index::After => {
            changed.set(transfer.rn, changed_base(cpu, transfer));
        }
        Index::Before => {}
    }
    changed
}

/// The base with the offset added or subtracted.
fn changed_base(cpu: &Cpu, transfer: Transfer) -> u32
    requires { IsTransfer transfer }
    ensures { result ≡ changed_base cpu.now transfer }
{
    let base = cpu.read(transfer.rn);
    let offset = offset_value(cpu, transfer.offset);
    if transfer.up {
        base.wrapping_add(offset)
    } else {
        base.wrapping_sub(offset)
    }
}

fn offset_value(cpu: &Cpu, offset: Offset) -> u32
    requires { IsOffset offset }
    ensures { result ≡ offset_value cpu.now offset }
{
    match offset {
        Offset::Value(bytes) => bytes,
        Offset::Shifted { rm, shift } => shift_value(cpu.flags.c, cpu.read(rm), shift),
    }
}

/// What a load gives the register: a signed kind fills the word with its sign.
fn extended(kind: HalfKind, value: u32) -> u32
    ensures { result ≡ extended kind value }
{
    match kind {
        HalfKind::Half => value,
        HalfKind::SignedByte => {
            if value >= 1 << 7 {
                value.wrapping_add(0xffff_ff00)
            } else {
                value
            }
        }
        HalfKind::SignedHalf => {
            if value >= 1 << 15 {
                value.wrapping_add(0xffff_0000)
            } else {
                value
            }
        }
    }
}

/// How many bytes a halfword instruction moves.
fn kind_size(kind: HalfKind) -> Size
    ensures { result ≡ kind_size kind }
{
    match kind {
        HalfKind::Half | HalfKind::SignedHalf => Size::Half,
        HalfKind::SignedByte => Size::Byte,
    }
}

/// How many bytes LDR and STR move.
fn word_size(byte: bool) -> Size
    ensures { result ≡ word_size byte }
{
    if byte { Size::Byte } else { Size::Word }
}

/// Whether a store is `STR Rd,[r13,#-4]!` of a register that calls save.
fn is_push(transfer: Transfer) -> bool
    ensures { result ≡ is_push transfer }
{
    matches!(transfer.size, Size::Word)
        && is_before_back(transfer.index)
        && !transfer.up
        && transfer.rn == SP
        && is_one_word(transfer.offset)
        && is_saved(transfer.rd)
}

fn is_before_back(index: Index) -> bool
    ensures { result ≡ is_before_back index }
{
    matches!(index, Index::BeforeBack)
}

/// Whether an offset is four bytes.
fn is_one_word(offset: Offset) -> bool
    ensures { result ≡ is_one_word offset }
{
    match offset {
        Offset::Value(bytes) => bytes == 4,
        Offset::Shifted { .. } => false,
    }
}

/// Whether calls save a register.
pub(crate) fn is_saved(register: u8) -> bool
    ensures { result ≡ is_saved register }
{
    4 <= register && register <= 11 || register == 14
}
