//! Loads and stores of several registers.

ghost use Rattle.std.specs.Prelude.{◌≡◌, ◌<◌, ◌≤◌, ◌+◌, ◌&&◌, None, vec_len, vec_capacity};
ghost use Rattle.arm_isa.specs.Writes.{is_listed};
ghost use Rattle.arm_machine.specs.Access.{is_saved};
ghost use Rattle.arm_cpu.specs.Registers.{Does};
ghost use Rattle.arm_machine.specs.Machines.{Ends, state_of};
ghost use Rattle.arm_machine.specs.Blocks.{AreAligned, block_base, block_stop, is_push_block, landed, load_block, loads_many, lowest, placed, rebased_block, registers_of, stored_block, stores_many};

use crate::access::Size;
use crate::memory::Memory;
use crate::state::{MachineState, SP, Store, store_stop};
use crate::stops::StepEnd;
use crate::transfers::is_saved;
use arm_cpu::{Cpu, PC, Stop};
use arm_isa::BlockTransfer;
use elf32_image::Image;

/// Does LDM.
pub(crate) fn load_many(
    cpu: &mut Cpu,
    memory: &Memory<'_>,
    block: BlockTransfer,
) -> Result<(), Stop>
    requires base { block.rn < 15 }
    ensures { Does (loads_many cpu.old memory.now.bytes block) cpu.old cpu.new result }
{
    let mut changed = rebased_block(cpu, block);
    changed.advance();
    load_block(&mut changed, memory, lowest(cpu, block), block.list)?;
    if is_listed(block.list, PC) && changed.pc % 4 != 0 {
        return Err(Stop::Leaves);
    }
    *cpu = changed;
    Ok(())
}

/// Does STM.
pub(crate) fn store_many(
    state: &mut MachineState<'_>,
    image: &Image,
    block: BlockTransfer,
) -> Result<(), StepEnd>
    requires base { block.rn < 15 }
    ensures cache { state.new.cache ≡ state.old.cache }
    ensures effect { Ends (stores_many image.now (state_of state.old) block) (state_of state.old) (state_of state.new) result }
{
    let address = lowest(&state.cpu, block);
    let found = block_stop(
        image,
        &state.memory,
        state.kept.as_slice(),
        block.rn,
        address,
        block.list,
    );
    if let Some(stop) = found {
        return Err(StepEnd::Stop(stop));
    }
    if state.reserve(16).is_err() {
        return Err(StepEnd::Memory);
    }
    let mut changed = rebased_block(&state.cpu, block);
    changed.advance();
    put_block(state, block, address);
    state.cpu = changed;
    Ok(())
}

/// The lowest address of a block.
fn lowest(cpu: &Cpu, block: BlockTransfer) -> u32
    requires { block.rn < 15 }
    ensures { result ≡ lowest cpu.now block }
{
    let base = cpu.read(block.rn);
    let bytes = 4 * block.list.count_ones();
    if block.up {
        base.wrapping_add(if block.before { 4 } else { 0 })
    } else {
        base.wrapping_sub(bytes)
            .wrapping_add(if block.before { 0 } else { 4 })
    }
}

/// The registers with the address after the block as base, where it is written back.
fn rebased_block(cpu: &Cpu, block: BlockTransfer) -> Cpu
    requires { block.rn < 15 }
    ensures { result ≡ rebased_block cpu.now block }
{
    let mut changed = *cpu;
    if block.write_back {
        changed.set(block.rn, block_base(cpu, block));
    }
    changed
}

/// The base after a block.
fn block_base(cpu: &Cpu, block: BlockTransfer) -> u32
    requires { block.rn < 15 }
    ensures { result ≡ block_base cpu.now block }
{
    let base = cpu.read(block.rn);
    let bytes = 4 * block.list.count_ones();
    if block.up {
        base.wrapping_add(bytes)
    } else {
        base.wrapping_sub(bytes)
    }
}

/// Whether a register stands in a list.
fn is_listed(list: u16, register: u8) -> bool
    requires { register < 16 }
    ensures { result ≡ is_listed list register }
{
    (list >> register) % 2 == 1
}

/// Gives the registers of a list the words from an address on.
#[tactic(auto, using(crate::proofs::Listing::whole_list, crate::proofs::Listing::no_more, crate::proofs::Listing::load_goes_on, crate::proofs::Listing::load_stops, crate::proofs::Listing::load_skips))]
fn load_block(cpu: &mut Cpu, memory: &Memory<'_>, lowest: u32, list: u16) -> Result<(), Stop>
    ensures { Does (load_block memory.now.bytes lowest (registers_of list) cpu.old) cpu.old cpu.new result }
{
    let mut changed = *cpu;
    let mut address = lowest;
    for register in 0u8..16 {
        if is_listed(list, register) {
            match memory.load(Size::Word, address) {
                Ok(value) => place(&mut changed, register, value),
                Err(stop) => return Err(stop),
            }
            address = address.wrapping_add(4);
        }
    }
    *cpu = changed;
    Ok(())
}

/// Gives a register a value; register 15 is pc.
fn place(cpu: &mut Cpu, register: u8, value: u32)
    requires { register < 16 }
    ensures { cpu.new ≡ placed cpu.old register value }
{
    if register == PC {
        cpu.pc = value;
    } else {
        cpu.set(register, value);
    }
}

/// The first store of a block that stops, if one does.
#[tactic(auto, using(crate::proofs::Listing::whole_list, crate::proofs::Listing::no_more, crate::proofs::Listing::stop_goes_on, crate::proofs::Listing::stop_found, crate::proofs::Listing::stop_skips, crate::proofs::Listing::aligned_more, crate::proofs::Listing::aligned_skips))]
fn block_stop(
    image: &Image,
    memory: &Memory<'_>,
    kept: &[u32],
    base: u8,
    lowest: u32,
    list: u16,
) -> Option<Stop>
    ensures stop { result ≡ block_stop image.now memory.now.bytes kept.now base lowest (registers_of list) }
    ensures aligned { result ≡ None → AreAligned lowest (registers_of list) }
{
    let mut address = lowest;
    for register in 0u8..16 {
        if is_listed(list, register) {
            match store_stop(image, memory, kept, base, Size::Word, address) {
                Some(stop) => return Some(stop),
                None => address = address.wrapping_add(4),
            }
        }
    }
    None
}

/// Stores the registers of a list to the words from an address on, each a multiple of 4. There is room.
#[tactic(auto, using(crate::proofs::Listing::whole_list, crate::proofs::Listing::no_more, crate::proofs::Listing::stored_goes_on, crate::proofs::Listing::stored_skips, crate::proofs::Listing::aligned_parts, crate::proofs::Listing::aligned_later))]
fn put_block(state: &mut MachineState<'_>, block: BlockTransfer, lowest: u32)
    requires aligned { AreAligned lowest (registers_of block.list) }
    requires marks { vec_len state.old.kept + 16 ≤ vec_capacity state.old.kept }
    requires bytes { 64 ≤ state.old.memory.room }
    ensures cache { state.new.cache ≡ state.old.cache }
    ensures state { state_of state.new ≡ stored_block state.old.cpu (state_of state.old) block.rn lowest (is_push_block block) (registers_of block.list) }
{
    let saves = is_push_block(block);
    let cpu = state.cpu;
    let mut address = lowest;
    for register in 0u8..16 {
        if is_listed(block.list, register) {
            let store = Store {
                base: block.rn,
                size: Size::Word,
                address,
                saves: is_marked(saves, register),
            };
            state.put(store, cpu.read(register));
            address = address.wrapping_add(4);
        }
    }
}

/// Whether a push marks the word of a register.
fn is_marked(saves: bool, register: u8) -> bool
    ensures { result ≡ saves && is_saved register }
{
    saves && is_saved(register)
}

/// Whether a block is that of STMDB r13!.
fn is_push_block(block: BlockTransfer) -> bool
    ensures { result ≡ is_push_block block }
{
    block.before && !block.up && block.write_back && block.rn == SP
}
