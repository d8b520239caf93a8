//! What a done instruction does.

ghost use Rattle.std.specs.Prelude.{◌≡◌, ◌<◌};
ghost use Rattle.arm_isa.specs.Ranges.{IsOp};
ghost use Rattle.arm_machine.specs.Effects.{branches, effect};
ghost use Rattle.arm_machine.specs.Blocks.{transfers_many};
ghost use Rattle.arm_machine.specs.Transfers.{IsTransfer, transfers};
ghost use Rattle.arm_machine.specs.Machines.{Ends, end_of, state_of};

use crate::blocks::{load_many, store_many};
use crate::state::MachineState;
use crate::stops::StepEnd;
use crate::transfers::{Transfer, load, store};
use arm_cpu::{Cpu, Stop, compute, multiply, multiply_long};
use arm_isa::{BlockTransfer, Branch, Op};
use elf32_image::Image;

/// The number of the link register.
const LINK: u8 = 14;

/// Does an instruction. Where it stops, or memory is refused, the state stays as it was.
pub(crate) fn execute(state: &mut MachineState<'_>, image: &Image, op: Op) -> Result<(), StepEnd>
    requires { IsOp op }
    ensures cache { state.new.cache ≡ state.old.cache }
    ensures effect { Ends (effect image.now (state_of state.old) op) (state_of state.old) (state_of state.new) result }
{
    let cpu = &mut state.cpu;
    match op {
        Op::Compute(this) => ended(compute(cpu, this)),
        Op::Multiply(this) => {
            multiply(cpu, this);
            Ok(())
        }
        Op::MultiplyLong(this) => {
            multiply_long(cpu, this);
            Ok(())
        }
        Op::Word(this) => transfer_one(state, image, Transfer::of_word(this)),
        Op::Half(this) => transfer_one(state, image, Transfer::of_half(this)),
        Op::Block(this) => transfer_block(state, image, this),
        Op::Branch(this) => {
            branch(cpu, this);
            Ok(())
        }
        Op::Exchange(this) => {
            let target = cpu.read(this.rm);
            ended(cpu.jump(target))
        }
    }
}

/// Does a load or store of one number.
fn transfer_one(
    state: &mut MachineState<'_>,
    image: &Image,
    transfer: Transfer,
) -> Result<(), StepEnd>
    requires { IsTransfer transfer }
    ensures cache { state.new.cache ≡ state.old.cache }
    ensures effect { Ends (transfers image.now (state_of state.old) transfer) (state_of state.old) (state_of state.new) result }
{
    if transfer.load {
        ended(load(&mut state.cpu, &state.memory, transfer))
    } else {
        store(state, image, transfer)
    }
}

/// Does a load or store of several registers.
fn transfer_block(
    state: &mut MachineState<'_>,
    image: &Image,
    block: BlockTransfer,
) -> Result<(), StepEnd>
    requires { block.rn < 15 }
    ensures cache { state.new.cache ≡ state.old.cache }
    ensures effect { Ends (transfers_many image.now (state_of state.old) block) (state_of state.old) (state_of state.new) result }
{
    if block.load {
        ended(load_many(&mut state.cpu, &state.memory, block))
    } else {
        store_many(state, image, block)
    }
}

/// Goes to the target of a branch.
fn branch(cpu: &mut Cpu, this: Branch)
    ensures { cpu.new ≡ branches cpu.old this }
{
    let next = cpu.next_pc();
    let target = u64::from(cpu.pc) + 8 + 4 * u64::from(this.words.cast_unsigned());
    if this.link {
        cpu.set(LINK, next);
    }
    cpu.pc = (target % (1 << 32)) as u32;
}

/// The end of a step whose instruction stops, if it does.
fn ended(done: Result<(), Stop>) -> Result<(), StepEnd>
    ensures { result ≡ end_of done }
{
    match done {
        Ok(()) => Ok(()),
        Err(stop) => Err(StepEnd::Stop(stop)),
    }
}
