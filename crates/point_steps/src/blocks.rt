//! Loads and stores of several registers, one after another.

ghost use Rattle.std.specs.Prelude.{◌≡◌, ◌==◌, ◌&&◌, if◌then◌else◌};
ghost use Rattle.arm_isa.specs.Writes.{is_listed};
ghost use Rattle.arm_machine.specs.Access.{is_saved};
ghost use Rattle.arm_machine.specs.Blocks.{is_push_block, registers_of};
ghost use Rattle.path_facts.specs.Sources.{load_source, loads_source, mark_after_stores, stores_source};
ghost use Rattle.point_steps.specs.Meanings.{source_meant};

use crate::offsets::{load_source, next_offset};
use crate::source::Source;
use crate::words::{mark_after_store, word_store_source};
use arm_isa::BlockTransfer;

/// Whether a register stands in a list.
pub(crate) fn is_listed(list: u16, register: u8) -> bool
    ensures { result ≡ is_listed list register }
{
    register < 16 && (list >> register) % 2 == 1
}

/// Whether calls save a register.
pub(crate) fn is_saved(register: u8) -> bool
    ensures { result ≡ is_saved register }
{
    4 <= register && register <= 11 || register == 14
}

/// Whether a block is that of STMDB r13!.
pub(crate) fn is_push_block(this: BlockTransfer) -> bool
    ensures { result ≡ is_push_block this }
{
    this.before && !this.up && this.write_back && this.rn == 13
}

/// A register after one word was loaded, with its source without the load.
fn loaded_once(at: Option<u32>, listed: u8, register: u8, before: Source) -> Source
    ensures { source_meant result ≡ (if register == listed then load_source at else source_meant before) }
{
    if register == listed {
        load_source(at)
    } else {
        before
    }
}

/// A register after LDM by r13, with its source without the load.
#[tactic(auto, using(crate::proofs::Listed::whole, crate::proofs::Listed::at_end, crate::proofs::Listed::loads_skip))]
pub(crate) fn loads_source(lowest: Option<u32>, list: u16, register: u8, before: Source) -> Source
    ensures { source_meant result ≡ loads_source lowest (registers_of list) register (source_meant before) }
{
    let mut source = before;
    let mut at = lowest;
    for listed in 0u8..16 {
        if !is_listed(list, listed) {
            continue;
        }
        source = loaded_once(at, listed, register, source);
        at = next_offset(at);
    }
    source
}

/// A stack word after STM by r13, with its source without the store.
#[tactic(auto, using(crate::proofs::Listed::whole, crate::proofs::Listed::at_end, crate::proofs::Listed::stores_skip))]
pub(crate) fn stores_source(lowest: Option<u32>, list: u16, word: u32, before: Source) -> Source
    ensures { source_meant result ≡ stores_source lowest (registers_of list) word (source_meant before) }
{
    let mut source = before;
    let mut at = lowest;
    for listed in 0u8..16 {
        if !is_listed(list, listed) {
            continue;
        }
        source = word_store_source(at, listed, word, source);
        at = next_offset(at);
    }
    source
}

/// Whether a stack word is marked after STM by r13.
#[tactic(auto, using(crate::proofs::Listed::whole, crate::proofs::Listed::at_end, crate::proofs::Listed::marks_skip))]
pub(crate) fn mark_after_stores(
    lowest: Option<u32>,
    list: u16,
    word: u32,
    saves: bool,
    before: bool,
) -> bool
    ensures { result ≡ mark_after_stores lowest (registers_of list) word saves before }
{
    let mut mark = before;
    let mut at = lowest;
    for listed in 0u8..16 {
        if !is_listed(list, listed) {
            continue;
        }
        mark = mark_after_store(at, 4, word, saves & is_saved(listed), mark);
        at = next_offset(at);
    }
    mark
}
