//! Offsets from where r13 pointed at the start, modulo 2^32.

ghost use Rattle.std.specs.Prelude.{◌≡◌, ◌+◌, ◌*◌, ◌%◌, ◌^◌};
ghost use Rattle.arm_isa.specs.Writes.{is_after};
ghost use Rattle.arm_machine.specs.Transfers.{half_transfer, word_transfer};
ghost use Rattle.path_facts.specs.Sources.{access_offset, based_offset, block_offset, indexed, is_at_word, is_tracked};
ghost use Rattle.path_facts.specs.Sources.{load_source, moved, next_offset, residue, touches, word_at_offset};
ghost use Rattle.point_steps.specs.Meanings.{source_meant};

use crate::source::{Location, Source};
use arm_isa::{BlockTransfer, HalfTransfer, Index, Offset, WordTransfer};

/// A signed offset modulo 2^32.
#[tactic(auto, using(crate::proofs::OffsetLemmas::residue_cast))]
pub(crate) fn residue(offset: i32) -> u32
    ensures { result ≡ residue offset }
{
    offset.cast_unsigned()
}

/// An offset with a constant added or subtracted.
fn moved(up: bool, offset: u32, bytes: u32) -> u32
    ensures { result ≡ moved up offset bytes }
{
    if up {
        offset.wrapping_add(bytes)
    } else {
        offset.wrapping_sub(bytes)
    }
}

/// Whether an access is at the base itself.
fn is_after(index: Index) -> bool
    ensures { result ≡ is_after index }
{
    matches!(index, Index::After)
}

/// Where an access by a base and a constant is.
pub(crate) fn indexed(index: Index, up: bool, offset: u32, by: Offset) -> Option<u32>
    ensures { result ≡ indexed index up offset by }
{
    match by {
        Offset::Value(bytes) => Some(if is_after(index) {
            offset
        } else {
            moved(up, offset, bytes)
        }),
        Offset::Shifted { .. } => None,
    }
}

/// The offset of a load or store of a word or byte by r13.
pub(crate) fn word_access(offset: Option<i32>, this: WordTransfer) -> Option<u32>
    ensures { result ≡ access_offset offset (word_transfer this) }
{
    match offset {
        None => None,
        Some(offset) => indexed(this.index, this.up, residue(offset), this.offset),
    }
}

/// The offset of a load or store of a halfword by r13.
pub(crate) fn half_access(offset: Option<i32>, this: HalfTransfer) -> Option<u32>
    ensures { result ≡ access_offset offset (half_transfer this) }
{
    match offset {
        None => None,
        Some(offset) => indexed(this.index, this.up, residue(offset), this.offset),
    }
}

/// The offset of the lowest word of a block by r13.
pub(crate) fn block_access(offset: Option<i32>, this: BlockTransfer) -> Option<u32>
    ensures { result ≡ block_offset offset this }
{
    match offset {
        None => None,
        Some(offset) => {
            let offset = residue(offset);
            let bytes = 4 * this.list.count_ones();
            Some(if this.up {
                offset.wrapping_add(if this.before { 4 } else { 0 })
            } else {
                offset
                    .wrapping_sub(bytes)
                    .wrapping_add(if this.before { 0 } else { 4 })
            })
        }
    }
}

/// The same, where the base may be another register.
pub(crate) fn based_access(offset: Option<i32>, this: BlockTransfer) -> Option<u32>
    ensures { result ≡ based_offset offset this }
{
    if this.rn == 13 {
        block_access(offset, this)
    } else {
        None
    }
}

/// The offset of the next word of a block.
pub(crate) fn next_offset(at: Option<u32>) -> Option<u32>
    ensures { result ≡ next_offset at }
{
    match at {
        None => None,
        Some(offset) => Some(offset.wrapping_add(4)),
    }
}

/// Whether facts speak of a stack word, where the stack has this number of bytes.
pub(crate) fn is_tracked(stack: u32, word: u32) -> bool
    ensures { result ≡ is_tracked stack word }
{
    0 < word && 4 * u64::from(word) <= u64::from(stack)
}

/// How far an offset is above a word, modulo 2^32.
fn above_word(offset: u32, word: u32) -> u64
    ensures { result ≡ (offset + 4 * word) % 2 ^ 32 }
{
    (u64::from(offset) + 4 * u64::from(word)) % (1 << 32)
}

/// Whether some of these bytes stand in a word.
pub(crate) fn touches(offset: u32, bytes: u32, word: u32) -> bool
    ensures { result ≡ touches offset bytes word }
{
    let above = above_word(offset, word);
    above < 4 || above + u64::from(bytes) > 1 << 32
}

/// Whether an offset is that of a word.
pub(crate) fn is_at_word(offset: u32, word: u32) -> bool
    ensures { result ≡ is_at_word offset word }
{
    above_word(offset, word) == 0
}

/// The word at or just above an offset.
fn word_at_offset(offset: u32) -> u32
    ensures { result ≡ word_at_offset offset }
{
    (((1 << 32) - u64::from(offset)) / 4) as u32
}

/// A word that is loaded by r13.
pub(crate) fn load_source(at: Option<u32>) -> Source
    ensures { source_meant result ≡ load_source at }
{
    match at {
        None => Source::Nothing,
        Some(offset) => {
            let word = word_at_offset(offset);
            if is_at_word(offset, word) {
                Source::Copy(Location::StackWord(word))
            } else {
                Source::Nothing
            }
        }
    }
}
