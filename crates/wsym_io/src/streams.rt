//! What is read from any reader, and written to any writer.

ghost use Rattle.std.specs.Prelude.{◌≡◌, ℕ, ◌+◌, ◌<◌, ◌≤◌, List, Option, length, take, IfOk, OnOk, OnErr};
ghost use Rattle.std.specs.Io.KnownBytes.{Consumes, IsAtEnd, Appends, Keeps};
ghost use Rattle.wsym_io.specs.Io.{IfTold};

use crate::shelves::ShelfFault;
use crate::sinks::SinkFault;
use std::alloc::Global;
use std::io::{Read, Write};

/// The bytes that one read asks for, at most.
const BLOCK: usize = 65_536;

/// The first `most` bytes that the reader gives, or all up to its end.
pub(crate) fn read_first<R: Read>(
    reader: &mut R,
    alloc: Global,
    most: u64,
) -> Result<Vec<u8>, ShelfFault>
    ensures short { IfOk result (λ bytes. length bytes.items ≤ most) }
    ensures first { IfOk result (λ bytes. IfTold (R.remaining reader.old) (λ given. bytes.items ≡ take most given)) }
{
    let mut block = vec![in alloc; 0; BLOCK]?;
    let mut bytes = Vec::new(alloc);
    let mut room = most;
    while room > 0 {
        let count = read_more(reader, &mut block, &mut bytes, room)?;
        if count == 0 {
            break;
        }
        room -= count;
    }
    Ok(bytes)
}

/// Reads at most `room` bytes by way of the block, puts them after the bytes that came before, and
/// answers how many they are. Where the reader says what it has left, 0 comes only at its end.
fn read_more<R: Read>(
    reader: &mut R,
    block: &mut [u8],
    bytes: &mut Vec<u8>,
    room: u64,
) -> Result<u64, ShelfFault>
    requires room { 0 < room }
    requires block { 0 < length block.old }
    ensures size { length block.new ≡ length block.old }
    ensures within { IfOk result (λ count. count ≤ room) }
    ensures longer { IfOk result (λ count. length bytes.new.items ≡ length bytes.old.items + count) }
    ensures given { OnOk result ((first : Option (List ℕ)) → Consumes first (R.remaining reader.old) bytes.old.items
        → Consumes first (R.remaining reader.new) bytes.new.items) }
    ensures end { IfOk result (λ count. count ≡ 0 → IsAtEnd (R.remaining reader.new)) }
{
    let size = room.min(block.len() as u64) as usize;
    let count = reader.read(&mut block[..size])?;
    bytes.extend_from_slice(&block[..count])?;
    Ok(count as u64)
}

/// Hands the piece to the writer, which takes some first bytes of it. A write that takes nothing is an
/// error, and after an error nothing was taken.
pub(crate) fn write_first<W: Write>(writer: &mut W, piece: &[u8]) -> Result<usize, SinkFault>
    ensures some { IfOk result (λ count. 0 < count) }
    ensures within { IfOk result (λ count. count ≤ length piece.now) }
    ensures taken { IfOk result (λ count. Appends (W.contents writer.old) (W.contents writer.new) (take count piece.now)) }
    ensures err { OnErr result (Keeps (W.contents writer.old) (W.contents writer.new)) }
{
    match writer.write(piece)? {
        0 => Err(SinkFault::Failed),
        count => Ok(count),
    }
}
