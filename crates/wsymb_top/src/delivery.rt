ghost use Rattle.std.specs.Prelude.{◌≡◌, ◌≤◌};
ghost use Rattle.wsymb_top.specs.Answers.{IsDelivered, writing_of};

use crate::statuses::{NO_MEMORY, Status, WRITE_FAULT};
use wsym_io::{Sink, SinkFault, write_all};

/// Writes the text and answers its status. Where the sink fails the status is 4, where it has no memory 1,
/// and some front of the text stands in it.
pub(crate) fn deliver<K: Sink>(out: &mut K, text: &[u8], status: Status) -> Status
    ensures delivered { IsDelivered text.now status (writing_of K.contents K.faults out.old out.new) result }
    ensures later { K.faults out.old ≤ K.faults out.new }
{
    match write_all(out, text) {
        Ok(()) => status,
        Err(SinkFault::Failed) => WRITE_FAULT,
        Err(SinkFault::Memory) => NO_MEMORY,
    }
}
