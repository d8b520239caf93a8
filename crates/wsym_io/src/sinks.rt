//! Sinks: where a program writes.

ghost use Rattle.std.specs.Prelude.{◌≡◌, ◌↔◌, ℕ, ◌+◌, ◌-◌, ◌^◌, ◌<◌, ◌≤◌, min, List, Option, length, take, IfOk, OnOk, OnErr, IsErrOf};
ghost use Rattle.wsym_io.specs.Io.{Rose, appended, AppendsFront};
ghost use Rattle.wsym_io.specs.declared.sinks.SinkFault.TheVariants.{Memory};
ghost use Rattle.std.specs.IoError.{error_kind};
ghost use Rattle.std.specs.declared.io.ErrorKind.TheVariants.{OutOfMemory};

use std::alloc::AllocError;
use std::io;
use thiserror::Error;

/// Why a sink took nothing.
#[derive(Clone, Copy, Debug, Error)]
pub enum SinkFault {
    /// The piece can't be written. The sink's count of faults rose.
    #[error("the output can't be written")]
    Failed,
    /// Memory was refused, which can come at any call.
    #[error("out of memory")]
    Memory,
}

impl From<AllocError> for SinkFault {
    ghost from_gives = { λ _ fault. fault ≡ Memory };

    fn from(_error: AllocError) -> SinkFault {
        SinkFault::Memory
    }
}

impl From<io::Error> for SinkFault {
    ghost from_gives = { λ error fault. (fault ≡ Memory) ↔ (error_kind error ≡ OutOfMemory) };

    fn from(error: io::Error) -> SinkFault {
        match error.kind() {
            io::ErrorKind::OutOfMemory => SinkFault::Memory,
            _ => SinkFault::Failed,
        }
    }
}

/// What takes bytes, a piece at a time.
///
/// A sink may say its contents, the bytes that it took so far, and has a count of faults that never
/// falls and stays at 2^64 − 1 once it is there.
pub trait Sink {
    ghost contents: { Self → Option (List ℕ) };

    ghost faults: { Self → ℕ };

    /// Takes the first bytes of a piece that isn't empty, and answers how many, at least one.
    ///
    /// After an error nothing was taken. `Failed` comes only where the count of faults rose, and
    /// `Memory` wherever memory is refused.
    fn write(&mut self, piece: &[u8]) -> Result<usize, SinkFault>
        requires { 0 < length piece.now }
        ensures some { IfOk result (λ count. 0 < count) }
        ensures within { IfOk result (λ count. count ≤ length piece.now) }
        ensures taken { IfOk result (λ count. contents self.new ≡ appended (contents self.old) (take count piece.now)) }
        ensures err { OnErr result (contents self.new ≡ contents self.old) }
        ensures later { faults self.old ≤ faults self.new }
        ensures failed { IsErrOf result SinkFault.Failed → Rose (faults self.old) (faults self.new) };
}

/// Writes the whole text, a piece after another.
///
/// After an error the sink has taken some first bytes of the text, perhaps none. The error is that of
/// the sink. It takes no memory of its own.
pub fn write_all<K: Sink>(sink: &mut K, text: &[u8]) -> Result<(), SinkFault>
    ensures ok { OnOk result (K.contents sink.new ≡ appended (K.contents sink.old) text.now) }
    ensures err { OnErr result (AppendsFront (K.contents sink.old) (K.contents sink.new) text.now) }
    ensures later { K.faults sink.old ≤ K.faults sink.new }
    ensures failed { IsErrOf result SinkFault.Failed → Rose (K.faults sink.old) (K.faults sink.new) }
{
    let mut at = 0;
    while at < text.len() {
        at += sink.write(&text[at..])?;
    }
    Ok(())
}
