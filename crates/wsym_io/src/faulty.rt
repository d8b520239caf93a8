//! A shelf and a sink in memory that fail at calls chosen beforehand.

ghost use Rattle.std.specs.Prelude.{◌≡◌, ℕ, ◌+◌, ◌-◌, ◌^◌, ◌<◌, ◌≤◌, min, Some, IsTrue, ◌↔◌, List, [], ◌++◌, length, take, IfOk, OnErr, IsErrOf};
ghost use Rattle.wsym_io.specs.Io.{file_bytes, Rose};
ghost use Rattle.wsym_io.specs.Files.{files_of};
ghost use Rattle.wsym_io.specs.Faulty.{is_numbered, shelf_fails, shelf_after, sink_fails, sink_after};

use crate::shelves::{Shelf, ShelfFault, ShelfFile, first_bytes, first_named};
use crate::sinks::{Sink, SinkFault};
use std::alloc::Global;
use std::marker::Model;

/// Whether the call of that number is one of those that fail.
fn is_failing(failing: &[u64], call: u128) -> bool
    ensures { result ≡ is_numbered failing.now call }
{
    failing.iter().any(|number| u128::from(*number) == call)
}

/// A shelf in memory that says its content, and fails at the calls of chosen numbers and at calls for
/// a name that isn't there.
///
/// It is seen as the record of its files, the numbers of the calls that fail, the calls so far and its
/// faults. It has one count of faults for all names.
#[derive(Drop)]
pub struct MemShelf {
    files: Vec<ShelfFile>,
    failing: Vec<u64>,
    // Numbers of 128 bits, so that no call from 2^64 on is taken for an earlier one.
    calls: u128,
    faults: u64,
}

impl Model for MemShelf {
    ghost use Rattle.wsym_io.specs.Files.{files_of};
    ghost use Rattle.wsym_io.specs.Faulty.{ShelfState};

    ghost Value = { ShelfState };

    ghost view = { λ shelf. record {
      files = files_of shelf.files.items;
      failing = shelf.failing.items;
      calls = shelf.calls;
      faults = shelf.faults;
    } };
}

impl MemShelf {
    /// The shelf of these files, whose calls of the numbers in `failing`, counted from 0, fail.
    pub fn new(files: Vec<ShelfFile>, failing: Vec<u64>) -> MemShelf
        ensures files { result.files ≡ files_of files.items }
        ensures failing { result.failing ≡ failing.items }
        ensures calls { result.calls ≡ 0 }
        ensures faults { result.faults ≡ 0 }
    {
        MemShelf {
            files,
            failing,
            calls: 0,
            faults: 0,
        }
    }
}

impl Shelf for MemShelf {
    ghost content = { λ shelf. Some shelf.files };

    ghost faults = { λ shelf _. shelf.faults };

    /// The first `most` bytes of the first file of that name. `Failed` comes exactly at the calls of the
    /// chosen numbers and where no file has that name.
    fn read_all(&mut self, alloc: Global, name: &str, most: u64) -> Result<Vec<u8>, ShelfFault>
        ensures short { IfOk result (λ bytes. length bytes.items ≤ most) }
        ensures told { IfOk result (λ bytes. bytes.items ≡ take most (file_bytes self.old.files name.now)) }
        ensures exactly { IsErrOf result ShelfFault.Failed ↔ IsTrue (shelf_fails self.old name.now) }
        ensures after { self.new ≡ shelf_after self.old name.now }
        ensures later { self.old.faults ≤ self.new.faults }
        ensures failed { IsErrOf result ShelfFault.Failed → Rose self.old.faults self.new.faults }
    {
        let failing = is_failing(&self.failing, self.calls);
        self.calls = self.calls.saturating_add(1);
        match first_named(&self.files, name) {
            Some(file) if !failing => first_bytes(alloc, &file.bytes, most),
            _ => {
                self.faults = self.faults.saturating_add(1);
                Err(ShelfFault::Failed)
            }
        }
    }
}

/// A sink in memory that takes a piece in small parts, and fails at the calls of chosen numbers.
///
/// It is seen as the record of the bytes that it took, the most bytes that a call takes, the numbers of
/// the calls that fail, the calls so far and its faults.
#[derive(Drop)]
pub struct MemSink {
    bytes: Vec<u8>,
    most: usize,
    failing: Vec<u64>,
    // Numbers of 128 bits, so that no call from 2^64 on is taken for an earlier one.
    calls: u128,
    faults: u64,
}

impl Model for MemSink {
    ghost use Rattle.std.specs.Prelude.{◌<◌};
    ghost use Rattle.wsym_io.specs.Faulty.{SinkState};

    ghost Value = { SinkState };

    ghost view = { λ sink. record {
      written = sink.bytes.items;
      most = sink.most;
      failing = sink.failing.items;
      calls = sink.calls;
      faults = sink.faults;
    } };

    ghost invariant = { λ sink. 0 < sink.most };
}

impl MemSink {
    /// A sink that has taken nothing, takes at most `most` bytes a call, at least 1, and fails at the
    /// calls of the numbers in `failing`, counted from 0. It keeps the allocator for what it takes.
    pub fn new(alloc: Global, most: usize, failing: Vec<u64>) -> MemSink
        requires { 0 < most }
        ensures written { result.written ≡ [] }
        ensures most { result.most ≡ most }
        ensures failing { result.failing ≡ failing.items }
        ensures calls { result.calls ≡ 0 }
        ensures faults { result.faults ≡ 0 }
    {
        MemSink {
            bytes: Vec::new(alloc),
            most,
            failing,
            calls: 0,
            faults: 0,
        }
    }

    /// The bytes that the sink took, in order.
    pub fn written(&self) -> &[u8]
        ensures { result.now ≡ self.now.written }
    {
        &self.bytes
    }
}

impl Sink for MemSink {
    ghost contents = { λ sink. Some sink.written };

    ghost faults = { λ sink. sink.faults };

    /// Takes the first bytes of the piece, as many as a call takes. `Failed` comes exactly at the calls
    /// of the chosen numbers.
    fn write(&mut self, piece: &[u8]) -> Result<usize, SinkFault>
        requires { 0 < length piece.now }
        ensures some { IfOk result (λ count. 0 < count) }
        ensures counted { IfOk result (λ count. count ≡ min self.old.most (length piece.now)) }
        ensures taken { IfOk result (λ count. self.new ≡ sink_after self.old (take count piece.now)) }
        ensures err { OnErr result (self.new ≡ sink_after self.old []) }
        ensures exactly { IsErrOf result SinkFault.Failed ↔ IsTrue (sink_fails self.old) }
        ensures later { self.old.faults ≤ self.new.faults }
        ensures failed { IsErrOf result SinkFault.Failed → Rose self.old.faults self.new.faults }
    {
        let failing = is_failing(&self.failing, self.calls);
        self.calls = self.calls.saturating_add(1);
        if failing {
            self.faults = self.faults.saturating_add(1);
            return Err(SinkFault::Failed);
        }
        let count = self.most.min(piece.len());
        self.bytes.extend_from_slice(&piece[..count])?;
        Ok(count)
    }
}
