//! A shelf and a sink in memory that never fail.

ghost use Rattle.std.specs.Prelude.{◌≡◌, ℕ, ◌+◌, ◌-◌, ◌^◌, ◌<◌, ◌≤◌, min, Some, List, [], ◌++◌, length, take, IfOk, OnErr, IsErrOf};
ghost use Rattle.wsym_io.specs.Io.{file_bytes};
ghost use Rattle.wsym_io.specs.Files.{files_of};

use crate::shelves::{Shelf, ShelfFault, ShelfFile, first_bytes, first_named};
use crate::sinks::{Sink, SinkFault};
use std::alloc::Global;
use std::marker::Model;

/// A shelf in memory that says its content and never fails. It is seen as the list of its files.
#[derive(Drop)]
pub struct PlainShelf {
    files: Vec<ShelfFile>,
}

impl Model for PlainShelf {
    ghost use Rattle.std.specs.Prelude.{List};
    ghost use Rattle.wsym_io.specs.Io.{File};
    ghost use Rattle.wsym_io.specs.Files.{files_of};

    ghost Value = { List File };

    ghost view = { λ shelf. files_of shelf.files.items };
}

impl PlainShelf {
    /// The shelf of these files. Of several files of one name the first is read.
    pub fn new(files: Vec<ShelfFile>) -> PlainShelf
        ensures { result ≡ files_of files.items }
    {
        PlainShelf { files }
    }
}

impl Shelf for PlainShelf {
    ghost content = { λ files. Some files };

    ghost faults = { λ _ _. 0 };

    /// The first `most` bytes of the first file of that name, and no bytes where there is none.
    fn read_all(&mut self, alloc: Global, name: &str, most: u64) -> Result<Vec<u8>, ShelfFault>
        ensures short { IfOk result (λ bytes. length bytes.items ≤ most) }
        ensures told { IfOk result (λ bytes. bytes.items ≡ take most (file_bytes self.old name.now)) }
        ensures content { self.new ≡ self.old }
        ensures never { IsErrOf result ShelfFault.Failed → ⊥ }
    {
        match first_named(&self.files, name) {
            Some(file) => first_bytes(alloc, &file.bytes, most),
            None => Ok(Vec::new(alloc)),
        }
    }
}

/// A sink in memory that takes each piece whole and never fails. It is seen as the bytes that it took.
#[derive(Drop)]
pub struct PlainSink {
    bytes: Vec<u8>,
}

impl Model for PlainSink {
    ghost use Rattle.std.specs.Prelude.{List, ℕ};

    ghost Value = { List ℕ };

    ghost view = { λ sink. sink.bytes.items };
}

impl PlainSink {
    /// A sink that has taken nothing. It keeps the allocator for what it takes.
    pub fn new(alloc: Global) -> PlainSink
        ensures { result ≡ [] }
    {
        PlainSink {
            bytes: Vec::new(alloc),
        }
    }

    /// The bytes that the sink took, in order.
    pub fn written(&self) -> &[u8]
        ensures { result.now ≡ self.now }
    {
        &self.bytes
    }
}

impl Sink for PlainSink {
    ghost contents = { λ bytes. Some bytes };

    ghost faults = { λ _. 0 };

    /// Takes the whole piece.
    fn write(&mut self, piece: &[u8]) -> Result<usize, SinkFault>
        requires { 0 < length piece.now }
        ensures whole { IfOk result (λ count. count ≡ length piece.now) }
        ensures taken { IfOk result (λ count. self.new ≡ self.old ++ piece.now) }
        ensures err { OnErr result (self.new ≡ self.old) }
        ensures never { IsErrOf result SinkFault.Failed → ⊥ }
    {
        self.bytes.extend_from_slice(piece)?;
        Ok(piece.len())
    }
}
