//! The shelf of the system's files and the sink of standard output.
//!
//! What the system's files hold and what standard output shows is trusted: neither says its content.

ghost use Rattle.std.specs.Prelude.{◌≡◌, ℕ, ◌+◌, ◌-◌, ◌^◌, ◌<◌, ◌≤◌, min, None, List, length, take, IfOk, OnOk, OnErr, IsErrOf};
ghost use Rattle.wsym_io.specs.Io.{raised, Rose, IfTold};

use crate::shelves::{Shelf, ShelfFault};
use crate::sinks::{Sink, SinkFault};
use crate::streams::{read_first, write_first};
use std::alloc::Global;
use std::marker::Model;
use std::rt::Files;
use std::{fs, io};

/// The system's files, by their paths. It says no content, and is seen as its count of faults.
#[derive(Drop)]
pub struct FileShelf<'a, R: Files> {
    rt: &'a R,
    faults: u64,
}

impl<'a, R: Files> Model for FileShelf<'a, R> {
    ghost use Rattle.std.specs.Prelude.{ℕ};

    ghost Value = { ℕ };

    ghost view = { λ shelf. shelf.faults };
}

impl<'a, R: Files> FileShelf<'a, R> {
    /// The shelf of the files that this runtime reaches. It borrows the runtime.
    pub fn new(rt: &'a R) -> FileShelf<'a, R>
        ensures { result ≡ 0 }
    {
        FileShelf { rt, faults: 0 }
    }
}

impl<'a, R: Files> Shelf for FileShelf<'a, R> {
    ghost content = { λ _. None };

    ghost faults = { λ faults _. faults };

    /// The bytes of the file, up to its end or to `most` bytes. Each error raises the count of faults.
    fn read_all(&mut self, alloc: Global, name: &str, most: u64) -> Result<Vec<u8>, ShelfFault>
        ensures short { IfOk result (λ bytes. length bytes.items ≤ most) }
        ensures opened { IfOk result (λ bytes. (file : R.File) × IfTold (R.File.remaining file) (λ given. bytes.items ≡ take most given)) }
        ensures ok { OnOk result (self.new ≡ self.old) }
        ensures err { OnErr result (self.new ≡ raised self.old) }
        ensures later { self.old ≤ self.new }
        ensures failed { IsErrOf result ShelfFault.Failed → Rose self.old self.new }
    {
        let bytes = read_file(self.rt, alloc, name, most);
        if bytes.is_err() {
            self.faults = self.faults.saturating_add(1);
        }
        bytes
    }
}

/// The file that is opened by that name is read, and no bytes come without one.
fn read_file<R: Files>(rt: &R, alloc: Global, name: &str, most: u64) -> Result<Vec<u8>, ShelfFault>
    ensures short { IfOk result (λ bytes. length bytes.items ≤ most) }
    ensures opened { IfOk result (λ bytes. (file : R.File) × IfTold (R.File.remaining file) (λ given. bytes.items ≡ take most given)) }
{
    let mut file = fs::open(rt, name)?;
    read_first(&mut file, alloc, most)
}

/// Standard output. It says no contents, and is seen as its count of faults.
#[derive(Drop)]
pub struct StdoutSink<'a, R: Print> {
    rt: &'a R,
    faults: u64,
}

impl<'a, R: Print> Model for StdoutSink<'a, R> {
    ghost use Rattle.std.specs.Prelude.{ℕ};

    ghost Value = { ℕ };

    ghost view = { λ sink. sink.faults };
}

impl<'a, R: Print> StdoutSink<'a, R> {
    /// The standard output of this runtime. It borrows the runtime.
    pub fn new(rt: &'a R) -> StdoutSink<'a, R>
        ensures { result ≡ 0 }
    {
        StdoutSink { rt, faults: 0 }
    }
}

impl<'a, R: Print> Sink for StdoutSink<'a, R> {
    ghost contents = { λ _. None };

    ghost faults = { λ faults. faults };

    /// Hands the piece to standard output, which takes some first bytes of it. Each error raises the
    /// count of faults. A write that takes nothing is an error.
    fn write(&mut self, piece: &[u8]) -> Result<usize, SinkFault>
        requires { 0 < length piece.now }
        ensures some { IfOk result (λ count. 0 < count) }
        ensures within { IfOk result (λ count. count ≤ length piece.now) }
        ensures ok { OnOk result (self.new ≡ self.old) }
        ensures err { OnErr result (self.new ≡ raised self.old) }
        ensures later { self.old ≤ self.new }
        ensures failed { IsErrOf result SinkFault.Failed → Rose self.old self.new }
    {
        let count = write_first(&mut io::writer(self.rt), piece);
        if count.is_err() {
            self.faults = self.faults.saturating_add(1);
        }
        count
    }
}
