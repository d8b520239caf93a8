//! Shelves: where a program reads its files.

ghost use Rattle.std.specs.Prelude.{◌≡◌, ◌↔◌, ℕ, ◌+◌, ◌-◌, ◌^◌, ◌≤◌, min, true, false, List, [], Option, length, take, IfOk, IfSome, IfNone, IsErrOf};
ghost use Rattle.wsym_io.specs.Io.{File, Rose, IfTold, file_bytes, has_file};
ghost use Rattle.wsym_io.specs.Files.{files_of};
ghost use Rattle.wsym_io.specs.declared.shelves.ShelfFault.TheVariants.{Memory};
ghost use Rattle.std.specs.IoError.{error_kind};
ghost use Rattle.std.specs.declared.io.ErrorKind.TheVariants.{OutOfMemory};

use std::alloc::{AllocError, Global};
use std::io;
use thiserror::Error;

/// Why a shelf gave no bytes.
#[derive(Clone, Copy, Debug, Error)]
pub enum ShelfFault {
    /// The file can't be read. The shelf's count of faults for that name rose.
    #[error("the file can't be read")]
    Failed,
    /// Memory was refused, which can come at any call.
    #[error("out of memory")]
    Memory,
}

impl From<AllocError> for ShelfFault {
    ghost from_gives = { λ _ fault. fault ≡ Memory };

    fn from(_error: AllocError) -> ShelfFault {
        ShelfFault::Memory
    }
}

impl From<io::Error> for ShelfFault {
    ghost from_gives = { λ error fault. (fault ≡ Memory) ↔ (error_kind error ≡ OutOfMemory) };

    fn from(error: io::Error) -> ShelfFault {
        match error.kind() {
            io::ErrorKind::OutOfMemory => ShelfFault::Memory,
            _ => ShelfFault::Failed,
        }
    }
}

/// A file in memory: its name, which may be any text, and its bytes.
#[derive(Drop)]
pub struct ShelfFile {
    pub name: String,
    pub bytes: Vec<u8>,
}

/// What gives the bytes of a file by its name.
///
/// A shelf may say its content, a list of names with bytes, and has for each name a count of faults
/// that never falls and stays at 2^64 − 1 once it is there.
pub trait Shelf {
    ghost content: { Self → Option (List File) };

    ghost faults: { Self → List ℕ → ℕ };

    /// The first `most` bytes of the first file of that name, or all of a shorter one.
    ///
    /// A shelf that says its content may answer no bytes for a name that isn't there. `Failed` comes
    /// only where the count of faults of this name rose, and `Memory` wherever memory is refused. The
    /// content stays.
    fn read_all(&mut self, alloc: Global, name: &str, most: u64) -> Result<Vec<u8>, ShelfFault>
        ensures short { IfOk result (λ bytes. length bytes.items ≤ most) }
        ensures told { IfOk result (λ bytes. IfTold (content self.old)
            (λ files. bytes.items ≡ take most (file_bytes files name.now))) }
        ensures content { content self.new ≡ content self.old }
        ensures later { (other : List ℕ) → faults self.old other ≤ faults self.new other }
        ensures failed { IsErrOf result ShelfFault.Failed → Rose (faults self.old name.now) (faults self.new name.now) };
}

/// The first file of that name.
pub(crate) fn first_named<'a>(files: &'a [ShelfFile], name: &str) -> Option<&'a ShelfFile>
    ensures bytes { IfSome result (λ file. file.now.bytes.items ≡ file_bytes (files_of files.now) name.now) }
    ensures there { IfSome result (λ file. has_file (files_of files.now) name.now ≡ true) }
    ensures no_bytes { IfNone result (file_bytes (files_of files.now) name.now ≡ []) }
    ensures absent { IfNone result (has_file (files_of files.now) name.now ≡ false) }
{
    for file in files {
        if file.name.as_str() == name {
            return Some(file);
        }
    }
    None
}

/// A copy of the first `most` bytes.
pub(crate) fn first_bytes(alloc: Global, bytes: &[u8], most: u64) -> Result<Vec<u8>, ShelfFault>
    ensures first { IfOk result (λ copy. copy.items ≡ take most bytes.now) }
    ensures memory { IsErrOf result ShelfFault.Failed → ⊥ }
{
    let count = most.min(bytes.len() as u64) as usize;
    Ok(bytes[..count].to_vec(alloc)?)
}
