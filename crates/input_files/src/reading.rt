//! Files by their names.

ghost use Rattle.std.specs.Prelude.{◌≡◌, ◌≤◌, ℕ, List, [], ◌∷◌, false, IfOk, IfErr};
ghost use Rattle.wsym_io.specs.Io.{IfTold, file_bytes};
ghost use Rattle.input_files.specs.Inputs.{AreRead, IsUnread, is_any_long, is_long};

use command_words::Word;
use sqlite_items::Items;
use std::alloc::Global;
use wsym_io::{Shelf, ShelfFault};

/// The greatest number of bytes that a file may have.
const LONGEST: u64 = 67_108_864;

/// Why a file could not be read.
#[derive(Clone, Copy)]
pub enum InputRefusal {
    /// Memory was refused.
    Memory,
    /// The shelf failed.
    ReadFault,
    /// The file has more than 67,108,864 bytes.
    TooLong,
}

/// The bytes of a file.
///
/// # Errors
///
/// `TooLong` for a file of more than 67,108,864 bytes; `ReadFault` where the shelf failed, whose count of faults of this
/// name rose then; `Memory` where memory was refused.
pub fn read_file<F: Shelf>(
    alloc: Global,
    name: &str,
    shelf: &mut F,
) -> Result<Items<u8>, InputRefusal>
    ensures told { IfOk result (λ bytes. IfTold (F.content shelf.old) (λ files. bytes ≡ file_bytes files name.now)) }
    ensures short { IfOk result (λ bytes. is_long bytes ≡ false) }
    ensures refused { IfErr result
        (IsUnread (F.content shelf.old) (F.faults shelf.old) (F.faults shelf.new) (name.now ∷ [])) }
    ensures content { F.content shelf.new ≡ F.content shelf.old }
    ensures later { (other : List ℕ) → F.faults shelf.old other ≤ F.faults shelf.new other }
{
    match shelf.read_all(alloc, name, LONGEST + 1) {
        Ok(bytes) => {
            if bytes.len() as u64 > LONGEST {
                Err(InputRefusal::TooLong)
            } else {
                Ok(Items::from_vec(bytes))
            }
        }
        Err(ShelfFault::Failed) => Err(InputRefusal::ReadFault),
        Err(ShelfFault::Memory) => Err(InputRefusal::Memory),
    }
}

/// The bytes of the files of these names, read in their order.
///
/// # Errors
///
/// That of the first file that can't be read; the files after it are not asked for.
pub fn read_files<F: Shelf>(
    alloc: Global,
    names: &[Word],
    shelf: &mut F,
) -> Result<Vec<Items<u8>>, InputRefusal>
    ensures told { IfOk result (λ files. AreRead (F.content shelf.old) names.now files.items) }
    ensures short { IfOk result (λ files. is_any_long files.items ≡ false) }
    ensures refused { IfErr result (IsUnread (F.content shelf.old) (F.faults shelf.old) (F.faults shelf.new) names.now) }
    ensures content { F.content shelf.new ≡ F.content shelf.old }
    ensures later { (other : List ℕ) → F.faults shelf.old other ≤ F.faults shelf.new other }
{
    let mut files = Vec::new(alloc);
    for name in names {
        let bytes = match read_file(alloc, name.as_str(), shelf) {
            Ok(bytes) => bytes,
            Err(why) => return Err(why),
        };
        match files.push(bytes) {
            Ok(()) => {}
            Err(_) => return Err(InputRefusal::Memory),
        }
    }
    Ok(files)
}
