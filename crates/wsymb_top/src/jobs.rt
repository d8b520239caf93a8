//! What a command works on.

ghost use Rattle.std.specs.Prelude.{◌≡◌, Ok, Err, IfOk, IfErr};
ghost use Rattle.fetch_timing.specs.Timings.{IsWithinLimits};
ghost use Rattle.wsymb_top.specs.Jobs.{entry_in, file_at, image_in, job_of, timing_in};
ghost use Rattle.wsymb_top.specs.Refusals.{IsMemory};

use crate::refusals::Refusal;
use command_words::{FunctionWord, Task, TimingWord};
use elf32_image::{Image, read_image};
use fetch_timing::{Timing, TimingRefusal, read_timing};
use sqlite_items::Items;
use std::alloc::Global;

/// A function of an image, and the timing by which its cycles count.
#[derive(Drop)]
pub(crate) struct Job {
    /// The image of the ELF file.
    pub image: Image,
    /// The timing, within its limits.
    pub timing: Timing,
    /// The address of the function.
    pub entry: u32,
}

/// The bytes of a file by its place among those of a command, and none where it has no such file.
pub(crate) fn file_at(files: &[Items<u8>], place: usize) -> &[u8]
    ensures { result.now ≡ file_at files.now place }
{
    match files.get(place) {
        Some(bytes) => bytes.as_slice(),
        None => &[],
    }
}

/// The job of a task whose files hold these bytes, or the first cause why there is none.
pub(crate) fn load(alloc: Global, task: &Task, files: &[Items<u8>]) -> Result<Job, Refusal>
    ensures job { IfOk result (λ job. job_of task.now files.now ≡ Ok job) }
    ensures limits { IfOk result (λ job. IsWithinLimits job.timing) }
    ensures refused { IfErr result (λ why. (IsMemory why → ⊥) → job_of task.now files.now ≡ Err why) }
{
    let image = match image_in(alloc, file_at(files, 0)) {
        Ok(image) => image,
        Err(why) => return Err(why),
    };
    let entry = entry_in(&image, &task.function)?;
    let timing = timing_in(alloc, &task.timing, files)?;
    Ok(Job {
        image,
        timing,
        entry,
    })
}

/// The image of the ELF file, or why it has none.
fn image_in(alloc: Global, bytes: &[u8]) -> Result<Image, Refusal>
    ensures image { IfOk result (λ image. image_in bytes.now ≡ Ok image) }
    ensures refused { IfErr result (λ why. (IsMemory why → ⊥) → image_in bytes.now ≡ Err why) }
{
    match read_image(alloc, bytes) {
        Ok(image) => Ok(image),
        Err(why) => Err(Refusal::Image(why)),
    }
}

/// The address of the function, or why it has none.
fn entry_in(image: &Image, function: &FunctionWord) -> Result<u32, Refusal>
    ensures { result ≡ entry_in image.now function.now }
{
    match function {
        FunctionWord::Address(address) => Ok(*address),
        FunctionWord::Symbol(name) => match image.function(name.as_str()) {
            Ok(address) => Ok(address),
            Err(why) => Err(Refusal::Name(why)),
        },
    }
}

/// The timing of the second file, or the built-in table where none is named.
fn timing_in(alloc: Global, word: &TimingWord, files: &[Items<u8>]) -> Result<Timing, Refusal>
    ensures timing { IfOk result (λ timing. timing_in word.now files.now ≡ Ok timing) }
    ensures limits { IfOk result (λ timing. IsWithinLimits timing) }
    ensures refused { IfErr result (λ why. (IsMemory why → ⊥) → timing_in word.now files.now ≡ Err why) }
{
    match word {
        TimingWord::UnitTable => Ok(Timing::unit()),
        TimingWord::File(_) => match read_timing(alloc, file_at(files, 1)) {
            Ok(timing) => Ok(timing),
            Err(TimingRefusal::Bad) => Err(Refusal::BadTiming),
            Err(TimingRefusal::Memory) => Err(Refusal::Memory),
        },
    }
}
