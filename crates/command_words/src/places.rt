//! The words that stand directly after a command.

ghost use Rattle.std.specs.Prelude.{◌≡◌, Some, None, IfOk, IfSome, IfNone, map, string_bytes};
ghost use Rattle.command_words.specs.Parts.{has_equals_sign};
ghost use Rattle.command_words.specs.Places.{function_of, places_of, task_of, timing_of};

use crate::numerals::address;
use crate::word::Word;
use std::alloc::{AllocError, Global};

/// The word of the built-in cost table.
const UNIT: &str = "unit";

/// Which cost table and cache geometry costs rest on.
#[derive(Drop)]
pub enum TimingWord {
    /// The built-in table, by the word `unit`.
    UnitTable,
    /// The table in the file of this name.
    File(Word),
}

/// Which function is meant.
#[derive(Drop)]
pub enum FunctionWord {
    /// The function at this address, by `0x` with 1 to 8 hexadecimal digits.
    Address(u32),
    /// The function that the symbol of this name stands for; the name may be empty.
    Symbol(Word),
}

/// The function that a command is about.
#[derive(Drop)]
pub struct Task {
    /// The name of the ELF file, without `=`.
    pub elf: Word,
    /// The cost table; a file's name has no `=`.
    pub timing: TimingWord,
    /// The function; a symbol's name has no `=`.
    pub function: FunctionWord,
}

/// The words of the places, and those after them.
#[derive(Drop)]
pub(crate) struct Places<'a> {
    /// What the places ask for.
    pub task: Task,
    /// The words after the places.
    pub options: &'a [String],
}

/// The task of the first three words, or `None` where they are no task.
pub(crate) fn read_places(alloc: Global, words: &[String]) -> Result<Option<Places<'_>>, AllocError>
    ensures some { IfOk result (λ found. IfSome found (λ p. places_of (map string_bytes words.now)
        ≡ Some (p.task, map string_bytes p.options.now))) }
    ensures none { IfOk result (λ found. IfNone found (places_of (map string_bytes words.now) ≡ None)) }
{
    let Some((elf, words)) = words.split_first() else {
        return Ok(None);
    };
    let Some((timing, words)) = words.split_first() else {
        return Ok(None);
    };
    let Some((function, options)) = words.split_first() else {
        return Ok(None);
    };
    match read_task(alloc, elf.as_str(), timing.as_str(), function.as_str())? {
        Some(task) => Ok(Some(Places { task, options })),
        None => Ok(None),
    }
}

fn read_task(
    alloc: Global,
    elf: &str,
    timing: &str,
    function: &str,
) -> Result<Option<Task>, AllocError>
    ensures { IfOk result (λ found. found ≡ task_of elf.now timing.now function.now) }
{
    if has_equals_sign(elf) || has_equals_sign(timing) || has_equals_sign(function) {
        return Ok(None);
    }
    Ok(Some(Task {
        elf: Word::of(alloc, elf)?,
        timing: read_timing(alloc, timing)?,
        function: read_function(alloc, function)?,
    }))
}

/// Whether a word has `=`, which marks the words after the places.
pub(crate) fn has_equals_sign(word: &str) -> bool
    ensures { result ≡ has_equals_sign word.now }
{
    word.as_bytes().contains(&b'=')
}

fn read_timing(alloc: Global, word: &str) -> Result<TimingWord, AllocError>
    ensures { IfOk result (λ timing. timing ≡ timing_of word.now) }
{
    if word == UNIT {
        Ok(TimingWord::UnitTable)
    } else {
        Ok(TimingWord::File(Word::of(alloc, word)?))
    }
}

fn read_function(alloc: Global, word: &str) -> Result<FunctionWord, AllocError>
    ensures { IfOk result (λ function. function ≡ function_of word.now) }
{
    match address(word) {
        Some(address) => Ok(FunctionWord::Address(address)),
        None => Ok(FunctionWord::Symbol(Word::of(alloc, word)?)),
    }
}
