//! Commands and their words.

ghost use Rattle.std.specs.Prelude.{◌≡◌, ◌++◌, ◌∷◌, [], IfOk, IfSome, OnOk, map, string_bytes};
ghost use Rattle.command_words.specs.Commands.{analyse_of, command_of, eval_of, files_of, files_of_task, run_of, HasSetup};
ghost use Rattle.command_words.specs.Places.{timing_files};

use crate::analyses::{AnalysisSetup, read_analysis_setup};
use crate::options::{Setup, read_setup};
use crate::places::{Places, Task, TimingWord, read_places};
use crate::valuations::{Valuation, read_valuation};
use crate::word::Word;
use std::alloc::{AllocError, Global};

/// What the words ask for.
#[derive(Drop)]
pub enum Command {
    /// The report of a function, for parameters in their ranges and a size of the stack.
    Analyse(Task, AnalysisSetup),
    /// A run of a function on the reference machine.
    Run(Task, Setup),
    /// The value of a report's formula at values of its parameters.
    Eval(Valuation),
}

/// What the words of the command line, without the program's name, ask for: `None` exactly where they are wrong.
/// The parameters of an analysis and the values of a run are of registers 0 to 12, each at most once, a stack has at
/// most 1,048,576 bytes, and a run may make 1 to 1,000,000,000,000 steps.
///
/// # Errors
///
/// Where memory is refused.
pub fn read_command(alloc: Global, words: &[String]) -> Result<Option<Command>, AllocError>
    ensures value { IfOk result (λ found. found ≡ command_of (map string_bytes words.now)) }
    ensures setup { IfOk result (λ found. IfSome found HasSetup) }
{
    let Some((command, words)) = words.split_first() else {
        return Ok(None);
    };
    if command.as_str() == "analyse" {
        read_analysis(alloc, words)
    } else if command.as_str() == "run" {
        read_run(alloc, words)
    } else if command.as_str() == "eval" {
        read_eval(alloc, words)
    } else {
        Ok(None)
    }
}

fn read_analysis(alloc: Global, words: &[String]) -> Result<Option<Command>, AllocError>
    ensures value { IfOk result (λ found. found ≡ analyse_of (map string_bytes words.now)) }
    ensures setup { IfOk result (λ found. IfSome found HasSetup) }
{
    let Some(Places { task, options }) = read_places(alloc, words)? else {
        return Ok(None);
    };
    match read_analysis_setup(alloc, options)? {
        Some(setup) => Ok(Some(Command::Analyse(task, setup))),
        None => Ok(None),
    }
}

fn read_run(alloc: Global, words: &[String]) -> Result<Option<Command>, AllocError>
    ensures value { IfOk result (λ found. found ≡ run_of (map string_bytes words.now)) }
    ensures setup { IfOk result (λ found. IfSome found HasSetup) }
{
    let Some(Places { task, options }) = read_places(alloc, words)? else {
        return Ok(None);
    };
    match read_setup(alloc, options)? {
        Some(setup) => Ok(Some(Command::Run(task, setup))),
        None => Ok(None),
    }
}

fn read_eval(alloc: Global, words: &[String]) -> Result<Option<Command>, AllocError>
    ensures value { IfOk result (λ found. found ≡ eval_of (map string_bytes words.now)) }
    ensures setup { IfOk result (λ found. IfSome found HasSetup) }
{
    match read_valuation(alloc, words)? {
        Some(valuation) => Ok(Some(Command::Eval(valuation))),
        None => Ok(None),
    }
}

/// Adds the name of a timing file, where one is meant.
fn add_timing(alloc: Global, timing: &TimingWord, names: &mut Vec<Word>) -> Result<(), AllocError>
    ensures { OnOk result (names.new.items ≡ names.old.items ++ timing_files timing.now) }
{
    match timing {
        TimingWord::UnitTable => {}
        TimingWord::File(name) => names.push(Word::of(alloc, name.as_str())?)?,
    }
    Ok(())
}

/// The names of the files of a task.
fn files_of_task(alloc: Global, task: &Task) -> Result<Vec<Word>, AllocError>
    ensures { IfOk result (λ names. names.items ≡ files_of_task task.now) }
{
    let mut names = Vec::new(alloc);
    names.push(Word::of(alloc, task.elf.as_str())?)?;
    add_timing(alloc, &task.timing, &mut names)?;
    Ok(names)
}

/// The name of one file.
fn one_file(alloc: Global, name: &Word) -> Result<Vec<Word>, AllocError>
    ensures { IfOk result (λ names. names.items ≡ name.now ∷ []) }
{
    let mut names = Vec::new(alloc);
    names.push(Word::of(alloc, name.as_str())?)?;
    Ok(names)
}

impl Command {
    /// The names of the files that the command reads, in the order of the words.
    ///
    /// # Errors
    ///
    /// Where memory is refused.
    pub fn files(&self, alloc: Global) -> Result<Vec<Word>, AllocError>
        ensures { IfOk result (λ names. names.items ≡ files_of self.now) }
    {
        match self {
            Command::Analyse(task, _) | Command::Run(task, _) => files_of_task(alloc, task),
            Command::Eval(valuation) => one_file(alloc, &valuation.report),
        }
    }
}
