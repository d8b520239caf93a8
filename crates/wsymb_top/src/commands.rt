//! The commands: from their words to their texts.

ghost use Rattle.std.specs.Prelude.{◌≡◌, ◌≤◌, ◌<◌, ◌^◌, ℕ, List, false, IfOk, IfErr, map, length};
ghost use Rattle.command_words.specs.Commands.{HasSetup, files_of};
ghost use Rattle.input_files.specs.Inputs.{AreRead, IsUnread, is_any_long};
ghost use Rattle.command_words.specs.Options.{IsSetup};
ghost use Rattle.fetch_timing.specs.Timings.{IsWithinLimits};
ghost use Rattle.machine_probe.specs.Weights.{AreReady};
ghost use Rattle.wsymb_top.specs.Outcomes.{IsOfBytes, IsOfCommand, IsOfRun, IsRefusal, IsUnanswered, Outcome, running};

use crate::analysis::report_of;
use crate::jobs::{Job, file_at, load};
use crate::refusals::Refusal;
use crate::values::value_of;
use command_words::{Command, Setup};
use function_runs::run_function;
use input_files::{InputRefusal, read_files};
use machine_probe::Probe;
use sqlite_items::Items;
use std::alloc::Global;
use wsym_io::Shelf;

/// What the files of a command hold.
fn files_in<F: Shelf>(
    alloc: Global,
    command: &Command,
    shelf: &mut F,
) -> Result<Vec<Items<u8>>, InputRefusal>
    ensures told { IfOk result (λ files. AreRead (F.content shelf.old) (files_of command.now) files.items) }
    ensures short { IfOk result (λ files. is_any_long files.items ≡ false) }
    ensures refused { IfErr result
        (IsUnread (F.content shelf.old) (F.faults shelf.old) (F.faults shelf.new) (files_of command.now)) }
    ensures content { F.content shelf.new ≡ F.content shelf.old }
    ensures later { (other : List ℕ) → F.faults shelf.old other ≤ F.faults shelf.new other }
{
    match command.files(alloc) {
        Ok(names) => read_files(alloc, names.as_slice(), shelf),
        Err(_) => Err(InputRefusal::Memory),
    }
}

/// The text of a command, or why there is none.
pub(crate) fn answer_command<F: Shelf>(
    alloc: Global,
    command: Command,
    shelf: &mut F,
    probes: &mut Vec<Box<dyn Probe>>,
) -> Result<Vec<u8>, Refusal>
    requires setup { HasSetup command }
    requires few { length probes.old.items < 2 ^ 32 }
    requires tallies { AreReady (map standing probes.old.items) }

    ensures text { IfOk result (λ text. IsOfCommand (F.content shelf.old) (map standing probes.old.items) command
        (Outcome.Answers text.items)) }
    ensures refused { IfErr result (IsUnanswered (F.content shelf.old) (F.faults shelf.old) (F.faults shelf.new)
        (map standing probes.old.items) command) }
    ensures content { F.content shelf.new ≡ F.content shelf.old }
    ensures later { (name : List ℕ) → F.faults shelf.old name ≤ F.faults shelf.new name }
{
    match files_in(alloc, &command, shelf) {
        Ok(files) => answer_files(alloc, command, files.as_slice(), probes),
        Err(why) => Err(Refusal::Input(why)),
    }
}

/// The text of a command whose files hold these bytes, or why there is none.
fn answer_files(
    alloc: Global,
    command: Command,
    files: &[Items<u8>],
    probes: &mut Vec<Box<dyn Probe>>,
) -> Result<Vec<u8>, Refusal>
    requires setup { HasSetup command }
    requires few { length probes.old.items < 2 ^ 32 }
    requires tallies { AreReady (map standing probes.old.items) }

    ensures text { IfOk result (λ text. IsOfBytes command (map standing probes.old.items) files.now
        (Outcome.Answers text.items)) }
    ensures refused { IfErr result (IsRefusal (IsOfBytes command (map standing probes.old.items) files.now)) }
{
    match command {
        Command::Analyse(task, setup) => match load(alloc, &task, files) {
            Ok(job) => report_of(alloc, &job, setup),
            Err(why) => Err(why),
        },
        Command::Run(task, setup) => match load(alloc, &task, files) {
            Ok(job) => run_of(alloc, &job, &setup, probes),
            Err(why) => Err(why),
        },
        Command::Eval(valuation) => value_of(alloc, &valuation, file_at(files, 0)),
    }
}

/// The lines of a run, or why it has no result.
fn run_of(
    alloc: Global,
    job: &Job,
    setup: &Setup,
    probes: &mut Vec<Box<dyn Probe>>,
) -> Result<Vec<u8>, Refusal>
    requires limits { IsWithinLimits job.now.timing }
    requires setup { IsSetup setup.now }
    requires few { length probes.old.items < 2 ^ 32 }
    requires tallies { AreReady (map standing probes.old.items) }

    ensures text { IfOk result (λ text. IsOfRun (running setup.now (map standing probes.old.items) job.now)
        (Outcome.Answers text.items)) }
    ensures refused { IfErr result (IsRefusal (IsOfRun (running setup.now (map standing probes.old.items) job.now))) }
{
    match run_function(alloc, &job.image, &job.timing, job.entry, setup, probes) {
        Ok(text) => Ok(text),
        Err(why) => Err(Refusal::Run(why, setup.steps)),
    }
}
