//! The program over any shelf and sink.

ghost use Rattle.std.specs.Prelude.{◌≡◌, ◌≤◌, ◌<◌, ◌^◌, ◌⊎◌, ℕ, List, None, IfOk, IfErr, map, string_bytes, length};
ghost use Rattle.wsym_io.specs.Io.{IfTold, Rose, appended};
ghost use Rattle.command_words.specs.Commands.{command_of};
ghost use Rattle.machine_probe.specs.Weights.{AreReady};
ghost use Rattle.wsymb_top.specs.Answers.{IsAnswered, IsGiven, IsOnly, writing_of};
ghost use Rattle.wsymb_top.specs.Outcomes.{HasReadFault, IsDecided, IsDue, Outcome, call_of};
ghost use Rattle.wsymb_top.specs.Refusals.{line_of};

use crate::commands::answer_command;
use crate::delivery::deliver;
use crate::refusal_lines::refuse;
use crate::refusals::Refusal;
use crate::statuses::{ANSWERED, Status};
use command_words::read_command;
use function_runs::results_agree;
use input_files::InputRefusal;
use machine_probe::Probe;
use std::alloc::Global;
use wcet_core::analyses_agree;
use whole_reports::reports_are_read;
use wsym_io::{Shelf, Sink};

/// Runs the command that the words name, reads its files from the shelf, and writes the answer or one line of
/// refusal to the sink.
///
/// The status is 0 for an answer, else the number of the refusal ([`Refusal`]), or 4 where the sink failed.
/// Which words are right is said by the crate `command_words`. The probes watch a run, which says what they
/// counted: there are fewer than 2^32, each with a tally of at most 2^126. Other commands don't show them
/// anything. All of them are dropped here.
pub fn wsymb<F: Shelf, K: Sink>(
    alloc: Global,
    words: &Vec<String>,
    shelf: &mut F,
    out: &mut K,
    probes: Vec<Box<dyn Probe>>,
) -> Status
    requires few { length probes.items < 2 ^ 32 }
    requires tallies { AreReady (map standing probes.items) }

    // An outcome that is due for the words, the files and the probes is delivered.
    ensures answered { IsAnswered
        (call_of F.content F.faults (map string_bytes words.now.items) (map standing probes.items) shelf.old shelf.new)
        (writing_of K.contents K.faults out.old out.new) result }

    // And no other: but for 1, 3 and 4 the words, the files' bytes and the probes decide the status.
    ensures only { IfTold (F.content shelf.old) (λ files. IsOnly
        (call_of F.content F.faults (map string_bytes words.now.items) (map standing probes.items) shelf.old shelf.new) result) }

    // What an answer says: the report of an analysis keeps its promises, and a run is one of the machine.
    ensures given { result ≡ 0 → IsGiven
        (call_of F.content F.faults (map string_bytes words.now.items) (map standing probes.items) shelf.old shelf.new)
        (writing_of K.contents K.faults out.old out.new) }

    // What some statuses say, and what is written with them.
    ensures usage { result ≡ 2 → (command_of (map string_bytes words.now.items) ≡ None)
        × (K.contents out.new ≡ appended (K.contents out.old) (line_of Refusal.Usage)) }
    ensures read_fault { result ≡ 3 → HasReadFault
        (call_of F.content F.faults (map string_bytes words.now.items) (map standing probes.items) shelf.old shelf.new)
        × (K.contents out.new ≡ appended (K.contents out.old) (line_of (Refusal.Input InputRefusal.ReadFault))) }
    ensures write_fault { result ≡ 4 → Rose (K.faults out.old) (K.faults out.new) }
    ensures wrong_words { command_of (map string_bytes words.now.items) ≡ None
        → (result ≡ 2) ⊎ ((result ≡ 4) ⊎ (result ≡ 1)) }

    // What stays, and what never falls.
    ensures content { F.content shelf.new ≡ F.content shelf.old }
    ensures shelf_later { (name : List ℕ) → F.faults shelf.old name ≤ F.faults shelf.new name }
    ensures sink_later { K.faults out.old ≤ K.faults out.new }
{
    results_agree();
    analyses_agree();
    reports_are_read();
    let mut probes = probes;
    match answer(alloc, words.as_slice(), shelf, &mut probes) {
        Ok(text) => deliver(out, text.as_slice(), ANSWERED),
        Err(why) => refuse(alloc, out, &why),
    }
}

/// The text that the words ask for, or why there is none.
fn answer<F: Shelf>(
    alloc: Global,
    words: &[String],
    shelf: &mut F,
    probes: &mut Vec<Box<dyn Probe>>,
) -> Result<Vec<u8>, Refusal>
    requires few { length probes.old.items < 2 ^ 32 }
    requires tallies { AreReady (map standing probes.old.items) }

    ensures text { IfOk result (λ text. IsDecided
        (call_of F.content F.faults (map string_bytes words.now) (map standing probes.old.items) shelf.old shelf.new)
        (Outcome.Answers text.items)) }
    ensures refused { IfErr result (λ why. IsDue
        (call_of F.content F.faults (map string_bytes words.now) (map standing probes.old.items) shelf.old shelf.new)
        (Outcome.Refuses why)) }
    ensures content { F.content shelf.new ≡ F.content shelf.old }
    ensures later { (name : List ℕ) → F.faults shelf.old name ≤ F.faults shelf.new name }
{
    match read_command(alloc, words) {
        Ok(Some(command)) => answer_command(alloc, command, shelf, probes),
        Ok(None) => Err(Refusal::Usage),
        Err(_) => Err(Refusal::Memory),
    }
}
