//! The program `wsymb`: its words are the command, files are read from the system, and the answer goes to
//! standard output.
#![tactic(auto)]

mod command;
mod words;

use crate::command::run_command;
use crate::words::{WordsError, given_words};
use std::process::ExitCode;
use wsymb_top::Status;

/// The status where memory for the words or the probes was refused.
const NO_MEMORY: Status = 1;

/// The status where the system refused the words, as where one is no UTF-8.
const NO_WORDS: Status = 6;

fn main(rt: HostRuntime) -> ExitCode {
    let status = match given_words(&rt) {
        Ok(words) => match run_command(&rt, &words) {
            Ok(status) => status,
            Err(_) => NO_MEMORY,
        },
        Err(WordsError::Memory) => NO_MEMORY,
        Err(WordsError::Refused) => NO_WORDS,
    };
    ExitCode::from(status)
}
