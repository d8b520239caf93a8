use std::rt::Env;
use std::{env, io};

/// Why there are no words.
#[derive(Clone, Copy)]
pub(crate) enum WordsError {
    /// Memory was refused.
    Memory,
    /// The system refused them, as where one is no UTF-8.
    Refused,
}

/// The words that the program was given, without its name.
pub(crate) fn given_words<R: Env + AllocGlobal>(rt: &R) -> Result<Vec<String>, WordsError> {
    let mut words = Vec::new(rt.alloc());
    let args = env::args(rt).map_err(cause)?;
    for word in args.skip(1) {
        words.push(word).map_err(|_| WordsError::Memory)?;
    }
    Ok(words)
}

fn cause(error: io::Error) -> WordsError {
    if error.kind() == io::ErrorKind::OutOfMemory {
        WordsError::Memory
    } else {
        WordsError::Refused
    }
}
