//! Stack words after one store by r13.

ghost use Rattle.std.specs.Prelude.{◌≡◌};
ghost use Rattle.path_facts.specs.Sources.{bytes_store_source, mark_after_store, word_store_source};
ghost use Rattle.point_steps.specs.Meanings.{source_meant};

use crate::offsets::{is_at_word, touches};
use crate::source::{Location, Source};

/// A word after a register was stored, with its source without the store.
pub(crate) fn word_store_source(at: Option<u32>, register: u8, word: u32, before: Source) -> Source
    ensures { source_meant result ≡ word_store_source at register word (source_meant before) }
{
    match at {
        None => Source::Nothing,
        Some(offset) => {
            if is_at_word(offset, word) {
                Source::Copy(Location::Register(register))
            } else if touches(offset, 4, word) {
                Source::Nothing
            } else {
                before
            }
        }
    }
}

/// A word after other bytes were stored.
pub(crate) fn bytes_store_source(at: Option<u32>, bytes: u32, word: u32) -> Source
    ensures { source_meant result ≡ bytes_store_source at bytes word }
{
    match at {
        None => Source::Nothing,
        Some(offset) => {
            if touches(offset, bytes, word) {
                Source::Nothing
            } else {
                Source::Copy(Location::StackWord(word))
            }
        }
    }
}

/// Whether a word is marked after a store.
pub(crate) fn mark_after_store(
    at: Option<u32>,
    bytes: u32,
    word: u32,
    saves: bool,
    before: bool,
) -> bool
    ensures { result ≡ mark_after_store at bytes word saves before }
{
    match at {
        None => false,
        Some(offset) => {
            if is_at_word(offset, word) && saves {
                true
            } else if touches(offset, bytes, word) {
                false
            } else {
                before
            }
        }
    }
}
