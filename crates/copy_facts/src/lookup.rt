//! Words by their numbers.

ghost use Rattle.std.specs.Prelude.{◌≡◌, ℕ, ◌<◌, ◌≤◌, ◌-◌, ◌^◌, Some, length, slice_get, OnOk};
ghost use Rattle.copy_facts.specs.declared.tables.WordFacts.{WordFacts as WordFactsValue};
ghost use Rattle.copy_facts.specs.Tables.{RisesTo, entry_in, nothing_of, with_entry};

use crate::tables::WordFacts;
use std::alloc::AllocError;

/// The place of the first word that isn't below this one.
fn place_of(words: &[WordFacts], word: u32) -> usize
    requires { RisesTo 0 (2 ^ 32 - 1) words.now }
    ensures before { (i : ℕ) (w : WordFactsValue) → i < result → slice_get words.now i ≡ Some w → w.word < word }
    ensures after { (i : ℕ) (w : WordFactsValue) → result ≤ i → slice_get words.now i ≡ Some w → word ≤ w.word }
{
    let mut low = 0;
    let mut high = words.len();
    while low < high {
        let middle = low + (high - low) / 2;
        if words[middle].word < word {
            low = middle + 1;
        } else {
            high = middle;
        }
    }
    low
}

/// What a list says of a word.
pub fn find(words: &[WordFacts], word: u32) -> WordFacts
    requires { RisesTo 0 (2 ^ 32 - 1) words.now }
    ensures { result ≡ entry_in words.now word }
{
    match words.get(place_of(words, word)) {
        Some(entry) => {
            if entry.word == word {
                *entry
            } else {
                nothing_of(word)
            }
        }
        None => nothing_of(word),
    }
}

/// A word of which nothing is known.
fn nothing_of(word: u32) -> WordFacts
    ensures { result ≡ nothing_of word }
{
    WordFacts {
        word,
        cell: None,
        kept: false,
    }
}

/// Writes a word down at the end of a list, where it has a cell or a mark.
pub fn put(words: &mut Vec<WordFacts>, entry: WordFacts) -> Result<(), AllocError>
    ensures { OnOk result (words.new.items ≡ with_entry words.old.items entry) }
{
    if entry.cell.is_some() || entry.kept {
        words.push(entry)?;
    }
    Ok(())
}
