//! Reads formulas.

ghost use Rattle.std.specs.Prelude.{◌≡◌, IfOk, List, Some, [], true, ℕ};
ghost use Rattle.report_elements.specs.Constants.{list_fits, list_of};
ghost use Rattle.report_elements.specs.FormulaReading.{ends, fits, parsed, run, single};
ghost use Rattle.report_elements.specs.Elements.{term_text};
ghost use Rattle.wsym_formula.specs.declared.terms.Term.{Term as TermValue};

use crate::formula_brackets::{Frame, Head, Reading, close, only_member, take_word};
use crate::pile::Pile;
use sqlite_items::Items;
use std::alloc::{AllocError, Global};
use wsym_formula::Term;

fn end(
    alloc: Global,
    reading: Reading,
    word: &[u8],
    limit: usize,
) -> Result<Option<Reading>, AllocError>
    ensures { IfOk result (λ o. o ≡ ends list_of limit word.now reading) }
{
    match take_word(alloc, reading, word, limit)? {
        Some(reading) => close(alloc, reading),
        None => Ok(None),
    }
}

fn walk(
    alloc: Global,
    reading: Reading,
    text: &[u8],
    limit: usize,
) -> Result<Option<Reading>, AllocError>
    ensures { IfOk result (λ o. o ≡ run list_of limit [] reading text.now) }
{
    let mut reading = reading;
    let mut word: Vec<u8> = Vec::new(alloc);
    for byte in text {
        let byte = *byte;
        if byte == 32 {
            match take_word(alloc, reading, word.as_slice(), limit)? {
                Some(next) => reading = next,
                None => return Ok(None),
            }
            word.clear();
        } else if byte == 41 {
            match end(alloc, reading, word.as_slice(), limit)? {
                Some(next) => reading = next,
                None => return Ok(None),
            }
            word.clear();
        } else {
            word.push(byte)?;
        }
    }
    take_word(alloc, reading, word.as_slice(), limit)
}

/// Reads a formula; other texts may be read as well.
pub fn read_formula(alloc: Global, text: &[u8], limit: usize) -> Result<Option<Term>, AllocError>
    ensures { IfOk result (λ o. o ≡ parsed list_of limit text.now) }
{
    let start = Reading {
        top: Frame {
            head: Head::Top,
            members: Items::new(alloc),
        },
        below: Pile::new(alloc),
    };
    match walk(alloc, start, text, limit)? {
        Some(reading) => Ok(only_of(reading)),
        None => Ok(None),
    }
}

fn only_of(reading: Reading) -> Option<Term>
    ensures { result ≡ single list_of reading.top.members }
{
    let Reading { top, below: _ } = reading;
    let Frame { head: _, members } = top;
    only_member(members)
}

/// A law of `read_formula`: the text of a formula is read as the formula.
#[tactic(auto, using(crate::proofs::FormulaLaws::formula_read))]
pub fn formulas_are_read()
    ensures only { (loops limit : ℕ) (t : TermValue) → fits loops list_fits t limit ≡ true → parsed list_of limit (term_text t) ≡ Some t }
{}
