//! The open brackets of a formula that is read, and what a word means in them.

ghost use Rattle.std.specs.Prelude.{◌≡◌, IfOk, Some};
ghost use Rattle.report_elements.specs.Constants.{list_of};
ghost use Rattle.report_elements.specs.FormulaReading.{added, built_at, closed, opened, opener, single, with_head, word_in};
ghost use Rattle.wsym_formula.specs.declared.terms.Term.TheVariants as f;

use crate::constants::list_in;
use crate::digits::number;
use crate::pile::Pile;
use cost_multiset::Multi;
use sqlite_items::{Boxed, Items};
use std::alloc::{AllocError, Global};
use wsym_formula::Term;

/// What an open bracket is, and what comes next in it.
#[derive(Clone, Copy)]
pub enum Head {
    Top,
    Sum,
    Alt,
    OpenPower,
    Power { id: u32 },
    Once,
    OpenScaled,
    Scaled { id: u32 },
}

/// An open bracket with what was read in it.
#[derive(Drop)]
pub struct Frame {
    pub head: Head,
    pub members: Items<Term>,
}

/// The innermost open bracket and those round it.
#[derive(Drop)]
pub struct Reading {
    pub top: Frame,
    pub below: Pile<Frame>,
}

fn with_head_of(reading: Reading, head: Head) -> Reading
    ensures { result ≡ with_head list_of reading head }
{
    let Reading {
        top: Frame { head: _, members },
        below,
    } = reading;
    Reading {
        top: Frame { head, members },
        below,
    }
}

fn open(
    alloc: Global,
    reading: Reading,
    head: Head,
    limit: usize,
) -> Result<Option<Reading>, AllocError>
    ensures { IfOk result (λ o. o ≡ opened list_of limit head reading) }
{
    let Reading { top, mut below } = reading;
    if below.len() < limit {
        below.push(top)?;
        let top = Frame {
            head,
            members: Items::new(alloc),
        };
        Ok(Some(Reading { top, below }))
    } else {
        Ok(None)
    }
}

fn add_constant(reading: Reading, costs: Multi) -> Result<Option<Reading>, AllocError>
    ensures { IfOk result (λ o. o ≡ Some (added list_of reading (f.Const costs))) }
{
    let Reading {
        top: Frame { head, mut members },
        below,
    } = reading;
    members.push(Term::Const(costs))?;
    Ok(Some(Reading {
        top: Frame { head, members },
        below,
    }))
}

fn opening(
    alloc: Global,
    reading: Reading,
    word: &[u8],
    limit: usize,
) -> Result<Option<Reading>, AllocError>
    ensures { IfOk result (λ o. o ≡ opener list_of limit word.now reading) }
{
    if word.is_empty() {
        Ok(Some(reading))
    } else if word == b"(sum".as_slice() {
        open(alloc, reading, Head::Sum, limit)
    } else if word == b"(alt".as_slice() {
        open(alloc, reading, Head::Alt, limit)
    } else if word == b"(power".as_slice() {
        open(alloc, reading, Head::OpenPower, limit)
    } else if word == b"(once".as_slice() {
        open(alloc, reading, Head::Once, limit)
    } else if word == b"(scaled".as_slice() {
        open(alloc, reading, Head::OpenScaled, limit)
    } else {
        match list_in(alloc, word)? {
            Some(costs) => add_constant(reading, costs),
            None => Ok(None),
        }
    }
}

/// Takes a word.
pub(crate) fn take_word(
    alloc: Global,
    reading: Reading,
    word: &[u8],
    limit: usize,
) -> Result<Option<Reading>, AllocError>
    ensures { IfOk result (λ o. o ≡ word_in list_of limit word.now reading) }
{
    match reading.top.head {
        Head::OpenPower => match number(word, 1 << 32) {
            Some(n) => Ok(Some(with_head_of(reading, Head::Power { id: n as u32 }))),
            None => Ok(None),
        },
        Head::OpenScaled => match number(word, 1 << 32) {
            Some(n) => Ok(Some(with_head_of(reading, Head::Scaled { id: n as u32 }))),
            None => Ok(None),
        },
        Head::Top
        | Head::Sum
        | Head::Alt
        | Head::Once
        | Head::Power { id: _ }
        | Head::Scaled { id: _ } => opening(alloc, reading, word, limit),
    }
}

/// The only member.
pub(crate) fn only_member(members: Items<Term>) -> Option<Term>
    ensures { result ≡ single list_of members }
{
    let mut members = members;
    if members.len() == 1 {
        members.pop()
    } else {
        None
    }
}

fn build(alloc: Global, frame: Frame) -> Result<Option<Term>, AllocError>
    ensures { IfOk result (λ o. o ≡ built_at list_of frame frame.head) }
{
    let Frame { head, members } = frame;
    match head {
        Head::Sum => Ok(Some(Term::Sum(members))),
        Head::Alt => Ok(Some(Term::Alt(members))),
        Head::Once => match only_member(members) {
            Some(body) => Ok(Some(Term::Once(Boxed::new(alloc, body)?))),
            None => Ok(None),
        },
        Head::Power { id } => match only_member(members) {
            Some(body) => Ok(Some(Term::Power {
                id,
                body: Boxed::new(alloc, body)?,
            })),
            None => Ok(None),
        },
        Head::Scaled { id } => match only_member(members) {
            Some(body) => Ok(Some(Term::Scaled {
                id,
                body: Boxed::new(alloc, body)?,
            })),
            None => Ok(None),
        },
        Head::Top | Head::OpenPower | Head::OpenScaled => Ok(None),
    }
}

/// Closes the innermost bracket.
pub(crate) fn close(alloc: Global, reading: Reading) -> Result<Option<Reading>, AllocError>
    ensures { IfOk result (λ o. o ≡ closed list_of reading) }
{
    let Reading { top, mut below } = reading;
    match build(alloc, top)? {
        Some(term) => match below.pop() {
            Some(frame) => {
                let Frame { head, mut members } = frame;
                members.push(term)?;
                Ok(Some(Reading {
                    top: Frame { head, members },
                    below,
                }))
            }
            None => Ok(None),
        },
        None => Ok(None),
    }
}
