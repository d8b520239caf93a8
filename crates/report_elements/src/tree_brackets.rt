//! The open brackets of a tree that is read, and what a word means in them.

ghost use Rattle.std.specs.Prelude.{◌≡◌, IfOk, Some};
ghost use Rattle.report_elements.specs.TreeReading.{built, closed, loop_of, opened, opener, with_head, with_use, word_in};

use crate::digits::number;
use crate::pile::Pile;
use sqlite_items::{Boxed, Items};
use std::alloc::{AllocError, Global};
use wsym_terms::{Tree, Use};

/// What an open bracket is, and what comes next in it.
#[derive(Clone, Copy)]
pub enum Head {
    Top,
    OpenLeaf,
    Block { block: u32 },
    Leaf { block: u32, base: u128 },
    Used { block: u32, base: u128, line: u32 },
    Seq,
    Alt,
    OpenLoop,
    Loop { id: u32 },
}

/// An open bracket with what was read in it.
#[derive(Drop)]
pub struct Frame {
    pub head: Head,
    pub uses: Items<Use>,
    pub members: Items<Tree>,
}

/// The innermost open bracket and those round it.
#[derive(Drop)]
pub struct Reading {
    pub top: Frame,
    pub below: Pile<Frame>,
}

fn with_head_of(reading: Reading, head: Head) -> Reading
    ensures { result ≡ with_head reading head }
{
    let Reading {
        top: Frame {
            head: _,
            uses,
            members,
        },
        below,
    } = reading;
    Reading {
        top: Frame {
            head,
            uses,
            members,
        },
        below,
    }
}

fn open(
    alloc: Global,
    reading: Reading,
    head: Head,
    limit: usize,
) -> Result<Option<Reading>, AllocError>
    ensures { IfOk result (λ o. o ≡ opened limit head reading) }
{
    let Reading { top, mut below } = reading;
    if below.len() < limit {
        below.push(top)?;
        let top = Frame {
            head,
            uses: Items::new(alloc),
            members: Items::new(alloc),
        };
        Ok(Some(Reading { top, below }))
    } else {
        Ok(None)
    }
}

fn opening(
    alloc: Global,
    reading: Reading,
    word: &[u8],
    limit: usize,
) -> Result<Option<Reading>, AllocError>
    ensures { IfOk result (λ o. o ≡ opener limit word.now reading) }
{
    if word.is_empty() {
        Ok(Some(reading))
    } else if word == b"(leaf".as_slice() {
        open(alloc, reading, Head::OpenLeaf, limit)
    } else if word == b"(seq".as_slice() {
        open(alloc, reading, Head::Seq, limit)
    } else if word == b"(alt".as_slice() {
        open(alloc, reading, Head::Alt, limit)
    } else if word == b"(loop".as_slice() {
        open(alloc, reading, Head::OpenLoop, limit)
    } else {
        Ok(None)
    }
}

/// Takes a word.
pub(crate) fn take_word(
    alloc: Global,
    reading: Reading,
    word: &[u8],
    limit: usize,
) -> Result<Option<Reading>, AllocError>
    ensures { IfOk result (λ o. o ≡ word_in limit word.now reading) }
{
    match reading.top.head {
        Head::OpenLeaf => match number(word, 1 << 32) {
            Some(n) => Ok(Some(with_head_of(reading, Head::Block { block: n as u32 }))),
            None => Ok(None),
        },
        Head::Block { block } => match number(word, 1 << 127) {
            Some(n) => Ok(Some(with_head_of(reading, Head::Leaf { block, base: n }))),
            None => Ok(None),
        },
        Head::Leaf { block, base } => match number(word, 1 << 32) {
            Some(n) => Ok(Some(with_head_of(
                reading,
                Head::Used {
                    block,
                    base,
                    line: n as u32,
                },
            ))),
            None => Ok(None),
        },
        Head::Used { block, base, line } => match number(word, 1 << 32) {
            Some(n) => add_use(
                reading,
                block,
                base,
                Use {
                    line,
                    scope: n as u32,
                },
            ),
            None => Ok(None),
        },
        Head::OpenLoop => match number(word, 1 << 32) {
            Some(n) => Ok(Some(with_head_of(reading, Head::Loop { id: n as u32 }))),
            None => Ok(None),
        },
        Head::Top | Head::Seq | Head::Alt | Head::Loop { id: _ } => opening(
            alloc, reading, word, limit,
        ),
    }
}

fn add_use(
    reading: Reading,
    block: u32,
    base: u128,
    used: Use,
) -> Result<Option<Reading>, AllocError>
    ensures { IfOk result (λ o. o ≡ Some (with_use reading block base used)) }
{
    let Reading {
        top: Frame {
            head: _,
            mut uses,
            members,
        },
        below,
    } = reading;
    uses.push(used)?;
    Ok(Some(Reading {
        top: Frame {
            head: Head::Leaf { block, base },
            uses,
            members,
        },
        below,
    }))
}

fn loop_from(alloc: Global, id: u32, members: Items<Tree>) -> Result<Option<Tree>, AllocError>
    ensures { IfOk result (λ o. o ≡ loop_of id members) }
{
    let mut members = members;
    if members.len() != 2 {
        return Ok(None);
    }
    match members.pop() {
        Some(exit) => match members.pop() {
            Some(body) => Ok(Some(Tree::Loop {
                id,
                body: Boxed::new(alloc, body)?,
                exit: Boxed::new(alloc, exit)?,
            })),
            None => Ok(None),
        },
        None => Ok(None),
    }
}

fn build(alloc: Global, frame: Frame) -> Result<Option<Tree>, AllocError>
    ensures { IfOk result (λ o. o ≡ built frame) }
{
    let Frame {
        head,
        uses,
        members,
    } = frame;
    match head {
        Head::Leaf { block, base } => Ok(Some(Tree::Leaf { block, base, uses })),
        Head::Seq => Ok(Some(Tree::Seq(members))),
        Head::Alt => Ok(Some(Tree::Alt(members))),
        Head::Loop { id } => loop_from(alloc, id, members),
        Head::Top
        | Head::OpenLeaf
        | Head::Block { block: _ }
        | Head::Used {
            block: _,
            base: _,
            line: _,
        }
        | Head::OpenLoop => Ok(None),
    }
}

/// Closes the innermost bracket.
pub(crate) fn close(alloc: Global, reading: Reading) -> Result<Option<Reading>, AllocError>
    ensures { IfOk result (λ o. o ≡ closed reading) }
{
    let Reading { top, mut below } = reading;
    match build(alloc, top)? {
        Some(tree) => match below.pop() {
            Some(frame) => {
                let Frame {
                    head,
                    uses,
                    mut members,
                } = frame;
                members.push(tree)?;
                Ok(Some(Reading {
                    top: Frame {
                        head,
                        uses,
                        members,
                    },
                    below,
                }))
            }
            None => Ok(None),
        },
        None => Ok(None),
    }
}
