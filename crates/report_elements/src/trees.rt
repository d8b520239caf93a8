//! Reads trees.

ghost use Rattle.std.specs.Prelude.{◌≡◌, IfOk, List, Some, [], true, ℕ};
ghost use Rattle.report_elements.specs.TreeReading.{ends, fits, kept, parsed, read_of, run, single};
ghost use Rattle.report_elements.specs.Elements.{tree_text};
ghost use Rattle.wsym_terms.specs.declared.trees.Tree.{Tree as TreeValue};

use crate::pile::Pile;
use crate::tree_brackets::{Frame, Head, Reading, close, take_word};
use crate::tree_text::push_tree;
use sqlite_items::Items;
use std::alloc::{AllocError, Global};
use wsym_terms::Tree;

fn end(
    alloc: Global,
    reading: Reading,
    word: &[u8],
    limit: usize,
) -> Result<Option<Reading>, AllocError>
    ensures { IfOk result (λ o. o ≡ ends limit word.now reading) }
{
    match take_word(alloc, reading, word, limit)? {
        Some(reading) => close(alloc, reading),
        None => Ok(None),
    }
}

fn walk(
    alloc: Global,
    reading: Reading,
    text: &[u8],
    limit: usize,
) -> Result<Option<Reading>, AllocError>
    ensures { IfOk result (λ o. o ≡ run limit [] reading text.now) }
{
    let mut reading = reading;
    let mut word: Vec<u8> = Vec::new(alloc);
    for byte in text {
        let byte = *byte;
        if byte == 32 || byte == 64 {
            match take_word(alloc, reading, word.as_slice(), limit)? {
                Some(next) => reading = next,
                None => return Ok(None),
            }
            word.clear();
        } else if byte == 41 {
            match end(alloc, reading, word.as_slice(), limit)? {
                Some(next) => reading = next,
                None => return Ok(None),
            }
            word.clear();
        } else {
            word.push(byte)?;
        }
    }
    Ok(Some(reading))
}

pub(crate) fn parse(alloc: Global, text: &[u8], limit: usize) -> Result<Option<Tree>, AllocError>
    ensures { IfOk result (λ o. o ≡ parsed limit text.now) }
{
    let start = Reading {
        top: Frame {
            head: Head::Top,
            uses: Items::new(alloc),
            members: Items::new(alloc),
        },
        below: Pile::new(alloc),
    };
    match walk(alloc, start, text, limit)? {
        Some(reading) => only_member(reading),
        None => Ok(None),
    }
}

fn only_member(reading: Reading) -> Result<Option<Tree>, AllocError>
    ensures { IfOk result (λ o. o ≡ single reading.top.members) }
{
    let Reading { top, below: _ } = reading;
    let Frame {
        head: _,
        uses: _,
        mut members,
    } = top;
    if members.len() == 1 {
        Ok(members.pop())
    } else {
        Ok(None)
    }
}

/// The tree, where the text is its text.
fn kept_tree(alloc: Global, tree: Tree, text: &[u8]) -> Result<Option<Tree>, AllocError>
    ensures { IfOk result (λ o. o ≡ kept text.now tree) }
{
    let mut written = String::new(alloc);
    push_tree(&mut written, &tree)?;
    if written.as_bytes() == text {
        Ok(Some(tree))
    } else {
        Ok(None)
    }
}

/// Reads a tree.
pub fn read_tree(alloc: Global, text: &[u8], limit: usize) -> Result<Option<Tree>, AllocError>
    ensures exact { IfOk result (λ o. o ≡ read_of limit text.now) }
{
    match parse(alloc, text, limit)? {
        Some(tree) => kept_tree(alloc, tree, text),
        None => Ok(None),
    }
}

/// A law of `read_tree`: a text is read as a tree just where it is the text of that tree.
#[tactic(auto, using(crate::proofs::TreeLaws::read_found, crate::proofs::TreeLaws::read_only))]
pub fn trees_are_read()
    ensures found { (limit : ℕ) (text : List ℕ) (t : TreeValue) → read_of limit text ≡ Some t → text ≡ tree_text t }
    ensures only { (blocks loops limit : ℕ) (t : TreeValue) → fits blocks loops t limit ≡ true → read_of limit (tree_text t) ≡ Some t }
{}
