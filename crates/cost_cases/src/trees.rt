use crate::numbers::number;
use sqlite_items::{Boxed, Items};
use std::alloc::{AllocError, Global};
use wsym_terms::{Tree, Use};

/// The last `count` trees of a stack, in the order in which they were put there; fewer where there are fewer.
fn last(alloc: Global, stack: &mut Items<Tree>, count: u128) -> Result<Items<Tree>, AllocError> {
    let mut back = Items::new(alloc);
    for _ in 0..count {
        if let Some(tree) = stack.pop() {
            back.push(tree)?;
        }
    }
    let mut members = Items::new(alloc);
    for _ in 0..count {
        if let Some(tree) = back.pop() {
            members.push(tree)?;
        }
    }
    Ok(members)
}

/// The last tree of a stack, or an empty sequence.
fn top(alloc: Global, stack: &mut Items<Tree>) -> Tree {
    match stack.pop() {
        Some(tree) => tree,
        None => Tree::Seq(Items::new(alloc)),
    }
}

/// The uses with scopes as `0,0,2` spells them.
fn uses(alloc: Global, text: &str) -> Result<Items<Use>, AllocError> {
    let mut uses = Items::new(alloc);
    for scope in text.split(',') {
        if scope.len() > 0 {
            uses.push(Use {
                line: 0,
                scope: u32::try_from(number(scope)).unwrap_or(0),
            })?;
        }
    }
    Ok(uses)
}

/// The tree that a word makes of those before it.
fn tree(alloc: Global, stack: &mut Items<Tree>, word: &str) -> Result<Tree, AllocError> {
    let (kind, given) = word.split_once(':').unwrap_or((word, ""));
    match kind {
        "leaf" => {
            let (base, scopes) = given.split_once(':').unwrap_or((given, ""));
            let uses = uses(alloc, scopes)?;
            Ok(Tree::Leaf {
                block: 0,
                base: number(base),
                uses,
            })
        }
        "alt" => Ok(Tree::Alt(last(alloc, stack, number(given))?)),
        "loop" => {
            let exit = Boxed::new(alloc, top(alloc, stack))?;
            let body = Boxed::new(alloc, top(alloc, stack))?;
            Ok(Tree::Loop {
                id: u32::try_from(number(given)).unwrap_or(0),
                body,
                exit,
            })
        }
        _ => Ok(Tree::Seq(last(alloc, stack, number(given))?)),
    }
}

/// The tree that words spell, members first.
pub(crate) fn read_tree(alloc: Global, text: &str) -> Result<Tree, AllocError> {
    let mut stack = Items::new(alloc);
    for word in text.split(' ') {
        let tree = tree(alloc, &mut stack, word)?;
        stack.push(tree)?;
    }
    Ok(top(alloc, &mut stack))
}
