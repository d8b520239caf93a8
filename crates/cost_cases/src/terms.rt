use crate::lists::list;
use crate::numbers::number;
use sqlite_items::{Boxed, Items};
use std::alloc::{AllocError, Global};
use wsym_formula::Term;

/// The last `count` terms of a stack, in the order in which they were put there; fewer where there are fewer.
fn last(alloc: Global, stack: &mut Items<Term>, count: u128) -> Result<Items<Term>, AllocError> {
    let mut back = Items::new(alloc);
    for _ in 0..count {
        if let Some(term) = stack.pop() {
            back.push(term)?;
        }
    }
    let mut members = Items::new(alloc);
    for _ in 0..count {
        if let Some(term) = back.pop() {
            members.push(term)?;
        }
    }
    Ok(members)
}

/// The last term of a stack, or an empty sum.
fn top(alloc: Global, stack: &mut Items<Term>) -> Term {
    match stack.pop() {
        Some(term) => term,
        None => Term::Sum(Items::new(alloc)),
    }
}

/// The term that a word makes of those before it.
fn term(alloc: Global, stack: &mut Items<Term>, word: &str) -> Result<Term, AllocError> {
    let (kind, given) = word.split_once(':').unwrap_or((word, ""));
    let id = u32::try_from(number(given)).unwrap_or(0);
    match kind {
        "sum" => Ok(Term::Sum(last(alloc, stack, number(given))?)),
        "alt" => Ok(Term::Alt(last(alloc, stack, number(given))?)),
        "power" => {
            let body = Boxed::new(alloc, top(alloc, stack))?;
            Ok(Term::Power { id, body })
        }
        "once" => Ok(Term::Once(Boxed::new(alloc, top(alloc, stack))?)),
        "scaled" => {
            let body = Boxed::new(alloc, top(alloc, stack))?;
            Ok(Term::Scaled { id, body })
        }
        _ => Ok(Term::Const(list(alloc, word)?)),
    }
}

/// The term that words spell, members first.
pub(crate) fn read_term(alloc: Global, text: &str) -> Result<Term, AllocError> {
    let mut stack = Items::new(alloc);
    for word in text.split(' ') {
        let term = term(alloc, &mut stack, word)?;
        stack.push(term)?;
    }
    Ok(top(alloc, &mut stack))
}
