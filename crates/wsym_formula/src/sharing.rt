ghost use Rattle.std.specs.Prelude.{◌≡◌, ℕ, List, [], ◌∷◌, length, map, IfOk, OnOk, ◌<◌};
ghost use Rattle.wsym_formula.specs.Tables.{AllBelow, Extends, IsBelow, meaning_at, meanings, opened};
ghost use Rattle.wsym_formula.specs.Keeping.{IsRooted};

use crate::keeping::kept;
use crate::nodes::Node;
use crate::numbers::Numbers;
use crate::table::{Shared, place};
use crate::terms::Term;
use std::alloc::{AllocError, Global};

impl Shared {
    /// The table whose meaning is the term: each different part of it is one node. Memory alone may be refused.
    pub fn of(alloc: Global, term: &Term) -> Result<Shared, AllocError>
        ensures { IfOk result (λ s. IsRooted s term.now) }
    {
        let mut table = Shared::new(alloc);
        let root = add_term(&mut table, alloc, term)?;
        kept(alloc, &table, root)
    }
}

/// The number of a term in a table.
#[cycle(terms)]
fn add_term(table: &mut Shared, alloc: Global, term: &Term) -> Result<u32, AllocError>
    ensures within { IfOk result (λ k. k < length table.new) }
    ensures extends { OnOk result (Extends table.old table.new) }
    ensures means { IfOk result (λ k. meaning_at table.new k ≡ term.now) }
{
    match term {
        Term::Const(costs) => place(table, Node::Const(costs.copy(alloc)?)),
        Term::Sum(members) => {
            let numbers = add_terms(table, alloc, members.as_slice())?;
            place(table, Node::Sum(numbers))
        }
        Term::Alt(choices) => {
            let numbers = add_terms(table, alloc, choices.as_slice())?;
            place(table, Node::Alt(numbers))
        }
        Term::Power { id, body } => {
            let inside = add_term(table, alloc, body.get())?;
            place(
                table,
                Node::Power {
                    id: *id,
                    body: inside,
                },
            )
        }
        Term::Once(body) => {
            let inside = add_term(table, alloc, body.get())?;
            place(table, Node::Once(inside))
        }
        Term::Scaled { id, body } => {
            let inside = add_term(table, alloc, body.get())?;
            place(
                table,
                Node::Scaled {
                    id: *id,
                    body: inside,
                },
            )
        }
    }
}

/// The numbers of some terms in a table.
#[cycle(terms)]
fn add_terms(table: &mut Shared, alloc: Global, terms: &[Term]) -> Result<Numbers, AllocError>
    ensures below { IfOk result (AllBelow (length table.new)) }
    ensures extends { OnOk result (Extends table.old table.new) }
    ensures means { IfOk result (λ numbers. map (meaning_at table.new) numbers ≡ terms.now) }
{
    let mut numbers = Numbers::new(alloc);
    for term in terms {
        numbers.push(add_term(table, alloc, term)?)?;
    }
    Ok(numbers)
}
