ghost use Rattle.std.specs.Prelude.{ℕ, ◌≤◌, ◌<◌, ◌^◌, All, IfOk, IfSome, length, unsigned_abs};
ghost use Rattle.wsym_terms.specs.Bounds.{AtomFits, CoefFits};
ghost use Rattle.wsym_terms.specs.declared.bounds.Bound.{Bound as BoundValue};

use crate::lists::list;
use crate::numbers::{GREATEST, number, shown_cost, signed};
use crate::tables::table_text;
use crate::terms::read_term;
use crate::trees::read_tree;
use simplifier::simplify;
use sqlite_items::Items;
use std::alloc::{AllocError, Global};
use wsym_formula::{Node, Shared, from_tree, has_few_counts, place, value};
use wsym_terms::{Atom, Bound, Coef};

/// The formula that words spell: of a tree after `tree:MISS`, else of a term.
fn formula(alloc: Global, text: &str) -> Result<Shared, AllocError>
    ensures { IfOk result (λ s. 0 < length s) }
{
    let (first, rest) = text.split_once(' ').unwrap_or((text, ""));
    match first.strip_prefix("tree:") {
        Some(miss) => {
            let miss = u64::try_from(number(miss)).unwrap_or(0);
            from_tree(alloc, &read_tree(alloc, rest)?, miss)
        }
        None => Shared::of(alloc, &read_term(alloc, text)?),
    }
}

/// A factor of the one parameter, or none for 0.
fn coefs(alloc: Global, factor: i128) -> Result<Items<Coef>, AllocError>
    requires { unsigned_abs factor ≤ 2 ^ 90 }
    ensures few { IfOk result (λ coefs. length coefs ≤ 13) }
    ensures fit { IfOk result (λ coefs. All (CoefFits 1) coefs) }
{
    if factor == 0 {
        return Ok(Items::new(alloc));
    }
    Items::from_slice(alloc, [Coef { param: 0, factor }].as_slice())
}

/// The atom that a word spells, `CONSTANT:DIVISOR` or `CONSTANT:DIVISOR:FACTOR`.
fn atom(alloc: Global, word: &str) -> Result<Option<Atom>, AllocError>
    ensures { IfOk result (λ o. IfSome o (AtomFits 1)) }
{
    let mut parts = word.split(':');
    let constant = signed(parts.next().unwrap_or(""));
    let divisor = signed(parts.next().unwrap_or(""));
    let factor = signed(parts.next().unwrap_or(""));
    if factor.unsigned_abs() <= GREATEST && constant.unsigned_abs() <= GREATEST && 1 <= divisor {
        let coefs = coefs(alloc, factor)?;
        return Ok(Some(Atom {
            coefs,
            constant,
            divisor,
        }));
    }
    Ok(None)
}

/// The bound with the atom that a word spells, or without an atom.
fn bound(alloc: Global, word: &str) -> Result<Bound, AllocError>
    ensures { IfOk result (λ b. All (AtomFits 1) b.atoms) }
{
    let mut atoms = Items::new(alloc);
    match atom(alloc, word)? {
        Some(atom) => {
            atoms.push(atom)?;
            Ok(Bound { atoms })
        }
        None => Ok(Bound { atoms }),
    }
}

/// The bounds of two loops.
fn bounds(alloc: Global, first: &str, second: &str) -> Result<Items<Bound>, AllocError>
    ensures { IfOk result (All (λ (b : BoundValue). All (AtomFits 1) b.atoms)) }
{
    let first = bound(alloc, first)?;
    let second = bound(alloc, second)?;
    let mut bounds = Items::new(alloc);
    bounds.push(first)?;
    bounds.push(second)?;
    Ok(bounds)
}

/// The normal form of a formula, after the bounds of two loops.
#[tactic(auto, using(simplifier::proofs::Knowing::all_plain))]
fn simple(alloc: Global, given: &str) -> Result<String, AllocError> {
    let (first, rest) = given.split_once(' ').unwrap_or((given, ""));
    let (second, text) = rest.split_once(' ').unwrap_or((rest, ""));
    let bounds = bounds(alloc, first, second)?;
    let formula = formula(alloc, text)?;
    table_text(alloc, &simplify(alloc, formula, &bounds)?)
}

/// The value of a formula, after the bounds of two loops and the value of their parameter.
fn valued(alloc: Global, given: &str) -> Result<String, AllocError> {
    let (first, rest) = given.split_once(' ').unwrap_or((given, ""));
    let (second, rest) = rest.split_once(' ').unwrap_or((rest, ""));
    let (param, text) = rest.split_once(' ').unwrap_or((rest, ""));
    let bounds = bounds(alloc, first, second)?;
    let formula = formula(alloc, text)?;
    if !has_few_counts(alloc, &formula)? {
        return String::from_str(alloc, "too many counts");
    }
    let param = i32::try_from(signed(param)).unwrap_or(0);
    let cost = value(alloc, &formula, &bounds, [param].as_slice())?;
    let mut text = String::new(alloc);
    shown_cost(&mut text, cost)?;
    Ok(text)
}

/// The nodes that a node of a formula reaches, after its number.
fn kept(alloc: Global, given: &str) -> Result<String, AllocError> {
    let (root, text) = given.split_once(' ').unwrap_or((given, ""));
    let root = u32::try_from(number(root)).unwrap_or(0);
    let formula = formula(alloc, text)?;
    if root < formula.nodes() {
        return table_text(alloc, &formula.keep(alloc, root)?);
    }
    String::from_str(alloc, "no such node")
}

/// The numbers of constants that are put into one table.
fn added(alloc: Global, given: &str) -> Result<String, AllocError> {
    let mut table = Shared::new(alloc);
    let mut text = String::new(alloc);
    for word in given.split(' ') {
        let number = place(&mut table, Node::Const(list(alloc, word)?))?;
        write!(text, " {number}")?;
    }
    String::from_str(alloc, text.as_str().trim())
}

/// What a call of a formula gives.
pub(crate) fn formula_call(alloc: Global, line: &str) -> Result<String, AllocError> {
    let (asked, _) = line.split_once(" (").unwrap_or((line, ""));
    let (call, given) = asked.split_once(' ').unwrap_or((asked, ""));
    match call {
        "formula" => table_text(alloc, &formula(alloc, given)?),
        "simple" => simple(alloc, given),
        "value" => valued(alloc, given),
        "keep" => kept(alloc, given),
        _ => added(alloc, given),
    }
}
