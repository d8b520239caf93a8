//! How large trees and formulas are, up to a limit.

ghost use Rattle.std.specs.Prelude.{◌≡◌, ◌+◌, ◌<◌, ◌≤◌, ◌^◌, map, min};
ghost use Rattle.cost_multiset.specs.CostLists.{places};
ghost use Rattle.simplifier.specs.Sizes.{nodes_of};
ghost use Rattle.wsym_formula.specs.Values.{counts_of, total};
ghost use Rattle.wsym_terms.specs.Trees.{size_of, sizes_of};

use cost_multiset::Run;
use wsym_formula::Term;
use wsym_terms::Tree;

/// The sum of two numbers, or the limit where it is greater.
fn capped(first: u64, second: u64, limit: u64) -> u64
    requires first { first ≤ limit }
    requires second { second ≤ limit }
    requires limit { limit < 2 ^ 64 }
    ensures { result ≡ min (first + second) limit }
{
    if first > limit - second {
        limit
    } else {
        first + second
    }
}

/// The number of a tree's nodes and uses, or the limit where there are more.
#[cycle(sizes)]
pub fn tree_size(tree: &Tree, limit: u64) -> u64
    requires { 0 < limit }
    ensures exact { result ≡ min (size_of tree.now) limit }
    ensures within { result ≤ limit }
{
    match tree {
        Tree::Leaf {
            block: _,
            base: _,
            uses,
        } => capped(1, (uses.len() as u64).min(limit), limit),
        Tree::Seq(members) => capped(1, trees_size(members.as_slice(), limit), limit),
        Tree::Alt(choices) => capped(1, trees_size(choices.as_slice(), limit), limit),
        Tree::Loop { id: _, body, exit } => capped(
            1,
            capped(
                tree_size(body.get(), limit),
                tree_size(exit.get(), limit),
                limit,
            ),
            limit,
        ),
    }
}

/// The sum of the sizes of trees, or the limit where it is greater.
#[cycle(sizes)]
fn trees_size(trees: &[Tree], limit: u64) -> u64
    requires { 0 < limit }
    ensures exact { result ≡ min (sizes_of trees.now) limit }
    ensures within { result ≤ limit }
{
    let mut total = 0;
    for tree in trees {
        total = capped(total, tree_size(tree, limit), limit);
    }
    total
}

/// The number of a formula's terms, equal ones as often as they stand in it, or the limit where there are more.
#[cycle(nodes)]
pub fn term_nodes(term: &Term, limit: u64) -> u64
    requires { 0 < limit }
    ensures exact { result ≡ min (nodes_of term.now) limit }
    ensures within { result ≤ limit }
{
    match term {
        Term::Const(_) => 1,
        Term::Sum(members) => capped(1, terms_nodes(members.as_slice(), limit), limit),
        Term::Alt(choices) => capped(1, terms_nodes(choices.as_slice(), limit), limit),
        Term::Power { id: _, body } => capped(1, term_nodes(body.get(), limit), limit),
        Term::Once(body) => capped(1, term_nodes(body.get(), limit), limit),
        Term::Scaled { id: _, body } => capped(1, term_nodes(body.get(), limit), limit),
    }
}

/// The number of terms of formulas together, or the limit where there are more.
#[cycle(nodes)]
fn terms_nodes(terms: &[Term], limit: u64) -> u64
    requires { 0 < limit }
    ensures exact { result ≡ min (total (map nodes_of terms.now)) limit }
    ensures within { result ≤ limit }
{
    let mut nodes = 0;
    for term in terms {
        nodes = capped(nodes, term_nodes(term, limit), limit);
    }
    nodes
}

/// The counts of a formula's constants together, or the limit where there are more.
#[cycle(counts)]
pub fn term_counts(term: &Term, limit: u64) -> u64
    requires { 0 < limit }
    ensures exact { result ≡ min (counts_of term.now) limit }
    ensures within { result ≤ limit }
{
    match term {
        Term::Const(costs) => costs.length().min(limit),
        Term::Sum(members) => terms_counts(members.as_slice(), limit),
        Term::Alt(choices) => terms_counts(choices.as_slice(), limit),
        Term::Power { id: _, body } => term_counts(body.get(), limit),
        Term::Once(body) => term_counts(body.get(), limit),
        Term::Scaled { id: _, body } => term_counts(body.get(), limit),
    }
}

/// The counts of formulas together, or the limit where there are more.
#[cycle(counts)]
fn terms_counts(terms: &[Term], limit: u64) -> u64
    requires { 0 < limit }
    ensures exact { result ≡ min (total (map counts_of terms.now)) limit }
    ensures within { result ≤ limit }
{
    let mut counts = 0;
    for term in terms {
        counts = capped(counts, term_counts(term, limit), limit);
    }
    counts
}
