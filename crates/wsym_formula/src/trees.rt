ghost use Rattle.std.specs.Prelude.{◌≡◌, ℕ, List, [], ◌∷◌, length, map, nat_le, IfOk, OnOk, ◌+◌, ◌*◌, ◌<◌, ◌^◌, max};
ghost use Rattle.wsym_terms.specs.Extents.{Extent};
ghost use Rattle.wsym_terms.specs.Trees.{greatest_scope, tree_value};
ghost use Rattle.wsym_terms.specs.declared.trees.Tree.{Tree as TreeValue};
ghost use Rattle.wsym_formula.specs.Keeping.{IsRooted};
ghost use Rattle.wsym_formula.specs.Placing.{ArePlaced, IsPlaced};
ghost use Rattle.wsym_formula.specs.Tables.{AllBelow, Extends, meaning_at};
ghost use Rattle.wsym_formula.specs.Terms.{term_value};
ghost use Rattle.wsym_formula.specs.Trees.{Shape, alt_shape, formula_of, leaf_shape, leaving_term, loop_shape, scope_outside, seq_shape, shape_of, turns_term};
ghost use Rattle.wsym_formula.specs.declared.terms.Term.{Term as TermValue};

use crate::keeping::kept;
use crate::leaves::leaf_costs;
use crate::nodes::Node;
use crate::numbers::Numbers;
use crate::table::{Shared, place};
use std::alloc::{AllocError, Global};
use wsym_terms::{Tree, Use};

/// The first number of cycles that is not counted exactly.
const LIMIT: u128 = 1 << 127;

/// The number of a tree's term, and the greatest scope of the tree's uses.
#[derive(Clone, Copy)]
struct Placed {
    number: u32,
    scope: u32,
}

/// The numbers of the terms of trees, and the greatest scope of their uses.
#[derive(Drop)]
struct Members {
    numbers: Numbers,
    scope: u32,
}

/// The formula of a tree, for the cycles that a miss costs: `{base + miss * uses | base}` for a leaf, the sum of
/// a sequence, an Alt for an Alt. A loop is the sum of its body and its exit. Its body is a Power and its exit
/// stands as it is where the scopes of its uses reach past the loop; else it is a Scaled and a Once.
///
/// A leaf whose cost is 2^127 cycles or more with its misses is refused like want of memory.
pub fn from_tree(alloc: Global, tree: &Tree, miss: u64) -> Result<Shared, AllocError>
    ensures { IfOk result (λ s. IsRooted s (formula_of miss tree.now)) }
{
    let mut table = Shared::new(alloc);
    let root = add_tree(&mut table, alloc, tree, miss, 0)?;
    kept(alloc, &table, root.number)
}

/// Puts the term of a tree into the table, where `depth` loops stand round it.
#[cycle(members)]
fn add_tree(
    table: &mut Shared,
    alloc: Global,
    tree: &Tree,
    miss: u64,
    depth: u64,
) -> Result<Placed, AllocError>
    ensures extends { OnOk result (Extends table.old table.new) }
    ensures placed { IfOk result (λ p. IsPlaced table.new (shape_of miss tree.now) depth p.number p.scope) }
{
    match tree {
        Tree::Leaf {
            block: _,
            base,
            uses,
        } => place_leaf(table, alloc, *base, uses.as_slice(), miss),
        Tree::Seq(members) => {
            let parts = add_members(table, alloc, members.as_slice(), miss, depth)?;
            place_seq(table, parts)
        }
        Tree::Alt(choices) => {
            let parts = add_members(table, alloc, choices.as_slice(), miss, depth)?;
            place_alt(table, parts)
        }
        Tree::Loop { id, body, exit } => {
            let Some(inner) = depth.checked_add(1) else {
                return Err(AllocError);
            };
            let turns = add_tree(table, alloc, body.get(), miss, inner)?;
            let leaving = add_tree(table, alloc, exit.get(), miss, inner)?;
            place_loop(table, alloc, *id, depth, turns, leaving)
        }
    }
}

/// Puts the terms of trees into the table.
#[cycle(members)]
fn add_members(
    table: &mut Shared,
    alloc: Global,
    trees: &[Tree],
    miss: u64,
    depth: u64,
) -> Result<Members, AllocError>
    ensures extends { OnOk result (Extends table.old table.new) }
    ensures placed { IfOk result (λ m. ArePlaced table.new (map (shape_of miss) trees.now) depth m.numbers m.scope) }
{
    let mut numbers = Numbers::new(alloc);
    let mut scope = 0;
    for tree in trees {
        let placed = add_tree(table, alloc, tree, miss, depth)?;
        numbers.push(placed.number)?;
        scope = placed.scope.max(scope);
    }
    Ok(Members { numbers, scope })
}

/// The greatest scope of some uses.
fn scope_of(uses: &[Use]) -> u32
    ensures { result ≡ greatest_scope uses.now }
{
    let mut scope = 0;
    for line in uses {
        scope = line.scope.max(scope);
    }
    scope
}

/// Puts the costs of a block into the table.
fn place_leaf(
    table: &mut Shared,
    alloc: Global,
    base: u128,
    uses: &[Use],
    miss: u64,
) -> Result<Placed, AllocError>
    ensures extends { OnOk result (Extends table.old table.new) }
    ensures placed { IfOk result (λ p. (depth : ℕ) → IsPlaced table.new (leaf_shape miss base uses.now) depth p.number p.scope) }
{
    let misses = u128::from(miss) * uses.len() as u128;
    if base >= LIMIT || misses >= LIMIT - base {
        return Err(AllocError);
    }
    let costs = leaf_costs(alloc, base, miss, uses.len() as u64)?;
    let number = place(table, Node::Const(costs))?;
    Ok(Placed {
        number,
        scope: scope_of(uses),
    })
}

/// Puts the sum of terms into the table.
#[tactic(auto, using(crate::proofs::Placing::seq_placed))]
fn place_seq(table: &mut Shared, parts: Members) -> Result<Placed, AllocError>
    requires { AllBelow (length table.old) parts.numbers }
    ensures extends { OnOk result (Extends table.old table.new) }
    ensures placed { IfOk result (λ p. (shapes : List Shape) (depth : ℕ) → ArePlaced table.old shapes depth parts.numbers parts.scope → IsPlaced table.new (seq_shape shapes) depth p.number p.scope) }
{
    let Members { numbers, scope } = parts;
    let number = place(table, Node::Sum(numbers))?;
    Ok(Placed { number, scope })
}

/// Puts the Alt of terms into the table.
#[tactic(auto, using(crate::proofs::Placing::alt_placed))]
fn place_alt(table: &mut Shared, parts: Members) -> Result<Placed, AllocError>
    requires { AllBelow (length table.old) parts.numbers }
    ensures extends { OnOk result (Extends table.old table.new) }
    ensures placed { IfOk result (λ p. (shapes : List Shape) (depth : ℕ) → ArePlaced table.old shapes depth parts.numbers parts.scope → IsPlaced table.new (alt_shape shapes) depth p.number p.scope) }
{
    let Members { numbers, scope } = parts;
    let number = place(table, Node::Alt(numbers))?;
    Ok(Placed { number, scope })
}

/// Whether a scope reaches past a loop round which `depth` loops stand.
fn reaches(scope: u32, depth: u64) -> bool
    ensures { result ≡ nat_le scope depth }
{
    u64::from(scope) <= depth
}

/// A scope outside of a loop, in which those inside count as 0.
fn outside(scope: u32, depth: u64) -> u32
    ensures { result ≡ scope_outside depth scope }
{
    if reaches(scope, depth) { scope } else { 0 }
}

/// Puts the body of a loop into the table, by the number of its term and the greatest scope of its uses.
fn place_turns(
    table: &mut Shared,
    id: u32,
    depth: u64,
    body: u32,
    scope: u32,
) -> Result<u32, AllocError>
    requires { body < length table.old }
    ensures within { IfOk result (λ k. k < length table.new) }
    ensures extends { OnOk result (Extends table.old table.new) }
    ensures means { IfOk result (λ k. meaning_at table.new k ≡ turns_term id depth scope (meaning_at table.old body)) }
{
    if reaches(scope, depth) {
        place(table, Node::Power { id, body })
    } else {
        place(table, Node::Scaled { id, body })
    }
}

/// Puts the exit of a loop into the table, likewise.
fn place_leaving(table: &mut Shared, depth: u64, exit: u32, scope: u32) -> Result<u32, AllocError>
    requires { exit < length table.old }
    ensures within { IfOk result (λ k. k < length table.new) }
    ensures extends { OnOk result (Extends table.old table.new) }
    ensures means { IfOk result (λ k. meaning_at table.new k ≡ leaving_term depth scope (meaning_at table.old exit)) }
{
    if reaches(scope, depth) {
        Ok(exit)
    } else {
        place(table, Node::Once(exit))
    }
}

/// Puts a loop into the table.
fn place_loop(
    table: &mut Shared,
    alloc: Global,
    id: u32,
    depth: u64,
    body: Placed,
    exit: Placed,
) -> Result<Placed, AllocError>
    requires body { body.number < length table.old }
    requires exit { exit.number < length table.old }
    ensures extends { OnOk result (Extends table.old table.new) }
    ensures placed { IfOk result (λ p. (b e : Shape) → IsPlaced table.old b (depth + 1) body.number body.scope → IsPlaced table.old e (depth + 1) exit.number exit.scope → IsPlaced table.new (loop_shape id b e) depth p.number p.scope) }
{
    let turns = place_turns(table, id, depth, body.number, body.scope)?;
    let leaving = place_leaving(table, depth, exit.number, exit.scope)?;
    let mut numbers = Numbers::new(alloc);
    numbers.push(turns)?;
    numbers.push(leaving)?;
    let number = place(table, Node::Sum(numbers))?;
    Ok(Placed {
        number,
        scope: outside(body.scope, depth).max(outside(exit.scope, depth)),
    })
}

/// A law of the formula of a tree, whatever a miss costs and the bounds of the loops are: it has the value of the
/// tree for each number of executions.
pub fn formulas_have_the_value_of_their_trees()
    ensures { (miss : ℕ) (bounds : ℕ → Extent) (tree : TreeValue) (n : ℕ) → term_value bounds (formula_of miss tree) n ≡ tree_value miss bounds tree n }
{}
