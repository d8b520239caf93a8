ghost use Rattle.std.specs.Prelude.{◌≡◌, ◌<◌, ◌≤◌, ◌+◌, ℕ, true, false, ◌&&◌, nat_le, length, option_map, [], IfOk, OnOk, MatchOption, MatchBool, IsTrue, Option, Some, None};
ghost use Rattle.row_elimination.specs.Derivations.{combination, combination_fits};
ghost use Rattle.row_elimination.specs.Steps.{without, with_var, mentions, negation_place, equality_of, is_side, is_made, has_positive, has_negative, is_covered, without_alike, with_one, with_each, matches_of, matches_from, matches, combined, matches_fit, candidates, eliminated, step_fits};

use crate::derived::Derived;
use linear_rows::Var;
use std::alloc::{AllocError, Global};

/// The most rows of a step.
const MOST_ROWS: usize = 4096;

/// The places of a row and of its negation in a list.
#[derive(Clone, Copy)]
pub struct Equality {
    /// The place of the one.
    pub first: usize,
    /// The place of the other.
    pub second: usize,
}

/// Rows in two parts.
struct Parted {
    /// Those without a variable.
    without: Vec<Derived>,
    /// Those with it.
    with: Vec<Derived>,
}

/// The rows without a variable and those with it.
#[tactic(auto, using(crate::proofs::Parting::without_more, crate::proofs::Parting::without_same, crate::proofs::Parting::with_more, crate::proofs::Parting::with_same))]
fn part(alloc: Global, var: &Var, rows: Vec<Derived>) -> Result<Parted, AllocError>
    ensures { IfOk result (λ p. (p.without.items ≡ without var.now rows.items) × (p.with.items ≡ with_var var.now rows.items)) }
{
    let mut without = Vec::new(alloc);
    let mut with = Vec::new(alloc);
    for row in rows {
        if row.mentions(var) {
            with.push(row)?;
        } else {
            without.push(row)?;
        }
    }
    Ok(Parted { without, with })
}

/// The place of a row's first negation.
fn place_of_negation(row: &Derived, rows: &[Derived]) -> Option<usize>
    ensures { result ≡ negation_place row.now rows.now }
{
    let mut place = 0;
    for other in rows {
        if other.is_negation(row) {
            return Some(place);
        }
        place += 1;
    }
    None
}

/// The first row whose negation is in the list too.
fn first_equality(rows: &[Derived]) -> Option<Equality>
    ensures { result ≡ equality_of rows.now }
{
    let mut first = 0;
    for row in rows {
        if let Some(second) = place_of_negation(row, rows) {
            return Some(Equality { first, second });
        }
        first += 1;
    }
    None
}

impl Equality {
    /// Whether the place is one of the two.
    fn is_side(self, place: usize) -> bool
        ensures { result ≡ is_side self place }
    {
        place == self.first || place == self.second
    }
}

/// Whether the combination of the rows at two places is made.
fn is_pair(equality: Option<Equality>, first: usize, second: usize) -> bool
    ensures { result ≡ is_made equality first second }
{
    match equality {
        Some(equality) => equality.is_side(first) || equality.is_side(second),
        None => true,
    }
}

/// Whether some row has the left side and a constant at most as large.
fn is_covered_by(rows: &[Derived], row: &Derived) -> bool
    ensures { result ≡ is_covered rows.now row.now }
{
    for other in rows {
        if other.is_alike(row) && other.constant() <= row.constant() {
            return true;
        }
    }
    false
}

/// Takes out the rows with the left side of a row.
fn remove_alike(rows: &mut Vec<Derived>, row: &Derived)
    ensures { rows.new.items ≡ without_alike row.now rows.old.items }
{
    let mut place = 0;
    while place < rows.len() {
        if rows[place].is_alike(row) {
            rows.remove(place);
        } else {
            place += 1;
        }
    }
}

/// Adds a row: of those with one left side the least constant stays, the first of equal ones, and what says
/// nothing is left out.
fn keep(rows: &mut Vec<Derived>, row: Derived) -> Result<(), AllocError>
    ensures { OnOk result (rows.new.items ≡ with_one rows.old.items row) }
{
    if row.is_plain() || is_covered_by(rows.as_slice(), &row) {
        return Ok(());
    }
    remove_alike(rows, &row);
    rows.push(row)?;
    Ok(())
}

/// Whether a row that has a positive factor of the variable is combined with another.
fn is_match(
    var: &Var,
    equality: Option<Equality>,
    place: usize,
    other: &Derived,
    other_place: usize,
) -> bool
    ensures { result ≡ (has_negative var.now other.now && is_made equality place other_place) }
{
    other.is_negative_in(var) && is_pair(equality, place, other_place)
}

/// Adds the combination of two rows, false where a number passes the limit.
fn combine_two(
    alloc: Global,
    var: &Var,
    row: &Derived,
    other: &Derived,
    kept: &mut Vec<Derived>,
) -> Result<bool, AllocError>
    requires positive { has_positive var.now row.now ≡ true }
    requires negative { has_negative var.now other.now ≡ true }
    ensures { IfOk result (λ b. MatchBool b ((combination_fits var.now row.now other.now ≡ true) × (kept.new.items ≡ with_one kept.old.items (combination var.now row.now other.now))) (combination_fits var.now row.now other.now ≡ false)) }
{
    match row.combine(alloc, var, other)? {
        Some(combination) => {
            keep(kept, combination)?;
            Ok(true)
        }
        None => Ok(false),
    }
}

/// Adds the combinations of one row, which has a positive factor of the variable, with those that have a
/// negative one, and says how many rows the step has then. None where a number or the rows pass a limit.
fn combine_one(
    alloc: Global,
    var: &Var,
    equality: Option<Equality>,
    place: usize,
    row: &Derived,
    rows: &[Derived],
    kept: &mut Vec<Derived>,
    count: usize,
) -> Result<Option<usize>, AllocError>
    requires few { count ≤ 4096 }
    requires positive { has_positive var.now row.now ≡ true }
    ensures { IfOk result (λ o. MatchOption o
        ((matches_fit var.now (matches_of var.now equality place row.now 0 rows.now) && nat_le (count + length (matches_of var.now equality place row.now 0 rows.now)) 4096) ≡ false)
        (λ n. (matches_fit var.now (matches_of var.now equality place row.now 0 rows.now) ≡ true) × (n ≡ count + length (matches_of var.now equality place row.now 0 rows.now)) × (n ≤ 4096)
        × (kept.new.items ≡ with_each kept.old.items (combined var.now (matches_of var.now equality place row.now 0 rows.now))))) }
{
    let mut made = count;
    let mut other_place = 0;
    for other in rows {
        if is_match(var, equality, place, other, other_place) {
            if made == MOST_ROWS || !combine_two(alloc, var, row, other, kept)? {
                return Ok(None);
            }
            made += 1;
        }
        other_place += 1;
    }
    Ok(Some(made))
}

/// Adds all combinations of the rows that mention a variable, where the step has `count` rows without it.
/// None where a number or the rows pass a limit.
fn combine_all(
    alloc: Global,
    var: &Var,
    rows: &[Derived],
    kept: &mut Vec<Derived>,
    count: usize,
) -> Result<Option<usize>, AllocError>
    requires { count ≤ 4096 }
    ensures { IfOk result (λ o. MatchOption o
        ((matches_fit var.now (matches var.now rows.now) && nat_le (count + length (matches var.now rows.now)) 4096) ≡ false)
        (λ n. ((matches_fit var.now (matches var.now rows.now) && nat_le (count + length (matches var.now rows.now)) 4096) ≡ true)
        × (kept.new.items ≡ with_each kept.old.items (combined var.now (matches var.now rows.now))))) }
{
    let equality = first_equality(rows);
    let mut made = count;
    let mut place = 0;
    for row in rows {
        if row.is_positive_in(var) {
            match combine_one(alloc, var, equality, place, row, rows, kept, made)? {
                Some(count) => made = count,
                None => return Ok(None),
            }
        }
        place += 1;
    }
    Ok(Some(made))
}

/// Adds each row.
#[tactic(auto, using(crate::proofs::Matching::pushed_each))]
fn keep_each(kept: &mut Vec<Derived>, rows: Vec<Derived>) -> Result<(), AllocError>
    ensures { OnOk result (kept.new.items ≡ with_each kept.old.items rows.items) }
{
    for row in rows {
        keep(kept, row)?;
    }
    Ok(())
}

/// What a step leaves.
#[derive(Drop)]
pub struct Step {
    /// The rows that mention the variable, which are gone.
    pub gone: Vec<Derived>,
    /// The rows that are left.
    pub left: Vec<Derived>,
}

/// Eliminates a variable from rows. None exactly where a number has a magnitude of 2^127 or more or the step has
/// more than 4,096 rows.
pub fn eliminate(alloc: Global, var: &Var, rows: Vec<Derived>) -> Result<Option<Step>, AllocError>
    ensures { IfOk result (λ o. MatchOption o (step_fits var.now rows.items ≡ false)
        (λ s. (step_fits var.now rows.items ≡ true) × (s.gone.items ≡ with_var var.now rows.items) × (s.left.items ≡ eliminated var.now rows.items))) }
{
    let Parted { without, with } = part(alloc, var, rows)?;
    let count = without.len();
    if count > MOST_ROWS {
        return Ok(None);
    }
    let mut left = Vec::new(alloc);
    keep_each(&mut left, without)?;
    match combine_all(alloc, var, with.as_slice(), &mut left, count)? {
        Some(_) => Ok(Some(Step { gone: with, left })),
        None => Ok(None),
    }
}
