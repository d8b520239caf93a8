ghost use Rattle.std.specs.Prelude.{◌≡◌, ◌<◌, ◌+◌, ℕ, true, false, [], ◌++◌, List, IfOk, OnOk, IfSome, MatchOption, Option, Some, None, ◌&&◌, pos, int_le, int_lt};
ghost use Rattle.row_elimination.specs.Derivations.{given_from, EachCollected};
ghost use Rattle.linear_rows.specs.Terms.{IsCollected};
ghost use Rattle.row_elimination.specs.Steps.{has_no_terms};
ghost use Rattle.farkas.specs.Answers.{CarriesEvidence, Decides, IsProved, Have, CarriesEmptiness, DecidesEmptiness, IsEmptyAnswer, HaveAbsurd};
ghost use Rattle.farkas.specs.Deciding.{gives, giver_place, alone, had_answer, absurd_place, had_emptiness, HasCause, HasEmptinessCause, start_of, variables_of, vars_of, answer_of_run, emptiness_of_run, entailment_fits, emptiness_fits};

use crate::answers::{Answer, Emptiness};
use crate::deciding::{decide, decide_emptiness};
use crate::runs::{Run, add_all_vars, add_vars, eliminate_each};
use linear_rows::{Row, Var};
use row_elimination::{Derived, Multiplier, are_same};
use sqlite_items::Items;
use std::alloc::{AllocError, Global};

/// The given rows, each with its place.
#[tactic(auto, using(crate::proofs::Collecting::collected_push))]
fn given(alloc: Global, rows: &[Row]) -> Result<Vec<Derived>, AllocError>
    ensures is { IfOk result (λ v. v.items ≡ given_from 0 rows.now) }
    ensures collected { IfOk result (λ v. EachCollected v.items) }
{
    let mut out = Vec::new(alloc);
    let mut place = 0;
    for row in rows {
        out.push(Derived::given(alloc, place, row)?)?;
        place += 1;
    }
    Ok(out)
}

/// What the test of a row starts with.
#[tactic(auto, using(crate::proofs::Collecting::collected_push))]
fn start(alloc: Global, rows: &[Row], row: &Row) -> Result<Vec<Derived>, AllocError>
    ensures is { IfOk result (λ v. v.items ≡ start_of rows.now row.now) }
    ensures collected { IfOk result (λ v. EachCollected v.items) }
{
    let mut out = given(alloc, rows)?;
    out.push(Derived::at_most_last(alloc, row)?)?;
    out.push(Derived::at_least_last(alloc, row)?)?;
    Ok(out)
}

/// The variables of rows and of one more, in ascending order.
fn variables(alloc: Global, rows: &[Row], row: &Row) -> Result<Vec<Var>, AllocError>
    ensures { IfOk result (λ v. v.items ≡ variables_of rows.now row.now) }
{
    let mut vars = Vec::new(alloc);
    add_vars(&mut vars, row.terms())?;
    add_all_vars(&mut vars, rows)?;
    Ok(vars)
}

/// The answer of a run, None where it passes a limit.
pub(crate) fn entails_by_run(
    alloc: Global,
    rows: &[Row],
    row: &Row,
) -> Result<Option<Answer>, AllocError>
    ensures answer { IfOk result (λ o. MatchOption o (entailment_fits rows.now row.now ≡ false) (λ a. a ≡ answer_of_run rows.now row.now)) }
    ensures collected { IfOk result (λ o. EachCollected (start_of rows.now row.now)) }
{
    let vars = variables(alloc, rows, row)?;
    let start = start(alloc, rows, row)?;
    match eliminate_each(alloc, vars.as_slice(), start)? {
        Some(Run { levels, left }) => decide(alloc, row.constant(), levels, left.as_slice()),
        None => Ok(None),
    }
}

/// Whether there is a rational point, by a run. None where it passes a limit.
pub(crate) fn empty_by_run(alloc: Global, rows: &[Row]) -> Result<Option<Emptiness>, AllocError>
    ensures answer { IfOk result (λ o. MatchOption o (emptiness_fits rows.now ≡ false) (λ a. a ≡ emptiness_of_run rows.now)) }
    ensures collected { IfOk result (λ o. EachCollected (given_from 0 rows.now)) }
{
    let mut vars = Vec::new(alloc);
    add_all_vars(&mut vars, rows)?;
    let start = given(alloc, rows)?;
    match eliminate_each(alloc, vars.as_slice(), start)? {
        Some(Run { levels, left }) => decide_emptiness(alloc, levels, left.as_slice()),
        None => Ok(None),
    }
}

/// Whether a row has no terms and a constant of at least 0.
fn is_plain(row: &Row) -> bool
    ensures test { result ≡ (has_no_terms row.now.terms && int_le (pos 0) row.now.constant) }
    ensures collected { IsCollected row.now.terms }
{
    row.terms().is_empty() && row.constant() >= 0
}

/// Whether a row has no terms and a negative constant.
fn is_absurd(row: &Row) -> bool
    ensures { result ≡ (has_no_terms row.now.terms && int_lt row.now.constant (pos 0)) }
{
    row.terms().is_empty() && row.constant() < 0
}

/// Whether a row gives another by itself: it has its left side and a constant at most as large, or it holds
/// nowhere.
fn is_giver(other: &Row, row: &Row) -> bool
    ensures { result ≡ gives other.now row.now }
{
    (are_same(other.terms(), row.terms()) && other.constant() <= row.constant()) || is_absurd(other)
}

/// The place of the first row that gives a row by itself.
fn place_of_giver(rows: &[Row], row: &Row) -> Option<u64>
    ensures { result ≡ giver_place rows.now row.now }
{
    let mut place = 0;
    for other in rows {
        if is_giver(other, row) {
            return Some(place);
        }
        place += 1;
    }
    None
}

/// The place of the first row that holds nowhere.
fn place_of_absurd(rows: &[Row]) -> Option<u64>
    ensures { result ≡ absurd_place rows.now }
{
    let mut place = 0;
    for row in rows {
        if is_absurd(row) {
            return Some(place);
        }
        place += 1;
    }
    None
}

/// One row, once.
fn alone(alloc: Global, place: u64) -> Result<Items<Multiplier>, AllocError>
    ensures { IfOk result (λ ms. ms ≡ alone place) }
{
    let mut multipliers = Items::new(alloc);
    multipliers.push(Multiplier {
        row: place,
        factor: 1,
    })?;
    Ok(multipliers)
}

/// The answer where the rows have the row.
fn had(alloc: Global, rows: &[Row], row: &Row) -> Result<Option<Answer>, AllocError>
    ensures answer { IfOk result (λ o. o ≡ had_answer rows.now row.now) }
    ensures collected { IsCollected row.now.terms }
{
    if is_plain(row) {
        return Ok(Some(Answer::Proved {
            multipliers: Items::new(alloc),
            divisor: 1,
        }));
    }
    match place_of_giver(rows, row) {
        Some(place) => Ok(Some(Answer::Proved {
            multipliers: alone(alloc, place)?,
            divisor: 1,
        })),
        None => Ok(None),
    }
}

/// Whether rows entail a row, over all rational points: each point at which all rows hold is one at which
/// the row holds.
///
/// The answer carries its evidence, multipliers or a point. It is Beyond only where Fourier and Motzkin's
/// elimination, variable by variable in ascending order, its multipliers or its point have a number of 2^127
/// or more, or a step of it has more than 4,096 rows. A row that the rows have is always proved: they contain
/// it, or one with its left side and a smaller constant, or one without terms whose constant is negative; and
/// a row without terms whose constant isn't negative.
pub fn entails(alloc: Global, rows: &[Row], row: &Row) -> Result<Answer, AllocError>
    ensures evidence { IfOk result (λ a. CarriesEvidence rows.now row.now a) }
    ensures decides { IfOk result (λ a. Decides rows.now row.now a) }
    ensures had { Have rows.now row.now → IfOk result (λ a. IsProved a) }
    ensures beyond { IfOk result (λ a. HasCause rows.now row.now a) }
{
    if let Some(answer) = had(alloc, rows, row)? {
        return Ok(answer);
    }
    match entails_by_run(alloc, rows, row)? {
        Some(answer) => Ok(answer),
        None => Ok(Answer::Beyond),
    }
}

/// The answer where one of the rows holds nowhere.
fn had_absurd(alloc: Global, rows: &[Row]) -> Result<Option<Emptiness>, AllocError>
    ensures { IfOk result (λ o. o ≡ had_emptiness rows.now) }
{
    match place_of_absurd(rows) {
        Some(place) => Ok(Some(Emptiness::Empty {
            multipliers: alone(alloc, place)?,
        })),
        None => Ok(None),
    }
}

/// Whether rows are empty: no rational point is one at which all of them hold.
///
/// The answer carries its evidence, multipliers or a point. It is Beyond only where a limit is passed, as for
/// [`entails`]. Rows among which one without terms has a negative constant are always found empty.
pub fn empty(alloc: Global, rows: &[Row]) -> Result<Emptiness, AllocError>
    ensures evidence { IfOk result (λ a. CarriesEmptiness rows.now a) }
    ensures decides { IfOk result (λ a. DecidesEmptiness rows.now a) }
    ensures had { HaveAbsurd rows.now → IfOk result (λ a. IsEmptyAnswer a) }
    ensures beyond { IfOk result (λ a. HasEmptinessCause rows.now a) }
{
    if let Some(answer) = had_absurd(alloc, rows)? {
        return Ok(answer);
    }
    match empty_by_run(alloc, rows)? {
        Some(answer) => Ok(answer),
        None => Ok(Emptiness::Beyond),
    }
}
