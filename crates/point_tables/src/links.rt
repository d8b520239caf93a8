//! Which points only follow one another.

ghost use Rattle.std.specs.Prelude.{◌≡◌, ℕ, ◌<◌, ◌≤◌, ◌^◌, length, List, IfOk};
ghost use Rattle.basic_blocks.specs.Chains.{is_flagged};
ghost use Rattle.basic_blocks.specs.LivePoints.{before};
ghost use Rattle.point_tables.specs.Numbers.{Answers, is_other, IsOnlyFlagged, IsLink, IsTableOf};
ghost use Rattle.point_tables.specs.Targets.{target_numbers, step_in};

use crate::liveness::is_set;
use crate::targets::Targets;
use sqlite_items::Items;
use std::alloc::{AllocError, Global};

/// Whether another number was found.
fn differs(found: Option<u32>, number: u32) -> bool
    ensures { result ≡ is_other found number }
{
    match found {
        Some(one) => one != number,
        None => false,
    }
}

/// The only number of a row that is flagged.
pub fn one_of(row: &[u32], flags: &[bool]) -> Option<u32>
    ensures { Answers (IsOnlyFlagged (is_flagged flags.now) row.now) result }
{
    let mut found: Option<u32> = None;
    for number in row {
        if is_set(flags, *number) {
            if differs(found, *number) {
                return None;
            }
            found = Some(*number);
        }
    }
    found
}

/// The only flagged number that a point leads to.
pub fn next_of(targets: &Targets, flags: &[bool]) -> Option<u32>
    ensures { Answers (IsOnlyFlagged (is_flagged flags.now) (target_numbers targets.now)) result }
{
    match targets.done {
        Some(done) => match targets.skipped {
            Some(skipped) => one_of(&[done, skipped], flags),
            None => one_of(&[done], flags),
        },
        None => match targets.skipped {
            Some(skipped) => one_of(&[skipped], flags),
            None => None,
        },
    }
}

/// The only flagged number from which a number is reached in one step.
pub fn before_of(rows: &[Items<u32>], flags: &[bool], number: u32) -> Option<u32>
    ensures { Answers (IsOnlyFlagged (is_flagged flags.now) (before rows.now number)) result }
{
    if (number as usize) < rows.len() {
        one_of(rows[number as usize].as_slice(), flags)
    } else {
        None
    }
}

/// The only flagged number that a number leads to.
pub fn after_of(table: &[Targets], flags: &[bool], number: u32) -> Option<u32>
    ensures { Answers (IsOnlyFlagged (is_flagged flags.now) (step_in table.now number)) result }
{
    if (number as usize) < table.len() {
        next_of(&table[number as usize], flags)
    } else {
        None
    }
}

/// What alone follows a point.
pub fn forward(
    table: &[Targets],
    rows: &[Items<u32>],
    flags: &[bool],
    entry: u32,
    point: u32,
) -> Option<u32>
    ensures { Answers
        (IsLink (step_in table.now) (before rows.now) (is_flagged flags.now) (length table.now) entry point) result }
{
    match after_of(table, flags, point) {
        Some(next) => {
            if next as usize >= table.len() {
                return None;
            }
            if next == entry {
                return None;
            }
            match before_of(rows, flags, next) {
                Some(from) => { if from == point { Some(next) } else { None } }
                None => None,
            }
        }
        None => None,
    }
}

/// What a point alone follows.
pub fn backward(
    table: &[Targets],
    rows: &[Items<u32>],
    flags: &[bool],
    entry: u32,
    point: u32,
) -> Option<u32>
    requires { point < length table.now }
    ensures { Answers
        (λ p. IsLink (step_in table.now) (before rows.now) (is_flagged flags.now) (length table.now) entry p point)
        result }
{
    if point == entry {
        return None;
    }
    match before_of(rows, flags, point) {
        Some(from) => match after_of(table, flags, from) {
            Some(next) => { if next == point { Some(from) } else { None } }
            None => None,
        },
        None => None,
    }
}

/// What alone follows each point.
pub fn all_forward(
    alloc: Global,
    table: &[Targets],
    rows: &[Items<u32>],
    flags: &[bool],
    entry: u32,
) -> Result<Items<Option<u32>>, AllocError>
    requires { length table.now < 2 ^ 32 }
    ensures { IfOk result (IsTableOf
        (IsLink (step_in table.now) (before rows.now) (is_flagged flags.now) (length table.now) entry)
        (length table.now)) }
{
    let mut only = Items::new(alloc);
    let mut at: u32 = 0;
    while (at as usize) < table.len() {
        let next = forward(table, rows, flags, entry, at);
        only.push(next)?;
        at += 1;
    }
    Ok(only)
}

/// What each point alone follows.
pub fn all_backward(
    alloc: Global,
    table: &[Targets],
    rows: &[Items<u32>],
    flags: &[bool],
    entry: u32,
) -> Result<Items<Option<u32>>, AllocError>
    requires { length table.now < 2 ^ 32 }
    ensures { IfOk result (IsTableOf
        (λ q p. IsLink (step_in table.now) (before rows.now) (is_flagged flags.now) (length table.now) entry p q)
        (length table.now)) }
{
    let mut back = Items::new(alloc);
    let mut at: u32 = 0;
    while (at as usize) < table.len() {
        let from = backward(table, rows, flags, entry, at);
        back.push(from)?;
        at += 1;
    }
    Ok(back)
}
