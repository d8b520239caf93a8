//! What one more way to a point brings.

ghost use Rattle.std.specs.Prelude.{◌≡◌, ◌<◌, IfOk, IfSome, IfNone, Some, None, get_or, length, option_map};
ghost use Rattle.copy_facts.specs.Searching.{IsMet, Replaces, Stays};
ghost use Rattle.copy_facts.specs.Tables.{IsTable, state_of_point};

use crate::joining::join_points;
use crate::tables::PointFacts;
use std::alloc::{AllocError, Global};

/// What replaces what is known of a point, where one way more brings something new.
fn replacement(
    alloc: Global,
    stack: u32,
    old: &Option<PointFacts>,
    next: PointFacts,
) -> Result<Option<PointFacts>, AllocError>
    requires old { IfSome old.now IsTable }
    requires next { IsTable next }
    ensures replaces { IfOk result (λ o. IfSome o (Replaces stack old.now (state_of_point next))) }
    ensures stays { IfOk result (λ o. IfNone o (Stays stack old.now (state_of_point next))) }
{
    match old {
        None => Ok(Some(next)),
        Some(old) => match join_points(alloc, stack, old, &next)? {
            Some(table) => Ok(Some(table)),
            None => Ok(None),
        },
    }
}

/// Joins what one way more brings to a point, and answers whether this changes anything.
pub fn meet(
    alloc: Global,
    stack: u32,
    facts: &mut Vec<Option<PointFacts>>,
    target: u32,
    next: PointFacts,
) -> Result<bool, AllocError>
    requires there { target < length facts.old.items }
    requires old { IfSome (get_or facts.old.items target None) IsTable }
    requires next { IsTable next }
    ensures { IfOk result (IsMet stack facts.old.items target (state_of_point next) facts.new.items) }
{
    let replaced = replacement(alloc, stack, &facts[target as usize], next)?;
    match replaced {
        Some(table) => {
            facts[target as usize] = Some(table);
            Ok(true)
        }
        None => Ok(false),
    }
}
