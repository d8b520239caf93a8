//! Lists of open calls under their parents.
ghost use Rattle.std.specs.Prelude.{◌≡◌, ℕ, ◌<◌, ◌≤◌, ◌+◌, ◌^◌, ◌++◌, ◌∷◌, [], true, List, map, length, get_or};
ghost use Rattle.std.specs.Prelude.{slice_get, slice_set, Some, Contains, IfOk, OnOk};
ghost use Rattle.std.specs.Str.{bytes_eq};
ghost use Rattle.std.specs.BTreeSet as tree;
ghost use Rattle.graph_search.specs.NodeLists.{holds, Distinct};
ghost use Rattle.function_points.specs.Contexts.{pair_cmp};
ghost use Rattle.point_order.specs.Families.{AreFamilies, IsOrder, list_at};
ghost use Rattle.function_points.specs.PointLists.{pair_eq, AreHeld};
ghost use Rattle.basic_blocks.specs.Blocks.{Ascending};
ghost use Rattle.point_order.specs.Ranks.{IsRow, AreReturns};

use function_points::Contexts;
use sqlite_items::Items;
use std::alloc::{AllocError, AllocFailed, Global};
use std::collections::BTreeSet;

/// Puts a number at the end of a row.
pub fn append(rows: &mut Vec<Items<u32>>, at: u32, number: u32) -> Result<(), AllocError>
    requires { at < length rows.old.items }
    ensures { OnOk result (rows.new.items ≡ slice_set rows.old.items at (get_or rows.old.items at [] ++ number ∷ [])) }
{
    rows[at as usize].push(number)
}

/// Empty rows.
pub fn empty_rows(alloc: Global, count: usize) -> Result<Vec<Items<u32>>, AllocError>
    ensures long { IfOk result (λ v. length v.items ≡ count) }
    ensures empty { IfOk result (λ v. (k : ℕ) → get_or v.items k [] ≡ []) }
{
    let mut rows = Vec::with_capacity(alloc, count)?;
    while rows.len() < count {
        rows.push(Items::new(alloc))?;
    }
    Ok(rows)
}

/// Adds a list's last return address with its number.
pub fn wait_for(
    waiting: &mut BTreeSet<(u32, u32)>,
    contexts: &Contexts,
    number: u32,
) -> Result<(), AllocFailed<(u32, u32)>>
    requires known { number < length contexts.now }
    requires distinct { Distinct bytes_eq contexts.now }
    ensures { OnOk result (AreReturns contexts.now number (tree.contains pair_cmp waiting.old) → AreReturns contexts.now
        (number + 1) (tree.contains pair_cmp waiting.new)) }
{
    match contexts.parent_of(number) {
        Some(row) => {
            waiting.insert((row.1, number))?;
            Ok(())
        }
        None => Ok(()),
    }
}

/// The numbers of all lists but the empty one, by their last return addresses.
pub fn returns_of(alloc: Global, contexts: &Contexts) -> Result<BTreeSet<(u32, u32)>, AllocError>
    requires few { length contexts.now < 2 ^ 32 }
    requires distinct { Distinct bytes_eq contexts.now }
    ensures { IfOk result (λ set. AreReturns contexts.now (length contexts.now) (tree.contains pair_cmp set)) }
{
    let mut waiting = BTreeSet::new(alloc);
    let mut number: u32 = 0;
    while (number as usize) < contexts.len() {
        wait_for(&mut waiting, contexts, number)?;
        number += 1;
    }
    Ok(waiting)
}

/// Puts a number at the end of its parent's row.
pub fn adopt(
    children: &mut Vec<Items<u32>>,
    contexts: &Contexts,
    number: u32,
) -> Result<(), AllocError>
    requires known { number < length contexts.now }
    requires long { length children.old.items ≡ length contexts.now }
    requires distinct { Distinct bytes_eq contexts.now }
    ensures { OnOk result ((p a : ℕ) → IsRow contexts.now number p a → children.new.items
        ≡ slice_set children.old.items p (get_or children.old.items p [] ++ number ∷ [])) }
{
    match contexts.parent_of(number) {
        Some(row) => {
            append(children, row.0, number)?;
            Ok(())
        }
        None => Ok(()),
    }
}

/// Each list's children by their numbers, the last first.
pub fn families(alloc: Global, contexts: &Contexts) -> Result<Vec<Items<u32>>, AllocError>
    requires { length contexts.now < 2 ^ 32 }
    ensures { IfOk result (λ v. AreFamilies contexts.now v.items) }
{
    let count = contexts.len();
    let mut waiting = returns_of(alloc, contexts)?;
    let mut children = empty_rows(alloc, count)?;
    while let Some(last) = waiting.pop_last() {
        adopt(&mut children, contexts, last.1)?;
    }
    Ok(children)
}
