//! Which numbers lead to each number, and from which the way out is reached.

ghost use Rattle.std.specs.Prelude.{◌≡◌, ℕ, ◌<◌, ◌≤◌, ◌^◌, ◌+◌, ◌-◌, ◌==◌, ◌||◌, ◌↔◌, Contains, [], true, nat_eq};
ghost use Rattle.std.specs.Prelude.{length};
ghost use Rattle.std.specs.Prelude.{List, get_or, IfOk, OnOk, IsErrOf};
ghost use Rattle.graph_search.specs.NodeLists.{holds};
ghost use Rattle.graph_search.specs.Walks.{Reached};
ghost use Rattle.graph_search.specs.Searches.{steps_to};
ghost use Rattle.basic_blocks.specs.LivePoints.{before};
ghost use Rattle.basic_blocks.specs.Chains.{is_flagged};
ghost use Rattle.point_tables.specs.Numbers.{AreSources, AreLed, AreFlagged};
ghost use Rattle.point_tables.specs.Targets.{numbers_in, step_in};

use crate::targets::Targets;
use graph_search::{NodeList, RowLinks, SearchRefusal, add_to_row, empty_rows, reach};
use sqlite_items::Items;
use std::alloc::{AllocError, Global};

/// Puts a number into the row of the one to which it leads.
pub fn lead(rows: &mut Vec<Items<u32>>, to: Option<u32>, from: u32) -> Result<(), AllocError>
    requires { (j : ℕ) → Contains (numbers_in to) j → j < length rows.old.items }
    ensures { OnOk result (AreLed rows.old.items (numbers_in to) from rows.new.items) }
{
    match to {
        Some(number) => {
            add_to_row(rows, number, from)?;
            Ok(())
        }
        None => Ok(()),
    }
}

/// The numbers that lead to each number, and last those from which a way goes out.
pub fn source_rows(alloc: Global, table: &[Targets]) -> Result<Vec<Items<u32>>, AllocError>
    requires few { length table.now < 2 ^ 32 - 1 }
    requires inside { (i j : ℕ) → Contains (step_in table.now i) j → j ≤ length table.now }
    ensures long { IfOk result (λ v. length v.items ≡ length table.now + 1) }
    ensures before { IfOk result (λ v. AreSources (step_in table.now) (before v.items)) }
{
    let mut rows = empty_rows(alloc, table.len() as u32 + 1)?;
    let mut at: u32 = 0;
    while (at as usize) < table.len() {
        let targets = table[at as usize];
        lead(&mut rows, targets.done, at)?;
        lead(&mut rows, targets.skipped, at)?;
        at += 1;
    }
    Ok(rows)
}

/// Whether a number is flagged.
pub fn is_set(flags: &[bool], number: u32) -> bool
    ensures { result ≡ is_flagged flags.now number }
{
    match flags.get(number as usize) {
        Some(flag) => *flag,
        None => false,
    }
}

/// Sets a number's flag, where it has one.
pub fn set_flag(flags: &mut Vec<bool>, number: u32)
    ensures { (length flags.new.items ≡ length flags.old.items) × ((i : ℕ) → i < length flags.old.items
        → is_flagged flags.new.items i ≡ (i == number || is_flagged flags.old.items i)) }
{
    if (number as usize) < flags.len() {
        flags[number as usize] = true;
    }
}

/// A number of flags, none set.
pub fn no_flags(alloc: Global, count: usize) -> Result<Vec<bool>, AllocError>
    ensures { IfOk result (λ v. AreFlagged count [] v.items) }
{
    let mut flags = Vec::with_capacity(alloc, count)?;
    while flags.len() < count {
        flags.push(false)?;
    }
    Ok(flags)
}

/// Sets the flags of the numbers in a list.
pub fn flag_all(flags: &mut Vec<bool>, found: &NodeList)
    ensures { (n : ℕ) → AreFlagged n [] flags.old.items → AreFlagged n found.now flags.new.items }
{
    let mut at = 0;
    while at < found.len() {
        set_flag(flags, found.get(at));
        at += 1;
    }
}

/// Flags at the numbers from which the last one is reached.
pub fn live_flags(alloc: Global, rows: &[Items<u32>], last: u32) -> Result<Vec<bool>, SearchRefusal>
    requires { length rows.now ≡ last + 1 }
    ensures live { IfOk result (λ v. (i : ℕ) → i ≤ last → (is_flagged v.items i ≡ true)
        ↔ Reached (steps_to nat_eq (before rows.now)) last i) }
    ensures memory { IsErrOf result SearchRefusal.TooLarge → ⊥ }
{
    let links = RowLinks { rows };
    let found = match reach(alloc, &links, last, rows.len()) {
        Ok(found) => found,
        Err(_) => return Err(SearchRefusal::Memory),
    };
    let mut flags = no_flags(alloc, rows.len()).map_err(|_| SearchRefusal::Memory)?;
    flag_all(&mut flags, &found);
    Ok(flags)
}
