//! The blocks of loops, by loop.
ghost use Rattle.std.specs.Prelude.{◌≡◌, ℕ, ◌<◌, ◌^◌, ◌&&◌, ◌||◌, ◌==◌, true, nat_eq, nat_lt, length, IfOk, OnOk};
ghost use Rattle.std.specs.List.{list_any};
ghost use Rattle.graph_search.specs.NodeLists.{holds};
ghost use Rattle.graph_search.specs.Rows.{row_in};

use graph_search::{add_to_row, empty_rows};
use sqlite_items::Items;
use std::alloc::{AllocError, Global};

/// Adds a block to the row of each loop round it.
fn add_to_loops(rows: &mut Vec<Items<u32>>, round: &[u32], block: u32) -> Result<(), AllocError>
    requires { (c : ℕ) → list_any (λ y. y == c) round.now ≡ true → c < length rows.old.items }
    ensures size { OnOk result (length rows.new.items ≡ length rows.old.items) }
    ensures there { OnOk result ((c u : ℕ) → holds nat_eq u (row_in rows.new.items c) ≡
        ((list_any (λ y. y == c) round.now && nat_eq u block) || holds nat_eq u (row_in rows.old.items c))) }
{
    for number in round {
        add_to_row(rows, *number, block)?;
    }
    Ok(())
}

/// The blocks of each loop, by the loops round each block; all numbers of loops are below `levels`.
pub fn blocks_of_loops(
    alloc: Global,
    around: &[Items<u32>],
    levels: u32,
) -> Result<Vec<Items<u32>>, AllocError>
    requires below { (u c : ℕ) → list_any (λ y. y == c) (row_in around.now u) ≡ true → c < levels }
    requires few { length around.now < 2 ^ 32 }
    ensures size { IfOk result (λ v. length v.items ≡ levels) }
    ensures exact { IfOk result (λ v. (c u : ℕ) → holds nat_eq u (row_in v.items c) ≡
        (nat_lt u (length around.now) && list_any (λ y. y == c) (row_in around.now u))) }
{
    let mut rows = empty_rows(alloc, levels)?;
    let mut block = 0;
    for round in around {
        add_to_loops(&mut rows, round.as_slice(), block)?;
        block += 1;
    }
    Ok(rows)
}
