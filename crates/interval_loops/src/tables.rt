//! Tables of rows of numbers.
ghost use Rattle.std.specs.Prelude.{◌≡◌, ◌≢◌, ℕ, ◌<◌, ◌≤◌, ◌^◌, ◌+◌, ◌++◌, ◌∷◌, Bool, true, false, ◌||◌, ◌&&◌, ◌==◌};
ghost use Rattle.std.specs.Prelude.{nat_eq, nat_lt, List, [], length, IfOk, OnOk};
ghost use Rattle.std.specs.List.{list_any};
ghost use Rattle.graph_search.specs.NodeLists.{holds};
ghost use Rattle.graph_search.specs.Flows.{Flow, edge, IsBounded};
ghost use Rattle.graph_reduction.specs.Sets.{in_set};
ghost use Rattle.graph_search.specs.Orders.{Rising};
ghost use Rattle.graph_search.specs.Rows.{row_in, RowMore};
ghost use Rattle.interval_loops.specs.Tables.{AreNumbered};

use graph_search::{add_to_row, empty_rows};
use sqlite_items::Items;
use std::alloc::{AllocError, Global};
use std::collections::BTreeSet;

/// The sources of closing edges, and of all edges, by block.
#[derive(Drop)]
pub struct Tables {
    pub closers: Vec<Items<u32>>,
    pub before: Vec<Items<u32>>,
}

/// The sources of the closing edges to each block, ascending.
pub fn closing_sources(
    alloc: Global,
    mut closings: BTreeSet<(u32, u32, u32)>,
    count: u32,
) -> Result<Vec<Items<u32>>, AllocError>
    requires below { (h u z : ℕ) → in_set closings h u z ≡ true → (h < count) × (z ≡ 0) }
    ensures size { IfOk result (λ v. length v.items ≡ count) }
    ensures exact { IfOk result (λ v. (h u : ℕ) → holds nat_eq u (row_in v.items h) ≡ in_set closings h u 0) }
    ensures rising { IfOk result (λ v. (h : ℕ) → Rising (λ u. u) (row_in v.items h)) }
{
    let mut rows = empty_rows(alloc, count)?;
    while let Some(edge) = closings.pop_first() {
        add_to_row(&mut rows, edge.0, edge.1)?;
    }
    Ok(rows)
}

/// The number of each block that is a header, counted from 1, or 0; the headers are added to a list.
pub fn numbers(
    alloc: Global,
    closers: &[Items<u32>],
    headers: &mut Vec<u32>,
) -> Result<Vec<u32>, AllocError>
    requires none { headers.old.items ≡ [] }
    requires few { length closers.now < 2 ^ 32 }
    ensures { IfOk result (λ v. AreNumbered closers.now (length closers.now) headers.new.items v.items) }
{
    let mut numbers = Vec::new(alloc);
    let mut block = 0;
    for row in closers {
        add_number(&mut numbers, headers, row.is_empty(), block)?;
        block += 1;
    }
    Ok(numbers)
}

/// Adds the number of the next block.
fn add_number(
    numbers: &mut Vec<u32>,
    headers: &mut Vec<u32>,
    none: bool,
    block: u32,
) -> Result<(), AllocError>
    requires few { length headers.old.items ≤ block }
    requires room { block + 1 < 2 ^ 32 }
    ensures none { OnOk result (none ≡ true → (headers.new.items ≡ headers.old.items) ×
        (numbers.new.items ≡ numbers.old.items ++ 0 ∷ [])) }
    ensures some { OnOk result (none ≡ false → (headers.new.items ≡ headers.old.items ++ block ∷ []) ×
        (numbers.new.items ≡ numbers.old.items ++ (length headers.old.items + 1) ∷ [])) }
{
    if none {
        numbers.push(0)?;
    } else {
        headers.push(block)?;
        numbers.push(headers.len() as u32)?;
    }
    Ok(())
}
