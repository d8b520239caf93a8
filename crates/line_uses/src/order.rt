//! The points in the order of their lines, the points of each cache set, and flags at the uses.

ghost use Rattle.std.specs.Prelude.{◌≡◌, ◌<◌, ◌%◌, ℕ, Bool, true, List, Option, None, Some, length, nat_eq, slice_set};
ghost use Rattle.std.specs.Prelude.{IfOk, if◌then◌else◌};
ghost use Rattle.graph_search.specs.NodeLists.{holds};
ghost use Rattle.graph_search.specs.Rows.{row_in};
ghost use Rattle.persistence.specs.BlockMisses.{is_use};
ghost use Rattle.persistence.specs.PointRows.{line_at};
ghost use Rattle.line_uses.specs.PointMaps.{PointMaps, code_of};
ghost use Rattle.line_uses.specs.Scopes.{all_uses, flag_in, use_points};

use crate::tables::PointTables;
use graph_search::{add_to_row, empty_rows};
use persistence::line_of;
use sqlite_items::Items;
use std::alloc::{AllocError, Global};

/// The points 0 to `count` - 1.
fn all_points(alloc: Global, count: u32) -> Result<Vec<u32>, AllocError>
    ensures { IfOk result (λ v. (q : ℕ) → q < count → holds nat_eq q v.items ≡ true) }
{
    let mut points = Vec::new(alloc);
    for point in 0..count {
        points.push(point)?;
    }
    Ok(points)
}

/// The points 0 to `count` - 1, those of one line one after another.
pub(crate) fn points_by_line(
    alloc: Global,
    lines: &[u32],
    count: u32,
) -> Result<Vec<u32>, AllocError>
    ensures { IfOk result (λ v. (q : ℕ) → q < count → holds nat_eq q v.items ≡ true) }
{
    let mut points = all_points(alloc, count)?;
    points.sort_by_key(|point| line_of(lines, *point))?;
    Ok(points)
}

/// The points of each cache set, in their order.
pub(crate) fn points_by_set(
    alloc: Global,
    lines: &[u32],
    order: &[u32],
    sets: u32,
) -> Result<Vec<Items<u32>>, AllocError>
    requires { 0 < sets }
    ensures { IfOk result (λ v. (q : ℕ) → holds nat_eq q order.now ≡ true
        → holds nat_eq q (row_in v.items (line_at lines.now q % sets)) ≡ true) }
{
    let mut rows = empty_rows(alloc, sets)?;
    for point in order {
        add_to_row(&mut rows, line_of(lines, *point) % sets, *point)?;
    }
    Ok(rows)
}

/// Whether a point is a use, after another in its block or first.
pub(crate) fn starts_use(tables: &PointTables, before: Option<u32>, point: u32) -> bool
    ensures { result ≡ is_use (code_of tables.now) before point }
{
    match before {
        None => true,
        Some(other) => tables.line(other) != tables.line(point),
    }
}

/// The flag of a point; none past the table's end.
pub(crate) fn flag_of(flags: &[bool], point: u32) -> bool
    ensures { result ≡ flag_in flags.now point }
{
    match flags.get(point as usize) {
        Some(flag) => *flag,
        None => false,
    }
}

/// Sets the flag of a point, where it is a use.
#[tactic(auto, using(crate::proofs::OrderLemmas::set_past))]
fn flag_use(flags: &mut Vec<bool>, tables: &PointTables, before: Option<u32>, point: u32)
    ensures { flags.new.items ≡ (if is_use (code_of tables.now) before point then slice_set flags.old.items point true
        else flags.old.items) }
{
    if starts_use(tables, before, point) && (point as usize) < flags.len() {
        flags[point as usize] = true;
    }
}

/// Sets the flags of the uses among a block's points.
fn flag_block(flags: &mut Vec<bool>, tables: &PointTables, points: &[u32])
    ensures kept { ((p : ℕ) → holds nat_eq p points.now ≡ true → p < length flags.old.items)
        → (q : ℕ) → flag_in flags.old.items q ≡ true → flag_in flags.new.items q ≡ true }
    ensures all { ((p : ℕ) → holds nat_eq p points.now ≡ true → p < length flags.old.items)
        → (q : ℕ) → holds nat_eq q (use_points (code_of tables.now) None points.now) ≡ true
        → flag_in flags.new.items q ≡ true }
    ensures size { length flags.new.items ≡ length flags.old.items }
{
    let mut before = None;
    for point in points {
        flag_use(flags, tables, before, *point);
        before = Some(*point);
    }
}

/// A flag for each point, set at each use.
pub(crate) fn flag_uses(
    alloc: Global,
    tables: &PointTables,
    blocks: &[Items<u32>],
) -> Result<Vec<bool>, AllocError>
    ensures size { IfOk result (λ v. length v.items ≡ length tables.now.home) }
    ensures all { ((b p : ℕ) → holds nat_eq p (row_in blocks.now b) ≡ true → p < length tables.now.home)
        → IfOk result (λ v. (q : ℕ) → holds nat_eq q (all_uses (code_of tables.now) blocks.now) ≡ true
        → flag_in v.items q ≡ true) }
{
    let mut flags = std::vec![in alloc; false; tables.len()]?;
    for block in blocks {
        flag_block(&mut flags, tables, block.as_slice());
    }
    Ok(flags)
}
