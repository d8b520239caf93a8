//! What stands of the uses of each block in its leaf.

ghost use Rattle.std.specs.Prelude.{◌≡◌, ◌<◌, ◌≤◌, ◌+◌, ◌^◌, ◌++◌, ℕ, Bool, true, List, [], length, map, nat_eq};
ghost use Rattle.std.specs.Prelude.{Option};
ghost use Rattle.std.specs.Prelude.{IfOk, OnOk};
ghost use Rattle.graph_search.specs.NodeLists.{holds};
ghost use Rattle.graph_search.specs.Rows.{row_in};
ghost use Rattle.persistence.specs.Spots.{base_of_points, uses_of_points};
ghost use Rattle.line_uses.specs.PointMaps.{ArePointMaps, PointMaps, code_of};
ghost use Rattle.line_uses.specs.Scopes.{always_here, cost_in, paid_here, scope_in, use_here, with_use};
ghost use Rattle.line_uses.specs.Leaves.{AreUsesOf, leaf_of};

use crate::order::starts_use;
use crate::scopes::scopes_of;
use crate::tables::PointTables;
use sqlite_items::Items;
use std::alloc::{AllocError, Global};
use wsym_terms::{BlockUses, Use};

/// The scope of each point that is a use with one, and the uses by block.
#[derive(Drop)]
pub struct LineUses {
    pub scopes: Items<Option<u32>>,
    pub blocks: Items<BlockUses>,
}

/// The scope of a point, where it has one.
fn scope_at(scopes: &[Option<u32>], point: u32) -> Option<u32>
    ensures { result ≡ scope_in scopes.now point }
{
    match scopes.get(point as usize) {
        Some(scope) => *scope,
        None => None,
    }
}

/// The cost of a point; 0 past the table's end.
fn cost_at(costs: &[u64], point: u32) -> u64
    ensures { result ≡ cost_in costs.now point }
{
    match costs.get(point as usize) {
        Some(cost) => *cost,
        None => 0,
    }
}

/// The use at a point, where it is one with a scope.
fn use_at(
    tables: &PointTables,
    scopes: &[Option<u32>],
    before: Option<u32>,
    point: u32,
) -> Option<Use>
    ensures { result ≡ use_here (code_of tables.now) (scope_in scopes.now) before point }
{
    if starts_use(tables, before, point) {
        match scope_at(scopes, point) {
            Some(scope) => Some(Use {
                line: tables.line(point),
                scope,
            }),
            None => None,
        }
    } else {
        None
    }
}

fn push_use(uses: &mut Items<Use>, found: Option<Use>) -> Result<(), AllocError>
    ensures { OnOk result (uses.new ≡ uses.old ++ with_use found []) }
{
    match found {
        Some(one) => uses.push(one),
        None => Ok(()),
    }
}

/// The uses of some points in order, with their scopes.
fn uses_in(
    alloc: Global,
    tables: &PointTables,
    scopes: &[Option<u32>],
    points: &[u32],
) -> Result<Items<Use>, AllocError>
    ensures { IfOk result (λ us. us ≡ uses_of_points (code_of tables.now) (scope_in scopes.now) points.now) }
{
    let mut uses = Items::new(alloc);
    let mut before = None;
    for point in points {
        push_use(&mut uses, use_at(tables, scopes, before, *point))?;
        before = Some(*point);
    }
    Ok(uses)
}

/// Whether a point is a use without a scope.
fn misses_always(
    tables: &PointTables,
    scopes: &[Option<u32>],
    before: Option<u32>,
    point: u32,
) -> bool
    ensures { result ≡ always_here (code_of tables.now) (scope_in scopes.now) before point }
{
    if starts_use(tables, before, point) {
        scope_at(scopes, point).is_none()
    } else {
        false
    }
}

/// What a point costs, with a miss where it is a use without a scope.
fn cost_here(
    tables: &PointTables,
    scopes: &[Option<u32>],
    costs: &[u64],
    miss: u64,
    before: Option<u32>,
    point: u32,
) -> u128
    ensures value { result ≡ paid_here miss (cost_in costs.now) (code_of tables.now) (scope_in scopes.now) before point }
    ensures small { result < 2 ^ 65 }
{
    let cost = cost_at(costs, point) as u128;
    if misses_always(tables, scopes, before, point) {
        cost + miss as u128
    } else {
        cost
    }
}

/// What some points cost at most each time.
fn base_of(
    tables: &PointTables,
    scopes: &[Option<u32>],
    costs: &[u64],
    miss: u64,
    points: &[u32],
) -> u128
    ensures { result ≡ base_of_points miss (cost_in costs.now) (code_of tables.now) (scope_in scopes.now) points.now }
{
    let mut base = 0;
    let mut before = None;
    for point in points {
        base += cost_here(tables, scopes, costs, miss, before, *point);
        before = Some(*point);
    }
    base
}

/// The base and the uses of a block.
pub fn line_uses(
    alloc: Global,
    tables: &PointTables,
    scopes: &[Option<u32>],
    costs: &[u64],
    miss: u64,
    points: &[u32],
) -> Result<BlockUses, AllocError>
    ensures { IfOk result (λ b. b ≡ leaf_of miss costs.now tables.now scopes.now points.now) }
{
    let base = base_of(tables, scopes, costs, miss, points);
    let uses = uses_in(alloc, tables, scopes, points)?;
    Ok(BlockUses { base, uses })
}

/// The base and the uses of each block.
fn all_blocks(
    alloc: Global,
    tables: &PointTables,
    scopes: &[Option<u32>],
    costs: &[u64],
    miss: u64,
    blocks: &[Items<u32>],
) -> Result<Items<BlockUses>, AllocError>
    ensures { IfOk result (λ v. v ≡ map (leaf_of miss costs.now tables.now scopes.now) blocks.now) }
{
    let mut found = Items::new(alloc);
    for block in blocks {
        found.push(line_uses(alloc, tables, scopes, costs, miss, block.as_slice())?)?;
    }
    Ok(found)
}

/// The uses of a function: the scope of each use of its blocks, and what stands of each block in its leaf.
///
/// `blocks` has the points of each block in order, `costs` the cycles of each point, at most, without a miss; a miss
/// costs `miss` cycles. The cache has `sets` sets of `ways` lines; the line of a point is the number of its line in
/// memory. Any numbers of sets and ways other than 0 will do, one way being a direct-mapped cache. Any tables are taken;
/// the promise is of those that are a function's.
///
/// # Errors
///
/// Want of memory alone.
pub fn uses(
    alloc: Global,
    tables: &PointTables,
    blocks: &[Items<u32>],
    costs: &[u64],
    sets: u32,
    ways: usize,
    miss: u64,
) -> Result<LineUses, AllocError>
    requires count { length tables.now.home < 2 ^ 32 }
    requires some_set { 0 < sets }
    requires some_way { 0 < ways }
    ensures { ArePointMaps tables.now
        → ((b p : ℕ) → holds nat_eq p (row_in blocks.now b) ≡ true → p < length tables.now.home)
        → IfOk result (AreUsesOf sets ways miss tables.now blocks.now costs.now) }
{
    let scopes = scopes_of(alloc, tables, blocks, sets, ways)?;
    let found = all_blocks(alloc, tables, scopes.as_slice(), costs, miss, blocks)?;
    Ok(LineUses {
        scopes: Items::from_vec(scopes),
        blocks: found,
    })
}
