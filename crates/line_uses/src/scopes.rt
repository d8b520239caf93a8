//! The scopes of uses.

ghost use Rattle.std.specs.Prelude.{◌≡◌, ◌<◌, ◌≤◌, ◌+◌, ◌%◌, ◌^◌, ◌∷◌, [], ℕ, Bool, true, false, List, length, nat_eq};
ghost use Rattle.std.specs.Prelude.{Option, None, IfOk, OnOk};
ghost use Rattle.graph_search.specs.NodeLists.{holds};
ghost use Rattle.graph_search.specs.Rows.{row_in};
ghost use Rattle.persistence.specs.PointRows.{line_at};
ghost use Rattle.line_uses.specs.PointMaps.{ArePointMaps, HasSet, HasSets, PointMaps, depth_of};
ghost use Rattle.line_uses.specs.Scopes.{AreScopesOf, AreSoFar, IsScoped, flag_in, scope_in};
ghost use Rattle.line_uses.specs.SearchSteps.{AreForward};

use crate::order::{flag_of, flag_uses, points_by_line, points_by_set};
use crate::searches::{LineMarks, is_few};
use crate::tables::{PointTables, row_of};
use graph_search::Marks;
use sqlite_items::Items;
use std::alloc::{AllocError, Global};

/// How many loops are round a point's block, where they are no more than sixteen.
fn depth_at(tables: &PointTables, point: u32) -> usize
    ensures exact { ArePointMaps tables.now → result ≡ depth_of tables.now point }
    ensures low { result < 17 }
{
    let depth = tables.loops(point).len();
    if depth < 17 { depth } else { 0 }
}

/// The least depth in whose loop a point has few younger lines, or none. A smaller loop has fewer younger lines, so the
/// depths are halved.
pub(crate) fn scope_of(
    alloc: Global,
    tables: &PointTables,
    peers: &[u32],
    marks: &mut Marks,
    forward: &mut LineMarks,
    point: u32,
    sets: u32,
    ways: usize,
) -> Result<Option<u32>, AllocError>
    requires count { length tables.now.home < 2 ^ 32 }
    requires all { HasSet sets tables.now (line_at tables.now.lines point) peers.now }
    requires back { marks.old.count ≡ length tables.now.home }
    requires forward { AreForward tables.now forward.old }
    requires inside { point < length tables.now.home }
    requires some_set { 0 < sets }
    requires some_way { 0 < ways }
    ensures scope { ArePointMaps tables.now → IfOk result (IsScoped sets ways tables.now point) }
    ensures back { OnOk result (marks.new.count ≡ length tables.now.home) }
    ensures forward { OnOk result (AreForward tables.now forward.new) }
{
    let depth = depth_at(tables, point);
    let some = is_few(
        alloc,
        tables,
        peers,
        marks,
        forward,
        tables.loop_at(point, depth),
        point,
        sets,
        ways,
    )?;
    if !some {
        return Ok(None);
    }
    let mut low = 0;
    let mut high = depth;
    while low < high {
        let middle = (low + high) / 2;
        let few = is_few(
            alloc,
            tables,
            peers,
            marks,
            forward,
            tables.loop_at(point, middle),
            point,
            sets,
            ways,
        )?;
        if few {
            high = middle;
        } else {
            low = middle + 1;
        }
    }
    Ok(Some(high as u32))
}

/// Sets the scope of a point, where its flag is set.
fn set_scope(
    alloc: Global,
    tables: &PointTables,
    flags: &[bool],
    by_set: &[Items<u32>],
    marks: &mut Marks,
    forward: &mut LineMarks,
    scopes: &mut Vec<Option<u32>>,
    point: u32,
    sets: u32,
    ways: usize,
) -> Result<(), AllocError>
    requires count { length tables.now.home < 2 ^ 32 }
    requires all { HasSets sets tables.now by_set.now }
    requires flags { length flags.now ≡ length tables.now.home }
    requires back { marks.old.count ≡ length tables.now.home }
    requires forward { AreForward tables.now forward.old }
    requires size { length scopes.old.items ≡ length tables.now.home }
    requires some_set { 0 < sets }
    requires some_way { 0 < ways }
    ensures ok { ArePointMaps tables.now → OnOk result ((due left : List ℕ)
        → ((q : ℕ) → holds nat_eq q due ≡ true → flag_in flags.now q ≡ true)
        → AreSoFar sets ways tables.now due (point ∷ left) scopes.old.items
        → AreSoFar sets ways tables.now due left scopes.new.items) }
    ensures back { OnOk result (marks.new.count ≡ length tables.now.home) }
    ensures forward { OnOk result (AreForward tables.now forward.new) }
    ensures size { OnOk result (length scopes.new.items ≡ length tables.now.home) }
{
    if flag_of(flags, point) {
        let peers = row_of(by_set, (tables.line(point) % sets) as usize);
        let scope = scope_of(alloc, tables, peers, marks, forward, point, sets, ways)?;
        scopes[point as usize] = scope;
        Ok(())
    } else {
        Ok(())
    }
}

/// Sets the scopes of the points of an order whose flags are set.
fn set_scopes(
    alloc: Global,
    tables: &PointTables,
    flags: &[bool],
    by_set: &[Items<u32>],
    order: &[u32],
    scopes: &mut Vec<Option<u32>>,
    sets: u32,
    ways: usize,
) -> Result<(), AllocError>
    requires count { length tables.now.home < 2 ^ 32 }
    requires all { HasSets sets tables.now by_set.now }
    requires flags { length flags.now ≡ length tables.now.home }
    requires size { length scopes.old.items ≡ length tables.now.home }
    requires some_set { 0 < sets }
    requires some_way { 0 < ways }
    ensures { ArePointMaps tables.now → OnOk result ((due : List ℕ)
        → ((q : ℕ) → holds nat_eq q due ≡ true → flag_in flags.now q ≡ true)
        → AreSoFar sets ways tables.now due order.now scopes.old.items
        → AreSoFar sets ways tables.now due [] scopes.new.items) }
{
    let mut marks = Marks::new(alloc, tables.len())?;
    let mut forward = LineMarks::new(alloc, tables)?;
    for point in order {
        set_scope(
            alloc,
            tables,
            flags,
            by_set,
            &mut marks,
            &mut forward,
            scopes,
            *point,
            sets,
            ways,
        )?;
    }
    Ok(())
}

/// No scopes.
fn no_scopes(alloc: Global, count: usize) -> Result<Vec<Option<u32>>, AllocError>
    ensures size { IfOk result (λ v. length v.items ≡ count) }
    ensures none { IfOk result (λ v. (p : ℕ) → scope_in v.items p ≡ None) }
{
    let mut scopes = Vec::new(alloc);
    for _made in 0..count {
        scopes.push(None)?;
    }
    Ok(scopes)
}

/// The scopes of the uses of all blocks.
pub(crate) fn scopes_of(
    alloc: Global,
    tables: &PointTables,
    blocks: &[Items<u32>],
    sets: u32,
    ways: usize,
) -> Result<Vec<Option<u32>>, AllocError>
    requires count { length tables.now.home < 2 ^ 32 }
    requires some_set { 0 < sets }
    requires some_way { 0 < ways }
    ensures { ArePointMaps tables.now
        → ((b p : ℕ) → holds nat_eq p (row_in blocks.now b) ≡ true → p < length tables.now.home)
        → IfOk result (λ v. AreScopesOf sets ways tables.now blocks.now v.items) }
{
    let flags = flag_uses(alloc, tables, blocks)?;
    let lines = tables.lines();
    let order = points_by_line(alloc, lines, tables.len() as u32)?;
    let by_set = points_by_set(alloc, lines, order.as_slice(), sets)?;
    let mut scopes = no_scopes(alloc, tables.len())?;
    set_scopes(
        alloc,
        tables,
        flags.as_slice(),
        by_set.as_slice(),
        order.as_slice(),
        &mut scopes,
        sets,
        ways,
    )?;
    Ok(scopes)
}
