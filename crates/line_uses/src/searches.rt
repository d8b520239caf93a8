//! Whether a point has few younger lines in a loop.

ghost use Rattle.std.specs.Prelude.{◌≡◌, [], ◌∷◌, ◌^◌, ◌<◌, ◌≤◌, ◌+◌, ◌%◌, ℕ, Bool, true, false, List, length, nat_eq};
ghost use Rattle.std.specs.Prelude.{Some};
ghost use Rattle.std.specs.Prelude.{IfOk, OnOk};
ghost use Rattle.std.specs.List.{filter};
ghost use Rattle.graph_search.specs.NodeLists.{added_all, holds};
ghost use Rattle.graph_search.specs.Rows.{row_in};
ghost use Rattle.persistence.specs.PointRows.{line_at};
ghost use Rattle.persistence.specs.Searches.{TestsFollowing};
ghost use Rattle.persistence.specs.Younger.{AtLeast, IsYounger};
ghost use Rattle.line_uses.specs.PointMaps.{ArePointMaps, HasLine, HasSet, PointMaps, code_of, inside};
ghost use Rattle.line_uses.specs.SearchSteps.{AreForward, after_line, backward_step, forward_step, noted, other, picks};

use crate::tables::PointTables;
use graph_search::{MarkLinks, Marks, NodeList, mark_reached};
use persistence::meets_fewer_lines;
use std::alloc::{AllocError, Global};

/// Notes the line of a point of another line in a loop.
fn note_line(
    found: &mut NodeList,
    tables: &PointTables,
    number: u32,
    line: u32,
    point: u32,
) -> Result<(), AllocError>
    ensures { OnOk result (found.new ≡ noted tables.now number line found.old point) }
{
    if tables.is_other(number, line, point) {
        found.add(tables.line(point))
    } else {
        Ok(())
    }
}

/// Whether a loop has fewer other lines than ways among the points of a line's cache set; false is no answer.
fn has_few_lines(
    alloc: Global,
    tables: &PointTables,
    peers: &[u32],
    number: u32,
    line: u32,
    ways: usize,
) -> Result<bool, AllocError>
    requires { 0 < ways }
    ensures { (sets : ℕ) (p : ℕ) → line_at tables.now.lines p ≡ line → HasSet sets tables.now line peers.now
        → IfOk result (λ b. b ≡ true
        → AtLeast ways (IsYounger (code_of tables.now) sets (inside tables.now number) p) → ⊥) }
{
    let mut found = NodeList::new(alloc);
    for point in peers {
        note_line(&mut found, tables, number, line, *point)?;
        if found.len() >= ways {
            return Ok(false);
        }
    }
    Ok(true)
}

/// Marks the points of a row that are of another line.
fn mark_others(
    marks: &mut Marks,
    points: &[u32],
    tables: &PointTables,
    line: u32,
) -> Result<(), AllocError>
    requires { length tables.now.home ≤ marks.old.count }
    ensures ok { OnOk result (marks.new.nodes ≡ added_all nat_eq marks.old.nodes
        (filter (other tables.now 0 line) points.now)) }
    ensures same { marks.new.count ≡ marks.old.count }
{
    for point in points {
        if tables.is_other(0, line, *point) {
            marks.add(*point)?;
        }
    }
    Ok(())
}

/// Marks what follows a point, where it is of a line.
fn mark_after(
    marks: &mut Marks,
    tables: &PointTables,
    line: u32,
    point: u32,
) -> Result<(), AllocError>
    requires { length tables.now.home ≤ marks.old.count }
    ensures ok { OnOk result (marks.new.nodes ≡ added_all nat_eq marks.old.nodes
        (after_line tables.now line (point ∷ []))) }
    ensures same { marks.new.count ≡ marks.old.count }
{
    if tables.line(point) == line && tables.is_inside(0, point) {
        mark_others(marks, tables.next(point), tables, line)
    } else {
        Ok(())
    }
}

/// Marks what follows the points of a line, among some points.
fn mark_first(
    marks: &mut Marks,
    peers: &[u32],
    tables: &PointTables,
    line: u32,
) -> Result<(), AllocError>
    requires { length tables.now.home ≤ marks.old.count }
    ensures ok { OnOk result (marks.new.nodes ≡ added_all nat_eq marks.old.nodes
        (after_line tables.now line peers.now)) }
    ensures same { marks.new.count ≡ marks.old.count }
{
    for point in peers {
        mark_after(marks, tables, line, *point)?;
    }
    Ok(())
}

/// Steps forward to points of other lines; from the number past the last point, to those that follow the line.
#[derive(Drop)]
pub(crate) struct Forward<'a> {
    tables: &'a PointTables<'a>,
    peers: &'a [u32],
    line: u32,
}

impl<'a> MarkLinks for Forward<'a> {
    ghost step = { λ a r. forward_step a.tables.now a.peers.now a.line r };

    ghost count = { λ a. length a.tables.now.home + 1 };

    fn spread(&self, point: u32, marks: &mut Marks) -> Result<(), AllocError> {
        if point as usize == self.tables.len() {
            mark_first(marks, self.peers, self.tables, self.line)
        } else {
            mark_others(marks, self.tables.next(point), self.tables, self.line)
        }
    }
}

/// Marks of a search forward, and the line from which it went. Uses of one line that are asked for one after another
/// share them.
#[derive(Drop)]
pub struct LineMarks {
    pub(crate) marks: Marks,
    pub(crate) line: Option<u32>,
}

impl LineMarks {
    /// No marks, on the points of some tables and the number past the last.
    pub fn new(alloc: Global, tables: &PointTables) -> Result<LineMarks, AllocError>
        requires { length tables.now.home < 2 ^ 32 }
        ensures { IfOk result (AreForward tables.now) }
    {
        Ok(LineMarks {
            marks: Marks::new(alloc, tables.len() + 1)?,
            line: None,
        })
    }

    /// Whether the marks are those of a line.
    fn are_of(&self, line: u32) -> bool
        ensures { result ≡ true → self.now.line ≡ Some line }
    {
        match self.line {
            Some(other) => other == line,
            None => false,
        }
    }
}

/// Marks what follows a line in the whole function, unless the marks are this line's already.
fn mark_line(
    alloc: Global,
    tables: &PointTables,
    peers: &[u32],
    forward: &mut LineMarks,
    line: u32,
) -> Result<(), AllocError>
    requires count { length tables.now.home < 2 ^ 32 }
    requires all { HasLine tables.now line peers.now }
    requires forward { AreForward tables.now forward.old }
    ensures forward { OnOk result (AreForward tables.now forward.new) }
    ensures line { OnOk result (forward.new.line ≡ Some line) }
{
    if forward.are_of(line) {
        return Ok(());
    }
    let start = tables.len() as u32;
    let links = Forward {
        tables,
        peers,
        line,
    };
    mark_reached(alloc, &links, &mut forward.marks, start)?;
    forward.line = Some(line);
    Ok(())
}

/// Marks what follows a line in the whole function; in a loop that is each point of another line.
fn mark_following(
    alloc: Global,
    tables: &PointTables,
    peers: &[u32],
    forward: &mut LineMarks,
    number: u32,
    line: u32,
) -> Result<(), AllocError>
    requires count { length tables.now.home < 2 ^ 32 }
    requires all { HasLine tables.now line peers.now }
    requires forward { AreForward tables.now forward.old }
    ensures forward { OnOk result (AreForward tables.now forward.new) }
    ensures exact { ArePointMaps tables.now → (p : ℕ) → inside tables.now number p ≡ true
        → line_at tables.now.lines p ≡ line
        → OnOk result (TestsFollowing (code_of tables.now) (inside tables.now number) line
        (picks tables.now number line forward.new.marks.nodes)) }
{
    if number == 0 {
        mark_line(alloc, tables, peers, forward, line)?;
        Ok(())
    } else {
        Ok(())
    }
}

/// Whether a search back goes to a point.
fn is_picked(tables: &PointTables, number: u32, line: u32, forward: &Marks, point: u32) -> bool
    ensures { result ≡ picks tables.now number line forward.now.nodes point }
{
    tables.is_other(number, line, point)
        && (if number == 0 {
            forward.has(point)
        } else {
            true
        })
}

/// Marks the points of a row that a search back goes to.
fn mark_back(
    marks: &mut Marks,
    points: &[u32],
    tables: &PointTables,
    number: u32,
    line: u32,
    forward: &Marks,
) -> Result<(), AllocError>
    requires { length tables.now.home ≤ marks.old.count }
    ensures ok { OnOk result (marks.new.nodes ≡ added_all nat_eq marks.old.nodes
        (filter (picks tables.now number line forward.now.nodes) points.now)) }
    ensures same { marks.new.count ≡ marks.old.count }
{
    for point in points {
        if is_picked(tables, number, line, forward, *point) {
            marks.add(*point)?;
        }
    }
    Ok(())
}

/// Steps back in a loop, to points that follow the line.
#[derive(Drop)]
pub(crate) struct Backward<'a> {
    tables: &'a PointTables<'a>,
    forward: &'a Marks,
    number: u32,
    line: u32,
}

impl<'a> MarkLinks for Backward<'a> {
    ghost step = { λ b r. backward_step b.tables.now b.number b.line b.forward.now.nodes r };

    ghost count = { λ b. length b.tables.now.home };

    fn spread(&self, point: u32, marks: &mut Marks) -> Result<(), AllocError> {
        mark_back(
            marks,
            self.tables.before(point),
            self.tables,
            self.number,
            self.line,
            self.forward,
        )
    }
}

/// Whether a point has fewer younger lines in a loop than ways.
#[tactic(auto, using(crate::proofs::FewLemmas::backward_below))]
pub(crate) fn is_few(
    alloc: Global,
    tables: &PointTables,
    peers: &[u32],
    marks: &mut Marks,
    forward: &mut LineMarks,
    number: u32,
    point: u32,
    sets: u32,
    ways: usize,
) -> Result<bool, AllocError>
    requires count { length tables.now.home < 2 ^ 32 }
    requires all { HasSet sets tables.now (line_at tables.now.lines point) peers.now }
    requires back { marks.old.count ≡ length tables.now.home }
    requires forward { AreForward tables.now forward.old }
    requires inside { point < length tables.now.home }
    requires some_set { 0 < sets }
    requires some_way { 0 < ways }
    ensures fewer { ArePointMaps tables.now → inside tables.now number point ≡ true
        → IfOk result (λ b. b ≡ true → AtLeast ways
        (IsYounger (code_of tables.now) sets (inside tables.now number) point) → ⊥) }
    ensures many { ArePointMaps tables.now → inside tables.now number point ≡ true
        → IfOk result (λ b. b ≡ false → AtLeast ways
        (IsYounger (code_of tables.now) sets (inside tables.now number) point)) }
    ensures back { OnOk result (marks.new.count ≡ length tables.now.home) }
    ensures forward { OnOk result (AreForward tables.now forward.new) }
{
    let line = tables.line(point);
    let fits = has_few_lines(alloc, tables, peers, number, line, ways)?;
    if fits {
        return Ok(true);
    }
    mark_following(alloc, tables, peers, forward, number, line)?;
    let back = Backward {
        tables,
        forward: &forward.marks,
        number,
        line,
    };
    let few = meets_fewer_lines(alloc, &back, tables.lines(), marks, point, line, sets, ways)?;
    Ok(few)
}
