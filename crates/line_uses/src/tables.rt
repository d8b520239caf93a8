//! Tables of a function's points.

ghost use Rattle.std.specs.Prelude.{◌≡◌, ℕ, Bool, length, nat_eq};
ghost use Rattle.graph_search.specs.NodeLists.{holds};
ghost use Rattle.graph_search.specs.Rows.{row_in};
ghost use Rattle.persistence.specs.PointRows.{line_at};
ghost use Rattle.line_uses.specs.PointMaps.{PointMaps, block_of, depth_of, inside, loop_at};
ghost use Rattle.line_uses.specs.SearchSteps.{other};

use persistence::line_of;
use sqlite_items::Items;
use std::marker::Model;

/// By point the points that follow it, those that it follows, its line and its block; by block the loops round it, the
/// outermost first. Points, blocks and loops are numbers: points and blocks from 0 on, loops from 1 on.
#[derive(Drop)]
pub struct PointTables<'a> {
    next: &'a [Items<u32>],
    before: &'a [Items<u32>],
    lines: &'a [u32],
    home: &'a [u32],
    around: &'a [Items<u32>],
}

impl<'a> Model for PointTables<'a> {
    ghost use Rattle.line_uses.specs.PointMaps.{PointMaps};

    ghost Value = { PointMaps };

    ghost view = { λ t. record {
      next = t.next.now;
      before = t.before.now;
      lines = t.lines.now;
      home = t.home.now;
      around = t.around.now;
    } };
}

/// Whether a number stands in a row.
fn has(numbers: &[u32], number: u32) -> bool
    ensures { result ≡ holds nat_eq number numbers.now }
{
    for other in numbers {
        if number == *other {
            return true;
        }
    }
    false
}

/// A row of a table, or an empty one.
pub(crate) fn row_of(rows: &[Items<u32>], place: usize) -> &[u32]
    ensures { result.now ≡ row_in rows.now place }
{
    match rows.get(place) {
        Some(found) => found.as_slice(),
        None => &[],
    }
}

impl<'a> PointTables<'a> {
    /// The tables of these rows. A point past a table's end has an empty row, line 0 and no block.
    pub fn new(
        next: &'a [Items<u32>],
        before: &'a [Items<u32>],
        lines: &'a [u32],
        home: &'a [u32],
        around: &'a [Items<u32>],
    ) -> PointTables<'a>
        ensures { result ≡ record {
          next = next.now;
          before = before.now;
          lines = lines.now;
          home = home.now;
          around = around.now;
        } }
    {
        PointTables {
            next,
            before,
            lines,
            home,
            around,
        }
    }

    /// The number of points.
    pub fn len(&self) -> usize
        ensures { result ≡ length self.now.home }
    {
        self.home.len()
    }

    /// The lines by point.
    pub(crate) fn lines(&self) -> &[u32]
        ensures { result.now ≡ self.now.lines }
    {
        self.lines
    }

    /// The points that follow a point.
    pub fn next(&self, point: u32) -> &[u32]
        ensures { result.now ≡ row_in self.now.next point }
    {
        row_of(self.next, point as usize)
    }

    /// The points that a point follows.
    pub fn before(&self, point: u32) -> &[u32]
        ensures { result.now ≡ row_in self.now.before point }
    {
        row_of(self.before, point as usize)
    }

    /// The line of a point.
    pub fn line(&self, point: u32) -> u32
        ensures { result ≡ line_at self.now.lines point }
    {
        line_of(self.lines, point)
    }

    /// The block of a point; the number of blocks where there is no such point.
    pub fn home(&self, point: u32) -> usize
        ensures { result ≡ block_of self.now point }
    {
        match self.home.get(point as usize) {
            Some(block) => *block as usize,
            None => self.around.len(),
        }
    }

    /// The loops round a point's block, the outermost first.
    pub fn loops(&self, point: u32) -> &[u32]
        ensures { result.now ≡ row_in self.now.around (block_of self.now point) }
    {
        row_of(self.around, self.home(point))
    }

    /// Whether a point is in a loop, 0 being the whole function.
    pub fn is_inside(&self, number: u32, point: u32) -> bool
        ensures { result ≡ inside self.now number point }
    {
        if number == 0 {
            self.home(point) < self.around.len()
        } else {
            has(self.loops(point), number)
        }
    }

    /// Whether a point in a loop is of another line.
    pub fn is_other(&self, number: u32, line: u32, point: u32) -> bool
        ensures { result ≡ other self.now number line point }
    {
        self.line(point) != line && self.is_inside(number, point)
    }

    /// The loop of a depth round a point's block, 0 for depth 0 and past the innermost.
    pub fn loop_at(&self, point: u32, depth: usize) -> u32
        ensures { result ≡ loop_at self.now (block_of self.now point) depth }
    {
        if depth == 0 {
            0
        } else {
            match self.loops(point).get(depth - 1) {
                Some(number) => *number,
                None => 0,
            }
        }
    }
}
