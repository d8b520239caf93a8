//! A search over points that counts the lines of a cache set that it meets.

ghost use Rattle.std.specs.Prelude.{◌≡◌, ◌<◌, ℕ, Bool, true, false, List, length, nat_eq, IfOk, OnOk};
ghost use Rattle.graph_search.specs.NodeLists.{added_all, holds};
ghost use Rattle.persistence.specs.Collected.{IsMet, collected};
ghost use Rattle.persistence.specs.PointRows.{line_at};
ghost use Rattle.persistence.specs.Younger.{AtLeast};

use graph_search::{MarkLinks, Marks, NodeList};
use std::alloc::{AllocError, Global};

/// The line of a point; 0 past the table's end.
pub fn line_of(lines: &[u32], point: u32) -> u32
    ensures { result ≡ line_at lines.now point }
{
    match lines.get(point as usize) {
        Some(line) => *line,
        None => 0,
    }
}

/// Adds a line that a search met, where it is another of the same cache set.
fn collect(found: &mut NodeList, met: u32, line: u32, sets: u32) -> Result<(), AllocError>
    requires { 0 < sets }
    ensures { OnOk result (found.new ≡ collected line sets found.old met) }
{
    if met == line {
        Ok(())
    } else if met % sets == line % sets {
        found.add(met)
    } else {
        Ok(())
    }
}

/// Whether a search from a point meets fewer other lines of a line's cache set than a number of ways. It ends as soon as
/// it has met that many. Earlier marks are forgotten.
///
/// # Errors
///
/// Want of memory alone.
pub fn meets_fewer_lines<L: MarkLinks>(
    alloc: Global,
    links: &L,
    lines: &[u32],
    marks: &mut Marks,
    start: u32,
    line: u32,
    sets: u32,
    ways: usize,
) -> Result<bool, AllocError>
    requires size { marks.old.count ≡ L.count links.now }
    requires inside { start < L.count links.now }
    requires below { (x q : ℕ) → holds nat_eq q (L.step links.now x) ≡ true → q < L.count links.now }
    requires some_set { 0 < sets }
    requires some_way { 0 < ways }
    ensures fewer { IfOk result (λ b. b ≡ true → AtLeast ways
        (IsMet (L.step links.now) (line_at lines.now) start line sets) → ⊥) }
    ensures many { IfOk result (λ b. b ≡ false → AtLeast ways
        (IsMet (L.step links.now) (line_at lines.now) start line sets)) }
    ensures size { OnOk result (marks.new.count ≡ L.count links.now) }
{
    marks.forget(alloc)?;
    marks.add(start)?;
    let mut found = NodeList::new(alloc);
    let mut at = 0;
    while at < marks.len() {
        let point = marks.get(at);
        links.spread(point, marks)?;
        collect(&mut found, line_of(lines, point), line, sets)?;
        if found.len() >= ways {
            return Ok(false);
        }
        at += 1;
    }
    Ok(true)
}
