//! Puts the ways through a node beside those that are there.
ghost use Rattle.std.specs.Prelude.{◌≡◌, ℕ, suc, Bool, false, OnOk};
ghost use Rattle.elimination_plans.specs.AddedWays.{listed, one_added, row_added, all_added, Once};

use sqlite_items::Items;
use std::alloc::{AllocError, Global};
use std::collections::BTreeMap;

/// Adds a way at the end of an edge's ways.
pub fn add_way(
    alloc: Global,
    ways: &mut BTreeMap<(u32, u32), Items<u32>>,
    from: u32,
    to: u32,
    entry: u32,
) -> Result<(), AllocError>
    ensures { OnOk result ((x y : ℕ) → listed ways.new x y ≡ one_added from to entry (listed ways.old) x y) }
{
    let mut list = match ways.remove(&(from, to)) {
        Some(list) => list,
        None => Items::new(alloc),
    };
    list.push(entry)?;
    ways.insert((from, to), list)?;
    Ok(())
}

/// Adds a way to each edge from one node to some others.
pub fn add_row(
    alloc: Global,
    ways: &mut BTreeMap<(u32, u32), Items<u32>>,
    from: u32,
    targets: &[u32],
    entry: u32,
) -> Result<(), AllocError>
    ensures { OnOk result (Once targets.now → (x y : ℕ) → listed ways.new x y ≡ row_added from targets.now entry
        (listed ways.old) x y) }
{
    for to in targets {
        add_way(alloc, ways, from, *to, entry)?;
    }
    Ok(())
}

/// Adds a way to each edge from some nodes to others.
pub fn add_all(
    alloc: Global,
    ways: &mut BTreeMap<(u32, u32), Items<u32>>,
    sources: &[u32],
    targets: &[u32],
    entry: u32,
) -> Result<(), AllocError>
    ensures { OnOk result (Once sources.now → Once targets.now → (x y : ℕ)
        → listed ways.new x y ≡ all_added sources.now targets.now entry (listed ways.old) x y) }
{
    for from in sources {
        add_row(alloc, ways, *from, targets, entry)?;
    }
    Ok(())
}
