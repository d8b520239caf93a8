//! The tables of a function's points.

ghost use Rattle.std.specs.Prelude.{◌≡◌, ℕ, ◌<◌, ◌≤◌, ◌^◌, ◌+◌, ◌-◌, length, List, Contains, IfOk, IsErrOf};
ghost use Rattle.basic_blocks.specs.LivePoints.{before};
ghost use Rattle.control_flow.specs.Points.{entry_point};
ghost use Rattle.control_flow.specs.Ways.{ways_from};
ghost use Rattle.function_points.specs.PointLists.{points_at};
ghost use Rattle.point_order.specs.Arrangements.{IsArranged};
ghost use Rattle.point_tables.specs.Numbers.{AreSources};
ghost use Rattle.point_tables.specs.Tables.{AreTables};
ghost use Rattle.point_tables.specs.Targets.{AllHaveTargets, step_in};

use crate::liveness::{live_flags, source_rows};
use crate::targets::{Targets, all_targets};
use elf32_image::Image;
use function_points::Contexts;
use graph_search::SearchRefusal;
use sqlite_items::Items;
use std::alloc::Global;

/// Where the ways of all points lead.
pub fn targets_in(
    alloc: Global,
    image: &Image,
    contexts: &Contexts,
    points: &[(u32, u32)],
    entry: u32,
) -> Result<Items<Targets>, SearchRefusal>
    requires few { length points.now < 2 ^ 32 }
    requires arranged { IsArranged image.now entry contexts.now points.now }
    ensures ok { IfOk result (AllHaveTargets (ways_from image.now entry) (points_at contexts.now points.now)
        (points_at contexts.now points.now)) }
    ensures memory { IsErrOf result SearchRefusal.TooLarge → ⊥ }
{
    all_targets(alloc, image, contexts, points, entry).map_err(|_| SearchRefusal::Memory)
}

/// The numbers that lead to each number.
pub fn rows_of(alloc: Global, table: &[Targets]) -> Result<Vec<Items<u32>>, SearchRefusal>
    requires few { length table.now < 2 ^ 32 - 1 }
    requires inside { (i j : ℕ) → Contains (step_in table.now i) j → j ≤ length table.now }
    ensures long { IfOk result (λ v. length v.items ≡ length table.now + 1) }
    ensures before { IfOk result (λ v. AreSources (step_in table.now) (before v.items)) }
    ensures memory { IsErrOf result SearchRefusal.TooLarge → ⊥ }
{
    match source_rows(alloc, table) {
        Ok(rows) => Ok(rows),
        Err(_) => Err(SearchRefusal::Memory),
    }
}

/// Where control goes from each point, from where it comes, and from which points it gets out.
#[derive(Drop)]
pub struct WayTables {
    pub targets: Items<Targets>,
    pub sources: Items<Items<u32>>,
    pub live: Items<bool>,
}

/// The tables of points in order.
pub fn tabulate(
    alloc: Global,
    image: &Image,
    contexts: &Contexts,
    points: &[(u32, u32)],
    entry: u32,
) -> Result<WayTables, SearchRefusal>
    requires few { length points.now < 2 ^ 31 }
    requires arranged { IsArranged image.now entry contexts.now points.now }
    ensures ok { IfOk result (λ t. AreTables (ways_from image.now entry) (entry_point entry)
        (points_at contexts.now points.now) t.targets t.sources t.live) }
    ensures memory { IsErrOf result SearchRefusal.TooLarge → ⊥ }
{
    let targets = targets_in(alloc, image, contexts, points, entry)?;
    let rows = rows_of(alloc, targets.as_slice())?;
    let flags = live_flags(alloc, rows.as_slice(), targets.len() as u32)?;
    Ok(WayTables {
        targets,
        sources: Items::from_vec(rows),
        live: Items::from_vec(flags),
    })
}
