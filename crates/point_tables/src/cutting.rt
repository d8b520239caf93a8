//! The points of a function cut into chains of numbers.

ghost use Rattle.std.specs.Prelude.{ℕ, ◌<◌, ◌^◌, length, IfOk};
ghost use Rattle.basic_blocks.specs.Chains.{is_flagged};
ghost use Rattle.basic_blocks.specs.LivePoints.{before};
ghost use Rattle.point_tables.specs.Tables.{AreLinkChains};
ghost use Rattle.point_tables.specs.Targets.{step_in};

use crate::links::{all_backward, all_forward};
use crate::targets::Targets;
use basic_blocks::split;
use sqlite_items::Items;
use std::alloc::{AllocError, Global};

/// The flagged numbers cut into chains, each of which begins where no single number comes before, and at the entry.
pub fn cut(
    alloc: Global,
    table: &[Targets],
    rows: &[Items<u32>],
    flags: &[bool],
    entry: u32,
) -> Result<Items<Items<u32>>, AllocError>
    requires { length table.now < 2 ^ 32 }
    ensures { IfOk result (AreLinkChains (step_in table.now) (before rows.now) (is_flagged flags.now) (length table.now)
        entry) }
{
    let only = all_forward(alloc, table, rows, flags, entry)?;
    let back = all_backward(alloc, table, rows, flags, entry)?;
    split(alloc, only.as_slice(), back.as_slice(), flags)
}
