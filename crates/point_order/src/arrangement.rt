//! The points of a function, put in order.

ghost use Rattle.std.specs.Prelude.{◌≡◌, ℕ, ◌<◌, ◌^◌, length, List, IfOk, IsErrOf};
ghost use Rattle.elf32_image.specs.Parts.{ImageValue};
ghost use Rattle.control_flow.specs.Ways.{IsCollected};
ghost use Rattle.graph_search.specs.NodeLists.{MoreThan};
ghost use Rattle.function_points.specs.PointLists.{point_eq, points_at};
ghost use Rattle.basic_blocks.specs.Blocks.{Ascending};
ghost use Rattle.basic_blocks.specs.PointOrder.{Before};
ghost use Rattle.point_order.specs.Arrangements.{IsArranged};
ghost use Rattle.point_order.specs.Families.{AreFamilies, HaveFamilies, IsOrder};
ghost use Rattle.point_order.specs.Ranks.{AreRanked};

use crate::families::families;
use crate::preorder::preorder;
use crate::ranks::{Ranked, rank, rename};
use elf32_image::Image;
use function_points::{Contexts, collect_points};
use graph_search::SearchRefusal;
use sqlite_items::Items;
use std::alloc::Global;

/// The greatest number of lists of open calls that can be put in order.
const MOST_LISTS: usize = 1 << 31;

/// Each list's children by their numbers.
fn children_of(alloc: Global, contexts: &Contexts) -> Result<Vec<Items<u32>>, SearchRefusal>
    requires { length contexts.now < 2 ^ 32 }
    ensures ok { IfOk result (λ v. AreFamilies contexts.now v.items) }
    ensures memory { IsErrOf result SearchRefusal.TooLarge → ⊥ }
{
    families(alloc, contexts).map_err(|_| SearchRefusal::Memory)
}

/// The lists' numbers in order.
fn order_of(alloc: Global, children: &[Items<u32>]) -> Result<Items<u32>, SearchRefusal>
    requires { HaveFamilies children.now }
    ensures ok { IfOk result (λ order. (ls : List (List ℕ)) → AreFamilies ls children.now → IsOrder ls order) }
    ensures memory { IsErrOf result SearchRefusal.TooLarge → ⊥ }
{
    preorder(alloc, children).map_err(|_| SearchRefusal::Memory)
}

/// The lists of open calls in order.
fn ranked(alloc: Global, contexts: &Contexts) -> Result<Ranked, SearchRefusal>
    ensures ok { IfOk result (λ r. AreRanked contexts.now r.contexts r.ranks) }
    ensures memory { IsErrOf result SearchRefusal.TooLarge → ⊥ }
{
    if contexts.len() > MOST_LISTS {
        return Err(SearchRefusal::Memory);
    }
    let children = children_of(alloc, contexts)?;
    let order = order_of(alloc, children.as_slice())?;
    if order.len() > MOST_LISTS {
        return Err(SearchRefusal::Memory);
    }
    rank(alloc, contexts, order.as_slice()).map_err(|_| SearchRefusal::Memory)
}

/// The points of a function in order, with their lists of open calls in order: each point is the number of its list,
/// and its address.
#[derive(Drop)]
pub struct Arrangement {
    pub contexts: Contexts,
    pub points: Items<(u32, u32)>,
}

/// The points that control reaches from the entry of a function, in order: by the return addresses of their open calls,
/// the oldest first, a list before those that it begins, and then by the address.
///
/// # Errors
///
/// `TooLarge` exactly where they are more than `most`.
pub fn arrange(
    alloc: Global,
    image: &Image,
    entry: u32,
    most: usize,
) -> Result<Arrangement, SearchRefusal>
    requires { 0 < most }
    ensures ok { IfOk result (λ a. IsArranged image.now entry a.contexts a.points) }
    ensures few { IfOk result (λ a. MoreThan point_eq most (IsCollected image.now entry) → ⊥) }
    ensures many { IsErrOf result SearchRefusal.TooLarge → MoreThan point_eq most (IsCollected image.now entry) }
{
    let collected = collect_points(alloc, image, entry, most)?;
    let Ranked { contexts, ranks } = ranked(alloc, &collected.contexts)?;
    let points = rename(alloc, &collected.found, ranks.as_slice()).map_err(
        |_| SearchRefusal::Memory,
    )?;
    Ok(Arrangement { contexts, points })
}

/// The points of an arrangement ascend, so none stands there twice.
pub fn arranged_points_ascend()
    ensures { (image : ImageValue) (entry : ℕ) (ls : List (List ℕ)) (ns : List (ℕ × ℕ)) → IsArranged image entry ls ns
        → Ascending Before (points_at ls ns) }
{}
