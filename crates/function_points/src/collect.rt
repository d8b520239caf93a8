//! All points that control reaches from a function's entry.

ghost use Rattle.std.specs.Prelude.{◌≡◌, ◌↔◌, ℕ, ◌<◌, ◌≤◌, length, true, IfOk, IsErrOf};
ghost use Rattle.control_flow.specs.Points.{Point};
ghost use Rattle.control_flow.specs.Ways.{IsCollected};
ghost use Rattle.graph_search.specs.NodeLists.{holds, MoreThan};
ghost use Rattle.function_points.specs.PointLists.{point_eq, points_at, AreHeld, AreUsed};

use crate::contexts::Contexts;
use crate::expand::expand;
use crate::found_points::{FoundPoints, visit};
use elf32_image::Image;
use graph_search::SearchRefusal;
use std::alloc::Global;

/// The points of a function, in the order in which they were found, with the lists of open calls that they have.
#[derive(Drop)]
pub struct FunctionPoints {
    pub contexts: Contexts,
    pub found: FoundPoints,
}

/// The points that control reaches from the entry of a function, each once; `most` is a number of points from 1 on.
///
/// # Errors
///
/// `TooLarge` exactly where they are more than `most`.
pub fn collect_points(
    alloc: Global,
    image: &Image,
    entry: u32,
    most: usize,
) -> Result<FunctionPoints, SearchRefusal>
    requires { 0 < most }
    ensures exact { IfOk result (λ f. (p : Point) → (holds point_eq p (points_at f.contexts f.found) ≡ true)
        ↔ IsCollected image.now entry p) }
    ensures held { IfOk result (λ f. AreHeld f.contexts f.found) }
    ensures used { IfOk result (λ f. AreUsed f.contexts (points_at f.contexts f.found)) }
    ensures within { IfOk result (λ f. length f.found ≤ most) }
    ensures few { IfOk result (λ f. MoreThan point_eq most (IsCollected image.now entry) → ⊥) }
    ensures many { IsErrOf result SearchRefusal.TooLarge → MoreThan point_eq most (IsCollected image.now entry) }
{
    let mut contexts = Contexts::new(alloc);
    let mut found = FoundPoints::new(alloc);
    visit(&contexts, &mut found, 0, entry, most)?;
    let mut at = 0;
    while at < found.len() {
        expand(image, entry, &mut contexts, &mut found, at, most)?;
        at += 1;
    }
    Ok(FunctionPoints { contexts, found })
}
