//! Where control goes from each point, by numbers of points.

ghost use Rattle.std.specs.Prelude.{◌≡◌, ℕ, ◌<◌, ◌≤◌, ◌^◌, ◌∷◌, ◌++◌, [], true, Some, length, get_or, List, Contains};
ghost use Rattle.std.specs.Prelude.{IfOk};
ghost use Rattle.basic_blocks.specs.Blocks.{Ascending};
ghost use Rattle.control_flow.specs.Controls.{skipped_way};
ghost use Rattle.control_flow.specs.Points.{last_return};
ghost use Rattle.control_flow.specs.Routes.Place.{At};
ghost use Rattle.control_flow.specs.Ways.{return_place, ways_from};
ghost use Rattle.function_points.specs.PointLists.{point_at, points_at};
ghost use Rattle.point_order.specs.Ranks.{PairBefore};
ghost use Rattle.point_tables.specs.Numbers.{Answers};
ghost use Rattle.point_tables.specs.Targets.{AreSorted, IsNumber, IsSkippedNumber, LeadInto, HasTargets};
ghost use Rattle.point_tables.specs.Targets.{AllHaveTargets, way};

use control_flow::{Control, control_at};
use elf32_image::Image;
use function_points::{Contexts, is_recursive};
use sqlite_items::Items;
use std::alloc::{AllocError, Global};

/// Where control goes from a point, by numbers of points; the number after the last point's is the way out.
#[derive(Clone, Copy)]
pub struct Targets {
    /// Where the instruction is done.
    pub done: Option<u32>,
    /// Where it is skipped; none where it can't be.
    pub skipped: Option<u32>,
}

/// The number of a point by the number of its list of open calls and its address; none where it isn't there.
pub fn number_of(points: &[(u32, u32)], context: u32, address: u32) -> Option<u32>
    requires few { length points.now < 2 ^ 32 }
    requires sorted { Ascending PairBefore points.now }
    ensures { Answers (IsNumber points.now context address) result }
{
    match points.binary_search(&(context, address)) {
        Ok(at) => Some(at as u32),
        Err(_) => None,
    }
}

/// The number of the point after a skipped instruction.
pub fn skipped_number(points: &[(u32, u32)], context: u32, skipped: Option<u32>) -> Option<u32>
    requires few { length points.now < 2 ^ 32 }
    requires sorted { Ascending PairBefore points.now }
    ensures { IsSkippedNumber points.now context skipped result }
{
    match skipped {
        Some(address) => number_of(points, context, address),
        None => None,
    }
}

/// Where an instruction leads that calls nothing.
pub fn go_targets(
    contexts: &Contexts,
    points: &[(u32, u32)],
    context: u32,
    target: u32,
    skipped: Option<u32>,
) -> Targets
    requires few { length points.now < 2 ^ 32 }
    requires sorted { AreSorted contexts.now points.now }
    requires known { context < length contexts.now }
    requires closed { LeadInto (points_at contexts.now points.now)
        (way true (At (record { returns = get_or contexts.now context []; address = target }))
        ∷ skipped_way (get_or contexts.now context []) skipped) }
    ensures { HasTargets (points_at contexts.now points.now)
        (way true (At (record { returns = get_or contexts.now context []; address = target }))
        ∷ skipped_way (get_or contexts.now context []) skipped) result }
{
    Targets {
        done: number_of(points, context, target),
        skipped: skipped_number(points, context, skipped),
    }
}

/// Where a call leads.
pub fn call_targets(
    contexts: &Contexts,
    points: &[(u32, u32)],
    context: u32,
    target: u32,
    after: u32,
    skipped: Option<u32>,
) -> Targets
    requires few { length points.now < 2 ^ 32 }
    requires sorted { AreSorted contexts.now points.now }
    requires known { context < length contexts.now }
    requires closed { LeadInto (points_at contexts.now points.now)
        (way true (At (record { returns = get_or contexts.now context [] ++ after ∷ []; address = target }))
        ∷ skipped_way (get_or contexts.now context []) skipped) }
    ensures { HasTargets (points_at contexts.now points.now)
        (way true (At (record { returns = get_or contexts.now context [] ++ after ∷ []; address = target }))
        ∷ skipped_way (get_or contexts.now context []) skipped) result }
{
    match contexts.find(context, after) {
        Some(child) => Targets {
            done: number_of(points, child, target),
            skipped: skipped_number(points, context, skipped),
        },
        None => Targets {
            done: None,
            skipped: None,
        },
    }
}

/// The number of the way out.
pub fn exit_number(points: &[(u32, u32)]) -> Option<u32>
    requires few { length points.now < 2 ^ 32 }
    ensures { result ≡ Some (length points.now) }
{
    Some(points.len() as u32)
}

/// Where a return leads.
pub fn return_targets(
    contexts: &Contexts,
    points: &[(u32, u32)],
    context: u32,
    skipped: Option<u32>,
) -> Targets
    requires few { length points.now < 2 ^ 32 }
    requires sorted { AreSorted contexts.now points.now }
    requires known { context < length contexts.now }
    requires closed { LeadInto (points_at contexts.now points.now)
        (way true (return_place (last_return (get_or contexts.now context [])) (get_or contexts.now context []))
        ∷ skipped_way (get_or contexts.now context []) skipped) }
    ensures { HasTargets (points_at contexts.now points.now)
        (way true (return_place (last_return (get_or contexts.now context [])) (get_or contexts.now context []))
        ∷ skipped_way (get_or contexts.now context []) skipped) result }
{
    match contexts.parent_of(context) {
        Some((parent, after)) => Targets {
            done: number_of(points, parent, after),
            skipped: skipped_number(points, context, skipped),
        },
        None => Targets {
            done: exit_number(points),
            skipped: skipped_number(points, context, skipped),
        },
    }
}

/// Where the ways of a point lead; nowhere from a fault.
pub fn targets_of_point(
    image: &Image,
    contexts: &Contexts,
    points: &[(u32, u32)],
    entry: u32,
    context: u32,
    address: u32,
) -> Targets
    requires few { length points.now < 2 ^ 32 }
    requires sorted { AreSorted contexts.now points.now }
    requires known { context < length contexts.now }
    requires closed { LeadInto (points_at contexts.now points.now)
        (ways_from image.now entry (point_at contexts.now (context, address))) }
    ensures { HasTargets (points_at contexts.now points.now)
        (ways_from image.now entry (point_at contexts.now (context, address))) result }
{
    match control_at(image, address) {
        Control::Go { target, skipped } => {
            go_targets(contexts, points, context, target, skipped)
        }
        Control::Call {
            target,
            after,
            skipped,
        } => {
            if is_recursive(image, contexts, entry, context, target) {
                Targets {
                    done: None,
                    skipped: None,
                }
            } else {
                call_targets(contexts, points, context, target, after, skipped)
            }
        }
        Control::Return { skipped } => return_targets(contexts, points, context, skipped),
        Control::Fault { .. } => Targets {
            done: None,
            skipped: None,
        },
    }
}

/// Where the ways of all points lead.
pub fn all_targets(
    alloc: Global,
    image: &Image,
    contexts: &Contexts,
    points: &[(u32, u32)],
    entry: u32,
) -> Result<Items<Targets>, AllocError>
    requires few { length points.now < 2 ^ 32 }
    requires sorted { AreSorted contexts.now points.now }
    requires closed { (n : ℕ × ℕ) → Contains points.now n → LeadInto (points_at contexts.now points.now)
        (ways_from image.now entry (point_at contexts.now n)) }
    ensures { IfOk result (AllHaveTargets (ways_from image.now entry) (points_at contexts.now points.now)
        (points_at contexts.now points.now)) }
{
    let mut table = Items::new(alloc);
    for point in points {
        let targets = targets_of_point(image, contexts, points, entry, point.0, point.1);
        table.push(targets)?;
    }
    Ok(table)
}
