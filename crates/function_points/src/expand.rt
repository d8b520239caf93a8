//! One point after another is expanded: the points are added to which control goes from it.
ghost use Rattle.std.specs.Prelude.{◌≡◌, ℕ, ◌<◌, ◌≤◌, length, OnOk, IsErrOf, [], List, Option, slice_get, get_or, Some};
ghost use Rattle.std.specs.Prelude.{◌++◌, ◌∷◌};
ghost use Rattle.graph_search.specs.NodeLists.{added_all};
ghost use Rattle.function_points.specs.Steps.{point_if, step_from};
ghost use Rattle.control_flow.specs.Controls.{calls, control_of};
ghost use Rattle.control_flow.specs.Points.{is_open, last_return, without_last};
ghost use Rattle.function_points.specs.PointLists.{point_eq, point_at, points_at, AreHeld, AreUsed};

use crate::contexts::Contexts;
use crate::found_points::{FoundPoints, enter_call, visit};
use control_flow::{Control, called_before, control_at};
use elf32_image::Image;
use graph_search::SearchRefusal;

/// Adds the point to which a skipped instruction leads, if it can be skipped.
fn visit_skipped(
    contexts: &Contexts,
    found: &mut FoundPoints,
    context: u32,
    skipped: Option<u32>,
    most: usize,
) -> Result<(), SearchRefusal>
    requires held { AreHeld contexts.now found.old }
    requires known { context < length contexts.now }
    requires few { length found.old ≤ most }
    ensures held { OnOk result (AreHeld contexts.now found.new) }
    ensures ok { OnOk result (points_at contexts.now found.new ≡ added_all point_eq (points_at contexts.now found.old)
        (point_if (get_or contexts.now context []) skipped)) }
    ensures few { OnOk result (length found.new ≤ most) }
    ensures many { IsErrOf result SearchRefusal.TooLarge → most < length
        (added_all point_eq (points_at contexts.now found.old) (point_if (get_or contexts.now context []) skipped)) }
{
    match skipped {
        Some(address) => visit(contexts, found, context, address, most),
        None => Ok(()),
    }
}

/// Adds the points to which an instruction leads that calls nothing.
fn visit_next(
    contexts: &Contexts,
    found: &mut FoundPoints,
    context: u32,
    target: u32,
    skipped: Option<u32>,
    most: usize,
) -> Result<(), SearchRefusal>
    requires held { AreHeld contexts.now found.old }
    requires known { context < length contexts.now }
    requires few { length found.old ≤ most }
    ensures held { OnOk result (AreHeld contexts.now found.new) }
    ensures ok { OnOk result (points_at contexts.now found.new ≡ added_all point_eq (points_at contexts.now found.old)
        (record { returns = get_or contexts.now context []; address = target } ∷ point_if
        (get_or contexts.now context []) skipped)) }
    ensures few { OnOk result (length found.new ≤ most) }
    ensures many { IsErrOf result SearchRefusal.TooLarge → most < length
        (added_all point_eq (points_at contexts.now found.old)
        (record { returns = get_or contexts.now context []; address = target } ∷ point_if
        (get_or contexts.now context []) skipped)) }
{
    visit(contexts, found, context, target, most)?;
    visit_skipped(contexts, found, context, skipped, most)
}

/// Adds the points to which a return leads.
fn visit_return(
    contexts: &Contexts,
    found: &mut FoundPoints,
    context: u32,
    skipped: Option<u32>,
    most: usize,
) -> Result<(), SearchRefusal>
    requires held { AreHeld contexts.now found.old }
    requires known { context < length contexts.now }
    requires few { length found.old ≤ most }
    ensures held { OnOk result (AreHeld contexts.now found.new) }
    ensures ok { OnOk result (points_at contexts.now found.new ≡ added_all point_eq (points_at contexts.now found.old)
        (point_if (without_last (get_or contexts.now context [])) (last_return (get_or contexts.now context []))
        ++ point_if (get_or contexts.now context []) skipped)) }
    ensures few { OnOk result (length found.new ≤ most) }
    ensures many { IsErrOf result SearchRefusal.TooLarge → most < length
        (added_all point_eq (points_at contexts.now found.old)
        (point_if (without_last (get_or contexts.now context [])) (last_return (get_or contexts.now context []))
        ++ point_if (get_or contexts.now context []) skipped)) }
{
    match contexts.parent_of(context) {
        Some((parent, after)) => {
            visit(contexts, found, parent, after, most)?;
            visit_skipped(contexts, found, context, skipped, most)
        }
        None => visit_skipped(contexts, found, context, skipped, most),
    }
}

/// Adds the points to which a call leads.
fn visit_call(
    contexts: &mut Contexts,
    found: &mut FoundPoints,
    context: u32,
    target: u32,
    after: u32,
    skipped: Option<u32>,
    most: usize,
) -> Result<(), SearchRefusal>
    requires held { AreHeld contexts.old found.old }
    requires known { context < length contexts.old }
    requires few { length found.old ≤ most }
    ensures held { OnOk result (AreHeld contexts.new found.new) }
    ensures ok { OnOk result (points_at contexts.new found.new ≡ added_all point_eq (points_at contexts.old found.old)
        (record { returns = (get_or contexts.old context []) ++ after ∷ []; address = target } ∷ point_if
        (get_or contexts.old context []) skipped)) }
    ensures used { OnOk result (AreUsed contexts.old (points_at contexts.old found.old) → AreUsed contexts.new
        (points_at contexts.new found.new)) }
    ensures few { OnOk result (length found.new ≤ most) }
    ensures many { IsErrOf result SearchRefusal.TooLarge → most < length
        (added_all point_eq (points_at contexts.old found.old)
        (record { returns = (get_or contexts.old context []) ++ after ∷ []; address = target } ∷ point_if
        (get_or contexts.old context []) skipped)) }
{
    enter_call(contexts, found, context, after, target, most)?;
    visit_skipped(contexts, found, context, skipped, most)
}

/// Adds the points to which control goes from one that was found.
pub fn expand(
    image: &Image,
    entry: u32,
    contexts: &mut Contexts,
    found: &mut FoundPoints,
    at: usize,
    most: usize,
) -> Result<(), SearchRefusal>
    requires held { AreHeld contexts.old found.old }
    requires within { at < length found.old }
    requires few { length found.old ≤ most }
    ensures held { OnOk result (AreHeld contexts.new found.new) }
    ensures ok { OnOk result ((n : ℕ × ℕ) → slice_get found.old at ≡ Some n → points_at contexts.new found.new
        ≡ added_all point_eq (points_at contexts.old found.old)
        (step_from (control_of image.now) (calls image.now) entry (point_at contexts.old n))) }
    ensures used { OnOk result (AreUsed contexts.old (points_at contexts.old found.old) → AreUsed contexts.new
        (points_at contexts.new found.new)) }
    ensures few { OnOk result (length found.new ≤ most) }
    ensures many { IsErrOf result SearchRefusal.TooLarge → (n : ℕ × ℕ) → slice_get found.old at ≡ Some n → most < length
        (added_all point_eq (points_at contexts.old found.old)
        (step_from (control_of image.now) (calls image.now) entry (point_at contexts.old n))) }
{
    let (context, address) = found.get(at);
    match control_at(image, address) {
        Control::Go { target, skipped } => {
            visit_next(contexts, found, context, target, skipped, most)
        }
        Control::Call {
            target,
            after,
            skipped,
        } => {
            if is_recursive(image, contexts, entry, context, target) {
                Ok(())
            } else {
                visit_call(contexts, found, context, target, after, skipped, most)
            }
        }
        Control::Return { skipped } => visit_return(contexts, found, context, skipped, most),
        Control::Fault { .. } => Ok(()),
    }
}

/// Whether a call to an address, by a point whose list of open calls has a number, is one of the function itself, or of
/// one that is open. It takes no memory.
pub fn is_recursive(
    image: &Image,
    contexts: &Contexts,
    entry: u32,
    context: u32,
    target: u32,
) -> bool
    requires { context < length contexts.now }
    ensures { result ≡ is_open (calls image.now) entry (get_or contexts.now context []) target }
{
    if target == entry {
        return true;
    }
    let mut at = context;
    while let Some((parent, after)) = contexts.parent_of(at) {
        if goes_to(image, after, target) {
            return true;
        }
        at = parent;
    }
    false
}

/// Whether the call that returns to an address goes to a target.
fn goes_to(image: &Image, after: u32, target: u32) -> bool
    ensures { result ≡ calls image.now after target }
{
    match called_before(image, after) {
        Some(callee) => callee == target,
        None => false,
    }
}
