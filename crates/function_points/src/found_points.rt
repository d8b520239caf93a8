//! The points that were found, each by the number of its list of open calls and its address.
ghost use Rattle.std.specs.Prelude.{◌≡◌, ℕ, ◌<◌, ◌≤◌, length, OnOk, IfOk, IsErrOf, [], List, slice_get, get_or, Some};
ghost use Rattle.std.specs.Prelude.{◌++◌, ◌∷◌, ◌^◌};
ghost use Rattle.std.specs.BTreeSet as tree;
ghost use Rattle.graph_search.specs.NodeLists.{holds, added};
ghost use Rattle.function_points.specs.Contexts.{pair_cmp};
ghost use Rattle.function_points.specs.PointLists.{pair_eq, point_eq, point_at, points_at, AreHeld, AreUsed};

use crate::contexts::Contexts;
use graph_search::SearchRefusal;
use std::alloc::{AllocError, Global};
use std::collections::BTreeSet;
use std::marker::Model;

/// The points in the order in which they were found, none of them twice: each by the number of its list of open calls
/// and its address. Its value in contracts is the list of these pairs.
#[derive(Drop)]
pub struct FoundPoints {
    order: Vec<(u32, u32)>,
    seen: BTreeSet<(u32, u32)>,
}

impl Model for FoundPoints {
    ghost use Rattle.std.specs.Prelude.{◌≡◌, ℕ, List};
    ghost use Rattle.std.specs.BTreeSet as tree;
    ghost use Rattle.graph_search.specs.NodeLists.{holds};
    ghost use Rattle.function_points.specs.Contexts.{pair_cmp};
    ghost use Rattle.function_points.specs.PointLists.{pair_eq};

    ghost Value = { List (ℕ × ℕ) };

    ghost view = { λ p. p.order.items };

    ghost invariant = { λ p. (q : ℕ × ℕ) → tree.contains pair_cmp p.seen q ≡ holds pair_eq q p.order.items };
}

impl FoundPoints {
    /// No points. It takes no memory.
    pub fn new(alloc: Global) -> FoundPoints
        ensures { result ≡ [] }
    {
        FoundPoints {
            order: Vec::new(alloc),
            seen: BTreeSet::new(alloc),
        }
    }

    /// The number of points.
    pub fn len(&self) -> usize
        ensures { result ≡ length self.now }
    {
        self.order.len()
    }

    /// The point at a place, counted from 0: the number of its list of open calls, and its address.
    pub fn get(&self, at: usize) -> (u32, u32)
        requires { at < length self.now }
        ensures { slice_get self.now at ≡ Some result }
    {
        self.order[at]
    }

    /// Adds a point at the end, unless it stands there already.
    ///
    /// # Errors
    ///
    /// Want of memory alone.
    pub fn add(&mut self, point: (u32, u32)) -> Result<(), AllocError>
        ensures { OnOk result (self.new ≡ added pair_eq self.old point) }
    {
        if !self.seen.contains(&point) {
            self.order.reserve(1)?;
            self.seen.insert(point)?;
            self.order.push(point)?;
        }
        Ok(())
    }
}

/// Adds the point at an address in a context.
pub fn visit(
    contexts: &Contexts,
    found: &mut FoundPoints,
    context: u32,
    address: u32,
    most: usize,
) -> Result<(), SearchRefusal>
    requires held { AreHeld contexts.now found.old }
    requires known { context < length contexts.now }
    requires few { length found.old ≤ most }
    ensures held { OnOk result (AreHeld contexts.now found.new) }
    ensures ok { OnOk result (points_at contexts.now found.new ≡ added point_eq (points_at contexts.now found.old)
        (point_at contexts.now (context, address))) }
    ensures few { OnOk result (length found.new ≤ most) }
    ensures many { IsErrOf result SearchRefusal.TooLarge → most < length
        (added point_eq (points_at contexts.now found.old) (point_at contexts.now (context, address))) }
{
    found
        .add((context, address))
        .map_err(|_| SearchRefusal::Memory)?;
    if found.len() > most {
        return Err(SearchRefusal::TooLarge);
    }
    Ok(())
}

/// Adds the point that a call leads to.
pub fn enter_call(
    contexts: &mut Contexts,
    found: &mut FoundPoints,
    context: u32,
    after: u32,
    target: u32,
    most: usize,
) -> Result<(), SearchRefusal>
    requires held { AreHeld contexts.old found.old }
    requires known { context < length contexts.old }
    requires few { length found.old ≤ most }
    ensures held { OnOk result (AreHeld contexts.new found.new) }
    ensures ok { OnOk result (points_at contexts.new found.new ≡ added point_eq (points_at contexts.old found.old)
        (record { returns = get_or contexts.old context [] ++ after ∷ []; address = target })) }
    ensures kept { OnOk result ((context < length contexts.new) ×
        (get_or contexts.new context [] ≡ get_or contexts.old context [])) }
    ensures used { OnOk result (AreUsed contexts.old (points_at contexts.old found.old) → AreUsed contexts.new
        (points_at contexts.new found.new)) }
    ensures few { OnOk result (length found.new ≤ most) }
    ensures many { IsErrOf result SearchRefusal.TooLarge → most < length
        (added point_eq (points_at contexts.old found.old) (record {
          returns = get_or contexts.old context []
              ++ after ∷ [];
          address = target;
        })) }
{
    if contexts.len() >= 1 << 31 {
        return Err(SearchRefusal::Memory);
    }
    let child = contexts
        .child(context, after)
        .map_err(|_| SearchRefusal::Memory)?;
    visit(contexts, found, child, target, most)
}
