//! Lists and points by their places in the order.
ghost use Rattle.std.specs.Prelude.{◌≡◌, ℕ, ◌<◌, ◌≤◌, ◌+◌, ◌^◌, ◌++◌, ◌∷◌, [], length, get_or, List, Contains, IfOk};
ghost use Rattle.std.specs.Prelude.{OnOk};
ghost use Rattle.std.specs.Str.{bytes_eq};
ghost use Rattle.std.specs.BTreeSet as tree;
ghost use Rattle.graph_search.specs.NodeLists.{Distinct, added};
ghost use Rattle.function_points.specs.Contexts.{pair_cmp};
ghost use Rattle.point_order.specs.Families.{IsOrder};
ghost use Rattle.point_order.specs.Ranks.{AreRanked, Ranking, AreRenamed, AreOrdered};

use function_points::{Contexts, FoundPoints};
use sqlite_items::Items;
use std::alloc::{AllocError, Global};
use std::collections::BTreeSet;

/// Zeros.
pub fn zeros(alloc: Global, count: usize) -> Result<Vec<u32>, AllocError>
    ensures long { IfOk result (λ v. length v.items ≡ count) }
    ensures none { IfOk result (λ v. (k : ℕ) → get_or v.items k 0 ≡ 0) }
{
    let mut ranks = Vec::with_capacity(alloc, count)?;
    while ranks.len() < count {
        ranks.push(0)?;
    }
    Ok(ranks)
}

/// Puts a list after the ranked ones, by its parent's old number.
pub fn enlist_under(
    ranked: &mut Contexts,
    ranks: &[u32],
    parent: u32,
    after: u32,
) -> Result<(), AllocError>
    requires known { parent < length ranks.now }
    requires place { get_or ranks.now parent 0 < length ranked.old }
    requires few { length ranked.old < 2 ^ 31 }
    ensures { OnOk result (ranked.new ≡ added bytes_eq ranked.old
        (get_or ranked.old (get_or ranks.now parent 0) [] ++ after ∷ [])) }
{
    ranked.child(ranks[parent as usize], after)?;
    Ok(())
}

/// Puts the next list after the ranked ones.
pub fn enlist(
    ranked: &mut Contexts,
    ranks: &mut Vec<u32>,
    contexts: &Contexts,
    order: &[u32],
    at: u32,
) -> Result<(), AllocError>
    requires distinct { Distinct bytes_eq contexts.now }
    requires order { IsOrder contexts.now order.now }
    requires few { length order.now ≤ 2 ^ 31 }
    requires within { at < length order.now }
    requires some { 0 < at }
    requires ranking { Ranking contexts.now order.now at ranked.old ranks.old.items }
    ensures { OnOk result (Ranking contexts.now order.now (at + 1) ranked.new ranks.new.items) }
{
    let number = order[at as usize];
    ranks[number as usize] = at;
    match contexts.parent_of(number) {
        Some((parent, after)) => { enlist_under(ranked, ranks.as_slice(), parent, after) }
        None => Ok(()),
    }
}

/// The lists in their order, and each old number's new one.
#[derive(Drop)]
pub struct Ranked {
    pub contexts: Contexts,
    pub ranks: Items<u32>,
}

/// The lists in the order that is given, with their new numbers.
pub fn rank(alloc: Global, contexts: &Contexts, order: &[u32]) -> Result<Ranked, AllocError>
    requires order { IsOrder contexts.now order.now }
    requires few { length order.now ≤ 2 ^ 31 }
    ensures { IfOk result (λ r. AreRanked contexts.now r.contexts r.ranks) }
{
    let mut ranks = zeros(alloc, contexts.len())?;
    let mut ranked = Contexts::new(alloc);
    let mut at: u32 = 1;
    while (at as usize) < order.len() {
        enlist(&mut ranked, &mut ranks, contexts, order, at)?;
        at += 1;
    }
    Ok(Ranked {
        contexts: ranked,
        ranks: Items::from_vec(ranks),
    })
}

/// The points by the new numbers of their lists.
pub fn renamed_set(
    alloc: Global,
    numbers: &FoundPoints,
    ranks: &[u32],
) -> Result<BTreeSet<(u32, u32)>, AllocError>
    requires { (n : ℕ × ℕ) → Contains numbers.now n → n.0 < length ranks.now }
    ensures { IfOk result (λ set. AreRenamed ranks.now numbers.now (tree.contains pair_cmp set)) }
{
    let mut set = BTreeSet::new(alloc);
    let mut at = 0;
    while at < numbers.len() {
        let (context, address) = numbers.get(at);
        set.insert((ranks[context as usize], address))?;
        at += 1;
    }
    Ok(set)
}

/// The points by the new numbers of their lists, in order.
pub fn rename(
    alloc: Global,
    numbers: &FoundPoints,
    ranks: &[u32],
) -> Result<Items<(u32, u32)>, AllocError>
    requires { (n : ℕ × ℕ) → Contains numbers.now n → n.0 < length ranks.now }
    ensures { IfOk result (AreOrdered ranks.now numbers.now) }
{
    let mut waiting = renamed_set(alloc, numbers, ranks)?;
    let mut points = Items::new(alloc);
    while let Some(point) = waiting.pop_first() {
        points.push(point)?;
    }
    Ok(points)
}
