//! Numbers of points cut into chains.
ghost use Rattle.std.specs.Prelude.{◌≡◌, ℕ, ◌<◌, ◌^◌, ◌&&◌, get_or, None, is_none, IfOk, length};
ghost use Rattle.basic_blocks.specs.Chains.{is_flagged, Follows, AreOpposite, IsChainFrom, IsSplit};

use sqlite_items::Items;
use std::alloc::{AllocError, Global};

/// The chain from a number that follows none: itself, the only one after it, and so on.
///
/// # Errors
///
/// Want of memory alone.
pub fn chain_from(
    alloc: Global,
    only: &[Option<u32>],
    back: &[Option<u32>],
    first: u32,
) -> Result<Items<u32>, AllocError>
    requires opposite { AreOpposite only.now back.now }
    requires head { (p : ℕ) → Follows only.now p first → ⊥ }
    requires below { first < length only.now }
    ensures { IfOk result (IsChainFrom only.now first) }
{
    let mut points = Vec::new(alloc);
    points.push(first)?;
    let mut at = first;
    while let Some(next) = only[at as usize] {
        points.push(next)?;
        at = next;
    }
    Ok(Items::from_vec(points))
}

/// Whether a number is flagged.
fn is_set(flags: &[bool], number: u32) -> bool
    ensures { result ≡ is_flagged flags.now number }
{
    match flags.get(number as usize) {
        Some(flag) => *flag,
        None => false,
    }
}

/// Whether a chain begins at a number: it is flagged and follows none.
fn begins(back: &[Option<u32>], flags: &[bool], at: u32) -> bool
    requires { at < length back.now }
    ensures { result ≡ is_flagged flags.now at && is_none (get_or back.now at None) }
{
    is_set(flags, at) && back[at as usize].is_none()
}

/// The flagged numbers cut into chains, in the order of their first ones.
///
/// # Errors
///
/// Want of memory alone.
pub fn split(
    alloc: Global,
    only: &[Option<u32>],
    back: &[Option<u32>],
    flags: &[bool],
) -> Result<Items<Items<u32>>, AllocError>
    requires opposite { AreOpposite only.now back.now }
    requires few { length only.now < 2 ^ 32 }
    ensures { IfOk result (IsSplit only.now (is_flagged flags.now)) }
{
    let mut chains = Items::new(alloc);
    let mut at: u32 = 0;
    while (at as usize) < only.len() {
        if begins(back, flags, at) {
            let chain = chain_from(alloc, only, back, at)?;
            chains.push(chain)?;
        }
        at += 1;
    }
    Ok(chains)
}
