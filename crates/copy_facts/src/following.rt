//! The use of the stack at all points of a function.

ghost use Rattle.std.specs.Prelude.{◌≡◌, ℕ, ◌<◌, ◌^◌, Some, length, slice_get, IfErr, IfOk, OnOk};
ghost use Rattle.copy_facts.specs.declared.sites.Site.{Site as SiteValue};
ghost use Rattle.copy_facts.specs.Frames.{AreFrames, IsNoneLostFor, IsNoneOverFor, IsNoneUnprovedFor};
ghost use Rattle.copy_facts.specs.Frames.{IsRefusedFor};
ghost use Rattle.copy_facts.specs.declared.following.FrameRefusal.TheVariants as why;
ghost use Rattle.copy_facts.specs.Searching.{IsInside};

use crate::least::{Found, first_over, first_unproved};
use crate::sites::Site;
use crate::start::start_table;
use crate::tables::PointFacts;
use fact_lattice::{Stop, solve};
use std::alloc::Global;

/// Why the use of the stack can't be followed.
#[derive(Clone, Copy, Debug, PartialEq, Eq, Drop)]
pub enum FrameRefusal {
    /// Memory was refused.
    Memory,
    /// The access by r13 at an address has no one offset: r13 isn't known there, or isn't the same on all paths.
    Lost(u32),
    /// An access goes beyond the stack: the least such address, and there the least offset of its lowest byte.
    Over(u32, i64),
    /// A return isn't shown to bring its own return address: the least such address.
    Unproved(u32),
}

/// The address of a point.
fn address_of(sites: &[Site], point: u32) -> u32
    ensures { (site : SiteValue) → slice_get sites.now point ≡ Some site → result ≡ site.address }
{
    match sites.get(point as usize) {
        Some(site) => site.address,
        None => 0,
    }
}

/// What is known at all points, where r13 is known at each access by it.
fn solved(
    alloc: Global,
    stack: u32,
    start: u32,
    sites: &[Site],
) -> Result<Vec<Option<PointFacts>>, FrameRefusal>
    requires small { stack < 2 ^ 31 }
    requires few { length sites.now < 2 ^ 32 }
    requires starts { start < length sites.now }
    requires inside { (i : ℕ) (site : SiteValue) → slice_get sites.now i ≡ Some site
        → IsInside (length sites.now) site }
    ensures ok { IfOk result (λ facts. AreFrames stack start sites.now facts.items) }
    ensures refused { IfErr result (IsRefusedFor stack start sites.now) }
{
    let mut table = match start_table(alloc, stack, start, sites) {
        Ok(table) => table,
        Err(_) => return Err(FrameRefusal::Memory),
    };
    match solve(alloc, &mut table, start) {
        Ok(()) => Ok(table.facts),
        Err(Stop::Memory) => Err(FrameRefusal::Memory),
        Err(Stop::Lost(point)) => Err(FrameRefusal::Lost(address_of(sites, point))),
    }
}

/// The refusal for an access below the stack's bytes.
fn over_refusal(found: Found) -> FrameRefusal
    ensures { result ≡ why.Over found.address found.lowest }
{
    FrameRefusal::Over(found.address, found.lowest)
}

/// Refuses a function of which an access goes below the stack's bytes.
fn check_accesses(
    stack: u32,
    start: u32,
    sites: &[Site],
    facts: &[Option<PointFacts>],
) -> Result<(), FrameRefusal>
    requires { AreFrames stack start sites.now facts.now }
    ensures ok { OnOk result (IsNoneOverFor stack start sites.now) }
    ensures refused { IfErr result (IsRefusedFor stack start sites.now) }
{
    match first_over(stack, sites, facts) {
        None => Ok(()),
        Some(over) => Err(over_refusal(over)),
    }
}

/// Refuses a function of which a return isn't shown to bring its own return address.
fn check_returns(
    stack: u32,
    start: u32,
    sites: &[Site],
    facts: &[Option<PointFacts>],
) -> Result<(), FrameRefusal>
    requires frames { AreFrames stack start sites.now facts.now }
    requires none { IsNoneOverFor stack start sites.now }
    ensures ok { OnOk result (IsNoneUnprovedFor stack start sites.now) }
    ensures refused { IfErr result (IsRefusedFor stack start sites.now) }
{
    match first_unproved(sites, facts) {
        None => Ok(()),
        Some(found) => Err(FrameRefusal::Unproved(found.address)),
    }
}

/// What all paths say of each point of a function, or why its use of the stack can't be followed: r13 is lost at a
/// point; else an access goes below the stack's bytes; else a return isn't shown to bring its own return address.
pub fn frames(
    alloc: Global,
    stack: u32,
    start: u32,
    sites: &[Site],
) -> Result<Vec<Option<PointFacts>>, FrameRefusal>
    requires small { stack < 2 ^ 31 }
    requires few { length sites.now < 2 ^ 32 }
    requires starts { start < length sites.now }
    requires inside { (i : ℕ) (site : SiteValue) → slice_get sites.now i ≡ Some site
        → IsInside (length sites.now) site }
    ensures frames { IfOk result (λ facts. AreFrames stack start sites.now facts.items) }
    ensures lost { OnOk result (IsNoneLostFor stack start sites.now) }
    ensures over { OnOk result (IsNoneOverFor stack start sites.now) }
    ensures unproved { OnOk result (IsNoneUnprovedFor stack start sites.now) }
    ensures refused { IfErr result (IsRefusedFor stack start sites.now) }
{
    let facts = solved(alloc, stack, start, sites)?;
    check_stack(stack, start, sites, &facts)?;
    Ok(facts)
}

/// Refuses a function that goes below the stack's bytes, or returns somewhere else.
fn check_stack(
    stack: u32,
    start: u32,
    sites: &[Site],
    facts: &Vec<Option<PointFacts>>,
) -> Result<(), FrameRefusal>
    requires { AreFrames stack start sites.now facts.now.items }
    ensures lost { OnOk result (IsNoneLostFor stack start sites.now) }
    ensures over { OnOk result (IsNoneOverFor stack start sites.now) }
    ensures unproved { OnOk result (IsNoneUnprovedFor stack start sites.now) }
    ensures refused { IfErr result (IsRefusedFor stack start sites.now) }
{
    check_accesses(stack, start, sites, facts.as_slice())?;
    check_returns(stack, start, sites, facts.as_slice())?;
    Ok(())
}
