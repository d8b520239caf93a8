//! Of several faults of points the one that comes first.

ghost use Rattle.std.specs.Prelude.{◌≡◌, ℕ, Some, None, length, slice_get, get_or, option_map, IfSome};
ghost use Rattle.path_facts.specs.Histories.{wanted_fact};
ghost use Rattle.fact_lattice.specs.Cells.{only_fact};
ghost use Rattle.copy_facts.specs.declared.sites.Site.{Site as SiteValue};
ghost use Rattle.copy_facts.specs.declared.tables.PointFacts.{PointFacts as PointFactsValue};
ghost use Rattle.copy_facts.specs.Frames.{IsLeastTo, IsOverNumber, IsUnprovedNumber, address_in, beyond, lesser};
ghost use Rattle.copy_facts.specs.Frames.{over_in, unproved_in, with_lowest};
ghost use Rattle.copy_facts.specs.Searching.{map_of};
ghost use Rattle.copy_facts.specs.Tables.{IsTable, state_of_point};

use crate::sites::Site;
use crate::stepping::{cell_from, offset_of};
use crate::tables::PointFacts;
use arm_isa::is_return;
use fact_lattice::{Range, is_same};
use path_facts::Origin;
use point_steps::{accesses_by_sp, lowest_byte, returned_source};

/// An address with an offset.
#[derive(Clone, Copy, Debug, PartialEq, Eq, Drop)]
pub struct Found {
    pub address: u32,
    pub lowest: i64,
}

/// What comes first by its address, and then by its offset.
fn lesser(found: Option<Found>, address: u32, lowest: i64) -> Option<Found>
    ensures { result ≡ lesser found address lowest }
{
    match found {
        None => Some(Found { address, lowest }),
        Some(least) => {
            if address < least.address || (address == least.address && lowest < least.lowest) {
                Some(Found { address, lowest })
            } else {
                Some(least)
            }
        }
    }
}

/// The same where there may be none.
fn with_lowest(found: Option<Found>, address: u32, lowest: Option<i64>) -> Option<Found>
    ensures { result ≡ with_lowest found address lowest }
{
    match lowest {
        None => found,
        Some(lowest) => lesser(found, address, lowest),
    }
}

/// An offset that lies below the stack's bytes.
fn beyond(stack: u32, lowest: Option<i64>) -> Option<i64>
    ensures { result ≡ beyond stack lowest }
{
    match lowest {
        None => None,
        Some(offset) => {
            if offset < -i64::from(stack) {
                Some(offset)
            } else {
                None
            }
        }
    }
}

/// The lowest byte of a point's access, where it lies below the stack's bytes.
fn over_at(stack: u32, site: &Site, facts: &Option<PointFacts>) -> Option<i64>
    ensures { result ≡ over_in stack (Some site.now) (option_map state_of_point facts.now) }
{
    match facts {
        None => None,
        Some(facts) => {
            if accesses_by_sp(&site.insn) {
                match offset_of(facts) {
                    None => None,
                    Some(offset) => beyond(stack, lowest_byte(offset, &site.insn)),
                }
            } else {
                None
            }
        }
    }
}

/// What a return is to bring.
fn wanted(home: Option<u32>) -> Option<Range>
    ensures { result ≡ only_fact (Some (wanted_fact home)) }
{
    match home {
        None => Some(Range {
            origin: Origin::AtStart(14),
            low: 0,
            high: 0,
        }),
        Some(address) => Some(Range {
            origin: Origin::Zero,
            low: address.cast_signed(),
            high: address.cast_signed(),
        }),
    }
}

/// Whether a point is a return that isn't shown to bring its own return address.
fn unproved_at(site: &Site, facts: &Option<PointFacts>) -> bool
    requires { IfSome facts.now IsTable }
    ensures { result ≡ unproved_in (Some site.now) (option_map state_of_point facts.now) }
{
    match facts {
        None => false,
        Some(facts) => {
            if is_return(&site.insn) {
                let brought = cell_from(facts, returned_source(offset_of(facts), &site.insn));
                !is_same(brought, wanted(site.home))
            } else {
                false
            }
        }
    }
}

/// The same of the point of a number.
fn over_number(stack: u32, site: &Site, facts: &[Option<PointFacts>], point: usize) -> Option<i64>
    ensures { result ≡ over_in stack (Some site.now) (map_of facts.now point) }
{
    match facts.get(point) {
        Some(facts) => over_at(stack, site, facts),
        None => None,
    }
}

/// The same of the point of a number.
fn unproved_number(site: &Site, facts: &[Option<PointFacts>], point: usize) -> bool
    requires { (p : ℕ) (t : PointFactsValue) → get_or facts.now p None ≡ Some t → IsTable t }
    ensures { result ≡ unproved_in (Some site.now) (map_of facts.now point) }
{
    match facts.get(point) {
        Some(facts) => unproved_at(site, facts),
        None => false,
    }
}

/// The access below the stack's bytes that comes first.
pub fn first_over(stack: u32, sites: &[Site], facts: &[Option<PointFacts>]) -> Option<Found>
    ensures { IsLeastTo (IsOverNumber stack sites.now facts.now) (λ i. address_in (slice_get sites.now i))
        (length sites.now) result }
{
    let mut found: Option<Found> = None;
    let mut at = 0;
    while at < sites.len() {
        let site = sites[at];
        let over = over_number(stack, &site, facts, at);
        found = with_lowest(found, site.address, over);
        at += 1;
    }
    found
}

/// The return that comes first of those that aren't shown to bring their own return address.
pub fn first_unproved(sites: &[Site], facts: &[Option<PointFacts>]) -> Option<Found>
    requires { (p : ℕ) (t : PointFactsValue) → get_or facts.now p None ≡ Some t → IsTable t }
    ensures { IsLeastTo (IsUnprovedNumber sites.now facts.now) (λ i. address_in (slice_get sites.now i))
        (length sites.now) result }
{
    let mut found: Option<Found> = None;
    let mut at = 0;
    while at < sites.len() {
        let site = sites[at];
        let unproved = unproved_number(&site, facts, at);
        at += 1;
        if !unproved {
            continue;
        }
        found = lesser(found, site.address, 0);
    }
    found
}
