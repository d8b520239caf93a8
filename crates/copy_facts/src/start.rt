//! What is known at the start of a function.

ghost use Rattle.std.specs.Prelude.{◌≡◌, ◌≢◌, ℕ, ◌<◌, ◌^◌, Some, None, get_or, length, slice_get, IfOk, IfSome};
ghost use Rattle.path_facts.specs.Facts.Location.{Register};
ghost use Rattle.path_facts.specs.Histories.{start_fact, start_facts};
ghost use Rattle.fact_lattice.specs.Cells.{only_fact, state_of};
ghost use Rattle.fact_lattice.specs.Searches.{first_map};
ghost use Rattle.copy_facts.specs.declared.sites.Site.{Site as SiteValue};
ghost use Rattle.copy_facts.specs.Points.{flow_of};
ghost use Rattle.copy_facts.specs.Searching.{ArePoints, IsInside, map_of};
ghost use Rattle.copy_facts.specs.Tables.{IsTable, state_of_point};

use crate::points::PointTable;
use crate::sites::Site;
use crate::tables::PointFacts;
use fact_lattice::Range;
use path_facts::Origin;
use std::alloc::{AllocError, Global};

/// The registers at the start: each is its own origin.
fn start_registers() -> [Option<Range>; 15]
    ensures long { length result ≡ 15 }
    ensures cells { (r : ℕ) → get_or result r None ≡ only_fact (start_fact (Register r)) }
{
    let mut registers = [None; 15];
    let mut at: u8 = 0;
    while at < 15 {
        registers[at as usize] = Some(Range {
            origin: Origin::AtStart(at),
            low: 0,
            high: 0,
        });
        at += 1;
    }
    registers
}

/// What is known at the start.
fn start_point(alloc: Global) -> PointFacts
    ensures table { IsTable result }
    ensures state { state_of_point result ≡ state_of start_facts }
{
    PointFacts {
        registers: start_registers(),
        words: Vec::new(alloc),
    }
}

/// Points of which nothing is known yet.
fn no_facts(alloc: Global, count: usize) -> Result<Vec<Option<PointFacts>>, AllocError>
    ensures long { IfOk result (λ v. length v.items ≡ count) }
    ensures none { IfOk result (λ v. (p : ℕ) → get_or v.items p None ≡ None) }
{
    let mut facts = Vec::new(alloc);
    let mut at = 0;
    while at < count {
        facts.push(None)?;
        at += 1;
    }
    Ok(facts)
}

/// The table with which the search begins: only the start is reached.
pub fn start_table<'a>(
    alloc: Global,
    stack: u32,
    start: u32,
    sites: &'a [Site],
) -> Result<PointTable<'a>, AllocError>
    requires small { stack < 2 ^ 31 }
    requires few { length sites.now < 2 ^ 32 }
    requires starts { start < length sites.now }
    requires inside { (i : ℕ) (site : SiteValue) → slice_get sites.now i ≡ Some site
        → IsInside (length sites.now) site }
    ensures same { IfOk result (λ t. (t.stack ≡ stack) × (t.start ≡ start) × (t.sites.now ≡ sites.now)) }
    ensures points { IfOk result (λ t. ArePoints stack sites.now t.facts.items) }
    ensures first { IfOk result (λ t. map_of t.facts.items ≡ first_map (flow_of stack start sites.now)) }
{
    let mut facts = no_facts(alloc, sites.len())?;
    facts[start as usize] = Some(start_point(alloc));
    Ok(PointTable {
        alloc,
        stack,
        start,
        sites,
        facts,
    })
}
