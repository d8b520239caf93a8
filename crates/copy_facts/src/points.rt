//! The table of all points, over which the search merges.

ghost use Rattle.std.specs.Prelude.{◌≡◌, ℕ, ◌<◌, ◌≤◌, length, slice_get, option_map, Some, None, get_or};
ghost use Rattle.std.specs.Prelude.{IfOk, IfSome, is_some, true};
ghost use Rattle.fact_lattice.specs.Cells.{one_offset, transferred};
ghost use Rattle.fact_lattice.specs.Flows.{is_placed};
ghost use Rattle.copy_facts.specs.declared.sites.Site.{Site as SiteValue};
ghost use Rattle.copy_facts.specs.Points.{flow_of, place_in, site_ways, step_in, ways_in};
ghost use Rattle.copy_facts.specs.Searching.{ArePoints, IsInside, map_of, weight_of_points};
ghost use Rattle.copy_facts.specs.Tables.{IsTable, state_of_point};

use crate::merging::meet;
use crate::sites::Site;
use crate::stepping::{offset_of, step_point};
use crate::tables::PointFacts;
use fact_lattice::Merging;
use point_steps::accesses_by_sp;
use point_tables::Targets;
use std::alloc::{AllocError, Global};

/// The points of a function, and what is known of each that was reached.
#[derive(Drop)]
pub struct PointTable<'a> {
    pub alloc: Global,
    pub stack: u32,
    pub start: u32,
    pub sites: &'a [Site],
    pub facts: Vec<Option<PointFacts>>,
}

/// Whether the way of a number is done, and the number to which it leads.
fn way_at(targets: &Targets, way: usize) -> (bool, u32)
    ensures way { (count : ℕ) (site : SiteValue) → site.targets ≡ targets.now → way < length (site_ways count site)
        → slice_get (site_ways count site) way ≡ Some (record { done = result.0; to = place_in count result.1 }) }
    ensures inside { (count : ℕ) (site : SiteValue) → site.targets ≡ targets.now → IsInside count site
        → result.1 ≤ count }
{
    match targets.done {
        Some(done) => {
            if way == 0 {
                (true, done)
            } else {
                match targets.skipped {
                    Some(skipped) => (false, skipped),
                    None => (false, 0),
                }
            }
        }
        None => match targets.skipped {
            Some(skipped) => (false, skipped),
            None => (false, 0),
        },
    }
}

/// The number of ways from a point.
fn number_of_ways(targets: &Targets) -> usize
    ensures { (count : ℕ) (site : SiteValue) → site.targets ≡ targets.now → result ≡ length (site_ways count site) }
{
    match targets.done {
        Some(_) => match targets.skipped {
            Some(_) => 2,
            None => 1,
        },
        None => match targets.skipped {
            Some(_) => 1,
            None => 0,
        },
    }
}

impl<'a> Merging for PointTable<'a> {
    ghost flow = { λ s. flow_of s.stack s.start s.sites.now };

    ghost map = { λ s. map_of s.facts.items };

    ghost weight = { λ s. weight_of_points s.stack s.facts.items };

    ghost sound = { λ s. ArePoints s.stack s.sites.now s.facts.items };

    fn is_placed(&self, point: u32) -> bool {
        match self.sites.get(point as usize) {
            None => true,
            Some(site) => {
                if accesses_by_sp(&site.insn) {
                    self.has_offset(point)
                } else {
                    true
                }
            }
        }
    }

    fn ways(&self, point: u32) -> usize {
        match self.sites.get(point as usize) {
            None => 0,
            Some(site) => number_of_ways(&site.targets),
        }
    }

    fn merge(&mut self, point: u32, way: usize) -> Result<Option<u32>, AllocError> {
        let (done, target) = self.way(point, way);
        if target as usize == self.sites.len() {
            return Ok(None);
        }
        let next = self.next(point, done)?;
        let changed = meet(self.alloc, self.stack, &mut self.facts, target, next)?;
        if changed { Ok(Some(target)) } else { Ok(None) }
    }
}

impl<'a> PointTable<'a> {
    /// Whether r13 is known at a point.
    fn has_offset(&self, point: u32) -> bool
        ensures { IfSome (map_of self.now.facts.items point) (λ m. result ≡ is_some (one_offset m)) }
    {
        match self.facts.get(point as usize) {
            Some(facts) => match facts {
                Some(facts) => offset_of(facts).is_some(),
                None => false,
            },
            None => false,
        }
    }

    /// A way of a point by its number.
    fn way(&self, point: u32, way: usize) -> (bool, u32)
        requires within { way < length (ways_in (length self.now.sites.now) (slice_get self.now.sites.now point)) }
        requires inside { (p : ℕ) (site : SiteValue) → slice_get self.now.sites.now p ≡ Some site
            → IsInside (length self.now.sites.now) site }
        ensures way { slice_get (ways_in (length self.now.sites.now) (slice_get self.now.sites.now point)) way
            ≡ Some (record { done = result.0; to = place_in (length self.now.sites.now) result.1 }) }
        ensures inside { result.1 ≤ length self.now.sites.now }
    {
        match self.sites.get(point as usize) {
            Some(site) => way_at(&site.targets, way),
            None => (false, 0),
        }
    }

    /// What is known after the instruction at a point.
    fn next(&self, point: u32, done: bool) -> Result<PointFacts, AllocError>
        requires sound { ArePoints self.now.stack self.now.sites.now self.now.facts.items }
        requires known { is_some (map_of self.now.facts.items point) ≡ true }
        requires there { is_some (slice_get self.now.sites.now point) ≡ true }
        ensures table { IfOk result IsTable }
        ensures stepped { IfOk result (λ t. IfSome (map_of self.now.facts.items point) (λ m. state_of_point t
            ≡ transferred self.now.stack (step_in self.now.stack (slice_get self.now.sites.now point) done
            (one_offset m)) m)) }
    {
        let Some(site) = self.sites.get(point as usize) else {
            return Err(AllocError);
        };
        match &self.facts[point as usize] {
            Some(facts) => {
                let table = step_point(self.alloc, self.stack, site, done, facts)?;
                Ok(table)
            }
            None => Err(AllocError),
        }
    }
}
