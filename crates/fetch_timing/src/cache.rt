//! The instruction cache of the machine.

ghost use Rattle.std.specs.Prelude.{◌≡◌, ◌%◌, length, IfOk};
ghost use Rattle.fetch_timing.specs.Caches.{cache_after, empty_cache, holds, lines_beside};
ghost use Rattle.fetch_timing.specs.Timings.{IsWithinLimits};

use crate::set::CacheSet;
use crate::timing::Timing;
use std::alloc::{AllocError, Global};
use std::marker::Model;

/// An instruction cache of some sets, each of which keeps the lines that were fetched last.
///
/// It is seen as the record of its ways and its sets, each the list of its lines, the newest first.
#[derive(Drop)]
pub struct LruCache {
    ways: u32,
    // The number of sets less one: their number is a power of two.
    mask: u32,
    sets: Vec<CacheSet>,
}

impl Model for LruCache {
    ghost use Rattle.fetch_timing.specs.Caches.{Cache};

    ghost Value = { Cache };

    ghost use Rattle.fetch_timing.specs.Tables.{IsTable};

    ghost view = { λ cache. record { ways = cache.ways; sets = cache.sets.items } };

    ghost invariant = { λ cache. IsTable cache.ways cache.mask cache.sets.items };
}

impl LruCache {
    /// The empty cache of a timing, which is within its limits. It takes all its room here.
    pub fn new(alloc: Global, timing: &Timing) -> Result<LruCache, AllocError>
        requires { IsWithinLimits timing.now }
        ensures { IfOk result (λ cache. cache ≡ empty_cache timing.now) }
    {
        let mut sets = Vec::with_capacity(alloc, timing.sets as usize)?;
        for _ in 0..timing.sets {
            sets.push(CacheSet::new())?;
        }
        Ok(LruCache {
            ways: timing.ways,
            mask: timing.sets - 1,
            sets,
        })
    }

    /// Fetches a line, the number of its place in memory, and says whether it was there. It becomes the
    /// newest of its set, and a full set loses the oldest. It takes no memory.
    #[tactic(auto, using(crate::proofs::Tabling::masked, crate::proofs::Tabling::in_table, crate::proofs::Tabling::few_at, crate::proofs::Tabling::table_after))]
    pub fn fetch(&mut self, line: u32) -> bool
        ensures hit { result ≡ holds line (lines_beside self.old line) }
        ensures after { self.new ≡ cache_after self.old line }
        ensures ways { self.new.ways ≡ self.old.ways }
        ensures sets { length self.new.sets ≡ length self.old.sets }
    {
        let ways = self.ways as usize;
        let place = (line & self.mask) as usize;
        self.sets[place].fetch(ways, line)
    }
}
