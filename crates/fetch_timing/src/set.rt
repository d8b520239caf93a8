//! One set of the instruction cache.

ghost use Rattle.std.specs.Prelude.{◌≡◌, ◌<◌, ◌≤◌, [], length, take};
ghost use Rattle.fetch_timing.specs.Caches.{AreDistinct, fetched, holds};
ghost use Rattle.fetch_timing.specs.Tables.{pushed};

use std::marker::Model;

/// The lines that a set holds at most.
const MOST_WAYS: usize = 16;

/// The lines of one set, the newest first, of which there are 16 at most. They all differ.
#[derive(Drop)]
pub(crate) struct CacheSet {
    // The lines, and then places that aren't used.
    places: [u32; 16],
    used: u32,
}

impl Model for CacheSet {
    ghost use Rattle.std.specs.Prelude.{ℕ, ◌≤◌, List, take};

    ghost Value = { List ℕ };

    ghost use Rattle.fetch_timing.specs.Caches.{AreDistinct};

    ghost view = { λ set. take set.used set.places };

    ghost invariant = { λ set. (set.used ≤ 16) × AreDistinct (take set.used set.places) };
}

impl CacheSet {
    /// A set without lines.
    pub(crate) fn new() -> CacheSet
        ensures { result ≡ [] }
    {
        CacheSet {
            places: [0; MOST_WAYS],
            used: 0,
        }
    }

    /// Fetches a line and says whether it was there. It becomes the newest, and a set of `ways` lines
    /// loses the oldest.
    #[tactic(auto, using(crate::proofs::Fetching::distinct_after, crate::proofs::Fetching::front_of_places))]
    pub(crate) fn fetch(&mut self, ways: usize, line: u32) -> bool
        requires some { 1 ≤ ways }
        requires within { ways ≤ 16 }
        requires few { length self.old ≤ ways }
        ensures hit { result ≡ holds line self.old }
        ensures after { self.new ≡ fetched ways line self.old }
    {
        let used = self.used as usize;
        let outcome = fetch(&mut self.places[..ways], used, line);
        self.used = outcome.used as u32;
        outcome.hit
    }
}

/// What a fetch finds, and how many places are used after it.
#[derive(Clone, Copy)]
struct Outcome {
    hit: bool,
    used: usize,
}

/// Fetches a line into places of which the first `used` are used.
#[tactic(auto, using(crate::proofs::Fetching::fetched_newest, crate::proofs::Fetching::fetched_hit, crate::proofs::Fetching::fetched_room, crate::proofs::Fetching::fetched_full))]
fn fetch(places: &mut [u32], used: usize, line: u32) -> Outcome
    requires some { 0 < length places.old }
    requires within { used ≤ length places.old }
    requires distinct { AreDistinct (take used places.old) }
    ensures hit { result.hit ≡ holds line (take used places.old) }
    ensures after { take result.used places.new ≡ fetched (length places.old) line (take used places.old) }
    ensures within { result.used ≤ length places.old }
    ensures length { length places.new ≡ length places.old }
{
    if used > 0 && places[0] == line {
        return Outcome { hit: true, used };
    }
    if has(&places[..used], line) {
        push(&mut places[..used], line, line);
        return Outcome { hit: true, used };
    }
    if used < places.len() {
        push(&mut places[..used + 1], line, line);
        Outcome {
            hit: false,
            used: used + 1,
        }
    } else {
        push(places, line, line);
        Outcome { hit: false, used }
    }
}

/// Whether a line is one of these.
fn has(lines: &[u32], line: u32) -> bool
    ensures { result ≡ holds line lines.now }
{
    lines.iter().any(|other| *other == line)
}

/// Puts a value into the first place, what was there into the next, and so on, up to the place that had
/// the line.
fn push(places: &mut [u32], carried: u32, line: u32)
    ensures { places.new ≡ pushed carried line places.old }
{
    match places.split_first_mut() {
        Some((first, rest)) => {
            let old = *first;
            *first = carried;
            if old != line {
                push(rest, old, line);
            }
        }
        None => {}
    }
}
