//! Laws of timings and caches, as calls without a body.

ghost use Rattle.std.specs.Prelude.{◌≡◌, ◌↔◌, ◌<◌, ℕ, List, length, if◌then◌else◌};
ghost use Rattle.std.specs.List.{AllByRecursion};
ghost use Rattle.fetch_timing.specs.declared.timing.Timing.{Timing};
ghost use Rattle.fetch_timing.specs.Caches.{Cache, IsCache, IsCacheOf, after_fetch, cache_after, empty_cache, holds, lines_beside, penalty};
ghost use Rattle.fetch_timing.specs.Staying.{Spares, StandsIn, after_fetches};
ghost use Rattle.fetch_timing.specs.TimingFiles.{AreAllowed, fields, numbers_of};
ghost use Rattle.fetch_timing.specs.Timings.{IsWithinLimits};

/// The numbers that a timing file may have at its names are exactly those within the limits.
pub fn file_limits_are_those_of_timings()
    ensures { (t : Timing) → length t.classes ≡ 11 → (AreAllowed fields (numbers_of t) ↔ IsWithinLimits t) }
{}

/// The empty cache of a timing is a cache of that timing.
pub fn empty_cache_is_a_cache()
    ensures { (t : Timing) → IsWithinLimits t → IsCacheOf t (empty_cache t) }
{}

/// After a fetch a cache of a timing is one still: as many sets and ways, in each set distinct lines of this
/// set, and no more than the ways.
pub fn fetch_keeps_a_cache()
    ensures { (t : Timing) (cache : Cache) (line : ℕ) → IsWithinLimits t → IsCacheOf t cache → IsCacheOf t (cache_after cache line) }
{}

/// A cache of a timing is left by a fetch as that timing says.
pub fn fetch_leaves_what_the_timing_says()
    ensures { (t : Timing) (cache : Cache) (line : ℕ) → IsCacheOf t cache → (cache_after cache line).sets ≡ after_fetch t cache.sets line }
{}

/// A fetch into a cache of a timing costs nothing where the line was there, and a miss where it wasn't.
pub fn fetch_costs_what_the_timing_says()
    ensures { (t : Timing) (cache : Cache) (line : ℕ) → IsCacheOf t cache →
        penalty t cache.sets line ≡ (if holds line (lines_beside cache line) then 0 else t.miss) }
{}

/// A line stays in the cache while fewer others of its set are fetched than a set has ways.
///
/// - `first`: once it is fetched, no other line of its set is newer.
/// - `stays`: where only some of fewer others than the ways are newer, the fetch of one of these, of the line itself or
///   of a line of another set leaves it so.
/// - `all`: and so do all fetches of such lines, one after another.
/// - `hit`: fetched then, the line costs no miss.
pub fn few_others_leave_a_line()
    ensures first { (t : Timing) (sets : List (List ℕ)) (others : List ℕ) (line : ℕ) →
        IsWithinLimits t → IsCache t sets → StandsIn t (after_fetch t sets line) others line }
    ensures stays { (t : Timing) (sets : List (List ℕ)) (others : List ℕ) (line fetch : ℕ) →
        IsWithinLimits t → IsCache t sets → length others < t.ways → Spares t others line fetch →
        StandsIn t sets others line → StandsIn t (after_fetch t sets fetch) others line }
    ensures all { (t : Timing) (sets : List (List ℕ)) (others : List ℕ) (line : ℕ) (fetches : List ℕ) →
        IsWithinLimits t → IsCache t sets → length others < t.ways → AllByRecursion (Spares t others line) fetches →
        StandsIn t sets others line → StandsIn t (after_fetches t sets fetches) others line }
    ensures hit { (t : Timing) (sets : List (List ℕ)) (others : List ℕ) (line : ℕ) →
        StandsIn t sets others line → penalty t sets line ≡ 0 }
{}
