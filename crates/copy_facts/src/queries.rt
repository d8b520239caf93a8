//! What all paths say of one point.

ghost use Rattle.std.specs.Prelude.{◌≡◌, ◌↔◌, ℕ, ℤ, ◌<◌, true, List, Option, Some, None, get_or, length, option_map};
ghost use Rattle.std.specs.Prelude.{IfSome};
ghost use Rattle.elf32_image.specs.Parts.{ImageValue};
ghost use Rattle.control_flow.specs.Points.{Point, entry_point};
ghost use Rattle.control_flow.specs.Routes.{Taken};
ghost use Rattle.path_facts.specs.Facts.{Fact, Location as LocationMeant, offset_of};
ghost use Rattle.path_facts.specs.Histories.{IsHistoryOf, facts_of};
ghost use Rattle.point_steps.specs.Meanings.{location_meant};
ghost use Rattle.fact_lattice.specs.Cells.{known_in};
ghost use Rattle.copy_facts.specs.declared.sites.Site.{Site as SiteValue};
ghost use Rattle.copy_facts.specs.declared.tables.PointFacts.{PointFacts as PointFactsValue};
ghost use Rattle.copy_facts.specs.Frames.{AreFramePoints, AreFrames, fact_meant, kept_at, known_at, offset_at};
ghost use Rattle.copy_facts.specs.Searching.{map_of};
ghost use Rattle.copy_facts.specs.Tables.{IsTable, state_of_point};

use crate::stepping::{cell_from, offset_of, word_facts};
use crate::tables::PointFacts;
use fact_lattice::Range;
use path_facts::Origin;
use point_steps::{Location, Source};

/// A location holds the origin plus the constant, on all paths.
#[derive(Clone, Copy, Debug, PartialEq, Eq, Drop)]
pub struct KnownFact {
    pub origin: Origin,
    pub constant: i32,
}

/// The fact of a cell of one constant.
fn fact_in(cell: Option<Range>) -> Option<KnownFact>
    ensures { option_map fact_meant result ≡ known_in cell }
{
    match cell {
        None => None,
        Some(range) => {
            if range.low == range.high {
                Some(KnownFact {
                    origin: range.origin,
                    constant: range.low,
                })
            } else {
                None
            }
        }
    }
}

/// What a table says that a location holds.
fn known_in_table(facts: &Option<PointFacts>, location: Location) -> Option<KnownFact>
    requires { IfSome facts.now IsTable }
    ensures { option_map fact_meant result
        ≡ known_at (option_map state_of_point facts.now) (location_meant location) }
{
    match facts {
        Some(facts) => fact_in(cell_from(facts, Source::Copy(location))),
        None => None,
    }
}

/// Whether a table says that a word is kept.
fn kept_in_table(facts: &Option<PointFacts>, word: u32) -> bool
    requires { IfSome facts.now IsTable }
    ensures { result ≡ kept_at (option_map state_of_point facts.now) word }
{
    match facts {
        Some(facts) => word_facts(facts, word).kept,
        None => false,
    }
}

/// What all paths to a point say that a location holds.
pub fn known(facts: &[Option<PointFacts>], point: u32, location: Location) -> Option<KnownFact>
    requires { (p : ℕ) (t : PointFactsValue) → get_or facts.now p None ≡ Some t → IsTable t }
    ensures { option_map fact_meant result ≡ known_at (map_of facts.now point) (location_meant location) }
{
    match facts.get(point as usize) {
        Some(facts) => known_in_table(facts, location),
        None => None,
    }
}

/// Whether on all paths to a point only stores by r13 change a stack word.
pub fn kept(facts: &[Option<PointFacts>], point: u32, word: u32) -> bool
    requires { (p : ℕ) (t : PointFactsValue) → get_or facts.now p None ≡ Some t → IsTable t }
    ensures { result ≡ kept_at (map_of facts.now point) word }
{
    match facts.get(point as usize) {
        Some(facts) => kept_in_table(facts, word),
        None => false,
    }
}

/// How far r13 is from its start at a point, where all paths agree.
pub fn offset(facts: &[Option<PointFacts>], point: u32) -> Option<i32>
    ensures { result ≡ offset_at (map_of facts.now point) }
{
    match facts.get(point as usize) {
        Some(facts) => match facts {
            Some(facts) => offset_of(facts),
            None => None,
        },
        None => None,
    }
}

/// What is known, kept, and r13's offset at a point are exactly what each history of the point gives.
pub fn frames_are_exact()
    ensures known { (stack start : ℕ) (sites : List SiteValue) (facts : List (Option PointFactsValue))
        → AreFrames stack start sites facts → (image : ImageValue) (entry : ℕ) (ps : List Point)
        → AreFramePoints image entry ps start sites → (i : ℕ) → i < length sites → (location : LocationMeant) (k : Fact)
        → (known_at (map_of facts i) location ≡ Some k) ↔ ((h : List (Taken Point))
        → IsHistoryOf image entry h (get_or ps i (entry_point entry)) → (facts_of image stack h).fact location
        ≡ Some k) }
    ensures kept { (stack start : ℕ) (sites : List SiteValue) (facts : List (Option PointFactsValue))
        → AreFrames stack start sites facts → (image : ImageValue) (entry : ℕ) (ps : List Point)
        → AreFramePoints image entry ps start sites → (i : ℕ) → i < length sites → (word : ℕ)
        → (kept_at (map_of facts i) word ≡ true) ↔ ((h : List (Taken Point))
        → IsHistoryOf image entry h (get_or ps i (entry_point entry)) → (facts_of image stack h).marked word ≡ true) }
    ensures offset { (stack start : ℕ) (sites : List SiteValue) (facts : List (Option PointFactsValue))
        → AreFrames stack start sites facts → (image : ImageValue) (entry : ℕ) (ps : List Point)
        → AreFramePoints image entry ps start sites → (i : ℕ) → i < length sites → (o : ℤ)
        → (offset_at (map_of facts i) ≡ Some o) ↔ ((h : List (Taken Point))
        → IsHistoryOf image entry h (get_or ps i (entry_point entry)) → offset_of (facts_of image stack h) ≡ Some o) }
{}
