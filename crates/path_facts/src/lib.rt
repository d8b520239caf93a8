//! What registers and stack words hold along a path of a function, and that runs follow its points.
//!
//! A fact says that a location holds an origin plus a constant. The definitions in `specs/` say which facts each
//! instruction leaves (`Sources.antt`), which a history of a function has (`Histories.antt`) and what a run along a
//! route is (`Routes.antt`). There is no code here but the type of origins: the laws are calls without
//! a body.
#![tactic(auto)]

mod laws;
mod origin;

pub use laws::{
    an_example_is_followed, facts_hold_after_steps, followed_unless_returns_are_unproved,
    instructions_are_guarded, offsets_touch_the_same_words, runs_follow_routes, sources_give_facts,
    values_have_their_sources,
};
pub use origin::Origin;
