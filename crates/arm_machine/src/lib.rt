//! The reference machine, which every bound of a report speaks of: its state, its steps and stops, what they
//! cost, the states in which a function starts, and its returning runs. They are definitions; a small machine
//! runs them.
#![tactic(auto)]

mod access;
mod blocks;
mod effects;
mod events;
mod laws;
mod machine;
mod memory;
mod start;
mod state;
mod stepping;
mod stops;
mod transfers;

pub use access::Size;
pub use arm_cpu::{Cpu, Stop};
pub use events::Event;
pub use laws::{
    branches_go_to_their_target, constants_stay, done_stores_are_allowed, kept_words_stay,
    order_stays, other_words_stay, others_go_on, others_stay, returning_runs_are_lists,
    returns_bring_their_word, steps_are_charged, stored_words_are_there,
};
pub use machine::Machine;
pub use start::{RegisterValue, StartRefusal};
pub use stops::StepEnd;
pub use transfers::Transfer;
