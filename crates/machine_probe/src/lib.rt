//! Runs of the reference machine with probes that watch each step.
#![tactic(auto)]

mod laws;
mod probing;
mod rules;
mod running;

pub use laws::{returned_runs_are_lists, runs_agree};
pub use probing::{Counter, Probe};
pub use rules::{Go, Rule, Weigh};
pub use running::{RunEnd, run};
