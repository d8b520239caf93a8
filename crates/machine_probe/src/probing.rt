//! Probes.

ghost use Rattle.std.specs.Prelude.{◌≡◌, ℕ, ◌<◌, ◌^◌};

use crate::rules::{Go, Rule};
use arm_machine::Event;

/// Something that watches the steps of a run, and may stop it.
///
/// Contracts see its rule and its tally.
pub trait Probe: Drop {
    ghost use Rattle.machine_probe.specs.Weights.{Standing, go_by, seen};

    ghost standing: { Self → Standing };

    /// Adds an event's weight to the tally, and keeps the rule. It answers `Stop` exactly where the new tally is
    /// greater than the limit. It takes no memory.
    fn see(&mut self, event: &Event) -> Go
        requires { (standing self.old).tally < 2 ^ 127 }

        ensures counts { standing self.new ≡ seen event.now (standing self.old) }
        ensures answers { result ≡ go_by (standing self.new) };

    /// What it counts, and how far. It takes no memory.
    fn rule(&self) -> Rule
        ensures { result ≡ (standing self.now).rule };

    /// What it has counted. It takes no memory.
    fn tally(&self) -> u128
        ensures { result ≡ (standing self.now).tally };
}

/// A probe that counts by a rule.
#[derive(Clone, Copy)]
pub struct Counter {
    rule: Rule,
    tally: u128,
}

impl Counter {
    /// A counter that has counted nothing yet. It takes no memory.
    pub fn new(rule: Rule) -> Counter
        ensures { result ≡ record { rule = rule; tally = 0 } }
    {
        Counter { rule, tally: 0 }
    }
}

impl Probe for Counter {
    ghost standing = { λ c. record { rule = c.rule; tally = c.tally } };

    fn see(&mut self, event: &Event) -> Go {
        self.tally += u128::from(self.rule.weigh.of(event));
        if self.tally > self.rule.limit {
            Go::Stop
        } else {
            Go::On
        }
    }

    fn rule(&self) -> Rule {
        self.rule
    }

    fn tally(&self) -> u128 {
        self.tally
    }
}
