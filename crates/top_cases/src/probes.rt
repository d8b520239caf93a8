//! Probes that lines ask for.

ghost use Rattle.std.specs.Prelude.{◌≡◌, ◌-◌, ◌≤◌, ◌<◌, ◌^◌, true, length, map};
ghost use Rattle.machine_probe.specs.Weights.{AreReady};

use arm_isa::Class;
use arm_machine::Event;
use machine_probe::{Counter, Go, Probe, Rule, Weigh};
use std::rc::Rc;

/// The greatest tally with which a run may begin.
pub const MOST: u128 = 1 << 126;

/// A probe that counts steps without a limit, from a tally on.
#[derive(Drop)]
pub struct Late {
    pub tally: u128,
}

impl Probe for Late {
    ghost use Rattle.machine_probe.specs.declared.rules.Weigh.TheVariants.{Steps};

    ghost standing = { λ p. record { rule = record { weigh = Steps; limit = 2 ^ 128 - 1 }; tally = p.tally } };

    fn see(&mut self, _event: &Event) -> Go {
        self.tally += 1;
        Go::On
    }

    fn rule(&self) -> Rule {
        Rule {
            weigh: Weigh::Steps,
            limit: u128::MAX,
        }
    }

    fn tally(&self) -> u128 {
        self.tally
    }
}

/// A probe that holds a token as long as it is there.
#[derive(Drop)]
pub struct Holder {
    pub counter: Counter,
    pub _token: Rc<u32>,
}

impl Probe for Holder {
    ghost standing = { λ h. record { rule = h.counter.rule; tally = h.counter.tally } };

    fn see(&mut self, event: &Event) -> Go {
        self.counter.see(event)
    }

    fn rule(&self) -> Rule {
        self.counter.rule()
    }

    fn tally(&self) -> u128 {
        self.counter.tally()
    }
}

/// The rule that a word spells: what is counted, and after `:` the greatest tally that stops nothing.
pub fn rule_of(word: &str) -> Rule {
    let (counted, limit) = word.split_once(':').unwrap_or((word, ""));
    let weigh = match counted {
        "misses" => Weigh::Misses,
        "cycles" => Weigh::Cycles,
        "branches" => Weigh::OfClass(Class::Branch),
        _ => Weigh::Steps,
    };
    Rule {
        weigh,
        limit: limit.parse::<u128>().unwrap_or(u128::MAX),
    }
}

/// Whether a probe may be shown a run.
fn is_ready(probe: &Box<dyn Probe>) -> bool
    ensures { result ≡ true → (standing probe.now).tally ≤ 2 ^ 126 }
{
    probe.tally() <= MOST
}

/// Whether a run may begin with these probes.
pub fn are_ready(probes: &[Box<dyn Probe>]) -> bool
    ensures few { result ≡ true → length probes.now < 2 ^ 32 }
    ensures small { result ≡ true → AreReady (map standing probes.now) }
{
    for probe in probes {
        if !is_ready(probe) {
            return false;
        }
    }
    probes.len() < 1 << 32
}
