//! Laws of runs, as calls without a body.

ghost use Rattle.std.specs.Prelude.{◌≡◌, ℕ, List, length, map};
ghost use Rattle.arm_machine.specs.declared.events.Event.{Event};
ghost use Rattle.arm_machine.specs.Machines.{MachineValue};
ghost use Rattle.arm_machine.specs.Runs.{RunsHome, Stepped};
ghost use Rattle.arm_machine.specs.Starting.{home};
ghost use Rattle.machine_probe.specs.declared.running.RunEnd.TheVariants as end;
ghost use Rattle.machine_probe.specs.Agreement.{AgreeOn};
ghost use Rattle.machine_probe.specs.ProbedRuns.{Ran, all_cycles};
ghost use Rattle.machine_probe.specs.Weights.{Standing};

/// Two runs of one machine, with the same number of steps allowed and the same probes, of which neither ends for want
/// of memory, end for the same reason, with the probes and the machine in the same state.
pub fn runs_agree()
    ensures { (old : MachineValue) (steps : ℕ) (before : List Standing) → AgreeOn old steps before }
{}

/// The events of a run that has returned are those of a returning run of the machine as a list of steps, whose number
/// and cycles the run says.
pub fn returned_runs_are_lists()
    ensures { (old now : MachineValue) (steps n c : ℕ) (before probes : List Standing) (events : List Event)
        → Ran old now steps before probes (end.Returned n c) events
        → (xs : List Stepped) × RunsHome old.image old.timing home old.state xs × (map (λ x. x.event) xs ≡ events)
        × (length events ≡ n) × (all_cycles events ≡ c) }
{}
