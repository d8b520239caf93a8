//! What the facts of a path promise, and that runs follow the points of a function. Layers above cite these laws.

ghost use Rattle.std.specs.Prelude.{◌≡◌, ◌<◌, ◌≤◌, ◌+◌, ◌*◌, ◌^◌, ℕ, List, None, Option, Some, IfSome, slice_index};
ghost use Rattle.std.specs.Prelude.{ℤ, pos, neg_ℤ, ◌+ℤ◌, ◌-ℤ◌, ◌≤ℤ◌, ◌<ℤ◌, Bool, if◌then◌else◌};
ghost use Rattle.std.specs.Ordering.{int_eq};
ghost use Rattle.elf32_image.specs.Parts.{ImageValue};
ghost use Rattle.arm_isa.specs.declared.instruction.Insn.{Insn};
ghost use Rattle.arm_isa.specs.declared.instruction.Op.{Op};
ghost use Rattle.arm_isa.specs.Guarantees.{IsGuarded};
ghost use Rattle.arm_isa.specs.Ranges.{IsOp};
ghost use Rattle.fetch_timing.specs.declared.timing.Timing.{Timing};
ghost use Rattle.control_flow.specs.Instructions.{instruction_at};
ghost use Rattle.control_flow.specs.Points.{Point};
ghost use Rattle.control_flow.specs.Ways.{IsCollected, fault_at};
ghost use Rattle.arm_machine.specs.Effects.{effect};
ghost use Rattle.arm_machine.specs.Laws.{IfDone, IfStep};
ghost use Rattle.arm_machine.specs.Orderly.{HasConstants};
ghost use Rattle.arm_machine.specs.declared.start.RegisterValue.{RegisterValue};
ghost use Rattle.arm_machine.specs.Runs.{Returns};
ghost use Rattle.arm_machine.specs.Starts.{IsStart};
ghost use Rattle.arm_machine.specs.States.{State};
ghost use Rattle.arm_machine.specs.Steps.{step};
ghost use Rattle.path_facts.specs.Example.{example_image};
ghost use Rattle.path_facts.specs.Facts.{Facts, IsTrueOf, Location, Says, Source, fact_from, offset_of, value_in};
ghost use Rattle.path_facts.specs.Histories.{AreTrue, FactsHold, HasStack, IsFollowed, facts_after, literal_of};
ghost use Rattle.path_facts.specs.Offsets.{StandsFor, touches_at};
ghost use Rattle.path_facts.specs.Routes.{FollowsRoute};
ghost use Rattle.path_facts.specs.Sources.{is_at_word, moved, residue, source_of, touches};
ghost use Rattle.path_facts.specs.StackUse.{IsReturnUnproved};

/// Each instruction of an image lies in its ranges, and is none that decoding refuses.
pub fn instructions_are_guarded()
    ensures { (image : ImageValue) (a : ℕ) (insn : Insn) → instruction_at image a ≡ Some insn
        → IsOp insn.op × IsGuarded insn.op }
{}

/// Where the facts before an instruction are true and a source says what a value is after it, the fact of the source is
/// true of the value.
pub fn sources_give_facts()
    ensures { (start : List ℕ) (s : State) (f : Facts) (source : Source) (v : Option ℕ) → AreTrue start f s
        → Says (slice_index start 13) s f.marked source v → IsTrueOf start (fact_from f source) v }
{}

/// After a done instruction each location has the value that its source in the table says.
pub fn values_have_their_sources()
    ensures { (start : List ℕ) (stack : ℕ) → HasStack start stack → (image : ImageValue) (f : Facts) (s : State)
        (o : Op)
        → IsOp o → IsGuarded o → HasConstants image s.memory → FactsHold start f s → (location : Location)
        → IfDone (effect image s o) (λ next. Says (slice_index start 13) s f.marked
        (source_of stack s.cpu.pc (literal_of image s.cpu.pc o) (offset_of f) o location)
        (value_in (slice_index start 13) next location)) }
{}

/// Where facts hold before a step that doesn't stop, the facts after it hold, whether its instruction is done or
/// skipped.
pub fn facts_hold_after_steps()
    ensures { (start : List ℕ) (stack : ℕ) → HasStack start stack → (image : ImageValue) (t : Timing) (f : Facts)
        (s : State) (insn : Insn) → instruction_at image s.cpu.pc ≡ Some insn → HasConstants image s.memory
        → FactsHold start f s → IfStep (step image t s)
        (λ next event. FactsHold start (facts_after image stack s.cpu.pc insn.op event.done f) next) }
{}

/// Where no point of a function has a fault and each return brings its own return address, each returning run from a
/// start state is a route from the entry to the exit: as many ways as steps, and as many cycles as the ways cost with
/// the caches along them. At each point the facts of the history up to it hold, and from each state to the next leads
/// the machine's step, done or skipped as the route says.
pub fn runs_follow_routes()
    ensures { (image : ImageValue) (t : Timing) (entry stack : ℕ) (numbers : List RegisterValue) (s : State) (n c : ℕ)
        → entry < 2 ^ 32 → stack < 2 ^ 31 → IsFollowed image entry stack → IsStart image t entry stack numbers s
        → Returns image t (slice_index s.cpu.registers 14) s n c → FollowsRoute image t entry stack s n c }
{}

/// Offsets from r13's start count modulo 2^32 in the table. Where they aren't far from 0, signed offsets move alike and
/// touch the same words.
pub fn offsets_touch_the_same_words()
    ensures known { (o : ℤ) → neg_ℤ (pos (2 ^ 31)) ≤ℤ o → o <ℤ pos (2 ^ 31) → StandsFor (residue o) o }
    ensures moved { (up : Bool) (e c : ℕ) (z : ℤ) → e < 2 ^ 32 → c < 2 ^ 12 → neg_ℤ (pos (2 ^ 31)) ≤ℤ z
        → z <ℤ pos (2 ^ 31) → StandsFor e z → StandsFor (moved up e c) (if up then z +ℤ pos c else z -ℤ pos c) }
    ensures touched { (e bytes k : ℕ) (z : ℤ) → e < 2 ^ 32 → 0 < bytes → bytes ≤ 4 → 4 * k ≤ 2 ^ 30
        → neg_ℤ (pos (2 ^ 31 + 2 ^ 13)) ≤ℤ z → z ≤ℤ pos (2 ^ 31 + 2 ^ 13) → StandsFor e z
        → touches e bytes k ≡ touches_at z bytes k }
    ensures word { (e k : ℕ) (z : ℤ) → e < 2 ^ 32 → 4 * k ≤ 2 ^ 30 → neg_ℤ (pos (2 ^ 31 + 2 ^ 13)) ≤ℤ z
        → z ≤ℤ pos (2 ^ 31 + 2 ^ 13) → StandsFor e z → is_at_word e k ≡ int_eq (z +ℤ pos (4 * k)) (pos 0) }
{}

/// Where no point has a fault, runs are followed exactly where no return is unproved.
pub fn followed_unless_returns_are_unproved()
    ensures followed { (image : ImageValue) (entry stack : ℕ)
        → ((p : Point) → IsCollected image entry p → fault_at image entry p ≡ None)
        → ((p : Point) → IsReturnUnproved image entry stack p → ⊥) → IsFollowed image entry stack }
    ensures proved { (image : ImageValue) (entry stack : ℕ) → IsFollowed image entry stack → (p : Point)
        → IsReturnUnproved image entry stack p → ⊥ }
{}

/// The premises of `runs_follow_routes` can be met: a function that pushes, calls another one and returns meets them.
pub fn an_example_is_followed()
    ensures { IsFollowed example_image 0x8000 4096 }
{}
