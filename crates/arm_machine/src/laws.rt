//! What a step of the machine keeps and changes, for every state and instruction. Layers above cite these laws and
//! unfold no step.

ghost use Rattle.std.specs.Prelude.{◌≡◌, ◌≢◌, ◌==◌, ◌%◌, ◌^◌, ◌<◌, ℕ, Bool, true, false, List, None, Some};
ghost use Rattle.elf32_image.specs.Parts.{ImageValue};
ghost use Rattle.arm_isa.specs.declared.instruction.Insn.{Insn};
ghost use Rattle.arm_isa.specs.declared.instruction.Op.{Op};
ghost use Rattle.arm_isa.specs.Conditions.{condition_passes};
ghost use Rattle.arm_isa.specs.Ranges.{IsOp};
ghost use Rattle.arm_isa.specs.Writes.{op_returns, op_writes};
ghost use Rattle.fetch_timing.specs.declared.timing.Timing.{Timing};
ghost use Rattle.control_flow.specs.Instructions.{instruction_at};
ghost use Rattle.control_flow.specs.Points.{Jump, jump_of, target};
ghost use Rattle.arm_cpu.specs.Registers.{next_pc};
ghost use Rattle.arm_machine.specs.declared.access.Size.{Size};
ghost use Rattle.arm_machine.specs.declared.access.Size.TheVariants as size;
ghost use Rattle.arm_machine.specs.Access.{bytes_of, number_at, store_stop, stored, with_bytes, word_holding};
ghost use Rattle.arm_machine.specs.Access.{is_aligned};
ghost use Rattle.arm_machine.specs.Effects.{effect};
ghost use Rattle.arm_machine.specs.Laws.{Holds, IfDone, IfStep, IsAllowed, Stays, brought, store_base};
ghost use Rattle.arm_machine.specs.Orderly.{HasConstants, IsOrderly};
ghost use Rattle.arm_machine.specs.Runs.{IsRunOf, Returns};
ghost use Rattle.arm_machine.specs.States.{Bytes, State};
ghost use Rattle.arm_machine.specs.Steps.{charge, outcome_of, step};

/// A step from an instruction of the image: done or skipped as its condition says, and charged with its cost.
#[tactic(auto, using(crate::proofs::StepLemmas::step_at))]
pub fn steps_are_charged()
    ensures { (image : ImageValue) (t : Timing) (s : State) (insn : Insn) (done : Bool)
        → instruction_at image s.cpu.pc ≡ Some insn → condition_passes insn.condition s.cpu.flags ≡ done
        → step image t s ≡ charge t s insn done (outcome_of image s insn done) }
{}

/// A done instruction writes no register but those that it names; memory and marks change by stores alone, and the
/// cache not at all.
#[tactic(auto, using(crate::proofs::StayLemmas::stays))]
pub fn others_stay()
    ensures { (image : ImageValue) (s : State) (o : Op) → IfDone (effect image s o) (Stays o s) }
{}

/// After a done instruction that doesn't write r15 the next one follows.
#[tactic(auto, using(crate::proofs::PcLemmas::goes_on))]
pub fn others_go_on()
    ensures { (image : ImageValue) (s : State) (o : Op)
        → IfDone (effect image s o) (λ next. op_writes o 15 ≡ false → next.cpu.pc ≡ next_pc s.cpu) }
{}

/// B and BL go to their target.
#[tactic(auto, using(crate::proofs::PcLemmas::jumps_to))]
pub fn branches_go_to_their_target()
    ensures { (image : ImageValue) (s : State) (o : Op) (jump : Jump) → jump_of o ≡ Some jump
        → IfDone (effect image s o) (λ next. next.cpu.pc ≡ target s.cpu.pc jump.words) }
{}

/// A step keeps words words and bytes bytes.
pub fn order_stays()
    ensures { (image : ImageValue) (t : Timing) (s : State) (insn : Insn) → instruction_at image s.cpu.pc ≡ Some insn
        → IsOp insn.op → IsOrderly s → IfStep (step image t s) (λ next event. IsOrderly next) }
{}

/// A step keeps the image's bytes where no program can write them.
pub fn constants_stay()
    ensures { (image : ImageValue) (t : Timing) (s : State) (insn : Insn) → instruction_at image s.cpu.pc ≡ Some insn
        → HasConstants image s.memory → IfStep (step image t s) (λ next event. HasConstants image next.memory) }
{}

/// After a store of a word the aligned word there has the stored value, and every other aligned word is as before.
#[tactic(auto, using(crate::proofs::StoreLemmas::word_there, crate::proofs::StoreLemmas::word_beside))]
pub fn stored_words_are_there()
    ensures there { (memory : Bytes) (a v : ℕ) → v < 2 ^ 32
        → number_at (with_bytes memory a (bytes_of size.Word v)) size.Word a ≡ Some v }
    ensures beside { (memory : Bytes) (a v q : ℕ) → a % 4 ≡ 0 → q % 4 ≡ 0 → q ≢ a
        → number_at (with_bytes memory a (bytes_of size.Word v)) size.Word q ≡ number_at memory size.Word q }
{}

/// A store of any size leaves every aligned word that doesn't hold its address.
#[tactic(auto, using(crate::proofs::StoreLemmas::other_word))]
pub fn other_words_stay()
    ensures { (memory : Bytes) (width : Size) (a v q : ℕ) → is_aligned width a ≡ true → q % 4 ≡ 0 → q ≢ word_holding a
        → number_at (with_bytes memory a (bytes_of width v)) size.Word q ≡ number_at memory size.Word q }
{}

/// A store that doesn't stop is aligned, writes no byte that the image keeps from programs, and touches a kept word
/// only by r13.
#[tactic(auto, using(crate::proofs::StoreLemmas::allowed))]
pub fn done_stores_are_allowed()
    ensures { (image : ImageValue) (memory : Bytes) (kept : List ℕ) (base : ℕ) (width : Size) (a : ℕ)
        → store_stop image memory kept base width a ≡ None → IsAllowed image kept base width a }
{}

/// A kept word is changed by no store but one by r13: any other stops. That is said of one store, and of what a done
/// instruction does whole.
#[tactic(auto, using(crate::proofs::StoreLemmas::kept_stays))]
pub fn kept_words_stay()
    ensures store { (image : ImageValue) (s : State) (width : Size) (base a v : ℕ) (saves : Bool) (q : ℕ) → (base == 13)
        ≡ false
        → store_stop image s.memory s.kept base width a ≡ None → q % 4 ≡ 0 → Holds q s.kept
        → number_at (stored s base width a v saves).memory size.Word q ≡ number_at s.memory size.Word q }
    ensures effect { (image : ImageValue) (s : State) (o : Op) (q : ℕ) → store_base o ≢ Some 13 → q % 4 ≡ 0 → Holds q s.kept
        → IfDone (effect image s o) (λ next. number_at next.memory size.Word q ≡ number_at s.memory size.Word q) }
{}

/// An instruction that returns brings to pc what register 14 holds, or a word of the stack.
pub fn returns_bring_their_word()
    ensures { (image : ImageValue) (s : State) (o : Op) → IsOrderly s → op_returns o ≡ true
        → IfDone (effect image s o) (λ next. brought s o ≡ Some next.cpu.pc) }
{}

/// A returning run by its numbers of steps and cycles is a list of steps whose cycles add up.
#[tactic(auto, using(crate::proofs::RunLemmas::run_list, crate::proofs::RunLemmas::list_run))]
pub fn returning_runs_are_lists()
    ensures list { (image : ImageValue) (t : Timing) (home : ℕ) (s : State) (n c : ℕ) → Returns image t home s n c
        → IsRunOf image t home s n c }
    ensures run { (image : ImageValue) (t : Timing) (home : ℕ) (s : State) (n c : ℕ) → IsRunOf image t home s n c
        → Returns image t home s n c }
{}
