//! What layers above want of the table besides its code.

ghost use Rattle.std.specs.Prelude.{◌≡◌, ℕ, ℤ, Bool, Option, true, false};
ghost use Rattle.elf32_image.specs.Parts.{ImageValue};
ghost use Rattle.arm_isa.specs.declared.instruction.Op.{Op};
ghost use Rattle.path_facts.specs.Facts.{Facts, Location};
ghost use Rattle.path_facts.specs.Histories.{facts_after, without_marks_below};
ghost use Rattle.path_facts.specs.Sources.{mark_of, source_of};
ghost use Rattle.path_facts.specs.StackUse.{accesses_by_sp};

/// An instruction that is skipped changes no location: words lose their marks that stand below r13, and nothing else
/// happens.
pub fn skipped_instructions_leave_locations()
    ensures facts { (image : ImageValue) (stack a : ℕ) (o : Op) (f : Facts) (location : Location)
        → (facts_after image stack a o false f).fact location ≡ f.fact location }
    ensures marks { (image : ImageValue) (stack a : ℕ) (o : Op) (f : Facts)
        → facts_after image stack a o false f ≡ without_marks_below stack f }
{}

/// Where r13 is from its start matters only to instructions that access the stack by r13.
pub fn offsets_matter_to_accesses_by_sp()
    ensures sources { (stack a : ℕ) (literal : Option ℕ) (one other : Option ℤ) (o : Op) (location : Location)
        → accesses_by_sp o ≡ false
        → source_of stack a literal one o location ≡ source_of stack a literal other o location }
    ensures marks { (stack : ℕ) (one other : Option ℤ) (o : Op) (k : ℕ) (before : Bool)
        → accesses_by_sp o ≡ false → mark_of stack one o k before ≡ mark_of stack other o k before }
{}

/// No mark is lost because there was one before: a word that is marked after an instruction, whatever it was before, is
/// marked where it was marked.
pub fn marks_rise()
    ensures { (stack : ℕ) (offset : Option ℤ) (o : Op) (k : ℕ) → mark_of stack offset o k false ≡ true
        → mark_of stack offset o k true ≡ true }
{}
