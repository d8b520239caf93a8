ghost use Rattle.std.specs.Prelude.{ℕ, List};
ghost use Rattle.linear_rows.specs.Rows.{Inequality};
ghost use Rattle.row_elimination.specs.declared.weights.Multiplier.{Multiplier as Factor};
ghost use Rattle.farkas.specs.declared.answers.RationalPoint.{RationalPoint as Place};
ghost use Rattle.farkas.specs.Points.{Entail, AreEmpty};
ghost use Rattle.farkas.specs.Evidence.{IsProof, IsEmptyProof, IsRefutation, IsWitness};

/// Multipliers that prove a row show that the rows entail it, over all rational points.
pub fn proofs_are_sound()
    ensures { (rows : List Inequality) (row : Inequality) (ms : List Factor) (divisor : ℕ) →
        IsProof rows row ms divisor → Entail rows row }
{}

/// Multipliers whose sum has no terms and a negative constant show that no rational point meets all rows.
pub fn empty_proofs_are_sound()
    ensures { (rows : List Inequality) (ms : List Factor) → IsEmptyProof rows ms → AreEmpty rows }
{}

/// A point that meets the rows and breaks a row shows that they don't entail it.
pub fn refutations_are_sound()
    ensures { (rows : List Inequality) (row : Inequality) (p : Place) → IsRefutation rows row p → Entail rows row → ⊥ }
{}

/// A point that meets the rows shows that they aren't empty.
pub fn witnesses_are_sound()
    ensures { (rows : List Inequality) (p : Place) → IsWitness rows p → AreEmpty rows → ⊥ }
{}
