ghost use Rattle.std.specs.Prelude.{◌≡◌, ◌≢◌, ◌≤ℤ◌, ◌↔◌, ℕ, ℤ, pos, [], List, IfSome, Some};
ghost use Rattle.std.specs.Int.{◌∣◌};
ghost use Rattle.linear_rows.specs.declared.rows.Var.{Var as Variable};
ghost use Rattle.linear_rows.specs.declared.rows.RowTerm.{RowTerm as Term};
ghost use Rattle.linear_rows.specs.declared.forms.Form.{Form as LinearForm};
ghost use Rattle.linear_rows.specs.Rows.{Inequality, Valuation, Holds, changed};
ghost use Rattle.linear_rows.specs.Terms.{IsAscending, IsCollected, HasNoZero};
ghost use Rattle.linear_rows.specs.Forms.{value_at, form_of};
ghost use Rattle.linear_rows.specs.NormalForm.{row_of, divisor_of as common_divisor_of, DividesEach, IsRow};
ghost use Rattle.linear_rows.specs.Combinations.{combined, substituted, IsCombinationAt};

/// Rounding loses no integer valuation and lets none in: the row of a form holds of exactly the valuations
/// at which the form is at most 0.
pub fn rounding_keeps_integers()
    ensures { (v : Valuation) (form : LinearForm) → HasNoZero form.terms →
        IfSome (row_of form) (λ row. Holds v row ↔ (value_at v form ≤ℤ pos 0)) }
{}

/// The row of a form with its terms collected is in normal form.
pub fn rows_are_in_normal_form()
    ensures { (form : LinearForm) → IsCollected form.terms →
        IfSome (row_of form) (λ row. IsRow row.terms row.constant) }
{}

/// A row is its own normal form: the row of its form is the row itself.
pub fn rows_are_their_own_normal_form()
    ensures { (row : Inequality) → IsRow row.terms row.constant → row_of (form_of row) ≡ Some row }
{}

/// What the factors are divided by divides each of them, and each number that divides them all divides it.
pub fn divisor_is_greatest()
    ensures { (ts : List Term) → DividesEach (common_divisor_of ts) ts
        × ((d : ℕ) → ts ≢ [] → DividesEach d ts → d ∣ common_divisor_of ts) }
{}

/// A combination holds of exactly the integer valuations of which the weighted sum of its two rows holds.
pub fn combination_is_the_weighted_sum()
    ensures { (v : Valuation) (row other : Inequality) (a b : ℕ) →
        IfSome (combined row a other b) (IsCombinationAt v row a other b) }
{}

/// A combination holds wherever both its rows hold.
pub fn combination_holds()
    ensures { (v : Valuation) (row other : Inequality) (a b : ℕ) → Holds v row → Holds v other →
        IfSome (combined row a other b) (Holds v) }
{}

/// Substitution commutes with evaluation: the row with a form in place of a variable holds where the row
/// holds with the form's value for the variable.
pub fn substitution_commutes()
    ensures { (v : Valuation) (row : Inequality) (x : Variable) (form : LinearForm) → IsAscending row.terms →
        IfSome (substituted row x form) (λ new. Holds v new ↔ Holds (changed v x (value_at v form)) row) }
{}
