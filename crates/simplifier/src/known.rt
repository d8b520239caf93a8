ghost use Rattle.std.specs.Prelude.{◌≡◌, ℕ, ◌-◌, length, All, Option, None, Some, slice_get, true, false};
ghost use Rattle.wsym_terms.specs.Extents.{Extent};
ghost use Rattle.wsym_terms.specs.Bounds.{AtomFits, exact_cost};
ghost use Rattle.wsym_terms.specs.declared.bounds.Bound.{Bound as BoundValue};
ghost use Rattle.simplifier.specs.Simplified.{IsPlain, are_fixed, has_none, known_in, known_of, number_of};

use wsym_terms::{Atom, Bound, Cost};

/// Whether an atom has no parameter.
fn is_fixed(atom: &Atom) -> bool
    ensures { result ≡ has_none atom.now.coefs }
{
    atom.coefs.as_slice().len() == 0
}

/// Whether no atom has a parameter.
fn are_fixed(atoms: &[Atom]) -> bool
    ensures { result ≡ are_fixed atoms.now }
{
    for atom in atoms {
        if !is_fixed(atom) {
            return false;
        }
    }
    true
}

/// A number of turns, where there is one.
#[tactic(auto, using(crate::proofs::Knowing::number_given, crate::proofs::Knowing::no_number, crate::proofs::Knowing::not_beyond))]
fn number_in(cost: Cost) -> Option<u128>
    ensures { (e : Extent) → cost ≡ exact_cost e → result ≡ number_of e }
{
    match cost {
        Cost::Fin(turns) => Some(turns),
        Cost::Beyond => None,
        Cost::Unbounded => None,
    }
}

/// The value of a bound whose atoms have no parameter.
#[tactic(auto, using(crate::proofs::Knowing::fixed_fit, crate::proofs::Knowing::known_fixed, crate::proofs::Knowing::known_free))]
fn known_in(bound: &Bound) -> Option<u128>
    requires { All IsPlain bound.now.atoms }
    ensures { result ≡ known_in bound.now }
{
    if !are_fixed(bound.atoms.as_slice()) {
        return None;
    }
    number_in(bound.value(&[]))
}

/// The value of the bound of a loop, where its atoms have no parameter.
pub(crate) fn known_at(bounds: &[Bound], id: u32) -> Option<u128>
    requires { All (λ (b : BoundValue). All IsPlain b.atoms) bounds.now }
    ensures { result ≡ known_of bounds.now id }
{
    match bounds.get((id as usize).saturating_sub(1)) {
        Some(bound) => known_in(bound),
        None => None,
    }
}
