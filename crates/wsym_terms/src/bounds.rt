ghost use Rattle.std.specs.Prelude.{◌≡◌, ℕ, ℤ, pos, ◌+◌, ◌*◌, ◌^◌, ◌≤◌, ◌<◌, ◌*ℤ◌, ◌+ℤ◌, ◌≤ℤ◌, All, length, slice_get, unwrap_or, unsigned_abs, true};
ghost use Rattle.wsym_terms.specs.Bounds.{AtomFits, CoefFits, atom_value, at_least_zero, bound_value, exact_cost, linear_sum, turns_of};
ghost use Rattle.wsym_terms.specs.Extents.{Finite, lesser};
ghost use Rattle.wsym_terms.specs.Costs.{is_in_range};
ghost use Rattle.std.specs.Int.{int_div_euclid};

use crate::costs::Cost;
use crate::names::Name;
use sqlite_items::Items;

/// A parameter of a report: the register that holds it when the function is entered, and the range of its
/// values, read as signed numbers.
#[derive(Drop)]
pub struct ParamRange {
    /// The name under which the formula speaks of it.
    pub name: Name,
    /// The register, 0 to 12.
    pub register: u8,
    /// The least value.
    pub low: i32,
    /// The greatest value, at least `low`.
    pub high: i32,
}

/// A parameter, by its place in the report's list, times a factor.
#[derive(Clone, Copy)]
pub struct Coef {
    /// The parameter's place, from 0.
    pub param: u32,
    /// Its factor, not 0, of a magnitude of at most 2^90.
    pub factor: i128,
}

/// One upper bound of the times that a loop closes: `max(0, floor((a·p + b) / d) + 1)`, with the factors
/// `a` of the parameters `p`, the constant `b` and the divisor `d`.
#[derive(Drop)]
pub struct Atom {
    /// The parameters with their factors, in ascending order of parameters.
    pub coefs: Items<Coef>,
    /// The constant, of a magnitude of at most 2^90.
    pub constant: i128,
    /// The divisor, from 1 to 2^90.
    pub divisor: i128,
}

/// How often a loop closes for each time that it is entered: at most the least value of the atoms. Without
/// atoms no bound is known.
#[derive(Drop)]
pub struct Bound {
    /// The atoms, each an upper bound of its own.
    pub atoms: Items<Atom>,
}

impl Bound {
    /// The least value of the atoms, at these values of the parameters in their order; Unbounded without
    /// atoms. It takes no memory.
    ///
    /// Each atom has at most 13 parameters, numbers of a magnitude of at most 2^90 and a divisor of at least 1.
    pub fn value(&self, values: &[i32]) -> Cost
        requires { All (AtomFits (length values.now)) self.now.atoms }
        ensures exact { result ≡ exact_cost (bound_value self.now values.now) }
        ensures in_range { is_in_range result ≡ true }
    {
        let mut least = None;
        for atom in self.atoms.as_slice() {
            least = Some(lesser_turns(least, atom.value(values)));
        }
        match least {
            Some(turns) => Cost::Fin(turns),
            None => Cost::Unbounded,
        }
    }
}

/// The lesser of a number, if there is one yet, and another.
fn lesser_turns(least: Option<u128>, turns: u128) -> u128
    ensures least { Finite result ≡ lesser (turns_of least) (Finite turns) }
    ensures within { result ≤ turns }
{
    match least {
        Some(least) => least.min(turns),
        None => turns,
    }
}

impl Atom {
    /// `max(0, floor((a·p + b) / d) + 1)`.
    fn value(&self, values: &[i32]) -> u128
        requires { AtomFits (length values.now) self.now }
        ensures exact { result ≡ atom_value values.now self.now }
        ensures small { result < 2 ^ 127 }
    {
        turns(
            linear(self.coefs.as_slice(), values) + self.constant,
            self.divisor,
        )
    }
}

/// `max(0, floor(sum / divisor) + 1)`.
fn turns(sum: i128, divisor: i128) -> u128
    requires sum { unsigned_abs sum ≤ 14 * 2 ^ 121 }
    requires divisor { pos 1 ≤ℤ divisor }
    ensures exact { result ≡ at_least_zero (int_div_euclid sum divisor +ℤ pos 1) }
    ensures small { result < 2 ^ 127 }
{
    let turns = sum.div_euclid(divisor) + 1;
    if turns < 0 { 0 } else { turns as u128 }
}

/// The factors times the values of their parameters, added up.
fn linear(coefs: &[Coef], values: &[i32]) -> i128
    requires few { length coefs.now ≤ 13 }
    requires fit { All (CoefFits (length values.now)) coefs.now }
    ensures exact { result ≡ linear_sum coefs.now values.now }
    ensures small { unsigned_abs result ≤ 13 * 2 ^ 121 }
{
    let mut sum = 0;
    for coef in coefs {
        sum += coef.times(values);
    }
    sum
}

impl Coef {
    /// The factor times the value of its parameter.
    fn times(&self, values: &[i32]) -> i128
        requires { CoefFits (length values.now) self.now }
        ensures exact { result ≡ self.now.factor *ℤ unwrap_or (slice_get values.now self.now.param) (pos 0) }
        ensures small { unsigned_abs result ≤ 2 ^ 121 }
    {
        product(self.factor, values[self.param as usize])
    }
}

/// The product of a factor and a value.
fn product(factor: i128, value: i32) -> i128
    requires { unsigned_abs factor ≤ 2 ^ 90 }
    ensures exact { result ≡ factor *ℤ value }
    ensures small { unsigned_abs result ≤ 2 ^ 121 }
{
    factor * i128::from(value)
}
