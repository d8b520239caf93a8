ghost use Rattle.std.specs.Prelude.{◌≡◌, neg_ℤ, IfOk, IfSome, option_and_then};

use crate::forms::Form;
use crate::term_list::Terms;
use crate::weighing::Weight;
use crate::{lowest, weighing};
use std::alloc::{AllocError, Global};
use std::marker::Model;

/// What a row speaks of, in the order in which its terms stand.
#[derive(Clone, Copy, PartialEq, Eq, PartialOrd, Ord)]
pub enum Var {
    /// Register 0 to 14, as a signed number.
    Register(u8),
    /// The word of the stack at a number of bytes from the stack pointer at the start, as a signed number.
    Word(i32),
    /// A parameter, by its place in the report's list.
    Param(u32),
    /// The stack pointer at the start, as a signed number.
    StartSp,
    /// How often a loop, by its number, has closed since it was last entered.
    Count(u32),
}

impl Default for Var {
    ghost use Rattle.linear_rows.specs.declared.rows.Var.TheVariants.{StartSp};

    ghost is_default = { λ v. v ≡ StartSp };

    /// The stack pointer at the start.
    fn default() -> Self {
        Var::StartSp
    }
}

/// A variable times a factor.
#[derive(Clone, Copy, Default)]
pub struct RowTerm {
    /// What is multiplied.
    pub var: Var,
    /// By how much: in a row not 0, and of a magnitude of at most 2^90.
    pub factor: i128,
}

/// The sum of some terms is at most a constant. Contracts see the terms and the constant.
///
/// The variables ascend, no factor is 0, the factors have no common divisor, and the magnitudes of the
/// numbers are at most 2^90. Up to four terms take no memory.
#[derive(Drop)]
pub struct Row {
    terms: Terms,
    constant: i128,
}

impl Model for Row {
    ghost use Rattle.linear_rows.specs.Rows.{Inequality};
    ghost use Rattle.linear_rows.specs.NormalForm.{IsRow};

    ghost Value = { Inequality };

    ghost view = { λ r. record { terms = r.terms; constant = r.constant } };

    ghost invariant = { λ r. IsRow r.terms r.constant };
}

impl Row {
    ghost use Rattle.linear_rows.specs.Terms.{IsAscending, IsCollected};
    ghost use Rattle.linear_rows.specs.Forms.{weighted_within};
    ghost use Rattle.linear_rows.specs.NormalForm.{row_of, IsRow};
    ghost use Rattle.linear_rows.specs.Steps.{signed};
    ghost use Rattle.linear_rows.specs.Combinations.{combined, substituted};
    ghost use Rattle.linear_rows.specs.Combinations.{IsRowOf, IsCombination, FollowsFrom, IsSubstitution};

    /// The row that says that a form is at most 0: divided by the common divisor of the factors, with the
    /// constant rounded down. A form without terms isn't divided.
    ///
    /// The terms must ascend by variable, with no factor 0. None where a number of the row would have a
    /// magnitude of more than 2^90.
    pub fn make(alloc: Global, form: &Form) -> Result<Option<Row>, AllocError>
        requires { IsCollected form.now.terms }
        ensures exact { IfOk result (λ row. row ≡ row_of form.now) }
        ensures holds { IfOk result (λ row. IfSome row (IsRowOf form.now)) }
    {
        Row::lowest(alloc, form.terms.as_slice(), form.constant)
    }

    /// `mine` times this row plus `theirs` times the other, divided by the common divisor of the factors,
    /// with the constant rounded down. It holds wherever both rows hold.
    ///
    /// None where a number of the row would have a magnitude of more than 2^90, or where a product, or a sum
    /// made for one variable or for the constant, has a magnitude of 2^127 or more before the division.
    pub fn combine(
        &self,
        alloc: Global,
        mine: u128,
        other: &Row,
        theirs: u128,
    ) -> Result<Option<Row>, AllocError>
        ensures exact { IfOk result (λ row. row ≡ combined self.now mine other.now theirs) }
        ensures holds { IfOk result (λ row. IfSome row (IsCombination self.now mine other.now theirs)) }
        ensures sound { IfOk result (λ row. IfSome row (FollowsFrom self.now other.now)) }
    {
        let first = self.terms.as_slice();
        let second = other.terms.as_slice();
        let a = Weight::times(mine);
        let b = Weight::times(theirs);
        let m = self.form_constant();
        let n = other.form_constant();
        Row::weighted(alloc, first, m, a, second, n, b)
    }

    /// This row with a form in place of a variable, divided by the common divisor of the factors, with the
    /// constant rounded down. It holds of a valuation where this row holds of the valuation with the form's
    /// value for the variable.
    ///
    /// The form's terms must ascend by variable, with no factor 0. None where a number of the row would have
    /// a magnitude of more than 2^90, or where a product of the variable's factor with a number of the form,
    /// or a sum made for one variable or for the constant, has a magnitude of 2^127 or more before the
    /// division.
    pub fn substitute(
        &self,
        alloc: Global,
        var: Var,
        form: &Form,
    ) -> Result<Option<Row>, AllocError>
        requires { IsCollected form.now.terms }
        ensures exact { IfOk result (λ row. row ≡ substituted self.now var form.now) }
        ensures holds { IfOk result (λ row. IfSome row (IsSubstitution self.now var form.now)) }
    {
        let terms = self.terms.as_slice();
        let factor = weighing::factor(terms, &var);
        let others = weighing::without(alloc, terms, &var)?;
        let xs = others.as_slice();
        let ys = form.terms.as_slice();
        let m = self.form_constant();
        let n = form.constant;
        Row::weighted(
            alloc,
            xs,
            m,
            Weight::times(1),
            ys,
            n,
            Weight::signed(factor),
        )
    }

    /// The constant of the form that is at most 0 where the row holds.
    fn form_constant(&self) -> i128
        ensures { result ≡ neg_ℤ self.now.constant }
    {
        -self.constant
    }

    /// The row of the weighted sum of two forms that is at most 0.
    fn weighted(
        alloc: Global,
        xs: &[RowTerm],
        m: i128,
        a: Weight,
        ys: &[RowTerm],
        n: i128,
        b: Weight,
    ) -> Result<Option<Row>, AllocError>
        requires first { IsAscending xs.now }
        requires second { IsAscending ys.now }
        ensures { IfOk result (λ row. row ≡ option_and_then row_of (weighted_within
            (signed a.is_negative a.magnitude) (record { terms = xs.now; constant = m })
            (signed b.is_negative b.magnitude) (record { terms = ys.now; constant = n }))) }
    {
        let Some(constant) = weighing::weigh_constants(a, m, b, n) else {
            return Ok(None);
        };
        match weighing::weigh(alloc, xs, a, ys, b)? {
            Some(terms) => Row::lowest(alloc, terms.as_slice(), constant),
            None => Ok(None),
        }
    }

    /// The row of a form that is at most 0.
    fn lowest(alloc: Global, terms: &[RowTerm], constant: i128) -> Result<Option<Row>, AllocError>
        requires { IsCollected terms.now }
        ensures { IfOk result (λ row. row ≡ row_of (record { terms = terms.now; constant = constant })) }
    {
        let divisor = lowest::divisor(terms);
        let Some(constant) = lowest::bound(constant, divisor) else {
            return Ok(None);
        };
        match lowest::divide(alloc, terms, divisor)? {
            Some(terms) => Ok(Some(Row { terms, constant })),
            None => Ok(None),
        }
    }

    /// The terms, in ascending order of their variables.
    pub fn terms(&self) -> &[RowTerm]
        ensures terms { result.now ≡ self.now.terms }
        ensures row { IsRow self.now.terms self.now.constant }
    {
        self.terms.as_slice()
    }

    /// What the sum of the terms is at most.
    pub fn constant(&self) -> i128
        ensures { result ≡ self.now.constant }
    {
        self.constant
    }
}
