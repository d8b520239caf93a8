//! Rows: linear inequalities with whole numbers between the places of a machine state, its parameters and
//! its loop counts.
//!
//! A row says that a sum of factors times variables is at most a constant: `1*%r1 -1*#1 <= 0` says that
//! register 1 holds at most the number of times that loop 1 has closed. Rows are kept in lowest terms, which
//! over the integers loses nothing: `2x <= 3` is `x <= 1`.
//!
//! ```text
//! let form = Form { terms: [RowTerm { var: x, factor: 2 }], constant: -3 };   // 2x - 3
//! let row = Row::make(alloc, &form)?;                                         // x <= 1
//! let sum = row.combine(alloc, 1, &other, 1)?;       // with -x + y <= 0 for the other row: y <= 1
//! let moved = row.substitute(alloc, x, &next)?;      // with z + 1 for the next form: z <= 0
//! ```
#![tactic(auto)]

mod forms;
mod laws;
mod lowest;
mod rows;
mod term_list;
mod weighing;

pub use forms::{ClosingRows, Form, NetChange, Test};
pub use laws::{
    combination_holds, combination_is_the_weighted_sum, divisor_is_greatest,
    rounding_keeps_integers, rows_are_in_normal_form, rows_are_their_own_normal_form,
    substitution_commutes,
};
pub use lowest::{greatest_common_divisor, quotient};
pub use rows::{Row, RowTerm, Var};
pub use term_list::Terms;
pub use weighing::{Weight, factor, fit, order, weigh, weigh_constants, weigh_number};
