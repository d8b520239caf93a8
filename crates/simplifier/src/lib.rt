//! The normal form of a formula: constants are added, merged and folded where the bounds allow it.
//!
//! ```text
//! (sum {12|2} (alt (sum) (sum {11|1})) {11|1})    is {34|4}
//! (power 1 {34|4}), where loop 1 turns thrice       is {42|12}
//! ```
//!
//! Each node of the formula is put into normal form once. The normal form has the value of the formula for all
//! values of the parameters and each number of executions.
#![tactic(auto)]

mod constants;
mod flattening;
mod folds;
mod known;
mod laws;
mod placing;
mod simple;

pub use laws::{
    formulas_of_trees_are_small, normal_forms_are_no_larger, normal_forms_have_no_more_counts,
    normal_forms_keep_their_value, simplified_terms_keep_their_value,
};
pub use simple::simplify;
