//! Fourier and Motzkin's elimination: a variable is eliminated from linear inequalities by combining each that bounds
//! it from above with each that bounds it from below. A derived inequality keeps how it follows from the given ones.
//!
//! ```text
//! let rows = ..;                                    // x - y <= 0, y <= 5
//! let step = eliminate(alloc, &y, rows)?;           // leaves x <= 5, which both rows give, once each
//! ```
#![tactic(auto)]

mod derived;
mod steps;
mod weights;

pub use derived::{Derived, are_same};
pub use steps::{Equality, Step, eliminate};
pub use weights::{Multiplier, Support, product_below_limit};
