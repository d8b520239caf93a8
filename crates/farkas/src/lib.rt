//! Whether linear inequalities entail another one over the rationals, with evidence for each answer.
//!
//! A proof is a list of multipliers, as Farkas' lemma promises: the multiplied rows add up to the row, or to
//! `0 <= -1`. A refutation is a rational point that meets the rows and breaks the row. Both can be checked without
//! knowing how they were found; they are found by Fourier and Motzkin's elimination,
//! of which `row_elimination` makes the steps.
//!
//! ```text
//! let answer = entails(alloc, rows, &row)?;      // x - y <= 0 and y <= 5 entail x <= 5: both rows, once
//! let nowhere = empty(alloc, rows)?;             // x <= 0 and -x <= -1 are empty: both rows, once
//! ```
#![tactic(auto)]

mod answers;
mod deciding;
mod entailment;
mod laws;
mod placing;
mod runs;

pub use answers::{Answer, Emptiness, RationalPoint};
pub use entailment::{empty, entails};
pub use laws::{
    empty_proofs_are_sound, proofs_are_sound, refutations_are_sound, witnesses_are_sound,
};
pub use row_elimination::Multiplier;
