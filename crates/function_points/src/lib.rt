//! The points of a function: the addresses to which control comes from its entry, each with the calls that are open.
//!
//! [`collect_points`] finds them all, or says that they are more than a limit. A point's list of open calls has a
//! number ([`Contexts`]): lists share what they begin with, so that a point takes eight bytes however many calls are
//! open. What a point is, and where control goes from it, are definitions of `control_flow`.
//!
//! Time is the number of points times the logarithm of it, and for each call the number of open ones besides.
#![tactic(auto)]

mod collect;
mod contexts;
mod expand;
mod found_points;
mod laws;

pub use collect::{FunctionPoints, collect_points};
pub use contexts::Contexts;
pub use expand::is_recursive;
pub use found_points::FoundPoints;
pub use laws::contexts_agree;
