//! The points of a function in their order.
//!
//! [`arrange`] collects the points, numbers their lists of open calls in order, and then the points by these numbers.
//! The lists are a tree, each the child of the one with one return address less; a walk over it that takes children in
//! order of what they add gives the order of the lists, and no list is ever written out.
//!
//! Time is the number of points times its logarithm.
#![tactic(auto)]

mod arrangement;
mod families;
mod preorder;
mod ranks;

pub use arrangement::{Arrangement, arrange, arranged_points_ascend};
