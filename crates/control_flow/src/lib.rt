//! Which instructions stand in an image, and how control flows between them.
//!
//! [`fetch`] takes the instruction at an address. The definitions in `specs/` say what a point of a function is
//! (`Points.antt`: an address with the return addresses of the calls that are open there), where control may go from it
//! and why it can't be followed (`Ways.antt`), and what histories and routes are (`Routes.antt`). The laws tie them
//! together.
#![tactic(auto)]

mod control;
mod instructions;
mod laws;

pub use control::{Control, Fault, called_before, control_at};
pub use instructions::{FetchFault, fetch};
pub use laws::{
    collected_points_have_histories, controls_give_ways_and_faults, faults_have_no_way,
};
