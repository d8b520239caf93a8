//! What all paths say of the points of a function, from its graph and its image.
//!
//! [`function_frames`] makes of each point of a graph what the merging of path facts needs of it, and merges. Where it
//! answers, runs of the function follow its points.
#![tactic(auto)]

mod frames;
mod points;

pub use frames::{Frames, function_frames};
