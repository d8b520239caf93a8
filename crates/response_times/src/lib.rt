//! Response times of periodic tasks under fixed priorities on one processor, from their costs: the least window in
//! which a task is done with all that tasks of higher priority ask in it.
#![tactic(auto)]

mod tasks;
mod windows;

pub use tasks::{Task, responses};
