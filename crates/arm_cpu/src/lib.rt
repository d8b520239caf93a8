//! The registers of the processor, and the instructions that touch nothing else: data processing with its
//! shifter, and multiplications.
//!
//! ```rust
//! use arm_cpu::{Cpu, compute};
//! use arm_isa::{DataProcessing, Opcode, Operand};
//!
//! let add_one = DataProcessing { // ADD r0,r0,#1
//!     opcode: Opcode::Add,
//!     set_flags: false,
//!     rn: 0,
//!     rd: 0,
//!     operand: Operand::Value { value: 1, rotated: false },
//! };
//! compute(&mut cpu, add_one)?;
//! ```
//!
//! What each instruction does is a definition in `specs/`, after the ARM Architecture Reference Manual.
#![tactic(auto)]

mod cpu;
mod products;
mod shifts;
mod stops;
mod sums;

pub use cpu::{Cpu, PC};
pub use products::{multiply, multiply_long};
pub use shifts::shift_value;
pub use stops::Stop;
pub use sums::{Sum, compute};
