//! Reports and the lines of their text, each written and read back.
//!
//! ```text
//! wsymb 1
//! function 0x00008000 stack 4096
//! timing 16 2 16 10 1 1 1 1 1 1 1 1 1 1 1 1 1
//! block 0 0x00008000 2
//! tree (seq (leaf 0 2 2048@0))
//! formula {12|2}
//! end
//! ```
#![tactic(auto)]

mod lines;
mod reading;
mod report;
mod writing;

pub use lines::read_line;
pub use reading::place_in;
pub use report::{About, Fact, Line, Proof, Report, ReportBlock, ReportLoop, ReportRow, Way};
pub use writing::{
    push_atom, push_block, push_fact, push_formula_line, push_function, push_line, push_loop,
    push_param, push_proof, push_row, push_timing, push_tree_line, push_version,
};
