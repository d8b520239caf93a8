//! The report of a function: its blocks and loops from the graph and the nest, with the tree and the formula that are
//! handed in. The laws say that it is the report of the analysis that the graph and its loops make, and that with the
//! tree of this analysis and its formula it keeps what a report promises.
#![tactic(auto)]

mod laws;
mod parts;

pub use laws::{graph_reports_are_kept, reports_describe_analyses};
pub use parts::unbounded_report;
