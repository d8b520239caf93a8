//! The graph of a function: its basic blocks, and all points that control reaches there.
//!
//! [`build`] collects the points of the function and puts them in order, refuses the function where a point has a
//! fault,
//! finds where control goes from each point and from which points it gets out, and cuts the points from which it does
//! into blocks. What a graph is stands in `specs/Graphs.antt`; that a function has one graph, or one refusal, is the
//! law
//! [`graphs_agree`].
//!
//! Time is the number of points times its logarithm.
#![tactic(auto)]

mod building;
mod flow;
mod graph;
mod laws;
mod parts;

pub use building::build;
pub use graph::{Block, BlockGraph, Context, FunctionGraph, GraphPoint, GraphRefusal, PointTables};
pub use laws::{graphs_agree, graphs_are_flows, routes_visit_blocks};
