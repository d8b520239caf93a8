//! Searches over graphs whose nodes are numbers, with exactly what they find.
//!
//! [`reach`] gives the nodes that a node reaches, or says that they are more than a limit; [`mark_reached`] marks
//! them, for searches that follow one another over one graph. Both go over any graph that can say a node's successors
//! ([`Links`], [`MarkLinks`]), so a search backwards is a search over a table of predecessors: [`sources`] makes it,
//! [`RowLinks`] goes over it. [`FlowGraph`] is the view of a flow graph of which the layers above speak.
//!
//! Memory grows with the nodes and edges that are met; time too, but for a factor that is the logarithm of the number
//! of nodes met, or none with marks. What is proved of graphs alone stands in `specs/` (walks, searches) and, as
//! calls without a body, in `laws`.
#![tactic(auto)]

mod flow_graph;
mod laws;
mod marks;
mod node_list;
mod reachable;
mod rows;
mod sweep;

pub use flow_graph::{FlowGraph, SuccessorRows, is_bounded};
pub use laws::{ascending_lists_agree, predecessors_make_a_cycle};
pub use marks::Marks;
pub use node_list::NodeList;
pub use reachable::{Links, RowLinks, SearchRefusal, add_row, reach};
pub use rows::{add_to_row, empty_rows, sources};
pub use sweep::{MarkLinks, mark_reached, mark_row};
