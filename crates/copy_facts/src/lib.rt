//! What all paths to each point of a function say of registers and stack words.
//!
//! Of each point that control reaches there is a table ([`PointFacts`]): the cells of r0 to r14, and in ascending order
//! the stack words of which something is known. A point of compiled code needs well under a kilobyte, and a large frame
//! costs nothing until its words are stored. [`step_point`] gives the table after an instruction and looks only at the
//! words that are in the table or that the instruction may change; [`join_points`] joins two tables, or says that the
//! second brings nothing new. [`PointTable`] is the table of all points over which the search of `fact_lattice` merges.
//! [`frames`] searches, and then says whether the use of the stack can be followed at all points; [`known`], [`kept`]
//! and [`offset`] read what its tables say of a point, which is exactly what all histories of the point say
//! ([`frames_are_exact`]).
#![tactic(auto)]

mod following;
mod joining;
mod least;
mod lookup;
mod merging;
mod points;
mod queries;
mod sites;
mod start;
mod stepping;
mod tables;

pub use following::{FrameRefusal, frames};
pub use joining::join_points;
pub use least::Found;
pub use lookup::{find, put};
pub use merging::meet;
pub use points::PointTable;
pub use queries::{KnownFact, frames_are_exact, kept, known, offset};
pub use sites::Site;
pub use stepping::{offset_of, step_point};
pub use tables::{PointFacts, WordFacts};
