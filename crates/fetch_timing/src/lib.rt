//! What instructions and fetches cost: a table of cycles and the geometry of the instruction cache, the
//! files that such tables are read from, and the cache itself.
//!
//! `Timing::unit()` has 16 sets of 2 lines of 16 bytes, 10 cycles for a miss and 1 cycle for each
//! instruction.
#![tactic(auto)]

mod cache;
mod laws;
mod reading;
mod refusal;
mod set;
mod timing;

pub use cache::LruCache;
pub use laws::{
    empty_cache_is_a_cache, fetch_costs_what_the_timing_says, fetch_keeps_a_cache,
    fetch_leaves_what_the_timing_says, few_others_leave_a_line, file_limits_are_those_of_timings,
};
pub use reading::read_timing;
pub use refusal::TimingRefusal;
pub use timing::Timing;
