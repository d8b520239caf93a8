//! Tasks and their response times.

ghost use Rattle.std.specs.Prelude.{◌≡◌, ◌≤◌, ◌<◌, IfOk, IfSome, IfNone, length};
ghost use Rattle.std.specs.List.{AllByRecursion};
ghost use Rattle.response_times.specs.Responses.{AreResponses, IsTask};

use crate::windows::{LONGEST, response};
use std::alloc::{AllocError, Global};

/// A periodic task: what one job of it costs at most, how far apart its releases are at least, and how long after its
/// release a job may be done at the latest, in cycles.
#[derive(Clone, Copy)]
pub struct Task {
    /// Below 2^127 cycles.
    pub cost: u128,
    /// 1 to 1,000,000,000 cycles.
    pub period: u64,
    /// 1 to 1,000,000,000 cycles.
    pub deadline: u64,
}

impl Task {
    /// The task of these numbers; `None` where one is past its limits.
    pub fn new(cost: u128, period: u64, deadline: u64) -> Option<Task>
        ensures some { IfSome result (λ t. IsTask t × (t ≡ record { cost = cost; period = period; deadline = deadline })) }
        ensures none { IfNone result (IsTask (record { cost = cost; period = period; deadline = deadline }) → ⊥) }
    {
        if cost >= 1 << 127
            || period == 0
            || period > LONGEST
            || deadline == 0
            || deadline > LONGEST
        {
            return None;
        }
        Some(Task {
            cost,
            period,
            deadline,
        })
    }
}

/// The response time of each task, in cycles: the least window in which it is done once with all jobs of the tasks
/// before it in the list, which have higher priority, where each of them is released at the window's start. `None`
/// where no such window ends by the task's deadline.
///
/// # Errors
///
/// Want of memory.
pub fn responses(alloc: Global, tasks: &[Task]) -> Result<Vec<Option<u64>>, AllocError>
    requires few { length tasks.now ≤ 64 }
    requires tasks { AllByRecursion IsTask tasks.now }
    ensures { IfOk result (λ found. AreResponses tasks.now found.items) }
{
    let mut found = Vec::new(alloc);
    let mut place = 0;
    while place < tasks.len() {
        found.push(response(&tasks[..place], &tasks[place]))?;
        place += 1;
    }
    Ok(found)
}
