//! The least window of a task.
//!
//! A window is sought from below. What all windows are at least is known from the share of the processor that the
//! tasks of higher priority take: of each 2^64 cycles at least the sum of their shares. Where that is all of them there
//! is no window but for a task that costs nothing. From there on each step goes to what is asked in the present window,
//! which no window is below.

ghost use Rattle.std.specs.Prelude.{◌≡◌, ◌≤◌, ◌<◌, ◌+◌, ◌-◌, ◌*◌, ◌^◌, ℕ, min, length, IfSome, IfNone};
ghost use Rattle.std.specs.List.{AllByRecursion};
ghost use Rattle.response_times.specs.Responses.{IsResponse, IsTask, IsWindow, demand, releases};
ghost use Rattle.response_times.specs.Shares.{IsBelowWindows, share_of, shares_of};

use crate::tasks::Task;

/// The greatest deadline and period, in cycles.
pub(crate) const LONGEST: u64 = 1_000_000_000;

/// The number of parts in which the processor's time is shared.
const WHOLE: u128 = 1 << 64;

/// The part of each 2^64 cycles that a task takes at least; a task that costs more than the longest period takes all.
fn share(task: &Task) -> u128
    requires { IsTask task.now }
    ensures { result ≡ share_of task.now }
{
    if task.cost > u128::from(LONGEST) {
        return WHOLE;
    }
    task.cost * WHOLE / u128::from(task.period)
}

/// The part of each 2^64 cycles that tasks take at least.
fn shares(tasks: &[Task]) -> u128
    requires few { length tasks.now ≤ 64 }
    requires tasks { AllByRecursion IsTask tasks.now }
    ensures { result ≡ shares_of tasks.now }
{
    let mut sum = 0;
    for task in tasks {
        sum += share(task);
    }
    sum
}

/// What tasks ask of the processor in a window, in cycles; the greatest number of 128 bits where that is more.
fn asked(tasks: &[Task], window: u64) -> u128
    requires window { window ≤ 1000000000 }
    requires tasks { AllByRecursion IsTask tasks.now }
    ensures { result ≡ min (demand tasks.now window) (2 ^ 128 - 1) }
{
    let mut sum: u128 = 0;
    for task in tasks {
        let jobs = (window + (task.period - 1)) / task.period;
        sum = sum.saturating_add(task.cost.saturating_mul(u128::from(jobs)));
    }
    sum
}

/// A number of cycles that no window of a task that costs something is below; `None` where all are longer than any
/// deadline.
fn least(higher: &[Task], task: &Task) -> Option<u64>
    requires few { length higher.now ≤ 64 }
    requires tasks { AllByRecursion IsTask higher.now }
    requires some { 0 < task.now.cost }
    requires cost { task.now.cost ≤ 1000000000 }
    ensures below { IfSome result (IsBelowWindows higher.now task.now) }
    ensures rises { IfSome result (λ x. x ≤ task.now.cost + demand higher.now x) }
    ensures none { IfNone result ((w : ℕ) → IsWindow higher.now task.now w → 1000000000 < w) }
{
    let taken = shares(higher);
    if taken >= WHOLE {
        return None;
    }
    match u64::try_from(task.cost * WHOLE / (WHOLE - taken)) {
        Ok(least) => Some(least),
        Err(_) => None,
    }
}

/// The response time of a task among those of higher priority, in cycles; `None` where no window ends by its deadline.
pub(crate) fn response(higher: &[Task], task: &Task) -> Option<u64>
    requires few { length higher.now ≤ 64 }
    requires tasks { AllByRecursion IsTask higher.now }
    requires task { IsTask task.now }
    ensures { IsResponse higher.now task.now result }
{
    if task.cost == 0 {
        return Some(0);
    }
    if task.cost > u128::from(task.deadline) {
        return None;
    }
    let mut window = least(higher, task)?;
    while window <= task.deadline {
        let end = task.cost.saturating_add(asked(higher, window));
        if end == u128::from(window) {
            return Some(window);
        }
        if end > u128::from(task.deadline) {
            return None;
        }
        window = end as u64;
    }
    None
}
