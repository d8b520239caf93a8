//! Works out the response times of the tasks of each line of standard input, and prints the line with them.
//!
//! A line is the tasks in order of priority, the highest first, each as `COST,PERIOD,DEADLINE` in cycles; `-` has no
//! task. A task whose window doesn't end by its deadline misses. What stands in brackets at the end says why the line
//! is here.
#![tactic(auto)]

ghost use Rattle.std.specs.Prelude.{IfOk};
ghost use Rattle.std.specs.List.{AllByRecursion};
ghost use Rattle.response_times.specs.Responses.{IsTask};

use anyhow::{Context, bail};
use response_times::{Task, responses};
use std::alloc::Global;

/// A number of a task.
fn number(word: Option<&str>) -> anyhow::Result<u64> {
    let digits = word.context("a number too few")?;
    digits.parse::<u64>().context("no number")
}

/// The cost of a task.
fn cost(word: Option<&str>) -> anyhow::Result<u128> {
    let digits = word.context("a cost too few")?;
    digits.parse::<u128>().context("no cost")
}

/// The tasks of a line.
fn tasks(alloc: Global, text: &str) -> anyhow::Result<Vec<Task>>
    ensures { IfOk result (λ tasks. AllByRecursion IsTask tasks.items) }
{
    let mut tasks = Vec::new(alloc);
    if text == "-" {
        return Ok(tasks);
    }
    for word in text.split(' ') {
        let mut numbers = word.split(',');
        let cost = cost(numbers.next())?;
        let period = number(numbers.next())?;
        let deadline = number(numbers.next())?;
        let task = Task::new(cost, period, deadline).context("a number past its limits")?;
        tasks.push(task)?;
    }
    Ok(tasks)
}

fn main(rt: HostRuntime) -> anyhow::Result<()> {
    let alloc = rt.alloc();
    for line in rt.lines(alloc) {
        let line = line?;
        let (asked, _) = line
            .as_str()
            .split_once(" (")
            .unwrap_or((line.as_str(), ""));
        let tasks = tasks(alloc, asked)?;
        print!(rt; "{line}:")?;
        if tasks.len() > 64 {
            bail!("too many tasks");
        }
        for response in responses(alloc, tasks.as_slice())?.iter() {
            match response {
                Some(time) => print!(rt; " {time}")?,
                None => print!(rt; " misses")?,
            }
        }
        println!(rt; "")?;
    }
    Ok(())
}
