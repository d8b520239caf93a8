//! Reads lists of words, one a line of input, and prints each line with what the words ask for, or that they are
//! wrong.
//!
//! ```text
//! words WORD..                   words with one space between two; without a space after `words` there is none
//! laws                           calls the law
//! ```
//!
//! The reason of a line stands after ` # `.
#![tactic(auto)]

use command_words::{
    AnalysisSetup, Command, FunctionWord, Setup, Task, TimingWord, Valuation, numbers_are_decimal,
    read_command,
};
use std::alloc::{AllocError, Global};

fn push_task(out: &mut String, task: &Task) -> Result<(), AllocError> {
    write!(out, "file {}", task.elf.as_str())?;
    match &task.timing {
        TimingWord::UnitTable => out.push_str(" unit")?,
        TimingWord::File(name) => write!(out, " file {}", name.as_str())?,
    }
    match &task.function {
        FunctionWord::Address(address) => write!(out, " address {address:x}")?,
        FunctionWord::Symbol(name) => write!(out, " symbol {}", name.as_str())?,
    }
    Ok(())
}

fn push_setup(out: &mut String, setup: &Setup) -> Result<(), AllocError> {
    for each in setup.values.as_slice() {
        write!(out, " r{}={}", each.register, each.value)?;
    }
    write!(
        out,
        " sp {:x} stack {} steps {}",
        setup.sp, setup.stack, setup.steps
    )?;
    Ok(())
}

fn push_analysis(out: &mut String, setup: &AnalysisSetup) -> Result<(), AllocError> {
    for each in setup.params.as_slice() {
        let name = each.name.as_str();
        write!(
            out,
            " {name} r{} {} to {}",
            each.register, each.low, each.high
        )?;
    }
    write!(out, " stack {}", setup.stack)
}

fn push_valuation(out: &mut String, valuation: &Valuation) -> Result<(), AllocError> {
    write!(out, "file {}", valuation.report.as_str())?;
    for each in valuation.values.as_slice() {
        write!(out, " {}={}", each.name.as_str(), each.value)?;
    }
    Ok(())
}

/// What a command is, in words.
fn shown(alloc: Global, command: &Command) -> Result<String, AllocError> {
    let mut out = String::new(alloc);
    match command {
        Command::Analyse(task, setup) => {
            out.push_str("analyse ")?;
            push_task(&mut out, task)?;
            push_analysis(&mut out, setup)?;
        }
        Command::Run(task, setup) => {
            out.push_str("run ")?;
            push_task(&mut out, task)?;
            push_setup(&mut out, setup)?;
        }
        Command::Eval(valuation) => {
            out.push_str("eval ")?;
            push_valuation(&mut out, valuation)?;
        }
    }
    Ok(out)
}

fn words_line(rt: HostRuntime, line: &str, asked: &str) -> anyhow::Result<()> {
    let mut words = Vec::new(rt.alloc());
    for word in asked.split(' ').skip(1) {
        words.push(String::from_str(rt.alloc(), word)?)?;
    }
    match read_command(rt.alloc(), words.as_slice())? {
        Some(command) => {
            let shown = shown(rt.alloc(), &command)?;
            println!(rt; "{line}: {shown}")?;
        }
        None => println!(rt; "{line}: wrong")?,
    }
    Ok(())
}

fn laws_line(rt: HostRuntime, line: &str) -> anyhow::Result<()> {
    numbers_are_decimal();
    println!(rt; "{line}: called")?;
    Ok(())
}

fn main(rt: HostRuntime) -> anyhow::Result<()> {
    for line in rt.lines(rt.alloc()) {
        let line = line?;
        let line = line.as_str();
        let (asked, _reason) = line.split_once(" # ").unwrap_or((line, ""));
        if asked.starts_with("words") {
            words_line(rt, line, asked)?;
        } else if asked == "laws" {
            laws_line(rt, line)?;
        } else {
            println!(rt; "{line}: no such call")?;
        }
    }
    Ok(())
}
