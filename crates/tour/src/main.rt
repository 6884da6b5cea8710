// Goes through a list of command lines, as a planner would type them, and shows what each prints.
#![tactic(auto)]

use anyhow::Context;
use commands::answer;
use std::fs;
use std::process::ExitCode;

// Carries out one line, and tells its status where that is not 0.
fn show(rt: &HostRuntime, line: &str) -> anyhow::Result<()> {
    println!(rt; "$ {line}")?;
    let mut words = Vec::new(rt.alloc());
    for word in line.split_whitespace() {
        words.push(String::from_str(rt.alloc(), word)?)?;
    }
    let status = answer(rt, &words);
    if status != 0 {
        println!(rt; "(status {status})")?;
    }
    Ok(())
}

fn main(rt: HostRuntime) -> anyhow::Result<ExitCode> {
    let text = fs::read_to_string(&rt, "lines.txt").context("there is no file lines.txt")?;
    for line in text.as_str().lines() {
        show(&rt, line)?;
    }
    Ok(ExitCode::SUCCESS)
}
