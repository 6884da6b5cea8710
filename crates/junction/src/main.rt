// The command-line program: it reads plan files, tells what is in them and runs them.
#![tactic(auto)]

use commands::answer_line;
use std::process::ExitCode;

fn main(rt: HostRuntime) -> ExitCode {
    ExitCode::from(answer_line(&rt))
}
