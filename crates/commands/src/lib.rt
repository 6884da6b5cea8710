// The commands of the program: what is asked for on the command line, done and printed.
#![tactic(auto)]

mod batches;
mod check;
mod command;
mod failure;
mod files;
mod history;
mod line;
mod options;
mod possible;
mod replay;
mod sources;
mod walk;
mod words;

ghost use Rattle.std.specs.Prelude.{◌≡◌, ◌≢◌, IfErr, IfOk, is_ok};
ghost use Rattle.clap.specs.Words.{kind_of};
ghost use Rattle.clap.specs.declared.error.kind.ErrorKind.TheVariants.{OutOfMemory};
ghost use Rattle.commands.specs.Failures.{IsStatusOf, IsWrongLine};
ghost use Rattle.commands.specs.declared.failure.Failure.TheVariants.{Line};

use crate::failure::Failure;
use crate::line::command_line;
use crate::words::given_words;
use clap::error::ErrorKind;
use std::alloc::AllocError;
use std::io;

// What comes of help that was to be printed. Where it is not written, the work failed.
fn written(help: io::Result<()>) -> Result<(), Failure>
    ensures told { is_ok result ≡ is_ok help }
    ensures failed_work { IfErr result (λ failure. IsStatusOf failure 1) }
{
    match help {
        Ok(()) => Ok(()),
        Err(error) => Err(Failure::Work(anyhow::Error::from(error))),
    }
}

// Prints help or the version, where that is asked for; else the line is wrong.
fn print_help(rt: &HostRuntime, asked: clap::Error) -> Result<(), Failure>
    ensures help_alone { IfOk result (λ _. IsWrongLine asked → ⊥) }
    ensures help_is_no_wrong_line { IfErr result (λ failure. (IsWrongLine asked → ⊥)
        → IsStatusOf failure 1) }
    ensures a_wrong_line_is_told { IfErr result (λ failure. IsWrongLine asked
        → kind_of asked ≢ OutOfMemory → failure ≡ Line asked) }
    ensures memory_that_is_out_is_failed_work { IfErr result (λ failure.
        kind_of asked ≡ OutOfMemory → IsStatusOf failure 1) }
{
    if let ErrorKind::OutOfMemory = asked.kind() {
        return Err(Failure::Work(anyhow::Error::from(AllocError)));
    }
    if asked.use_stderr() {
        return Err(Failure::Line(asked));
    }
    written(asked.print(rt))
}

// Does what the words of a command line ask for, the first of which is the program's name.
fn carried_out(rt: &HostRuntime, words: &[String]) -> Result<(), Failure> {
    let matches = match command_line(rt.alloc())?.try_get_matches_from(words) {
        Ok(matches) => matches,
        Err(asked) => return print_help(rt, asked),
    };
    match matches.subcommand() {
        Some(("batch", given)) => batches::run_batch(rt, given),
        Some(("check", given)) => check::check(rt, given),
        Some(("possible", given)) => possible::possible(rt, given),
        Some(("regions", given)) => walk::regions(rt, given),
        Some(("replay", given)) => replay::replay_file(rt, given),
        Some(("run", given)) => history::run_plan(rt, given),
        _ => Ok(rt.print(command_line(rt.alloc())?.render_help()?.as_str())?),
    }
}

// Does what the words of a command line ask for, and tells on standard error where it fails.
// Answers the status with which the program ends: 0, 1 where the work failed or was refused, 2
// where the words are wrong.
pub fn answer(rt: &HostRuntime, words: &[String]) -> u8 {
    match carried_out(rt, words) {
        Ok(()) => 0,
        Err(failure) => failure.told(rt),
    }
}

// Does what the program's own command line asks for, and answers its status likewise.
pub fn answer_line(rt: &HostRuntime) -> u8 {
    match given_words(rt) {
        Ok(words) => answer(rt, &words),
        Err(failure) => failure.told(rt),
    }
}
